//! Calls of a rack, each made only where the rack allows it.

ghost use Rattle.std.specs.Prelude.{◌≡◌, ◌<◌, IsTrue};

use paraid_base::{Block, DiskNo, Failed, Place};
use paraid_rack::{Power, Rack};

/// A call on a disk.
#[derive(Clone, Copy)]
pub enum Step {
    Attach(u32),
    /// Writes a block of this byte.
    Write(Place, u8),
    /// It is done where the block is filled with this byte.
    Read(Place, u8),
    Sync,
    Park,
    SpinUp,
}

/// A call was done, failed, gave other bytes, or was not allowed.
pub const DONE: u8 = b'.';

const FAILED: u8 = b'x';

const OTHER: u8 = b'?';

const NOT: u8 = b'-';

fn mark(answer: Result<(), Failed>) -> u8 {
    match answer {
        Ok(()) => DONE,
        Err(Failed) => FAILED,
    }
}

fn spins<R: Rack>(rack: &R, disk: DiskNo) -> bool
    ensures exists { IsTrue result → disk < R.slot_count rack.now }
    ensures spinning { IsTrue result → (R.slot rack.now disk).power ≡ Power.Spinning }
{
    disk < rack.slots() && rack.power(disk) == Power::Spinning
}

fn attach<R: Rack>(rack: &mut R, disk: DiskNo, size: u32) -> u8 {
    if disk < rack.slots() {
        mark(rack.attach(disk, size))
    } else {
        NOT
    }
}

fn write<R: Rack>(rack: &mut R, disk: DiskNo, place: Place, byte: u8) -> u8 {
    let block = Block::from_array([byte; 512]);
    if spins(rack, disk) && place < rack.size(disk) {
        mark(rack.write(disk, place, &block))
    } else {
        NOT
    }
}

fn read<R: Rack>(rack: &mut R, disk: DiskNo, place: Place, byte: u8) -> u8 {
    let mut block = Block::zero();
    if spins(rack, disk) && place < rack.size(disk) {
        match rack.read(disk, place, &mut block) {
            Ok(()) => compared(&block, byte),
            Err(Failed) => FAILED,
        }
    } else {
        NOT
    }
}

fn compared(block: &Block, byte: u8) -> u8 {
    if block.as_slice() == [byte; 512].as_slice() {
        DONE
    } else {
        OTHER
    }
}

fn sync<R: Rack>(rack: &mut R, disk: DiskNo) -> u8 {
    if spins(rack, disk) {
        mark(rack.sync(disk))
    } else {
        NOT
    }
}

fn park<R: Rack>(rack: &mut R, disk: DiskNo) -> u8 {
    if spins(rack, disk) && !rack.unsynced(disk) {
        mark(rack.park(disk))
    } else {
        NOT
    }
}

fn spin_up<R: Rack>(rack: &mut R, disk: DiskNo) -> u8 {
    if disk < rack.slots() && rack.power(disk) == Power::Parked {
        mark(rack.spin_up(disk))
    } else {
        NOT
    }
}

/// Makes the call, and tells how it went.
pub fn make<R: Rack>(rack: &mut R, disk: DiskNo, step: Step) -> u8 {
    match step {
        Step::Attach(size) => attach(rack, disk, size),
        Step::Write(place, byte) => write(rack, disk, place, byte),
        Step::Read(place, byte) => read(rack, disk, place, byte),
        Step::Sync => sync(rack, disk),
        Step::Park => park(rack, disk),
        Step::SpinUp => spin_up(rack, disk),
    }
}

/// How a slot is powered, how large its disk is, and whether it is unsynced.
pub fn told<R: Rack>(rack: &R, disk: DiskNo) -> Option<(Power, u32, bool)> {
    if disk < rack.slots() {
        Some((rack.power(disk), rack.size(disk), rack.unsynced(disk)))
    } else {
        None
    }
}
