//! What a line asks for, and what is answered.

use crate::{Block, BlockNo, DiskNo, GearReport, Halt, Pairs, Status};

/// What a line of the trace asks for.
#[derive(Drop)]
pub enum Event {
    /// Read a block.
    Read { block: BlockNo },
    /// Write these bytes to these blocks, all or none of them.
    Write { pairs: Pairs },
    /// Keep all writes that were accepted.
    Flush,
    /// A unit of time has passed.
    Tick,
    /// Begin a shift to the next higher gear.
    Up,
    /// Begin a shift to the next lower gear.
    Down,
    /// Take a disk out. The number is as given, and may be of no disk.
    Fail { disk: u32 },
    /// Replace the disk that is out. The number is as given, and may be of no disk.
    Replace { disk: u32 },
    /// Tell the state.
    State,
    /// Tell the energy since the mount.
    Energy,
    /// The line is no event.
    Bad,
}

/// The answer to an event.
#[derive(Drop)]
pub enum Answer {
    /// The bytes of a block that was read.
    Value { block: BlockNo, bytes: Block },
    /// The array has no such block.
    NoBlock { block: BlockNo },
    /// The number of the write that was accepted, from 1.
    Wrote { number: u64 },
    /// The number of writes that a stop no longer takes away.
    Flushed { writes: u64 },
    /// What a tick did.
    Ticked(GearReport),
    /// A shift from `gear` to `to` began.
    Shift { gear: u8, to: u8 },
    /// There is no higher gear.
    Top,
    /// There is no lower gear.
    Lowest,
    /// A shift to `to` is under way.
    Shifting { to: u8 },
    /// This disk was taken out.
    Failed { disk: DiskNo },
    /// This disk was replaced.
    Replaced { disk: DiskNo },
    /// The array has no such disk.
    NoDisk { disk: u32 },
    /// This disk is out.
    Out { disk: DiskNo },
    /// This disk is not out.
    NotOut { disk: DiskNo },
    /// No fresh disk could be had in this slot.
    NoFresh { disk: DiskNo },
    /// No shift down: it would park this disk, which has used up its allowance of spin-ups.
    Ration { disk: DiskNo },
    /// The state of an array of so many disks.
    State { status: Status, disks: u8 },
    /// The energy since the mount, in millijoules.
    Energy { total: u64 },
    /// The line is no event.
    Bad,
    /// The array has halted.
    Halted(Halt),
}
