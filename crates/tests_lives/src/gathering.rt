//! Writes that are gathered: of two writes to one block the disk below sees the second one.
ghost use Rattle.std.specs.Prelude.{◌≡◌, ◌<◌, IfSome, OnOk};
ghost use Rattle.paraid_rack.specs.Told.{Ran};
ghost use Rattle.paraid_memrack.specs.Rules.{told_of};
ghost use Rattle.tests_lives.specs.Gathered.{TellsGathered, written_twice};

use paraid_base::{Block, Failed};
use paraid_gather::Gathered;
use paraid_memrack::MemRack;
use paraid_rack::Rack;
use std::alloc::Global;

// A disk comes into the first slot. A block of it is written twice and then synced.
fn write_twice<R: Rack>(rack: &mut R, first: &Block, second: &Block) -> Result<(), Failed>
    requires { 0 < R.slot_count rack.old }
    ensures { OnOk result (Ran (R.told rack.old) (R.told rack.new)
        (λ s calls. calls ≡ written_twice first.now second.now)) }
{
    rack.attach(0, 4)?;
    rack.write(0, 2, first)?;
    rack.write(0, 2, second)?;
    rack.sync(0)?;
    Ok(())
}

/// The disks below a rack that gathers, after a block was written twice and then synced. `None` is
/// of no memory.
pub fn gather_writes(alloc: Global, first: &Block, second: &Block) -> Option<MemRack>
    ensures { IfSome result (λ rack.
        TellsGathered (written_twice first.now second.now) (told_of rack)) }
{
    let Ok(bare) = MemRack::new(alloc, 1, 4, 4, Vec::new(alloc)) else {
        return None;
    };
    let Ok(log) = bare.list(alloc) else {
        return None;
    };
    let Ok(mut gathered) = Gathered::new(alloc, bare, log) else {
        return None;
    };
    let Ok(()) = write_twice(&mut gathered, first, second) else {
        return None;
    };
    let _above = gathered.log().told_calls()?;
    let rack = gathered.into_rack();
    let _below = rack.told_calls()?;
    Some(rack)
}
