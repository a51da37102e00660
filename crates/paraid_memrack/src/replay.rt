//! All slots as they were at an earlier moment, made again call by call.
ghost use Rattle.std.specs.Prelude.{◌≡◌, ℕ, ◌<◌, length, map, IfOk, OnOk};
ghost use Rattle.paraid_base.specs.declared.block.Block.{Block as BlockType};
ghost use Rattle.paraid_rack.specs.Disks.{Disks, step};
ghost use Rattle.paraid_rack.specs.Calls.{disk_of};
ghost use Rattle.paraid_memrack.specs.Past.{past_of, past_start, AllPast, in_bytes, left_in_bytes};
ghost use Rattle.paraid_memrack.specs.Stop.{kept_after};
ghost use Rattle.paraid_memrack.specs.Tells.{beginning_of};

use crate::log::Start;
use crate::past::PastSlot;
use crate::stop::Pick;
use paraid_base::NoMemory;
use paraid_rack::Call;
use std::alloc::Global;

/// The slots at the start.
pub fn slots_at_start(alloc: Global, start: &Vec<Start>) -> Result<Vec<PastSlot>, NoMemory>
    ensures { IfOk result (λ slots.
        map past_of slots.items ≡ map past_start (map beginning_of start.now.items)) }
{
    let Ok(mut slots) = Vec::with_capacity(alloc, start.len()) else {
        return Err(NoMemory);
    };
    for slot in start.iter() {
        slots.push_reserved(PastSlot::at_start(alloc, slot)?);
    }
    Ok(slots)
}

/// The slots after this call.
pub fn follow(slots: &mut Vec<PastSlot>, alloc: Global, call: &Call) -> Result<(), NoMemory>
    requires { disk_of call.now < length slots.old.items }
    ensures length { length slots.new.items ≡ length slots.old.items }
    ensures slots { OnOk result ((s : Disks) (kept : ℕ → ℕ → BlockType)
        → AllPast s kept slots.old.items
        → AllPast (step call.now s) (kept_after call.now s kept) slots.new.items) }
{
    let disk = call.disk();
    slots[disk as usize].follow(alloc, call)?;
    Ok(())
}

/// The start of a rack that these slots leave after a stop.
pub fn left(alloc: Global, slots: &Vec<PastSlot>, pick: Pick) -> Result<Vec<Start>, NoMemory>
    ensures { IfOk result (λ start. map in_bytes (map beginning_of start.items)
        ≡ map (left_in_bytes pick) (map past_of slots.now.items)) }
{
    let Ok(mut start) = Vec::with_capacity(alloc, slots.len()) else {
        return Err(NoMemory);
    };
    for slot in slots.iter() {
        start.push_reserved(slot.left(alloc, pick)?);
    }
    Ok(start)
}
