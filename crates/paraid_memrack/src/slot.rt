//! The slots of a rack in memory, and what each call makes of one.
ghost use Rattle.std.specs.Prelude.{◌≡◌, ℕ, ◌<◌, ◌≤◌, true, false, length, map, slice_set, IfOk, []};
ghost use Rattle.paraid_rack.specs.declared.call.Power.TheVariants.{Absent, Spinning};
ghost use Rattle.paraid_memrack.specs.Slots.{SetsSlot, full_slot, full_slot_at, full_slot_from, no_slot, after_failure};
ghost use Rattle.paraid_memrack.specs.Tells.{beginning_of};

use crate::log::Start;
use paraid_base::{Block, DiskNo, NoMemory, Place};
use paraid_rack::Power;
use std::alloc::Global;

/// A slot with its disk, or with no block where it is absent.
#[derive(Drop)]
pub struct MemSlot {
    pub power: Power,
    pub blocks: Vec<Block>,
    pub unsynced: bool,
    pub faults: u64,
}

/// So many slots with no disk.
pub fn absent_slots(alloc: Global, count: u8) -> Result<Vec<MemSlot>, NoMemory>
    ensures length { IfOk result (λ slots. length slots.items ≡ count) }
    ensures absent { IfOk result (λ slots. (d : ℕ) → full_slot_at slots.items d ≡ no_slot) }
{
    let Ok(mut slots) = Vec::with_capacity(alloc, count as usize) else {
        return Err(NoMemory);
    };
    for _i in 0..count {
        slots.push_reserved(MemSlot {
            power: Power::Absent,
            blocks: Vec::new(alloc),
            unsynced: false,
            faults: 0,
        });
    }
    Ok(slots)
}

/// The slots as they are at the start.
pub fn first_slots(alloc: Global, start: &Vec<Start>) -> Result<Vec<MemSlot>, NoMemory>
    ensures { IfOk result (λ slots.
        map full_slot slots.items ≡ map full_slot_from (map beginning_of start.now.items)) }
{
    let Ok(mut slots) = Vec::with_capacity(alloc, start.len()) else {
        return Err(NoMemory);
    };
    for slot in start.iter() {
        slots.push_reserved(MemSlot {
            power: slot.power,
            blocks: copies_of(alloc, &slot.blocks)?,
            unsynced: false,
            faults: 0,
        });
    }
    Ok(slots)
}

/// The same blocks again.
pub fn copies_of(alloc: Global, blocks: &Vec<Block>) -> Result<Vec<Block>, NoMemory>
    ensures { IfOk result (λ copies. copies.items ≡ blocks.now.items) }
{
    let Ok(mut copies) = Vec::with_capacity(alloc, blocks.len()) else {
        return Err(NoMemory);
    };
    for block in blocks.iter() {
        copies.push_reserved(block.copy());
    }
    Ok(copies)
}

/// The disk has failed, and gives its blocks back.
pub fn fail(slots: &mut Vec<MemSlot>, alloc: Global, disk: DiskNo, dirt: bool)
    requires { disk < length slots.old.items }
    ensures becomes { SetsSlot slots.old.items slots.new.items disk
        (after_failure dirt (full_slot_at slots.old.items disk)) }
    ensures later { (full_slot_at slots.old.items disk).faults
        ≤ (full_slot_at slots.new.items disk).faults }
{
    let slot = &mut slots[disk as usize];
    slot.power = Power::Absent;
    slot.blocks = Vec::new(alloc);
    slot.unsynced = dirt;
    let before = slot.faults;
    slot.faults = before.saturating_add(1);
}

/// There is no disk any more.
pub fn remove(slots: &mut Vec<MemSlot>, alloc: Global, disk: DiskNo)
    requires { disk < length slots.old.items }
    ensures { SetsSlot slots.old.items slots.new.items disk
        (record (full_slot_at slots.old.items disk) { power = Absent; blocks = [] }) }
{
    let lost = &mut slots[disk as usize];
    lost.power = Power::Absent;
    lost.blocks = Vec::new(alloc);
}

/// A block is written.
pub fn put(slots: &mut Vec<MemSlot>, disk: DiskNo, place: Place, block: &Block)
    requires exists { disk < length slots.old.items }
    requires within { place < length (full_slot_at slots.old.items disk).blocks }
    ensures { let was = full_slot_at slots.old.items disk in
        SetsSlot slots.old.items slots.new.items disk
        (record was { blocks = slice_set was.blocks place block.now; unsynced = true }) }
{
    let slot = &mut slots[disk as usize];
    slot.blocks[place as usize].copy_from(block);
    slot.unsynced = true;
}

/// What was written is kept.
pub fn mark_synced(slots: &mut Vec<MemSlot>, disk: DiskNo)
    requires { disk < length slots.old.items }
    ensures { SetsSlot slots.old.items slots.new.items disk
        (record (full_slot_at slots.old.items disk) { unsynced = false }) }
{
    slots[disk as usize].unsynced = false;
}

/// The disk is powered otherwise.
pub fn turn(slots: &mut Vec<MemSlot>, disk: DiskNo, power: Power)
    requires { disk < length slots.old.items }
    ensures { SetsSlot slots.old.items slots.new.items disk
        (record (full_slot_at slots.old.items disk) { power = power }) }
{
    slots[disk as usize].power = power;
}

/// A fresh disk with these blocks is in the slot.
pub fn fill(slots: &mut Vec<MemSlot>, disk: DiskNo, blocks: Vec<Block>)
    requires { disk < length slots.old.items }
    ensures { SetsSlot slots.old.items slots.new.items disk (record (full_slot_at
        slots.old.items disk) { power = Spinning; blocks = blocks.items; unsynced = false }) }
{
    let slot = &mut slots[disk as usize];
    slot.power = Power::Spinning;
    slot.blocks = blocks;
    slot.unsynced = false;
}
