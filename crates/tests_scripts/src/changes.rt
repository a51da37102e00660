//! Changes of the disks by hand. Each is made on disks before any call, and leaves such.

use crate::lines::{first_byte, first_number};
use crate::runs::{NEVER, restarted};
use paraid_base::{Block, DiskNo, Place};
use paraid_memrack::{MemRack, Pick};
use paraid_rack::{Power, Rack};
use std::alloc::Global;

/// The disks without this one.
pub fn without(alloc: Global, disks: &MemRack, disk: DiskNo) -> Option<MemRack> {
    let moment = disks.calls();
    let mut left = disks
        .stopped(alloc, moment, Pick::New, NEVER, Vec::new(alloc))
        .ok()?;
    if disk >= left.slots() {
        return None;
    }
    left.lose(disk);
    Some(left)
}

fn park(disks: &mut MemRack, disk: DiskNo) -> Option<()> {
    let may_park = disk < disks.slots()
        && disks.power(disk) == Power::Spinning
        && !disks.unsynced(disk);
    if may_park {
        return disks.park(disk).ok();
    }
    None
}

fn attach(disks: &mut MemRack, disk: DiskNo, size: u32) -> Option<()> {
    if disk < disks.slots() {
        return disks.attach(disk, size).ok();
    }
    None
}

fn put(disks: &mut MemRack, disk: DiskNo, place: Place, block: &Block) -> Option<()> {
    let may_write = disk < disks.slots()
        && disks.power(disk) == Power::Spinning
        && place < disks.size(disk);
    if may_write {
        return disks.write(disk, place, block).ok();
    }
    None
}

fn fill(disks: &mut MemRack, disk: DiskNo, byte: u8) -> Option<()> {
    let block = Block::from_array([byte; 512]);
    for place in 0..108 {
        put(disks, disk, place, &block)?;
    }
    Some(())
}

// A copy of a block.
fn block_at(disks: &MemRack, disk: DiskNo, place: Place) -> Option<Block> {
    if disk < disks.slots() && place < disks.size(disk) {
        Some(disks.block(disk, place).copy())
    } else {
        None
    }
}

// The place of a byte: the number of its block, and its own in that block.
fn spot_of(text: &str) -> (Place, usize, &str) {
    let (place, rest) = first_number(text);
    let (at, rest) = first_number(rest);
    (place, at as usize, rest)
}

// Puts all blocks of a disk of the others into that slot.
fn fill_from(disks: &mut MemRack, others: &MemRack, disk: DiskNo) -> Option<()> {
    if disk >= others.slots() || others.power(disk) != Power::Spinning {
        return None;
    }
    let size = others.size(disk);
    attach(disks, disk, size)?;
    for place in 0..size {
        let block = block_at(others, disk, place)?;
        put(disks, disk, place, &block)?;
    }
    Some(())
}

/// The disks with this one as it is among the others.
pub fn put_back(alloc: Global, disks: &MemRack, others: &MemRack, disk: DiskNo) -> Option<MemRack> {
    let mut disks = restarted(alloc, disks, &[])?;
    fill_from(&mut disks, others, disk)?;
    restarted(alloc, &disks, &[])
}

fn set_byte(disks: &mut MemRack, disk: DiskNo, text: &str) -> Option<()> {
    let (place, at, rest) = spot_of(text);
    let (byte, _rest) = first_byte(rest);
    let mut block = block_at(disks, disk, place)?;
    if at >= 512 {
        return None;
    }
    block.set(at, byte);
    put(disks, disk, place, &block)
}

/// The byte of a disk that is named by its place and its number there.
pub fn byte_at(alloc: Global, disks: &MemRack, text: &str) -> Option<String> {
    let (disk, rest) = first_byte(text);
    let (place, at, _rest) = spot_of(rest);
    let block = block_at(disks, disk, place)?;
    let byte = *block.as_slice().get(at)?;
    format!(in alloc; "{byte}").ok()
}

fn change(disks: &mut MemRack, word: &str, text: &str) -> Option<()> {
    let (disk, rest) = first_byte(text);
    match word {
        "park" => park(disks, disk),
        "fresh" => attach(disks, disk, first_number(rest).0),
        "fill" => fill(disks, disk, first_byte(rest).0),
        _ => set_byte(disks, disk, rest),
    }
}

/// The disks with the change that these words name.
pub fn changed(alloc: Global, disks: &MemRack, word: &str, text: &str) -> Option<MemRack> {
    let mut disks = restarted(alloc, disks, &[])?;
    change(&mut disks, word, text)?;
    restarted(alloc, &disks, &[])
}
