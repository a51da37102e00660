//! An image of the disks in memory: for each slot its power and its blocks.
ghost use Rattle.std.specs.Prelude.{◌≡◌, ◌<◌, ◌++◌, [], ◌∷◌, length, slice_set, replicate, map, OnOk, OnErr};
ghost use Rattle.paraid_base.specs.declared.block.Block.{Block as BlockType};
ghost use Rattle.paraid_base.specs.Xor.{zero_block};
ghost use Rattle.paraid_rack.specs.Disks.{is_present, with_at};
ghost use Rattle.paraid_image.specs.Neutral.{overwrite};
ghost use Rattle.paraid_image.specs.Sides.{has_place, stored_block};
ghost use Rattle.paraid_plain.specs.Images.{beginning_in, disks_in};

use paraid_base::{Block, DiskNo, NoMemory, Place};
use paraid_rack::Power;
use std::alloc::Global;

/// A slot: how it is powered, and the blocks of its disk.
#[derive(Drop)]
pub struct ImageSlot {
    pub power: Power,
    pub blocks: Vec<Block>,
}

/// What is on all disks, with nothing loose. A slot that does not exist is an absent one.
#[derive(Drop)]
pub struct Image {
    pub slots: Vec<ImageSlot>,
}

impl Image {
    /// An image with no slot.
    pub fn new(alloc: Global) -> Self
        ensures { result.slots.items ≡ [] }
    {
        Image {
            slots: Vec::new(alloc),
        }
    }

    /// One more slot, with a disk of so many blocks of zeros.
    pub fn add(&mut self, alloc: Global, power: Power, size: u32) -> Result<(), NoMemory>
        ensures done { OnOk result (map beginning_in self.new.slots.items
            ≡ map beginning_in self.old.slots.items
            ++ record { power = power; blocks = replicate size zero_block } ∷ []) }
        ensures failed { OnErr result (self.new.slots.items ≡ self.old.slots.items) }
    {
        let blocks = Block::zeros(alloc, size)?;
        let Ok(()) = self.slots.push(ImageSlot { power, blocks }) else {
            return Err(NoMemory);
        };
        Ok(())
    }

    /// How many slots there are.
    pub fn slots(&self) -> usize
        ensures { result ≡ length self.now.slots.items }
    {
        self.slots.len()
    }

    /// How a slot is powered.
    pub fn power(&self, disk: DiskNo) -> Power
        ensures { result ≡ (disks_in self.now).power disk }
    {
        match self.slots.get(disk as usize) {
            Some(slot) => slot.power,
            None => Power::Absent,
        }
    }

    /// Whether there is a disk in a slot.
    pub fn is_present(&self, disk: DiskNo) -> bool
        ensures { result ≡ is_present ((disks_in self.now).power disk) }
    {
        self.power(disk) != Power::Absent
    }

    /// How many blocks a slot has.
    pub fn size(&self, disk: DiskNo) -> usize
        ensures { result ≡ (disks_in self.now).size disk }
    {
        match self.slots.get(disk as usize) {
            Some(slot) => slot.blocks.len(),
            None => 0,
        }
    }

    /// Whether a disk is there and has this place.
    pub fn has_place(&self, disk: DiskNo, place: Place) -> bool
        ensures { result ≡ has_place (disks_in self.now) disk place }
    {
        self.is_present(disk) && (place as usize) < self.size(disk)
    }

    /// The block at a place, zeros where there is no such place.
    pub fn stored(&self, disk: DiskNo, place: Place) -> Block
        ensures { result ≡ stored_block (disks_in self.now) disk place }
    {
        if !self.has_place(disk, place) {
            return Block::zero();
        }
        self.slots[disk as usize].blocks[place as usize].copy()
    }

    /// Powers a slot otherwise.
    pub fn set_power(&mut self, disk: DiskNo, power: Power)
        requires { disk < length self.old.slots.items }
        ensures disks { disks_in self.new
            ≡ record (disks_in self.old) { power = with_at (disks_in self.old).power disk power } }
        ensures slots { length self.new.slots.items ≡ length self.old.slots.items }
    {
        self.slots[disk as usize].power = power;
    }

    /// Changes a block.
    pub fn set_block(&mut self, disk: DiskNo, place: Place, block: &Block)
        requires { place < (disks_in self.old).size disk }
        ensures disks { disks_in self.new ≡ overwrite (disks_in self.old) disk place block.now }
        ensures slots { length self.new.slots.items ≡ length self.old.slots.items }
    {
        self.slots[disk as usize].blocks[place as usize].copy_from(block);
    }

    /// Changes one byte of a block.
    pub fn set_byte(&mut self, disk: DiskNo, place: Place, at: usize, byte: u8)
        requires place { place < (disks_in self.old).size disk }
        requires at { at < 512 }
        ensures disks { (b : BlockType)
            → b.bytes ≡ slice_set ((disks_in self.old).block disk place).bytes at byte
            → disks_in self.new ≡ overwrite (disks_in self.old) disk place b }
        ensures slots { length self.new.slots.items ≡ length self.old.slots.items }
    {
        self.slots[disk as usize].blocks[place as usize].set(at, byte);
    }
}
