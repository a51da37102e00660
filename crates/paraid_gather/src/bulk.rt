//! A rack that writes blocks which follow one another by one call.
ghost use Rattle.std.specs.Prelude.{◌≡◌, ◌<◌, ◌≤◌, ◌+◌, true, length, is_ok};
ghost use Rattle.paraid_rack.specs.Slots.{ChangesOneSlot};
ghost use Rattle.paraid_rack.specs.Told.{Ran};
ghost use Rattle.paraid_rack.specs.declared.call.Power.TheVariants.{Spinning};
ghost use Rattle.paraid_gather.specs.Bulk.{WritesBlocks};

use paraid_base::{BLOCK_SIZE, Block, DiskNo, Failed, Place};
use paraid_rack::Rack;

/// A rack that can write several blocks by one call.
pub trait BulkRack: Rack {
    /// Writes blocks that follow one another, from place `first` on. Each is loose until a done
    /// sync, also where the call failed. Where a rack has no call for it, it writes one after the
    /// other.
    fn write_blocks(
        &mut self,
        disk: DiskNo,
        first: Place,
        blocks: &[[u8; BLOCK_SIZE]],
    ) -> Result<(), Failed>
        requires exists { disk < Self.slot_count self.old }
        requires spinning { (Self.slot self.old disk).power ≡ Spinning }
        requires some { 0 < length blocks.now }
        requires within { first + length blocks.now ≤ (Self.slot self.old disk).size }
        ensures slots { Self.slot_count self.new ≡ Self.slot_count self.old }
        ensures slot { ChangesOneSlot (Self.slot self.old) (Self.slot self.new) disk
            (record (Self.slot self.old disk) { unsynced = true }) true (is_ok result) }
        ensures told { Ran (Self.told self.old) (Self.told self.new)
            (WritesBlocks disk (record { first = first; blocks = blocks.now }) (is_ok result)) }
    {
        for place in first..self.size(disk) {
            let Some(bytes) = blocks.get((place - first) as usize) else {
                return Ok(());
            };
            let Ok(()) = self.write(disk, place, &Block::from_array(*bytes)) else {
                return Err(Failed);
            };
        }
        Ok(())
    }
}
