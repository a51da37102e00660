//! Reads of the log of a disk.
ghost use Rattle.std.specs.Prelude.{◌≡◌, ◌<◌, Some, OnOk, is_ok};
ghost use Rattle.paraid_base.specs.Log.{log_most};
ghost use Rattle.paraid_rack.specs.declared.call.Power.TheVariants.{Spinning};
ghost use Rattle.paraid_rack.specs.Trail.{Trail, now};
ghost use Rattle.paraid_rack.specs.Told.{Ran};
ghost use Rattle.paraid_recover.specs.Calls.{AreHeadReadsOf};
ghost use Rattle.paraid_recover.specs.HeardSides.{HasReadLog};
ghost use Rattle.paraid_image.specs.Sides.{stored_block};

use paraid_base::{Block, DiskNo, Failed, Place};
use paraid_rack::Rack;

/// Reads a block of a log; a place past the size of the disk counts as zeros.
pub fn read_place<R: Rack>(
    rack: &mut R,
    disk: DiskNo,
    place: Place,
    into: &mut Block,
) -> Result<(), Failed>
    requires exists { disk < R.slot_count rack.old }
    requires spinning { (R.slot rack.old disk).power ≡ Spinning }
    requires low { place < log_most }
    ensures reads { HasReadLog R.Rack disk 1 rack.old rack.new (is_ok result) }
    ensures head { place < 4 → Ran (R.told rack.old) (R.told rack.new) (AreHeadReadsOf disk 1) }
    ensures block { OnOk result ((t : Trail) → R.told rack.new ≡ Some t
        → into.new ≡ stored_block (now t) disk place) }
{
    if place >= rack.size(disk) {
        *into = Block::zero();
        return Ok(());
    }
    rack.read(disk, place, into)
}
