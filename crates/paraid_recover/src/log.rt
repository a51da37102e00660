//! The first meta, on both log disks.
ghost use Rattle.std.specs.Prelude.{◌≡◌, ◌≢◌, ◌+◌, ◌*◌, ◌<◌, ◌≤◌, ℕ, false, OnOk, IfErr};
ghost use Rattle.paraid_base.specs.Told.{HasRisen};
ghost use Rattle.paraid_rack.specs.declared.call.Power.TheVariants.{Spinning};
ghost use Rattle.paraid_rack.specs.Told.{Ran};
ghost use Rattle.paraid_recover.specs.Attached.{IsMetaWritten};
ghost use Rattle.paraid_recover.specs.Calls.{AreMetaCalls};
ghost use Rattle.paraid_recover.specs.Between.{RanBetween};

use paraid_base::{Block, DiskNo, Failed, META};
use paraid_rack::Rack;

/// Writes the first meta at its place on a log disk, and syncs it.
pub fn write_first_meta<R: Rack>(rack: &mut R, disk: DiskNo, meta: &Block) -> Result<(), Failed>
    requires log_disk { disk < 2 }
    requires exists { disk < R.slot_count rack.old }
    requires spinning { (R.slot rack.old disk).power ≡ Spinning }
    requires large { 2 ≤ (R.slot rack.old disk).size }
    ensures slots { R.slot_count rack.new ≡ R.slot_count rack.old }
    ensures here { OnOk result (R.slot rack.new disk
        ≡ record (R.slot rack.old disk) { unsynced = false }) }
    ensures others { (d : ℕ) → d ≢ disk → R.slot rack.new d ≡ R.slot rack.old d }
    ensures logged { OnOk result (RanBetween (R.told rack.old) (R.told rack.new)
        (IsMetaWritten disk meta.now)) }
    ensures calls { Ran (R.told rack.old) (R.told rack.new) (λ start calls.
        AreMetaCalls (2 * disk) (2 * disk + 2) calls) }
    ensures risen { IfErr result (λ failed. HasRisen (R.slot rack.old disk).faults
        (R.slot rack.new disk).faults) }
{
    rack.write(disk, META, meta)?;
    rack.sync(disk)?;
    Ok(())
}
