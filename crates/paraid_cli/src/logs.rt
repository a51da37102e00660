//! Whether the log disks of a rack hold an array, as a format will find it.
ghost use Rattle.std.specs.Prelude.{◌≡◌, ◌⊎◌, ◌<◌, ℕ, IsFalse, IsTrue, Some};
ghost use Rattle.paraid_base.specs.Told.{HasRisen};
ghost use Rattle.paraid_rack.specs.Trail.{Trail, now};
ghost use Rattle.paraid_recover.specs.Calls.{OnlyHeadReads};
ghost use Rattle.paraid_recover.specs.Found.{IsGreatest, IsUnclaimed};

use paraid_rack::Rack;
use paraid_recover::greatest_epoch;

/// Whether a log disk says that it belongs to an array. Where one failed, the format finds out.
pub(crate) fn hold_array<R: Rack>(rack: &mut R) -> bool
    ensures slots { R.slot_count rack.new ≡ R.slot_count rack.old }
    ensures reads { OnlyHeadReads (R.told rack.old) (R.told rack.new) }
    // no slot has changed but that of a log disk which failed
    ensures kept { (d : ℕ) → (R.slot rack.new d ≡ R.slot rack.old d)
        ⊎ ((d < 2) × HasRisen (R.slot rack.old d).faults (R.slot rack.new d).faults) }
    ensures held { IsTrue result → (t : Trail) → R.told rack.new ≡ Some t
        → (epoch : ℕ) × IsGreatest (now t) epoch }
    ensures free { IsFalse result → (t : Trail) → R.told rack.new ≡ Some t → IsUnclaimed (now t)
        ⊎ ((d : ℕ) × HasRisen (R.slot rack.old d).faults (R.slot rack.new d).faults) }
{
    match greatest_epoch(rack) {
        Ok(Some(_)) => true,
        _ => false,
    }
}
