//! A fresh disk in each slot of the array.
ghost use Rattle.std.specs.Prelude.{◌≡◌, ◌<◌, ◌≤◌, ℕ, OnOk, IfErr};
ghost use Rattle.paraid_base.specs.Told.{HasRisen};
ghost use Rattle.paraid_rack.specs.Told.{Ran};
ghost use Rattle.paraid_recover.specs.Attached.{AreFreshDisks, fresh_slot};
ghost use Rattle.paraid_recover.specs.Calls.{AreAttaches};
ghost use Rattle.paraid_recover.specs.Between.{RanBetween};

use paraid_base::DiskNo;
use paraid_rack::Rack;

/// Attaches a fresh disk of `size` blocks in each of the first `count` slots, in ascending order. A
/// disk that failed is named, and none is attached after it.
pub fn attach_all<R: Rack>(rack: &mut R, count: u8, size: u32) -> Result<(), DiskNo>
    requires { count ≤ R.slot_count rack.old }
    ensures slots { R.slot_count rack.new ≡ R.slot_count rack.old }
    ensures fresh { OnOk result ((d : ℕ) → d < count
        → R.slot rack.new d ≡ fresh_slot size (R.slot rack.old d)) }
    ensures others { (d : ℕ) → count ≤ d → R.slot rack.new d ≡ R.slot rack.old d }
    ensures attached { OnOk result (RanBetween (R.told rack.old) (R.told rack.new)
        (AreFreshDisks count size)) }
    ensures calls { Ran (R.told rack.old) (R.told rack.new) (λ start calls.
        AreAttaches size 0 count calls) }
    ensures low { IfErr result (λ d. d < count) }
    ensures risen { IfErr result (λ d. HasRisen (R.slot rack.old d).faults
        (R.slot rack.new d).faults) }
{
    for disk in 0..count {
        let Ok(()) = rack.attach(disk, size) else {
            return Err(disk);
        };
    }
    Ok(())
}
