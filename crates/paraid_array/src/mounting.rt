//! A mount that gives an array in service.
ghost use Rattle.std.specs.Prelude.{◌≡◌, ℕ, ◌≤◌, None, Some, IfErr, IfOk};
ghost use Rattle.paraid_rack.specs.Trail.{Trail, moments};
ghost use Rattle.paraid_rack.specs.Told.{Extends};
ghost use Rattle.paraid_recover.specs.Mount.{IsCauseOfRefusal};
ghost use Rattle.paraid_array.specs.Begun.{IsMountedCore};
ghost use Rattle.paraid_session.specs.Mount.{IsMountedFromEach, IsRefusedFromEach};
ghost use Rattle.paraid_recover.specs.StartRefusals.{refusal_by_fault};
ghost use Rattle.paraid_array.specs.Arrays.{ArrayStandsAt, CountsNothing, HasNothingStaged, core_of_array, halt_of_array, meta_of_array, setup_of_array, slot_of_array, slots_of_array, told_of_array};

use crate::Array;
use crate::begin::{Begun, mount_core};
use paraid_rack::Rack;
use paraid_recover::MountRefused;
use std::alloc::Global;

/// Mounts an array. All memory that it ever needs is taken here, before the first write.
pub fn mount_array<R: Rack>(alloc: Global, rack: R) -> Result<Array<R>, MountRefused<R>>
    ensures going { IfOk result (λ array. halt_of_array array ≡ None) }
    ensures slots { IfOk result (λ array. slots_of_array array ≡ R.slot_count rack) }
    ensures later { IfOk result (λ array. (d : ℕ) → (R.slot rack d).faults
        ≤ (slot_of_array R.slot array d).faults) }
    ensures refused_slots { IfErr result (λ refused.
        R.slot_count refused.rack ≡ R.slot_count rack) }
    ensures refused_later { IfErr result (λ refused. (d : ℕ) → (R.slot rack d).faults
        ≤ (R.slot refused.rack d).faults) }
    ensures nothing { IfOk result HasNothingStaged }
    ensures setup { IfOk result (λ array. setup_of_array array ≡ (meta_of_array array).setup) }
    ensures counts { IfOk result CountsNothing }
    // Held or not, it serves what stood on the disks.
    ensures served { IfOk result (λ array. IsMountedCore R.slot R.told (R.slot_count rack)
        (R.slot rack) (R.told rack) (core_of_array array)) }
    ensures grows { IfOk result (λ array. Extends (R.told rack) (told_of_array R.told array)) }
    // From each rack that held a history it stands at the first point of a session.
    ensures mounted { IfOk result (λ array. (began : ℕ)
        → ((t : Trail) → R.told rack ≡ Some t → began ≡ moments t)
        → IsMountedFromEach (slots_of_array array) (setup_of_array array) began
        (told_of_array R.told array) (ArrayStandsAt R.slot_count R.told array)) }
    ensures refused_grows { IfErr result (λ refused. Extends (R.told rack) (R.told refused.rack)) }
    ensures cause { IfErr result (λ refused. IsCauseOfRefusal (R.slot_count rack) (R.slot rack)
        (R.slot refused.rack) (R.told rack) (R.told refused.rack) refused.fault) }
    ensures refused { IfErr result (λ refused. (began : ℕ)
        → ((t : Trail) → R.told rack ≡ Some t → began ≡ moments t)
        → IsRefusedFromEach (R.slot_count rack) began (R.told refused.rack)
        (refusal_by_fault refused.fault)) }
{
    let slots = rack.slots();
    match mount_core(alloc, rack) {
        Ok(begun) => {
            let Begun { core, windows } = begun;
            Ok(Array::new(core, windows, slots))
        }
        Err(refused) => Err(refused),
    }
}
