//! Units of the disk that is rebuilt are copied past the log and made to last.
ghost use Rattle.std.specs.Prelude.{◌≡◌, ℕ, ◌≤◌, [], true, false, Ok, OnOk, IfErr};
ghost use Rattle.paraid_base.specs.History.{History};
ghost use Rattle.paraid_base.specs.States.{named_out, rebuilt_count};
ghost use Rattle.paraid_core.specs.Calls.{MakesDataCalls};
ghost use Rattle.paraid_core.specs.Cores.{CoreStandsFor, IsCoreHeldSinceCommit, batch_of, core_rack, meta_of};
ghost use Rattle.paraid_core.specs.Lost.{CoreTellsLosses};
ghost use Rattle.paraid_core.specs.Steps.{LeavesCore};
ghost use Rattle.paraid_core.specs.Units.{UnitsRebuilt};
ghost use Rattle.paraid_rack.specs.Told.{CrashTriple, Ran};
ghost use Rattle.paraid_rebuild.specs.Rebuilds.{CanRebuild, KeepsDisk, LosesAgain, SparesSlots};
ghost use Rattle.paraid_record.specs.Range.{rebuild_units};
ghost use Rattle.paraid_event.specs.CoreServing.{IsCoreServing};

use crate::replaced::is_gone;
use paraid_base::{DiskNo, Two};
use paraid_core::Core;
use paraid_rack::Rack;

// Copies the units from `first` to `end - 1` of the disk that is rebuilt. False where it was lost.
fn copy_units<R: Rack>(core: &mut Core<R>, disk: DiskNo, first: u32, end: u32) -> Result<bool, Two>
    requires can { CanRebuild core.old disk }
    requires nothing { batch_of core.old ≡ [] }
    requires from { rebuilt_count (meta_of core.old).out ≤ first }
    requires order { first ≤ end }
    requires limit { end
        ≤ rebuild_units (meta_of core.old).setup.geometry (meta_of core.old).gear disk }
    ensures leaves { OnOk result (LeavesCore R.slot_count R.slot core.old core.new) }
    ensures same { result ≡ Ok true → KeepsDisk core.new disk (meta_of core.old) }
    ensures lost { result ≡ Ok false → LosesAgain core.old core.new disk (meta_of core.old).epoch }
    ensures keeps { SparesSlots core.old core.new result }
    ensures calls { MakesDataCalls R.told core.old core.new }
    ensures tells { IfErr result
        (CoreTellsLosses R.told (named_out (meta_of core.old).out) core.old core.new) }
    ensures copied { result ≡ Ok true
        → (h : History) (lo : ℕ) → Ran (R.told (core_rack core.old)) (R.told (core_rack core.new))
        (CrashTriple (IsCoreHeldSinceCommit R.slot_count core.old h lo) (UnitsRebuilt
        R.slot_count core.old h lo first) (UnitsRebuilt R.slot_count core.new h lo end)) }
    ensures stands { OnOk result ((h : History) (lo : ℕ)
        → Ran (R.told (core_rack core.old)) (R.told (core_rack core.new))
        (CrashTriple (IsCoreHeldSinceCommit R.slot_count core.old h lo) (UnitsRebuilt
        R.slot_count core.old h lo first) (CoreStandsFor R.slot_count core.new h lo))) }
    ensures moments { (h : History) (lo : ℕ)
        → Ran (R.told (core_rack core.old)) (R.told (core_rack core.new))
        (CrashTriple (IsCoreHeldSinceCommit R.slot_count core.old h lo) (UnitsRebuilt
        R.slot_count core.old h lo first) (IsCoreHeldSinceCommit R.slot_count core.old h lo)) }
{
    for number in first..end {
        let done = core.rebuild_unit(number)?;
        if !done {
            return Ok(false);
        }
    }
    Ok(true)
}

// Copies the units from `first` to `end - 1` of the disk that is rebuilt, and makes them last.
// False where it was lost.
pub(crate) fn move_units<R: Rack>(
    core: &mut Core<R>,
    disk: DiskNo,
    first: u32,
    end: u32,
) -> Result<bool, Two>
    requires can { CanRebuild core.old disk }
    requires nothing { batch_of core.old ≡ [] }
    requires from { rebuilt_count (meta_of core.old).out ≤ first }
    requires order { first ≤ end }
    requires limit { end
        ≤ rebuild_units (meta_of core.old).setup.geometry (meta_of core.old).gear disk }
    ensures serving { OnOk result (IsCoreServing R.slot_count R.slot core.new) }
    ensures leaves { OnOk result (LeavesCore R.slot_count R.slot core.old core.new) }
    ensures same { result ≡ Ok true → KeepsDisk core.new disk (meta_of core.old) }
    ensures lost { result ≡ Ok false → LosesAgain core.old core.new disk (meta_of core.old).epoch }
    ensures keeps { SparesSlots core.old core.new result }
    ensures calls { MakesDataCalls R.told core.old core.new }
    ensures tells { IfErr result
        (CoreTellsLosses R.told (named_out (meta_of core.old).out) core.old core.new) }
    ensures copied { result ≡ Ok true
        → (h : History) (lo : ℕ) → Ran (R.told (core_rack core.old)) (R.told (core_rack core.new))
        (CrashTriple (IsCoreHeldSinceCommit R.slot_count core.old h lo) (UnitsRebuilt
        R.slot_count core.old h lo first) (UnitsRebuilt R.slot_count core.new h lo end)) }
    ensures stands { OnOk result ((h : History) (lo : ℕ)
        → Ran (R.told (core_rack core.old)) (R.told (core_rack core.new))
        (CrashTriple (IsCoreHeldSinceCommit R.slot_count core.old h lo) (UnitsRebuilt
        R.slot_count core.old h lo first) (CoreStandsFor R.slot_count core.new h lo))) }
    ensures moments { (h : History) (lo : ℕ)
        → Ran (R.told (core_rack core.old)) (R.told (core_rack core.new))
        (CrashTriple (IsCoreHeldSinceCommit R.slot_count core.old h lo) (UnitsRebuilt
        R.slot_count core.old h lo first) (IsCoreHeldSinceCommit R.slot_count core.old h lo)) }
{
    let done = copy_units(core, disk, first, end)?;
    core.settle()?;
    if !done {
        return Ok(false);
    }
    Ok(!is_gone(core))
}
