//! A disk that is out is replaced: that it is gone is committed, with all that is staged; then a
//! fresh disk is attached in its place, and that it is there is committed.
ghost use Rattle.std.specs.Prelude.{◌≡◌, ◌≢◌, ℕ, ◌+◌, ◌<◌, ◌⊎◌, true, false, List, length, Ok, None, Some, OnOk, IfErr};
ghost use Rattle.paraid_base.specs.declared.state.Out.TheVariants.{Fresh, Gone};
ghost use Rattle.paraid_base.specs.History.{History};
ghost use Rattle.paraid_base.specs.States.{gone_out};
ghost use Rattle.paraid_core.specs.Cores.{CoreStandsFor, IsCoreHeld, core_rack, core_table, meta_of};
ghost use Rattle.paraid_core.specs.Replaced.{CoreCommitted};
ghost use Rattle.paraid_core.specs.Steps.{IsNamedOrAbsent};
ghost use Rattle.paraid_event.specs.Replacements.{BringsFresh, CommitsReplaced, LosesReplaced, ReplacesDisk};
ghost use Rattle.paraid_event.specs.Service.{Service, service_of};
ghost use Rattle.paraid_image.specs.Out.{named_out};
ghost use Rattle.paraid_rack.specs.Told.{CrashTriple, Ran};
ghost use Rattle.paraid_rebuild.specs.Rebuilds.{HasCommitted, HasFreshDisk, KeepsCounts, LacksFreshDisk, SparesSlots};
ghost use Rattle.paraid_rebuild.specs.Replacing.{IsReplacedFrom, LeavesArrayBut, LosesFresh};
ghost use Rattle.paraid_event.specs.CoreServing.{IsCoreServing};
ghost use Rattle.paraid_base.specs.Log.{epoch_limit};

use paraid_base::{DiskNo, Two};
use paraid_core::Core;
use paraid_rack::Rack;

// Whether the disk that is out is gone.
pub(crate) fn is_gone<R: Rack>(core: &Core<R>) -> bool
    ensures gone { result ≡ true → gone_out (meta_of core.now).out ≢ None }
    ensures back { result ≡ false → gone_out (meta_of core.now).out ≡ None }
{
    core.out().gone().is_some()
}

// Commits all that is staged, and that the disk is gone and its spin-ups are forgotten.
fn commit_gone<R: Rack>(core: &mut Core<R>, disk: DiskNo) -> Result<(), Two>
    requires serving { IsCoreServing R.slot_count R.slot core.old }
    requires absent { IsNamedOrAbsent R.slot core.old }
    requires epoch { (meta_of core.old).epoch < epoch_limit }
    requires out { named_out (meta_of core.old).out ≡ Some disk }
    ensures serves { OnOk result (HasCommitted core.new (Some disk)) }
    ensures meta { OnOk result
        (IsReplacedFrom (meta_of core.old) (meta_of core.new) disk 1 (Gone disk)) }
    ensures table { core_table core.new ≡ core_table core.old }
    ensures keeps { SparesSlots core.old core.new result }
    ensures moments { (h : History) (lo : ℕ) → Ran (R.told (core_rack core.old))
        (R.told (core_rack core.new)) (CrashTriple (IsCoreHeld R.slot_count core.old h lo)
        (CoreStandsFor R.slot_count core.old h lo) (IsCoreHeld R.slot_count core.old h lo)) }
    ensures committed { OnOk result ((h : History) (lo : ℕ)
        → Ran (R.told (core_rack core.old)) (R.told (core_rack core.new)) (CrashTriple
        (IsCoreHeld R.slot_count core.old h lo) (CoreStandsFor R.slot_count core.old h lo)
        (CoreCommitted R.slot_count core.new h (length h) (Gone disk)))) }
    // In an event it is the mark and the commit of it.
    ensures event { OnOk result ((samples : List ℕ) (served energy : ℕ) (h : History) (lo : ℕ)
        → (marked : Service) × CommitsReplaced (R.told (core_rack core.old))
        (R.told (core_rack core.new)) (service_of R.slot_count core.old samples served energy)
        marked (service_of R.slot_count core.new samples served energy) h lo disk) }
    ensures loses { IfErr result (λ two. (samples : List ℕ) (served energy : ℕ) (h : History)
        (lo : ℕ) → LosesReplaced (R.told (core_rack core.old)) (R.told (core_rack core.new))
        (service_of R.slot_count core.old samples served energy) h lo disk two) }
{
    core.mark_out(disk);
    core.clear_spins(disk);
    core.commit()?;
    Ok(())
}

// Attaches a fresh disk in the place of the one that is gone, and commits that it is there. True
// where it is.
fn bring_fresh<R: Rack>(core: &mut Core<R>, disk: DiskNo) -> Result<bool, Two>
    requires committed { HasCommitted core.old (Some disk) }
    requires gone { (meta_of core.old).out ≡ Gone disk }
    requires epoch { (meta_of core.old).epoch < epoch_limit }
    ensures serves { OnOk result (HasCommitted core.new (Some disk)) }
    ensures leaves { OnOk result (LeavesArrayBut R.slot_count R.slot core.old core.new disk) }
    ensures there { result ≡ Ok true → HasFreshDisk core.old core.new disk (meta_of core.new
        ≡ record (meta_of core.old) { epoch = (meta_of core.old).epoch + 1; out = Fresh disk 0 }) }
    ensures lacks { result ≡ Ok false
        → LacksFreshDisk core.old core.new disk ((meta_of core.new ≡ meta_of core.old)
        ⊎ (meta_of core.new ≡ record (meta_of core.old) { epoch = (meta_of core.old).epoch + 1 })) }
    ensures table { core_table core.new ≡ core_table core.old }
    ensures keeps { KeepsCounts core.old core.new result }
    ensures moments { (h : History) (lo : ℕ)
        → Ran (R.told (core_rack core.old)) (R.told (core_rack core.new))
        (CrashTriple (IsCoreHeld R.slot_count core.old h lo) (CoreCommitted
        R.slot_count core.old h lo (Gone disk)) (IsCoreHeld R.slot_count core.old h lo)) }
    ensures stands { OnOk result ((h : History)
        → Ran (R.told (core_rack core.old)) (R.told (core_rack core.new))
        (CrashTriple (IsCoreHeld R.slot_count core.old h (length h))
        (CoreCommitted R.slot_count core.old h (length h) (Gone disk))
        (CoreStandsFor R.slot_count core.new h (length h)))) }
    ensures committed { result ≡ Ok true → (h : History)
        → Ran (R.told (core_rack core.old)) (R.told (core_rack core.new))
        (CrashTriple (IsCoreHeld R.slot_count core.old h (length h))
        (CoreCommitted R.slot_count core.old h (length h) (Gone disk))
        (CoreCommitted R.slot_count core.new h (length h) (Fresh disk 0))) }
    ensures event { OnOk result ((samples : List ℕ) (served energy : ℕ) (h : History) (lo : ℕ)
        → BringsFresh (R.told (core_rack core.old)) (R.told (core_rack core.new))
        (service_of R.slot_count core.old samples served energy)
        (service_of R.slot_count core.new samples served energy) h lo disk) }
    ensures loses { IfErr result (λ two. (samples : List ℕ) (served energy : ℕ) (h : History)
        (lo : ℕ) → LosesFresh (R.told (core_rack core.old)) (R.told (core_rack core.new))
        (service_of R.slot_count core.old samples served energy) h lo disk two) }
{
    if !core.attach(disk) {
        return Ok(false);
    }
    core.commit()?;
    Ok(!is_gone(core))
}

/// Replaces a disk that is out, also one that is being rebuilt: that it is gone is committed, with
/// all that is staged and with no spin-up counted; then a fresh disk is attached once, and that it
/// is there is committed, with no unit rebuilt.
///
/// True once it is there. False where the slot failed: the disk is gone then.
pub fn begin<R: Rack>(core: &mut Core<R>, disk: DiskNo) -> Result<bool, Two>
    requires serving { IsCoreServing R.slot_count R.slot core.old }
    requires absent { IsNamedOrAbsent R.slot core.old }
    requires epoch { (meta_of core.old).epoch + 1 < epoch_limit }
    requires out { named_out (meta_of core.old).out ≡ Some disk }
    ensures serves { OnOk result (HasCommitted core.new (Some disk)) }
    ensures leaves { OnOk result (LeavesArrayBut R.slot_count R.slot core.old core.new disk) }
    // What the new meta is, with a fresh disk or without. None is there only where the slot has
    // failed.
    ensures there { result ≡ Ok true → HasFreshDisk core.old core.new disk
        (IsReplacedFrom (meta_of core.old) (meta_of core.new) disk 2 (Fresh disk 0)) }
    ensures lacks { result ≡ Ok false → LacksFreshDisk core.old core.new disk
        (IsReplacedFrom (meta_of core.old) (meta_of core.new) disk 1 (Gone disk)
        ⊎ IsReplacedFrom (meta_of core.old) (meta_of core.new) disk 2 (Gone disk)) }
    ensures table { core_table core.new ≡ core_table core.old }
    ensures keeps { KeepsCounts core.old core.new result }
    // Each stop leaves what it left before, and at the end all writes.
    ensures moments { (h : History) (lo : ℕ) → Ran (R.told (core_rack core.old))
        (R.told (core_rack core.new)) (CrashTriple (IsCoreHeld R.slot_count core.old h lo)
        (CoreStandsFor R.slot_count core.old h lo) (IsCoreHeld R.slot_count core.old h lo)) }
    ensures stands { OnOk result ((h : History) (lo : ℕ)
        → Ran (R.told (core_rack core.old)) (R.told (core_rack core.new)) (CrashTriple
        (IsCoreHeld R.slot_count core.old h lo) (CoreStandsFor R.slot_count core.old h lo)
        (CoreStandsFor R.slot_count core.new h (length h)))) }
    // That a fresh disk is there is on the disks.
    ensures committed { result ≡ Ok true → (h : History) (lo : ℕ)
        → Ran (R.told (core_rack core.old)) (R.told (core_rack core.new)) (CrashTriple
        (IsCoreHeld R.slot_count core.old h lo) (CoreStandsFor R.slot_count core.old h lo)
        (CoreCommitted R.slot_count core.new h (length h) (Fresh disk 0))) }
    // In an event these are the calls in which a disk is replaced.
    ensures event { OnOk result ((samples : List ℕ) (served energy : ℕ) (h : History) (lo : ℕ)
        → ReplacesDisk (R.told (core_rack core.old)) (R.told (core_rack core.new))
        (service_of R.slot_count core.old samples served energy)
        (service_of R.slot_count core.new samples served energy) h lo disk) }
    // So they are where a second disk is lost in one of the commits.
    ensures loses { IfErr result (λ two. (samples : List ℕ) (served energy : ℕ) (h : History)
        (lo : ℕ) → LosesReplaced (R.told (core_rack core.old)) (R.told (core_rack core.new))
        (service_of R.slot_count core.old samples served energy) h lo disk two) }
{
    commit_gone(core, disk)?;
    bring_fresh(core, disk)
}
