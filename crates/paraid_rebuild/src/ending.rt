//! Units that are copied are marked by a commit; once all of them are, the disk comes back by one.
ghost use Rattle.std.specs.Prelude.{◌≡◌, ℕ, ◌+◌, ◌<◌, ◌≤◌, true, false, List, [], None, Ok, Some, OnOk, IfErr};
ghost use Rattle.paraid_base.specs.declared.state.Out.TheVariants.{Fresh, No};
ghost use Rattle.paraid_base.specs.History.{History};
ghost use Rattle.paraid_core.specs.Cores.{IsCoreHeldSinceCommit, batch_of, core_rack, core_table, meta_of};
ghost use Rattle.paraid_core.specs.Units.{UnitsRebuilt};
ghost use Rattle.paraid_event.specs.Service.{Service, service_of};
ghost use Rattle.paraid_rack.specs.Told.{CrashTriple, Ran};
ghost use Rattle.paraid_rebuild.specs.Rebuilds.{CanRebuild, HasCommitted, KeepsDisk, LosesAgain, SparesSlots};
ghost use Rattle.paraid_rebuild.specs.Replacing.{CommitsCopies, JoinsCopied, LosesCopies, LosesJoining};
ghost use Rattle.paraid_record.specs.Range.{rebuild_units};
ghost use Rattle.paraid_event.specs.CoreServing.{RestsInShift};
ghost use Rattle.paraid_base.specs.Log.{epoch_limit};

use crate::replaced::is_gone;
use paraid_base::{DiskNo, Two};
use paraid_core::Core;
use paraid_rack::Rack;

// Marks the units below `end` as rebuilt, by a commit. False where the disk was lost in it.
pub(crate) fn mark_units<R: Rack>(core: &mut Core<R>, disk: DiskNo, end: u32) -> Result<bool, Two>
    requires can { CanRebuild core.old disk }
    requires nothing { batch_of core.old ≡ [] }
    requires limit { end
        ≤ rebuild_units (meta_of core.old).setup.geometry (meta_of core.old).gear disk }
    requires epoch { (meta_of core.old).epoch < epoch_limit }
    ensures serves { OnOk result (HasCommitted core.new (Some disk)) }
    ensures epoch { OnOk result ((meta_of core.new).epoch ≡ (meta_of core.old).epoch + 1) }
    ensures marked { result ≡ Ok true → KeepsDisk core.new disk (record (meta_of core.old)
        { epoch = (meta_of core.old).epoch + 1; out = Fresh disk end }) }
    ensures lost { result ≡ Ok false
        → LosesAgain core.old core.new disk ((meta_of core.old).epoch + 1) }
    ensures table { core_table core.new ≡ core_table core.old }
    ensures keeps { SparesSlots core.old core.new result }
    ensures moments { (h : History) (lo : ℕ)
        → Ran (R.told (core_rack core.old)) (R.told (core_rack core.new))
        (CrashTriple (IsCoreHeldSinceCommit R.slot_count core.old h lo) (UnitsRebuilt
        R.slot_count core.old h lo end) (IsCoreHeldSinceCommit R.slot_count core.old h lo)) }
    ensures rests { OnOk result ((h : History) (lo : ℕ)
        → Ran (R.told (core_rack core.old)) (R.told (core_rack core.new))
        (CrashTriple (IsCoreHeldSinceCommit R.slot_count core.old h lo)
        (UnitsRebuilt R.slot_count core.old h lo end) (RestsInShift R.slot_count core.new h lo))) }
    ensures event { OnOk result ((samples : List ℕ) (served energy : ℕ) (h : History) (lo : ℕ)
        → (marked : Service)
        × CommitsCopies (R.told (core_rack core.old)) (R.told (core_rack core.new))
        (service_of R.slot_count core.old samples served energy) marked (service_of R.slot_count
        core.new samples served energy) h lo (UnitsRebuilt R.slot_count core.old h lo end)) }
    ensures loses { IfErr result (λ two. (samples : List ℕ) (served energy : ℕ)
        (h : History) (lo : ℕ) → (marked : Service) × LosesCopies (R.told (core_rack core.old))
        (R.told (core_rack core.new)) (service_of R.slot_count core.old samples served energy)
        marked h lo two (UnitsRebuilt R.slot_count core.old h lo end)) }
{
    core.mark_rebuilt(end);
    core.commit()?;
    Ok(!is_gone(core))
}

// Takes the disk that is rebuilt into the array again, by a commit, where each of its units is
// copied. False where it was lost in it.
pub(crate) fn come_back<R: Rack>(core: &mut Core<R>, disk: DiskNo) -> Result<bool, Two>
    requires can { CanRebuild core.old disk }
    requires nothing { batch_of core.old ≡ [] }
    requires epoch { (meta_of core.old).epoch < epoch_limit }
    ensures serves { OnOk result (HasCommitted core.new None) }
    ensures epoch { OnOk result ((meta_of core.new).epoch ≡ (meta_of core.old).epoch + 1) }
    ensures back { result ≡ Ok true → KeepsDisk core.new disk (record (meta_of core.old)
        { epoch = (meta_of core.old).epoch + 1; out = No }) }
    ensures lost { result ≡ Ok false
        → LosesAgain core.old core.new disk ((meta_of core.old).epoch + 1) }
    ensures table { core_table core.new ≡ core_table core.old }
    ensures keeps { SparesSlots core.old core.new result }
    ensures moments { (h : History) (lo : ℕ)
        → Ran (R.told (core_rack core.old)) (R.told (core_rack core.new))
        (CrashTriple (IsCoreHeldSinceCommit R.slot_count core.old h lo)
        (UnitsRebuilt R.slot_count core.old h lo (rebuild_units (meta_of core.old).setup.geometry
        (meta_of core.old).gear disk)) (IsCoreHeldSinceCommit R.slot_count core.old h lo)) }
    ensures rests { OnOk result ((h : History) (lo : ℕ) → Ran (R.told (core_rack core.old)) (R.told
        (core_rack core.new)) (CrashTriple (IsCoreHeldSinceCommit R.slot_count core.old h lo)
        (UnitsRebuilt R.slot_count core.old h lo (rebuild_units (meta_of core.old).setup.geometry
        (meta_of core.old).gear disk)) (RestsInShift R.slot_count core.new h lo))) }
    ensures event { OnOk result ((samples : List ℕ) (served energy : ℕ) (h : History) (lo : ℕ)
        → (joined : Service)
        × JoinsCopied (R.told (core_rack core.old)) (R.told (core_rack core.new))
        (service_of R.slot_count core.old samples served energy) joined (service_of R.slot_count
        core.new samples served energy) h lo disk (UnitsRebuilt R.slot_count core.old h lo
        (rebuild_units (meta_of core.old).setup.geometry (meta_of core.old).gear disk))) }
    ensures loses { IfErr result (λ two. (samples : List ℕ) (served energy : ℕ)
        (h : History) (lo : ℕ) → (joined : Service) × LosesJoining (R.told (core_rack core.old))
        (R.told (core_rack core.new)) (service_of R.slot_count core.old samples served energy)
        joined h lo disk two (UnitsRebuilt R.slot_count core.old h lo
        (rebuild_units (meta_of core.old).setup.geometry (meta_of core.old).gear disk))) }
{
    core.rejoin();
    core.commit()?;
    Ok(!is_gone(core))
}
