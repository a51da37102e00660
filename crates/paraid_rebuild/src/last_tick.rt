//! A rebuild ends: the units that are left are copied past the log, and the disk comes back by a
//! commit.
ghost use Rattle.std.specs.Prelude.{◌≡◌, ℕ, ◌<◌, ◌≤◌, true, false, List, [], None, Ok, OnOk, IfErr};
ghost use Rattle.paraid_base.specs.declared.state.Out.TheVariants.{No};
ghost use Rattle.paraid_base.specs.History.{History};
ghost use Rattle.paraid_base.specs.States.{rebuilt_count};
ghost use Rattle.paraid_core.specs.Cores.{batch_of, core_rack, meta_of, store_of};
ghost use Rattle.paraid_core.specs.Steps.{IsNamedOrAbsent};
ghost use Rattle.paraid_event.specs.RebuildEnds.{FinishesRebuild, LosesFinishing};
ghost use Rattle.paraid_event.specs.Service.{service_of};
ghost use Rattle.paraid_rebuild.specs.Rebuilds.{CanRebuild, HoldsFromRest, KeepsDisk, LosesAgain, ServesLater, SparesSlots};
ghost use Rattle.paraid_record.specs.Range.{rebuild_units as units_of_rebuild};
ghost use Rattle.paraid_txn.specs.Stores.{named_of};
ghost use Rattle.paraid_base.specs.Log.{epoch_limit};

use crate::ending::come_back;
use crate::moving::move_units;
use paraid_base::{DiskNo, Two};
use paraid_core::Core;
use paraid_rack::Rack;
use paraid_record::rebuild_units;

// Copies the units that are left, which end at `end`, and takes the disk into the array again by a
// commit.
fn conclude<R: Rack>(core: &mut Core<R>, disk: DiskNo, end: u32) -> Result<bool, Two>
    requires can { CanRebuild core.old disk }
    requires nothing { batch_of core.old ≡ [] }
    requires from { rebuilt_count (meta_of core.old).out ≤ end }
    requires all { end
        ≡ units_of_rebuild (meta_of core.old).setup.geometry (meta_of core.old).gear disk }
    requires epoch { (meta_of core.old).epoch < epoch_limit }
    ensures serves { OnOk result (ServesLater core.old core.new 1) }
    ensures absent { OnOk result (IsNamedOrAbsent R.slot core.new) }
    ensures back { result ≡ Ok true → KeepsDisk core.new disk (record (meta_of core.old)
        { epoch = (meta_of core.new).epoch; out = No }) }
    ensures named { result ≡ Ok true → named_of (store_of core.new) ≡ None }
    // The disk has failed, and is gone.
    ensures lost { result ≡ Ok false → LosesAgain core.old core.new disk (meta_of core.new).epoch }
    ensures keeps { SparesSlots core.old core.new result }
    ensures stops { HoldsFromRest core.old core.new result }
    ensures event { OnOk result ((samples : List ℕ) (served energy : ℕ) (h : History) (lo : ℕ)
        → FinishesRebuild (R.told (core_rack core.old)) (R.told (core_rack core.new))
        (service_of R.slot_count core.old samples served energy)
        (service_of R.slot_count core.new samples served energy) h lo disk) }
    ensures loses { IfErr result (λ two. (samples : List ℕ) (served energy : ℕ) (h : History)
        (lo : ℕ) → LosesFinishing (R.told (core_rack core.old)) (R.told (core_rack core.new))
        (service_of R.slot_count core.old samples served energy) h lo disk two) }
{
    let first = core.out().rebuilt();
    let copied = move_units(core, disk, first, end)?;
    if !copied {
        return Ok(false);
    }
    come_back(core, disk)
}

/// Ends a rebuild, with nothing staged: copies the units that are left, and takes the disk into the
/// array again by one commit. The disk is not parked.
///
/// True once it is back. False where it was lost: it is gone, which the next commit, `commit_lost`,
/// brings to the disks.
pub fn finish<R: Rack>(core: &mut Core<R>, disk: DiskNo) -> Result<bool, Two>
    requires can { CanRebuild core.old disk }
    requires nothing { batch_of core.old ≡ [] }
    requires epoch { (meta_of core.old).epoch < epoch_limit }
    ensures serves { OnOk result (ServesLater core.old core.new 1) }
    ensures absent { OnOk result (IsNamedOrAbsent R.slot core.new) }
    ensures back { result ≡ Ok true → KeepsDisk core.new disk (record (meta_of core.old)
        { epoch = (meta_of core.new).epoch; out = No }) }
    ensures named { result ≡ Ok true → named_of (store_of core.new) ≡ None }
    // The disk has failed, and is gone.
    ensures lost { result ≡ Ok false → LosesAgain core.old core.new disk (meta_of core.new).epoch }
    ensures keeps { SparesSlots core.old core.new result }
    ensures stops { HoldsFromRest core.old core.new result }
    // In the event of a tick these are the calls with which a rebuild ends.
    ensures event { OnOk result ((samples : List ℕ) (served energy : ℕ) (h : History) (lo : ℕ)
        → FinishesRebuild (R.told (core_rack core.old)) (R.told (core_rack core.new))
        (service_of R.slot_count core.old samples served energy)
        (service_of R.slot_count core.new samples served energy) h lo disk) }
    // So they are where a second disk is lost in them.
    ensures loses { IfErr result (λ two. (samples : List ℕ) (served energy : ℕ) (h : History)
        (lo : ℕ) → LosesFinishing (R.told (core_rack core.old)) (R.told (core_rack core.new))
        (service_of R.slot_count core.old samples served energy) h lo disk two) }
{
    let end = rebuild_units(&core.meta().setup.geometry, core.meta().gear, disk);
    conclude(core, disk, end)
}
