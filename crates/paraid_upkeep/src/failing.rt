//! A disk is taken out.
ghost use Rattle.std.specs.Prelude.{◌≡◌, ℕ, ◌+◌, ◌<◌, ◌≤◌, ◌⊎◌, [], None, Ok, Some, OnOk, IfErr, IfOk};
ghost use Rattle.paraid_base.specs.declared.event.Event.TheVariants.{Fail as FailEvent};
ghost use Rattle.paraid_base.specs.declared.state.Out.TheVariants.{Gone};
ghost use Rattle.paraid_base.specs.Log.{worn_at, epoch_limit};
ghost use Rattle.paraid_core.specs.Cores.{batch_of, core_down, core_rack, core_table, meta_of};
ghost use Rattle.paraid_core.specs.Down.{IsDownAfter};
ghost use Rattle.paraid_core.specs.Steps.{IsMarkedFrom};
ghost use Rattle.paraid_upkeep.specs.declared.fault.FailFault.TheVariants.{NoDisk};
ghost use Rattle.paraid_upkeep.specs.DiskRefusals.{HasMarkedTaken};
ghost use Rattle.paraid_upkeep.specs.Service.{IsInService, IsOutKnown, MakesCalls};
ghost use Rattle.paraid_upkeep.specs.Turns.{CanMarkTaken, CoreCommits, CoreCommitsTaken, CoreGoesOn, CoreHalts, CoreLosesCommit, CoreLosesTaken, fail_answer};
ghost use Rattle.paraid_rack.specs.Told.{Extends};
ghost use Rattle.paraid_txn.specs.Losses.{AreTwoDownBeside, OnlyLosesSlots};
ghost use Rattle.paraid_rebuild.specs.Rebuilds.{SparesSlots};
ghost use Rattle.paraid_upkeep.specs.Events.{CommitsAtMost, CommitsGone, RefusesFail, StaysInService};
ghost use Rattle.paraid_image.specs.Out.{named_out};

use crate::fault::FailFault;
use paraid_base::{DiskNo, Two};
use paraid_core::Core;
use paraid_rack::Rack;

// Commits what is staged, if anything is: so all writes are kept before a disk is taken out,
// whatever is lost as it is marked.
fn commit_writes<R: Rack>(core: &mut Core<R>) -> Result<(), Two>
    requires service { IsInService R.slot_count R.slot core.old }
    requires epoch { (meta_of core.old).epoch < worn_at }
    ensures stays { OnOk result (StaysInService core.old core.new) }
    ensures nothing { OnOk result (batch_of core.new ≡ []) }
    ensures idle { batch_of core.old ≡ [] → core.new ≡ core.old }
    ensures table { core_table core.new ≡ core_table core.old }
    ensures keeps { SparesSlots core.old core.new result }
    ensures down { OnOk result (IsDownAfter (core_down core.old) (core_down core.new)
        (R.slot (core_rack core.old)) (R.slot (core_rack core.new))) }
    ensures meta { OnOk result (IsMarkedFrom
        (record (meta_of core.old) { epoch = (meta_of core.new).epoch }) (meta_of core.new)) }
    ensures epoch { OnOk result (CommitsAtMost core.old core.new 1) }
    ensures commits { OnOk result (CoreCommits R.slot_count R.told core.old core.new) }
    ensures loses { IfErr result (λ two.
        CoreLosesCommit R.slot_count R.told core.old core.new two) }
    ensures told { Extends (R.told (core_rack core.old)) (R.told (core_rack core.new)) }
{
    if core.staged() == 0 {
        return Ok(());
    }
    core.commit()?;
    Ok(())
}

// Marks a disk as gone, where no other one is out, and commits that.
fn mark_gone<R: Rack>(core: &mut Core<R>, disk: DiskNo) -> Result<(), Two>
    requires service { IsInService R.slot_count R.slot core.old }
    requires epoch { (meta_of core.old).epoch < epoch_limit }
    requires disk { disk < (meta_of core.old).setup.geometry.disks }
    requires alone { (x : ℕ) → named_out (meta_of core.old).out ≡ Some x → x ≡ disk }
    ensures stays { OnOk result (StaysInService core.old core.new) }
    ensures taken { OnOk result (CommitsGone core.old core.new disk) }
    ensures known { OnOk result (IsOutKnown R.slot core.new) }
    ensures table { core_table core.new ≡ core_table core.old }
    ensures slots { R.slot_count (core_rack core.new) ≡ R.slot_count (core_rack core.old) }
    // In an event the mark is one in memory, and is committed.
    ensures marks { CanMarkTaken R.slot_count R.told core.old disk }
    ensures commits { OnOk result (CoreCommitsTaken R.slot_count R.told core.old core.new disk) }
    ensures loses { IfErr result (λ two.
        CoreLosesTaken R.slot_count R.told core.old core.new disk two) }
    ensures spared { OnlyLosesSlots (R.slot (core_rack core.old)) (R.slot (core_rack core.new)) }
    ensures two { IfErr result (AreTwoDownBeside (λ d. (core_down core.old ≡ Some d) ⊎ (d ≡ disk))
        (R.slot (core_rack core.old)) (R.slot (core_rack core.new))) }
    ensures told { Extends (R.told (core_rack core.old)) (R.told (core_rack core.new)) }
{
    core.mark_out(disk);
    core.commit()?;
    Ok(())
}

/// Takes a disk out, unless it is refused: where there is no such disk, or one is out. What is
/// staged is committed first, if anything is; another disk that is lost in that refuses it too. It
/// gives the refusal.
pub fn take_out<R: Rack>(core: &mut Core<R>, disk: DiskNo) -> Result<Option<FailFault>, Two>
    requires service { IsInService R.slot_count R.slot core.old }
    requires epoch { (meta_of core.old).epoch < worn_at }
    ensures stays { OnOk result (StaysInService core.old core.new) }
    ensures marks { IfOk result (HasMarkedTaken (meta_of core.old) (meta_of core.new) disk) }
    // Where there is no such disk, or one is out, that is the answer, and nothing has changed.
    ensures refuses { RefusesFail core.old core.new disk result }
    ensures taken { result ≡ Ok None → (disk < (meta_of core.old).setup.geometry.disks)
        × (named_out (meta_of core.old).out ≡ None) × ((meta_of core.new).out ≡ Gone disk) }
    ensures calls { MakesCalls R.slot_count R.slot R.told core.old core.new }
    ensures table { core_table core.new ≡ core_table core.old }
    ensures commits { OnOk result (CommitsAtMost core.old core.new 2) }
    // Where nothing is staged, the mark is the only commit.
    ensures alone { batch_of core.old ≡ []
        → OnOk result ((meta_of core.new).epoch ≤ (meta_of core.old).epoch + 1) }
    // It is an event of a session.
    ensures turn { IfOk result (λ refusal. CoreGoesOn R.slot_count R.told core.old core.new
        (FailEvent disk) (fail_answer disk refusal)) }
    ensures halts { IfErr result (λ two.
        CoreHalts R.slot_count R.told core.old core.new (FailEvent disk) two) }
    // The first of two disks may be the one that is taken out.
    ensures two { IfErr result (AreTwoDownBeside (λ d. (core_down core.old ≡ Some d) ⊎ (d ≡ disk))
        (R.slot (core_rack core.old)) (R.slot (core_rack core.new))) }
{
    if disk >= core.meta().setup.geometry.disks {
        return Ok(Some(FailFault::NoDisk { disk }));
    }
    if let Some(out) = core.out().named() {
        return Ok(Some(FailFault::Out { disk: out }));
    }
    commit_writes(core)?;
    if let Some(out) = core.out().named() {
        if out != disk {
            return Ok(Some(FailFault::Out { disk: out }));
        }
    }
    mark_gone(core, disk)?;
    Ok(None)
}
