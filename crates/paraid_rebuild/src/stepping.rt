//! A step of a rebuild: what is staged is committed first, then units are copied and marked by a
//! commit.
ghost use Rattle.std.specs.Prelude.{◌≡◌, ℕ, ◌+◌, ◌<◌, ◌≤◌, true, false, [], Ok, Some, OnOk};
ghost use Rattle.paraid_base.specs.declared.state.Out.TheVariants.{Fresh, Gone};
ghost use Rattle.paraid_base.specs.History.{History};
ghost use Rattle.paraid_base.specs.States.{rebuilt_count};
ghost use Rattle.paraid_core.specs.Cores.{CoreStandsFor, IsCoreHeldSinceCommit, batch_of, core_rack, core_table, meta_of, store_of};
ghost use Rattle.paraid_core.specs.Steps.{IsNamedOrAbsent};
ghost use Rattle.paraid_image.specs.Mark.{meta_after_loss};
ghost use Rattle.paraid_rack.specs.Told.{CrashTriple, Ran};
ghost use Rattle.paraid_rebuild.specs.Rebuilds.{CanRebuild, HasCommitted, HoldsFromRest, IsEventPart, KeepsDisk, LosesAgain, ServesLater, SparesSlots};
ghost use Rattle.paraid_record.specs.Range.{rebuild_units};
ghost use Rattle.paraid_event.specs.CoreServing.{IsHeldInShift, IsCoreServing, RestsInShift, StandsInShift};
ghost use Rattle.paraid_txn.specs.Stores.{named_of};
ghost use Rattle.paraid_base.specs.Log.{epoch_limit};

use crate::ending::mark_units;
use crate::moving::move_units;
use crate::replaced::is_gone;
use paraid_base::{DiskNo, Two};
use paraid_core::Core;
use paraid_rack::Rack;

// Whether nothing is staged.
fn is_clear<R: Rack>(core: &Core<R>) -> bool
    ensures nothing { result ≡ true → batch_of core.now ≡ [] }
{
    core.staged() == 0
}

/// Commits what is staged, if anything is. False where the disk that is rebuilt was lost in it.
pub fn commit_staged<R: Rack>(core: &mut Core<R>, disk: DiskNo) -> Result<bool, Two>
    requires can { CanRebuild core.old disk }
    requires epoch { (meta_of core.old).epoch < epoch_limit }
    ensures serves { OnOk result (ServesLater core.old core.new 1) }
    ensures named { OnOk result (named_of (store_of core.new) ≡ Some disk) }
    ensures same { result ≡ Ok true → KeepsDisk core.new disk
        (record (meta_of core.old) { epoch = (meta_of core.new).epoch }) }
    // The disk has failed, and is gone.
    ensures lost { result ≡ Ok false
        → LosesAgain core.old core.new disk ((meta_of core.old).epoch + 1) }
    ensures table { core_table core.new ≡ core_table core.old }
    ensures keeps { SparesSlots core.old core.new result }
    ensures moments { IsHeldInShift R.slot_count R.told core.old core.new }
    ensures rests { OnOk result ((h : History) (lo : ℕ) → Ran (R.told (core_rack core.old)) (R.told
        (core_rack core.new)) (CrashTriple (IsCoreHeldSinceCommit R.slot_count core.old h lo)
        (StandsInShift R.slot_count core.old h lo) (RestsInShift R.slot_count core.new h lo))) }
    // In an event it is a part with at most one commit, also where a second disk is lost in it.
    ensures in_event { IsEventPart core.old core.new 1 result }
{
    if is_clear(core) {
        return Ok(true);
    }
    core.commit()?;
    Ok(!is_gone(core))
}

/// Commits that a disk which was rebuilt is gone again, in the tick in which it was lost.
pub fn commit_lost<R: Rack>(core: &mut Core<R>, disk: DiskNo) -> Result<(), Two>
    requires serving { IsCoreServing R.slot_count R.slot core.old }
    requires out { (meta_of core.old).out ≡ Gone disk }
    requires absent { IsNamedOrAbsent R.slot core.old }
    requires epoch { (meta_of core.old).epoch < epoch_limit }
    ensures serves { OnOk result (HasCommitted core.new (Some disk)) }
    ensures gone { OnOk result (meta_of core.new ≡ record (meta_after_loss
        (meta_of core.old) disk) { epoch = (meta_of core.old).epoch + 1 }) }
    ensures table { core_table core.new ≡ core_table core.old }
    ensures keeps { SparesSlots core.old core.new result }
    ensures moments { (h : History) (lo : ℕ)
        → Ran (R.told (core_rack core.old)) (R.told (core_rack core.new))
        (CrashTriple (IsCoreHeldSinceCommit R.slot_count core.old h lo) (CoreStandsFor
        R.slot_count core.old h lo) (IsCoreHeldSinceCommit R.slot_count core.old h lo)) }
    ensures rests { OnOk result ((h : History) (lo : ℕ) → Ran (R.told (core_rack core.old)) (R.told
        (core_rack core.new)) (CrashTriple (IsCoreHeldSinceCommit R.slot_count core.old h lo)
        (CoreStandsFor R.slot_count core.old h lo) (RestsInShift R.slot_count core.new h lo))) }
    ensures in_event { IsEventPart core.old core.new 1 result }
{
    core.mark_out(disk);
    core.commit()?;
    Ok(())
}

// Copies the units below `end` that are not rebuilt, and marks them by a commit. False where the
// disk was lost.
fn advance<R: Rack>(core: &mut Core<R>, disk: DiskNo, end: u32) -> Result<bool, Two>
    requires can { CanRebuild core.old disk }
    requires nothing { batch_of core.old ≡ [] }
    requires from { rebuilt_count (meta_of core.old).out ≤ end }
    requires limit { end
        ≤ rebuild_units (meta_of core.old).setup.geometry (meta_of core.old).gear disk }
    requires epoch { (meta_of core.old).epoch < epoch_limit }
    ensures serves { OnOk result (ServesLater core.old core.new 1) }
    ensures named { OnOk result (named_of (store_of core.new) ≡ Some disk) }
    ensures moved { result ≡ Ok true → KeepsDisk core.new disk (record (meta_of core.old)
        { epoch = (meta_of core.new).epoch; out = Fresh disk end }) }
    // The disk has failed, and is gone.
    ensures lost { result ≡ Ok false → LosesAgain core.old core.new disk (meta_of core.new).epoch }
    ensures keeps { SparesSlots core.old core.new result }
    ensures stops { HoldsFromRest core.old core.new result }
    ensures in_event { IsEventPart core.old core.new 1 result }
{
    let first = core.out().rebuilt();
    let copied = move_units(core, disk, first, end)?;
    if !copied {
        return Ok(false);
    }
    mark_units(core, disk, end)
}

// The same after a commit of what is staged, if anything is.
fn go_on<R: Rack>(core: &mut Core<R>, disk: DiskNo, end: u32) -> Result<bool, Two>
    requires can { CanRebuild core.old disk }
    requires from { rebuilt_count (meta_of core.old).out ≤ end }
    requires limit { end
        ≤ rebuild_units (meta_of core.old).setup.geometry (meta_of core.old).gear disk }
    requires epoch { (meta_of core.old).epoch + 1 < epoch_limit }
    ensures serves { OnOk result (ServesLater core.old core.new 2) }
    ensures named { OnOk result (named_of (store_of core.new) ≡ Some disk) }
    ensures moved { result ≡ Ok true → KeepsDisk core.new disk (record (meta_of core.old)
        { epoch = (meta_of core.new).epoch; out = Fresh disk end }) }
    // The disk has failed, and is gone.
    ensures lost { result ≡ Ok false → LosesAgain core.old core.new disk (meta_of core.new).epoch }
    ensures keeps { SparesSlots core.old core.new result }
    ensures moments { IsHeldInShift R.slot_count R.told core.old core.new }
    ensures stands { OnOk result ((h : History) (lo : ℕ) → Ran (R.told (core_rack core.old)) (R.told
        (core_rack core.new)) (CrashTriple (IsCoreHeldSinceCommit R.slot_count core.old h lo)
        (StandsInShift R.slot_count core.old h lo) (CoreStandsFor R.slot_count core.new h lo))) }
    ensures rests { result ≡ Ok true
        → (h : History) (lo : ℕ) → Ran (R.told (core_rack core.old)) (R.told (core_rack core.new))
        (CrashTriple (IsCoreHeldSinceCommit R.slot_count core.old h lo)
        (StandsInShift R.slot_count core.old h lo) (RestsInShift R.slot_count core.new h lo)) }
    ensures in_event { IsEventPart core.old core.new 2 result }
{
    let there = commit_staged(core, disk)?;
    if !there {
        return Ok(false);
    }
    advance(core, disk, end)
}

/// A step of a rebuild: what is staged is committed first, if anything is; then the units below
/// `end` that are not rebuilt are copied past the log, made to last and marked by one commit.
///
/// True once they are. False where the disk was lost again.
pub fn step<R: Rack>(core: &mut Core<R>, disk: DiskNo, end: u32) -> Result<bool, Two>
    requires can { CanRebuild core.old disk }
    requires from { rebuilt_count (meta_of core.old).out ≤ end }
    requires limit { end
        ≤ rebuild_units (meta_of core.old).setup.geometry (meta_of core.old).gear disk }
    requires epoch { (meta_of core.old).epoch + 2 < epoch_limit }
    ensures serves { OnOk result (ServesLater core.old core.new 3) }
    ensures absent { OnOk result (IsNamedOrAbsent R.slot core.new) }
    ensures named { OnOk result (named_of (store_of core.new) ≡ Some disk) }
    ensures moved { result ≡ Ok true → KeepsDisk core.new disk (record (meta_of core.old)
        { epoch = (meta_of core.new).epoch; out = Fresh disk end }) }
    // False only where the disk has failed: that it is gone is committed.
    ensures lost { result ≡ Ok false → LosesAgain core.old core.new disk (meta_of core.new).epoch }
    ensures keeps { SparesSlots core.old core.new result }
    ensures moments { IsHeldInShift R.slot_count R.told core.old core.new }
    // Each stop leaves what it left before, and the writes are as they were, with nothing staged.
    ensures rests { OnOk result ((h : History) (lo : ℕ) → Ran (R.told (core_rack core.old)) (R.told
        (core_rack core.new)) (CrashTriple (IsCoreHeldSinceCommit R.slot_count core.old h lo)
        (StandsInShift R.slot_count core.old h lo) (RestsInShift R.slot_count core.new h lo))) }
    // In an event these are parts with at most three commits, also where a second disk is lost in
    // them.
    ensures in_event { IsEventPart core.old core.new 3 result }
{
    let moved = go_on(core, disk, end)?;
    if moved {
        return Ok(true);
    }
    commit_lost(core, disk)?;
    Ok(false)
}
