//! A step of a shift: units are copied past the log, made to last, marked and committed.
ghost use Rattle.std.specs.Prelude.{◌≡◌, ◌≢◌, ◌+◌, ◌-◌, ◌^◌, ◌<◌, ◌≤◌, ◌⊎◌, [], true, OnOk, IfOk};
ghost use Rattle.paraid_base.specs.declared.state.Out.TheVariants.{No};
ghost use Rattle.paraid_base.specs.Soft.{stripe_count};
ghost use Rattle.paraid_base.specs.States.{phase_to};
ghost use Rattle.paraid_image.specs.Out.{named_out};
ghost use Rattle.paraid_core.specs.Cores.{IsCoreReady, batch_of, core_table, meta_of};
ghost use Rattle.paraid_core.specs.Steps.{IsMarkedFrom, IsNamedOrAbsent};
ghost use Rattle.paraid_shift.specs.Outcomes.{CommitsInEvent, LosesInCommit, MovesGroup, ServesOn, StepsOn};
ghost use Rattle.paraid_shift.specs.Parts.{AreStripesToFill, CanMoveUnits, KeepsRack, SparesRack};
ghost use Rattle.paraid_event.specs.CoreServing.{IsCoreServing};
ghost use Rattle.paraid_shift.specs.Steps.{CoreLosesInSteps, CoreStepsInEvent, StepsOrWaits};
ghost use Rattle.paraid_shift.specs.Units.{AreCellsDone, AreCoreUnitsLeft, AreUnitsDone, CoreCountsMoved, MovesUpTo};
ghost use Rattle.paraid_base.specs.Log.{epoch_limit};

use crate::cells::move_group;
use crate::stripes::move_stripes;
use crate::units::{cells_left, is_done, stripes_left};
use paraid_base::{DiskNo, Out, Two};
use paraid_core::Core;
use paraid_rack::Rack;

/// What a step of a shift moved: so many units, of which so many are left, and the disk that was
/// lost in it.
#[derive(Clone, Copy)]
pub struct Moved {
    pub units: u32,
    pub left: u32,
    pub lost: Option<DiskNo>,
}

// Commits what is staged.
fn commit<R: Rack>(core: &mut Core<R>) -> Result<(), Two>
    requires serving { IsCoreServing R.slot_count R.slot core.old }
    requires epoch { (meta_of core.old).epoch < epoch_limit }
    ensures commits { OnOk result (CommitsInEvent R.slot_count R.slot R.told core.old core.new) }
    ensures table { core_table core.new ≡ core_table core.old }
    ensures rack { SparesRack core.old core.new
        (LosesInCommit R.slot_count R.slot R.told core.old core.new) result }
{
    core.commit()?;
    Ok(())
}

/// Commits what is staged, if anything is.
pub fn commit_staged<R: Rack>(core: &mut Core<R>) -> Result<(), Two>
    requires serving { IsCoreServing R.slot_count R.slot core.old }
    requires epoch { (meta_of core.old).epoch < epoch_limit }
    ensures serves { OnOk result (ServesOn R.slot_count R.slot core.old core.new 1) }
    ensures nothing { OnOk result (batch_of core.new ≡ []) }
    ensures meta { OnOk result (IsMarkedFrom
        (record (meta_of core.old) { epoch = (meta_of core.new).epoch }) (meta_of core.new)) }
    ensures table { core_table core.new ≡ core_table core.old }
    ensures moves { OnOk result ((meta_of core.old).out ≡ No
        → CoreCountsMoved R.slot_count core.old core.new 0) }
    ensures steps { OnOk result (IsNamedOrAbsent R.slot core.old
        → CoreStepsInEvent R.slot_count R.told core.old core.new 1) }
    ensures rack { KeepsRack core.old core.new (λ two. IsNamedOrAbsent R.slot core.old
        → CoreLosesInSteps R.slot_count R.told core.old core.new 1 two) result }
{
    if core.staged() == 0 {
        return Ok(());
    }
    commit(core)
}

// Whether a shift has no unit left, or there is none under way.
fn has_ended<R: Rack>(core: &Core<R>) -> bool
    requires ready { IsCoreReady R.slot_count R.slot core.now }
    ensures done { result ≡ true → AreUnitsDone (meta_of core.now) (core_table core.now) }
{
    if core.meta().phase.to() == 0 {
        return true;
    }
    is_done(core)
}

// Moves a group of cells, at most `most`, and commits it, unless the shift ends with it. It gives
// how many they were.
fn step_group<R: Rack>(core: &mut Core<R>, most: u32) -> Result<u32, Two>
    requires can { CanMoveUnits core.old }
    requires epoch { (meta_of core.old).epoch < epoch_limit }
    ensures steps { IfOk result (λ count. StepsOn R.slot_count R.slot core.old core.new most 1 count
        (MovesGroup R.slot_count core.old core.new most count)
        (CoreStepsInEvent R.slot_count R.told core.old core.new 1)) }
    ensures rack { KeepsRack core.old core.new
        (CoreLosesInSteps R.slot_count R.told core.old core.new 1) result }
{
    let count = move_group(core, most)?;
    if count == 0 {
        return Ok(0);
    }
    if has_ended(core) {
        return Ok(count);
    }
    commit(core)?;
    Ok(count)
}

// Moves dirty cells of the disks that come up, group by group and at most `most`. It gives how many
// they were.
fn step_cells<R: Rack>(core: &mut Core<R>, most: u32) -> Result<u32, Two>
    requires can { CanMoveUnits core.old }
    requires epoch { (meta_of core.old).epoch + most < epoch_limit }
    ensures steps { IfOk result (λ count.
        StepsOn R.slot_count R.slot core.old core.new most most count (MovesUpTo R.slot_count
        core.old core.new (AreCellsDone (meta_of core.new) (core_table core.new)) most count)
        (CoreStepsInEvent R.slot_count R.told core.old core.new most)) }
    ensures rack { KeepsRack core.old core.new
        (CoreLosesInSteps R.slot_count R.told core.old core.new most) result }
{
    let mut moved = 0;
    for at in 0..most {
        let Out::No = core.out() else {
            return Ok(moved);
        };
        if core.staged() != 0 {
            return Ok(moved);
        }
        let count = step_group(core, most - moved)?;
        if count == 0 {
            return Ok(moved);
        }
        moved += count;
    }
    Ok(moved)
}

// The stripe after the next `most` that are not filled.
fn next_end<R: Rack>(core: &Core<R>, most: u32) -> u32
    requires ready { IsCoreReady R.slot_count R.slot core.now }
    ensures from { (meta_of core.now).fill ≤ result }
    ensures few { result ≤ (meta_of core.now).fill + most }
    ensures some { (meta_of core.now).fill < result → AreStripesToFill (meta_of core.now) result }
    ensures all { (result ≡ (meta_of core.now).fill + most)
        ⊎ (result ≡ stripe_count (meta_of core.now).setup.geometry.disks
        (meta_of core.now).setup.geometry.rows (phase_to (meta_of core.now).phase)) }
{
    let meta = core.meta();
    let to = meta.phase.to();
    if to == 0 || to >= meta.setup.geometry.disks {
        return meta.fill;
    }
    meta.fill + stripes_left(core).min(most)
}

// Fills the next stripes, at most `most`, and commits that, unless the shift ends with them. It
// gives how many they were, none where a disk was lost.
fn step_stripes<R: Rack>(core: &mut Core<R>, most: u32) -> Result<u32, Two>
    requires can { CanMoveUnits core.old }
    requires clean { 0 < most → AreCellsDone (meta_of core.old) (core_table core.old) }
    requires epoch { (meta_of core.old).epoch < epoch_limit }
    ensures steps { IfOk result (λ count. StepsOn R.slot_count R.slot core.old core.new most 1 count
        (MovesUpTo R.slot_count core.old core.new (AreUnitsDone (meta_of core.new)
        (core_table core.new)) most count) (StepsOrWaits R.slot_count R.told core.old core.new 1)) }
    ensures rack { KeepsRack core.old core.new
        (CoreLosesInSteps R.slot_count R.told core.old core.new 1) result }
{
    let from = core.meta().fill;
    let end = next_end(core, most);
    if end <= from {
        return Ok(0);
    }
    let done = move_stripes(core, end)?;
    if !done {
        return Ok(0);
    }
    if has_ended(core) {
        return Ok(end - from);
    }
    commit(core)?;
    Ok(end - from)
}

// Moves the next units, at most `most`: cells and then stripes, while no disk is out.
fn step_units<R: Rack>(core: &mut Core<R>, most: u32) -> Result<u32, Two>
    requires can { CanMoveUnits core.old }
    requires epoch { (meta_of core.old).epoch + most < epoch_limit }
    ensures steps { IfOk result (λ count.
        StepsOn R.slot_count R.slot core.old core.new most (most + 1) count (MovesUpTo R.slot_count
        core.old core.new (AreUnitsDone (meta_of core.new) (core_table core.new)) most count)
        (StepsOrWaits R.slot_count R.told core.old core.new (most + 1))) }
    ensures rack { KeepsRack core.old core.new
        (CoreLosesInSteps R.slot_count R.told core.old core.new (most + 1)) result }
{
    let cells = step_cells(core, most)?;
    let Out::No = core.out() else {
        return Ok(cells);
    };
    if core.staged() != 0 {
        return Ok(cells);
    }
    let stripes = step_stripes(core, most - cells)?;
    Ok(cells + stripes)
}

// Moves the next units where no disk is out, and none where one is.
fn step_whole<R: Rack>(core: &mut Core<R>, most: u32) -> Result<u32, Two>
    requires serving { IsCoreServing R.slot_count R.slot core.old }
    requires nothing { batch_of core.old ≡ [] }
    requires epoch { (meta_of core.old).epoch + most < epoch_limit }
    ensures steps { IfOk result (λ count. StepsOn R.slot_count R.slot core.old core.new most
        (most + 1) count ((meta_of core.old).out ≡ No → MovesUpTo R.slot_count core.old core.new
        (AreUnitsDone (meta_of core.new) (core_table core.new)) most count)
        (StepsOrWaits R.slot_count R.told core.old core.new (most + 1))) }
    ensures idle { IfOk result (λ count. (meta_of core.old).out ≢ No
        → (count ≡ 0) × (core.new ≡ core.old)) }
    ensures rack { KeepsRack core.old core.new
        (CoreLosesInSteps R.slot_count R.told core.old core.new (most + 1)) result }
{
    let Out::No = core.out() else {
        return Ok(0);
    };
    step_units(core, most)
}

/// How many units of a shift are left.
pub fn units_left<R: Rack>(core: &Core<R>) -> u32
    requires ready { IsCoreReady R.slot_count R.slot core.now }
    ensures units { AreCoreUnitsLeft R.slot_count core.now result }
{
    if core.meta().phase.to() == 0 {
        return 0;
    }
    cells_left(core).saturating_add(stripes_left(core))
}

/// A step of a shift that moves the next units, at most so many: what is staged is committed first,
/// if anything is; then dirty cells of the disks that come up are copied, group by group, and then
/// stripes of the region of the new gear. Each group is made to last, marked and committed; only
/// the marks of units with which the shift ends are left staged, for the commit of its end. Where a
/// disk is lost, no more is moved.
pub fn step<R: Rack>(core: &mut Core<R>, units: u32) -> Result<Moved, Two>
    requires serving { IsCoreServing R.slot_count R.slot core.old }
    requires epoch { (meta_of core.old).epoch < epoch_limit - 2 ^ 32 - 2 }
    ensures serves { OnOk result (ServesOn R.slot_count R.slot core.old core.new (units + 2)) }
    ensures few { IfOk result (λ moved. moved.units ≤ units) }
    // The units moved are the next ones by the state of the machine; where no disk was lost they
    // are as many as were asked for, or no unit is left.
    ensures moves { IfOk result (λ moved. (meta_of core.old).out ≡ No
        → MovesUpTo R.slot_count core.old core.new
        (AreUnitsDone (meta_of core.new) (core_table core.new)) units moved.units) }
    // An event is underway after it, or its last marks wait in memory for the commit with which the
    // shift ends.
    ensures steps { OnOk result (IsNamedOrAbsent R.slot core.old
        → StepsOrWaits R.slot_count R.told core.old core.new (units + 2)) }
    ensures left { IfOk result (λ moved. AreCoreUnitsLeft R.slot_count core.new moved.left) }
    ensures lost { IfOk result (λ moved. moved.lost ≡ named_out (meta_of core.new).out) }
    // Where a second disk is lost, so it is told, with what led there.
    ensures rack { KeepsRack core.old core.new (λ two. IsNamedOrAbsent R.slot core.old
        → CoreLosesInSteps R.slot_count R.told core.old core.new (units + 2) two) result }
{
    commit_staged(core)?;
    let count = step_whole(core, units)?;
    Ok(Moved {
        units: count,
        left: units_left(core),
        lost: core.out().named(),
    })
}
