//! A shift begins: its phase is committed, with each spin-up counted, and then the disks that a
//! shift up needs are spun up.
ghost use Rattle.std.specs.Prelude.{◌≡◌, ◌≢◌, ℕ, ◌+◌, ◌<◌, ◌≤◌, ◌⊎◌, true, false, [], Some, OnOk, length, slice_index};
ghost use Rattle.paraid_base.specs.declared.state.Phase.TheVariants.{Down};
ghost use Rattle.paraid_base.specs.History.{History};
ghost use Rattle.paraid_base.specs.States.{rising_to};
ghost use Rattle.paraid_core.specs.Cores.{CoreStandsFor, IsCoreHeldSinceCommit, IsCoreReady, batch_of, core_rack, meta_of, store_of};
ghost use Rattle.paraid_core.specs.Lost.{CoreTellsLosses};
ghost use Rattle.paraid_core.specs.Steps.{IsMarkedFrom};
ghost use Rattle.paraid_image.specs.Out.{named_out};
ghost use Rattle.paraid_moves.specs.MoveMetas.{meta_after_begin};
ghost use Rattle.paraid_rack.specs.declared.call.Power.TheVariants.{Parked, Spinning};
ghost use Rattle.paraid_rack.specs.Told.{CrashTriple, Ran};
ghost use Rattle.paraid_record.specs.Range.{AreNextGears, allowed_spins};
ghost use Rattle.paraid_shift.specs.Losing.{LosesUp};
ghost use Rattle.paraid_shift.specs.Outcomes.{CommitsUp};
ghost use Rattle.paraid_shift.specs.Parts.{CanBeginShift, KeepsContents, KeepsRack, ServesShifted, SparesRack, PowersFromRest};
ghost use Rattle.paraid_event.specs.CoreServing.{IsCoreServing, RestsInShift};
ghost use Rattle.paraid_shift.specs.Rising.{HasBegunUp, IsComingUp};
ghost use Rattle.paraid_shift.specs.Steps.{CoreLosesInSteps, CoreStepsInEvent};
ghost use Rattle.paraid_txn.specs.Stores.{IsSameStore};

use paraid_base::{DiskNo, Two};
use paraid_core::Core;
use paraid_rack::{Power, Rack};

/// Begins a shift down to the next lower gear, by one commit with all that is staged.
pub fn begin_down<R: Rack>(core: &mut Core<R>, to: u8) -> Result<(), Two>
    requires can { CanBeginShift core.old }
    requires next { AreNextGears (meta_of core.old).setup.geometry to (meta_of core.old).gear }
    requires spared { (d : ℕ) → to ≤ d → d < (meta_of core.old).gear
        → slice_index (meta_of core.old).spins d < allowed_spins (meta_of core.old) }
    ensures shifted { OnOk result (ServesShifted core.old core.new) }
    ensures meta { OnOk result (IsMarkedFrom (record (meta_after_begin (meta_of core.old) (Down to)
        (meta_of core.old).spins) { epoch = (meta_of core.old).epoch + 1 }) (meta_of core.new)) }
    ensures keeps { KeepsContents core.old core.new }
    ensures steps { OnOk result (CoreStepsInEvent R.slot_count R.told core.old core.new 1) }
    ensures rack { SparesRack core.old core.new
        (CoreLosesInSteps R.slot_count R.told core.old core.new 1) result }
    ensures rests { OnOk result ((h : History) (lo : ℕ)
        → Ran (R.told (core_rack core.old)) (R.told (core_rack core.new))
        (CrashTriple (IsCoreHeldSinceCommit R.slot_count core.old h lo) (CoreStandsFor
        R.slot_count core.old h lo) (RestsInShift R.slot_count core.new h (length h)))) }
{
    core.begin_down(to);
    core.commit()?;
    Ok(())
}

// Whether a disk that comes up has still to be spun up.
fn is_down<R: Rack>(core: &Core<R>, disk: DiskNo) -> bool
    requires ready { IsCoreReady R.slot_count R.slot core.now }
    requires disk { disk < (meta_of core.now).setup.geometry.disks }
    ensures parked { result ≡ true → (R.slot (core_rack core.now) disk).power ≡ Parked }
    ensures not_out { result ≡ true → named_out (meta_of core.now).out ≢ Some disk }
    ensures up { result ≡ false → named_out (meta_of core.now).out ≢ Some disk
        → (R.slot (core_rack core.now) disk).power ≡ Spinning }
{
    if core.out().names(disk) {
        return false;
    }
    match core.power(disk) {
        Power::Parked => true,
        Power::Spinning => false,
        Power::Absent => false,
    }
}

// Spins up a disk, unless it is out or spins. A disk that fails is out from then on.
fn raise<R: Rack>(core: &mut Core<R>, disk: DiskNo) -> Result<(), Two>
    requires rising { IsComingUp R.slot_count R.slot core.old disk }
    requires disk { disk < (meta_of core.old).setup.geometry.disks }
    requires past_gear { (meta_of core.old).gear ≤ disk }
    requires rises { disk < rising_to (meta_of core.old).phase }
    ensures rising { OnOk result (IsComingUp R.slot_count R.slot core.new (disk + 1)) }
    ensures turns { PowersFromRest core.old core.new result }
    ensures rack { KeepsRack core.old core.new
        (CoreTellsLosses R.told (named_out (meta_of core.old).out) core.old core.new) result }
    ensures store { IsSameStore (store_of core.old) (store_of core.new) }
    ensures others { (d : ℕ)
        → d ≢ disk → R.slot (core_rack core.new) d ≡ R.slot (core_rack core.old) d }
    ensures within { disk < rising_to (meta_of core.old).phase }
{
    if !is_down(core, disk) {
        return Ok(());
    }
    core.spin_up(disk)?;
    Ok(())
}

// Spins up each disk from the gear to that of a shift up, in ascending order. After one that fails
// the others are spun up still.
fn bring_up<R: Rack>(core: &mut Core<R>) -> Result<(), Two>
    requires rising { IsComingUp R.slot_count R.slot core.old (meta_of core.old).gear }
    ensures serving { OnOk result (IsCoreServing R.slot_count R.slot core.new) }
    ensures nothing { OnOk result (batch_of core.new ≡ []) }
    ensures turns { PowersFromRest core.old core.new result }
    ensures rack { KeepsRack core.old core.new
        (CoreTellsLosses R.told (named_out (meta_of core.old).out) core.old core.new) result }
    ensures others { OnOk result ((d : ℕ)
        → (d < (meta_of core.old).gear) ⊎ (rising_to (meta_of core.old).phase ≤ d)
        → R.slot (core_rack core.new) d ≡ R.slot (core_rack core.old) d) }
{
    let gear = core.meta().gear;
    for disk in gear..core.meta().phase.rising_to() {
        raise(core, disk)?;
    }
    Ok(())
}

// Commits the phase of a shift up, with the spin-ups counted.
fn commit_up<R: Rack>(core: &mut Core<R>, to: u8) -> Result<(), Two>
    requires can { CanBeginShift core.old }
    requires next { AreNextGears (meta_of core.old).setup.geometry (meta_of core.old).gear to }
    ensures begun { OnOk result (CommitsUp R.slot_count R.slot R.told core.old core.new to) }
    ensures keeps { KeepsContents core.old core.new }
    ensures rack { SparesRack core.old core.new
        (LosesUp R.slot_count R.told core.old core.new to) result }
{
    core.begin_up(to);
    core.commit()?;
    Ok(())
}

/// Begins a shift up to the next higher gear: by one commit with all that is staged, in which a
/// spin-up is counted for each disk that comes up; then they are spun up in ascending order.
pub fn begin_up<R: Rack>(core: &mut Core<R>, to: u8) -> Result<(), Two>
    requires can { CanBeginShift core.old }
    requires next { AreNextGears (meta_of core.old).setup.geometry (meta_of core.old).gear to }
    ensures shifted { OnOk result (ServesShifted core.old core.new) }
    ensures meta { OnOk result (HasBegunUp (meta_of core.old) (meta_of core.new) to) }
    ensures keeps { KeepsContents core.old core.new }
    ensures steps { OnOk result (CoreStepsInEvent R.slot_count R.told core.old core.new 1) }
    ensures rack { KeepsRack core.old core.new
        (CoreLosesInSteps R.slot_count R.told core.old core.new 1) result }
    ensures rests { OnOk result ((h : History) (lo : ℕ) → Ran (R.told (core_rack core.old)) (R.told
        (core_rack core.new)) (CrashTriple (IsCoreHeldSinceCommit R.slot_count core.old h lo)
        (CoreStandsFor R.slot_count core.old h lo) (RestsInShift R.slot_count core.new h lo))) }
{
    commit_up(core, to)?;
    bring_up(core)?;
    Ok(())
}
