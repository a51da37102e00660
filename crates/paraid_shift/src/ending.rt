//! A shift ends: the new gear is committed, and after a shift down the disks that it does not need
//! are parked.
ghost use Rattle.std.specs.Prelude.{◌≡◌, ◌≢◌, ℕ, ◌+◌, ◌<◌, ◌≤◌, ◌⊎◌, [], true, false, Some, OnOk};
ghost use Rattle.paraid_base.specs.declared.state.Phase.TheVariants.{Steady};
ghost use Rattle.paraid_base.specs.History.{History};
ghost use Rattle.paraid_base.specs.States.{phase_to};
ghost use Rattle.paraid_core.specs.Cores.{CoreStandsFor, IsCoreHeldSinceCommit, IsCoreReady, batch_of, core_rack, meta_of, store_of};
ghost use Rattle.paraid_core.specs.Lost.{CoreTellsLosses};
ghost use Rattle.paraid_core.specs.Steps.{IsMarkedFrom};
ghost use Rattle.paraid_image.specs.Out.{named_out};
ghost use Rattle.paraid_moves.specs.MoveMetas.{meta_flipped_to};
ghost use Rattle.paraid_rack.specs.declared.call.Power.TheVariants.{Parked, Spinning};
ghost use Rattle.paraid_rack.specs.Told.{CrashTriple, Ran};
ghost use Rattle.paraid_shift.specs.Losing.{LosesMark};
ghost use Rattle.paraid_shift.specs.Outcomes.{CommitsGear};
ghost use Rattle.paraid_shift.specs.Parts.{CanEndShift, KeepsContents, KeepsRack, ServesShifted, SparesRack, PowersFromRest};
ghost use Rattle.paraid_event.specs.CoreServing.{IsCoreServing, RestsInShift};
ghost use Rattle.paraid_shift.specs.Steps.{EndsInSteps, EndsLosing};
ghost use Rattle.paraid_txn.specs.Stores.{IsSameStore};

use paraid_base::{DiskNo, Two};
use paraid_core::Core;
use paraid_rack::{Power, Rack};

// Whether a disk past the gear has still to be parked.
fn is_up<R: Rack>(core: &Core<R>, disk: DiskNo) -> bool
    requires ready { IsCoreReady R.slot_count R.slot core.now }
    requires disk { disk < (meta_of core.now).setup.geometry.disks }
    ensures spins { result ≡ true → (R.slot (core_rack core.now) disk).power ≡ Spinning }
    ensures down { result ≡ false → named_out (meta_of core.now).out ≢ Some disk
        → (R.slot (core_rack core.now) disk).power ≡ Parked }
    ensures not_out { result ≡ true → named_out (meta_of core.now).out ≢ Some disk }
{
    if core.out().names(disk) {
        return false;
    }
    match core.power(disk) {
        Power::Spinning => true,
        Power::Parked => false,
        Power::Absent => false,
    }
}

// Parks a disk past the gear, unless it is out or parked. A disk that fails is out from then on.
fn lower<R: Rack>(core: &mut Core<R>, disk: DiskNo) -> Result<(), Two>
    requires serving { IsCoreServing R.slot_count R.slot core.old }
    requires steady { (meta_of core.old).phase ≡ Steady }
    requires disk { disk < (meta_of core.old).setup.geometry.disks }
    requires past_gear { (meta_of core.old).gear ≤ disk }
    requires nothing { batch_of core.old ≡ [] }
    ensures serving { OnOk result (IsCoreServing R.slot_count R.slot core.new) }
    ensures nothing { OnOk result (batch_of core.new ≡ []) }
    ensures turns { PowersFromRest core.old core.new result }
    ensures rack { KeepsRack core.old core.new
        (CoreTellsLosses R.told (named_out (meta_of core.old).out) core.old core.new) result }
    ensures store { IsSameStore (store_of core.old) (store_of core.new) }
    ensures parked { OnOk result (named_out (meta_of core.new).out ≢ Some disk
        → (R.slot (core_rack core.new) disk).power ≡ Parked) }
    ensures others { (d : ℕ)
        → d ≢ disk → R.slot (core_rack core.new) d ≡ R.slot (core_rack core.old) d }
{
    if !is_up(core, disk) {
        return Ok(());
    }
    core.park(disk)?;
    Ok(())
}

// Parks each disk from the gear to `hi - 1`, in ascending order. After one that fails the others
// are parked still.
fn park_down<R: Rack>(core: &mut Core<R>, hi: u8) -> Result<(), Two>
    requires serving { IsCoreServing R.slot_count R.slot core.old }
    requires steady { (meta_of core.old).phase ≡ Steady }
    requires high { hi ≤ (meta_of core.old).setup.geometry.disks }
    requires nothing { batch_of core.old ≡ [] }
    ensures serving { OnOk result (IsCoreServing R.slot_count R.slot core.new) }
    ensures nothing { OnOk result (batch_of core.new ≡ []) }
    ensures turns { PowersFromRest core.old core.new result }
    ensures rack { KeepsRack core.old core.new
        (CoreTellsLosses R.told (named_out (meta_of core.old).out) core.old core.new) result }
    ensures parked { OnOk result ((d : ℕ)
        → (meta_of core.old).gear ≤ d → d < hi → named_out (meta_of core.new).out ≢ Some d
        → (R.slot (core_rack core.new) d).power ≡ Parked) }
    ensures others { OnOk result ((d : ℕ) → (d < (meta_of core.old).gear) ⊎ (hi ≤ d)
        → R.slot (core_rack core.new) d ≡ R.slot (core_rack core.old) d) }
{
    for disk in core.meta().gear..hi {
        lower(core, disk)?;
    }
    Ok(())
}

// Commits the gear to which the shift has gone.
fn commit_gear<R: Rack>(core: &mut Core<R>) -> Result<(), Two>
    requires can { CanEndShift core.old }
    ensures ended { OnOk result (CommitsGear R.slot_count R.slot R.told core.old core.new) }
    ensures keeps { KeepsContents core.old core.new }
    ensures rack { SparesRack core.old core.new (LosesMark R.slot_count R.told core.old core.new
        (meta_flipped_to (meta_of core.old) (phase_to (meta_of core.old).phase))) result }
{
    core.flip();
    core.commit()?;
    Ok(())
}

/// Ends a shift of which no unit is left: by one commit with all that is staged, after which the
/// disks that a shift down leaves are parked in ascending order.
pub fn flip<R: Rack>(core: &mut Core<R>) -> Result<(), Two>
    requires can { CanEndShift core.old }
    ensures shifted { OnOk result (ServesShifted core.old core.new) }
    ensures meta { OnOk result (IsMarkedFrom (record (meta_flipped_to (meta_of core.old) (phase_to
        (meta_of core.old).phase)) { epoch = (meta_of core.old).epoch + 1 }) (meta_of core.new)) }
    ensures keeps { KeepsContents core.old core.new }
    // Wherever the last marks of the shift wait in memory, they are brought with one commit more,
    // and the event is underway again.
    ensures steps { OnOk result (EndsInSteps R.slot_count R.told core.old core.new) }
    ensures rack { KeepsRack core.old core.new
        (EndsLosing R.slot_count R.told core.old core.new) result }
    ensures rests { OnOk result ((h : History) (lo : ℕ) → Ran (R.told (core_rack core.old)) (R.told
        (core_rack core.new)) (CrashTriple (IsCoreHeldSinceCommit R.slot_count core.old h lo)
        (CoreStandsFor R.slot_count core.old h lo) (RestsInShift R.slot_count core.new h lo))) }
{
    let hi = core.meta().gear;
    commit_gear(core)?;
    park_down(core, hi)?;
    Ok(())
}
