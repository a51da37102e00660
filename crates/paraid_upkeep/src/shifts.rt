//! When a shift may begin, and those that a tick begins or moves.
ghost use Rattle.std.specs.Prelude.{◌≡◌, ◌≢◌, ℕ, ◌<◌, ◌≤◌, List, Ok, Some, OnOk, IfOk, IfErr, slice_index};
ghost use Rattle.paraid_base.specs.declared.state.Out.TheVariants.{Fresh, Gone, No};
ghost use Rattle.paraid_base.specs.declared.state.TickEvent.TheVariants.{Ration as WornInTick, Waiting};
ghost use Rattle.paraid_base.specs.Log.{worn_at};
ghost use Rattle.paraid_base.specs.declared.state.Phase.TheVariants.{Steady};
ghost use Rattle.paraid_core.specs.Cores.{core_down, core_rack, core_table, meta_of};
ghost use Rattle.paraid_upkeep.specs.declared.fault.ShiftFault.TheVariants.{Ration as Worn};
ghost use Rattle.paraid_upkeep.specs.Refusals.{IsDownRefused, IsHinderedBy, IsShiftStateOf, IsUpRefused, MayGoDown, MayGoUp};
ghost use Rattle.paraid_upkeep.specs.Service.{LeavesInService, MakesCalls};
ghost use Rattle.paraid_upkeep.specs.TickAnswers.{CoreMoves, IsIdleTick, TellsDecision, TellsRest};
ghost use Rattle.paraid_upkeep.specs.TickTurns.{AreUnitsOfTick};
ghost use Rattle.paraid_upkeep.specs.Turns.{CoreTickHalts, CoreTicks};
ghost use Rattle.paraid_gear.specs.Decision.{decision};
ghost use Rattle.paraid_gear.specs.ThreeWindows.{HoldLastSamples, lengths_of};
ghost use Rattle.paraid_gear.specs.declared.three_windows.Windows.{Windows as WindowsType};
ghost use Rattle.paraid_image.specs.Power.{PowerState};
ghost use Rattle.paraid_machine.specs.Moves.{units_by};
ghost use Rattle.paraid_record.specs.Range.{AreNextGears, IsInRange, allowed_spins};
ghost use Rattle.paraid_event.specs.CoreServing.{IsCoreServing};
ghost use Rattle.paraid_upkeep.specs.Events.{CommitsInTick, ServesKnown, TicksAtRest, TicksRebuild, TicksShift};
ghost use Rattle.paraid_txn.specs.Losses.{AreTwoDown};

use crate::fault::ShiftFault;
use crate::rebuilding::rebuild;
use paraid_base::{Out, Phase, TickEvent, Two};
use paraid_core::Core;
use paraid_gear::{Decision, Windows};
use paraid_rack::Rack;
use paraid_ration::{allowance, may_park};
use paraid_record::{Meta, Mode};
use paraid_shift::{begin_down, begin_up, flip, is_done, step, units_left};

// A shift under way, or a disk that is out.
fn hindrance(meta: &Meta) -> Result<(), ShiftFault>
    ensures steady { OnOk result (meta.now.phase ≡ Steady) }
    ensures whole { OnOk result (meta.now.out ≡ No) }
    ensures hinders { IfErr result (IsHinderedBy meta.now.phase meta.now.out) }
{
    match meta.phase {
        Phase::Steady => {}
        Phase::Down { to } | Phase::Up { to } => return Err(ShiftFault::Shifting { to }),
    }
    match meta.out {
        Out::No => Ok(()),
        Out::Gone { disk } | Out::Fresh { disk, .. } => Err(ShiftFault::Out { disk }),
    }
}

/// The next lower gear, if a shift to it may begin.
pub fn gear_below(meta: &Meta) -> Result<u8, ShiftFault>
    requires in_range { IsInRange meta.now }
    ensures next { IfOk result (λ to. AreNextGears meta.now.setup.geometry to meta.now.gear) }
    ensures steady { OnOk result (meta.now.phase ≡ Steady) }
    ensures whole { OnOk result (meta.now.out ≡ No) }
    ensures spared { IfOk result (λ to. (d : ℕ) → to ≤ d → d < meta.now.gear
        → slice_index meta.now.spins d < allowed_spins meta.now) }
    // By the conditions of the machine, one after the other.
    ensures may { IfOk result (λ to. (s : PowerState)
        → IsShiftStateOf meta.now s → MayGoDown meta.now.setup s to) }
    ensures refused { IfErr result (λ fault. (s : PowerState) → IsShiftStateOf meta.now s
        → IsDownRefused meta.now.setup s fault) }
{
    let setup = &meta.setup;
    let Some(to) = setup.geometry.lower(meta.gear) else {
        return Err(ShiftFault::Lowest);
    };
    hindrance(meta)?;
    let allowed = allowance(setup.ration, setup.burst, setup.period, meta.ticks);
    match may_park(&meta.spins, allowed, to, meta.gear) {
        Ok(()) => Ok(to),
        Err(disk) => Err(ShiftFault::Ration { disk }),
    }
}

/// The next higher gear, if a shift to it may begin.
pub fn gear_above(meta: &Meta) -> Result<u8, ShiftFault>
    requires in_range { IsInRange meta.now }
    ensures next { IfOk result (λ to. AreNextGears meta.now.setup.geometry meta.now.gear to) }
    ensures steady { OnOk result (meta.now.phase ≡ Steady) }
    ensures whole { OnOk result (meta.now.out ≡ No) }
    // By the conditions of the machine.
    ensures may { IfOk result (λ to. (s : PowerState)
        → IsShiftStateOf meta.now s → MayGoUp meta.now.setup s to) }
    ensures refused { IfErr result (λ fault. (s : PowerState) → IsShiftStateOf meta.now s
        → IsUpRefused meta.now.setup s fault) }
{
    let Some(to) = meta.setup.geometry.higher(meta.gear) else {
        return Err(ShiftFault::Top);
    };
    hindrance(meta)?;
    Ok(to)
}

// How many of so many units that are left a tick moves: all of a shift up in whole mode, else as
// many as the rate says.
fn units_among(meta: &Meta, left: u32) -> u32
    ensures units { result ≡ units_by meta.now.setup.mode meta.now.phase meta.now.setup.rate left }
{
    match meta.setup.mode {
        Mode::Access => meta.setup.rate.min(left),
        Mode::Whole => match meta.phase {
            Phase::Up { .. } => left,
            Phase::Down { .. } => meta.setup.rate.min(left),
            Phase::Steady => meta.setup.rate.min(left),
        },
    }
}

// How many units of a shift a tick moves.
fn units_of_tick<R: Rack>(core: &Core<R>) -> u32
    requires serving { IsCoreServing R.slot_count R.slot core.now }
    ensures units { AreUnitsOfTick R.slot_count core.now result }
{
    let left = units_left(core);
    units_among(core.meta(), left)
}

// The tick of a shift under way: it moves units, and ends the shift with the last of them.
fn move_on<R: Rack>(core: &mut Core<R>) -> Result<(u32, TickEvent), Two>
    requires serving { IsCoreServing R.slot_count R.slot core.old }
    requires epoch { (meta_of core.old).epoch < worn_at }
    requires whole { (meta_of core.old).out ≡ No }
    requires shifts { (meta_of core.old).phase ≢ Steady }
    ensures serves { OnOk result (LeavesInService R.slot_count R.slot core.old core.new) }
    // It moves what the machine moves, from each state that the core shows.
    ensures moves { IfOk result (λ done. CoreMoves R.slot_count core.old core.new done.0 done.1) }
    ensures commits { OnOk result (CommitsInTick R.slot_count core.old core.new) }
    // It is a tick of a session.
    ensures turn { IfOk result (λ done. (windows : WindowsType)
        → CoreTicks R.slot_count R.told windows core.old core.new
        (record { gear = (meta_of core.new).gear; moved = done.0; event = done.1 })) }
    ensures halts { IfErr result (λ two. (windows : WindowsType)
        → CoreTickHalts R.slot_count R.told windows core.old core.new two) }
    ensures calls { MakesCalls R.slot_count R.slot R.told core.old core.new }
    ensures two { IfErr result (AreTwoDown (core_down core.old)
        (R.slot (core_rack core.old)) (R.slot (core_rack core.new))) }
{
    let units = units_of_tick(core);
    let moved = step(core, units)?;
    if let Some(disk) = moved.lost {
        return Ok((moved.units, TickEvent::Lost { disk }));
    }
    if !is_done(core) {
        return Ok((moved.units, TickEvent::Moving));
    }
    flip(core)?;
    Ok((moved.units, TickEvent::Flipped))
}

// What a tick tells where the shift down that is due does not begin.
fn event_of(fault: ShiftFault) -> TickEvent
    ensures worn { (d : ℕ) → fault ≡ Worn d → result ≡ WornInTick d }
    ensures by_wear { (d : ℕ) → result ≡ WornInTick d → fault ≡ Worn d }
    ensures idle { IsIdleTick result }
{
    if let ShiftFault::Ration { disk } = fault {
        return TickEvent::Ration { disk };
    }
    TickEvent::Steady
}

// The tick of an array at rest: it begins the shift that the samples ask for.
fn decide<R: Rack>(core: &mut Core<R>, windows: &Windows) -> Result<TickEvent, Two>
    requires serving { IsCoreServing R.slot_count R.slot core.old }
    requires epoch { (meta_of core.old).epoch < worn_at }
    requires lengths { lengths_of windows.now ≡ (meta_of core.old).setup.windows }
    requires steady { (meta_of core.old).phase ≡ Steady }
    requires whole { (meta_of core.old).out ≡ No }
    ensures serves { OnOk result (LeavesInService R.slot_count R.slot core.old core.new) }
    // It begins the shift that the samples ask for, unless a disk has used up its allowance.
    ensures tells { IfOk result (λ event. (samples : List ℕ) → HoldLastSamples windows.now samples
        → (s : PowerState) → IsShiftStateOf (meta_of core.old) s → TellsDecision
        (meta_of core.old).setup s (decision (meta_of core.old).setup s.gear samples) event) }
    ensures idle { IfOk result (λ event. IsIdleTick event → core.new ≡ core.old) }
    // What it tells whatever the samples are.
    ensures rests { IfOk result (λ event. TellsRest (meta_of core.old) (meta_of core.new) event) }
    ensures table { OnOk result (core_table core.new ≡ core_table core.old) }
    ensures commits { OnOk result (CommitsInTick R.slot_count core.old core.new) }
    // It is a tick of a session.
    ensures turn { IfOk result (λ event. CoreTicks R.slot_count R.told windows.now core.old core.new
        (record { gear = (meta_of core.new).gear; moved = 0; event = event })) }
    ensures halts { IfErr result (λ two.
        CoreTickHalts R.slot_count R.told windows.now core.old core.new two) }
    ensures calls { MakesCalls R.slot_count R.slot R.told core.old core.new }
    ensures two { IfErr result (AreTwoDown (core_down core.old)
        (R.slot (core_rack core.old)) (R.slot (core_rack core.new))) }
{
    let meta = *core.meta();
    match windows.decide(&meta.setup, meta.gear) {
        Decision::Stay => Ok(TickEvent::Steady),
        Decision::Up { .. } => match gear_above(&meta) {
            Ok(to) => {
                begin_up(core, to)?;
                Ok(TickEvent::Begun { to })
            }
            Err(_) => Ok(TickEvent::Steady),
        },
        Decision::Down { .. } => match gear_below(&meta) {
            Ok(to) => {
                begin_down(core, to)?;
                Ok(TickEvent::Begun { to })
            }
            Err(fault) => Ok(event_of(fault)),
        },
    }
}

/// What a tick does that has counted itself. With a disk out it waits, or rebuilds it.
pub fn advance<R: Rack>(core: &mut Core<R>, windows: &Windows) -> Result<(u32, TickEvent), Two>
    requires service { ServesKnown core.old }
    requires epoch { (meta_of core.old).epoch < worn_at }
    requires lengths { lengths_of windows.now ≡ (meta_of core.old).setup.windows }
    ensures serves { OnOk result (LeavesInService R.slot_count R.slot core.old core.new) }
    // It is a tick of a session, whether it ends or a second disk is lost in it.
    ensures turn { IfOk result (λ done. CoreTicks R.slot_count R.told windows.now core.old core.new
        (record { gear = (meta_of core.new).gear; moved = done.0; event = done.1 })) }
    ensures halts { IfErr result (λ two.
        CoreTickHalts R.slot_count R.told windows.now core.old core.new two) }
    // With a disk gone it waits, and nothing changes.
    ensures waits { (d : ℕ)
        → (meta_of core.old).out ≡ Gone d → (result ≡ Ok (0, Waiting)) × (core.new ≡ core.old) }
    ensures rebuilds { IfOk result (λ done. TicksRebuild core.old core.new done.0 done.1) }
    // At rest it begins the shift that the samples ask for, unless a disk has used up its
    // allowance.
    ensures decides { IfOk result (λ done.
        TicksAtRest windows.now core.old core.new done.0 done.1) }
    // In a shift it moves what the machine moves.
    ensures moves { IfOk result (λ done. TicksShift core.old core.new done.0 done.1) }
    ensures commits { OnOk result (CommitsInTick R.slot_count core.old core.new) }
    ensures calls { MakesCalls R.slot_count R.slot R.told core.old core.new }
    ensures two { IfErr result (AreTwoDown (core_down core.old)
        (R.slot (core_rack core.old)) (R.slot (core_rack core.new))) }
{
    match core.out() {
        Out::Gone { .. } => return Ok((0, TickEvent::Waiting)),
        Out::Fresh { disk, rebuilt } => {
            return rebuild(core, disk, rebuilt);
        }
        Out::No => {}
    }
    match core.meta().phase {
        Phase::Steady => {
            let event = decide(core, windows)?;
            Ok((0, event))
        }
        Phase::Down { .. } | Phase::Up { .. } => move_on(core),
    }
}
