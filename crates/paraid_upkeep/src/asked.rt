//! Shifts that are asked for.
ghost use Rattle.std.specs.Prelude.{◌≡◌, ◌≢◌, ℕ, ◌<◌, Ok, OnOk, IfErr, IfOk};
ghost use Rattle.paraid_base.specs.declared.state.Out.TheVariants.{No};
ghost use Rattle.paraid_base.specs.declared.state.Phase.TheVariants.{Steady};
ghost use Rattle.paraid_base.specs.Log.{worn_at};
ghost use Rattle.paraid_core.specs.Cores.{core_down, core_rack, core_table, meta_of};
ghost use Rattle.paraid_upkeep.specs.declared.fault.ShiftFault.{ShiftFault as ShiftFaultType};
ghost use Rattle.paraid_upkeep.specs.declared.asked.ShiftOutcome.TheVariants.{Refused};
ghost use Rattle.paraid_upkeep.specs.Events.{CommitsAtMost};
ghost use Rattle.paraid_upkeep.specs.Directions.{HasBegun, HasMarkedShift, IsNextTo, IsRefusedTo, MayGo, asked_event};
ghost use Rattle.paraid_upkeep.specs.Refusals.{HasBegunOrLost, IsShiftStateOf};
ghost use Rattle.paraid_upkeep.specs.Service.{MakesCalls, StaysServing};
ghost use Rattle.paraid_upkeep.specs.Turns.{CoreGoesOn, CoreHalts, asked_answer};
ghost use Rattle.paraid_image.specs.Power.{PowerState};
ghost use Rattle.paraid_record.specs.Range.{IsInRange};
ghost use Rattle.paraid_shift.specs.Parts.{CanBeginShift, KeepsContents, KeepsRack, ServesShifted};
ghost use Rattle.paraid_event.specs.CoreServing.{IsCoreServing};
ghost use Rattle.paraid_shift.specs.Steps.{CoreLosesInSteps, CoreStepsInEvent};
ghost use Rattle.paraid_txn.specs.Losses.{AreTwoDown};

use crate::fault::ShiftFault;
use crate::shifts::{gear_above, gear_below};
use paraid_base::Two;
use paraid_core::Core;
use paraid_rack::Rack;
use paraid_record::Meta;
use paraid_shift::{begin_down, begin_up, commit_staged};

/// Which way a shift goes.
#[derive(Clone, Copy)]
pub enum Direction {
    /// To the next higher gear.
    Up,
    /// To the next lower gear.
    Down,
}

/// What came of a shift that was asked for.
#[derive(Clone, Copy)]
pub enum ShiftOutcome {
    /// It has begun.
    Begun { to: u8 },
    /// It has not.
    Refused(ShiftFault),
}

// The next gear in this direction, if a shift to it may begin.
fn gear_to(meta: &Meta, direction: Direction) -> Result<u8, ShiftFault>
    requires in_range { IsInRange meta.now }
    ensures next { IfOk result (IsNextTo direction meta.now) }
    ensures steady { OnOk result (meta.now.phase ≡ Steady) }
    ensures whole { OnOk result (meta.now.out ≡ No) }
    ensures may { IfOk result (λ to. (s : PowerState) → IsShiftStateOf meta.now s
        → MayGo direction meta.now.setup s to) }
    ensures refused { IfErr result (λ fault. (s : PowerState) → IsShiftStateOf meta.now s
        → IsRefusedTo direction meta.now.setup s fault) }
{
    match direction {
        Direction::Up => gear_above(meta),
        Direction::Down => gear_below(meta),
    }
}

// Begins a shift in this direction, to the next gear.
fn begin_shift<R: Rack>(core: &mut Core<R>, direction: Direction, to: u8) -> Result<(), Two>
    requires can { CanBeginShift core.old }
    requires next { IsNextTo direction (meta_of core.old) to }
    ensures shifted { OnOk result (ServesShifted core.old core.new) }
    ensures meta { OnOk result (HasBegun direction (meta_of core.old) (meta_of core.new) to) }
    ensures keeps { KeepsContents core.old core.new }
    ensures steps { OnOk result (CoreStepsInEvent R.slot_count R.told core.old core.new 1) }
    ensures rack { KeepsRack core.old core.new
        (CoreLosesInSteps R.slot_count R.told core.old core.new 1) result }
{
    match direction {
        Direction::Up => begin_up(core, to),
        Direction::Down => begin_down(core, to),
    }
}

/// Begins a shift to the next gear in this direction, unless it is refused. What is staged is
/// committed first; a disk that is lost in that refuses it too.
pub fn ask_shift<R: Rack>(core: &mut Core<R>, direction: Direction) -> Result<ShiftOutcome, Two>
    requires serving { IsCoreServing R.slot_count R.slot core.old }
    requires epoch { (meta_of core.old).epoch < worn_at }
    ensures serves { OnOk result (StaysServing R.slot_count R.slot core.old core.new) }
    // Where the machine refuses it, this is its refusal, and nothing changes.
    ensures refused { (fault : ShiftFaultType) (s : PowerState)
        → IsShiftStateOf (meta_of core.old) s
        → IsRefusedTo direction (meta_of core.old).setup s fault
        → (result ≡ Ok (Refused fault)) × (core.new ≡ core.old) }
    // What it does not refuse begins, unless a disk is lost with what was staged.
    ensures begins { IfOk result (λ asked. (to : ℕ) (s : PowerState)
        → IsShiftStateOf (meta_of core.old) s → MayGo direction (meta_of core.old).setup s to
        → HasBegunOrLost (meta_of core.new) to asked) }
    ensures marks { IfOk result (HasMarkedShift direction (meta_of core.old) (meta_of core.new)) }
    ensures commits { OnOk result (CommitsAtMost core.old core.new 2) }
    // No cell becomes dirty or clean.
    ensures table { OnOk result (core_table core.new ≡ core_table core.old) }
    // It is an event of a session.
    ensures turn { IfOk result (λ asked. CoreGoesOn R.slot_count R.told core.old core.new
        (asked_event direction) (asked_answer (meta_of core.old).gear asked)) }
    ensures halts { IfErr result (λ two. CoreHalts R.slot_count R.told core.old core.new
        (asked_event direction) two) }
    // With a disk out nothing changes.
    ensures out { (meta_of core.old).out ≢ No → core.new ≡ core.old }
    ensures calls { MakesCalls R.slot_count R.slot R.told core.old core.new }
    ensures two { IfErr result (AreTwoDown (core_down core.old)
        (R.slot (core_rack core.old)) (R.slot (core_rack core.new))) }
{
    if let Err(fault) = gear_to(core.meta(), direction) {
        return Ok(ShiftOutcome::Refused(fault));
    }
    commit_staged(core)?;
    match gear_to(core.meta(), direction) {
        Ok(to) => {
            begin_shift(core, direction, to)?;
            Ok(ShiftOutcome::Begun { to })
        }
        Err(fault) => Ok(ShiftOutcome::Refused(fault)),
    }
}
