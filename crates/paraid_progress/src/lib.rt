//! That shifts and rebuilds end: after as many ticks as their units take at the configured rate,
//! whatever is read, written and flushed between them. Each law is the contract of a function that
//! does nothing.
//!
//! The laws are of the machine alone, so of an array while no disk fails. The array's own contract
//! says that its answers are the machine's.
#![tactic(auto)]

ghost use Rattle.std.specs.Prelude.{◌≡◌, ℕ, ◌+◌, ◌*◌, ◌<◌, ◌≤◌, List, None};
ghost use Rattle.paraid_base.specs.declared.event.Answer.{Answer as AnswerType};
ghost use Rattle.paraid_base.specs.declared.event.Event.{Event as EventType};
ghost use Rattle.paraid_base.specs.declared.event.Event.TheVariants.{Tick as TickEvent};
ghost use Rattle.paraid_base.specs.declared.state.Out.TheVariants.{No, Fresh};
ghost use Rattle.paraid_base.specs.declared.state.TickEvent.TheVariants.{Flipped, Moving, Rebuilt};
ghost use Rattle.paraid_base.specs.History.{History};
ghost use Rattle.paraid_base.specs.States.{phase_to};
ghost use Rattle.paraid_image.specs.Power.{PowerState};
ghost use Rattle.paraid_machine.specs.Machine.{IsEventStep};
ghost use Rattle.paraid_machine.specs.Moves.{units_left, units_of_tick, units_to_rebuild};
ghost use Rattle.paraid_record.specs.declared.meta.Setup.{Setup as SetupType};
ghost use Rattle.paraid_progress.specs.Progress.{AnswersEach, AnswersTell, AreMild, IsToldBy, TellsUnits, ticks_in};

/// A shift under way ends by a tick that is answered `flipped`, if at least one of the events is a
/// tick, and the number of ticks times the rate is at least the number of units that are left. A
/// unit is a dirty cell to copy or a stripe to fill; the rate of the setup is in units a tick.
///
/// No disk is out or fails, and no event asks for a shift, takes a disk out or replaces one.
pub fn a_shift_ends()
    ensures { (setup : SetupType) (s : PowerState) (steps : List (EventType × AnswerType))
        → s.out ≡ No → 0 < phase_to s.phase → AnswersEach setup s steps → AreMild steps
        → 0 < ticks_in steps → units_left setup s ≤ setup.rate * ticks_in steps
        → AnswersTell Flipped steps }
{}

/// A rebuild under way ends by a tick that is answered `rebuilt`, if at least one of the events is
/// a tick, and the number of ticks times the rate is at least the number of units that are left of
/// it.
///
/// No other disk is out, none fails, and no event asks for a shift, takes a disk out or replaces
/// one.
pub fn a_rebuild_ends()
    ensures { (setup : SetupType)
        (s : PowerState) (d rebuilt : ℕ) (steps : List (EventType × AnswerType))
        → s.out ≡ Fresh d rebuilt → AnswersEach setup s steps → AreMild steps
        → 0 < ticks_in steps → units_to_rebuild setup s d rebuilt ≤ setup.rate * ticks_in steps
        → AnswersTell (Rebuilt d) steps }
{}

/// A tick of a shift tells how many units it moved: the lesser of the rate and what is left, or in
/// whole mode all of a shift up. Where that is not all, at least so many fewer are left after it.
pub fn a_tick_moves_its_units()
    ensures fewer { (setup : SetupType) (h : History)
        (used : ℕ) (s new : PowerState) (answer : AnswerType) → s.out ≡ No → 0 < phase_to s.phase
        → IsEventStep setup h used s TickEvent None answer new → IsToldBy Moving answer
        → units_left setup new + units_of_tick setup s ≤ units_left setup s }
    ensures tells { (setup : SetupType)
        (h : History) (used : ℕ) (s new : PowerState) (answer : AnswerType)
        → s.out ≡ No → 0 < phase_to s.phase → IsEventStep setup h used s TickEvent None answer new
        → TellsUnits (units_of_tick setup s) (units_left setup s) answer }
{}
