//! Shifts of an array that are asked for.
ghost use Rattle.std.specs.Prelude.{◌≡◌, ◌<◌, None};
ghost use Rattle.paraid_upkeep.specs.Directions.{asked_event};
ghost use Rattle.paraid_upkeep.specs.Turns.{asked_answer};
ghost use Rattle.paraid_base.specs.Log.{worn_at};
ghost use Rattle.paraid_core.specs.Cores.{meta_of};
ghost use Rattle.paraid_array.specs.Used.{asked_spin_ups};
ghost use Rattle.paraid_trace.specs.Answered.{answer_of};

use crate::Array;
use crate::ended::HaltedAt;
use paraid_base::Halt;
use paraid_rack::Rack;
use paraid_trace::Brief;
use paraid_upkeep::{Direction, ShiftFault, ShiftOutcome, ask_shift};

// What is told of a shift that was asked for.
fn asked_told(gear: u8, asked: ShiftOutcome) -> Brief
    ensures { answer_of result ≡ asked_answer gear asked }
{
    match asked {
        ShiftOutcome::Begun { to } => Brief::Shift { gear, to },
        ShiftOutcome::Refused(ShiftFault::Top) => Brief::Top,
        ShiftOutcome::Refused(ShiftFault::Lowest) => Brief::Lowest,
        ShiftOutcome::Refused(ShiftFault::Shifting { to }) => Brief::Shifting { to },
        ShiftOutcome::Refused(ShiftFault::Out { disk }) => Brief::Out { disk },
        ShiftOutcome::Refused(ShiftFault::Ration { disk }) => Brief::Ration { disk },
    }
}

// How many disks it spins up.
fn spin_ups_asked(gear: u8, asked: ShiftOutcome) -> u8
    ensures { result ≡ asked_spin_ups gear asked }
{
    match asked {
        ShiftOutcome::Begun { to } => to.saturating_sub(gear),
        ShiftOutcome::Refused(_) => 0,
    }
}

impl<R: Rack> Array<R> {
    ghost use Rattle.paraid_array.specs.Arrays.{AnswersEvent, core_of_array, end_of_array, halt_of_array};

    // Asks for a shift in this direction.
    fn ask_there(&mut self, direction: Direction) -> Brief
        requires going { end_of_array self.old ≡ None }
        requires epoch { (meta_of (core_of_array self.old)).epoch < worn_at }
        requires writes { (meta_of (core_of_array self.old)).writes < worn_at }
        ensures answers { AnswersEvent R.slot_count R.slot R.told self.old self.new
            (asked_event direction) (answer_of result) }
    {
        let gear = self.core.meta().gear;
        match ask_shift(&mut self.core, direction) {
            Ok(asked) => {
                self.ledger.spin_up(spin_ups_asked(gear, asked));
                asked_told(gear, asked)
            }
            Err(two) => {
                let halt = Halt::Two(two);
                self.ended = Some(HaltedAt { halt, gear });
                Brief::Halted(halt)
            }
        }
    }

    /// Answers that a shift in this direction is asked for.
    pub fn ask(&mut self, direction: Direction) -> Brief
        requires going { halt_of_array self.old ≡ None }
        ensures answers { AnswersEvent R.slot_count R.slot R.told self.old self.new
            (asked_event direction) (answer_of result) }
    {
        if let Some(count) = self.worn() {
            return Brief::Halted(self.wear_out(count));
        }
        self.ask_there(direction)
    }
}
