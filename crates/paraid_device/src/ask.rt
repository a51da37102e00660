//! One event that is asked of an array, unless it has halted.
ghost use Rattle.std.specs.Prelude.{◌≡◌, ◌≢◌, ℕ, None, OnOk};
ghost use Rattle.paraid_base.specs.BlockAnswers.{answer_to_flush};
ghost use Rattle.paraid_base.specs.declared.event.Event.TheVariants.{Bad as BadEvent, Flush as FlushEvent};
ghost use Rattle.paraid_base.specs.declared.event.Answer.TheVariants.{Wrote};
ghost use Rattle.paraid_trace.specs.Answered.{answer_with};
ghost use Rattle.paraid_trace.specs.declared.answered.Beside.{Beside as BesideType};
ghost use Rattle.paraid_trace.specs.Asked.{event_with};
ghost use Rattle.paraid_session.specs.Turn.{halt_told};
ghost use Rattle.paraid_device.specs.Asking.{AsksArray, answer_asked};

use paraid_base::{Halt, Pairs};
use paraid_serve::Serves;
use paraid_trace::{Answered, Asked, Beside, Brief};

// One event of an array that has not halted.
fn ask_going<A: Serves>(array: &mut A, asked: Asked, pairs: &Pairs, beside: &mut Beside) -> Answered
    requires going { A.halted array.old ≡ None }
    requires event { event_with asked pairs.now ≢ BadEvent }
    ensures halt { A.halted array.new ≡ halt_told (answer_with result beside.new) }
    ensures asks { AsksArray A.Serves array.old array.new (event_with asked pairs.now)
        (answer_with result beside.new) }
{
    array.serve(asked, pairs, beside)
}

/// Asks the array for something that may be done, unless it has halted. `halt` is the array's.
pub(crate) fn ask<A: Serves>(
    array: &mut A,
    halt: &mut Option<Halt>,
    asked: Asked,
    pairs: &Pairs,
    beside: &mut Beside,
) -> Result<Answered, Halt>
    requires halt { halt.old ≡ A.halted array.old }
    requires event { event_with asked pairs.now ≢ BadEvent }
    ensures halt { halt.new ≡ A.halted array.new }
    ensures going { OnOk result (A.halted array.new ≡ None) }
    ensures asks { AsksArray A.Serves array.old array.new (event_with asked pairs.now)
        (answer_asked result beside.new) }
{
    if let Some(halt) = *halt {
        return Err(halt);
    }
    let answered = ask_going(array, asked, pairs, beside);
    if let Answered::Brief(Brief::Halted(now)) = answered {
        *halt = Some(now);
        return Err(now);
    }
    Ok(answered)
}

/// The number that a write was answered with.
pub(crate) fn number_in(answered: &Answered) -> u64
    ensures { (beside : BesideType) (number : ℕ) → answer_with answered.now beside ≡ Wrote number
        → result ≡ number }
{
    match answered {
        Answered::Brief(Brief::Wrote { number }) => *number,
        _ => 0,
    }
}

/// Asks it to keep all writes, unless it has halted.
pub(crate) fn ask_flush<A: Serves>(array: &mut A, halt: &mut Option<Halt>) -> Result<u64, Halt>
    requires halt { halt.old ≡ A.halted array.old }
    ensures halt { halt.new ≡ A.halted array.new }
    ensures going { OnOk result (A.halted array.new ≡ None) }
    ensures asks { AsksArray A.Serves array.old array.new FlushEvent (answer_to_flush result) }
{
    if let Some(halt) = *halt {
        return Err(halt);
    }
    match array.flush() {
        Ok(writes) => Ok(writes),
        Err(now) => {
            *halt = Some(now);
            Err(now)
        }
    }
}
