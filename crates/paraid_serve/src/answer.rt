//! The answer to one event of a session, and the flush at its end. After a halt no call is made.
ghost use Rattle.std.specs.Prelude.{◌≡◌, ◌≢◌, ℕ, None, Some, IfErr, OnOk};
ghost use Rattle.paraid_base.specs.BlockAnswers.{answer_to_flush};
ghost use Rattle.paraid_base.specs.declared.event.Event.TheVariants.{Flush as FlushEvent, Write as WriteEvent};
ghost use Rattle.paraid_base.specs.declared.pairs.Pairs.{Pairs as PairsType};
ghost use Rattle.paraid_rack.specs.Slots.{Slot};
ghost use Rattle.paraid_rack.specs.Told.{Extends, Ran};
ghost use Rattle.paraid_trace.specs.Answered.{answer_of, answer_with};
ghost use Rattle.paraid_trace.specs.Asked.{event_with};
ghost use Rattle.paraid_trace.specs.declared.answered.Beside.{Beside as BesideType};
ghost use Rattle.paraid_trace.specs.Replies.{HasFewDisks};
ghost use Rattle.paraid_serve.specs.Causes.{HasCause};
ghost use Rattle.paraid_serve.specs.Lost.{HasServedSince, HaltsByWear};
ghost use Rattle.paraid_session.specs.Turn.{GoesOn, Point, halt_told};

use crate::Serves;
use paraid_base::{Answer, Event, Halt, Pairs};
use paraid_trace::{Answered, Asked, Beside, Brief};

// The halt that a brief answer tells.
fn halt_in_brief(brief: &Brief) -> Option<Halt>
    ensures { result ≡ halt_told (answer_of brief.now) }
{
    match brief {
        Brief::Halted(halt) => Some(*halt),
        _ => None,
    }
}

// The halt that an answer tells.
fn halt_in(answered: &Answered) -> Option<Halt>
    ensures { (beside : BesideType) → result ≡ halt_told (answer_with answered.now beside) }
{
    match answered {
        Answered::Value { .. } => None,
        Answered::State { .. } => None,
        Answered::Brief(brief) => halt_in_brief(brief),
    }
}

// What an event asks for, beside the pairs of a write.
fn asked_by(event: &Event) -> Asked
    ensures { (pairs : PairsType) → ((own : PairsType) → event.now ≢ WriteEvent own)
        → event_with result pairs ≡ event.now }
{
    match event {
        Event::Read { block } => Asked::Read { block: *block },
        Event::Write { .. } => Asked::Write,
        Event::Flush => Asked::Flush,
        Event::Tick => Asked::Tick,
        Event::Up => Asked::Up,
        Event::Down => Asked::Down,
        Event::Fail { disk } => Asked::Fail { disk: *disk },
        Event::Replace { disk } => Asked::Replace { disk: *disk },
        Event::State => Asked::State,
        Event::Energy => Asked::Energy,
        Event::Bad => Asked::Bad,
    }
}

/// The answer to what a line asks for, with the pairs of a write. `beside` becomes what stands
/// beside the answer. `halt` is the array's. After a halt only a line that is no event is answered
/// otherwise than by the halt, and no call is made.
pub fn answer<A: Serves>(
    array: &mut A,
    halt: &mut Option<Halt>,
    asked: Asked,
    pairs: &Pairs,
    beside: &mut Beside,
) -> Answered
    requires halt { halt.old ≡ A.halted array.old }
    ensures turn { (p : Point) → A.stands array.old p → Ran (A.told array.old) (A.told array.new)
        (GoesOn (A.slots array.old) (A.setup array.old) p (event_with asked pairs.now)
        (answer_with result beside.new) (A.stands array.new)) }
    ensures told { Extends (A.told array.old) (A.told array.new) }
    ensures slots { A.slots array.new ≡ A.slots array.old }
    ensures setup { A.setup array.new ≡ A.setup array.old }
    ensures halt { halt.new ≡ A.halted array.new }
    ensures since { (start : ℕ → Slot)
        → HasServedSince start (A.slot array.old) (A.halted array.old)
        → HasServedSince start (A.slot array.new) (A.halted array.new) }
    ensures few { HasFewDisks (answer_with result beside.new) }
    ensures cause { HasCause (A.shown array.old) (event_with asked pairs.now)
        (answer_with result beside.new) (A.shown array.new) }
{
    if let Asked::Bad = asked {
        return Answered::Brief(Brief::Bad);
    }
    if let Some(halt) = *halt {
        return Answered::Brief(Brief::Halted(halt));
    }
    let answered = array.serve(asked, pairs, beside);
    *halt = halt_in(&answered);
    answered
}

/// The answer to an event as one value.
pub fn answer_event<A: Serves>(array: &mut A, halt: &mut Option<Halt>, event: &Event) -> Answer
    requires halt { halt.old ≡ A.halted array.old }
    ensures turn { (p : Point) → A.stands array.old p → Ran (A.told array.old) (A.told array.new)
        (GoesOn (A.slots array.old) (A.setup array.old) p event.now result (A.stands array.new)) }
    ensures told { Extends (A.told array.old) (A.told array.new) }
    ensures slots { A.slots array.new ≡ A.slots array.old }
    ensures setup { A.setup array.new ≡ A.setup array.old }
    ensures halt { halt.new ≡ A.halted array.new }
    ensures since { (start : ℕ → Slot)
        → HasServedSince start (A.slot array.old) (A.halted array.old)
        → HasServedSince start (A.slot array.new) (A.halted array.new) }
    ensures cause { HasCause (A.shown array.old) event.now result (A.shown array.new) }
{
    let mut beside = Beside::new();
    if let Event::Write { pairs } = event {
        let written = answer(array, halt, Asked::Write, pairs, &mut beside);
        return written.answer(beside);
    }
    let none = Pairs::one(0, &beside.bytes);
    let answered = answer(array, halt, asked_by(event), &none, &mut beside);
    answered.answer(beside)
}

/// Keeps all writes that were accepted, or gives the array's halt.
pub fn finish<A: Serves>(array: &mut A, halt: Option<Halt>) -> Result<u64, Halt>
    requires halt { halt ≡ A.halted array.old }
    ensures turn { (p : Point) → A.stands array.old p → Ran (A.told array.old) (A.told array.new)
        (GoesOn (A.slots array.old) (A.setup array.old) p FlushEvent (answer_to_flush result)
        (A.stands array.new)) }
    ensures told { Extends (A.told array.old) (A.told array.new) }
    ensures slots { A.slots array.new ≡ A.slots array.old }
    ensures setup { A.setup array.new ≡ A.setup array.old }
    ensures going { OnOk result (A.halted array.new ≡ None) }
    ensures since { IfErr result (λ halt. (start : ℕ → Slot)
        → HasServedSince start (A.slot array.old) (A.halted array.old)
        → HasServedSince start (A.slot array.new) (Some halt)) }
    ensures worn { IfErr result (λ halt. HaltsByWear (Some halt)) }
    ensures cause { HasCause
        (A.shown array.old) FlushEvent (answer_to_flush result) (A.shown array.new) }
{
    if let Some(halt) = halt {
        return Err(halt);
    }
    match array.flush() {
        Ok(writes) => Ok(writes),
        Err(halt) => Err(halt),
    }
}
