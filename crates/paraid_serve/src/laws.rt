//! What an answer with its cause says of itself. A law is a function that does nothing.
ghost use Rattle.std.specs.Prelude.{◌≡◌, true};
ghost use Rattle.paraid_base.specs.declared.event.Answer.{Answer as AnswerType};
ghost use Rattle.paraid_base.specs.declared.event.Event.{Event as EventType};
ghost use Rattle.paraid_serve.specs.Alike.{AreAlike, NoneFails};
ghost use Rattle.paraid_serve.specs.Causes.{HasCause, Shown};
ghost use Rattle.paraid_serve.specs.Kinds.{is_answer_to};

/// An answer that has its cause is of a kind that its event may have.
pub fn an_answer_is_of_its_events_kind()
    ensures { (old new : Shown) (event : EventType) (answer : AnswerType)
        → HasCause old event answer new → is_answer_to event answer ≡ true }
{}

/// An event in which no disk fails has one answer, by what is seen of the array before it, but for
/// the bytes that a read gives.
pub fn an_event_without_a_failure_has_one_answer()
    ensures { (old one other : Shown) (event : EventType) (answer told : AnswerType)
        → NoneFails old one → NoneFails old other
        → HasCause old event answer one → HasCause old event told other → AreAlike answer told }
{}
