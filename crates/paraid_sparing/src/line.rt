//! One line of a trace: the spare that is due before it, and its own event.
ghost use Rattle.std.specs.Prelude.{◌≡◌, ◌<◌, ◌-◌, ◌++◌, ℕ};
ghost use Rattle.paraid_base.specs.declared.event.Event.TheVariants.{Replace as ReplaceEvent};
ghost use Rattle.paraid_rack.specs.Slots.{Slot};
ghost use Rattle.paraid_rack.specs.Told.{Extends, Ran};
ghost use Rattle.paraid_serve.specs.Causes.{HasCause};
ghost use Rattle.paraid_serve.specs.Lost.{HasServedSince};
ghost use Rattle.paraid_session.specs.Turn.{GoesOn, Point};
ghost use Rattle.paraid_spare.specs.Pools.{left_of};
ghost use Rattle.paraid_sparing.specs.Sparing.{Stock, spare_line, stock_when, used};
ghost use Rattle.paraid_sparing.specs.SparedCauses.{CausesLine};
ghost use Rattle.paraid_sparing.specs.Serving.{Keeps, ServesLine};
ghost use Rattle.paraid_trace.specs.Answered.{answer_with};
ghost use Rattle.paraid_trace.specs.Asked.{event_with};
ghost use Rattle.paraid_trace.specs.Replies.{reply_of};

use crate::pool::{due, follow};
use crate::text::spare_text;
use paraid_base::{DiskNo, Halt, Pairs};
use paraid_serve::Serves;
use paraid_serve::answer::answer;
use paraid_spare::Pool;
use paraid_trace::{Answered, Asked, Beside, Text, reply_with};

// Puts a spare in for this disk, and tells it.
fn put_in<A: Serves>(
    array: &mut A,
    halt: &mut Option<Halt>,
    pool: &mut Pool,
    disk: DiskNo,
    pairs: &Pairs,
    beside: &mut Beside,
    line: &mut Text,
) -> Answered
    requires halt { halt.old ≡ A.halted array.old }
    requires left { 0 < left_of pool.old }
    ensures turn { (p : Point) → A.stands array.old p → Ran (A.told array.old) (A.told array.new)
        (GoesOn (A.slots array.old) (A.setup array.old) p (ReplaceEvent disk)
        (answer_with result beside.new) (A.stands array.new)) }
    ensures told { Extends (A.told array.old) (A.told array.new) }
    ensures slots { A.slots array.new ≡ A.slots array.old }
    ensures setup { A.setup array.new ≡ A.setup array.old }
    ensures halt { halt.new ≡ A.halted array.new }
    ensures since { (start : ℕ → Slot)
        → HasServedSince start (A.slot array.old) (A.halted array.old)
        → HasServedSince start (A.slot array.new) (A.halted array.new) }
    ensures keeps { (wait : ℕ) (k : Stock) → Keeps pool.old wait k → Keeps pool.new wait (used k) }
    ensures line { line.new ≡ spare_line (answer_with result beside.new) (left_of pool.old - 1) }
    ensures cause { HasCause (A.shown array.old) (ReplaceEvent disk) (answer_with result beside.new)
        (A.shown array.new) }
{
    let answered = answer(
        array,
        halt,
        Asked::Replace {
            disk: u32::from(disk),
        },
        pairs,
        beside,
    );
    pool.taken();
    pool.settled();
    spare_text(line, &answered, beside, pool.left());
    answered
}

// Answers what a line asks for, and tells it.
fn answer_alone<A: Serves>(
    array: &mut A,
    halt: &mut Option<Halt>,
    pool: &mut Pool,
    asked: Asked,
    pairs: &Pairs,
    beside: &mut Beside,
    text: &mut Text,
) -> Answered
    requires halt { halt.old ≡ A.halted array.old }
    ensures turn { (p : Point) → A.stands array.old p → Ran (A.told array.old) (A.told array.new)
        (GoesOn (A.slots array.old) (A.setup array.old) p (event_with asked pairs.now)
        (answer_with result beside.new) (A.stands array.new)) }
    ensures told { Extends (A.told array.old) (A.told array.new) }
    ensures slots { A.slots array.new ≡ A.slots array.old }
    ensures setup { A.setup array.new ≡ A.setup array.old }
    ensures halt { halt.new ≡ A.halted array.new }
    ensures since { (start : ℕ → Slot)
        → HasServedSince start (A.slot array.old) (A.halted array.old)
        → HasServedSince start (A.slot array.new) (A.halted array.new) }
    ensures keeps { (q : Point) (wait : ℕ) (k : Stock)
        → A.stands array.new q → Keeps pool.old wait k
        → Keeps pool.new wait (stock_when k (answer_with result beside.new) q.halt q.state.out) }
    ensures text { text.new ≡ reply_of (answer_with result beside.new) }
    ensures cause { HasCause (A.shown array.old) (event_with asked pairs.now)
        (answer_with result beside.new) (A.shown array.new) }
    ensures stock { (wait : ℕ) (k : Stock) → Keeps pool.old wait k
        → Keeps pool.new wait (stock_when k (answer_with result beside.new) (A.halted array.new)
        (A.shown array.new).meta.out) }
{
    let answered = answer(array, halt, asked, pairs, beside);
    follow(array, *halt, pool, &answered);
    reply_with(&answered, beside, text);
    answered
}

/// Answers what a line asks for, after the spare that is due before it. `line` tells the spare, and
/// `text` the answer.
pub fn answer_line<A: Serves>(
    array: &mut A,
    halt: &mut Option<Halt>,
    pool: &mut Pool,
    asked: Asked,
    pairs: &Pairs,
    beside: &mut Beside,
    line: &mut Text,
    text: &mut Text,
)
    requires halt { halt.old ≡ A.halted array.old }
    ensures serves { (p : Point) (wait : ℕ) (k : Stock)
        → A.stands array.old p → Keeps pool.old wait k → Ran (A.told array.old)
        (A.told array.new) (ServesLine (A.slots array.old) (A.setup array.old) wait p k
        (event_with asked pairs.now) (line.new ++ text.new) (A.stands array.new) pool.new) }
    // Over every rack a spare is put in exactly where one is due, and each answer has its cause.
    ensures causes { (wait : ℕ) (k : Stock)
        → Keeps pool.old wait k → CausesLine wait (A.shown array.old) k
        (event_with asked pairs.now) (line.new ++ text.new) (A.shown array.new) pool.new }
    ensures told { Extends (A.told array.old) (A.told array.new) }
    ensures slots { A.slots array.new ≡ A.slots array.old }
    ensures setup { A.setup array.new ≡ A.setup array.old }
    ensures halt { halt.new ≡ A.halted array.new }
    ensures since { (start : ℕ → Slot)
        → HasServedSince start (A.slot array.old) (A.halted array.old)
        → HasServedSince start (A.slot array.new) (A.halted array.new) }
{
    match due(array, *halt, pool, asked) {
        Some(disk) => {
            put_in(array, halt, pool, disk, pairs, beside, line);
            answer_alone(array, halt, pool, asked, pairs, beside, text);
        }
        None => {
            line.clear();
            answer_alone(array, halt, pool, asked, pairs, beside, text);
        }
    }
}
