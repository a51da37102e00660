//! What a pool hears of the events of a session.
ghost use Rattle.std.specs.Prelude.{◌≡◌, ◌<◌, ◌≤◌, ℕ, None, IfSome};
ghost use Rattle.paraid_base.specs.declared.pairs.Pairs.{Pairs as PairsType};
ghost use Rattle.paraid_base.specs.States.{gone_out};
ghost use Rattle.paraid_session.specs.Turn.{Point};
ghost use Rattle.paraid_spare.specs.Pools.{left_of, spins_of, wait_of, waits_of};
ghost use Rattle.paraid_sparing.specs.Sparing.{Stock, begun_to, due_when, is_wait, is_waiting, rise_to, spins_after, spun_by, stock_when, waits_then};
ghost use Rattle.paraid_sparing.specs.Serving.{Keeps};
ghost use Rattle.paraid_trace.specs.Answered.{answer_of, answer_with};
ghost use Rattle.paraid_trace.specs.Asked.{event_with};
ghost use Rattle.paraid_trace.specs.declared.answered.Beside.{Beside as BesideType};

use paraid_base::{DiskNo, Halt, Out, TickEvent};
use paraid_serve::Serves;
use paraid_spare::Pool;
use paraid_trace::{Answered, Asked, Brief};

// The disk that is gone.
fn gone<A: Serves>(array: &A) -> Option<DiskNo>
    requires going { A.halted array.now ≡ None }
    ensures point { (p : Point) → A.stands array.now p → result ≡ gone_out p.state.out }
    ensures shown { result ≡ gone_out (A.shown array.now).meta.out }
{
    match array.status().out {
        Out::Gone { disk } => Some(disk),
        Out::No => None,
        Out::Fresh { .. } => None,
    }
}

// The disk for which a spare is due before what is asked for.
pub(crate) fn due<A: Serves>(
    array: &A,
    halt: Option<Halt>,
    pool: &Pool,
    asked: Asked,
) -> Option<DiskNo>
    requires halt { halt ≡ A.halted array.now }
    ensures due { (p : Point) (wait : ℕ) (k : Stock) (pairs : PairsType)
        → A.stands array.now p → Keeps pool.now wait k
        → result ≡ due_when wait k p.halt p.state.out (event_with asked pairs) }
    ensures shown { (wait : ℕ) (k : Stock) (pairs : PairsType)
        → Keeps pool.now wait k → result ≡ due_when wait k
        (A.halted array.now) (A.shown array.now).meta.out (event_with asked pairs) }
    ensures left { IfSome result (λ d. 0 < left_of pool.now) }
{
    let Asked::Tick = asked else {
        return None;
    };
    if let Some(_) = halt {
        return None;
    }
    pool.due(gone(array))
}

// The disks that come up in a shift.
fn rise(gear: u8, to: u8) -> Option<(u8, u8)>
    ensures value { result ≡ rise_to gear to }
    ensures within { IfSome result (λ range. (range.0 ≤ range.1) × (range.1 ≤ 8)) }
{
    if gear <= to && to <= 8 {
        Some((gear, to))
    } else {
        None
    }
}

fn spun_in_tick(gear: u8, event: TickEvent) -> Option<(u8, u8)>
    ensures value { result ≡ begun_to gear event }
    ensures within { IfSome result (λ range. (range.0 ≤ range.1) × (range.1 ≤ 8)) }
{
    match event {
        TickEvent::Begun { to } => rise(gear, to),
        _ => None,
    }
}

fn spun_in_brief(brief: &Brief) -> Option<(u8, u8)>
    ensures value { result ≡ spun_by (answer_of brief.now) }
    ensures within { IfSome result (λ range. (range.0 ≤ range.1) × (range.1 ≤ 8)) }
{
    match brief {
        Brief::Shift { gear, to } => rise(*gear, *to),
        Brief::Ticked(report) => spun_in_tick(report.gear, report.event),
        _ => None,
    }
}

// The disks that were spun up where an event is answered so.
fn spun_in(answered: &Answered) -> Option<(u8, u8)>
    ensures value { (beside : BesideType) → result ≡ spun_by (answer_with answered.now beside) }
    ensures within { IfSome result (λ range. (range.0 ≤ range.1) × (range.1 ≤ 8)) }
{
    match answered {
        Answered::Value { .. } => None,
        Answered::State { .. } => None,
        Answered::Brief(brief) => spun_in_brief(brief),
    }
}

fn waits_in_tick(event: TickEvent) -> bool
    ensures { result ≡ is_wait event }
{
    match event {
        TickEvent::Waiting => true,
        _ => false,
    }
}

fn waits_in_brief(brief: &Brief) -> bool
    ensures { result ≡ is_waiting (answer_of brief.now) }
{
    match brief {
        Brief::Ticked(report) => waits_in_tick(report.event),
        _ => false,
    }
}

// Whether the answer is that of a tick that waits.
fn waits_in(answered: &Answered) -> bool
    ensures { (beside : BesideType) → result ≡ is_waiting (answer_with answered.now beside) }
{
    match answered {
        Answered::Value { .. } => false,
        Answered::State { .. } => false,
        Answered::Brief(brief) => waits_in_brief(brief),
    }
}

// Counts the disks that were spun up.
fn count_spins(pool: &mut Pool, answered: &Answered)
    ensures left { left_of pool.new ≡ left_of pool.old }
    ensures wait { wait_of pool.new ≡ wait_of pool.old }
    ensures waits { (d : ℕ) → waits_of pool.new d ≡ waits_of pool.old d }
    ensures spins { (beside : BesideType) (d : ℕ) → d < 8 → spins_of pool.new d
        ≡ spins_after (spun_by (answer_with answered.now beside)) (spins_of pool.old) d }
{
    if let Some((lo, hi)) = spun_in(answered) {
        pool.spun(lo, hi);
    }
}

// Counts a tick that was waited for the disk that is gone; where none is gone, nothing was waited.
fn count_wait<A: Serves>(array: &A, halt: Option<Halt>, pool: &mut Pool, answered: &Answered)
    requires halt { halt ≡ A.halted array.now }
    ensures left { left_of pool.new ≡ left_of pool.old }
    ensures wait { wait_of pool.new ≡ wait_of pool.old }
    ensures spins { (d : ℕ) → spins_of pool.new d ≡ spins_of pool.old d }
    ensures waits { (p : Point) (beside : BesideType) → A.stands array.now p
        → (d : ℕ) → waits_of pool.new d ≡ waits_then p.halt (gone_out p.state.out)
        (is_waiting (answer_with answered.now beside)) (waits_of pool.old) d }
    ensures shown { (beside : BesideType) (d : ℕ) → waits_of pool.new d
        ≡ waits_then (A.halted array.now) (gone_out (A.shown array.now).meta.out)
        (is_waiting (answer_with answered.now beside)) (waits_of pool.old) d }
{
    if let Some(_) = halt {
        return;
    }
    match gone(array) {
        Some(disk) => {
            if waits_in(answered) {
                pool.waited(disk);
            }
        }
        None => pool.settled(),
    }
}

// Follows an event of the trace that was answered so.
pub(crate) fn follow<A: Serves>(array: &A, halt: Option<Halt>, pool: &mut Pool, answered: &Answered)
    requires halt { halt ≡ A.halted array.now }
    ensures keeps { (p : Point) (wait : ℕ) (k : Stock) (beside : BesideType) → A.stands array.now p
        → Keeps pool.old wait k
        → Keeps pool.new wait (stock_when k (answer_with answered.now beside) p.halt p.state.out) }
    ensures stock { (wait : ℕ) (k : Stock) (beside : BesideType) → Keeps pool.old wait k
        → Keeps pool.new wait (stock_when k (answer_with answered.now beside) (A.halted array.now)
        (A.shown array.now).meta.out) }
{
    count_spins(pool, answered);
    count_wait(array, halt, pool, answered);
}
