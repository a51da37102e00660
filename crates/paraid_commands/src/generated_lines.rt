//! Generated lines over a mounted array: the first line, the answers, their summary, and the last
//! line.
ghost use Rattle.std.specs.Prelude.{◌≡◌, ◌≢◌, ℕ, ◌≤◌, None, IsSome};
ghost use Rattle.paraid_base.specs.Told.{HasRisen};
ghost use Rattle.paraid_rack.specs.Slots.{Slot};
ghost use Rattle.paraid_rack.specs.Told.{Extends};
ghost use Rattle.paraid_serve.specs.Calls.{IsNotDouble};
ghost use Rattle.paraid_serve.specs.Lost.{HasServedSince, NamesTwoLost, TellsWear};
ghost use Rattle.paraid_session.specs.Mount.{IsMountedFromEach};
ghost use Rattle.paraid_session.specs.Turn.{Point};
ghost use Rattle.paraid_commands.specs.GenCauses.{CountsCauses};
ghost use Rattle.paraid_commands.specs.Generating.{GenHeadline, GenRun, IsGenStatus};
ghost use Rattle.paraid_commands.specs.CountedLines.{CountsLines};
ghost use Rattle.paraid_serve.specs.Streams.{sink_use};
ghost use Rattle.paraid_serve.specs.Stretch.{span_of};
ghost use Rattle.paraid_serve.specs.Statuses.{status_done, status_sink, status_two, status_worn};

use crate::gen_summary::summary_text;
use crate::tally::Tally;
use paraid_base::Halt;
use paraid_io::{Sink, write_all};
use paraid_serve::answer::{answer_event, finish};
use paraid_serve::ending::{end_text, halt_status, last, mount_text};
use paraid_serve::{Serves, status};
use paraid_trace::{Brief, Text, generate, reply};

/// Answers the first lines of the trace of a number, and counts them.
pub fn answer_lines<A: Serves>(
    array: &mut A,
    halt: &mut Option<Halt>,
    number: u32,
    lines: u32,
) -> Tally
    requires few { lines ≤ 1000000 }
    requires halt { halt.old ≡ A.halted array.old }
    ensures counted { IsSome (A.told array.new) → (p : Point) → A.stands array.old p
        → CountsLines
        (span_of (A.slots array.old) (A.setup array.old) (A.told array.old) (A.told array.new)) p
        number lines result (A.stands array.new) }
    // Over every rack each answer has its cause.
    ensures causes { CountsCauses (A.shown array.old) number lines result (A.shown array.new) }
    ensures told { Extends (A.told array.old) (A.told array.new) }
    ensures slots { A.slots array.new ≡ A.slots array.old }
    ensures setup { A.setup array.new ≡ A.setup array.old }
    ensures halt { halt.new ≡ A.halted array.new }
    ensures since { (start : ℕ → Slot)
        → HasServedSince start (A.slot array.old) (A.halted array.old)
        → HasServedSince start (A.slot array.new) (A.halted array.new) }
{
    let blocks = array.blocks();
    let mut tally = Tally::new();
    'events: for i in 0..lines {
        let event = generate(number, i, blocks);
        tally.count_event(&event);
        let answered = answer_event(array, halt, &event);
        tally.count_answer(&answered);
    }
    tally
}

/// Answers generated lines with a mounted array, tells their summary, and gives the status.
pub fn serve_generated<K: Sink, A: Serves>(
    sink: &mut K,
    array: &mut A,
    number: u32,
    lines: u32,
) -> u8
    requires few { lines ≤ 1000000 }
    requires going { A.halted array.old ≡ None }
    ensures run { GenRun (A.shown array.old) (A.shown array.new)
        (span_of (A.slots array.old) (A.setup array.old) (A.told array.old) (A.told array.new))
        (A.stands array.old) (record {
          number = number;
          count = lines;
          sink = (sink_use K.written K.faults sink.old sink.new);
        }) result }
    ensures told { Extends (A.told array.old) (A.told array.new) }
    ensures slots { A.slots array.new ≡ A.slots array.old }
    ensures status { IsGenStatus result }
    ensures present { result ≡ status_done → IsNotDouble (A.setup array.old) (A.slot array.new) }
    ensures two { result ≡ status_two → NamesTwoLost (A.slot array.old) (A.slot array.new)
        (K.written sink.old) (K.written sink.new) }
    ensures worn { result ≡ status_worn → TellsWear (K.written sink.old) (K.written sink.new) }
    ensures sink { result ≡ status_sink → HasRisen (K.faults sink.old) (K.faults sink.new) }
    ensures still { result ≢ status_sink → K.faults sink.new ≡ K.faults sink.old }
{
    let mut text = Text::new();
    mount_text(&mut text, array.writes(), array.gear());
    let Ok(()) = write_all(sink, text.as_slice()) else {
        return status::SINK;
    };
    let mut halt = None;
    let tally = answer_lines(array, &mut halt, number, lines);
    let mut text = Text::new();
    summary_text(&mut text, lines, &tally, array.gear(), array.energy());
    let Ok(()) = write_all(sink, text.as_slice()) else {
        return status::SINK;
    };
    let mut text = Text::new();
    match finish(array, halt) {
        Ok(writes) => {
            end_text(&mut text, writes);
            last(sink, text.as_slice(), status::DONE)
        }
        Err(halt) => {
            reply(&Brief::Halted(halt), &mut text);
            last(sink, text.as_slice(), halt_status(halt))
        }
    }
}

/// The same, by a mount that began at some moment.
pub fn serve_generated_mounted<K: Sink, A: Serves>(
    sink: &mut K,
    array: &mut A,
    number: u32,
    lines: u32,
) -> u8
    requires few { lines ≤ 1000000 }
    requires going { A.halted array.old ≡ None }
    ensures headline { (began : ℕ) → IsMountedFromEach
        (A.slots array.old) (A.setup array.old) began (A.told array.old) (A.stands array.old)
        → GenHeadline (A.shown array.old) (A.shown array.new) (span_of (A.slots array.old)
        (A.setup array.old) (A.told array.old) (A.told array.new)) began (record {
          number = number;
          count = lines;
          sink = (sink_use K.written K.faults sink.old sink.new);
        }) result }
    ensures told { Extends (A.told array.old) (A.told array.new) }
    ensures slots { A.slots array.new ≡ A.slots array.old }
    ensures status { IsGenStatus result }
    ensures present { result ≡ status_done → IsNotDouble (A.setup array.old) (A.slot array.new) }
    ensures two { result ≡ status_two → NamesTwoLost (A.slot array.old) (A.slot array.new)
        (K.written sink.old) (K.written sink.new) }
    ensures worn { result ≡ status_worn → TellsWear (K.written sink.old) (K.written sink.new) }
    ensures sink { result ≡ status_sink → HasRisen (K.faults sink.old) (K.faults sink.new) }
    ensures still { result ≢ status_sink → K.faults sink.new ≡ K.faults sink.old }
{
    serve_generated(sink, array, number, lines)
}
