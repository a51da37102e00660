//! A run with spares over a mounted array: its first line, its session, and its last lines.
ghost use Rattle.std.specs.Prelude.{◌≡◌, ◌≢◌, ◌≤◌, ◌++◌, ℕ, None};
ghost use Rattle.paraid_base.specs.Told.{HasRisen};
ghost use Rattle.paraid_serve.specs.Calls.{IsNotDouble};
ghost use Rattle.paraid_rack.specs.Told.{Extends};
ghost use Rattle.paraid_serve.specs.Ending.{EndsWithLine};
ghost use Rattle.paraid_serve.specs.Lost.{NamesTwoLost, TellsWear};
ghost use Rattle.paraid_serve.specs.Output.{IsServedStatus};
ghost use Rattle.paraid_serve.specs.Streams.{EndsAtFaults, sink_use, source_use, streams_of};
ghost use Rattle.paraid_serve.specs.Stretch.{span_of};
ghost use Rattle.paraid_serve.specs.Statuses.{status_done, status_sink, status_source, status_two, status_worn};
ghost use Rattle.paraid_session.specs.Mount.{IsMountedFromEach};
ghost use Rattle.paraid_spare.specs.Pools.{left_of, spins_of};
ghost use Rattle.paraid_sparing.specs.Output.{SparedHeadline, SparedRun};
ghost use Rattle.paraid_sparing.specs.Texts.{spares_line};
ghost use Rattle.paraid_sparing.specs.Session.{fresh_stock};

use crate::run::session;
use crate::text::spares_text;
use paraid_io::{Sink, Source, write_all};
use paraid_serve::ending::{end_text, halt_status, last, mount_text};
use paraid_serve::{Serves, Stop, status};
use paraid_spare::Pool;
use paraid_trace::{Brief, Text, reply};

// Writes the line of the spares that are left, and the last line after it.
fn tell_end<K: Sink>(sink: &mut K, pool: &Pool, disks: u8, line: &[u8], status: u8) -> u8
    requires disks { disks ≤ 8 }
    ensures ends { EndsWithLine (K.written sink.old) (K.written sink.new)
        (spares_line (left_of pool.now) (spins_of pool.now) disks ++ line.now) status result }
    ensures cause { result ≢ status
        → (result ≡ status_sink) × HasRisen (K.faults sink.old) (K.faults sink.new) }
    ensures later { K.faults sink.old ≤ K.faults sink.new }
    ensures still { result ≢ status_sink → K.faults sink.new ≡ K.faults sink.old }
{
    let mut text = Text::new();
    spares_text(&mut text, pool, disks);
    let Ok(()) = write_all(sink, text.as_slice()) else {
        return status::SINK;
    };
    last(sink, line, status)
}

/// Serves the trace with a mounted array and so many spares, of which one is put in after so many
/// ticks. It gives the status.
pub fn serve<S: Source, K: Sink, A: Serves>(
    source: &mut S,
    sink: &mut K,
    array: &mut A,
    stock: u8,
    wait: u32,
) -> u8
    requires going { A.halted array.old ≡ None }
    ensures run { SparedRun (A.shown array.old) (A.shown array.new)
        (span_of (A.slots array.old) (A.setup array.old) (A.told array.old) (A.told array.new))
        (record { wait = wait; stock = fresh_stock stock }) (A.stands array.old)
        (streams_of (source_use S.left S.faults source.old source.new)
        (sink_use K.written K.faults sink.old sink.new)) result }
    ensures told { Extends (A.told array.old) (A.told array.new) }
    ensures slots { A.slots array.new ≡ A.slots array.old }
    ensures status { IsServedStatus result }
    ensures present { result ≡ status_done → IsNotDouble (A.setup array.old) (A.slot array.new) }
    ensures two { result ≡ status_two → NamesTwoLost (A.slot array.old) (A.slot array.new)
        (K.written sink.old) (K.written sink.new) }
    ensures worn { result ≡ status_worn → TellsWear (K.written sink.old) (K.written sink.new) }
    ensures source { result ≡ status_source → HasRisen (S.faults source.old) (S.faults source.new) }
    ensures sink { result ≡ status_sink → HasRisen (K.faults sink.old) (K.faults sink.new) }
    ensures unhurt { EndsAtFaults (source_use S.left S.faults source.old source.new)
        (sink_use K.written K.faults sink.old sink.new) result }
{
    let mut text = Text::new();
    mount_text(&mut text, array.writes(), array.gear());
    let Ok(()) = write_all(sink, text.as_slice()) else {
        return status::SINK;
    };
    let mut pool = Pool::new(stock, wait);
    let disks = array.disks();
    let mut text = Text::new();
    match session(source, sink, array, &mut pool) {
        Ok(writes) => {
            end_text(&mut text, writes);
            tell_end(sink, &pool, disks, text.as_slice(), status::DONE)
        }
        Err(Stop::Source) => last(sink, b"source\n", status::SOURCE),
        Err(Stop::TooLong) => last(sink, b"toolong\n", status::TOO_LONG),
        Err(Stop::Sink) => status::SINK,
        Err(Stop::Halt(halt)) => {
            reply(&Brief::Halted(halt), &mut text);
            tell_end(sink, &pool, disks, text.as_slice(), halt_status(halt))
        }
    }
}

/// The same with an array that was just mounted, by a mount that began at some moment.
pub fn serve_mounted<S: Source, K: Sink, A: Serves>(
    source: &mut S,
    sink: &mut K,
    array: &mut A,
    stock: u8,
    wait: u32,
) -> u8
    requires going { A.halted array.old ≡ None }
    ensures headline { (began : ℕ) → IsMountedFromEach (A.slots array.old) (A.setup array.old) began
        (A.told array.old) (A.stands array.old)
        → SparedHeadline (A.shown array.old) (A.shown array.new)
        (span_of (A.slots array.old) (A.setup array.old) (A.told array.old) (A.told array.new))
        (record { wait = wait; stock = fresh_stock stock }) began
        (streams_of (source_use S.left S.faults source.old source.new)
        (sink_use K.written K.faults sink.old sink.new)) result }
    ensures told { Extends (A.told array.old) (A.told array.new) }
    ensures slots { A.slots array.new ≡ A.slots array.old }
    ensures status { IsServedStatus result }
    ensures present { result ≡ status_done → IsNotDouble (A.setup array.old) (A.slot array.new) }
    ensures two { result ≡ status_two → NamesTwoLost (A.slot array.old) (A.slot array.new)
        (K.written sink.old) (K.written sink.new) }
    ensures worn { result ≡ status_worn → TellsWear (K.written sink.old) (K.written sink.new) }
    ensures source { result ≡ status_source → HasRisen (S.faults source.old) (S.faults source.new) }
    ensures sink { result ≡ status_sink → HasRisen (K.faults sink.old) (K.faults sink.new) }
    ensures unhurt { EndsAtFaults (source_use S.left S.faults source.old source.new)
        (sink_use K.written K.faults sink.old sink.new) result }
{
    serve(source, sink, array, stock, wait)
}
