//! A run over a mounted array: its first line, its session, and its last line.
ghost use Rattle.std.specs.Prelude.{◌≡◌, ℕ, None};
ghost use Rattle.paraid_base.specs.Told.{HasRisen};
ghost use Rattle.paraid_session.specs.Mount.{IsMountedFromEach};
ghost use Rattle.paraid_serve.specs.Calls.{IsNotDouble};
ghost use Rattle.paraid_rack.specs.Told.{Extends};
ghost use Rattle.paraid_serve.specs.Lost.{NamesTwoLost, TellsWear};
ghost use Rattle.paraid_serve.specs.Output.{Headline, IsServedStatus, ProgramRun};
ghost use Rattle.paraid_serve.specs.Streams.{EndsAtFaults, sink_use, source_use, streams_of};
ghost use Rattle.paraid_serve.specs.Stretch.{span_of};
ghost use Rattle.paraid_serve.specs.Statuses.{status_done, status_sink, status_source, status_two, status_worn};

use crate::ending::{end_text, halt_status, last, mount_text};
use crate::run::session;
use crate::stop::Stop;
use crate::{Serves, status};
use paraid_io::{Sink, Source, write_all};
use paraid_trace::{Brief, Text, reply};

/// Serves the trace with a mounted array, and gives the status.
pub fn serve<S: Source, K: Sink, A: Serves>(source: &mut S, sink: &mut K, array: &mut A) -> u8
    requires going { A.halted array.old ≡ None }
    ensures run { ProgramRun (A.shown array.old) (A.shown array.new)
        (span_of (A.slots array.old) (A.setup array.old) (A.told array.old) (A.told array.new))
        (A.stands array.old)
        (streams_of (source_use S.left S.faults source.old source.new)
        (sink_use K.written K.faults sink.old sink.new)) result }
    ensures told { Extends (A.told array.old) (A.told array.new) }
    ensures slots { A.slots array.new ≡ A.slots array.old }
    ensures status { IsServedStatus result }
    ensures present { result ≡ status_done → IsNotDouble (A.setup array.old) (A.slot array.new) }
    ensures two { result ≡ status_two → NamesTwoLost (A.slot array.old) (A.slot array.new)
        (K.written sink.old) (K.written sink.new) }
    ensures worn { result ≡ status_worn → TellsWear (K.written sink.old) (K.written sink.new) }
    ensures source { result ≡ status_source → HasRisen (S.faults source.old) (S.faults source.new) }
    ensures sink { result ≡ status_sink → HasRisen (K.faults sink.old) (K.faults sink.new) }
    ensures unhurt { EndsAtFaults (source_use S.left S.faults source.old source.new)
        (sink_use K.written K.faults sink.old sink.new) result }
{
    let mut text = Text::new();
    mount_text(&mut text, array.writes(), array.gear());
    let Ok(()) = write_all(sink, text.as_slice()) else {
        return status::SINK;
    };
    let mut text = Text::new();
    match session(source, sink, array) {
        Ok(writes) => {
            end_text(&mut text, writes);
            last(sink, text.as_slice(), status::DONE)
        }
        Err(Stop::Source) => last(sink, b"source\n", status::SOURCE),
        Err(Stop::TooLong) => last(sink, b"toolong\n", status::TOO_LONG),
        Err(Stop::Sink) => status::SINK,
        Err(Stop::Halt(halt)) => {
            reply(&Brief::Halted(halt), &mut text);
            last(sink, text.as_slice(), halt_status(halt))
        }
    }
}

/// Serves the trace with an array that was just mounted, by a mount that began at some moment.
pub fn serve_mounted<S: Source, K: Sink, A: Serves>(
    source: &mut S,
    sink: &mut K,
    array: &mut A,
) -> u8
    requires going { A.halted array.old ≡ None }
    ensures headline { (began : ℕ) → IsMountedFromEach (A.slots array.old) (A.setup array.old) began
        (A.told array.old) (A.stands array.old)
        → Headline (A.shown array.old) (A.shown array.new)
        (span_of (A.slots array.old) (A.setup array.old) (A.told array.old) (A.told array.new))
        began (streams_of (source_use S.left S.faults source.old source.new)
        (sink_use K.written K.faults sink.old sink.new)) result }
    ensures told { Extends (A.told array.old) (A.told array.new) }
    ensures slots { A.slots array.new ≡ A.slots array.old }
    ensures status { IsServedStatus result }
    ensures present { result ≡ status_done → IsNotDouble (A.setup array.old) (A.slot array.new) }
    ensures two { result ≡ status_two → NamesTwoLost (A.slot array.old) (A.slot array.new)
        (K.written sink.old) (K.written sink.new) }
    ensures worn { result ≡ status_worn → TellsWear (K.written sink.old) (K.written sink.new) }
    ensures source { result ≡ status_source → HasRisen (S.faults source.old) (S.faults source.new) }
    ensures sink { result ≡ status_sink → HasRisen (K.faults sink.old) (K.faults sink.new) }
    ensures unhurt { EndsAtFaults (source_use S.left S.faults source.old source.new)
        (sink_use K.written K.faults sink.old sink.new) result }
{
    serve(source, sink, array)
}
