//! The session over all lines of a source: each is answered in turn, and a flush ends it.
ghost use Rattle.std.specs.Prelude.{◌≡◌, ◌≢◌, ◌≤◌, None, IfErr, IsErrOf, OnOk};
ghost use Rattle.paraid_base.specs.Told.{HasRisen};
ghost use Rattle.paraid_rack.specs.Told.{Extends};
ghost use Rattle.paraid_serve.specs.Session.{IsStopByWear, IsStopOfFailed, ServesSession};
ghost use Rattle.paraid_serve.specs.Streams.{sink_use, source_use, streams_of};
ghost use Rattle.paraid_serve.specs.Stretch.{span_of};

use crate::Serves;
use crate::answer::{answer, finish};
use crate::hear::hear;
use crate::stop::Stop;
use paraid_base::Pairs;
use paraid_io::{LineFault, LineReader, Sink, Source, write_all};
use paraid_trace::{Beside, Text, reply_with};

/// Answers each line, and flushes at the end. It gives the number of writes.
pub fn session<S: Source, K: Sink, A: Serves>(
    source: &mut S,
    sink: &mut K,
    array: &mut A,
) -> Result<u64, Stop>
    requires going { A.halted array.old ≡ None }
    ensures session { ServesSession (A.shown array.old) (A.shown array.new)
        (span_of (A.slots array.old) (A.setup array.old) (A.told array.old) (A.told array.new))
        (A.stands array.old)
        (streams_of (source_use S.left S.faults source.old source.new)
        (sink_use K.written K.faults sink.old sink.new)) result }
    ensures told { Extends (A.told array.old) (A.told array.new) }
    ensures slots { A.slots array.new ≡ A.slots array.old }
    ensures setup { A.setup array.new ≡ A.setup array.old }
    ensures going { OnOk result (A.halted array.new ≡ None) }
    ensures failed { IfErr result (IsStopOfFailed (A.slot array.old) (A.slot array.new)) }
    ensures worn { IfErr result IsStopByWear }
    ensures source { IsErrOf result Stop.Source
        → HasRisen (S.faults source.old) (S.faults source.new) }
    ensures sink { IsErrOf result Stop.Sink → HasRisen (K.faults sink.old) (K.faults sink.new) }
    ensures later_source { S.faults source.old ≤ S.faults source.new }
    ensures later_sink { K.faults sink.old ≤ K.faults sink.new }
    ensures still_source { result ≢ Err Stop.Source → S.faults source.new ≡ S.faults source.old }
    ensures still_sink { result ≢ Err Stop.Sink → K.faults sink.new ≡ K.faults sink.old }
{
    let mut reader = LineReader::new();
    let mut text = Text::new();
    let mut beside = Beside::new();
    let mut pairs = Pairs::one(0, &beside.bytes);
    let mut halt = None;
    'lines: loop {
        let asked = match hear(&mut reader, source, &mut pairs) {
            Ok(Some(asked)) => asked,
            Ok(None) => break,
            Err(LineFault::Source) => return Err(Stop::Source),
            Err(LineFault::TooLong { .. }) => return Err(Stop::TooLong),
        };
        let answered = answer(array, &mut halt, asked, &pairs, &mut beside);
        reply_with(&answered, &beside, &mut text);
        let Ok(()) = write_all(sink, text.as_slice()) else {
            return Err(Stop::Sink);
        };
    }
    match finish(array, halt) {
        Ok(writes) => Ok(writes),
        Err(halt) => Err(Stop::Halt(halt)),
    }
}
