//! The session over all lines of a source.
ghost use Rattle.std.specs.Prelude.{◌≡◌, ◌≢◌, ◌<◌, ◌≤◌, ◌++◌, ℕ, None, IfErr, IsErrOf, OnErr, OnOk, length, take};
ghost use Rattle.paraid_base.specs.Told.{GrowsByBytes, HasRisen};
ghost use Rattle.paraid_rack.specs.Told.{Extends};
ghost use Rattle.paraid_serve.specs.Session.{IsStopByWear, IsStopOfFailed};
ghost use Rattle.paraid_serve.specs.Streams.{sink_use, source_use, streams_of};
ghost use Rattle.paraid_serve.specs.Stretch.{span_of};
ghost use Rattle.paraid_spare.specs.Pools.{left_of, wait_of};
ghost use Rattle.paraid_sparing.specs.Serving.{Keeps};
ghost use Rattle.paraid_sparing.specs.Session.{ServesSpared, fresh_stock};

use crate::line::answer_line;
use paraid_base::{Failed, Pairs};
use paraid_io::{LineFault, LineReader, Sink, Source, write_all};
use paraid_serve::answer::finish;
use paraid_serve::hear::hear;
use paraid_serve::{Serves, Stop};
use paraid_spare::Pool;
use paraid_trace::{Beside, Text};

// Writes the line of a spare, which may be empty, and that of an answer.
fn tell<K: Sink>(sink: &mut K, line: &[u8], text: &[u8]) -> Result<(), Failed>
    ensures grows { OnOk result (GrowsByBytes (K.written sink.old) (K.written sink.new)
        (line.now ++ text.now)) }
    ensures part { OnErr result ((n : ℕ) × (n < length (line.now ++ text.now))
        × GrowsByBytes (K.written sink.old) (K.written sink.new) (take n (line.now ++ text.now))) }
    ensures later { K.faults sink.old ≤ K.faults sink.new }
    ensures still { OnOk result (K.faults sink.new ≡ K.faults sink.old) }
    ensures cause { OnErr result (HasRisen (K.faults sink.old) (K.faults sink.new)) }
{
    let Ok(()) = write_all(sink, line) else {
        return Err(Failed);
    };
    match write_all(sink, text) {
        Ok(()) => Ok(()),
        Err(_) => Err(Failed),
    }
}

/// Answers each line, with a spare put in before a tick where one is due, and flushes at the end.
/// It gives the number of writes.
pub fn session<S: Source, K: Sink, A: Serves>(
    source: &mut S,
    sink: &mut K,
    array: &mut A,
    pool: &mut Pool,
) -> Result<u64, Stop>
    requires going { A.halted array.old ≡ None }
    requires fresh { Keeps pool.old (wait_of pool.old) (fresh_stock (left_of pool.old)) }
    ensures session { ServesSpared (A.shown array.old) (A.shown array.new)
        (span_of (A.slots array.old) (A.setup array.old) (A.told array.old) (A.told array.new))
        (wait_of pool.old) (fresh_stock (left_of pool.old)) (A.stands array.old)
        (streams_of (source_use S.left S.faults source.old source.new)
        (sink_use K.written K.faults sink.old sink.new)) pool.new result }
    ensures told { Extends (A.told array.old) (A.told array.new) }
    ensures slots { A.slots array.new ≡ A.slots array.old }
    ensures setup { A.setup array.new ≡ A.setup array.old }
    ensures going { OnOk result (A.halted array.new ≡ None) }
    ensures failed { IfErr result (IsStopOfFailed (A.slot array.old) (A.slot array.new)) }
    ensures worn { IfErr result IsStopByWear }
    ensures source { IsErrOf result Stop.Source
        → HasRisen (S.faults source.old) (S.faults source.new) }
    ensures sink { IsErrOf result Stop.Sink → HasRisen (K.faults sink.old) (K.faults sink.new) }
    ensures later_source { S.faults source.old ≤ S.faults source.new }
    ensures later_sink { K.faults sink.old ≤ K.faults sink.new }
    ensures still_source { result ≢ Err Stop.Source → S.faults source.new ≡ S.faults source.old }
    ensures still_sink { result ≢ Err Stop.Sink → K.faults sink.new ≡ K.faults sink.old }
{
    let mut reader = LineReader::new();
    let mut line = Text::new();
    let mut text = Text::new();
    let mut beside = Beside::new();
    let mut pairs = Pairs::one(0, &beside.bytes);
    let mut halt = None;
    'lines: loop {
        let asked = match hear(&mut reader, source, &mut pairs) {
            Ok(Some(asked)) => asked,
            Ok(None) => break,
            Err(LineFault::Source) => return Err(Stop::Source),
            Err(LineFault::TooLong { .. }) => return Err(Stop::TooLong),
        };
        answer_line(
            array,
            &mut halt,
            pool,
            asked,
            &pairs,
            &mut beside,
            &mut line,
            &mut text,
        );
        let Ok(()) = tell(sink, line.as_slice(), text.as_slice()) else {
            return Err(Stop::Sink);
        };
    }
    match finish(array, halt) {
        Ok(writes) => Ok(writes),
        Err(halt) => Err(Stop::Halt(halt)),
    }
}
