//! A session of volumes on a mounted array.
ghost use Rattle.std.specs.Prelude.{◌≡◌, ◌≢◌, ◌≤◌, ℕ, None};
ghost use Rattle.paraid_base.specs.Told.{HasRisen};
ghost use Rattle.paraid_serve.specs.Calls.{IsNotDouble};
ghost use Rattle.paraid_rack.specs.Told.{Extends};
ghost use Rattle.paraid_serve.specs.Lost.{NamesTwoLost, TellsWear};
ghost use Rattle.paraid_serve.specs.Output.{IsServedStatus};
ghost use Rattle.paraid_serve.specs.Streams.{EndsAtFaults, sink_use, source_use, streams_of};
ghost use Rattle.paraid_serve.specs.Stretch.{span_of};
ghost use Rattle.paraid_serve.specs.Statuses.{status_done, status_sink, status_source, status_two, status_worn};
ghost use Rattle.paraid_service.specs.LinesEnds.{EndsSession};
ghost use Rattle.paraid_service.specs.declared.run.LinesEnd.TheVariants.{Done, Sink as AtSink};
ghost use Rattle.paraid_service.specs.Shelves.{device_in};
ghost use Rattle.paraid_service.specs.VolumeSessions.{VolumesHeadline, VolumesRun};
ghost use Rattle.paraid_session.specs.Mount.{IsMountedFromEach};

use crate::client::ServiceEnd;
use crate::run::{LinesEnd, serve_lines};
use crate::shelf::Shelf;
use paraid_blocks::Blocks;
use paraid_device::Device;
use paraid_io::{Sink, Source, write_all};
use paraid_serve::ending::{end_text, halt_status, last, mount_text};
use paraid_serve::{Serves, status};
use paraid_trace::{Brief, Text, reply};

impl<B: Blocks> Shelf<B> {
    /// The device.
    pub fn finish(self) -> B
        ensures { result ≡ device_in self }
    {
        match self {
            Shelf::Held(volumes) => volumes.finish(),
            Shelf::Bare(blocks) => blocks,
        }
    }
}

/// Serves lines about volumes with a mounted array.
pub fn serve_volumes<S: Source, K: Sink, A: Serves>(
    source: &mut S,
    sink: &mut K,
    array: A,
) -> ServiceEnd<A>
    requires going { A.halted array ≡ None }
    ensures run { VolumesRun (A.shown array) (A.shown result.array)
        (span_of (A.slots array) (A.setup array) (A.told array) (A.told result.array))
        (A.stands array) (streams_of (source_use S.left S.faults source.old source.new)
        (sink_use K.written K.faults sink.old sink.new)) result.status }
    ensures headline { (began : ℕ)
        → IsMountedFromEach (A.slots array) (A.setup array) began (A.told array) (A.stands array)
        → VolumesHeadline (A.shown array) (A.shown result.array)
        (span_of (A.slots array) (A.setup array) (A.told array) (A.told result.array)) began
        (streams_of (source_use S.left S.faults source.old source.new)
        (sink_use K.written K.faults sink.old sink.new)) result.status }
    ensures told { Extends (A.told array) (A.told result.array) }
    ensures slots { A.slots result.array ≡ A.slots array }
    ensures status { IsServedStatus result.status }
    ensures present { result.status ≡ status_done
        → IsNotDouble (A.setup array) (A.slot result.array) }
    ensures two { result.status ≡ status_two → NamesTwoLost (A.slot array) (A.slot result.array)
        (K.written sink.old) (K.written sink.new) }
    ensures worn { result.status ≡ status_worn
        → TellsWear (K.written sink.old) (K.written sink.new) }
    ensures source { result.status ≡ status_source
        → HasRisen (S.faults source.old) (S.faults source.new) }
    ensures sink { result.status ≡ status_sink → HasRisen (K.faults sink.old) (K.faults sink.new) }
    ensures unhurt { EndsAtFaults (source_use S.left S.faults source.old source.new)
        (sink_use K.written K.faults sink.old sink.new) result.status }
{
    let mut text = Text::new();
    mount_text(&mut text, array.writes(), array.gear());
    let Ok(()) = write_all(sink, text.as_slice()) else {
        return ServiceEnd {
            status: status::SINK,
            array,
        };
    };
    let run = serve_lines(source, sink, Device::new(array));
    let end = run.end;
    let mut device = run.shelved.shelf.finish();
    let status = end_session(&mut device, end, sink);
    ServiceEnd {
        status,
        array: device.close(),
    }
}

// The last flush and the last line.
fn end_session<K: Sink, A: Serves>(device: &mut Device<A>, end: LinesEnd, sink: &mut K) -> u8
    ensures ends { EndsSession A.Serves device.old device.new
        (K.written sink.old) (K.written sink.new) end result }
    ensures cause { result ≡ status_sink
        → end ≢ AtSink → HasRisen (K.faults sink.old) (K.faults sink.new) }
    ensures later { K.faults sink.old ≤ K.faults sink.new }
    ensures still { result ≢ status_sink → K.faults sink.new ≡ K.faults sink.old }
{
    match end {
        LinesEnd::Done => end_done(device, sink),
        LinesEnd::Source => last(sink, b"source\n", status::SOURCE),
        LinesEnd::TooLong => last(sink, b"toolong\n", status::TOO_LONG),
        LinesEnd::Sink => status::SINK,
    }
}

fn end_done<K: Sink, A: Serves>(device: &mut Device<A>, sink: &mut K) -> u8
    ensures ends { EndsSession A.Serves device.old device.new
        (K.written sink.old) (K.written sink.new) Done result }
    ensures cause { result ≡ status_sink → HasRisen (K.faults sink.old) (K.faults sink.new) }
    ensures later { K.faults sink.old ≤ K.faults sink.new }
    ensures still { result ≢ status_sink → K.faults sink.new ≡ K.faults sink.old }
{
    let mut text = Text::new();
    match device.flush() {
        Ok(writes) => {
            end_text(&mut text, writes);
            last(sink, text.as_slice(), status::DONE)
        }
        Err(halt) => {
            reply(&Brief::Halted(halt), &mut text);
            last(sink, text.as_slice(), halt_status(halt))
        }
    }
}
