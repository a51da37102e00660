//! One client of the network block service over a mounted array.
ghost use Rattle.std.specs.Prelude.{◌≡◌, ℕ, None};
ghost use Rattle.paraid_base.specs.BlockAnswers.{Answers};
ghost use Rattle.paraid_base.specs.Told.{HasRisen};
ghost use Rattle.paraid_device.specs.declared.device.Device.{Device as DeviceType};
ghost use Rattle.paraid_device.specs.Devices.{HasAnswered, array_of};
ghost use Rattle.paraid_session.specs.Mount.{IsMountedFromEach};
ghost use Rattle.paraid_serve.specs.Calls.{IsNotDouble};
ghost use Rattle.paraid_rack.specs.Told.{Extends};
ghost use Rattle.paraid_serve.specs.Streams.{EndsAtFaults, sink_use, source_use, streams_of};
ghost use Rattle.paraid_serve.specs.Stretch.{span_of};
ghost use Rattle.paraid_serve.specs.Statuses.{status_done, status_sink, status_source, status_two};
ghost use Rattle.paraid_service.specs.ClientCauses.{ClientCauses};
ghost use Rattle.paraid_service.specs.Clients.{ClientHeadline, IsClientStatus, LosesTwo};
ghost use Rattle.paraid_service.specs.Ends.{EndsService, Flushes};

use paraid_blocks::Blocks;
use paraid_device::Device;
use paraid_io::{Sink, Source};
use paraid_nbd::{NbdEnd, serve_nbd};
use paraid_serve::ending::halt_status;
use paraid_serve::{Serves, status};
use std::alloc::Global;

/// How the service of a client ended, and the array.
pub struct ServiceEnd<A> {
    pub status: u8,
    pub array: A,
}

// Keeps what was written, and gives the status.
pub(crate) fn keep<A: Serves>(device: &mut Device<A>) -> u8
    ensures flushes { (first : DeviceType A A.Serves) (events : Answers)
        → HasAnswered A.Serves (array_of first) (array_of device.old) events
        → Flushes A.Serves (array_of first) (array_of device.new) events result }
{
    match device.flush() {
        Ok(_) => status::DONE,
        Err(halt) => halt_status(halt),
    }
}

// Ends the service: what was written is kept, unless the client was broken off.
fn end_client<A: Serves>(device: &mut Device<A>, end: NbdEnd) -> u8
    ensures ends { (first : DeviceType A A.Serves) (events : Answers)
        → HasAnswered A.Serves (array_of first) (array_of device.old) events
        → EndsService A.Serves (array_of first) (array_of device.new) events end result }
{
    match end {
        NbdEnd::Done => keep(device),
        NbdEnd::Aborted => keep(device),
        NbdEnd::Closed => keep(device),
        NbdEnd::Protocol { .. } => status::PROTOCOL,
        NbdEnd::TooLong { .. } => status::TOO_LONG,
        NbdEnd::Source => status::SOURCE,
        NbdEnd::Sink => status::SINK,
        NbdEnd::NoMemory => status::NO_MEMORY,
    }
}

/// Serves one client with an array that was just mounted, by a mount that began at some moment.
pub fn serve_client<S: Source, K: Sink, A: Serves>(
    alloc: Global,
    source: &mut S,
    sink: &mut K,
    array: A,
) -> ServiceEnd<A>
    requires going { A.halted array ≡ None }
    ensures headline { (began : ℕ) → IsMountedFromEach (A.slots array) (A.setup array) began
        (A.told array) (A.stands array)
        → ClientHeadline
        (span_of (A.slots array) (A.setup array) (A.told array) (A.told result.array)) began
        (streams_of (source_use S.left S.faults source.old source.new)
        (sink_use K.written K.faults sink.old sink.new)) result.status }
    // Over every rack each error is by what the request says or by a halt, and each event of the
    // array has its cause.
    ensures causes { ClientCauses (A.shown array) (A.shown result.array)
        (streams_of (source_use S.left S.faults source.old source.new)
        (sink_use K.written K.faults sink.old sink.new)) result.status }
    ensures told { Extends (A.told array) (A.told result.array) }
    ensures slots { A.slots result.array ≡ A.slots array }
    ensures status { IsClientStatus result.status }
    ensures present { result.status ≡ status_done
        → IsNotDouble (A.setup array) (A.slot result.array) }
    ensures two { result.status ≡ status_two → LosesTwo (A.slot array) (A.slot result.array) }
    ensures source { result.status ≡ status_source
        → HasRisen (S.faults source.old) (S.faults source.new) }
    ensures sink { result.status ≡ status_sink → HasRisen (K.faults sink.old) (K.faults sink.new) }
    ensures unhurt { EndsAtFaults (source_use S.left S.faults source.old source.new)
        (sink_use K.written K.faults sink.old sink.new) result.status }
{
    let mut device = Device::new(array);
    let end = serve_nbd(alloc, &mut device, source, sink);
    let status = end_client(&mut device, end);
    ServiceEnd {
        status,
        array: device.close(),
    }
}
