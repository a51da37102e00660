//! The command `nbd`.
ghost use Rattle.std.specs.Prelude.{◌≡◌};
ghost use Rattle.paraid_base.specs.Told.{HasRisen};
ghost use Rattle.paraid_commands.specs.Clients.{ServesNbdOrNot};
ghost use Rattle.paraid_commands.specs.Racks.{rack_use};
ghost use Rattle.paraid_serve.specs.Streams.{EndsAtFaults, sink_use, source_use};
ghost use Rattle.paraid_commands.specs.Statuses.{nbd_statuses};
ghost use Rattle.paraid_serve.specs.Statuses.{IsOneOf, status_sink, status_source};

use crate::fault_text::mount_fault_status;
use crate::outside::{Outside, ProgramEnd};
use paraid_io::{Sink, Source};
use paraid_rack::Rack;
use paraid_recover::MountRefused;
use paraid_serve::Serves;
use paraid_service::{ServiceEnd, serve_client};
use std::alloc::Global;

/// Mounts and serves one client of the network block service.
pub fn nbd<S: Source, K: Sink, R: Rack, A: Serves, O: Outside<R, A>>(
    alloc: Global,
    outside: &O,
    source: &mut S,
    sink: &mut K,
    rack: R,
) -> ProgramEnd<R>
    ensures nbd { ServesNbdOrNot (rack_use R.slot_count R.slot R.told rack result.rack)
        (source_use S.left S.faults source.old source.new)
        (sink_use K.written K.faults sink.old sink.new) result.status }
    ensures slots { R.slot_count result.rack ≡ R.slot_count rack }
    ensures status { IsOneOf nbd_statuses result.status }
    ensures source { result.status ≡ status_source
        → HasRisen (S.faults source.old) (S.faults source.new) }
    ensures sink { result.status ≡ status_sink → HasRisen (K.faults sink.old) (K.faults sink.new) }
    ensures unhurt { EndsAtFaults (source_use S.left S.faults source.old source.new)
        (sink_use K.written K.faults sink.old sink.new) result.status }
{
    match outside.mount(rack) {
        Ok(array) => {
            let ServiceEnd { status, array } = serve_client(alloc, source, sink, array);
            ProgramEnd {
                status,
                rack: outside.unmount(array),
            }
        }
        Err(MountRefused { fault, rack }) => ProgramEnd {
            status: mount_fault_status(fault),
            rack,
        },
    }
}
