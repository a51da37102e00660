//! The command `status`: mounts an array and tells its state in two lines, or why it was not
//! mounted.
ghost use Rattle.std.specs.Prelude.{◌≡◌, ◌≢◌};
ghost use Rattle.paraid_base.specs.Told.{HasRisen};
ghost use Rattle.paraid_commands.specs.Showing.{Shows};
ghost use Rattle.paraid_commands.specs.Racks.{rack_use};
ghost use Rattle.paraid_serve.specs.Streams.{sink_use};
ghost use Rattle.paraid_commands.specs.Statuses.{show_statuses};
ghost use Rattle.paraid_serve.specs.Statuses.{IsOneOf, status_sink};

use crate::array_state::tell_state;
use crate::fault_text::tell_refusal;
use crate::outside::ProgramEnd;
use paraid_io::Sink;
use paraid_rack::Rack;
use paraid_recover::{MountRefused, Mounted, mount};
use std::alloc::Global;

/// Mounts an array, and tells its state or why it was not mounted.
///
/// The statuses are 0, the state was told; 4, the sink has failed; 5, two disks are down; 6, the
/// disks in the slots make no array; 7, there was no memory; and 12, the array takes no more.
pub fn show_state<K: Sink, R: Rack>(alloc: Global, sink: &mut K, rack: R) -> ProgramEnd<R>
    ensures shows { Shows (rack_use R.slot_count R.slot R.told rack result.rack)
        (sink_use K.written K.faults sink.old sink.new) result.status }
    ensures slots { R.slot_count result.rack ≡ R.slot_count rack }
    ensures status { IsOneOf show_statuses result.status }
    ensures sink { result.status ≡ status_sink → HasRisen (K.faults sink.old) (K.faults sink.new) }
    ensures still { result.status ≢ status_sink → K.faults sink.new ≡ K.faults sink.old }
{
    match mount(alloc, rack) {
        Ok(
            Mounted {
                store,
                meta,
                dirty,
                ..
            },
        ) => {
            let status = tell_state(sink, &meta, &dirty);
            ProgramEnd {
                status,
                rack: store.close(),
            }
        }
        Err(MountRefused { fault, rack }) => ProgramEnd {
            status: tell_refusal(sink, fault),
            rack,
        },
    }
}
