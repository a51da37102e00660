//! The command `gen`.
ghost use Rattle.std.specs.Prelude.{◌≡◌, ◌≢◌, ◌≤◌};
ghost use Rattle.paraid_base.specs.Told.{HasRisen};
ghost use Rattle.paraid_commands.specs.Ends.{MountsAndThen, ServesGenerated};
ghost use Rattle.paraid_commands.specs.Racks.{rack_use};
ghost use Rattle.paraid_serve.specs.Streams.{sink_use};
ghost use Rattle.paraid_commands.specs.Statuses.{gen_statuses};
ghost use Rattle.paraid_serve.specs.Statuses.{IsOneOf, status_sink};

use crate::fault_text::tell_refusal;
use crate::generated_lines::serve_generated_mounted;
use crate::outside::{Outside, ProgramEnd};
use paraid_io::Sink;
use paraid_rack::Rack;
use paraid_recover::MountRefused;
use paraid_serve::Serves;

/// Mounts and answers generated lines.
pub fn generate<K: Sink, R: Rack, A: Serves, O: Outside<R, A>>(
    outside: &O,
    sink: &mut K,
    rack: R,
    number: u32,
    lines: u32,
) -> ProgramEnd<R>
    requires few { lines ≤ 1000000 }
    ensures run { MountsAndThen (rack_use R.slot_count R.slot R.told rack result.rack)
        (sink_use K.written K.faults sink.old sink.new) result.status (Unit {0}) (ServesGenerated
        (rack_use R.slot_count R.slot R.told rack result.rack) (record {
          number = number;
          count = lines;
          sink = (sink_use K.written K.faults sink.old sink.new);
        }) result.status) }
    ensures slots { R.slot_count result.rack ≡ R.slot_count rack }
    ensures status { IsOneOf gen_statuses result.status }
    ensures sink { result.status ≡ status_sink → HasRisen (K.faults sink.old) (K.faults sink.new) }
    ensures still { result.status ≢ status_sink → K.faults sink.new ≡ K.faults sink.old }
{
    match outside.mount(rack) {
        Ok(mut array) => {
            let status = serve_generated_mounted(sink, &mut array, number, lines);
            ProgramEnd {
                status,
                rack: outside.unmount(array),
            }
        }
        Err(MountRefused { fault, rack }) => ProgramEnd {
            status: tell_refusal(sink, fault),
            rack,
        },
    }
}
