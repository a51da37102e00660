//! The command `run`.
ghost use Rattle.std.specs.Prelude.{◌≡◌};
ghost use Rattle.paraid_base.specs.Told.{AtEnd, HasRisen};
ghost use Rattle.paraid_commands.specs.Ends.{IsUnheard, MountsAndThen, ServesLines};
ghost use Rattle.paraid_commands.specs.Racks.{rack_use};
ghost use Rattle.paraid_serve.specs.Streams.{EndsAtFaults, sink_use, source_use};
ghost use Rattle.paraid_commands.specs.Statuses.{run_statuses};
ghost use Rattle.paraid_serve.specs.Statuses.{IsOneOf, status_done, status_sink, status_source};

use crate::fault_text::tell_refusal;
use crate::outside::{Outside, ProgramEnd};
use paraid_io::{Sink, Source};
use paraid_rack::Rack;
use paraid_recover::MountRefused;
use paraid_serve::Serves;
use paraid_serve::top::serve_mounted;

/// Mounts and answers each line of the source.
pub fn run<S: Source, K: Sink, R: Rack, A: Serves, O: Outside<R, A>>(
    outside: &O,
    source: &mut S,
    sink: &mut K,
    rack: R,
) -> ProgramEnd<R>
    ensures run { MountsAndThen (rack_use R.slot_count R.slot R.told rack result.rack)
        (sink_use K.written K.faults sink.old sink.new) result.status
        (IsUnheard (source_use S.left S.faults source.old source.new))
        (ServesLines (rack_use R.slot_count R.slot R.told rack result.rack)
        (source_use S.left S.faults source.old source.new)
        (sink_use K.written K.faults sink.old sink.new) result.status) }
    ensures slots { R.slot_count result.rack ≡ R.slot_count rack }
    ensures status { IsOneOf run_statuses result.status }
    ensures end { result.status ≡ status_done → AtEnd (S.left source.new) }
    ensures source { result.status ≡ status_source
        → HasRisen (S.faults source.old) (S.faults source.new) }
    ensures sink { result.status ≡ status_sink → HasRisen (K.faults sink.old) (K.faults sink.new) }
    ensures unhurt { EndsAtFaults (source_use S.left S.faults source.old source.new)
        (sink_use K.written K.faults sink.old sink.new) result.status }
{
    match outside.mount(rack) {
        Ok(mut array) => {
            let status = serve_mounted(source, sink, &mut array);
            ProgramEnd {
                status,
                rack: outside.unmount(array),
            }
        }
        Err(MountRefused { fault, rack }) => ProgramEnd {
            status: tell_refusal(sink, fault),
            rack,
        },
    }
}
