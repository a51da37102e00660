//! The command `format`: what came of it, and the line that tells it.
ghost use Rattle.std.specs.Prelude.{◌≡◌, ◌≢◌, IfOk, IfErr};
ghost use Rattle.paraid_base.specs.Told.{AtEnd, HasRisen};
ghost use Rattle.paraid_commands.specs.Outcome.{Formats, IsRefusalCause, IsFormatStatus, IsArrayMade};
ghost use Rattle.paraid_commands.specs.Reading.{IsConfigured};
ghost use Rattle.paraid_commands.specs.Racks.{rack_use};
ghost use Rattle.paraid_serve.specs.Streams.{EndsAtFaults, sink_use, source_use};
ghost use Rattle.paraid_serve.specs.Statuses.{status_done, status_sink, status_source};

use crate::Refusal;
use crate::format_text::{formatted_text, refusal_status, refusal_text};
use crate::read::read_setup;
use paraid_io::{Sink, Source};
use paraid_rack::Rack;
use paraid_record::Setup;
use paraid_recover::format;
use paraid_serve::ending::last;
use paraid_serve::status;
use paraid_trace::Text;
use std::alloc::Global;

// Makes an array with the setup that the source gives.
fn make_array<S: Source, R: Rack>(
    alloc: Global,
    force: bool,
    source: &mut S,
    rack: &mut R,
) -> Result<Setup, Refusal>
    ensures slots { R.slot_count rack.new ≡ R.slot_count rack.old }
    ensures configured { IfOk result
        (IsConfigured (source_use S.left S.faults source.old source.new)) }
    ensures made { IfOk result (IsArrayMade force
        (rack_use R.slot_count R.slot R.told rack.old rack.new)) }
    ensures refused { IfErr result (IsRefusalCause force
        (rack_use R.slot_count R.slot R.told rack.old rack.new)
        (source_use S.left S.faults source.old source.new)) }
    ensures still { result ≢ Err Refusal.Source → S.faults source.new ≡ S.faults source.old }
{
    let setup = match read_setup(alloc, source) {
        Ok(setup) => setup,
        Err(refusal) => return Err(refusal),
    };
    match format(&setup, force, rack) {
        Ok(()) => Ok(setup),
        Err(fault) => Err(Refusal::Format(fault)),
    }
}

/// Reads a configuration from the source, makes an array of the first slots of the rack, and tells
/// how that came out. It gives the status.
///
/// The statuses, in the order in which their causes are looked for: 3, the source has failed; 8,
/// the configuration is refused; 7, there was no memory; 9, without `force`, a log disk belongs to
/// an array; 11, a disk has failed or there is no slot for it; 0, the array was made. At 4 the sink
/// has failed.
pub fn format_array<S: Source, K: Sink, R: Rack>(
    alloc: Global,
    force: bool,
    source: &mut S,
    sink: &mut K,
    rack: &mut R,
) -> u8
    ensures formats { Formats force (rack_use R.slot_count R.slot R.told rack.old rack.new)
        (source_use S.left S.faults source.old source.new)
        (sink_use K.written K.faults sink.old sink.new) result }
    ensures slots { R.slot_count rack.new ≡ R.slot_count rack.old }
    ensures status { IsFormatStatus result }
    ensures end { result ≡ status_done → AtEnd (S.left source.new) }
    ensures source { result ≡ status_source → HasRisen (S.faults source.old) (S.faults source.new) }
    ensures sink { result ≡ status_sink → HasRisen (K.faults sink.old) (K.faults sink.new) }
    ensures unhurt { EndsAtFaults (source_use S.left S.faults source.old source.new)
        (sink_use K.written K.faults sink.old sink.new) result }
{
    let mut text = Text::new();
    match make_array(alloc, force, source, rack) {
        Ok(setup) => {
            formatted_text(&mut text, &setup);
            last(sink, text.as_slice(), status::DONE)
        }
        Err(refusal) => {
            refusal_text(&mut text, refusal);
            last(sink, text.as_slice(), refusal_status(refusal))
        }
    }
}
