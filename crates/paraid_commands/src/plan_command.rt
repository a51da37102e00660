//! The command `plan`: mounts an array, reads a demand, and tells the schedule of gears that costs
//! least; or why there is none.
ghost use Rattle.std.specs.Prelude.{◌≡◌, ◌≢◌, ◌≤◌, ◌++◌};
ghost use Rattle.paraid_base.specs.Told.{AtEnd, HasRisen};
ghost use Rattle.paraid_serve.specs.Ending.{EndsWithLine};
ghost use Rattle.paraid_commands.specs.Planning.{PlanOutcome, TellsPlan, unplanned_status as unplanned_status_of};
ghost use Rattle.paraid_commands.specs.Racks.{rack_use};
ghost use Rattle.paraid_serve.specs.Streams.{EndsAtFaults, sink_use, source_use};
ghost use Rattle.paraid_commands.specs.Statuses.{plan_statuses, planned_statuses};
ghost use Rattle.paraid_serve.specs.Statuses.{IsOneOf, status_done, status_sink, status_source};

use crate::fault_text::tell_refusal;
use crate::outside::ProgramEnd;
use paraid_io::{Sink, Source, write_all};
use paraid_planning::{Unplanned, plan_demand, unplanned_text};
use paraid_rack::Rack;
use paraid_record::Meta;
use paraid_recover::{MountRefused, Mounted, mount};
use paraid_serve::ending::{last, mount_text};
use paraid_serve::status;
use paraid_trace::Text;
use std::alloc::Global;

fn unplanned_status(cause: Unplanned) -> u8
    ensures { result ≡ unplanned_status_of cause }
{
    match cause {
        Unplanned::Source => status::SOURCE,
        Unplanned::TooLong => status::TOO_LONG,
        Unplanned::NoMemory => status::NO_MEMORY,
        Unplanned::Demand { .. } => status::DEMAND,
    }
}

// Writes a first line and the last ones.
fn tell_lines<K: Sink>(sink: &mut K, first: &[u8], lines: &[u8], status: u8) -> u8
    ensures ends { EndsWithLine (K.written sink.old) (K.written sink.new) (first.now ++ lines.now)
        status result }
    ensures cause { result ≢ status
        → (result ≡ status_sink) × HasRisen (K.faults sink.old) (K.faults sink.new) }
    ensures still { result ≢ status_sink → K.faults sink.new ≡ K.faults sink.old }
{
    let Ok(()) = write_all(sink, first) else {
        return status::SINK;
    };
    last(sink, lines, status)
}

// Tells the plan of the demand that the source gives, or why there is none.
fn tell_plan<S: Source, K: Sink>(
    alloc: Global,
    source: &mut S,
    sink: &mut K,
    meta: &Meta,
    ups: u16,
) -> u8
    requires few { ups ≤ 256 }
    ensures told { TellsPlan meta.now ups (source_use S.left S.faults source.old source.new)
        (sink_use K.written K.faults sink.old sink.new) result }
    ensures status { IsOneOf planned_statuses result }
    ensures sink { result ≡ status_sink → HasRisen (K.faults sink.old) (K.faults sink.new) }
    ensures unhurt { EndsAtFaults (source_use S.left S.faults source.old source.new)
        (sink_use K.written K.faults sink.old sink.new) result }
{
    let mut first = Text::new();
    mount_text(&mut first, meta.writes, meta.gear);
    match plan_demand(alloc, source, &meta.setup, ups) {
        Ok(lines) => tell_lines(sink, first.as_slice(), &lines, status::DONE),
        Err(cause) => {
            let mut line = Text::new();
            unplanned_text(&mut line, cause);
            tell_lines(
                sink,
                first.as_slice(),
                line.as_slice(),
                unplanned_status(cause),
            )
        }
    }
}

/// Mounts an array, reads a demand of one number a line, and tells the schedule that costs least
/// for it, with at most `ups` steps to a higher gear and no more than the ration.
///
/// The statuses are those of a mount that is refused, and 0, the plan was told; 3, the source has
/// failed; 4, the sink has failed; 7, there was no memory, before the mount had ended or for the
/// plan; 10, 2^40 bytes were taken; and 15, a line is none of a demand.
pub fn show_plan<S: Source, K: Sink, R: Rack>(
    alloc: Global,
    source: &mut S,
    sink: &mut K,
    rack: R,
    ups: u16,
) -> ProgramEnd<R>
    requires few { ups ≤ 256 }
    ensures plans { PlanOutcome (rack_use R.slot_count R.slot R.told rack result.rack)
        (source_use S.left S.faults source.old source.new)
        (sink_use K.written K.faults sink.old sink.new) ups result.status }
    ensures slots { R.slot_count result.rack ≡ R.slot_count rack }
    ensures status { IsOneOf plan_statuses result.status }
    ensures end { result.status ≡ status_done → AtEnd (S.left source.new) }
    ensures source { result.status ≡ status_source
        → HasRisen (S.faults source.old) (S.faults source.new) }
    ensures sink { result.status ≡ status_sink → HasRisen (K.faults sink.old) (K.faults sink.new) }
    ensures unhurt { EndsAtFaults (source_use S.left S.faults source.old source.new)
        (sink_use K.written K.faults sink.old sink.new) result.status }
{
    match mount(alloc, rack) {
        Ok(Mounted { store, meta, .. }) => {
            let status = tell_plan(alloc, source, sink, &meta, ups);
            ProgramEnd {
                status,
                rack: store.close(),
            }
        }
        Err(MountRefused { fault, rack }) => ProgramEnd {
            status: tell_refusal(sink, fault),
            rack,
        },
    }
}
