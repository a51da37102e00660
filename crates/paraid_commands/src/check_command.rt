//! The command `check`.
ghost use Rattle.std.specs.Prelude.{◌≡◌, ◌≢◌, ℕ};
ghost use Rattle.paraid_base.specs.Told.{HasRisen};
ghost use Rattle.paraid_recover.specs.Calls.{OnlyReads};
ghost use Rattle.paraid_rack.specs.Told.{Extends};
ghost use Rattle.paraid_serve.specs.Calls.{IsNotDouble};
ghost use Rattle.paraid_serve.specs.Lost.{NamesTwoLost, TellsWear};
ghost use Rattle.paraid_session.specs.Mount.{IsMountedFromEach};
ghost use Rattle.paraid_commands.specs.CheckCauses.{HasCheckCauses};
ghost use Rattle.paraid_commands.specs.Ends.{ChecksArray, CountsArray, MountsAndThen, TellsCounts};
ghost use Rattle.paraid_commands.specs.Racks.{rack_use};
ghost use Rattle.paraid_serve.specs.Streams.{sink_use};
ghost use Rattle.paraid_serve.specs.Stretch.{span_of};
ghost use Rattle.paraid_commands.specs.Statuses.{check_statuses, checked_statuses};
ghost use Rattle.paraid_serve.specs.Statuses.{IsOneOf, status_done, status_found, status_sink, status_two, status_worn};

use crate::counts_text::{check_status, check_text};
use crate::fault_text::tell_refusal;
use crate::outside::{Outside, ProgramEnd};
use paraid_io::Sink;
use paraid_rack::Rack;
use paraid_recover::MountRefused;
use paraid_serve::Serves;
use paraid_serve::ending::{halt_status, last};
use paraid_trace::{Brief, Text, reply};

// Checks an array that was just mounted, by a mount that began at some moment: it tells the counts,
// or the halt that ended them.
fn tell_counts<K: Sink, R: Rack, A: Serves, O: Outside<R, A>>(
    outside: &O,
    sink: &mut K,
    array: &mut A,
) -> u8
    requires going { A.halted array.old ≡ None }
    requires nothing { O.nothing array.old }
    ensures counts { (began : ℕ) → IsMountedFromEach (A.slots array.old)
        (A.setup array.old) began (A.told array.old) (A.stands array.old) → TellsCounts
        (span_of (A.slots array.old) (A.setup array.old) (A.told array.old) (A.told array.new))
        began (sink_use K.written K.faults sink.old sink.new) result (CountsArray
        (O.served array.old) (A.slot array.new) (A.told array.old) (A.told array.new)) }
    ensures causes { HasCheckCauses (A.shown array.old) (A.shown array.new) (K.written sink.old)
        (K.written sink.new) result }
    ensures told { Extends (A.told array.old) (A.told array.new) }
    ensures reads { OnlyReads (A.told array.old) (A.told array.new) }
    ensures slots { A.slots array.new ≡ A.slots array.old }
    ensures status { IsOneOf checked_statuses result }
    ensures present { result ≡ status_done → IsNotDouble (A.setup array.old) (A.slot array.new) }
    ensures found { result ≡ status_found → IsNotDouble (A.setup array.old) (A.slot array.new) }
    ensures two { result ≡ status_two → NamesTwoLost (A.slot array.old) (A.slot array.new)
        (K.written sink.old) (K.written sink.new) }
    ensures worn { result ≡ status_worn → TellsWear (K.written sink.old) (K.written sink.new) }
    ensures sink { result ≡ status_sink → HasRisen (K.faults sink.old) (K.faults sink.new) }
    ensures still { result ≢ status_sink → K.faults sink.new ≡ K.faults sink.old }
{
    let mut text = Text::new();
    match outside.check(array) {
        Ok(report) => {
            check_text(&mut text, &report);
            last(sink, text.as_slice(), check_status(&report))
        }
        Err(halt) => {
            reply(&Brief::Halted(halt), &mut text);
            last(sink, text.as_slice(), halt_status(halt))
        }
    }
}

/// Mounts and counts what is false.
pub fn check<K: Sink, R: Rack, A: Serves, O: Outside<R, A>>(
    outside: &O,
    sink: &mut K,
    rack: R,
) -> ProgramEnd<R>
    ensures run { MountsAndThen (rack_use R.slot_count R.slot R.told rack result.rack)
        (sink_use K.written K.faults sink.old sink.new) result.status (Unit {0})
        (ChecksArray (rack_use R.slot_count R.slot R.told rack result.rack)
        (sink_use K.written K.faults sink.old sink.new) result.status) }
    ensures slots { R.slot_count result.rack ≡ R.slot_count rack }
    ensures status { IsOneOf check_statuses result.status }
    ensures sink { result.status ≡ status_sink → HasRisen (K.faults sink.old) (K.faults sink.new) }
    ensures still { result.status ≢ status_sink → K.faults sink.new ≡ K.faults sink.old }
{
    match outside.mount(rack) {
        Ok(mut array) => {
            let status = tell_counts::<K, R, A, O>(outside, sink, &mut array);
            ProgramEnd {
                status,
                rack: outside.unmount(array),
            }
        }
        Err(MountRefused { fault, rack }) => ProgramEnd {
            status: tell_refusal(sink, fault),
            rack,
        },
    }
}
