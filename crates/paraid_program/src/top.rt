//! What the words ask for is done, or the usage is told where they ask for nothing.
ghost use Rattle.std.specs.Prelude.{◌≡◌, map, string_bytes};
ghost use Rattle.paraid_base.specs.Told.{AtEnd, HasRisen};
ghost use Rattle.paraid_serve.specs.Ending.{EndsWithLine};
ghost use Rattle.paraid_words.specs.Reads.{ReadsSource, TakesSource};
ghost use Rattle.paraid_words.specs.Words.{AskFor, usage_line};
ghost use Rattle.paraid_program.specs.CommandCompletes.{CompletesCommand};
ghost use Rattle.paraid_program.specs.CommandDoes.{DoesCommand};
ghost use Rattle.paraid_words.specs.declared.command.Command.{Command as CommandType};
ghost use Rattle.paraid_commands.specs.Racks.{rack_use};
ghost use Rattle.paraid_serve.specs.Streams.{EndsAtFaults, sink_use, source_use};
ghost use Rattle.paraid_serve.specs.Statuses.{status_done, status_sink, status_source, status_words};

use crate::arrays::Arrays;
use paraid_array::Array;
use paraid_commands::{
    ProgramEnd, answer_volumes, check, format_array, generate, nbd, run, run_with_spares,
    show_plan, show_state,
};
use paraid_io::{Sink, Source};
use paraid_rack::Rack;
use paraid_serve::ending::last;
use paraid_serve::status;
use paraid_words::{Command, read_words};
use std::alloc::Global;

/// The program: it takes the words of the command line, and does what they ask for.
///
/// `format` and `format --force` read a configuration from the source and make an array of the
/// disks of the rack. The others mount it: `status` tells its state, `run` answers each line of the
/// source, also with spares put in, `gen` answers generated lines, `check` counts what is false on
/// the disks, `nbd` serves one client of the network block service, `vol` answers lines about named
/// volumes, and `plan` reads a demand and tells the schedule of gears that costs least for it.
/// Memory is taken before a mount has ended, in a format, for a client and for a plan. On all other
/// words it tells which there are, and does nothing else.
///
/// The statuses are 0, all was done; 2, the words ask for nothing; 3, the source has failed; 4, the
/// sink has failed; 5, two disks are lost, and both are named; 6, the disks are no array, for the
/// cause that is named; 7, there was no memory; 8, the configuration is refused; 9, the disks
/// belong to an array; 10, 2^40 bytes were taken and no whole line is left; 11, a disk failed in a
/// format, or there is no slot for it; 12, 2^62 commits or writes were made; 13, a check has
/// counted something that is false, and all counts were told; 14, a client has broken the protocol;
/// and 15, a line is none of a demand.
///
/// Where the rack tells its calls and held a history, `run` has the headline of a session: what is
/// written is what the array answers to the lines, and the disks hold at each stop a first part of
/// the writes, no fewer than the last flush has told. There a check is one flush, it counts
/// nothing, and all writes that the disks held when they were mounted are held at each stop in it.
pub fn paraid<S: Source, K: Sink, R: Rack>(
    alloc: Global,
    words: &Vec<String>,
    source: &mut S,
    sink: &mut K,
    rack: R,
) -> ProgramEnd<R>
    ensures does { (c : CommandType) → AskFor c (map string_bytes words.now.items)
        → DoesCommand (rack_use R.slot_count R.slot R.told rack result.rack)
        (source_use S.left S.faults source.old source.new)
        (sink_use K.written K.faults sink.old sink.new) result.status c }
    ensures complete { (c : CommandType) → AskFor c (map string_bytes words.now.items)
        → CompletesCommand (rack_use R.slot_count R.slot R.told rack result.rack)
        (source_use S.left S.faults source.old source.new)
        (sink_use K.written K.faults sink.old sink.new) result.status c }
    ensures end { (c : CommandType) → TakesSource c
        → AskFor c (map string_bytes words.now.items)
        → result.status ≡ status_done → AtEnd (S.left source.new) }
    ensures unread { (c : CommandType) → (ReadsSource c → ⊥)
        → AskFor c (map string_bytes words.now.items) → source.new ≡ source.old }

    ensures words { ((c : CommandType) → AskFor c
        (map string_bytes words.now.items) → ⊥)
        → EndsWithLine (K.written sink.old) (K.written sink.new) usage_line
        status_words result.status }
    ensures untouched { ((c : CommandType) → AskFor c
        (map string_bytes words.now.items) → ⊥)
        → (result.rack ≡ rack) × (source.new ≡ source.old) }
    ensures usage { result.status ≡ status_words → (c : CommandType)
        → AskFor c (map string_bytes words.now.items) → ⊥ }

    // Told or not, and whatever came: the next run begins over as many slots.
    ensures slots { R.slot_count result.rack ≡ R.slot_count rack }

    ensures source { result.status ≡ status_source
        → HasRisen (S.faults source.old) (S.faults source.new) }
    ensures sink { result.status ≡ status_sink → HasRisen (K.faults sink.old) (K.faults sink.new) }
    ensures unhurt { EndsAtFaults (source_use S.left S.faults source.old source.new)
        (sink_use K.written K.faults sink.old sink.new) result.status }
{
    let arrays = Arrays::new(alloc);
    match read_words(words) {
        Some(Command::Format { force }) => {
            let mut rack = rack;
            let status = format_array(alloc, force, source, sink, &mut rack);
            ProgramEnd { status, rack }
        }
        Some(Command::Run) => run::<S, K, R, Array<R>, Arrays>(&arrays, source, sink, rack),
        Some(Command::Spare { stock, wait }) => {
            run_with_spares::<S, K, R, Array<R>, Arrays>(&arrays, source, sink, rack, stock, wait)
        }
        Some(Command::Status) => show_state(alloc, sink, rack),
        Some(Command::Check) => check::<K, R, Array<R>, Arrays>(&arrays, sink, rack),
        Some(Command::Gen { number, lines }) => {
            generate::<K, R, Array<R>, Arrays>(&arrays, sink, rack, number, lines)
        }
        Some(Command::Nbd) => nbd::<S, K, R, Array<R>, Arrays>(alloc, &arrays, source, sink, rack),
        Some(Command::Vol) => {
            answer_volumes::<S, K, R, Array<R>, Arrays>(&arrays, source, sink, rack)
        }
        Some(Command::Plan { ups }) => show_plan(alloc, source, sink, rack, ups),
        None => ProgramEnd {
            status: last(
                sink,
                b"usage: paraid format [--force] | run | status | check | gen --number N --lines L | nbd | run --spares N [--wait W] | vol | plan --ups U\n",
                status::WORDS,
            ),
            rack,
        },
    }
}
