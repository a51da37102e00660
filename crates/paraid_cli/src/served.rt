//! The program over a rack whose writes are gathered. All that it wrote is in the files when it
//! returns.
//!
//! Rack and streams come sealed and go shut: here alone they are opened, and whichever they are. So
//! no call is made on them but those of which the contract tells, none before and none after.
ghost use Rattle.std.specs.Prelude.{◌≡◌, IfErr, IfOk, Some, map, string_bytes};
ghost use Rattle.paraid_cli.specs.CommandEnd.{EndsCommand};
ghost use Rattle.paraid_gather.specs.Above.{told_above};
ghost use Rattle.paraid_rack.specs.Trail.{Trail};
ghost use Rattle.paraid_serve.specs.Ending.{EndsWithLine};
ghost use Rattle.paraid_serve.specs.Streams.{sink_use, source_use};
ghost use Rattle.paraid_serve.specs.Statuses.{status_words};
ghost use Rattle.paraid_words.specs.Reads.{ReadsSource};
ghost use Rattle.paraid_words.specs.Words.{AskFor, usage_line};
ghost use Rattle.paraid_words.specs.declared.command.Command.{Command as CommandType};

use paraid_gather::{BulkRack, Finished, Gathered, Noted};
use paraid_imgrack::{Closed, ImageRack};
use paraid_io::{Sink, Source};
use paraid_program::{ProgramEnd, paraid};
use std::alloc::Global;
use std::fs::{File, Files};

/// A rack or a stream in hands that cannot use it, but hand it to one command.
#[derive(Drop)]
pub(crate) struct Sealed<T> {
    inside: T,
}

impl<T> Sealed<T> {
    pub(crate) fn new(inside: T) -> Sealed<T>
        ensures { result.inside ≡ inside }
    {
        Sealed { inside }
    }
}

/// A rack or a stream after its command. It is used no more.
#[derive(Drop)]
pub(crate) struct Shut<T> {
    inside: T,
}

impl<F: Files<File = File> + Drop> Shut<ImageRack<F>> {
    /// The images, on which no call is made any more.
    pub(crate) fn close(self) -> Closed<F> {
        let Shut { inside } = self;
        Closed::new(inside)
    }
}

/// What a command has left: its status, the streams, the rack, in which all is written, and the
/// log.
#[derive(Drop)]
pub(crate) struct GatheredEnd<S, K, R, L> {
    pub(crate) status: u8,
    pub(crate) source: Shut<S>,
    pub(crate) sink: Shut<K>,
    pub(crate) rack: Shut<R>,
    pub(crate) log: L,
}

/// Hands the program these streams and this rack, whose writes are gathered, and notes its calls in
/// the log, which begins with the record that the rack has. Only where there is no memory do the
/// streams come back as they were.
pub(crate) fn serve_gathered<S: Source + Drop, K: Sink + Drop, R: BulkRack + Drop, L: Noted + Drop>(
    alloc: Global,
    words: &Vec<String>,
    source: Sealed<S>,
    sink: Sealed<K>,
    rack: Sealed<R>,
    log: L,
) -> Result<GatheredEnd<S, K, R, L>, (Sealed<S>, Sealed<K>)>
    requires begun { (t : Trail) → L.noted log ≡ Some t → R.told rack.inside ≡ Some t }
    ensures told { IfOk result (λ served. (c : CommandType)
        → AskFor c (map string_bytes words.now.items)
        → EndsCommand (R.slot_count rack.inside) (R.slot rack.inside) (R.slot served.rack.inside)
        (told_above (R.told rack.inside) (L.noted log)) (R.told served.rack.inside)
        (L.noted served.log) (source_use S.left S.faults source.inside served.source.inside)
        (sink_use K.written K.faults sink.inside served.sink.inside) c served.status) }
    ensures words { IfOk result (λ served. ((c : CommandType)
        → AskFor c (map string_bytes words.now.items) → ⊥)
        → EndsWithLine (K.written sink.inside) (K.written served.sink.inside) usage_line
        status_words served.status) }
    // A source that the command does not read stays as it was, and so it does where no command is
    // asked for.
    ensures unread { IfOk result (λ served. (c : CommandType) → (ReadsSource c → ⊥)
        → AskFor c (map string_bytes words.now.items) → served.source.inside ≡ source.inside) }
    ensures unasked { IfOk result (λ served. ((c : CommandType)
        → AskFor c (map string_bytes words.now.items) → ⊥) → served.source.inside ≡ source.inside) }
    ensures slots { IfOk result (λ served. R.slot_count served.rack.inside
        ≡ R.slot_count rack.inside) }
    // Without memory nothing was read, and nothing written.
    ensures none { IfErr result (λ left. (left.0 ≡ source) × (left.1 ≡ sink)) }
{
    let Sealed { inside: rack } = rack;
    let Ok(gathered) = Gathered::new(alloc, rack, log) else {
        return Err((source, sink));
    };
    let Sealed { inside: mut source } = source;
    let Sealed { inside: mut sink } = sink;
    let ProgramEnd { status, rack } = paraid(alloc, words, &mut source, &mut sink, gathered);
    let Finished { rack, log } = rack.finish();
    Ok(GatheredEnd {
        status,
        source: Shut { inside: source },
        sink: Shut { inside: sink },
        rack: Shut { inside: rack },
        log,
    })
}
