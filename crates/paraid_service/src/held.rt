//! The lines of volumes that are there.
ghost use Rattle.std.specs.Prelude.{◌≡◌, None};
ghost use Rattle.paraid_service.specs.LineSteps.{ServesHeld};
ghost use Rattle.paraid_volume.specs.Faults.{vol_halt_in};
ghost use Rattle.paraid_volume.specs.Values.{halted_of};
ghost use Rattle.paraid_volume_lines.specs.Asked.{line_with};
ghost use Rattle.paraid_volume_lines.specs.Grammar.{bad as BadLine, create as CreateLine, delete as DeleteLine, flush as FlushLine, init as InitLine, list as ListLine, read as ReadLine, write as WriteLine};
ghost use Rattle.paraid_volume_lines.specs.NameWords.{word_of};

use crate::lines::{create_named, delete_named, flush_volumes, read_named, write_named};
use paraid_base::{Block, BlockNo, Halt};
use paraid_blocks::Blocks;
use paraid_trace::Text;
use paraid_volume::{Name, VolFault, Volumes};
use paraid_volume_lines::{
    VolAsked, tell_created, tell_deleted, tell_fault, tell_flushed, tell_list, tell_read,
    tell_word, tell_written,
};

/// Answers a line, and gives the halt that came of it.
pub fn serve_held<B: Blocks>(
    volumes: &mut Volumes<B>,
    asked: &VolAsked,
    bytes: &mut Block,
    into: &mut Text,
) -> Option<Halt>
    requires going { halted_of volumes.old ≡ None }
    ensures { ServesHeld B.Blocks volumes.old volumes.new
        (line_with asked.now bytes.old) into.new result }
{
    match asked {
        VolAsked::Init => serve_init(volumes, into),
        VolAsked::Create { name, extents } => serve_create(volumes, name, *extents, into),
        VolAsked::Delete { name } => serve_delete(volumes, name, into),
        VolAsked::Read { name, block } => serve_read(volumes, name, *block, bytes, into),
        VolAsked::Write { name, block } => serve_write(volumes, name, *block, bytes, into),
        VolAsked::Flush => serve_flush(volumes, into),
        VolAsked::List => serve_list(volumes, into),
        VolAsked::Bad => serve_bad(volumes, into),
    }
}

// The halt in an answer.
pub(crate) fn halt_of<T>(answer: &Result<T, VolFault>) -> Option<Halt>
    ensures { result ≡ vol_halt_in answer.now }
{
    match answer {
        Err(VolFault::Halt(halt)) => Some(*halt),
        _ => None,
    }
}

fn serve_init<B: Blocks>(volumes: &Volumes<B>, into: &mut Text) -> Option<Halt>
    requires going { halted_of volumes.now ≡ None }
    ensures { ServesHeld B.Blocks volumes.now volumes.now InitLine into.new result }
{
    tell_fault(&VolFault::Already, into);
    None
}

fn serve_list<B: Blocks>(volumes: &Volumes<B>, into: &mut Text) -> Option<Halt>
    requires going { halted_of volumes.now ≡ None }
    ensures { ServesHeld B.Blocks volumes.now volumes.now ListLine into.new result }
{
    tell_list(volumes, into);
    None
}

fn serve_bad<B: Blocks>(volumes: &Volumes<B>, into: &mut Text) -> Option<Halt>
    requires going { halted_of volumes.now ≡ None }
    ensures { ServesHeld B.Blocks volumes.now volumes.now BadLine into.new result }
{
    // (the contract alone speaks of them)
    let _volumes = volumes;
    tell_word(b"bad", into);
    None
}

fn serve_create<B: Blocks>(
    volumes: &mut Volumes<B>,
    name: &Name,
    extents: u32,
    into: &mut Text,
) -> Option<Halt>
    requires going { halted_of volumes.old ≡ None }
    ensures { ServesHeld B.Blocks volumes.old volumes.new
        (CreateLine (word_of name.now) extents) into.new result }
{
    let made = create_named(volumes, name, extents);
    tell_created(name, &made, into);
    halt_of(&made)
}

fn serve_delete<B: Blocks>(volumes: &mut Volumes<B>, name: &Name, into: &mut Text) -> Option<Halt>
    requires going { halted_of volumes.old ≡ None }
    ensures { ServesHeld B.Blocks volumes.old volumes.new
        (DeleteLine (word_of name.now)) into.new result }
{
    match delete_named(volumes, name) {
        Ok(there) => {
            tell_deleted(name, there, into);
            None
        }
        Err(halt) => {
            tell_fault(&VolFault::Halt(halt), into);
            Some(halt)
        }
    }
}

fn serve_read<B: Blocks>(
    volumes: &mut Volumes<B>,
    name: &Name,
    block: BlockNo,
    bytes: &mut Block,
    into: &mut Text,
) -> Option<Halt>
    requires going { halted_of volumes.old ≡ None }
    ensures { ServesHeld B.Blocks volumes.old volumes.new
        (ReadLine (word_of name.now) block) into.new result }
{
    let read = read_named(volumes, name, block, bytes);
    tell_read(name, block, &read, bytes, into);
    halt_of(&read)
}

fn serve_write<B: Blocks>(
    volumes: &mut Volumes<B>,
    name: &Name,
    block: BlockNo,
    bytes: &Block,
    into: &mut Text,
) -> Option<Halt>
    requires going { halted_of volumes.old ≡ None }
    ensures { ServesHeld B.Blocks volumes.old volumes.new
        (WriteLine (word_of name.now) block bytes.now) into.new result }
{
    let written = write_named(volumes, name, block, bytes);
    tell_written(&written, into);
    halt_of(&written)
}

fn serve_flush<B: Blocks>(volumes: &mut Volumes<B>, into: &mut Text) -> Option<Halt>
    requires going { halted_of volumes.old ≡ None }
    ensures { ServesHeld B.Blocks volumes.old volumes.new FlushLine into.new result }
{
    let flushed = flush_volumes(volumes);
    tell_flushed(&flushed, into);
    halt_of(&flushed)
}
