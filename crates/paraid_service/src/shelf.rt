//! A line, whether there are volumes or not.
ghost use Rattle.std.specs.Prelude.{◌≡◌, ◌++◌, [], None, codes};
ghost use Rattle.paraid_service.specs.LineRuns.{RunsOn};
ghost use Rattle.paraid_service.specs.VolumeLines.{halted_text};
ghost use Rattle.paraid_base.specs.declared.block.Block.{Block as BlockType};
ghost use Rattle.paraid_service.specs.Shelves.{IsGoing, OpensShelf, ServesShelf, left_bare};
ghost use Rattle.paraid_service.specs.declared.shelf.Shelf.TheVariants.{Bare as BareShelf};
ghost use Rattle.paraid_volume_lines.specs.Asked.{line_with};
ghost use Rattle.paraid_volume_lines.specs.Grammar.{init as InitLine};

use crate::held::{halt_of, serve_held};
use paraid_base::{Block, Halt};
use paraid_blocks::Blocks;
use paraid_trace::Text;
use paraid_volume::{VolFault, VolRefused, Volumes, extent_count, extent_size};
use paraid_volume_lines::{VolAsked, tell_begun, tell_fault, tell_word};

/// Volumes, or a device that holds no table.
#[derive(Drop)]
pub enum Shelf<B: Blocks> {
    Held(Volumes<B>),
    Bare(B),
}

/// What is there after a line, and the halt that came of it.
#[derive(Drop)]
pub struct Shelved<B: Blocks> {
    pub shelf: Shelf<B>,
    pub halt: Option<Halt>,
}

/// Takes the table that a device holds, if it holds one.
pub fn open_shelf<B: Blocks>(blocks: B) -> Shelved<B>
    ensures opens { OpensShelf B.Blocks blocks result.shelf result.halt }
    ensures begins { B.kept blocks blocks [] }
{
    if blocks.blocks() < 7 {
        return Shelved {
            shelf: Shelf::Bare(blocks),
            halt: None,
        };
    }
    match Volumes::adopt(blocks) {
        Ok(volumes) => Shelved {
            shelf: Shelf::Held(volumes),
            halt: None,
        },
        Err(refused) => leave(refused),
    }
}

// The device that was not taken.
fn leave<B: Blocks>(refused: VolRefused<B>) -> Shelved<B>
    ensures { result ≡ left_bare refused }
{
    let VolRefused { fault, blocks } = refused;
    Shelved {
        shelf: Shelf::Bare(blocks),
        halt: halt_of::<()>(&Err(fault)),
    }
}

/// Answers a line.
pub fn serve_line<B: Blocks>(
    shelf: Shelf<B>,
    asked: &VolAsked,
    bytes: &mut Block,
    into: &mut Text,
) -> Shelved<B>
    requires going { IsGoing shelf }
    ensures { ServesShelf B.Blocks shelf result.shelf
        (line_with asked.now bytes.old) into.new result.halt }
{
    match shelf {
        Shelf::Held(volumes) => {
            let mut volumes = volumes;
            let halt = serve_held(&mut volumes, asked, bytes, into);
            Shelved {
                shelf: Shelf::Held(volumes),
                halt,
            }
        }
        Shelf::Bare(blocks) => serve_bare(blocks, asked, into),
    }
}

// A line where there is no table.
fn serve_bare<B: Blocks>(blocks: B, asked: &VolAsked, into: &mut Text) -> Shelved<B>
    ensures { (bytes : BlockType) → ServesShelf B.Blocks
        (BareShelf blocks) result.shelf (line_with asked.now bytes) into.new result.halt }
{
    match asked {
        VolAsked::Init => begin_table(blocks, into),
        VolAsked::Bad => {
            tell_word(b"bad", into);
            Shelved {
                shelf: Shelf::Bare(blocks),
                halt: None,
            }
        }
        _ => {
            tell_fault(&VolFault::NotVolumes, into);
            Shelved {
                shelf: Shelf::Bare(blocks),
                halt: None,
            }
        }
    }
}

fn begin_table<B: Blocks>(blocks: B, into: &mut Text) -> Shelved<B>
    ensures { ServesShelf B.Blocks (BareShelf blocks) result.shelf InitLine into.new result.halt }
{
    let count = blocks.blocks();
    if count < 7 {
        tell_word(b"small", into);
        return Shelved {
            shelf: Shelf::Bare(blocks),
            halt: None,
        };
    }
    match Volumes::init(blocks) {
        Ok(volumes) => {
            tell_begun(extent_count(count), extent_size(count), into);
            Shelved {
                shelf: Shelf::Held(volumes),
                halt: None,
            }
        }
        Err(refused) => {
            tell_fault(&refused.fault, into);
            leave(refused)
        }
    }
}

/// Answers one line more. After a halt each that asks for something is answered by the halt.
pub fn answer_volume_line<B: Blocks>(
    shelved: Shelved<B>,
    asked: &VolAsked,
    bytes: &mut Block,
    into: &mut Text,
) -> Shelved<B>
    requires going { shelved.halt ≡ None → IsGoing shelved.shelf }
    ensures runs { RunsOn B.Blocks shelved.shelf result.shelf shelved.halt result.halt
        (line_with asked.now bytes.old) into.new }
{
    let Shelved { shelf, halt } = shelved;
    match halt {
        None => serve_line(shelf, asked, bytes, into),
        Some(halt) => {
            tell_halted(halt, asked, into);
            Shelved {
                shelf,
                halt: Some(halt),
            }
        }
    }
}

// The answer to a line after a halt.
fn tell_halted(halt: Halt, asked: &VolAsked, into: &mut Text)
    ensures { (bytes : BlockType)
        → into.new ≡ halted_text halt (line_with asked.now bytes) ++ codes "\n" }
{
    match asked {
        VolAsked::Bad => tell_word(b"bad", into),
        _ => tell_fault(&VolFault::Halt(halt), into),
    }
}
