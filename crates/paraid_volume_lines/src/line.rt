//! The text of a line, and what it asks for.
ghost use Rattle.std.specs.Prelude.{◌≡◌, ◌≢◌, ◌<◌, length};
ghost use Rattle.std.specs.List.{position};
ghost use Rattle.paraid_base.specs.declared.block.Block.{Block as BlockType};
ghost use Rattle.paraid_trace.specs.LineEvents.{is_space};
ghost use Rattle.paraid_volume_lines.specs.Asked.{line_with, pair_in};
ghost use Rattle.paraid_volume_lines.specs.Grammar.{IsVolLine, VolLine, bad as BadLine};
ghost use Rattle.paraid_volume_lines.specs.LineValues.{asked_of, bare_line, create_line, create_with, delete_of, deletes, line_of, named_at, named_line, pair_at, read_with, write_with};
ghost use Rattle.paraid_volume_lines.specs.NameWords.{word_of};

use crate::VolAsked;
use paraid_base::{Block, BlockNo};
use paraid_trace::{block_from_hex, number};
use paraid_volume::Name;

/// What a line asks for of volumes, and `Bad` where it asks for nothing. The line comes without its
/// newline. The bytes of a write are kept in `bytes`; where the line asks for no write they may be
/// any.
pub fn parse_volume_line(line: &[u8], bytes: &mut Block) -> VolAsked
    ensures value { line_with result bytes.new ≡ line_of line.now }
    ensures task { line_with result bytes.new ≢ BadLine
        → IsVolLine line.now (line_with result bytes.new) }
    ensures only { (asked : VolLine)
        → IsVolLine line.now asked → line_with result bytes.new ≡ asked }
    ensures bad { line_with result bytes.new ≡ BadLine
        → (asked : VolLine) → IsVolLine line.now asked → ⊥ }
    ensures long { 1100 < length line.now → line_with result bytes.new ≡ BadLine }
{
    task(line, bytes)
}

#[tactic(auto, unfolding(crate::specs::LineValues::line_of))]
fn task(line: &[u8], bytes: &mut Block) -> VolAsked
    ensures { line_with result bytes.new ≡ line_of line.now }
{
    match space_in(line) {
        Some(at) => word_and_more(&line[..at], &line[at + 1..], bytes),
        None => lone_word(line),
    }
}

fn space_in(text: &[u8]) -> Option<usize>
    ensures { result ≡ position is_space text.now }
{
    text.iter().position(|c| *c == b' ')
}

// A line of one word.
fn lone_word(word: &[u8]) -> VolAsked
    ensures { (b : BlockType) → line_with result b ≡ bare_line word.now }
{
    match word {
        b"init" => VolAsked::Init,
        b"f" => VolAsked::Flush,
        b"list" => VolAsked::List,
        _ => VolAsked::Bad,
    }
}

// A line of a word and what follows its space.
fn word_and_more(word: &[u8], rest: &[u8], bytes: &mut Block) -> VolAsked
    ensures { line_with result bytes.new ≡ named_at word.now (position is_space rest.now) rest.now }
{
    match space_in(rest) {
        Some(at) => about(word, &rest[..at], &rest[at + 1..], bytes),
        None => word_and_name(word, rest),
    }
}

// A word and a name.
fn word_and_name(word: &[u8], name: &[u8]) -> VolAsked
    ensures { (b : BlockType) → line_with result b ≡ delete_of word.now name.now }
{
    if word == b"delete".as_slice() {
        delete_task(name)
    } else {
        VolAsked::Bad
    }
}

fn delete_task(name: &[u8]) -> VolAsked
    ensures { (b : BlockType) → line_with result b ≡ deletes name.now }
{
    match Name::new(name) {
        Some(name) => VolAsked::Delete { name },
        None => VolAsked::Bad,
    }
}

// A word, a name, and what follows the space behind it.
fn about(word: &[u8], name: &[u8], rest: &[u8], bytes: &mut Block) -> VolAsked
    ensures { line_with result bytes.new ≡ named_line word.now name.now rest.now }
{
    match Name::new(name) {
        Some(name) => named_task(word, name, rest, bytes),
        None => VolAsked::Bad,
    }
}

fn named_task(word: &[u8], name: Name, rest: &[u8], bytes: &mut Block) -> VolAsked
    ensures { line_with result bytes.new ≡ asked_of word.now (word_of name) rest.now }
{
    match word {
        b"r" => read_task(name, number(rest)),
        b"w" => write_task(name, pair(rest, bytes)),
        _ => create_asked(word, name, rest),
    }
}

fn create_asked(word: &[u8], name: Name, rest: &[u8]) -> VolAsked
    ensures { (b : BlockType) → line_with result b ≡ create_line word.now (word_of name) rest.now }
{
    if word == b"create".as_slice() {
        create_task(name, number(rest))
    } else {
        VolAsked::Bad
    }
}

fn create_task(name: Name, extents: Option<u32>) -> VolAsked
    ensures { (b : BlockType) → line_with result b ≡ create_with (word_of name) extents }
{
    match extents {
        Some(extents) => VolAsked::Create { name, extents },
        None => VolAsked::Bad,
    }
}

fn read_task(name: Name, block: Option<u32>) -> VolAsked
    ensures { (b : BlockType) → line_with result b ≡ read_with (word_of name) block }
{
    match block {
        Some(block) => VolAsked::Read { name, block },
        None => VolAsked::Bad,
    }
}

fn write_task(name: Name, block: Option<BlockNo>) -> VolAsked
    ensures { (b : BlockType) → line_with result b ≡ write_with (word_of name) (pair_in block b) }
{
    match block {
        Some(block) => VolAsked::Write { name, block },
        None => VolAsked::Bad,
    }
}

// A number, a space and the digits of a block.
fn pair(text: &[u8], bytes: &mut Block) -> Option<BlockNo>
    ensures { pair_in result bytes.new ≡ pair_at (position is_space text.now) text.now }
{
    let Some(at) = space_in(text) else {
        return None;
    };
    let Some(number) = number(&text[..at]) else {
        return None;
    };
    if !block_from_hex(&text[at + 1..], bytes) {
        return None;
    }
    Some(number)
}
