//! A line is read as the event that it asks for.
ghost use Rattle.std.specs.Prelude.{◌≡◌, ◌≢◌, ℕ, ◌<◌, ◌≤◌, ◌^◌, length, get_or, IfSome};
ghost use Rattle.std.specs.Option.{SomeIff};
ghost use Rattle.std.specs.Char.{digit_value};
ghost use Rattle.std.specs.Str.Parse.{IsNumeral, digits_value};
ghost use Rattle.std.specs.List.{position, position_or_len};
ghost use Rattle.paraid_base.specs.declared.event.Event.{Event as EventType};
ghost use Rattle.paraid_base.specs.declared.event.Event.TheVariants.{Bad};
ghost use Rattle.paraid_base.specs.declared.pairs.Pairs.{Pairs as PairsType};
ghost use Rattle.paraid_base.specs.Xor.{zero_block};
ghost use Rattle.paraid_trace.specs.Grammar.{IsLineOf};
ghost use Rattle.paraid_trace.specs.LineEvents.{entry_of, event_of, fail_of, group_of, is_space, named_event as event_of_name, number_of, read_of, replace_event as event_of_replace, replace_of, word_event as event_of_word, write_of};
ghost use Rattle.paraid_trace.specs.Asked.{event_with, group_in};

use crate::Asked;
use crate::hexes::block;
use memchr::memchr;
use paraid_base::{Block, BlockNo, Event, Pairs};

/// The most bytes of a line that asks for something.
const MAX_LINE: usize = 1100;

/// What a line of the trace asks for, and `Bad` where it asks for nothing. The line comes without
/// its newline. A line of more than 1,100 bytes asks for nothing.
///
/// The pairs of a write are kept in `pairs`; where the line asks for no write they may be any.
pub fn read_line(line: &[u8], pairs: &mut Pairs) -> Asked
    ensures value { event_with result pairs.new ≡ event_of line.now }
    ensures event { event_with result pairs.new ≢ Bad
        → IsLineOf line.now (event_with result pairs.new) }
    ensures only { (e : EventType) → IsLineOf line.now e → event_with result pairs.new ≡ e }
    ensures long { 1100 < length line.now → event_with result pairs.new ≡ Bad }
    ensures bad { event_with result pairs.new ≡ Bad → (e : EventType) → IsLineOf line.now e → ⊥ }
{
    asked(line, pairs)
}

#[tactic(auto, unfolding(crate::specs::LineEvents::event_of))]
fn asked(line: &[u8], pairs: &mut Pairs) -> Asked
    ensures { event_with result pairs.new ≡ event_of line.now }
{
    if line.len() > MAX_LINE {
        return Asked::Bad;
    }
    match first_space(line) {
        Some(at) => named(&line[..at], &line[at + 1..], pairs),
        None => word(line),
    }
}

fn first_space(text: &[u8]) -> Option<usize>
    ensures { result ≡ position is_space text.now }
{
    text.iter().position(|c| *c == b' ')
}

// The place of the first space, or of the end, of a text that may be long.
fn until_space(text: &[u8]) -> usize
    ensures value { result ≡ position_or_len is_space text.now }
    ensures within { result ≤ length text.now }
{
    match memchr(b' ', text) {
        Some(at) => at,
        None => text.len(),
    }
}

// A line of one word.
fn word(word: &[u8]) -> Asked
    ensures { (p : PairsType) → event_with result p ≡ event_of_word word.now }
{
    match word {
        b"f" => Asked::Flush,
        b"t" => Asked::Tick,
        b"up" => Asked::Up,
        b"down" => Asked::Down,
        b"s" => Asked::State,
        b"e" => Asked::Energy,
        _ => Asked::Bad,
    }
}

// A line of a word and what follows its space.
fn named(word: &[u8], rest: &[u8], pairs: &mut Pairs) -> Asked
    ensures { event_with result pairs.new ≡ event_of_name word.now rest.now }
{
    match word {
        b"r" => read(number(rest)),
        b"w" => write(rest, pairs),
        b"fail" => fail(number(rest)),
        _ => replace_named(word, rest),
    }
}

fn replace_named(word: &[u8], rest: &[u8]) -> Asked
    ensures { (p : PairsType) → event_with result p ≡ event_of_replace word.now rest.now }
{
    if word == b"replace".as_slice() {
        replace(number(rest))
    } else {
        Asked::Bad
    }
}

fn read(block: Option<u32>) -> Asked
    ensures { (p : PairsType) → event_with result p ≡ read_of block }
{
    match block {
        Some(block) => Asked::Read { block },
        None => Asked::Bad,
    }
}

fn fail(disk: Option<u32>) -> Asked
    ensures { (p : PairsType) → event_with result p ≡ fail_of disk }
{
    match disk {
        Some(disk) => Asked::Fail { disk },
        None => Asked::Bad,
    }
}

fn replace(disk: Option<u32>) -> Asked
    ensures { (p : PairsType) → event_with result p ≡ replace_of disk }
{
    match disk {
        Some(disk) => Asked::Replace { disk },
        None => Asked::Bad,
    }
}

// One to eight groups of a number, a space and hexadecimal digits, with a space between them.
fn write(text: &[u8], pairs: &mut Pairs) -> Asked
    ensures { event_with result pairs.new ≡ write_of (entry_of 8 text.now) }
{
    let Some((block, end)) = first_group(text, &mut pairs.bytes) else {
        return Asked::Bad;
    };
    pairs.keep_first(block);
    let mut end = end;
    while end < text.len() {
        if pairs.is_full() {
            return Asked::Bad;
        }
        let mut bytes = Block::zero();
        let Some((block, length)) = group(&text[end + 1..], &mut bytes) else {
            return Asked::Bad;
        };
        pairs.add(block, &bytes);
        end += 1 + length;
    }
    Asked::Write
}

// Reads the first group of a text as `group` does, and keeps its bytes as the first of `bytes`.
fn first_group(text: &[u8], bytes: &mut [Block; 8]) -> Option<(BlockNo, usize)>
    ensures group { group_of text.now ≡ group_in result (get_or bytes.new 0 zero_block) }
    ensures within { IfSome result (λ found. found.1 ≤ length text.now) }
    ensures whole { length bytes.new ≡ length bytes.old }
    ensures rest { (k : ℕ) → 1 ≤ k → get_or bytes.new k zero_block ≡ get_or bytes.old k zero_block }
{
    group(text, &mut bytes[0])
}

// Reads the first group of a text: its block and the place behind it. Its bytes are kept in
// `bytes`.
#[tactic(auto, unfolding(crate::specs::LineEvents::group_of))]
fn group(text: &[u8], bytes: &mut Block) -> Option<(BlockNo, usize)>
    ensures group { group_of text.now ≡ group_in result bytes.new }
    ensures within { IfSome result (λ found. found.1 ≤ length text.now) }
{
    let Some(at) = first_space(text) else {
        return None;
    };
    let digits = &text[at + 1..];
    let length = until_space(digits);
    let Some(number) = number(&text[..at]) else {
        return None;
    };
    if !block(&digits[..length], bytes) {
        return None;
    }
    Some((number, at + 1 + length))
}

/// A number below 2^32 in decimal digits, with no zero before another digit.
pub fn number(digits: &[u8]) -> Option<u32>
    ensures { result ≡ number_of digits.now }
{
    if digits.len() > 1 && digits[0] == b'0' {
        return None;
    }
    value(digits)
}

// The number that one or more digits write, if it is below 2^32.
fn value(digits: &[u8]) -> Option<u32>
    ensures { SomeIff result
        (IsNumeral 10 digits.now × (digits_value 10 digits.now < 2 ^ 32))
        (digits_value 10 digits.now) }
{
    if digits.is_empty() {
        return None;
    }
    let mut number: u32 = 0;
    for c in digits {
        let digit = digit(*c)?;
        number = number.checked_mul(10)?.checked_add(digit)?;
    }
    Some(number)
}

fn digit(c: u8) -> Option<u32>
    ensures { SomeIff result (digit_value c < 10) (digit_value c) }
{
    match c {
        b'0'..=b'9' => Some(u32::from(c - b'0')),
        _ => None,
    }
}
