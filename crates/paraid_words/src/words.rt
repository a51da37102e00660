//! The words of the command line, read as a command with its options.
ghost use Rattle.std.specs.Prelude.{◌≡◌, ◌↔◌, Some, map, string_bytes};
ghost use Rattle.std.specs.List.{position};
ghost use Rattle.paraid_words.specs.declared.command.Command.{Command as CommandType};
ghost use Rattle.paraid_words.specs.Commands.{both as both_of, choice_of, command_of, five_words as five_words_of, four_words as four_words_of, is_equals, joined_of, lines_choice, number_choice, one_word as one_word_of, plan_with as plan_of, both_spares, spares_choice, spares_with, three_spares as three_spares_of, two_spares as two_spares_of, wait_choice, three_options as three_options_of, three_words as three_words_of, two_words as two_words_of, ups_choice};
ghost use Rattle.paraid_words.specs.Words.{AskFor};

use crate::command::{Choice, Command};
use paraid_trace::number;

fn number_option(value: Option<u32>) -> Option<Choice>
    ensures { result ≡ number_choice value }
{
    match value {
        Some(number) => Some(Choice::Number { number }),
        None => None,
    }
}

fn lines_option(value: Option<u32>) -> Option<Choice>
    ensures { result ≡ lines_choice value }
{
    match value {
        Some(lines) if 1 <= lines && lines <= 1_000_000 => Some(Choice::Lines { lines }),
        _ => None,
    }
}

fn ups_option(value: Option<u32>) -> Option<Choice>
    ensures { result ≡ ups_choice value }
{
    match value {
        Some(ups) if ups <= 256 => Some(Choice::Ups { ups: ups as u16 }),
        _ => None,
    }
}

fn spares_option(value: Option<u32>) -> Option<Choice>
    ensures { result ≡ spares_choice value }
{
    match value {
        Some(stock) if 1 <= stock && stock <= 255 => Some(Choice::Spares { stock: stock as u8 }),
        _ => None,
    }
}

fn wait_option(value: Option<u32>) -> Option<Choice>
    ensures { result ≡ wait_choice value }
{
    match value {
        Some(ticks) if ticks <= 1_000_000 => Some(Choice::Wait { ticks }),
        _ => None,
    }
}

// The option of this name with this value.
fn choice(name: &[u8], value: &[u8]) -> Option<Choice>
    ensures { result ≡ choice_of name.now value.now }
{
    if name == b"--number".as_slice() {
        number_option(number(value))
    } else if name == b"--lines".as_slice() {
        lines_option(number(value))
    } else if name == b"--ups".as_slice() {
        ups_option(number(value))
    } else if name == b"--spares".as_slice() {
        spares_option(number(value))
    } else if name == b"--wait".as_slice() {
        wait_option(number(value))
    } else {
        None
    }
}

fn first_equals(word: &[u8]) -> Option<usize>
    ensures { result ≡ position is_equals word.now }
{
    word.iter().position(|c| *c == b'=')
}

// The option of one word, which is cut at its first `=`.
fn joined(word: &[u8]) -> Option<Choice>
    ensures { result ≡ joined_of word.now }
{
    match first_equals(word) {
        Some(at) => choice(&word[..at], &word[at + 1..]),
        None => None,
    }
}

// `gen` with two options.
fn both(first: Option<Choice>, second: Option<Choice>) -> Option<Command>
    ensures { result ≡ both_of first second }
{
    match (first, second) {
        (Some(Choice::Number { number }), Some(Choice::Lines { lines })) => {
            Some(Command::Gen { number, lines })
        }
        (Some(Choice::Lines { lines }), Some(Choice::Number { number })) => {
            Some(Command::Gen { number, lines })
        }
        _ => None,
    }
}

// `plan` with its option.
fn planned(option: Option<Choice>) -> Option<Command>
    ensures { result ≡ plan_of option }
{
    match option {
        Some(Choice::Ups { ups }) => Some(Command::Plan { ups }),
        _ => None,
    }
}

// `run` with the option of its spares.
fn spared(option: Option<Choice>) -> Option<Command>
    ensures { result ≡ spares_with option }
{
    match option {
        Some(Choice::Spares { stock }) => Some(Command::Spare { stock, wait: 0 }),
        _ => None,
    }
}

// `run` with both options.
fn spared_both(first: Option<Choice>, second: Option<Choice>) -> Option<Command>
    ensures { result ≡ both_spares first second }
{
    match (first, second) {
        (Some(Choice::Spares { stock }), Some(Choice::Wait { ticks })) => {
            Some(Command::Spare { stock, wait: ticks })
        }
        (Some(Choice::Wait { ticks }), Some(Choice::Spares { stock })) => {
            Some(Command::Spare { stock, wait: ticks })
        }
        _ => None,
    }
}

fn two_spares(first: Option<Choice>, a: &[u8], b: &[u8]) -> Option<Command>
    ensures { result ≡ two_spares_of first a.now b.now }
{
    match first {
        Some(first) => spared_both(Some(first), joined(b)),
        None => spared(choice(a, b)),
    }
}

fn three_spares(first: Option<Choice>, a: &[u8], b: &[u8], c: &[u8]) -> Option<Command>
    ensures { result ≡ three_spares_of first a.now b.now c.now }
{
    match first {
        Some(first) => spared_both(Some(first), choice(b, c)),
        None => spared_both(choice(a, b), joined(c)),
    }
}

fn one_word(a: &[u8]) -> Option<Command>
    ensures { result ≡ one_word_of a.now }
{
    if a == b"format".as_slice() {
        Some(Command::Format { force: false })
    } else if a == b"run".as_slice() {
        Some(Command::Run)
    } else if a == b"status".as_slice() {
        Some(Command::Status)
    } else if a == b"check".as_slice() {
        Some(Command::Check)
    } else if a == b"nbd".as_slice() {
        Some(Command::Nbd)
    } else if a == b"vol".as_slice() {
        Some(Command::Vol)
    } else {
        None
    }
}

fn two_words(a: &[u8], b: &[u8]) -> Option<Command>
    ensures { result ≡ two_words_of a.now b.now }
{
    if a == b"format".as_slice() && b == b"--force".as_slice() {
        Some(Command::Format { force: true })
    } else if a == b"plan".as_slice() {
        planned(joined(b))
    } else if a == b"run".as_slice() {
        spared(joined(b))
    } else {
        None
    }
}

fn three_words(a: &[u8], b: &[u8], c: &[u8]) -> Option<Command>
    ensures { result ≡ three_words_of a.now b.now c.now }
{
    if a == b"gen".as_slice() {
        both(joined(b), joined(c))
    } else if a == b"plan".as_slice() {
        planned(choice(b, c))
    } else if a == b"run".as_slice() {
        two_spares(joined(b), b, c)
    } else {
        None
    }
}

fn three_options(first: Option<Choice>, a: &[u8], b: &[u8], c: &[u8]) -> Option<Command>
    ensures { result ≡ three_options_of first a.now b.now c.now }
{
    match first {
        Some(first) => both(Some(first), choice(b, c)),
        None => both(choice(a, b), joined(c)),
    }
}

fn four_words(a: &[u8], b: &[u8], c: &[u8], d: &[u8]) -> Option<Command>
    ensures { result ≡ four_words_of a.now b.now c.now d.now }
{
    if a == b"gen".as_slice() {
        three_options(joined(b), b, c, d)
    } else if a == b"run".as_slice() {
        three_spares(joined(b), b, c, d)
    } else {
        None
    }
}

fn five_words(a: &[u8], b: &[u8], c: &[u8], d: &[u8], e: &[u8]) -> Option<Command>
    ensures { result ≡ five_words_of a.now b.now c.now d.now e.now }
{
    if a == b"gen".as_slice() {
        both(choice(b, c), choice(d, e))
    } else if a == b"run".as_slice() {
        spared_both(choice(b, c), choice(d, e))
    } else {
        None
    }
}

fn command(words: &Vec<String>) -> Option<Command>
    ensures { result ≡ command_of (map string_bytes words.now.items) }
{
    match words.len() {
        1 => one_word(words[0].as_bytes()),
        2 => two_words(words[0].as_bytes(), words[1].as_bytes()),
        3 => three_words(
            words[0].as_bytes(),
            words[1].as_bytes(),
            words[2].as_bytes(),
        ),
        4 => four_words(
            words[0].as_bytes(),
            words[1].as_bytes(),
            words[2].as_bytes(),
            words[3].as_bytes(),
        ),
        5 => five_words(
            words[0].as_bytes(),
            words[1].as_bytes(),
            words[2].as_bytes(),
            words[3].as_bytes(),
            words[4].as_bytes(),
        ),
        _ => None,
    }
}

/// The command that the words ask for, and nothing where they ask for none.
pub fn read_words(words: &Vec<String>) -> Option<Command>
    ensures exact { (c : CommandType)
        → (result ≡ Some c) ↔ AskFor c (map string_bytes words.now.items) }
{
    command(words)
}
