//! Texts of the script, and of the configuration.

use std::alloc::Global;

// The configuration as it is by default: five disks and five rows.
const DEFAULT: &str =
    "disks = 5\nrows = 5\ngears = [4, 5]\nmode = \"whole\"\nrate = 1\nservice = 100\n\
    up = 80\ndown = 60\nwindows = [1000]\nration = 100\nspinning_mj = 9000\nparked_mj = 900\n\
    spinup_mj = 60000\n";

/// The first word, and what follows it.
pub fn first_word(text: &str) -> (&str, &str) {
    text.split_once(' ').unwrap_or((text, ""))
}

/// The first word as a number, the largest where it is none, and what follows it.
pub fn first_number(text: &str) -> (u32, &str) {
    let (word, rest) = first_word(text);
    (word.parse::<u32>().unwrap_or(u32::MAX), rest)
}

/// The first word as a small number, the largest where it is none, and what follows it.
pub fn first_byte(text: &str) -> (u8, &str) {
    let (number, rest) = first_number(text);
    (u8::try_from(number).unwrap_or(u8::MAX), rest)
}

/// Whether it is one of these words.
pub fn is_any(word: &str, words: &str) -> bool {
    for other in words.split_whitespace() {
        if other == word {
            return true;
        }
    }
    false
}

/// Bytes by their numbers.
pub fn bytes_of(alloc: Global, text: &str) -> Option<Vec<u8>> {
    let mut bytes = Vec::new(alloc);
    for word in text.split_whitespace() {
        bytes.push(first_byte(word).0).ok()?;
    }
    Some(bytes)
}

// The value of a hexadecimal digit.
fn digit(byte: u8) -> Option<u8> {
    match byte {
        b'0'..=b'9' => Some(byte - b'0'),
        b'a'..=b'f' => Some(byte - b'a' + 10),
        _ => None,
    }
}

// Adds the bytes of a word of hexadecimal digits.
fn add_bytes(bytes: &mut Vec<u8>, word: &str) -> Option<()> {
    let mut high = None;
    for byte in word.as_bytes().iter() {
        let value = digit(*byte)?;
        match high {
            Some(first) => {
                bytes.push(first << 4 | value).ok()?;
                high = None;
            }
            None => high = Some(value),
        }
    }
    Some(())
}

/// Bytes by words of their hexadecimal digits, two for each byte.
pub fn bytes_by_digits(alloc: Global, text: &str) -> Option<Vec<u8>> {
    let mut bytes = Vec::new(alloc);
    for word in text.split_whitespace() {
        add_bytes(&mut bytes, word)?;
    }
    Some(bytes)
}

/// A line of the hexadecimal digits of bytes, or no line where there is none.
pub fn digits_of(alloc: Global, bytes: &[u8]) -> Option<String> {
    let mut digits = String::new(alloc);
    for byte in bytes.iter() {
        let two = format!(in alloc; "{byte:02x}").ok()?;
        digits.push_str(two.as_str()).ok()?;
    }
    if !digits.as_str().is_empty() {
        digits.push('\n').ok()?;
    }
    Some(digits)
}

/// Adds a line to a text.
pub fn add_line(text: &mut String, line: &str) -> Option<()> {
    text.push_str(line).ok()?;
    text.push('\n').ok()
}

/// Adds a word to a text, with a space between it and another.
pub fn add_word(text: &mut String, word: &str) -> Option<()> {
    if !text.as_str().is_empty() {
        text.push(' ').ok()?;
    }
    text.push_str(word).ok()
}

/// The lines of a trace.
pub fn trace_of(alloc: Global, text: &str) -> Option<String> {
    let mut trace = String::new(alloc);
    if text.is_empty() {
        return Some(trace);
    }
    for line in text.split("; ") {
        add_line(&mut trace, line)?;
    }
    Some(trace)
}

/// The lines of a trace but the last.
pub fn trace_before(alloc: Global, text: &str) -> Option<String> {
    let mut trace = String::new(alloc);
    let mut last = None;
    for line in text.split("; ") {
        if let Some(before) = last {
            add_line(&mut trace, before)?;
        }
        last = Some(line);
    }
    Some(trace)
}

fn key_of(line: &str) -> &str {
    match line.split_once(" = ") {
        Some((key, _value)) => key,
        None => line,
    }
}

// A configuration in which this line stands for that of this key.
fn with_line(alloc: Global, text: &str, key: &str, line: &str) -> Option<String> {
    let mut changed = String::new(alloc);
    let mut is_new = true;
    for old in text.lines() {
        if key_of(old) == key_of(key) {
            is_new = false;
            add_line(&mut changed, line)?;
        } else {
            add_line(&mut changed, old)?;
        }
    }
    if is_new {
        add_line(&mut changed, line)?;
    }
    Some(changed)
}

// A configuration of so many bytes, by empty lines at its end.
fn padded(alloc: Global, text: &str, length: u32) -> Option<String> {
    let mut longer = String::from_str(alloc, text).ok()?;
    for _ in text.len()..length as usize {
        longer.push('\n').ok()?;
    }
    Some(longer)
}

/// A configuration after the change that these words name.
pub fn configured(alloc: Global, text: &str, word: &str, rest: &str) -> Option<String> {
    match word {
        "config" => String::from_str(alloc, DEFAULT).ok(),
        "set" => with_line(alloc, text, rest, rest),
        "unset" => with_line(alloc, text, rest, ""),
        "pad" => padded(alloc, text, first_number(rest).0),
        _ => {
            let mut longer = String::from_str(alloc, text).ok()?;
            add_line(&mut longer, rest)?;
            Some(longer)
        }
    }
}
