//! Hexadecimal digits are read as the block that repeats their bytes.
ghost use Rattle.std.specs.Prelude.{◌≡◌, ◌/◌, ◌*◌, ◌<◌, ◌≤◌, length, replicate, take, Ok, None, IsErr, unwrap_or};
ghost use Rattle.hex.specs.Hex.{decode_pairs, hex_digit_value};
ghost use Rattle.paraid_trace.specs.LineEvents.{block_from_digits};
ghost use Rattle.paraid_trace.specs.Asked.{if_read};
ghost use Rattle.paraid_trace.specs.Repeats.{repeating_block as repetition_of};

use paraid_base::{BLOCK_SIZE, Block};

/// Reads 2 to 1,024 hexadecimal digits, an even number of them, as a block, and says whether they
/// are such digits. After a refusal `into` is as before.
pub fn block(digits: &[u8], into: &mut Block) -> bool
    ensures { block_from_digits digits.now ≡ if_read result into.new }
{
    if digits.len() == 2 {
        return one_byte(digits, into);
    }
    if digits.len() < 2 {
        return false;
    }
    if digits.len() > 2 * BLOCK_SIZE {
        return false;
    }
    let length = digits.len() / 2;
    let mut bytes = [0; BLOCK_SIZE];
    if !decoded(digits, &mut bytes[..length]) {
        return false;
    }
    repeat(&mut bytes, length);
    into.bytes = bytes;
    true
}

// Reads two digits as the byte that the block repeats.
fn one_byte(digits: &[u8], into: &mut Block) -> bool
    requires { length digits.now ≡ 2 }
    ensures { block_from_digits digits.now ≡ if_read result into.new }
{
    let mut pattern = [0; 1];
    if !decoded(digits, &mut pattern) {
        return false;
    }
    fill_with(into, pattern[0]);
    true
}

// Gives each place of the block this byte.
fn fill_with(into: &mut Block, byte: u8)
    ensures { into.new.bytes ≡ replicate 512 byte }
{
    into.bytes = [byte; BLOCK_SIZE];
}

// Reads the digits as the bytes that the block repeats.
fn decoded(digits: &[u8], room: &mut [u8]) -> bool
    requires low { 2 ≤ length digits.now }
    requires high { length digits.now ≤ 1024 }
    requires half { length room.old ≡ length digits.now / 2 }
    ensures value { block_from_digits digits.now ≡ if_read result (repetition_of room.new) }
    ensures length { length room.new ≡ length digits.now / 2 }
{
    if digits.len() % 2 == 1 {
        return false;
    }
    greatest(digits, room) < 16
}

// Reads pairs of digits as bytes, and gives the greatest of their values, which is above 15 where
// one of them is no digit. It looks at each, so that many are read at once.
fn greatest(digits: &[u8], room: &mut [u8]) -> u8
    requires { length digits.now ≡ 2 * length room.old }
    ensures length { length room.new ≡ length room.old }
    ensures read { result < 16 → decode_pairs 0 digits.now ≡ Ok room.new }
    ensures refused { 16 ≤ result → IsErr (decode_pairs 0 digits.now) }
{
    let mut greatest: u8 = 0;
    for i in 0..room.len() {
        let high = digit(digits[2 * i]);
        let low = digit(digits[2 * i + 1]);
        greatest = greatest.max(high.max(low));
        room[i] = (high & 15) * 16 + (low & 15);
    }
    greatest
}

// The value of a digit, or 255.
fn digit(c: u8) -> u8
    ensures value { result ≡ unwrap_or (hex_digit_value c) 255 }
    ensures none { 16 ≤ result → hex_digit_value c ≡ None }
{
    match c {
        b'A'..=b'F' => c - b'A' + 10,
        b'a'..=b'f' => c - b'a' + 10,
        b'0'..=b'9' => c - b'0',
        _ => 255,
    }
}

/// The block that repeats 1 to 512 bytes.
pub fn repeated(pattern: &[u8]) -> Block
    requires some { 0 < length pattern.now }
    requires within { length pattern.now ≤ 512 }
    ensures { result ≡ repetition_of pattern.now }
{
    let mut bytes = [0; BLOCK_SIZE];
    bytes[..pattern.len()].copy_from_slice(pattern);
    repeat(&mut bytes, pattern.len());
    Block::from_array(bytes)
}

// Repeats the first bytes up to the end. Each step copies all that is there behind itself, so that
// it takes at most eight copies, and none for one byte.
fn repeat(bytes: &mut [u8; BLOCK_SIZE], length: usize)
    requires some { 0 < length }
    requires within { length ≤ 512 }
    ensures { bytes.new ≡ (repetition_of (take length bytes.old)).bytes }
{
    if length == 1 {
        *bytes = [bytes[0]; BLOCK_SIZE];
        return;
    }
    let mut done = length;
    while done < BLOCK_SIZE {
        let more = done.min(BLOCK_SIZE - done);
        bytes.copy_within(..more, done);
        done += more;
    }
}
