//! A text in a buffer of fixed size.
ghost use Rattle.std.specs.Prelude.{◌≡◌, ℕ, ◌+◌, ◌*◌, ◌<◌, ◌≤◌, List, [], ◌++◌, length, take, slice_index, decimal};
ghost use Rattle.hex.specs.Hex.{encode_lower, lower_digits};
ghost use Rattle.paraid_trace.specs.BlockTexts.{IsBlockText, block_text};

use crate::periods::period;
use itoa::Buffer;
use paraid_base::Block;
use std::marker::Model;

/// The most bytes of a text.
pub const MAX_TEXT: usize = 1200;

/// A text in a buffer of fixed size, seen as the list of its bytes.
#[derive(Drop)]
pub struct Text {
    bytes: [u8; MAX_TEXT],
    length: usize,
}

impl Model for Text {
    ghost Value = { List ℕ };

    ghost view = { λ t. take t.length t.bytes };

    ghost invariant = { λ t. (t.length ≤ 1200) };
}

impl Text {
    /// An empty text.
    pub fn new() -> Self
        ensures empty { result ≡ [] }
    {
        Text {
            bytes: [0; MAX_TEXT],
            length: 0,
        }
    }

    /// Its bytes.
    pub fn as_slice(&self) -> &[u8]
        ensures value { result.now ≡ self.now }
    {
        &self.bytes[..self.length]
    }

    /// Becomes empty.
    pub fn clear(&mut self)
        ensures empty { self.new ≡ [] }
    {
        self.length = 0;
    }

    /// Appends these bytes.
    pub fn push(&mut self, bytes: &[u8])
        requires room { length self.old + length bytes.now ≤ 1200 }
        ensures value { self.new ≡ self.old ++ bytes.now }
        ensures length { length self.new ≡ length self.old + length bytes.now }
    {
        let end = self.length + bytes.len();
        self.bytes[self.length..end].copy_from_slice(bytes);
        self.length = end;
    }

    /// Appends a number in decimal digits, which take at most 40 bytes.
    pub fn push_number(&mut self, n: u64)
        requires room { length self.old ≤ 1160 }
        ensures value { self.new ≡ self.old ++ decimal n }
        ensures length { length self.new ≤ length self.old + 40 }
    {
        let mut buffer = Buffer::new();
        self.push(buffer.format(n).as_bytes());
    }

    /// Appends bytes as pairs of hexadecimal digits in lower case.
    pub fn push_hex(&mut self, bytes: &[u8])
        requires room { length self.old + 2 * length bytes.now ≤ 1200 }
        ensures value { self.new ≡ self.old ++ encode_lower bytes.now }
        ensures length { length self.new ≡ length self.old + 2 * length bytes.now }
    {
        let end = self.length + 2 * bytes.len();
        spell(bytes, &mut self.bytes[self.length..end]);
        self.length = end;
    }

    /// Appends the text of a block, which takes at most 1,024 bytes: in lower case the shortest
    /// list of bytes whose repetition is the block.
    pub fn push_block(&mut self, block: &Block)
        requires room { length self.old ≤ 176 }
        ensures value { self.new ≡ self.old ++ block_text block.now }
        ensures text { IsBlockText (block_text block.now) block.now }
        ensures length { length self.new ≤ length self.old + 1024 }
    {
        self.push_hex(&block.as_slice()[..period(block)]);
    }
}

// Writes bytes as pairs of hexadecimal digits in lower case.
fn spell(bytes: &[u8], room: &mut [u8])
    requires { length room.old ≡ 2 * length bytes.now }
    ensures { room.new ≡ encode_lower bytes.now }
{
    for i in 0..bytes.len() {
        room[2 * i] = digit(bytes[i] / 16);
        room[2 * i + 1] = digit(bytes[i] % 16);
    }
}

// The digit of a value.
fn digit(value: u8) -> u8
    requires { value < 16 }
    ensures { result ≡ slice_index lower_digits value }
{
    if value < 10 {
        b'0' + value
    } else {
        b'a' - 10 + value
    }
}
