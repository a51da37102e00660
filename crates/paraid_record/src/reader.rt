//! Reads fields one after the other from the bytes of a block.

ghost use Rattle.std.specs.Prelude.{◌≡◌, ℕ, ◌+◌, ◌*◌, ◌≤◌, ◌^◌, ◌<◌, List, ◌++◌, length, drop, slice_index};
ghost use Rattle.paraid_record.specs.Spelling.{ReadsNumber, shorts};

use byteorder::{BigEndian, ByteOrder};
use std::marker::Model;

/// The bytes that are left.
#[derive(Drop)]
pub struct Reader<'a> {
    rest: &'a [u8],
}

impl<'a> Model for Reader<'a> {
    ghost Value = { List ℕ };

    ghost view = { λ r. r.rest.now };
}

impl<'a> Reader<'a> {
    /// Reads these bytes from the first on.
    pub fn new(bytes: &'a [u8]) -> Self
        ensures { result ≡ bytes.now }
    {
        Reader { rest: bytes }
    }

    /// Takes a number of one byte.
    pub fn take_u8(&mut self) -> u8
        requires { 1 ≤ length self.old }
        ensures reads { ReadsNumber 1 self.old self.new result }
        ensures length { length self.new + 1 ≡ length self.old }
    {
        let value = self.rest[0];
        self.rest = &self.rest[1..];
        value
    }

    /// Takes a number of two bytes, the highest first.
    pub fn take_u16(&mut self) -> u16
        requires { 2 ≤ length self.old }
        ensures reads { ReadsNumber 2 self.old self.new result }
        ensures length { length self.new + 2 ≡ length self.old }
    {
        let value = BigEndian::read_u16(self.rest);
        self.rest = &self.rest[2..];
        value
    }

    /// Takes a number of four bytes, the highest first.
    pub fn take_u32(&mut self) -> u32
        requires { 4 ≤ length self.old }
        ensures reads { ReadsNumber 4 self.old self.new result }
        ensures length { length self.new + 4 ≡ length self.old }
    {
        let value = BigEndian::read_u32(self.rest);
        self.rest = &self.rest[4..];
        value
    }

    /// Takes a number of eight bytes, the highest first.
    pub fn take_u64(&mut self) -> u64
        requires { 8 ≤ length self.old }
        ensures reads { ReadsNumber 8 self.old self.new result }
        ensures length { length self.new + 8 ≡ length self.old }
    {
        let value = BigEndian::read_u64(self.rest);
        self.rest = &self.rest[8..];
        value
    }

    /// Passes over so many bytes.
    pub fn skip(&mut self, count: usize)
        requires { count ≤ length self.old }
        ensures rest { self.new ≡ drop count self.old }
        ensures length { length self.new + count ≡ length self.old }
    {
        self.rest = &self.rest[count..];
    }

    /// Takes eight bytes.
    pub fn take_eight(&mut self) -> [u8; 8]
        requires { 8 ≤ length self.old }
        ensures reads { (bytes rest : List ℕ) → length bytes ≡ 8 → self.old ≡ bytes ++ rest
            → (result ≡ bytes) × (self.new ≡ rest) }
        ensures length { length self.new + 8 ≡ length self.old }
    {
        let mut bytes = [0; 8];
        bytes.copy_from_slice(&self.rest[..8]);
        self.rest = &self.rest[8..];
        bytes
    }

    /// Fills a slice with numbers of two bytes.
    pub fn take_shorts(&mut self, into: &mut [u16])
        requires { 2 * length into.old ≤ length self.old }
        ensures reads { (xs rest : List ℕ) → length xs ≡ length into.old
            → ((k : ℕ) → slice_index xs k < 2 ^ 16) → self.old ≡ shorts xs ++ rest
            → (into.new ≡ xs) × (self.new ≡ rest) }
        ensures length { length self.new + 2 * length into.old ≡ length self.old }
    {
        for at in 0..into.len() {
            into[at] = self.take_u16();
        }
    }
}
