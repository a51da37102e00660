//! Writes fields one after the other into a block whose rest is zeros.

ghost use Rattle.std.specs.Prelude.{◌≡◌, ℕ, ◌+◌, ◌-◌, ◌≤◌, List, [], ◌++◌, length, take, drop, replicate};
ghost use Rattle.paraid_record.specs.Spelling.{big_endian, zero_filled};

use byteorder::{BigEndian, ByteOrder};
use paraid_base::Block;
use std::marker::Model;

/// The bytes written so far, at most 512.
#[derive(Drop)]
pub struct Pen {
    bytes: [u8; 512],
    at: usize,
}

impl Model for Pen {
    ghost Value = { List ℕ };

    ghost view = { λ p. take p.at p.bytes };

    ghost invariant = { λ p. (p.at ≤ 512)
        × (length p.bytes ≡ 512) × (drop p.at p.bytes ≡ replicate (512 - p.at) 0) };
}

impl Pen {
    /// A pen that has written nothing.
    pub fn new() -> Self
        ensures { result ≡ [] }
    {
        Pen {
            bytes: [0; 512],
            at: 0,
        }
    }

    /// Writes these bytes. There must be room for them in 512.
    pub fn put_bytes(&mut self, bytes: &[u8])
        requires { length self.old + length bytes.now ≤ 512 }
        ensures value { self.new ≡ self.old ++ bytes.now }
        ensures length { length self.new ≡ length self.old + length bytes.now }
    {
        let end = self.at + bytes.len();
        self.bytes[self.at..end].copy_from_slice(bytes);
        self.at = end;
    }

    /// Writes a number in one byte.
    #[tactic(auto, using(crate::proofs::SpellingLemmas::byte_steps))]
    pub fn put_u8(&mut self, value: u8)
        requires { length self.old + 1 ≤ 512 }
        ensures value { self.new ≡ self.old ++ big_endian 1 value }
        ensures length { length self.new ≡ length self.old + 1 }
    {
        self.put_bytes(&[value]);
    }

    /// Writes a number in two bytes, the highest first.
    #[tactic(auto, unfolding(crate::specs::Spelling::big_endian))]
    pub fn put_u16(&mut self, value: u16)
        requires { length self.old + 2 ≤ 512 }
        ensures value { self.new ≡ self.old ++ big_endian 2 value }
        ensures length { length self.new ≡ length self.old + 2 }
    {
        let mut bytes = [0; 2];
        BigEndian::write_u16(&mut bytes, value);
        self.put_bytes(&bytes);
    }

    /// Writes a number in four bytes, the highest first.
    #[tactic(auto, unfolding(crate::specs::Spelling::big_endian))]
    pub fn put_u32(&mut self, value: u32)
        requires { length self.old + 4 ≤ 512 }
        ensures value { self.new ≡ self.old ++ big_endian 4 value }
        ensures length { length self.new ≡ length self.old + 4 }
    {
        let mut bytes = [0; 4];
        BigEndian::write_u32(&mut bytes, value);
        self.put_bytes(&bytes);
    }

    /// Writes a number in eight bytes, the highest first.
    #[tactic(auto, unfolding(crate::specs::Spelling::big_endian))]
    pub fn put_u64(&mut self, value: u64)
        requires { length self.old + 8 ≤ 512 }
        ensures value { self.new ≡ self.old ++ big_endian 8 value }
        ensures length { length self.new ≡ length self.old + 8 }
    {
        let mut bytes = [0; 8];
        BigEndian::write_u64(&mut bytes, value);
        self.put_bytes(&bytes);
    }

    /// The block of the bytes written, with zeros after them.
    pub fn finish(self, into: &mut Block)
        ensures { into.new.bytes ≡ zero_filled 512 self }
    {
        *into = Block::from_array(self.bytes);
    }
}
