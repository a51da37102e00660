//! What is sent at once: its fields, one after the other.
ghost use Rattle.std.specs.Prelude.{◌≡◌, ℕ, ◌+◌, ◌≤◌, List, [], ◌++◌, length, take};
ghost use Rattle.paraid_nbd.specs.Numbers.{number_bytes};

use byteorder::{BigEndian, ByteOrder};
use std::marker::Model;

/// The most bytes that are sent at once, but for a long read: its head, and then what was read.
pub(crate) const CAPACITY: usize = 8208;

/// The bytes written so far, at most 8,208.
#[derive(Drop)]
pub(crate) struct Packet {
    bytes: [u8; CAPACITY],
    at: usize,
}

impl Model for Packet {
    ghost Value = { List ℕ };

    ghost view = { λ p. take p.at p.bytes };

    ghost invariant = { λ p. (p.at ≤ 8208) × (length p.bytes ≡ 8208) };
}

impl Packet {
    pub(crate) fn new() -> Self
        ensures { result ≡ [] }
    {
        Packet {
            bytes: [0; CAPACITY],
            at: 0,
        }
    }

    pub(crate) fn put_bytes(&mut self, bytes: &[u8])
        requires { length self.old + length bytes.now ≤ 8208 }
        ensures value { self.new ≡ self.old ++ bytes.now }
        ensures length { length self.new ≡ length self.old + length bytes.now }
    {
        let end = self.at + bytes.len();
        self.bytes[self.at..end].copy_from_slice(bytes);
        self.at = end;
    }

    #[tactic(auto, unfolding(crate::specs::Numbers::number_bytes))]
    pub(crate) fn put_u16(&mut self, value: u16)
        requires { length self.old + 2 ≤ 8208 }
        ensures value { self.new ≡ self.old ++ number_bytes 2 value }
        ensures length { length self.new ≡ length self.old + 2 }
    {
        let mut bytes = [0; 2];
        BigEndian::write_u16(&mut bytes, value);
        self.put_bytes(&bytes);
    }

    #[tactic(auto, unfolding(crate::specs::Numbers::number_bytes))]
    pub(crate) fn put_u32(&mut self, value: u32)
        requires { length self.old + 4 ≤ 8208 }
        ensures value { self.new ≡ self.old ++ number_bytes 4 value }
        ensures length { length self.new ≡ length self.old + 4 }
    {
        let mut bytes = [0; 4];
        BigEndian::write_u32(&mut bytes, value);
        self.put_bytes(&bytes);
    }

    #[tactic(auto, unfolding(crate::specs::Numbers::number_bytes))]
    pub(crate) fn put_u64(&mut self, value: u64)
        requires { length self.old + 8 ≤ 8208 }
        ensures value { self.new ≡ self.old ++ number_bytes 8 value }
        ensures length { length self.new ≡ length self.old + 8 }
    {
        let mut bytes = [0; 8];
        BigEndian::write_u64(&mut bytes, value);
        self.put_bytes(&bytes);
    }

    /// The bytes written.
    pub(crate) fn as_slice(&self) -> &[u8]
        ensures { result.now ≡ self.now }
    {
        &self.bytes[..self.at]
    }
}
