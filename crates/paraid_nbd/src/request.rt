//! What a client asks of the device, and how that is answered.
ghost use Rattle.std.specs.Prelude.{◌≡◌, ◌+◌, ◌++◌, ℕ, List, length, nat_lt};
ghost use Rattle.std.specs.List.{flat_map, AllByRecursion};
ghost use Rattle.paraid_nbd.specs.Requests.{IsRequest, IsRequestRest, RequestParts, request_bytes, command_in, command_outcome, request_in, outcome_of, error_of};

use byteorder::{BigEndian, ByteOrder};

/// The number before a request.
pub(crate) const REQUEST: u32 = 0x2560_9513;

/// The number before a reply.
pub(crate) const REPLY: u32 = 0x6744_6698;

/// The most bytes that one request reads or writes.
pub(crate) const MAX_LENGTH: u32 = 33_554_432;

/// What a request asks for.
#[derive(Clone, Copy)]
pub enum Command {
    Read,
    Write,
    Disconnect,
    Flush,
    /// What this service does not know.
    Unknown,
}

/// How a request is answered.
#[derive(Clone, Copy)]
pub enum Outcome {
    /// It was done.
    Done,
    /// The device has halted.
    Halted,
    /// It cannot be asked for.
    Invalid,
    /// It writes past the end of the device.
    NoSpace,
}

/// What stands between the number before a request and the bytes to write.
#[derive(Clone, Copy)]
pub struct Request {
    pub flags: u16,
    pub command: Command,
    pub cookie: u64,
    pub offset: u64,
    pub length: u32,
}

fn command_of(number: u16) -> Command
    ensures { result ≡ command_in number }
{
    match number {
        0 => Command::Read,
        1 => Command::Write,
        2 => Command::Disconnect,
        3 => Command::Flush,
        _ => Command::Unknown,
    }
}

impl Request {
    /// The request in these 24 bytes.
    pub(crate) fn from_bytes(bytes: &[u8]) -> Self
        requires { length bytes.now ≡ 24 }
        ensures { result ≡ request_in bytes.now }
    {
        Request {
            flags: BigEndian::read_u16(bytes),
            command: command_of(BigEndian::read_u16(&bytes[2..])),
            cookie: BigEndian::read_u64(&bytes[4..]),
            offset: BigEndian::read_u64(&bytes[12..]),
            length: BigEndian::read_u32(&bytes[20..]),
        }
    }

    // Whether it ends past the end of a device of so many bytes.
    fn is_past(&self, size: u64) -> bool
        ensures { result ≡ nat_lt size (self.now.offset + self.now.length) }
    {
        self.offset > size || u64::from(self.length) > size - self.offset
    }

    fn read_outcome(&self, size: u64) -> Outcome
        ensures { result ≡ command_outcome size Command.Read self.now.offset self.now.length }
    {
        if self.length > MAX_LENGTH || self.is_past(size) {
            Outcome::Invalid
        } else {
            Outcome::Done
        }
    }

    fn write_outcome(&self, size: u64) -> Outcome
        ensures { result ≡ command_outcome size Command.Write self.now.offset self.now.length }
    {
        if self.length > MAX_LENGTH {
            Outcome::Invalid
        } else if self.is_past(size) {
            Outcome::NoSpace
        } else {
            Outcome::Done
        }
    }

    /// How it is answered by a device of so many bytes that does not halt.
    pub(crate) fn outcome(&self, size: u64) -> Outcome
        ensures { result ≡ outcome_of size self.now }
    {
        if self.flags != 0 {
            return Outcome::Invalid;
        }
        match self.command {
            Command::Read => self.read_outcome(size),
            Command::Write => self.write_outcome(size),
            Command::Unknown => Outcome::Invalid,
            Command::Disconnect | Command::Flush => Outcome::Done,
        }
    }
}

/// Bytes are cut in one way into requests and a rest.
pub fn requests_are_cut_in_one_way()
    ensures { (ps qs : List RequestParts) (r s : List ℕ) → AllByRecursion IsRequest ps
        → AllByRecursion IsRequest qs → IsRequestRest r → IsRequestRest s
        → flat_map request_bytes ps ++ r ≡ flat_map request_bytes qs ++ s
        → (ps ≡ qs) × (r ≡ s) }
{}

/// The number of an outcome.
pub(crate) fn error_number(outcome: Outcome) -> u32
    ensures { result ≡ error_of outcome }
{
    match outcome {
        Outcome::Done => 0,
        Outcome::Halted => 5,
        Outcome::Invalid => 22,
        Outcome::NoSpace => 28,
    }
}
