//! The statuses that a command ends with.

/// All was done.
pub const DONE: u8 = 0;

/// The words are not those of a command.
pub const WORDS: u8 = 2;

/// The source has failed.
pub const SOURCE: u8 = 3;

/// The sink has failed.
pub const SINK: u8 = 4;

/// Two disks are down.
pub const TWO: u8 = 5;

/// The disks in the slots make no array.
pub const NOT_AN_ARRAY: u8 = 6;

/// There was no memory.
pub const NO_MEMORY: u8 = 7;

/// The configuration is refused.
pub const CONFIG: u8 = 8;

/// The disks belong to an array already.
pub const ALREADY_FORMATTED: u8 = 9;

/// All that may be taken of a source was taken, and no whole line is left.
pub const TOO_LONG: u8 = 10;

/// A disk has failed while an array was made, or there is no slot for it.
pub const DISK: u8 = 11;

/// 2^62 commits or writes were made.
pub const WORN: u8 = 12;

/// A count of `check` is not 0.
pub const FOUND: u8 = 13;

/// A client of the network block service has broken the protocol.
pub const PROTOCOL: u8 = 14;

/// A line of the source is none of a demand.
pub const DEMAND: u8 = 15;

/// Another command works in the folder, an image is in use, or the folder cannot be opened.
pub const BUSY: u8 = 16;
