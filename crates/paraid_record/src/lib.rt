//! The records of an array's log: the meta, which holds the setup and the state of an array, and
//! the list of targets of a batch.
//!
//! A value in range has one spelling of 512 bytes. Writing gives that spelling, and reading
//! answers exactly for the spellings of values in range, with the value that was spelled.
#![tactic(auto)]

mod codes;
mod laws;
mod meta;
mod pen;
mod range;
mod read;
mod reader;
mod targets;
mod write;

pub use laws::spellings_differ;
pub use meta::{Meta, Mode, Setup};
pub use range::rebuild_units;
pub use read::read_meta;
pub use targets::{Target, Targets, read_targets, write_targets};
pub use write::write_meta;
