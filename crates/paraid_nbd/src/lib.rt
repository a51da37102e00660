//! A network block service: one client of this project's profile of NBD reads and writes a block
//! device.
//!
//! What is written is what the definitions say of the bytes that were taken, in whatever pieces
//! they come. The service takes one buffer before its greeting, and no memory after it.
#![tactic(auto)]

mod ending;
mod export;
mod input;
mod options;
mod packet;
mod request;
mod serve;

pub use ending::NbdEnd;
pub use export::export_is_the_blocks_joined;
pub use options::OptionKind;
pub use request::{Command, Outcome, Request, requests_are_cut_in_one_way};
pub use serve::serve_nbd;
