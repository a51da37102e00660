//! A rack in memory, which tells all: its start, each call that it lists, and so its contents.
//!
//! It fails exactly the calls that its plan names, and an attach that is larger than its room or
//! finds no memory. So a test can say at which call which disk is lost. It can be stopped at any
//! moment: the rack that this leaves begins as an image, with each loose block as a test picks it.
#![tactic(auto)]

mod list;
mod log;
mod past;
mod plan;
mod rack;
mod replay;
mod slot;
mod stop;
mod versions;

pub use list::CallList;
pub use plan::Planned;
pub use rack::MemRack;
pub use stop::Pick;
