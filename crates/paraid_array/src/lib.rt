//! The array with gears that answers the events of a session: a core, and what is counted beside
//! it; and the last step of its mount, from a rack that is mounted to an array that serves.
#![tactic(auto)]

mod array;
mod begin;
mod checking;
mod counting;
mod disks;
mod ended;
mod energy;
mod flushing;
mod mounting;
mod refusing;
mod requests;
mod serving;
mod shifting;
mod ticking;

pub use array::Array;
pub use ended::HaltedAt;
pub use mounting::mount_array;
