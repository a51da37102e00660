//! All disks of an array as one device, because a stop strikes them at one moment.
//!
//! The trait `Rack` says what each call needs and does, in terms of what is always told of a slot
//! and of an optional record of all calls. What a stop at a moment may leave is defined over
//! that record, in `specs/Disks.antt`.
#![tactic(auto)]

mod call;
mod rack;

pub use call::{Call, Power};
pub use rack::{MOST_SLOTS, Rack};
