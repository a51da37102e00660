//! Counts what is false in an array whose writes are all committed.
//!
//! The five counts stand in `specs/Counts.antt`, over what the image stands for. A disk that is
//! lost inside ends them, and they are then those of a first part of what is looked at.
#![tactic(auto)]

mod ending;
mod fill;
mod five;
mod kind;
mod member;
mod scrub;
mod stored;
mod unit;
mod value;
mod whole;

pub use ending::Ending;
pub use five::Checked;
pub use kind::{CheckReport, Kind};
pub use stored::Stored;
pub use whole::{a_sound_array_counts_nothing, check};
