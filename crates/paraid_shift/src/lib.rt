//! Shifts between gears, over the calls of a core.
//!
//! A shift begins with a commit of its phase; its units are copied past the log and marked by
//! commits; it ends with a commit of the new gear, after which the disks that are not needed are
//! parked. No stop takes a write away, and a disk that is lost leaves the shift where it stands.
#![tactic(auto)]

mod begin;
mod cells;
mod ending;
mod moving;
mod stripes;
mod units;

pub use begin::{begin_down, begin_up};
pub use ending::flip;
pub use moving::{Moved, commit_staged, step, units_left};
pub use units::{cells_left, first_cell, is_done, stripes_left};
