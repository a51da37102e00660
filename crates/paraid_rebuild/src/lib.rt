//! The rebuild of a disk, over the calls of a core.
//!
//! A disk that is out is replaced by a fresh one; its units are copied past the log and marked by
//! commits; once all are copied it comes back by a commit. No stop takes a write away, and where
//! the fresh disk is lost again it is gone.
#![tactic(auto)]

mod ending;
mod last_tick;
mod moving;
mod replaced;
mod stepping;

pub use last_tick::finish;
pub use replaced::begin;
pub use stepping::{commit_lost, commit_staged, step};
