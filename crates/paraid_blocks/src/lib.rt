//! A block device whose calls lead from one state of it to the next: what was asked of it, and how
//! it answered, is told between any two of its states.
#![tactic(auto)]

mod blocks;

pub use blocks::Blocks;
