//! What a stop may leave on the disks of an array, and what such an image stands for.
//!
//! The definitions stand in `specs/`: what a log disk says, which log disk stands, which disk is
//! out or weak, where a cell's value lives and what that value is, and which images hold a history.
//! The module `laws` says how they fit together. No code runs here.
#![tactic(auto)]

pub mod laws;
