//! The table of dirty cells: those whose newest bytes stand only in the region of the gear.
//!
//! It has one bit for each row and disk. It is changed a cell at a time, counts the dirty cells of
//! some disks, gives the first of them from a cell on, and writes the blocks of the map in which a
//! log disk keeps it.
#![tactic(auto)]

mod bits;
mod search;
mod table;

pub use table::DirtyTable;
