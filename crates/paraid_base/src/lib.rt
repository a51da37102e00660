//! What every crate of the array speaks of: blocks and their XOR, the geometry of an array, its
//! states, events and answers, and faults.
//!
//! Its definitions stand in `specs/`: the history of writes, the home of a block, the copy
//! of a cell, and what an object of the outside tells.
#![tactic(auto)]

mod block;
mod event;
mod fault;
mod geometry;
mod laws;
mod log;
mod pairs;
mod state;

pub use block::{BLOCK_SIZE, Block};
pub use event::{Answer, Event};
pub use fault::{BlockFault, Failed, Halt, NoMemory, Two};
pub use geometry::{GeoFault, Geometry};
pub use laws::{log_lies_before_map, pairs_decide_a_value};
pub use log::{
    BATCH_META, BATCH_ROOM, FIRST_BODY, FIRST_LIST, GATE, LOG_LAST, MAP_START, META, WITNESS_DISK,
    WORN_AT,
};
pub use pairs::Pairs;
pub use state::{GearReport, Out, Phase, Status, TickEvent};

/// The number of a disk, from 0. It is also the number of its slot in a rack.
pub type DiskNo = u8;

/// The number of a block on a disk, from 0.
pub type Place = u32;

/// The number of a RAID-5 row, from 0.
pub type Row = u32;

/// The number of a block of the array, from 0.
pub type BlockNo = u32;
