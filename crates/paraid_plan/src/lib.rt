//! What writes, copies and marks make of what the disks store, in every gear, phase and state of a
//! rebuild: the disks are kept well, and hold the blocks that they should.
//!
//! `write_blocks` plans a write over anything that can be read and staged to, a `WritePlan`. The
//! laws speak of no history: which blocks are held before and after is all that they say.
#![tactic(auto)]

mod alone;
mod blocks;
mod cell;
mod desk;
mod given;
mod laws;
mod marks;
mod read;
mod rule;
mod write;

pub use cell::write_cell;
pub use desk::{PlanLost, WritePlan};
pub use laws::{
    a_cleaned_cell_keeps_the_disks_well, a_lost_disk_is_marked_out, kept_places_alone_tell,
    what_is_kept_well_is_stored, what_is_stored_is_kept_well,
};
pub use write::write_blocks;
