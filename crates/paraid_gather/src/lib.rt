//! A rack that gathers what is written to it: blocks that follow one another on a disk wait in
//! memory, and are written by one call at the disk's next sync, or before a block that does not
//! follow them.
//!
//! It stands over any rack that can write several blocks by one call. Whatever a stop leaves of
//! that rack, at any moment, is an image of the rack above it, before the call that was under way
//! or after.
#![tactic(auto)]

mod bulk;
mod calls;
mod gathered;
mod laws;
mod noted;
mod run;

pub use bulk::BulkRack;
pub use gathered::{Finished, Gathered};
pub use laws::{
    a_gathered_rack_powers_as_above, a_stop_between_groups, a_stop_leaves_an_image,
    a_stop_of_a_gathered_rack_is_a_stop_above, a_stop_within_a_group, finish_keeps_a_synced_disk,
    finish_of_synced_disks_notes_nothing,
};
pub use noted::{Noted, Unnoted};
