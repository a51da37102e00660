//! An array between two commits: what is staged over its disks, and the disk that is out.
#![tactic(auto)]

mod cells;
mod changes;
mod cleaned;
mod cleaning_read;
mod fill;
mod gather;
mod gone;
mod laws;
mod many;
mod marks;
mod park;
mod plan;
mod replace;
mod settle;
mod staged;
mod take;
mod units;
mod values;
mod write;

pub use cells::cells_are_copied_beside_stripes;
pub use changes::{Change, Changes};
pub use laws::{
    a_powered_array_can_begin, a_rest_is_stood_for, a_taken_write_is_accepted,
    an_attach_brings_no_meta, an_empty_batch_keeps_all, what_stands_stood_before,
};
pub use staged::Core;
pub use units::{RebuildUnit, units_are_copied_beside_stripes};
