//! Named volumes on a block device.
//!
//! The device is cut into extents, and a volume is some of them in ascending order. Six blocks
//! say which names there are and who owns which extent. A stop leaves them as they were before a
//! call that changes them, or as they are after it.
#![tactic(auto)]

mod device;
mod fault;
mod head;
mod laws;
mod name;
mod size;
mod table;
mod volumes;

pub use fault::{VolFault, VolRefused};
pub use laws::{
    a_created_volume_reads_zeros, a_stop_leaves_a_first_part_of_the_calls,
    a_volume_answers_by_its_own_calls, calls_on_other_volumes_leave_a_volume,
};
pub use name::Name;
pub use size::{extent_count, extent_size};
pub use volumes::Volumes;
