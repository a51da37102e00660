//! Makes an array of the disks of a rack, and mounts it: from the disks that a rack brings to an
//! array that can be served.
//!
//! `format` leaves the disks of an array that holds no write. `examine` reads both log disks whole,
//! chooses the one that stands and tests what refuses a mount. `mount` then ends a commit that a
//! stop broke off, reads the dirty map, syncs all disks, marks one that is absent and powers the
//! others by the gear. Each moment of a mount holds what was held, whichever one disk fails; the
//! laws say so of each step, and that a mount is what a session asks of one.
#![tactic(auto)]

mod alike;
mod asleep;
mod attach;
mod choosing;
mod examining;
mod format_fault;
mod found;
mod hearing;
mod lacking;
mod laws_of_mounts;
mod laws_of_reads;
mod laws_of_recovery;
mod laws_of_refusals;
mod log;
mod making;
mod malformed;
mod map;
mod marking;
mod mount_fault;
mod mounting;
mod pairing;
mod powering;
mod reads;
mod recovery;
mod refusal;
mod side_refusals;
mod sides;
mod sizes;
mod standing;
mod starting;
mod wear;
mod witness;

pub use asleep::first_asleep;
pub use choosing::choose;
pub use examining::{examine, refusal_by_slots};
pub use format_fault::FormatFault;
pub use found::greatest_epoch;
pub use hearing::{Heard, hear};
pub use lacking::two_missing;
pub use laws_of_mounts::{
    a_fallback_was_foreseen, a_mount_ends_at_a_mark, a_mount_is_told_from_where_it_began,
    a_mount_is_what_a_session_asks, a_mount_with_a_loss_begins_with_the_state_after_it,
    a_mount_without_a_log_disk_begins_with_the_state_left,
    a_quiet_mount_begins_with_the_state_shown, a_recovery_spins_no_disk_up,
    a_run_begins_with_a_base, calls_of_a_mount_are_allowed, failed_calls_bring_down_what_is_absent,
    one_meta_stands_at_rest, powers_keep_to_what_is_recorded, reads_hold_what_was_held,
    reads_keep_the_setup, what_is_foreseen_is_within_bounds,
};
pub use laws_of_reads::{reads_leave_the_images, reads_leave_what_is_held};
pub use laws_of_recovery::{
    a_disk_can_be_parked_at_rest, a_recovery_leaves_what_is_held, an_array_at_rest_was_left_whole,
    power_calls_keep_a_rest, reads_leave_what_can_be_recovered,
};
pub use laws_of_refusals::{
    a_mount_is_refused_by_one_cause, a_mount_is_refused_or_goes_on,
    what_is_held_is_refused_for_wear,
};
pub use making::{first_meta, format};
pub use malformed::{first_faulty, is_unformatted};
pub use map::read_map;
pub use marking::{mark, marked};
pub use mount_fault::MountFault;
pub use mounting::{MountRefused, Mounted};
pub use powering::power_disks;
pub use recovery::mark_out;
pub use refusal::refusal_by_meta;
pub use side_refusals::refusal_by_sides;
pub use sides::{Sides, hear_both, hear_if_there};
pub use sizes::first_small;
pub use standing::Standing;
pub use starting::mount;
pub use wear::worn_count;
pub use witness::heed;
