//! The events of a session: what each call of a core promises is what a session asks of an event.
#![tactic(auto)]

mod asked;
mod begins;
mod calls;
mod cleaned;
mod ends;
mod fails;
mod first;
mod given;
mod hindered;
mod idle;
mod lost;
mod marking;
mod marks_in_memory;
mod moving;
mod point;
mod powered;
mod quiet;
mod rebuilds;
mod replaces;
mod room;
mod served;
mod shown;
mod states;
mod steps;
mod taken;
mod ticked;
mod turning;
mod underway;
mod upshift;
mod written;

pub use asked::{a_lost_disk_hinders_an_asked_shift, an_asked_shift_begins_in_steps};
pub use begins::{a_second_loss_ends_a_shift, a_shift_down_begins};
pub use calls::{calls_of_a_core_keep_a_session, parts_of_an_event_follow_each_other};
pub use cleaned::a_read_cleans_its_cell;
pub use ends::{
    a_disk_is_lost_as_its_rebuild_ends, a_second_loss_ends_the_last_tick_of_a_rebuild,
    a_tick_ends_a_rebuild,
};
pub use fails::a_disk_is_taken_out;
pub use first::a_service_begins_at_the_first_point;
pub use given::{a_core_loses_in_an_event, a_core_marks_what_is_told, a_core_serves_an_event};
pub use hindered::a_lost_disk_hinders_an_event;
pub use idle::{a_halt_is_the_last_answer, a_tick_has_nothing_to_do};
pub use lost::a_second_loss_ends_the_service;
pub use marking::{
    a_mark_is_committed, a_shown_meta_is_that_of_the_shift, marks_are_a_step, powers_are_a_step,
};
pub use marks_in_memory::marks_of_a_shift_are_in_memory;
pub use moving::{
    a_tick_begins_a_shift_down_in_steps, a_tick_begins_a_shift_up, a_tick_moves_a_shift,
};
pub use point::a_core_stands_at_a_mark;
pub use powered::{a_core_powers_disks_in_an_event, powered_disks_keep_a_session};
pub use quiet::{
    a_disk_is_refused, a_missing_block_is_refused, a_shift_is_refused, a_worn_array_takes_no_more,
};
pub use rebuilds::{a_second_loss_ends_a_tick_that_rebuilds, a_tick_moves_units_of_a_rebuild};
pub use replaces::{a_disk_is_replaced, a_second_loss_ends_a_replacement};
pub use room::the_commits_of_a_tick_fit;
pub use served::{
    a_flush_is_answered, a_question_leaves_an_array_as_it_is, a_read_is_answered,
    a_write_is_answered,
};
pub use shown::{
    a_core_loses_where_its_meta_is_shown, a_core_powers_where_its_meta_is_shown,
    a_core_serves_where_its_meta_is_shown,
};
pub use states::a_marked_service_goes_to_its_state;
pub use steps::{one_part_is_a_step, steps_follow_each_other};
pub use taken::a_second_disk_is_lost_as_one_is_taken_out;
pub use ticked::{a_second_loss_ends_a_tick_that_begins, a_tick_begins_a_shift_down};
pub use turning::a_shift_begins_and_ends_in_steps;
pub use underway::an_event_is_underway;
pub use upshift::{a_second_loss_ends_a_shift_up, a_shift_up_begins};
pub use written::a_write_marks_its_cells;
