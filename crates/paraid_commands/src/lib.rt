//! What each command does, over any source, sink and rack, and over anything that mounts an array.
//!
//! `format` reads a configuration from a source and makes an array of the disks of a rack; `status`
//! mounts one and tells its state; `run`, with and without spares, `gen`, `check`, `nbd`, `vol` and
//! `plan` mount one and answer with it. Each tells how it came out in its last line and a status.
//! All but `format`, `status` and `plan` stand over anything that mounts an array (`Outside`).
#![tactic(auto)]

mod array_state;
mod check_command;
mod counts_text;
mod fault_text;
mod format_command;
mod format_text;
mod gen_command;
mod gen_summary;
mod generated_lines;
mod laws;
mod nbd_command;
pub mod outside;
mod plan_command;
mod read;
mod refusal;
mod run_command;
mod spares_command;
mod status_command;
mod tally;
mod vol_command;

pub use check_command::check;
pub use format_command::format_array;
pub use gen_command::generate;
pub use laws::a_mounted_array_is_told_as_its_first_point;
pub use nbd_command::nbd;
pub use outside::ProgramEnd;
pub use plan_command::show_plan;
pub use refusal::Refusal;
pub use run_command::run;
pub use spares_command::run_with_spares;
pub use status_command::show_state;
pub use tally::Tally;
pub use vol_command::answer_volumes;
