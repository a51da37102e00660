//! What a mounted array serves other than a trace: one client of the network block service, or
//! lines about volumes.
//!
//! Each is a session of the array, by the events that its device kept. So each stop in it leaves
//! what a session promises.
#![tactic(auto)]

mod client;
mod hear;
mod held;
mod laws;
mod lines;
mod run;
mod session;
mod shelf;

pub use client::{ServiceEnd, serve_client};
pub use held::serve_held;
pub use laws::{a_flush_is_kept_at_each_later_point, a_stop_leaves_each_call_before_a_flush};
pub use lines::{create_named, delete_named, flush_volumes, read_named, write_named};
pub use run::{LinesEnd, LinesRun, serve_lines};
pub use session::serve_volumes;
pub use shelf::{Shelf, Shelved, answer_volume_line, open_shelf, serve_line};
