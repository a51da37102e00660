//! A trace is served with spare disks: before a tick one is put in for a disk that is gone.
#![tactic(auto)]

mod laws;
mod line;
mod pool;
mod run;
mod text;
mod top;

pub use laws::slots_count_their_spin_ups;
pub use line::answer_line;
pub use run::session;
pub use text::{spare_text, spares_text};
pub use top::{serve, serve_mounted};
