//! The session of an array, over anything that answers its events by its contract; and what all
//! commands share: how a line is heard, the last lines, and the table of the statuses.
#![tactic(auto)]

pub mod answer;
pub mod ending;
pub mod hear;
pub mod laws;
pub mod run;
mod serves;
pub mod status;
mod stop;
pub mod top;

pub use serves::Serves;
pub use stop::Stop;
