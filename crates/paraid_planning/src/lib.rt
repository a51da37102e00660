//! A demand is read from a source, a number a line, and its cheapest schedule of gears is told in
//! two lines; or the first line that is none of a demand is named.
#![tactic(auto)]

mod demand;
mod hear;
mod text;
mod unplanned;

pub use demand::{plan_demand, read_demand};
pub use hear::Spoken;
pub use text::{plan_text, unplanned_text};
pub use unplanned::Unplanned;
