//! The events of an array with gears over a core: ticks, shifts, failures and replacements. Reads,
//! writes and flushes are calls of the core.
//!
//! Each call is made of calls of the core, the shifts and the rebuild, under their conditions.
//! Which halt follows a second loss or wear is for the array that is to stand on these.
#![tactic(auto)]

mod asked;
mod failing;
mod fault;
mod laws;
mod rebuilding;
mod replacing;
mod shifts;

pub use asked::{Direction, ShiftOutcome, ask_shift};
pub use failing::take_out;
pub use fault::{FailFault, ReplaceFault, ShiftFault};
pub use laws::a_shift_is_answered_by_the_machine;
pub use replacing::replace;
pub use shifts::{advance, gear_above, gear_below};
