//! When an array changes its gear: the samples of the last ticks, and the decision on them.
//!
//! A sample is the number of reads and writes of one tick. The windows keep only as many samples
//! as they need, and the decision is that over the list of all samples.
#![tactic(auto)]

mod decision;
mod three_windows;
mod window;

pub use decision::Decision;
pub use three_windows::{GREATEST_SAMPLE, Windows};
