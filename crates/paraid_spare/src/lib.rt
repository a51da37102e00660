//! A pool of spare disks: when one is used, and how often each slot was spun up.
#![tactic(auto)]

mod pool;

pub use pool::Pool;
