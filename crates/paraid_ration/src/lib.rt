//! The allowance of spin-ups: how many a disk may have, and whether disks may be parked, so that
//! they may be spun up again.
//!
//! A disk's spins count its recorded spin-ups since it was attached. What it may have is spread
//! over the life of the array: a burst at once, then one more for each period of ticks, up to the
//! ration. The layer above parks no disk that could then not spin up again.
#![tactic(auto)]

mod ration;

pub use ration::{allowance, may_park};
