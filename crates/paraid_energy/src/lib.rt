//! The energy that the disks of an array have used, in millijoules, as its setup tells it.
//!
//! A ledger stands for an account: the figures of the setup and a sum. The sum never falls and
//! never wraps: where it would pass the greatest u64, it stays there.
#![tactic(auto)]

mod ledger;

pub use ledger::Ledger;
