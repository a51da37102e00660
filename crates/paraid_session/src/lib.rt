//! What a session of an array is: what is watched from call to call, what an event and a mount
//! leave, and that each stop leaves a rack on which the next run begins.
#![tactic(auto)]

pub mod laws;
