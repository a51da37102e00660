//! What a shift, a rebuild and the copies past the log do to what an array stands for.
//!
//! The module `laws` says what the marks of a shift and of a rebuild leave, `between` what the
//! calls between two commits do, and `commits` what the commit of such marks keeps. `copy` makes
//! one copy into a free place, with the history held at each moment.
#![tactic(auto)]

pub mod between;
pub mod commits;
mod copies;
pub mod laws;

pub use copies::copy;
