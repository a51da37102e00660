//! The program over any source, sink and rack: it does what its words ask for.
//!
//! `paraid_words` reads the words, and `paraid_commands` does what they ask for over anything that
//! mounts an array; `Arrays` mounts arrays with gears.
//!
//! The contract of `paraid` says what is written at each status, what the disks then hold, and
//! which losses a status has for its cause.
#![tactic(auto)]

mod arrays;
mod top;

pub use paraid_commands::ProgramEnd;
pub use top::paraid;
