//! Which command the words of the command line ask for.
//!
//! `read_words` answers a command exactly for the words of `AskFor` (`specs/Words.antt`), which is
//! a closed list of printed text. What each command does is said in `paraid_commands`. Nothing here
//! touches a disk or takes memory.
#![tactic(auto)]

mod command;
mod words;

pub use command::{Choice, Command};
pub use words::read_words;
