//! What stands between a program and the machine, over each program: words that are no command, a
//! stream that is closed, another command in the folder, images that cannot be opened or do not
//! belong.
//!
//! `answer_words` hands the words of a command to a `Program`, with the image files of the current
//! folder, sealed. It ends with the status of that program, or with one of its own, and then the
//! program is left as it was.
#![tactic(auto)]

mod edge;
mod program;

pub use edge::{Host, answer_words};
pub use program::{EdgeEnd, Program, Served};
