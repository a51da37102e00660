//! The lines of `vol`: what each line asks for of named volumes, and the lines that tell the
//! answers.
//!
//! What a line looks like stands in `specs/Grammar.antt` as printed text, and `parse_volume_line`
//! finds a task exactly for its lines. Nothing here takes memory.
#![tactic(auto)]

mod asked;
mod line;
mod list;
mod replies;

pub use asked::VolAsked;
pub use line::parse_volume_line;
pub use list::tell_list;
pub use replies::{
    tell_begun, tell_created, tell_deleted, tell_fault, tell_flushed, tell_read, tell_word,
    tell_written,
};
