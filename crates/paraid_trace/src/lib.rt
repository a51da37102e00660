//! The lines of a trace: which event a line asks for, and which line tells an answer. Also the
//! traces that are generated: one for each number below 2^32, on an array of so many blocks.
//!
//! The grammar stands in `specs/Grammar.antt` as printed text, and `read_line` answers an event
//! exactly for its lines. `reply` writes a line from a table of answers. Nothing here takes memory.
#![tactic(auto)]

mod answered;
mod asked;
mod generator;
mod hexes;
mod line;
mod periods;
mod replies;
mod text;

pub use answered::{Answered, Beside, Brief};
pub use asked::Asked;
pub use generator::generate;
pub use hexes::block as block_from_hex;
pub use line::{number, read_line};
pub use replies::{reply, reply_state, reply_with};
pub use text::{MAX_TEXT, Text};
