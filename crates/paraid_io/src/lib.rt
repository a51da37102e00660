//! Where bytes come from and where they go to, and the lines of what comes.
//!
//! A `Source` and a `Sink` may tell what is left and what was written, and each fault of theirs is
//! counted. A `LineReader` cuts what a source gives at its newlines, and `write_all` gives a sink
//! all of some bytes, in however many pieces they come and go. Neither takes memory.
#![tactic(auto)]

mod line;
mod memory;
mod plan;
mod reader;
mod scan;
mod sink;
mod source;
mod stdio;

pub use line::{Line, LineFault};
pub use memory::{MemSink, MemSource, SureSource};
pub use reader::{LineReader, MAX_LINE, MAX_TAKEN};
pub use sink::{Sink, write_all};
pub use source::Source;
pub use stdio::{StdSink, StdSource};
