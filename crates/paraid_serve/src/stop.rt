//! Why a session may end before its last line.

use paraid_base::Halt;

/// Why a session ended before its last line.
#[derive(Clone, Copy)]
pub enum Stop {
    /// The source has failed.
    Source,
    /// All that may be taken was taken, and no whole line is left.
    TooLong,
    /// The sink has failed.
    Sink,
    /// The input has ended, and the array has halted.
    Halt(Halt),
}
