//! How the service of a client ends.
/// How a service ended.
#[derive(Clone, Copy, PartialEq, Eq)]
pub enum NbdEnd {
    /// The client disconnected.
    Done,
    /// The client left among the options.
    Aborted,
    /// The source gave its end.
    Closed,
    /// The field at this place of the input is wrong.
    Protocol { at: u64 },
    /// So many bytes were taken, and no more may be.
    TooLong { bytes: u64 },
    /// A call of the source failed.
    Source,
    /// A call of the sink failed.
    Sink,
    /// There is no memory for the buffer. Nothing was taken or written.
    NoMemory,
}
