//! What a reader of lines gives, and why it gives no further line.
/// What a reader of lines gives.
#[derive(Clone, Copy, PartialEq, Eq)]
pub enum Line {
    /// A line of so many bytes, at most 1,100, which the reader holds. Its newline is not counted.
    Whole { length: usize },
    /// A line of so many bytes, more than 1,100, which were passed over.
    Long { length: u64 },
    /// There is no further line.
    End,
}

/// Why there is no further line though the input has not ended.
#[derive(Clone, Copy, PartialEq, Eq)]
pub enum LineFault {
    /// A call of the source failed.
    Source,
    /// All that may be taken, `bytes` = 2^40 = 1,099,511,627,776 bytes, was taken, and no whole
    /// line of it is left.
    TooLong { bytes: u64 },
}
