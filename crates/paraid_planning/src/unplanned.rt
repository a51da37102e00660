//! Why there may be no plan.

/// Why no plan was made of what a source gives.
#[derive(Clone, Copy)]
pub enum Unplanned {
    /// The source has failed.
    Source,
    /// All that may be taken was taken, and no whole line is left.
    TooLong,
    /// There was no memory.
    NoMemory,
    /// The line of this number, from 0, is the first that is none of a demand.
    Demand { at: u32 },
}
