//! What a stop leaves of a block.

/// What a stop leaves in each block that was written since its disk was last synced or attached.
#[derive(Clone, Copy)]
pub enum Pick {
    /// What it held then.
    Old,
    /// What was written last.
    New,
    /// This byte, 512 times.
    Filled(u8),
    /// The first half of what was written last, and the second half of what it held then.
    Mixed,
}
