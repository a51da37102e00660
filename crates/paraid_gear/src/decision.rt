//! A decision: to stay, or to shift up or down.

/// What the samples ask for.
#[derive(Clone, Copy)]
pub enum Decision {
    /// To stay in this gear.
    Stay,
    /// To shift up to the next higher gear.
    Up { to: u8 },
    /// To shift down to the next lower gear.
    Down { to: u8 },
}
