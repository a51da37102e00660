//! What a check counts, and its five counts.
/// What a check counts, in this order.
#[derive(Clone, Copy)]
pub enum Kind {
    Row,
    Stripe,
    Fill,
    Unit,
    Mirror,
}

/// How many of each kind are false.
#[derive(Clone, Copy)]
pub struct CheckReport {
    pub rows: u32,
    pub stripes: u32,
    pub fill: u32,
    pub units: u32,
    pub mirrors: u32,
}
