//! What ends a count early: a first lost disk, or two.
use paraid_base::Two;

/// What ends a count before its end.
#[derive(Clone, Copy)]
pub enum Ending {
    /// A disk was lost, the first one down.
    Lost,
    /// Two disks are down.
    Two(Two),
}
