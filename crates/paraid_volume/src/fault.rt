//! Why a call on volumes is refused.
use paraid_base::{BlockNo, Halt};

/// Why a call on volumes was refused. They are tested in this order.
#[derive(Clone, Copy, PartialEq, Eq)]
pub enum VolFault {
    /// A call of the device gave this halt.
    Halt(Halt),
    /// The device has too few blocks for a table and one extent.
    Small { blocks: u32 },
    /// The device holds no table.
    NotVolumes,
    /// The device holds a table.
    Already,
    /// There is no such volume.
    NoVolume { id: u8 },
    /// The volume has no such block.
    NoBlock { block: BlockNo },
    /// This volume has the name.
    Exists { id: u8 },
    /// A volume of no extent was asked for.
    NoExtents,
    /// Each id has a name.
    Names,
    /// So few extents are free.
    Space { free: u32 },
}

/// A device that was not taken, and why.
#[derive(Drop)]
pub struct VolRefused<B> {
    pub fault: VolFault,
    pub blocks: B,
}
