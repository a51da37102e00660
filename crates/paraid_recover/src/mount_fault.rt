//! Why a mount is refused.
use paraid_base::{DiskNo, Two};

/// Why an array is not mounted.
#[derive(Clone, Copy)]
pub enum MountFault {
    /// No log disk belongs to an array.
    NotFormatted,
    /// This log disk has an open gate and is not well formed; or both have open gates and what they
    /// say does not fit together, and this one does not stand.
    BadLog {
        disk: DiskNo,
    },
    /// This log disk has a closed gate and is not well formed; or what both say does not fit
    /// together, one gate is closed, and this one does not stand.
    BadMeta {
        disk: DiskNo,
    },
    /// This disk has too few blocks, or there is no slot for it.
    Size {
        disk: DiskNo,
        found: u32,
        needed: u32,
    },
    /// This disk is parked and is to spin.
    Power {
        disk: DiskNo,
    },
    /// Two disks are missing.
    Two(Two),
    /// The epoch or the number of writes is 2^62 or more; `count` is the greater of the two.
    Worn {
        count: u64,
    },
    /// There is no memory for the mount.
    NoMemory,
}
