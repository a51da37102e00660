//! A call on one disk, and how a disk is powered.
ghost use Rattle.std.specs.Prelude.{◌≡◌};
ghost use Rattle.paraid_rack.specs.Calls.{disk_of, is_done as was_done};
ghost use Rattle.paraid_rack.specs.Disks.{is_parked as stands_still, is_present as is_there};

use paraid_base::{Block, DiskNo, Place};

/// How a slot's disk is powered.
#[derive(Clone, Copy, PartialEq, Eq)]
pub enum Power {
    /// It can be read and written.
    Spinning,
    /// It stands still, and can only be spun up or attached anew.
    Parked,
    /// There is no disk, or it has failed. It can only be attached anew.
    Absent,
}

impl Power {
    /// Whether there is a disk.
    pub fn is_present(self) -> bool
        ensures { result ≡ is_there self }
    {
        match self {
            Power::Spinning | Power::Parked => true,
            Power::Absent => false,
        }
    }

    /// Whether there is a disk that stands still.
    pub fn is_parked(self) -> bool
        ensures { result ≡ stands_still self }
    {
        match self {
            Power::Parked => true,
            Power::Spinning | Power::Absent => false,
        }
    }
}

/// One call on one disk of a rack, and whether it was done. A call that is not done has failed.
#[derive(Drop)]
pub enum Call {
    Read {
        disk: DiskNo,
        place: Place,
        done: bool,
    },
    Write {
        disk: DiskNo,
        place: Place,
        bytes: Block,
        done: bool,
    },
    Sync {
        disk: DiskNo,
        done: bool,
    },
    Park {
        disk: DiskNo,
        done: bool,
    },
    SpinUp {
        disk: DiskNo,
        done: bool,
    },
    Attach {
        disk: DiskNo,
        size: u32,
        done: bool,
    },
}

impl Call {
    /// The disk that the call is on.
    pub fn disk(&self) -> DiskNo
        ensures { result ≡ disk_of self.now }
    {
        match self {
            Call::Read { disk, .. } => *disk,
            Call::Write { disk, .. } => *disk,
            Call::Sync { disk, .. } => *disk,
            Call::Park { disk, .. } => *disk,
            Call::SpinUp { disk, .. } => *disk,
            Call::Attach { disk, .. } => *disk,
        }
    }

    /// Whether the call was done.
    pub fn is_done(&self) -> bool
        ensures { result ≡ was_done self.now }
    {
        match self {
            Call::Read { done, .. } => *done,
            Call::Write { done, .. } => *done,
            Call::Sync { done, .. } => *done,
            Call::Park { done, .. } => *done,
            Call::SpinUp { done, .. } => *done,
            Call::Attach { done, .. } => *done,
        }
    }
}
