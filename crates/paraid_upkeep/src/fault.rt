//! Why a shift does not begin, a disk is not taken out, or one is not replaced.
use paraid_base::DiskNo;

/// Why a shift does not begin.
#[derive(Clone, Copy)]
pub enum ShiftFault {
    /// There is no higher gear.
    Top,
    /// There is no lower gear.
    Lowest,
    /// A shift to `to` is under way.
    Shifting { to: u8 },
    /// This disk is out.
    Out { disk: DiskNo },
    /// This disk has used its allowance of spin-ups.
    Ration { disk: DiskNo },
}

/// Why a disk is not taken out.
#[derive(Clone, Copy)]
pub enum FailFault {
    /// The array has no such disk.
    NoDisk { disk: DiskNo },
    /// This disk is out.
    Out { disk: DiskNo },
}

/// Why a disk is not replaced.
#[derive(Clone, Copy)]
pub enum ReplaceFault {
    /// The array has no such disk.
    NoDisk { disk: DiskNo },
    /// This disk is not out.
    NotOut { disk: DiskNo },
    /// No fresh disk came in its place.
    NoFresh { disk: DiskNo },
}
