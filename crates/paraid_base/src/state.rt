//! What is told of an array: its phase, its disk that is out, what a tick did.
ghost use Rattle.std.specs.Prelude.{◌≡◌};
ghost use Rattle.paraid_base.specs.States.{gone_out, has_out, is_down as is_down_in, is_fresh as is_fresh_in, is_gone as is_gone_in, is_out, named_out, phase_beside, phase_to, rebuilt_count, rising_to as rising_to_of};

use crate::{DiskNo, Halt};

/// Whether a shift between two gears is under way.
#[derive(Clone, Copy)]
pub enum Phase {
    /// No shift is under way.
    Steady,
    /// A shift down to the gear `to`, the next lower one.
    Down { to: u8 },
    /// A shift up to the gear `to`, the next higher one.
    Up { to: u8 },
}

impl Phase {
    /// The gear that the shift goes to, or 0.
    pub fn to(self) -> u8
        ensures { result ≡ phase_to self }
    {
        match self {
            Phase::Steady => 0,
            Phase::Down { to } | Phase::Up { to } => to,
        }
    }

    /// The gear that a shift up goes to, or 0.
    pub fn rising_to(self) -> u8
        ensures { result ≡ rising_to_of self }
    {
        match self {
            Phase::Up { to } => to,
            Phase::Steady | Phase::Down { .. } => 0,
        }
    }

    /// Whether a shift down is under way.
    pub fn is_down(self) -> bool
        ensures { result ≡ is_down_in self }
    {
        match self {
            Phase::Down { .. } => true,
            Phase::Steady | Phase::Up { .. } => false,
        }
    }

    /// The phase once a disk may be out, which ends a shift down.
    pub fn beside(self, has_out: bool) -> Phase
        ensures { result ≡ phase_beside has_out self }
    {
        match self {
            Phase::Down { to } => {
                if has_out {
                    Phase::Steady
                } else {
                    Phase::Down { to }
                }
            }
            Phase::Steady => Phase::Steady,
            Phase::Up { to } => Phase::Up { to },
        }
    }
}

/// Which disk is out: lost, or failed by command, with its rebuild not ended.
#[derive(Clone, Copy, PartialEq, Eq)]
pub enum Out {
    /// No disk is out.
    No,
    /// This disk is out and has not been replaced.
    Gone { disk: DiskNo },
    /// This disk was replaced, and so many units of it are rebuilt.
    Fresh { disk: DiskNo, rebuilt: u32 },
}

impl Out {
    /// Whether a disk is out.
    pub fn is_any(self) -> bool
        ensures { result ≡ has_out self }
    {
        match self {
            Out::No => false,
            Out::Gone { .. } | Out::Fresh { .. } => true,
        }
    }

    /// The disk that is out.
    pub fn named(self) -> Option<DiskNo>
        ensures { result ≡ named_out self }
    {
        match self {
            Out::No => None,
            Out::Gone { disk } | Out::Fresh { disk, .. } => Some(disk),
        }
    }

    /// The disk that is out and has not been replaced.
    pub fn gone(self) -> Option<DiskNo>
        ensures { result ≡ gone_out self }
    {
        match self {
            Out::Gone { disk } => Some(disk),
            Out::No | Out::Fresh { .. } => None,
        }
    }

    /// How many units of the disk that is out are rebuilt.
    pub fn rebuilt(self) -> u32
        ensures { result ≡ rebuilt_count self }
    {
        match self {
            Out::No | Out::Gone { .. } => 0,
            Out::Fresh { rebuilt, .. } => rebuilt,
        }
    }

    /// Whether this disk is out.
    pub fn names(self, disk: DiskNo) -> bool
        ensures { result ≡ is_out (named_out self) disk }
    {
        match self {
            Out::No => false,
            Out::Gone { disk: out } | Out::Fresh { disk: out, .. } => disk == out,
        }
    }

    /// Whether this disk is out and has not been replaced.
    pub fn is_gone(self, disk: DiskNo) -> bool
        ensures { result ≡ is_gone_in self disk }
    {
        match self {
            Out::Gone { disk: out } => disk == out,
            Out::No | Out::Fresh { .. } => false,
        }
    }

    /// Whether this disk is being rebuilt.
    pub fn is_fresh(self, disk: DiskNo) -> bool
        ensures { result ≡ is_fresh_in self disk }
    {
        match self {
            Out::Fresh { disk: out, .. } => disk == out,
            Out::No | Out::Gone { .. } => false,
        }
    }
}

/// What a tick did.
#[derive(Clone, Copy)]
pub enum TickEvent {
    /// Nothing was to be done.
    Steady,
    /// A disk is out and waits for its replacement.
    Waiting,
    /// Units of a shift or of a rebuild were moved, and some are left.
    Moving,
    /// The shift ended: the gear has changed.
    Flipped,
    /// A shift to the gear `to` began.
    Begun { to: u8 },
    /// The rebuild of this disk ended.
    Rebuilt { disk: DiskNo },
    /// The disk that was being rebuilt failed again.
    Gone { disk: DiskNo },
    /// This disk was lost in a shift. A shift up goes on once it is rebuilt; a shift down is given
    /// up.
    Lost { disk: DiskNo },
    /// A shift down was due and did not begin: it would park this disk, which has used up its
    /// allowance of spin-ups.
    Ration { disk: DiskNo },
}

/// The answer to a tick.
#[derive(Clone, Copy)]
pub struct GearReport {
    /// The gear after the tick.
    pub gear: u8,
    /// How many units of a shift or of a rebuild were moved in it.
    pub moved: u32,
    /// What it did.
    pub event: TickEvent,
}

/// The state of an array as it is told.
#[derive(Clone, Copy)]
pub struct Status {
    /// The number of writes that were accepted.
    pub writes: u64,
    /// The number of ticks that were counted.
    pub ticks: u64,
    /// The number of disks that are powered when no shift is under way.
    pub gear: u8,
    pub phase: Phase,
    /// The number of dirty cells of disks from the gear on.
    pub dirty: u32,
    /// The number of stripes of the new gear's region that are filled.
    pub fill: u32,
    pub out: Out,
    /// The recorded spin-ups of each disk since its last attach, 0 past the last disk.
    pub spins: [u16; 8],
    pub halt: Option<Halt>,
}
