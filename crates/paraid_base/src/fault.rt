//! Why something was not done: a failed call, no memory, a halt.
ghost use Rattle.std.specs.Prelude.{◌≡◌, ◌≢◌, ℕ, Some, None};

use crate::{BlockNo, DiskNo};

/// A call of the outside did not succeed. Its object's count of faults has risen.
#[derive(Clone, Copy)]
pub struct Failed;

/// There is no memory for it. This is the one answer that no contract ties to a cause.
#[derive(Clone, Copy)]
pub struct NoMemory;

/// Two disks are down: `first` was out or was lost first, and `second` failed after it.
#[derive(Clone, Copy, PartialEq, Eq)]
pub struct Two {
    pub first: DiskNo,
    pub second: DiskNo,
}

impl Two {
    /// The two disks that are down once this one is lost beside the one that is out. None where no
    /// other disk is out: the first loss is borne.
    pub fn beside(out: Option<DiskNo>, lost: DiskNo) -> Option<Two>
        ensures none { result ≡ None → (d : ℕ) → out ≡ Some d → d ≡ lost }
        ensures two { (two : _) → result ≡ Some two
            → (out ≡ Some two.first) × (two.second ≡ lost) × (two.first ≢ two.second) }
    {
        let first = out?;
        if first == lost {
            return None;
        }
        Some(Two {
            first,
            second: lost,
        })
    }
}

/// Why an array serves no more. Every later call gives the same halt.
#[derive(Clone, Copy, PartialEq, Eq)]
pub enum Halt {
    /// Two disks are down, one more than a row can lose.
    Two(Two),
    /// The epoch or the number of writes is 2^62 or more; `count` is the greater of the two.
    Worn { count: u64 },
}

/// Why a block was not read or written.
#[derive(Clone, Copy)]
pub enum BlockFault {
    /// The array has no such block.
    NoBlock { block: BlockNo },
    /// The array has halted.
    Halt(Halt),
}
