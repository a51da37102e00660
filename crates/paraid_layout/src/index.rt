//! The disks other than one, numbered from 0 in their order.
ghost use Rattle.std.specs.Prelude.{◌≡◌, ◌≢◌, ◌-◌, ◌<◌};
ghost use Rattle.paraid_base.specs.Skips.{index_among as index_among_of, skip};

use paraid_base::DiskNo;

// The disk of index `i` among the disks other than `p`.
pub(crate) fn disk_of_index(p: DiskNo, i: u8) -> DiskNo
    requires { i < 8 }
    ensures { result ≡ skip p i }
{
    if i < p { i } else { i + 1 }
}

// The index of disk `d` among the disks other than `p`.
pub(crate) fn index_of_disk(p: DiskNo, d: DiskNo) -> u8
    requires { d ≢ p }
    ensures { result ≡ index_among_of p d }
{
    if d < p { d } else { d - 1 }
}

/// The index of disk `disk`, from 0, among the disks of a stripe of copies but its parity disk. The
/// stripe is one of gear `gear`, so it lies on the disks below that.
pub fn index_among(parity: DiskNo, disk: DiskNo, gear: u8) -> u8
    requires apart { disk ≢ parity }
    requires below { disk < gear }
    requires parity { parity < gear }
    ensures value { result ≡ index_among_of parity disk }
    ensures low { result < gear - 1 }
{
    index_of_disk(parity, disk)
}
