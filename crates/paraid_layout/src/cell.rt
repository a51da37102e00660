//! The home of each block, and the parity disk of each row: left-asymmetric RAID-5.
ghost use Rattle.std.specs.Prelude.{◌≡◌, ◌≢◌, ◌<◌, IfSome, MatchOption};
ghost use Rattle.paraid_base.specs.Cells.{parity_disk as parity_disk_of, home_row, home_disk, cell_block};
ghost use Rattle.paraid_base.specs.Regions.{array_blocks};

use crate::index::{disk_of_index, index_of_disk};
use paraid_base::{BlockNo, DiskNo, Geometry, Row};

/// The disk that holds the parity of row `r`: the last one for row 0, and then one lower each
/// row.
pub fn parity_disk(g: &Geometry, r: Row) -> DiskNo
    requires { r < g.now.rows }
    ensures value { result ≡ parity_disk_of g.now.disks r }
    ensures disk_in { result < g.now.disks }
{
    let n = g.disks;
    n - 1 - (r % n as u32) as u8
}

/// The row and the disk of block `b`: the blocks of a row fill its disks in their order, all
/// but the parity disk.
pub fn home(g: &Geometry, b: BlockNo) -> (Row, DiskNo)
    requires { b < array_blocks g.now }
    ensures row { result.0 ≡ home_row g.now.disks b }
    ensures disk { result.1 ≡ home_disk g.now.disks b }

    ensures row_in { result.0 < g.now.rows }
    ensures disk_in { result.1 < g.now.disks }
    ensures not_parity { result.1 ≢ parity_disk_of g.now.disks result.0 }

    // `block_at` finds it there.
    ensures back { cell_block g.now.disks result.0 result.1 ≡ b }
{
    let data = g.disks as u32 - 1;
    let r = b / data;
    let i = (b % data) as u8;
    (r, disk_of_index(parity_disk(g, r), i))
}

/// The block whose home is row `r` and disk `d`, or None where that cell is the row's parity.
pub fn block_at(g: &Geometry, r: Row, d: DiskNo) -> Option<BlockNo>
    requires row_in { r < g.now.rows }
    requires disk_in { d < g.now.disks }
    ensures value { MatchOption result
        (d ≡ parity_disk_of g.now.disks r)
        (λ b. (d ≢ parity_disk_of g.now.disks r) × (b ≡ cell_block g.now.disks r d)) }

    ensures block_in { IfSome result (λ b. b < array_blocks g.now) }

    // `home` leads back to this cell.
    ensures back { IfSome result
        (λ b. (home_row g.now.disks b ≡ r) × (home_disk g.now.disks b ≡ d)) }
{
    let p = parity_disk(g, r);
    if d == p {
        None
    } else {
        Some(r * (g.disks as u32 - 1) + index_of_disk(p, d) as u32)
    }
}
