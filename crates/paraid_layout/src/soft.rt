//! The stripes of a gear: where the cells of its parked disks have their copies.
ghost use Rattle.std.specs.Prelude.{◌≡◌, ◌≢◌, ◌-◌, ◌*◌, ◌<◌, ◌≤◌, IfSome, MatchOption};
ghost use Rattle.paraid_base.specs.Regions.{IsGear};
ghost use Rattle.paraid_base.specs.Skips.{index_among, skip};
ghost use Rattle.paraid_base.specs.Soft.{number_at, row_of_number, disk_of_number, soft_stripe, soft_index, soft_disk, soft_parity_disk, stripe_count};
ghost use Rattle.paraid_layout.specs.Pads.{IsPad};

use crate::index::disk_of_index;
use paraid_base::{DiskNo, Geometry, Row};

fn stripe_parity(a: u8, s: u32) -> DiskNo
    requires { 1 ≤ a }
    ensures value { result ≡ soft_parity_disk a s }
    ensures below { result < a }
{
    a - 1 - (s % a as u32) as u8
}

/// The disk that holds the parity of stripe `s` of gear `a`, one of the disks below `a`.
pub fn soft_parity(g: &Geometry, a: u8, s: u32) -> DiskNo
    requires gear { IsGear g.now a }
    requires region { a < g.now.disks }
    requires stripe_in { s < stripe_count g.now.disks g.now.rows a }
    ensures value { result ≡ soft_parity_disk a s }
    ensures below { result < a }
{
    stripe_parity(a, s)
}

/// The stripe of cell `(r, d)` in gear `a`, and the disk below `a` with its copy.
pub fn soft_of(g: &Geometry, a: u8, r: Row, d: DiskNo) -> (u32, DiskNo)
    requires gear { IsGear g.now a }
    requires parked { a ≤ d }
    requires disk_in { d < g.now.disks }
    requires row_in { r < g.now.rows }
    ensures stripe { result.0 ≡ soft_stripe g.now.disks a r d }
    ensures disk { result.1 ≡ soft_disk g.now.disks a r d }

    ensures stripe_in { result.0 < stripe_count g.now.disks g.now.rows a }
    ensures below { result.1 < a }
    ensures not_parity { result.1 ≢ soft_parity_disk a result.0 }

    // `cell_at` finds the cell at this stripe and this disk's index.
    ensures back { let number = number_at a result.0 (index_among
        (soft_parity_disk a result.0) result.1) in (row_of_number g.now.disks a number ≡ r)
        × (disk_of_number g.now.disks a number ≡ d) }
{
    let number = r * (g.disks - a) as u32 + (d - a) as u32;
    let data = a as u32 - 1;
    let s = number / data;
    let i = (number % data) as u8;
    (s, disk_of_index(stripe_parity(a, s), i))
}

/// The cell whose copy is at index `i` of stripe `s` of gear `a`, or None for a pad.
pub fn cell_at(g: &Geometry, a: u8, s: u32, i: u8) -> Option<(Row, DiskNo)>
    requires gear { IsGear g.now a }
    requires region { a < g.now.disks }
    requires stripe_in { s < stripe_count g.now.disks g.now.rows a }
    requires index_in { i < a - 1 }
    ensures value { MatchOption result
        (IsPad g.now.disks g.now.rows a s i)
        (λ c. (number_at a s i < g.now.rows * (g.now.disks - a))
        × (c.0 ≡ row_of_number g.now.disks a (number_at a s i))
        × (c.1 ≡ disk_of_number g.now.disks a (number_at a s i))) }

    ensures row_in { IfSome result (λ c. c.0 < g.now.rows) }
    ensures parked { IfSome result (λ c. a ≤ c.1) }
    ensures disk_in { IfSome result (λ c. c.1 < g.now.disks) }

    // `soft_of` leads back to this stripe and index.
    ensures back { IfSome result (λ c. (soft_stripe g.now.disks a c.0 c.1 ≡ s)
        × (soft_index g.now.disks a c.0 c.1 ≡ i)
        × (soft_disk g.now.disks a c.0 c.1 ≡ skip (soft_parity_disk a s) i)) }
{
    let parked = (g.disks - a) as u32;
    let number = s * (a as u32 - 1) + i as u32;
    if number >= g.rows * parked {
        None
    } else {
        Some((number / parked, a + (number % parked) as u8))
    }
}
