//! Which cells of a row the pairs of a write give new bytes.
ghost use Rattle.std.specs.Prelude.{◌≡◌, ◌≢◌, ℕ, ◌<◌, ◌+◌, ◌||◌, List, Some, None, get_or, All, if◌then◌else◌};
ghost use Rattle.paraid_base.specs.declared.block.Block.{Block as BlockType};
ghost use Rattle.paraid_base.specs.Cells.{cell_block, parity_disk as parity_disk_of};
ghost use Rattle.paraid_base.specs.History.{Entry, last_of};
ghost use Rattle.paraid_base.specs.Pairs.{pairs_of};
ghost use Rattle.paraid_base.specs.Xor.{xor, zero_block};
ghost use Rattle.paraid_plan.specs.RowWrites.{AreGivenBy, is_changed as changed_in, is_given, names_row, pairs_before};
ghost use Rattle.paraid_base.specs.Regions.{array_blocks};

use crate::blocks::block_of;
use paraid_base::{Block, DiskNo, Geometry, Pairs, Row};
use paraid_layout::home;
use paraid_parity::xor_into;

// Gives a cell its new bytes from one pair.
fn set_given(given: &mut [Option<u8>; 8], d: DiskNo, at: u8)
    requires { d < 8 }
    ensures here { get_or given.new d None ≡ Some at }
    ensures others { (x : ℕ) → x ≢ d → get_or given.new x None ≡ get_or given.old x None }
{
    given[d as usize] = Some(at);
}

// Takes one pair more, where its block lies in the row.
fn give(g: &Geometry, pairs: &Pairs, at: u8, r: Row, given: &mut [Option<u8>; 8])
    requires at { at < pairs.now.count }
    requires block { get_or pairs.now.blocks at 0 < array_blocks g.now }
    requires before { AreGivenBy pairs.now.bytes g.now.disks
        (pairs_before pairs.now at) r given.old }
    ensures { AreGivenBy pairs.now.bytes g.now.disks (pairs_before pairs.now (at + 1)) r given.new }
{
    let (q, d) = home(g, pairs.blocks[at as usize]);
    if q != r {
        return;
    }
    set_given(given, d, at);
}

/// The last pair that gives each cell of a row new bytes; none gives any to the row's parity.
pub(crate) fn given_cells(g: &Geometry, pairs: &Pairs, r: Row) -> [Option<u8>; 8]
    requires blocks { All (λ (pair : ℕ × BlockType).
        pair.0 < array_blocks g.now) (pairs_of pairs.now) }
    ensures { AreGivenBy pairs.now.bytes g.now.disks (pairs_of pairs.now) r result }
{
    let mut given = [None; 8];
    for at in 0..pairs.count {
        give(g, pairs, at, r, &mut given);
    }
    given
}

/// Whether the write changes a cell of a row that it writes to: the parity, or a cell that it gives
/// new bytes.
pub(crate) fn is_changed(given: &[Option<u8>; 8], p: DiskNo, d: DiskNo) -> bool
    requires { d < 8 }
    ensures { (bytes : List BlockType) (n : ℕ) (ws : Entry) (r : ℕ) → d < n → p ≡ parity_disk_of n r
        → AreGivenBy bytes n ws r given.now → result ≡ changed_in n ws r d }
{
    if d == p {
        return true;
    }
    let Some(_at) = given[d as usize] else {
        return false;
    };
    true
}

/// Adds the new bytes of a cell to a sum, where it is given any.
pub(crate) fn add_given(pairs: &Pairs, given: &[Option<u8>; 8], d: DiskNo, sum: &mut Block)
    requires disk { d < 8 }
    requires few { (at : ℕ) → get_or given.now d None ≡ Some at → at < 8 }
    ensures { (n r : ℕ) → d < n → AreGivenBy pairs.now.bytes n (pairs_of pairs.now) r given.now
        → sum.new ≡ xor sum.old (if is_given n (pairs_of pairs.now) r d
        then last_of (cell_block n r d) zero_block (pairs_of pairs.now) else zero_block) }
{
    let Some(at) = given[d as usize] else {
        return;
    };
    xor_into(sum, block_of(&pairs.bytes, at as usize));
}

// Whether one of two is so.
fn either(first: bool, second: bool) -> bool
    ensures { result ≡ (first || second) }
{
    first || second
}

/// Whether one of the pairs before this one lies in a row.
pub(crate) fn is_row_before(g: &Geometry, pairs: &Pairs, at: usize, r: Row) -> bool
    requires at { at < pairs.now.count }
    requires blocks { All (λ (pair : ℕ × BlockType).
        pair.0 < array_blocks g.now) (pairs_of pairs.now) }
    ensures { result ≡ names_row g.now.disks (pairs_before pairs.now at) r }
{
    let mut found = false;
    for before in 0..at {
        let (q, _d) = home(g, pairs.blocks[before]);
        found = either(found, q == r);
    }
    found
}
