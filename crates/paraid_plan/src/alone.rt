//! The write of one cell of a row, of which most writes are. Where its old value makes the row's
//! new parity and neither has a copy, the first block is read straight into its place, and the
//! other two are added to it in one pass.
ghost use Rattle.std.specs.Prelude.{◌≡◌, ◌≢◌, ℕ, ◌<◌, ◌≤◌, true, false, get_or, Some, None, OnOk, IfSome};
ghost use Rattle.paraid_base.specs.Xor.{xor, zero_block};
ghost use Rattle.paraid_plan.specs.Alone.{IsWrittenAlone};
ghost use Rattle.paraid_plan.specs.Desk.{sees};
ghost use Rattle.paraid_plan.specs.Leaves.{Leaves, StaysAsWas};
ghost use Rattle.paraid_plan.specs.WriteTargets.{needs_new as needs_new_in};
ghost use Rattle.paraid_record.specs.Range.{IsInRange};
ghost use Rattle.paraid_image.specs.Value.{value as value_of};

use crate::blocks::block_of;
use crate::desk::{PlanLost, WritePlan};
use paraid_base::{Block, DiskNo, Pairs, Row};
use paraid_record::Meta;

/// A cell that is given new bytes, and the pair that gives them.
#[derive(Clone, Copy)]
pub(crate) struct Given {
    pub disk: DiskNo,
    pub at: u8,
}

// The first cell of a row that is given new bytes.
fn first_given(given: &[Option<u8>; 8], disks: u8) -> Option<Given>
    requires { disks ≤ 8 }
    ensures { IfSome result (λ one. (one.disk < disks)
        × (get_or given.now one.disk None ≡ Some one.at)) }
{
    for d in 0..disks {
        if let Some(at) = given[d as usize] {
            return Some(Given { disk: d, at });
        }
    }
    None
}

// Whether a cell is given new bytes, and is not this one.
fn is_given_beside(given: &[Option<u8>; 8], e: DiskNo, d: DiskNo) -> bool
    requires { e < 8 }
    ensures { result ≡ false → e ≢ d → get_or given.now e None ≡ None }
{
    if e == d {
        return false;
    }
    given[e as usize].is_some()
}

// Whether no cell of a row but this one is given new bytes.
fn is_only_given(given: &[Option<u8>; 8], disks: u8, d: DiskNo) -> bool
    requires { disks ≤ 8 }
    ensures { result ≡ true → (e : ℕ) → e < disks → e ≢ d → get_or given.now e None ≡ None }
{
    for e in 0..disks {
        if is_given_beside(given, e, d) {
            return false;
        }
    }
    true
}

// Whether a cell is in its place alone.
fn is_plain(m: &Meta, d: DiskNo) -> bool
    ensures { result ≡ true → (d < m.now.gear) × (m.now.fill ≡ 0) }
{
    d < m.gear && m.fill == 0
}

/// The one cell of a row that is given new bytes, where neither it nor the parity has a copy, and
/// the new parity is needed and is made of the old one.
pub(crate) fn alone(
    m: &Meta,
    given: &[Option<u8>; 8],
    needed: bool,
    anew: bool,
    p: DiskNo,
) -> Option<Given>
    ensures alone { IfSome result (λ one. IsWrittenAlone m.now given.now p one.disk one.at) }
    ensures needed { IfSome result (λ one. needed ≡ true) }
    ensures of_old { IfSome result (λ one. anew ≡ false) }
{
    if !needed || anew || !is_plain(m, p) {
        return None;
    }
    let one = first_given(given, m.setup.geometry.disks)?;
    if !is_plain(m, one.disk) || !is_only_given(given, m.setup.geometry.disks, one.disk) {
        return None;
    }
    Some(one)
}

// Adds two blocks to a sum.
fn xor_both(to: &mut Block, one: &Block, other: &Block)
    ensures { to.new ≡ xor to.old (xor one.now other.now) }
{
    for i in 0..512 {
        to.bytes[i] ^= one.bytes[i] ^ other.bytes[i];
    }
}

/// Makes the new parity of a row, which is needed, of its old one, and of the old and the new bytes
/// of one cell.
pub(crate) fn read_alone<P: WritePlan>(
    plan: &mut P,
    m: &Meta,
    pairs: &Pairs,
    one: Given,
    r: Row,
    p: DiskNo,
    sum: &mut Block,
) -> Result<(), PlanLost>
    requires serves { P.serves plan.old m.now }
    requires in_range { IsInRange m.now }
    requires row { r < m.now.setup.geometry.rows }
    requires disk { one.disk < m.now.setup.geometry.disks }
    requires parity_disk { p < m.now.setup.geometry.disks }
    requires few { one.at < 8 }
    requires needed { needs_new_in (sees m.now (P.desk plan.old)) r p ≡ true }
    ensures sum { OnOk result (P.tells plan.new
        → sum.new ≡ xor (value_of (sees m.now (P.desk plan.old)) r one.disk) (xor
        (value_of (sees m.now (P.desk plan.old)) r p) (get_or pairs.now.bytes one.at zero_block))) }
    ensures reads { Leaves P.WritePlan
        (StaysAsWas P.WritePlan m.now plan.old plan.new) plan.old plan.new result }
{
    plan.value(m, r, one.disk, sum)?;
    let mut parity = Block::zero();
    plan.value(m, r, p, &mut parity)?;
    xor_both(sum, &parity, block_of(&pairs.bytes, one.at as usize));
    Ok(())
}
