//! Which of two rules makes the new parity of a row with fewer reads of the disks. Either makes the
//! same parity, so that nothing but the number of reads depends on what is chosen here.
ghost use Rattle.std.specs.Prelude.{◌<◌};
ghost use Rattle.paraid_record.specs.Range.{IsInRange};

use crate::cell::{has_soft, is_hard, needs_old};
use crate::desk::WritePlan;
use crate::given::is_changed;
use paraid_base::{DiskNo, Place, Row};
use paraid_layout::{hard_place, soft_of, soft_place};
use paraid_record::Meta;

// How many blocks of the disks are read for one of them, of which so many others can be made it.
fn reads_at<P: WritePlan>(plan: &P, m: &Meta, disk: DiskNo, place: Place, others: u8) -> u8 {
    if m.out.names(disk) {
        return others;
    }
    if plan.is_staged(disk, place) { 0 } else { 1 }
}

// How many blocks of the disks are read for the value of a cell.
fn reads_of<P: WritePlan>(plan: &P, m: &Meta, r: Row, d: DiskNo) -> u8
    requires serves { P.serves plan.now m.now }
    requires in_range { IsInRange m.now }
    requires row { r < m.now.setup.geometry.rows }
    requires disk { d < m.now.setup.geometry.disks }
{
    let g = &m.setup.geometry;
    if is_hard(plan, m, r, d) {
        return reads_at(plan, m, d, hard_place(g, r), g.disks - 1);
    }
    let (s, copy) = soft_of(g, m.gear, r, d);
    reads_at(plan, m, copy, soft_place(g, m.gear, s), m.gear - 1)
}

// How many blocks of the disks are read for the old values of the cells that change, where only the
// new parity depends on them.
fn reads_of_old<P: WritePlan>(plan: &P, m: &Meta, given: &[Option<u8>; 8], r: Row, p: DiskNo) -> u8
    requires serves { P.serves plan.now m.now }
    requires in_range { IsInRange m.now }
    requires row { r < m.now.setup.geometry.rows }
{
    let mut old = 0u8;
    for d in 0..m.setup.geometry.disks {
        if is_changed(given, p, d) && !needs_old(plan, m, r, d) {
            old = old.saturating_add(reads_of(plan, m, r, d));
        }
    }
    old
}

// Whether the reads of the values that do not change are fewer than those of the old ones that do.
fn is_anew_in_any_gear<P: WritePlan>(
    plan: &P,
    m: &Meta,
    given: &[Option<u8>; 8],
    r: Row,
    p: DiskNo,
) -> bool
    requires serves { P.serves plan.now m.now }
    requires in_range { IsInRange m.now }
    requires row { r < m.now.setup.geometry.rows }
{
    let old = reads_of_old(plan, m, given, r, p);
    let mut rest = 0u8;
    for d in 0..m.setup.geometry.disks {
        if old <= rest {
            return false;
        }
        if !is_changed(given, p, d) {
            rest = rest.saturating_add(reads_of(plan, m, r, d));
        }
    }
    rest < old
}

// The same where each cell has its value in its hard place and no disk is out: all are at one place
// of the disks. They are counted without a branch, since no processor can guess which are staged.
fn is_anew_in_place<P: WritePlan>(
    plan: &P,
    m: &Meta,
    given: &[Option<u8>; 8],
    r: Row,
    p: DiskNo,
) -> bool
    requires row { r < m.now.setup.geometry.rows }
{
    let staged = plan.staged_at(hard_place(&m.setup.geometry, r));
    let mut old = 0u8;
    let mut rest = 0u8;
    for d in 0..m.setup.geometry.disks {
        let read = u8::from(!staged[d as usize]);
        let changed = u8::from(is_changed(given, p, d));
        old = old.wrapping_add(read & changed);
        rest = rest.wrapping_add(read & (changed ^ 1));
    }
    rest < old
}

/// Whether the new parity of a row is made of the values of its cells that do not change, and not
/// of the old values of those that do: where that reads less.
pub(crate) fn is_made_anew<P: WritePlan>(
    plan: &P,
    m: &Meta,
    given: &[Option<u8>; 8],
    r: Row,
    p: DiskNo,
) -> bool
    requires serves { P.serves plan.now m.now }
    requires in_range { IsInRange m.now }
    requires row { r < m.now.setup.geometry.rows }
{
    if has_soft(m) || m.out.named().is_some() {
        return is_anew_in_any_gear(plan, m, given, r, p);
    }
    is_anew_in_place(plan, m, given, r, p)
}
