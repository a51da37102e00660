//! What the write of a row reads: the old values on which the parities of copies depend, and what
//! makes the row's new parity.
ghost use Rattle.std.specs.Prelude.{◌≡◌, ◌≢◌, ℕ, ◌+◌, ◌<◌, true, length, get_or, Some, None, OnOk, not, ◌&&◌, ◌||◌, if◌then◌else◌};
ghost use Rattle.paraid_base.specs.declared.block.Block.{Block as BlockType};
ghost use Rattle.paraid_base.specs.Cells.{parity_disk as parity_disk_of};
ghost use Rattle.paraid_base.specs.Pairs.{pairs_of};
ghost use Rattle.paraid_base.specs.Sums.{without, xor_upto};
ghost use Rattle.paraid_base.specs.Xor.{xor, zero_block};
ghost use Rattle.paraid_plan.specs.Desk.{sees};
ghost use Rattle.paraid_plan.specs.Leaves.{Leaves, StaysAsWas};
ghost use Rattle.paraid_plan.specs.RowWrites.{AreGivenBy, AreOldRead, HasRoom, IsOldOf, is_changed as changed_in, new_parity, parity_part};
ghost use Rattle.paraid_plan.specs.WriteTargets.{needs_new as needs_new_in, needs_old as needs_old_in};
ghost use Rattle.paraid_record.specs.Range.{IsInRange};
ghost use Rattle.paraid_image.specs.Value.{value as value_of};

use crate::alone::{alone, read_alone};
use crate::blocks::keep_if;
use crate::cell::{needs_new, needs_old};
use crate::desk::{PlanLost, WritePlan};
use crate::given::{add_given, is_changed};
use crate::rule::is_made_anew;
use paraid_base::{Block, DiskNo, Pairs, Row};
use paraid_parity::xor_into;
use paraid_record::Meta;

// Whether the old value of a cell is a part of the new parity of its row.
fn is_part(anew: bool, changed: bool) -> bool
    ensures { result ≡ (if anew then not changed else changed) }
{
    if anew { !changed } else { changed }
}

// Whether the old value of a cell is read: for the new parity, or for what is staged of the cell.
fn is_wanted(needed: bool, part: bool, changed: bool, depends: bool) -> bool
    ensures { result ≡ ((needed && part) || (changed && depends)) }
{
    (needed && part) || (changed && depends)
}

// Whether two things are so.
fn both(first: bool, second: bool) -> bool
    ensures { result ≡ (first && second) }
{
    first && second
}

// Adds a block to a sum, or nothing.
fn add_if(added: bool, block: &Block, sum: &mut Block)
    ensures { sum.new ≡ xor sum.old (if added then block.now else zero_block) }
{
    if added {
        xor_into(sum, block);
    }
}

// Adds to a sum what a cell brings to the new parity.
fn add_part(
    pairs: &Pairs,
    given: &[Option<u8>; 8],
    anew: bool,
    changed: bool,
    d: DiskNo,
    value: &Block,
    sum: &mut Block,
)
    requires disk { d < 8 }
    requires few { (at : ℕ) → get_or given.now d None ≡ Some at → at < 8 }
    ensures { (n r : ℕ) (row : ℕ → Block)
        → d < n → AreGivenBy pairs.now.bytes n (pairs_of pairs.now) r given.now
        → changed ≡ changed_in n (pairs_of pairs.now) r d
        → ((if anew then not changed else changed) ≡ true → value.now ≡ row d)
        → sum.new ≡ xor sum.old (parity_part n (pairs_of pairs.now) r row anew d) }
{
    add_if(is_part(anew, changed), value, sum);
    add_given(pairs, given, d, sum);
}

// Reads the old value of a cell, keeps it where that is asked, and adds to the parity what the cell
// brings to it. It is apart from the test whether a cell is read, since most are not.
#[inline(never)]
fn read_wanted<P: WritePlan>(
    plan: &mut P,
    m: &Meta,
    pairs: &Pairs,
    given: &[Option<u8>; 8],
    anew: bool,
    changed: bool,
    keeps: bool,
    r: Row,
    d: DiskNo,
    old: &mut [Option<Block>],
    into: &mut Block,
    sum: &mut Block,
) -> Result<(), PlanLost>
    requires serves { P.serves plan.old m.now }
    requires in_range { IsInRange m.now }
    requires row { r < m.now.setup.geometry.rows }
    requires disk { d < m.now.setup.geometry.disks }
    requires given { AreGivenBy pairs.now.bytes m.now.setup.geometry.disks
        (pairs_of pairs.now) r given.now }
    requires changed { changed ≡ changed_in m.now.setup.geometry.disks (pairs_of pairs.now) r d }
    requires kept { keeps ≡ true → d < length old.old }
    ensures here { OnOk result (P.tells plan.new → keeps ≡ true
        → IsOldOf old.new d (value_of (sees m.now (P.desk plan.old)) r d)) }
    ensures others { (x : ℕ) (b : BlockType) → x ≢ d → IsOldOf old.old x b → IsOldOf old.new x b }
    ensures sum { OnOk result (P.tells plan.new
        → sum.new ≡ xor sum.old (parity_part m.now.setup.geometry.disks
        (pairs_of pairs.now) r (value_of (sees m.now (P.desk plan.old)) r) anew d)) }
    ensures kept { OnOk result (length old.new ≡ length old.old) }
    ensures reads { Leaves P.WritePlan
        (StaysAsWas P.WritePlan m.now plan.old plan.new) plan.old plan.new result }
{
    plan.value(m, r, d, into)?;
    keep_if(keeps, old, d, into);
    add_part(pairs, given, anew, changed, d, into, sum);
    Ok(())
}

// Reads the old value of a cell, where what is staged of it or the new parity depends on it, and
// adds to the parity what the cell brings to it. What is read goes into a block that many cells can
// share.
fn read_cell<P: WritePlan>(
    plan: &mut P,
    m: &Meta,
    pairs: &Pairs,
    given: &[Option<u8>; 8],
    needed: bool,
    anew: bool,
    r: Row,
    p: DiskNo,
    d: DiskNo,
    old: &mut [Option<Block>],
    into: &mut Block,
    sum: &mut Block,
) -> Result<(), PlanLost>
    requires serves { P.serves plan.old m.now }
    requires in_range { IsInRange m.now }
    requires row { r < m.now.setup.geometry.rows }
    requires disk { d < m.now.setup.geometry.disks }
    requires parity { p ≡ parity_disk_of m.now.setup.geometry.disks r }
    requires given { AreGivenBy pairs.now.bytes m.now.setup.geometry.disks
        (pairs_of pairs.now) r given.now }
    requires kept { HasRoom m.now old.old }
    ensures here { OnOk result (P.tells plan.new
        → changed_in m.now.setup.geometry.disks (pairs_of pairs.now) r d ≡ true
        → needs_old_in (sees m.now (P.desk plan.old)) r d ≡ true
        → IsOldOf old.new d (value_of (sees m.now (P.desk plan.old)) r d)) }
    ensures others { (x : ℕ) (b : BlockType) → x ≢ d → IsOldOf old.old x b → IsOldOf old.new x b }
    ensures sum { OnOk result (P.tells plan.new
        → needed ≡ true → sum.new ≡ xor sum.old (parity_part m.now.setup.geometry.disks
        (pairs_of pairs.now) r (value_of (sees m.now (P.desk plan.old)) r) anew d)) }
    ensures kept { OnOk result (length old.new ≡ length old.old) }
    ensures reads { Leaves P.WritePlan
        (StaysAsWas P.WritePlan m.now plan.old plan.new) plan.old plan.new result }
{
    let changed = is_changed(given, p, d);
    let depends = needs_old(plan, m, r, d);
    let part = is_part(anew, changed);
    let wanted = is_wanted(needed, part, changed, depends);
    if !wanted {
        add_given(pairs, given, d, sum);
        return Ok(());
    }
    let keeps = both(changed, depends);
    read_wanted(
        plan, m, pairs, given, anew, changed, keeps, r, d, old, into, sum,
    )
}

// The same, unless the cell is the row's parity.
fn read_data<P: WritePlan>(
    plan: &mut P,
    m: &Meta,
    pairs: &Pairs,
    given: &[Option<u8>; 8],
    needed: bool,
    anew: bool,
    r: Row,
    p: DiskNo,
    d: DiskNo,
    old: &mut [Option<Block>],
    into: &mut Block,
    sum: &mut Block,
) -> Result<(), PlanLost>
    requires serves { P.serves plan.old m.now }
    requires in_range { IsInRange m.now }
    requires row { r < m.now.setup.geometry.rows }
    requires disk { d < m.now.setup.geometry.disks }
    requires parity { p ≡ parity_disk_of m.now.setup.geometry.disks r }
    requires given { AreGivenBy pairs.now.bytes m.now.setup.geometry.disks
        (pairs_of pairs.now) r given.now }
    requires kept { HasRoom m.now old.old }
    ensures here { OnOk result (P.tells plan.new → d ≢ parity_disk_of m.now.setup.geometry.disks r
        → changed_in m.now.setup.geometry.disks (pairs_of pairs.now) r d ≡ true
        → needs_old_in (sees m.now (P.desk plan.old)) r d ≡ true
        → IsOldOf old.new d (value_of (sees m.now (P.desk plan.old)) r d)) }
    ensures others { (x : ℕ) (b : BlockType) → x ≢ d → IsOldOf old.old x b → IsOldOf old.new x b }
    ensures sum { OnOk result (P.tells plan.new
        → needed ≡ true → let n = m.now.setup.geometry.disks in let part = parity_part n
        (pairs_of pairs.now) r (value_of (sees m.now (P.desk plan.old)) r) anew in sum.old
        ≡ xor_upto (without part (parity_disk_of n r)) d
        → sum.new ≡ xor_upto (without part (parity_disk_of n r)) (d + 1)) }
    ensures kept { OnOk result (length old.new ≡ length old.old) }
    ensures reads { Leaves P.WritePlan
        (StaysAsWas P.WritePlan m.now plan.old plan.new) plan.old plan.new result }
{
    if d == p {
        return Ok(());
    }
    read_cell(plan, m, pairs, given, needed, anew, r, p, d, old, into, sum)
}

// Reads the old values of the data cells of a row, and then that of its parity, as far as they are
// needed.
fn read_cells<P: WritePlan>(
    plan: &mut P,
    m: &Meta,
    pairs: &Pairs,
    given: &[Option<u8>; 8],
    needed: bool,
    anew: bool,
    r: Row,
    p: DiskNo,
    old: &mut [Option<Block>],
    sum: &mut Block,
) -> Result<(), PlanLost>
    requires serves { P.serves plan.old m.now }
    requires in_range { IsInRange m.now }
    requires row { r < m.now.setup.geometry.rows }
    requires parity_disk { p < m.now.setup.geometry.disks }
    requires empty { sum.old ≡ zero_block }
    requires parity { p ≡ parity_disk_of m.now.setup.geometry.disks r }
    requires given { AreGivenBy pairs.now.bytes m.now.setup.geometry.disks
        (pairs_of pairs.now) r given.now }
    requires kept { HasRoom m.now old.old }
    ensures old { OnOk result (P.tells plan.new → AreOldRead m.now (P.desk plan.old)
        (pairs_of pairs.now) r old.new (value_of (sees m.now (P.desk plan.old)) r)) }
    ensures sum { OnOk result (P.tells plan.new
        → needed ≡ true → let n = m.now.setup.geometry.disks in sum.new ≡ xor_upto
        (parity_part n (pairs_of pairs.now) r (value_of (sees m.now (P.desk plan.old)) r) anew) n) }
    ensures kept { OnOk result (length old.new ≡ length old.old) }
    ensures reads { Leaves P.WritePlan
        (StaysAsWas P.WritePlan m.now plan.old plan.new) plan.old plan.new result }
{
    let mut value = Block::zero();
    for d in 0..m.setup.geometry.disks {
        read_data(
            plan, m, pairs, given, needed, anew, r, p, d, old, &mut value, sum,
        )?;
    }
    read_cell(
        plan, m, pairs, given, needed, anew, r, p, p, old, &mut value, sum,
    )
}

/// Makes the new parity of a row, by whichever rule reads less, and reads the old values of the
/// cells that change on which more than that depends.
pub(crate) fn read_row<P: WritePlan>(
    plan: &mut P,
    m: &Meta,
    pairs: &Pairs,
    given: &[Option<u8>; 8],
    r: Row,
    p: DiskNo,
    old: &mut [Option<Block>],
    fixed: &mut Block,
) -> Result<(), PlanLost>
    requires serves { P.serves plan.old m.now }
    requires in_range { IsInRange m.now }
    requires row { r < m.now.setup.geometry.rows }
    requires parity_disk { p < m.now.setup.geometry.disks }
    requires empty { fixed.old ≡ zero_block }
    requires parity { p ≡ parity_disk_of m.now.setup.geometry.disks r }
    requires given { AreGivenBy pairs.now.bytes m.now.setup.geometry.disks
        (pairs_of pairs.now) r given.now }
    requires kept { HasRoom m.now old.old }
    ensures old { OnOk result (P.tells plan.new → AreOldRead m.now (P.desk plan.old)
        (pairs_of pairs.now) r old.new (value_of (sees m.now (P.desk plan.old)) r)) }
    ensures fixed { OnOk result (P.tells plan.new → needs_new_in (sees m.now (P.desk plan.old)) r p
        ≡ true → xor_upto (value_of (sees m.now (P.desk plan.old)) r) m.now.setup.geometry.disks
        ≡ zero_block → fixed.new ≡ new_parity m.now.setup.geometry.disks
        (pairs_of pairs.now) r (value_of (sees m.now (P.desk plan.old)) r)) }
    ensures kept { OnOk result (length old.new ≡ length old.old) }
    ensures reads { Leaves P.WritePlan
        (StaysAsWas P.WritePlan m.now plan.old plan.new) plan.old plan.new result }
{
    let needed = needs_new(plan, m, r, p);
    let anew = is_made_anew(plan, m, given, r, p);
    if let Some(one) = alone(m, given, needed, anew, p) {
        return read_alone(plan, m, pairs, one, r, p, fixed);
    }
    read_cells(plan, m, pairs, given, needed, anew, r, p, old, fixed)
}
