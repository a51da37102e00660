//! The write of one cell: to its place or its copy, and to its copy in the region that is filled.
ghost use Rattle.std.specs.Prelude.{◌≡◌, ◌+◌, ◌<◌, ◌≤◌, true, false, length, OnOk, IfErr};
ghost use Rattle.paraid_base.specs.Soft.{soft_parity_disk, soft_stripe};
ghost use Rattle.paraid_base.specs.Regions.{soft_place_of};
ghost use Rattle.paraid_base.specs.Xor.{xor};
ghost use Rattle.paraid_plan.specs.Desk.{with_targets, sees, place_targets, copy_targets, cell_desk};
ghost use Rattle.paraid_plan.specs.Leaves.{Leaves, StaysAsWas};
ghost use Rattle.paraid_plan.specs.RowWrites.{has_soft as has_soft_in};
ghost use Rattle.paraid_plan.specs.WriteTargets.{stripe_block_now, target_if, goes_hard as goes_hard_in, is_written as written_in, is_filled as filled_in, needs_new as needs_new_in, needs_old as needs_old_in};
ghost use Rattle.paraid_plan.specs.WrittenBits.{bits_after_cell};
ghost use Rattle.paraid_record.specs.Codes.{phase_to as phase_to_of};
ghost use Rattle.paraid_record.specs.Range.{IsInRange};
ghost use Rattle.paraid_record.specs.declared.meta.Meta.{Meta as MetaType};
ghost use Rattle.paraid_image.specs.Spot.{is_hard as hard_in};
ghost use Rattle.paraid_base.specs.Log.{draft_room, change_room};

use crate::desk::{PlanLost, WritePlan};
use crate::marks::{is_filled, is_written};
use paraid_base::{Block, DiskNo, Place, Row};
use paraid_layout::{hard_place, soft_of, soft_parity, soft_place};
use paraid_parity::xor_into;
use paraid_record::Meta;

/// Whether the value of a cell lives in its hard place; else it lives in its copy.
#[tactic(auto, unfolding(paraid_image::specs::Spot::is_hard))]
pub(crate) fn is_hard<P: WritePlan>(plan: &P, m: &Meta, r: Row, d: DiskNo) -> bool
    requires serves { P.serves plan.now m.now }
    requires row { r < m.now.setup.geometry.rows }
    requires disk { d < m.now.setup.geometry.disks }
    ensures { result ≡ hard_in (sees m.now (P.desk plan.now)) r d }
{
    d < m.gear || (d < m.phase.rising_to() && !plan.is_dirty(m, r, d))
}

// Whether a write of a cell goes to its hard place: its value lives there, or a shift up brings its
// disk up and that disk is not out.
#[tactic(auto, unfolding(crate::specs::WriteTargets::goes_hard))]
fn goes_hard<P: WritePlan>(plan: &P, m: &Meta, r: Row, d: DiskNo) -> bool
    requires serves { P.serves plan.now m.now }
    requires row { r < m.now.setup.geometry.rows }
    requires disk { d < m.now.setup.geometry.disks }
    ensures { result ≡ goes_hard_in (sees m.now (P.desk plan.now)) r d }
{
    is_hard(plan, m, r, d) || (d < m.phase.rising_to() && !m.out.names(d))
}

/// Whether what a write of this cell stages shows its new value.
#[tactic(auto, unfolding(crate::specs::WriteTargets::needs_new))]
pub(crate) fn needs_new<P: WritePlan>(plan: &P, m: &Meta, r: Row, d: DiskNo) -> bool
    requires serves { P.serves plan.now m.now }
    requires in_range { IsInRange m.now }
    requires row { r < m.now.setup.geometry.rows }
    requires disk { d < m.now.setup.geometry.disks }
    ensures { result ≡ needs_new_in (sees m.now (P.desk plan.now)) r d }
{
    !goes_hard(plan, m, r, d) || is_written(m.out, d, r) || is_filled(m, r, d)
}

// Whether the parity of a copy of this cell is written, in the stripe that has its value.
fn has_parity(m: &Meta, r: Row, d: DiskNo) -> bool
    requires in_range { IsInRange m.now }
    requires row { r < m.now.setup.geometry.rows }
    requires disk { d < m.now.setup.geometry.disks }
    requires parked { m.now.gear ≤ d }
    ensures { result ≡ (
        let s = soft_stripe m.now.setup.geometry.disks m.now.gear r d in
        written_in m.now.out (soft_parity_disk m.now.gear s) (m.now.setup.geometry.rows + s)) }
{
    let (s, _copy) = soft_of(&m.setup.geometry, m.gear, r, d);
    let parity = soft_parity(&m.setup.geometry, m.gear, s);
    is_written(m.out, parity, m.setup.geometry.rows + s)
}

/// Whether what a write stages of some cell can depend on its old value.
#[tactic(auto, unfolding(crate::specs::RowWrites::has_soft))]
pub(crate) fn has_soft(m: &Meta) -> bool
    ensures { result ≡ has_soft_in m.now }
{
    m.gear < m.setup.geometry.disks || m.fill != 0
}

// Whether what a write of this cell stages depends on its old value.
#[inline(never)]
#[tactic(auto, unfolding(crate::specs::WriteTargets::needs_old))]
fn depends_on_old<P: WritePlan>(plan: &P, m: &Meta, r: Row, d: DiskNo) -> bool
    requires serves { P.serves plan.now m.now }
    requires in_range { IsInRange m.now }
    requires row { r < m.now.setup.geometry.rows }
    requires disk { d < m.now.setup.geometry.disks }
    ensures { result ≡ needs_old_in (sees m.now (P.desk plan.now)) r d }
{
    if goes_hard(plan, m, r, d) {
        return is_filled(m, r, d);
    }
    has_parity(m, r, d) || is_filled(m, r, d)
}

/// The same, by the meta alone where no cell has a copy.
pub(crate) fn needs_old<P: WritePlan>(plan: &P, m: &Meta, r: Row, d: DiskNo) -> bool
    requires serves { P.serves plan.now m.now }
    requires in_range { IsInRange m.now }
    requires row { r < m.now.setup.geometry.rows }
    requires disk { d < m.now.setup.geometry.disks }
    ensures { result ≡ needs_old_in (sees m.now (P.desk plan.now)) r d }
{
    if !has_soft(m) {
        return false;
    }
    depends_on_old(plan, m, r, d)
}

// Reads the parity of the stripe of a cell's copy, and changes it with the cell.
fn read_parity<P: WritePlan>(
    plan: &mut P,
    m: &Meta,
    r: Row,
    d: DiskNo,
    old: &Block,
    new: &Block,
    into: &mut Block,
) -> Result<(), PlanLost>
    requires serves { P.serves plan.old m.now }
    requires in_range { IsInRange m.now }
    requires row { r < m.now.setup.geometry.rows }
    requires disk { d < m.now.setup.geometry.disks }
    requires parked { m.now.gear ≤ d }
    ensures ok { OnOk result (P.tells plan.new
        → let s = soft_stripe m.now.setup.geometry.disks m.now.gear r d in written_in m.now.out
        (soft_parity_disk m.now.gear s) (m.now.setup.geometry.rows + s) ≡ true
        → into.new ≡ xor (xor (stripe_block_now
        (sees m.now (P.desk plan.old)) s (soft_parity_disk m.now.gear s)) old.now) new.now) }
    ensures reads { Leaves P.WritePlan
        (StaysAsWas P.WritePlan m.now plan.old plan.new) plan.old plan.new result }
{
    let (s, _copy) = soft_of(&m.setup.geometry, m.gear, r, d);
    let parity = soft_parity(&m.setup.geometry, m.gear, s);
    if !is_written(m.out, parity, m.setup.geometry.rows + s) {
        return Ok(());
    }
    plan.stripe(m, s, parity, into)?;
    xor_into(into, old);
    xor_into(into, new);
    Ok(())
}

// The same where the cell does not go to its hard place.
fn read_place<P: WritePlan>(
    plan: &mut P,
    m: &Meta,
    hard: bool,
    r: Row,
    d: DiskNo,
    old: &Block,
    new: &Block,
    into: &mut Block,
) -> Result<(), PlanLost>
    requires serves { P.serves plan.old m.now }
    requires in_range { IsInRange m.now }
    requires row { r < m.now.setup.geometry.rows }
    requires disk { d < m.now.setup.geometry.disks }
    requires parked { hard ≡ false → m.now.gear ≤ d }
    ensures ok { OnOk result (P.tells plan.new
        → let s = soft_stripe m.now.setup.geometry.disks m.now.gear r d in hard ≡ false
        → written_in m.now.out (soft_parity_disk m.now.gear s) (m.now.setup.geometry.rows + s)
        ≡ true → into.new ≡ xor (xor (stripe_block_now
        (sees m.now (P.desk plan.old)) s (soft_parity_disk m.now.gear s)) old.now) new.now) }
    ensures reads { Leaves P.WritePlan
        (StaysAsWas P.WritePlan m.now plan.old plan.new) plan.old plan.new result }
{
    if hard {
        return Ok(());
    }
    read_parity(plan, m, r, d, old, new, into)
}

// The same in the region that is being filled, where the stripe is filled already.
fn read_copy<P: WritePlan>(
    plan: &mut P,
    m: &Meta,
    filled: bool,
    r: Row,
    d: DiskNo,
    old: &Block,
    new: &Block,
    into: &mut Block,
) -> Result<(), PlanLost>
    requires serves { P.serves plan.old m.now }
    requires in_range { IsInRange m.now }
    requires row { r < m.now.setup.geometry.rows }
    requires disk { d < m.now.setup.geometry.disks }
    requires filled { filled ≡ filled_in m.now r d }
    ensures ok { OnOk result (P.tells plan.new
        → let to = phase_to_of m.now.phase in let s = soft_stripe m.now.setup.geometry.disks
        to r d in filled ≡ true → into.new ≡ xor (xor ((P.desk plan.old).block
        (soft_parity_disk to s) (soft_place_of m.now.setup.geometry to s)) old.now) new.now) }
    ensures reads { Leaves P.WritePlan
        (StaysAsWas P.WritePlan m.now plan.old plan.new) plan.old plan.new result }
{
    if !filled {
        return Ok(());
    }
    let to = m.phase.to();
    let (s, _copy) = soft_of(&m.setup.geometry, to, r, d);
    let parity = soft_parity(&m.setup.geometry, to, s);
    plan.stored(m, parity, soft_place(&m.setup.geometry, to, s), into)?;
    xor_into(into, old);
    xor_into(into, new);
    Ok(())
}

// Stages a block, or nothing where its place is not written.
pub(crate) fn stage_if<P: WritePlan>(
    plan: &mut P,
    written: bool,
    disk: DiskNo,
    place: Place,
    block: &Block,
)
    requires room { length (P.desk plan.old).staged < draft_room }
    ensures desk { P.desk plan.new
        ≡ with_targets (P.desk plan.old) (target_if written disk place block.now) }
    ensures room { length (P.desk plan.new).staged ≤ length (P.desk plan.old).staged + 1 }
    ensures changes { P.changes plan.new ≡ P.changes plan.old }
    ensures goes_on { (n : MetaType) → P.serves plan.old n → P.serves plan.new n }
    ensures leads { P.leads plan.old plan.new }
{
    if written {
        plan.stage(disk, place, block);
    }
}

// Stages a cell in its place.
fn stage_place<P: WritePlan>(
    plan: &mut P,
    m: &Meta,
    hard: bool,
    r: Row,
    d: DiskNo,
    new: &Block,
    parity_block: &Block,
)
    requires in_range { IsInRange m.now }
    requires row { r < m.now.setup.geometry.rows }
    requires disk { d < m.now.setup.geometry.disks }
    requires parked { hard ≡ false → m.now.gear ≤ d }
    requires room { length (P.desk plan.old).staged + 2 ≤ draft_room }
    ensures desk { P.desk plan.new
        ≡ with_targets (P.desk plan.old) (place_targets m.now hard r d new.now parity_block.now) }
    ensures room { length (P.desk plan.new).staged ≤ length (P.desk plan.old).staged + 2 }
    ensures changes { P.changes plan.new ≡ P.changes plan.old }
    ensures goes_on { (n : MetaType) → P.serves plan.old n → P.serves plan.new n }
    ensures leads { P.leads plan.old plan.new }
{
    let g = &m.setup.geometry;
    if hard {
        stage_if(plan, is_written(m.out, d, r), d, hard_place(g, r), new);
        return;
    }
    let (s, copy) = soft_of(g, m.gear, r, d);
    let place = soft_place(g, m.gear, s);
    let parity = soft_parity(g, m.gear, s);
    stage_if(plan, is_written(m.out, copy, g.rows + s), copy, place, new);
    stage_if(
        plan,
        is_written(m.out, parity, g.rows + s),
        parity,
        place,
        parity_block,
    );
}

// Stages its copy in the region that is being filled, where the stripe is filled already.
fn stage_copy<P: WritePlan>(
    plan: &mut P,
    m: &Meta,
    filled: bool,
    r: Row,
    d: DiskNo,
    new: &Block,
    parity_block: &Block,
)
    requires in_range { IsInRange m.now }
    requires row { r < m.now.setup.geometry.rows }
    requires disk { d < m.now.setup.geometry.disks }
    requires filled { filled ≡ filled_in m.now r d }
    requires room { length (P.desk plan.old).staged + 2 ≤ draft_room }
    ensures desk { P.desk plan.new
        ≡ with_targets (P.desk plan.old) (copy_targets m.now filled r d new.now parity_block.now) }
    ensures room { length (P.desk plan.new).staged ≤ length (P.desk plan.old).staged + 2 }
    ensures changes { P.changes plan.new ≡ P.changes plan.old }
    ensures goes_on { (n : MetaType) → P.serves plan.old n → P.serves plan.new n }
    ensures leads { P.leads plan.old plan.new }
{
    if !filled {
        return;
    }
    let g = &m.setup.geometry;
    let to = m.phase.to();
    let (s, copy) = soft_of(g, to, r, d);
    let place = soft_place(g, to, s);
    let parity = soft_parity(g, to, s);
    stage_if(plan, true, copy, place, new);
    stage_if(plan, true, parity, place, parity_block);
}

// The same, where it is written to its copy too, or there alone. It is apart, with room for the
// parities of both copies, since in the top gear no cell has one.
#[inline(never)]
fn write_copies<P: WritePlan>(
    plan: &mut P,
    m: &Meta,
    hard: bool,
    filled: bool,
    r: Row,
    d: DiskNo,
    old: &Block,
    new: &Block,
) -> Result<(), PlanLost>
    requires serves { P.serves plan.old m.now }
    requires in_range { IsInRange m.now }
    requires row { r < m.now.setup.geometry.rows }
    requires disk { d < m.now.setup.geometry.disks }
    requires hard { hard ≡ goes_hard_in (sees m.now (P.desk plan.old)) r d }
    requires filled { filled ≡ filled_in m.now r d }
    requires room { length (P.desk plan.old).staged + 4 ≤ draft_room }
    requires few { P.changes plan.old < change_room }
    ensures desk { OnOk result (P.tells plan.new
        → P.desk plan.new ≡ cell_desk m.now (P.desk plan.old) r d old.now new.now) }
    ensures bits { OnOk result
        ((P.desk plan.new).dirty ≡ bits_after_cell m.now r d (P.desk plan.old).dirty) }
    ensures room { OnOk result
        (length (P.desk plan.new).staged ≤ length (P.desk plan.old).staged + 4) }
    ensures changes { OnOk result (P.changes plan.new ≡ P.changes plan.old + 1) }
    ensures goes_on { OnOk result (P.serves plan.new m.now) }
    ensures fails { IfErr result (λ lost. P.fails plan.new) }
    ensures leads { P.leads plan.old plan.new }
{
    let mut place_parity = Block::zero();
    read_place(plan, m, hard, r, d, old, new, &mut place_parity)?;
    let mut copy_parity = Block::zero();
    read_copy(plan, m, filled, r, d, old, new, &mut copy_parity)?;
    stage_place(plan, m, hard, r, d, new, &place_parity);
    stage_copy(plan, m, filled, r, d, new, &copy_parity);
    plan.set_dirty(m, r, d, !hard);
    Ok(())
}

/// Writes a cell whose value is `old`.
#[inline(always)]
pub fn write_cell<P: WritePlan>(
    plan: &mut P,
    m: &Meta,
    r: Row,
    d: DiskNo,
    old: &Block,
    new: &Block,
) -> Result<(), PlanLost>
    requires serves { P.serves plan.old m.now }
    requires in_range { IsInRange m.now }
    requires row { r < m.now.setup.geometry.rows }
    requires disk { d < m.now.setup.geometry.disks }
    requires room { length (P.desk plan.old).staged + 4 ≤ draft_room }
    requires few { P.changes plan.old < change_room }
    ensures desk { OnOk result (P.tells plan.new
        → P.desk plan.new ≡ cell_desk m.now (P.desk plan.old) r d old.now new.now) }
    ensures bits { OnOk result
        ((P.desk plan.new).dirty ≡ bits_after_cell m.now r d (P.desk plan.old).dirty) }
    ensures room { OnOk result
        (length (P.desk plan.new).staged ≤ length (P.desk plan.old).staged + 4) }
    ensures changes { OnOk result (P.changes plan.new ≡ P.changes plan.old + 1) }
    ensures goes_on { OnOk result (P.serves plan.new m.now) }
    ensures fails { IfErr result (λ lost. P.fails plan.new) }
    ensures leads { P.leads plan.old plan.new }
{
    let hard = goes_hard(plan, m, r, d);
    let filled = is_filled(m, r, d);
    if hard && !filled {
        stage_place(plan, m, true, r, d, new, new);
        plan.set_dirty(m, r, d, false);
        return Ok(());
    }
    write_copies(plan, m, hard, filled, r, d, old, new)
}
