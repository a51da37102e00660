//! The write of up to eight blocks, in any gear and phase and whichever disk is out: row by row,
//! each with one new parity, and at most ten targets for each block.
ghost use Rattle.std.specs.Prelude.{◌≡◌, ℕ, ◌+◌, ◌*◌, ◌/◌, ◌<◌, ◌≤◌, ◌==◌, ◌&&◌, ◌∷◌, [], false, length, get_or, All, OnOk, IfErr, if◌then◌else◌};
ghost use Rattle.paraid_base.specs.declared.block.Block.{Block as BlockType};
ghost use Rattle.paraid_base.specs.Cells.{home_row};
ghost use Rattle.paraid_base.specs.History.{last_of};
ghost use Rattle.paraid_base.specs.Pairs.{pairs_of};
ghost use Rattle.paraid_base.specs.Xor.{zero_block};
ghost use Rattle.paraid_dirty.specs.Bits.{bit_of};
ghost use Rattle.paraid_plan.specs.Desk.{StagesMap};
ghost use Rattle.paraid_plan.specs.Leaves.{Leaves, WritesCells, WritesRow};
ghost use Rattle.paraid_plan.specs.RowWrites.{HasRoom, StageAll, count_in_row, count_of_new_row, one_in_row, row_change};
ghost use Rattle.paraid_plan.specs.RowBits.{turns_cell_of, turns_in_new_row};
ghost use Rattle.paraid_plan.specs.WrittenBits.{bits_after_writes};
ghost use Rattle.paraid_record.specs.Range.{IsInRange};
ghost use Rattle.paraid_record.specs.declared.meta.Meta.{Meta as MetaType};
ghost use Rattle.paraid_base.specs.Regions.{array_blocks};
ghost use Rattle.paraid_base.specs.Log.{draft_room, change_room};

use crate::blocks::{block_of, keep_if, kept_or, none_kept};
use crate::cell::{has_soft, needs_old, stage_if, write_cell};
use crate::desk::{PlanLost, WritePlan};
use crate::given::{given_cells, is_row_before};
use crate::marks::is_written;
use crate::read::read_row;
use paraid_base::{Block, DiskNo, MAP_START, Pairs, Row};
use paraid_layout::{home, parity_disk};
use paraid_record::Meta;

// Stages the block of the map with the bits of a row, where one has changed.
fn stage_map<P: WritePlan>(plan: &mut P, m: &Meta, r: Row, staged: bool)
    requires in_range { IsInRange m.now }
    requires row { r < m.now.setup.geometry.rows }
    requires room { length (P.desk plan.old).staged + 2 ≤ draft_room }
    ensures map { StagesMap m.now (P.desk plan.old) (P.desk plan.new) (r / 512) staged }
    ensures room { length (P.desk plan.new).staged ≤ length (P.desk plan.old).staged + 2 }
    ensures changes { P.changes plan.new ≡ P.changes plan.old }
    ensures goes_on { (n : MetaType) → P.serves plan.old n → P.serves plan.new n }
    ensures leads { P.leads plan.old plan.new }
{
    if !staged {
        return;
    }
    let j = r / 512;
    let mut block = Block::zero();
    plan.map_block(j, &mut block);
    let unit = m.setup.geometry.rows + m.setup.geometry.stripes(m.gear) + j;
    stage_if(plan, is_written(m.out, 0, unit), 0, MAP_START + j, &block);
    stage_if(plan, is_written(m.out, 1, unit), 1, MAP_START + j, &block);
}

// Whether two rows of dirty bits are not the same.
fn is_other(first: u8, second: u8) -> bool
    ensures { result ≡ false → first ≡ second }
{
    first != second
}

// Whether the dirty bits of a row are not what they were.
fn has_changed<P: WritePlan>(plan: &P, m: &Meta, r: Row, was: u8) -> bool
    requires serves { P.serves plan.now m.now }
    requires row { r < m.now.setup.geometry.rows }
    ensures { result ≡ false → (d : ℕ) → (P.desk plan.now).dirty r d ≡ bit_of was d }
{
    is_other(plan.dirty_row(m, r), was)
}

// Writes the cell of one pair, unless it lies in another row; its new bytes are the old ones of
// what follows.
fn write_pair<P: WritePlan>(
    plan: &mut P,
    m: &Meta,
    pairs: &Pairs,
    at: usize,
    r: Row,
    old: &mut [Option<Block>],
) -> Result<(), PlanLost>
    requires serves { P.serves plan.old m.now }
    requires in_range { IsInRange m.now }
    requires row { r < m.now.setup.geometry.rows }
    requires at { at < pairs.now.count }
    requires kept { HasRoom m.now old.old }
    requires block { get_or pairs.now.blocks at 0
        < array_blocks m.now.setup.geometry }
    requires room { length (P.desk plan.old).staged
        + 4 * one_in_row m.now.setup.geometry.disks (get_or pairs.now.blocks at 0) r ≤ draft_room }
    requires bits { P.changes plan.old
        + one_in_row m.now.setup.geometry.disks (get_or pairs.now.blocks at 0) r ≤ change_room }
    ensures { Leaves P.WritePlan (WritesCells P.WritePlan m.now (pairs_of pairs.now)
        ((get_or pairs.now.blocks at 0, get_or pairs.now.bytes at zero_block) ∷ []) r
        (one_in_row m.now.setup.geometry.disks (get_or pairs.now.blocks at 0) r)
        old.old old.new plan.old plan.new) plan.old plan.new result }
{
    let (q, d) = home(&m.setup.geometry, pairs.blocks[at]);
    if q != r {
        return Ok(());
    }
    let bytes = block_of(&pairs.bytes, at);
    write_cell(plan, m, r, d, kept_or(old, d, bytes), bytes)?;
    let depends = needs_old(plan, m, r, d);
    keep_if(depends, old, d, bytes);
    Ok(())
}

// Writes the cells that the pairs name in a row, one after the other.
fn write_pairs<P: WritePlan>(
    plan: &mut P,
    m: &Meta,
    pairs: &Pairs,
    r: Row,
    old: &mut [Option<Block>],
) -> Result<(), PlanLost>
    requires serves { P.serves plan.old m.now }
    requires in_range { IsInRange m.now }
    requires row { r < m.now.setup.geometry.rows }
    requires kept { HasRoom m.now old.old }
    requires blocks { All (λ (pair : ℕ × BlockType). pair.0
        < array_blocks m.now.setup.geometry) (pairs_of pairs.now) }
    requires room { length (P.desk plan.old).staged
        + 4 * count_in_row m.now.setup.geometry.disks (pairs_of pairs.now) r ≤ draft_room }
    requires bits { P.changes plan.old
        + count_in_row m.now.setup.geometry.disks (pairs_of pairs.now) r ≤ change_room }
    ensures { Leaves P.WritePlan (WritesCells P.WritePlan m.now (pairs_of pairs.now)
        (pairs_of pairs.now) r (count_in_row m.now.setup.geometry.disks (pairs_of pairs.now) r)
        old.old old.new plan.old plan.new) plan.old plan.new result }
{
    for at in 0..pairs.count as usize {
        write_pair(plan, m, pairs, at, r, old)?;
    }
    Ok(())
}

// Writes the cells that the pairs name in a row, its parity once, and the changed dirty bits, with
// room for the old values on which more than the parity depends.
fn write_row_in<P: WritePlan>(
    plan: &mut P,
    m: &Meta,
    pairs: &Pairs,
    r: Row,
    old: &mut [Option<Block>],
) -> Result<(), PlanLost>
    requires serves { P.serves plan.old m.now }
    requires in_range { IsInRange m.now }
    requires row { r < m.now.setup.geometry.rows }
    requires blocks { All (λ (pair : ℕ × BlockType). pair.0
        < array_blocks m.now.setup.geometry) (pairs_of pairs.now) }
    requires kept { HasRoom m.now old.old }
    requires some { 1 ≤ count_in_row m.now.setup.geometry.disks (pairs_of pairs.now) r }
    requires room { length (P.desk plan.old).staged
        + 10 * count_in_row m.now.setup.geometry.disks (pairs_of pairs.now) r ≤ draft_room }
    requires bits { P.changes plan.old
        + 2 * count_in_row m.now.setup.geometry.disks (pairs_of pairs.now) r ≤ change_room }
    ensures { Leaves P.WritePlan (WritesRow P.WritePlan m.now
        (count_in_row m.now.setup.geometry.disks (pairs_of pairs.now) r) (λ c x.
        if home_row m.now.setup.geometry.disks c == r then last_of c x (pairs_of pairs.now)
        else x) (λ q e. q == r && turns_cell_of m.now.setup.geometry.disks (pairs_of pairs.now) r e)
        plan.old plan.new) plan.old plan.new result }
{
    let p = parity_disk(&m.setup.geometry, r);
    let mut fixed = Block::zero();
    let given = given_cells(&m.setup.geometry, pairs, r);
    read_row(plan, m, pairs, &given, r, p, old, &mut fixed)?;
    let was = plan.dirty_row(m, r);
    write_pairs(plan, m, pairs, r, old)?;
    write_cell(plan, m, r, p, kept_or(old, p, &fixed), &fixed)?;
    let staged = has_changed(plan, m, r, was);
    stage_map(plan, m, r, staged);
    Ok(())
}

// The same, with that room only where it can be needed, for it is large.
fn write_row<P: WritePlan>(plan: &mut P, m: &Meta, pairs: &Pairs, r: Row) -> Result<(), PlanLost>
    requires serves { P.serves plan.old m.now }
    requires in_range { IsInRange m.now }
    requires row { r < m.now.setup.geometry.rows }
    requires blocks { All (λ (pair : ℕ × BlockType). pair.0
        < array_blocks m.now.setup.geometry) (pairs_of pairs.now) }
    requires some { 1 ≤ count_in_row m.now.setup.geometry.disks (pairs_of pairs.now) r }
    requires room { length (P.desk plan.old).staged
        + 10 * count_in_row m.now.setup.geometry.disks (pairs_of pairs.now) r ≤ draft_room }
    requires bits { P.changes plan.old
        + 2 * count_in_row m.now.setup.geometry.disks (pairs_of pairs.now) r ≤ change_room }
    ensures { Leaves P.WritePlan (WritesRow P.WritePlan m.now
        (count_in_row m.now.setup.geometry.disks (pairs_of pairs.now) r) (λ c x.
        if home_row m.now.setup.geometry.disks c == r then last_of c x (pairs_of pairs.now)
        else x) (λ q e. q == r && turns_cell_of m.now.setup.geometry.disks (pairs_of pairs.now) r e)
        plan.old plan.new) plan.old plan.new result }
{
    if has_soft(m) {
        return write_row_in(plan, m, pairs, r, &mut none_kept());
    }
    write_row_in(plan, m, pairs, r, &mut [])
}

// Writes the row of one pair, unless a pair before it lies in the same row.
fn write_row_of<P: WritePlan>(
    plan: &mut P,
    m: &Meta,
    pairs: &Pairs,
    at: usize,
) -> Result<(), PlanLost>
    requires serves { P.serves plan.old m.now }
    requires in_range { IsInRange m.now }
    requires at { at < pairs.now.count }
    requires blocks { All (λ (pair : ℕ × BlockType). pair.0
        < array_blocks m.now.setup.geometry) (pairs_of pairs.now) }
    requires room { length (P.desk plan.old).staged
        + 10 * count_of_new_row m.now.setup.geometry.disks pairs.now at ≤ draft_room }
    requires bits { P.changes plan.old
        + 2 * count_of_new_row m.now.setup.geometry.disks pairs.now at ≤ change_room }
    ensures { Leaves P.WritePlan
        (WritesRow P.WritePlan m.now (count_of_new_row m.now.setup.geometry.disks pairs.now at)
        (row_change m.now.setup.geometry.disks pairs.now at) (turns_in_new_row
        m.now.setup.geometry.disks pairs.now at) plan.old plan.new) plan.old plan.new result }
{
    let (r, _d) = home(&m.setup.geometry, pairs.blocks[at]);
    if is_row_before(&m.setup.geometry, pairs, at, r) {
        return Ok(());
    }
    write_row(plan, m, pairs, r)
}

/// Writes the blocks of these pairs in one plan, row by row: at most ten targets for each pair, and
/// at least one in all. Of several pairs that name a block the last one counts.
pub fn write_blocks<P: WritePlan>(plan: &mut P, m: &Meta, pairs: &Pairs) -> Result<(), PlanLost>
    requires serves { P.serves plan.old m.now }
    requires in_range { IsInRange m.now }
    requires blocks { All (λ (pair : ℕ × BlockType). pair.0
        < array_blocks m.now.setup.geometry) (pairs_of pairs.now) }
    requires room { length (P.desk plan.old).staged + 10 * pairs.now.count ≤ draft_room }
    requires bits { P.changes plan.old + 2 * pairs.now.count ≤ change_room }
    ensures writes { OnOk result (P.tells plan.new
        → StageAll m.now (P.desk plan.old) (P.desk plan.new) (pairs_of pairs.now)) }
    ensures bits { OnOk result ((P.desk plan.new).dirty
        ≡ bits_after_writes m.now (pairs_of pairs.now) (P.desk plan.old).dirty) }
    ensures few { OnOk result
        (length (P.desk plan.new).staged ≤ length (P.desk plan.old).staged + 10 * pairs.now.count) }
    ensures grows { OnOk result (P.tells plan.new
        → length (P.desk plan.old).staged + 1 ≤ length (P.desk plan.new).staged) }
    ensures goes_on { OnOk result (P.serves plan.new m.now) }
    ensures fails { IfErr result (λ lost. P.fails plan.new) }
    ensures leads { P.leads plan.old plan.new }
{
    for at in 0..pairs.count as usize {
        write_row_of(plan, m, pairs, at)?;
    }
    Ok(())
}
