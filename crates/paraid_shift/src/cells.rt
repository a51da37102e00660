//! Dirty cells of the disks that come up are copied past the log, made to last and marked as clean.
ghost use Rattle.std.specs.Prelude.{◌≡◌, ◌≢◌, ◌+◌, ◌-◌, ◌^◌, ◌<◌, ◌≤◌, ◌⊎◌, true, false, length, OnOk, IfOk, IfNone, IfSome};
ghost use Rattle.paraid_base.specs.declared.state.Out.TheVariants.{No};
ghost use Rattle.paraid_core.specs.Cores.{batch_of, core_table, meta_of, store_of};
ghost use Rattle.paraid_core.specs.Lost.{CoreTellsLosses};
ghost use Rattle.paraid_image.specs.Out.{named_out};
ghost use Rattle.paraid_shift.specs.Outcomes.{MarksGroup};
ghost use Rattle.paraid_shift.specs.Parts.{CanMoveUnits, CopiesUnits, SparesRack};
ghost use Rattle.paraid_event.specs.CoreServing.{IsCoreServing};
ghost use Rattle.paraid_shift.specs.Rising.{CopiesFromRest, KeepsCopied};
ghost use Rattle.paraid_shift.specs.Steps.{CoreLosesInSteps};
ghost use Rattle.paraid_shift.specs.Units.{CoreCountsMoved, HasDirtyBefore, IsGroupOf, are_copied_before};
ghost use Rattle.paraid_base.specs.Log.{batch_room};

use crate::units::{first_cell, next_cell};
use paraid_base::{BATCH_ROOM, DiskNo, Out, Row, Two};
use paraid_core::Core;
use paraid_rack::Rack;

/// The most blocks of the map in which the cells of one group lie.
const MOST_MAP_BLOCKS: u32 = BATCH_ROOM as u32 / 2;

// Some cells: so many, in so many blocks of the map, the last of them just before this one.
#[derive(Clone, Copy)]
struct Group {
    count: u32,
    blocks: u32,
    row: Row,
    disk: DiskNo,
}

// The group with the cell of row `r` and disk `d`, unless that one lies in one block of the map too
// many.
fn with_cell(group: Group, r: Row, d: DiskNo) -> Option<Group>
    requires few { group.count < 2 ^ 32 - 1 }
    requires disk { d < 8 }
    requires none { group.count ≡ 0 → group.blocks ≡ 0 }
    ensures some { IfNone result (0 < group.count) }
    ensures count { IfSome result (λ more. more.count ≡ group.count + 1) }
    ensures row { IfSome result (λ more. more.row ≡ r) }
    ensures disk { IfSome result (λ more. more.disk ≡ d + 1) }
{
    let mut blocks = group.blocks;
    if group.count == 0 || group.row / 512 != r / 512 {
        blocks = blocks.saturating_add(1);
    }
    if blocks > MOST_MAP_BLOCKS {
        return None;
    }
    Some(Group {
        count: group.count + 1,
        blocks,
        row: r,
        disk: d + 1,
    })
}

// Copies dirty cells of the disks that come up, in their order and at most `most`. None where a
// disk was lost.
fn copy_cells<R: Rack>(core: &mut Core<R>, most: u32) -> Result<Option<Group>, Two>
    requires can { CanMoveUnits core.old }
    ensures copies { CopiesUnits core.old core.new result }
    ensures rack { SparesRack core.old core.new
        (CoreTellsLosses R.told (named_out (meta_of core.old).out) core.old core.new) result }
    ensures group { IfOk result (λ group. IfSome group (λ it.
        IsGroupOf (meta_of core.old) (core_table core.old) most it.count it.row it.disk)) }
    ensures lost { IfOk result (λ group. IfNone group ((meta_of core.new).out ≢ No)) }
    ensures copied { IfOk result (λ group. IfSome group (λ it. CopiesFromRest R.slot_count
        R.told core.old core.new (are_copied_before (meta_of core.old) it.row it.disk))) }
{
    let mut group = Group {
        count: 0,
        blocks: 0,
        row: 0,
        disk: 0,
    };
    for at in 0..most {
        let Some((r, d)) = next_cell(core, group.row, group.disk) else {
            return Ok(Some(group));
        };
        let Some(more) = with_cell(group, r, d) else {
            return Ok(Some(group));
        };
        let done = core.copy_cell(r, d)?;
        if !done {
            return Ok(None);
        }
        group = more;
    }
    Ok(Some(group))
}

// Whether the cell of row `r` and disk `d` does not come after the last one of the group.
fn is_within(group: &Group, r: Row, d: DiskNo) -> bool
    ensures within { result ≡ true
        → (r < group.now.row) ⊎ ((r ≡ group.now.row) × (d < group.now.disk)) }
    ensures past { result ≡ false
        → (group.now.row < r) ⊎ ((group.now.row ≡ r) × (group.now.disk ≤ d)) }
{
    if group.row == r {
        return d < group.disk;
    }
    r < group.row
}

// Marks the first dirty cell of the disks that come up as clean, if it is one of the group and
// there is room.
fn mark_one<R: Rack>(core: &mut Core<R>, group: &Group) -> bool
    requires serving { IsCoreServing R.slot_count R.slot core.old }
    requires whole { (meta_of core.old).out ≡ No }
    ensures serving { IsCoreServing R.slot_count R.slot core.new }
    ensures meta { meta_of core.new ≡ meta_of core.old }
    ensures store { store_of core.new ≡ store_of core.old }
    ensures moves { result ≡ true → CoreCountsMoved R.slot_count core.old core.new 1 }
    ensures idle { result ≡ false → core.new ≡ core.old }
    ensures some { result ≡ false → length (batch_of core.old) + 2 ≤ batch_room
        → HasDirtyBefore (meta_of core.old) (core_table core.old) group.now.row group.now.disk → ⊥ }
    ensures copied { KeepsCopied R.slot_count R.told core.old core.new
        (are_copied_before (meta_of core.old) group.now.row group.now.disk) }
{
    let Some((r, d)) = first_cell(core) else {
        return false;
    };
    if !is_within(group, r, d) {
        return false;
    }
    if !core.has_map_room(r) {
        return false;
    }
    core.mark_cleaned(r, d);
    true
}

// Marks the cells of a group as clean, and gives how many there were.
fn mark_cells<R: Rack>(core: &mut Core<R>, group: &Group) -> u32
    requires serving { IsCoreServing R.slot_count R.slot core.old }
    requires whole { (meta_of core.old).out ≡ No }
    ensures serving { IsCoreServing R.slot_count R.slot core.new }
    ensures meta { meta_of core.new ≡ meta_of core.old }
    ensures store { store_of core.new ≡ store_of core.old }
    ensures few { result ≤ group.now.count }
    ensures moves { CoreCountsMoved R.slot_count core.old core.new result }
    ensures idle { result ≡ 0 → core.new ≡ core.old }
    ensures some { length (batch_of core.old) + 2 ≤ batch_room → 0 < group.now.count
        → HasDirtyBefore (meta_of core.old) (core_table core.old) group.now.row group.now.disk
        → 0 < result }
    ensures copied { KeepsCopied R.slot_count R.told core.old core.new
        (are_copied_before (meta_of core.old) group.now.row group.now.disk) }
{
    for marked in 0..group.count {
        if !mark_one(core, group) {
            return marked;
        }
    }
    group.count
}

/// Copies a group of dirty cells of the disks that come up, at most `most`, makes them last and
/// marks them; the marks are staged. It gives how many were marked, none where a disk was lost.
pub(crate) fn move_group<R: Rack>(core: &mut Core<R>, most: u32) -> Result<u32, Two>
    requires can { CanMoveUnits core.old }
    ensures marks { IfOk result (λ count.
        MarksGroup R.slot_count R.slot R.told core.old core.new most count) }
    ensures rack { SparesRack core.old core.new
        (CoreLosesInSteps R.slot_count R.told core.old core.new 1) result }
{
    let copied = copy_group(core, most)?;
    let Some(group) = copied else {
        return Ok(0);
    };
    Ok(mark_cells(core, &group))
}

// Copies a group and makes it last. None where a disk was lost.
fn copy_group<R: Rack>(core: &mut Core<R>, most: u32) -> Result<Option<Group>, Two>
    requires can { CanMoveUnits core.old }
    ensures serving { OnOk result (IsCoreServing R.slot_count R.slot core.new) }
    ensures copies { CopiesUnits core.old core.new result }
    ensures rack { SparesRack core.old core.new
        (CoreTellsLosses R.told (named_out (meta_of core.old).out) core.old core.new) result }
    ensures whole { IfOk result (λ group. IfSome group (λ it. (meta_of core.new).out ≡ No)) }
    ensures group { IfOk result (λ group. IfSome group (λ it.
        IsGroupOf (meta_of core.new) (core_table core.new) most it.count it.row it.disk)) }
    ensures lost { IfOk result (λ group. IfNone group ((meta_of core.new).out ≢ No)) }
    ensures copied { IfOk result (λ group. IfSome group (λ it. CopiesFromRest R.slot_count
        R.told core.old core.new (are_copied_before (meta_of core.old) it.row it.disk))) }
{
    let copied = copy_cells(core, most)?;
    core.settle()?;
    let Out::No = core.out() else {
        return Ok(None);
    };
    Ok(copied)
}
