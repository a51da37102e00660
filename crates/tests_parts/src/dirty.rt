//! Dirty cells of the greatest table.

use paraid_dirty::DirtyTable;
use std::alloc::Global;

// Cells of the greatest table, from the first to the last.
const CELLS: [(u32, u8); 6] = [(0, 2), (0, 7), (63, 0), (64, 7), (65535, 3), (65535, 7)];

/// Makes these cells dirty.
fn set_all(table: &mut DirtyTable, cells: &[(u32, u8)]) {
    for &(row, disk) in cells {
        if row < table.rows() && disk < 8 {
            table.set(row, disk);
        }
    }
}

/// Makes them clean.
fn clear_all(table: &mut DirtyTable, cells: &[(u32, u8)]) {
    for &(row, disk) in cells {
        if row < table.rows() && disk < 8 {
            table.clear(row, disk);
        }
    }
}

/// The greatest table with the cells dirty.
fn table_of(alloc: Global) -> Option<DirtyTable> {
    let Ok(mut table) = DirtyTable::new(alloc, 65536) else {
        return None;
    };
    set_all(&mut table, &CELLS);
    Some(table)
}

/// The next dirty cell of a disk from `lo` to `hi - 1`, from this cell on.
fn next_of(table: &DirtyTable, row: u32, disk: u8, lo: u8, hi: u8) -> Option<(u32, u8)> {
    if disk > 8 || lo > hi || hi > 8 {
        return None;
    }
    table.next_from(row, disk, lo, hi)
}

/// Whether each cell is found from the one before on, and none after the last; and one of some
/// disks.
fn are_found(table: &DirtyTable) -> bool {
    let mut from = (0, 0);
    for &(row, disk) in &CELLS {
        if next_of(table, from.0, from.1, 0, 8) != Some((row, disk)) {
            return false;
        }
        from = (row, disk.wrapping_add(1));
    }
    next_of(table, from.0, from.1, 0, 8) == None && next_of(table, 64, 0, 3, 7) == Some((65535, 3))
}

fn is_dirty(table: &DirtyTable, row: u32, disk: u8) -> Option<bool> {
    if row < table.rows() && disk < 8 {
        Some(table.has(row, disk))
    } else {
        None
    }
}

fn are_counted(table: &DirtyTable) -> bool {
    let are_right = table.count(0, 8) == 6 && table.count(7, 8) == 3 && table.count(4, 7) == 0;
    are_right && table.next(7, 8) == Some((0, 7))
}

fn is_last(table: &DirtyTable) -> bool {
    is_dirty(table, 65535, 7) == Some(true) && is_dirty(table, 65535, 6) == Some(false)
}

fn are_cleaned(table: &mut DirtyTable) -> bool {
    clear_all(table, &CELLS);
    table.next(0, 8) == None && table.count(0, 8) == 0
}

fn all_shown(alloc: Global) -> Option<[bool; 4]> {
    let mut table = table_of(alloc)?;
    Some([
        are_found(&table),
        are_counted(&table),
        is_last(&table),
        are_cleaned(&mut table),
    ])
}

#[test]
fn dirty_cells_are_found_in_order_counted_and_cleaned(rt: HostRuntime) {
    assert!(rt; all_shown(rt.alloc()) == Some([true; 4]));
}
