//! Images made by hand: which of them are sound, and what they hold.
//!
//! Each is the array of five disks and five rows, with gears 4 and 5, as it is formatted, with
//! some changes.

use paraid_base::{Block, BlockNo, DiskNo, Pairs, Place};
use paraid_plain::{
    Image, Side, Statement, block_after, block_of, content, is_dirty, is_sound, out_of, side_of,
    standing_of, value_of,
};
use paraid_rack::Power;
use std::alloc::Global;
use std::process::Abort;

/// The bytes of the meta before its zeros, by hand from the layout of the block.
pub const META: [u8; 118] = [
    0x50, 0x41, 0x52, 0x41, 0x49, 0x44, 0x41, 0x52, 0x00, 0x02, 0x05, 0x02, 0x04, 0x05, 0x00, 0x00,
    0x00, 0x00, 0x00, 0x00, 0x00, 0x00, 0x00, 0x05, 0x00, 0x00, 0x00, 0x01, 0x00, 0x00, 0x00, 0x64,
    0x50, 0x3c, 0x00, 0x01, 0x03, 0xe8, 0x00, 0x00, 0x00, 0x00, 0x00, 0x64, 0x00, 0x00, 0x00, 0x00,
    0x00, 0x00, 0x00, 0x01, 0x00, 0x00, 0x00, 0x00, 0x00, 0x00, 0x00, 0x00, 0x00, 0x00, 0x00, 0x00,
    0x00, 0x00, 0x00, 0x00, 0x05, 0x00, 0x00, 0xff, 0x00, 0x00, 0x00, 0x00, 0x00, 0x00, 0x00, 0x00,
    0x00, 0x00, 0x00, 0x00, 0x00, 0x00, 0x00, 0x00, 0x00, 0x00, 0x00, 0x00, 0x00, 0x00, 0x00, 0x00,
    0x00, 0x00, 0x00, 0x00, 0x00, 0x00, 0x23, 0x28, 0x00, 0x00, 0x03, 0x84, 0x00, 0x00, 0xea, 0x60,
    0x00, 0x64, 0x00, 0x00, 0x00, 0x01,
];

// Where fields of the meta stand; of a longer one the last byte.
const EPOCH: usize = 51;

const WRITES: usize = 59;

const TICKS: usize = 67;

const GEAR: usize = 68;

const PHASE: usize = 69;

const TO: usize = 70;

const OUT: usize = 71;

const FRESH: usize = 72;

const FILL: usize = 79;

const REBUILT: usize = 83;

const SPINS_OF_4: usize = 93;

/// A change of an image.
#[derive(Clone, Copy)]
enum Change {
    Nothing,
    /// A byte of a block.
    Byte(DiskNo, Place, usize, u8),
    /// All bytes of a block.
    Fill(DiskNo, Place, u8),
    /// A byte of the metas of both log disks.
    MetaByte(usize, u8),
    /// The log of the write of block 7.
    Log(DiskNo),
    Powered(DiskNo, Power),
    /// A disk has one block less.
    Short(DiskNo),
    /// There is one slot less.
    Fewer,
}

use Change::{Byte, Fewer, Fill, Log, MetaByte, Nothing, Powered, Short};

/// Fills a row of a table up. A row that held a slice would be steps of its own in the proof of
/// what walks the table.
const NO: Change = Nothing;

/// A block of these bytes and then zeros.
pub fn block_with(bytes: &[u8]) -> Block {
    let mut block = Block::zero();
    for at in 0..bytes.len() {
        if at < 512 {
            block.set(at, bytes[at]);
        }
    }
    block
}

pub fn filled_with(byte: u8) -> Block {
    Block::from_array([byte; 512])
}

fn put(image: &mut Image, disk: DiskNo, place: Place, block: &Block) {
    if (place as usize) < image.size(disk) {
        image.set_block(disk, place, block);
    }
}

fn put_byte(image: &mut Image, disk: DiskNo, place: Place, at: usize, byte: u8) {
    if at < 512 && (place as usize) < image.size(disk) {
        image.set_byte(disk, place, at, byte);
    }
}

/// Block 7 is the cell of row 1 and disk 4. Its copy is on disk 1, the parity of the copy and the
/// hard parity of the row are on disk 3, and its dirty bit is bit 4 of byte 1 of the map.
fn put_log(image: &mut Image, disk: DiskNo) {
    let mut meta = block_with(&META);
    for (at, byte) in [(EPOCH, 6), (WRITES, 1), (TICKS, 2), (GEAR, 4)] {
        if at < 512 {
            meta.set(at, byte);
        }
    }
    put(image, disk, 2, &meta);
    let targets = [
        0, 5, 1, 0, 0, 0, 106, 3, 0, 0, 0, 106, 3, 0, 0, 0, 102, 0, 0, 0, 0, 100, 1, 0, 0, 0, 100,
    ];
    put(image, disk, 3, &block_with(&targets));
    for place in 4..7 {
        put(image, disk, place, &filled_with(0x77));
    }
    put(image, disk, 7, &block_with(&[0, 16]));
    put(image, disk, 8, &block_with(&[0, 16]));
}

fn apply(image: &mut Image, change: Change) {
    match change {
        Nothing => {}
        Byte(disk, place, at, byte) => put_byte(image, disk, place, at, byte),
        Fill(disk, place, byte) => put(image, disk, place, &filled_with(byte)),
        MetaByte(at, byte) => {
            put_byte(image, 0, 1, at, byte);
            put_byte(image, 1, 1, at, byte);
        }
        Log(disk) => put_log(image, disk),
        Powered(disk, power) => {
            if (disk as usize) < image.slots() {
                image.set_power(disk, power);
            }
        }
        Short(disk) => {
            if let Some(slot) = image.slots.get_mut(disk as usize) {
                slot.blocks.pop();
            }
        }
        Fewer => {
            image.slots.pop();
        }
    }
}

// Five disks of zeros.
fn blank(alloc: Global) -> Option<Image> {
    let mut image = Image::new(alloc);
    for _disk in 0..5 {
        image.add(alloc, Power::Spinning, 108).ok()?;
    }
    Some(image)
}

/// The array as it is formatted, with these changes.
fn array(alloc: Global, base: &[Change], changes: &[Change]) -> Option<Image> {
    let mut image = blank(alloc)?;
    put(&mut image, 0, 1, &block_with(&META));
    put(&mut image, 1, 1, &block_with(&META));
    for change in base {
        apply(&mut image, *change);
    }
    for change in changes {
        apply(&mut image, *change);
    }
    Some(image)
}

/// Changes of an array, a number of writes, and whether the array with them holds so many.
type Row = ([Change; 3], u64, bool);

// Whether the array with the changes of a row, after those of the base, holds so many writes of
// the history as the row says.
fn is_met(alloc: Global, base: &[Change], history: &[Pairs], row: &Row) -> bool {
    match array(alloc, base, &row.0) {
        Some(image) => is_sound(&image, history, row.1) == row.2,
        None => false,
    }
}

fn check(rt: &(impl Abort + AllocGlobal), base: &[Change], history: &[Pairs], rows: &[Row]) {
    for (at, row) in rows.iter().enumerate() {
        assert!(rt; is_met(rt.alloc(), base, history, row), "row {at}");
    }
}

/// The array after a shift down to gear 4.
const DOWN: [Change; 4] = [
    MetaByte(EPOCH, 5),
    MetaByte(TICKS, 2),
    MetaByte(GEAR, 4),
    Powered(4, Power::Parked),
];

/// The array after a shift down to gear 4 and the write of block 7.
const WRITTEN: [Change; 12] = [
    MetaByte(EPOCH, 6),
    MetaByte(WRITES, 1),
    MetaByte(TICKS, 2),
    MetaByte(GEAR, 4),
    Powered(4, Power::Parked),
    Log(0),
    Log(1),
    Fill(1, 106, 0x77),
    Fill(3, 106, 0x77),
    Fill(3, 102, 0x77),
    Byte(0, 100, 1, 16),
    Byte(1, 100, 1, 16),
];

/// The array in the commit of that write, when the gate of disk 0 is open.
const OPENED: [Change; 7] = [
    MetaByte(EPOCH, 5),
    MetaByte(TICKS, 2),
    MetaByte(GEAR, 4),
    Powered(4, Power::Parked),
    Log(0),
    Log(1),
    Byte(0, 0, 0, 1),
];

/// A history of one write of block 7.
fn one_write() -> [Pairs; 1] {
    [Pairs::one(7, &filled_with(0x77))]
}

/// Changes of the formatted array.
const FORMATTED: [Row; 33] = [
    ([NO; 3], 0, true),
    ([NO; 3], 1, false),
    // A data byte and a parity byte; both together are another value.
    ([Byte(0, 101, 9, 1), NO, NO], 0, false),
    ([Byte(4, 101, 9, 1), NO, NO], 0, false),
    ([Byte(0, 101, 9, 1), Byte(4, 101, 9, 1), NO], 0, false),
    // In the highest gear no stripe is looked at.
    ([Byte(2, 106, 0, 1), NO, NO], 0, true),
    // A gate opened over zeros, and a meta in its place.
    ([Byte(0, 0, 0, 1), NO, NO], 0, false),
    ([Byte(1, 0, 0, 1), NO, NO], 0, false),
    ([Byte(1, 0, 511, 1), NO, NO], 0, true),
    // The metas differ, are unreadable, or say another number of writes.
    ([Byte(1, 1, TICKS, 1), NO, NO], 0, false),
    ([Byte(0, 1, 0, 0), NO, NO], 0, false),
    ([MetaByte(0, 0), NO, NO], 0, false),
    ([MetaByte(WRITES, 1), NO, NO], 0, false),
    ([MetaByte(WRITES, 1), NO, NO], 1, true),
    // One disk can be lost.
    ([Powered(0, Power::Absent), NO, NO], 0, true),
    ([Powered(2, Power::Absent), NO, NO], 0, true),
    (
        [Powered(2, Power::Absent), Powered(0, Power::Absent), NO],
        0,
        false,
    ),
    ([Powered(2, Power::Absent), MetaByte(OUT, 2), NO], 0, true),
    ([Powered(2, Power::Absent), MetaByte(OUT, 3), NO], 0, false),
    ([Powered(2, Power::Parked), NO, NO], 0, false),
    ([Powered(1, Power::Parked), NO, NO], 0, false),
    ([Powered(1, Power::Parked), MetaByte(OUT, 1), NO], 0, false),
    ([Short(3), NO, NO], 0, false),
    ([Short(3), MetaByte(OUT, 3), NO], 0, true),
    ([Fewer, NO, NO], 0, false),
    // The standing disk is named out.
    ([MetaByte(OUT, 0), NO, NO], 0, false),
    ([MetaByte(OUT, 1), NO, NO], 0, true),
    // A witness is open against a log disk that is in, that is out, and that is absent; and one is
    // closed.
    ([Byte(2, 0, 0, 1), NO, NO], 0, false),
    ([Byte(2, 1, 511, 1), NO, NO], 0, true),
    ([Byte(2, 1, 0, 1), MetaByte(OUT, 1), NO], 0, true),
    ([Byte(2, 0, 0, 1), MetaByte(OUT, 1), NO], 0, false),
    ([Byte(2, 0, 0, 1), Powered(0, Power::Absent), NO], 0, true),
    ([Byte(2, 0, 0, 1), Powered(1, Power::Absent), NO], 0, false),
];

#[test]
fn a_formatted_array_holds_no_write(rt: HostRuntime) {
    check(&rt, &[], &[], &FORMATTED);
}

/// Changes of the array with its write, the writes that are asked for, and whether they are held.
const AFTER_WRITE: [Row; 28] = [
    ([NO; 3], 1, true),
    // A data byte, the hard parity, the copy, its parity, and a pad.
    ([Byte(0, 102, 0, 1), NO, NO], 1, false),
    ([Byte(3, 102, 0, 0), NO, NO], 1, false),
    ([Byte(1, 106, 0, 0), NO, NO], 1, false),
    ([Byte(3, 106, 0, 0), NO, NO], 1, false),
    ([Byte(3, 107, 0, 1), NO, NO], 1, false),
    // The row's data and parity together are another value of block 4.
    ([Byte(0, 102, 0, 1), Byte(3, 102, 0, 0x76), NO], 1, false),
    // A map bit on one mirror, and on both: then the stale hard place would count.
    ([Byte(1, 100, 1, 0), NO, NO], 1, false),
    ([Byte(0, 100, 1, 0), Byte(1, 100, 1, 0), NO], 1, false),
    // Bits of a disk below the gear, past the last disk and past the last row.
    ([Byte(0, 100, 1, 17), Byte(1, 100, 1, 17), NO], 1, false),
    ([Byte(0, 100, 1, 48), Byte(1, 100, 1, 48), NO], 1, false),
    ([Byte(0, 100, 5, 16), Byte(1, 100, 5, 16), NO], 1, false),
    // A further dirty cell, whose hard place no longer counts.
    ([Byte(0, 100, 0, 16), Byte(1, 100, 0, 16), NO], 1, true),
    ([Byte(4, 101, 0, 1), NO, NO], 1, false),
    ([Byte(4, 102, 0, 1), NO, NO], 1, true),
    // Gates open over the batch that was laid in place.
    ([Byte(0, 0, 0, 1), NO, NO], 1, true),
    ([Byte(0, 0, 0, 1), Byte(1, 0, 0, 1), NO], 1, true),
    ([Byte(0, 0, 0, 1), Byte(1, 1, TICKS, 3), NO], 1, false),
    // Lost disks: of the copy, of the parity, of a log disk, of the parked disk.
    ([Powered(1, Power::Absent), NO, NO], 1, true),
    ([Powered(3, Power::Absent), NO, NO], 1, true),
    ([Powered(0, Power::Absent), NO, NO], 1, true),
    ([Powered(2, Power::Absent), NO, NO], 1, true),
    ([Powered(4, Power::Absent), NO, NO], 1, true),
    ([MetaByte(OUT, 2), NO, NO], 1, true),
    ([MetaByte(OUT, 2), Powered(4, Power::Absent), NO], 1, false),
    ([Powered(4, Power::Spinning), NO, NO], 1, true),
    ([Powered(3, Power::Parked), NO, NO], 1, false),
    ([Short(4), NO, NO], 1, false),
];

/// Another history, which ends with the same bytes.
fn two_writes() -> [Pairs; 2] {
    [
        Pairs::one(7, &filled_with(0x78)),
        Pairs::one(7, &filled_with(0x77)),
    ]
}

const BY_ANOTHER_HISTORY: [Row; 2] = [([NO; 3], 1, false), ([NO; 3], 2, false)];

const WITH_NO_WRITE: [Row; 1] = [([NO; 3], 0, true)];

#[test]
fn a_write_in_a_low_gear_is_held_by_its_copy(rt: HostRuntime) {
    check(&rt, &WRITTEN, &one_write(), &AFTER_WRITE);
    check(&rt, &WRITTEN, &two_writes(), &BY_ANOTHER_HISTORY);
    check(&rt, &DOWN, &[], &WITH_NO_WRITE);
}

/// Changes in the commit of the write, when the gate of disk 0 is open.
const AT_THE_COMMIT: [Row; 12] = [
    ([NO; 3], 1, true),
    // Not yet open, and open on both log disks.
    ([Byte(0, 0, 0, 0), NO, NO], 0, true),
    ([Byte(0, 0, 0, 0), NO, NO], 1, false),
    ([Byte(1, 0, 0, 9), NO, NO], 1, true),
    // The batches differ in a block, in a target and in the meta.
    ([Byte(1, 0, 0, 1), Byte(1, 5, 511, 0), NO], 1, false),
    ([Byte(1, 0, 0, 1), Byte(1, 3, 6, 107), NO], 1, false),
    ([Byte(1, 0, 0, 1), Byte(1, 2, TICKS, 3), NO], 1, false),
    // The batch that stands has another block, or its list is none.
    ([Byte(0, 4, 0, 0), NO, NO], 1, false),
    ([Byte(0, 3, 1, 4), NO, NO], 1, false),
    // The other log disk is two commits behind, or has another setup.
    ([Byte(1, 1, EPOCH, 4), NO, NO], 1, false),
    ([Byte(1, 1, 27, 2), NO, NO], 1, false),
    ([Byte(1, 1, TICKS, 1), NO, NO], 1, true),
];

/// The same with one more target, on disk 4 at a place that may hold any bytes.
const MORE: [Change; 9] = [
    MetaByte(EPOCH, 5),
    MetaByte(TICKS, 2),
    MetaByte(GEAR, 4),
    Log(0),
    Log(1),
    Byte(0, 0, 0, 1),
    Byte(0, 3, 1, 6),
    Byte(0, 3, 27, 4),
    Byte(0, 3, 31, 102),
];

/// Changes of it.
const ONE_TARGET_MORE: [Row; 3] = [
    ([Powered(4, Power::Parked), NO, NO], 1, false),
    ([Powered(4, Power::Spinning), NO, NO], 1, true),
    ([Powered(4, Power::Absent), NO, NO], 1, true),
];

#[test]
fn an_open_gate_stands_for_its_batch(rt: HostRuntime) {
    check(&rt, &OPENED, &one_write(), &AT_THE_COMMIT);
    check(&rt, &MORE, &one_write(), &ONE_TARGET_MORE);
}

/// Changes in a shift down.
const IN_A_SHIFT_DOWN: [Row; 6] = [
    ([NO; 3], 0, true),
    // A copy, the parity and a pad of a filled stripe, and a stripe above the mark.
    ([Byte(0, 106, 0, 1), Byte(3, 106, 0, 1), NO], 0, false),
    ([Byte(3, 106, 0, 1), NO, NO], 0, false),
    ([Byte(3, 107, 0, 1), Byte(2, 107, 0, 1), NO], 0, true),
    ([MetaByte(FILL, 2), NO, NO], 0, true),
    (
        [MetaByte(FILL, 2), Byte(3, 107, 0, 1), Byte(2, 107, 0, 1)],
        0,
        false,
    ),
];

/// Changes in a shift up.
const IN_A_SHIFT_UP: [Row; 4] = [
    ([NO; 3], 0, true),
    // A disk that is still parked has its spin-up recorded.
    ([Powered(4, Power::Parked), NO, NO], 0, false),
    (
        [Powered(4, Power::Parked), MetaByte(SPINS_OF_4, 1), NO],
        0,
        true,
    ),
    // A cell that is clean lives in its hard place in a shift up.
    ([Byte(4, 101, 0, 1), Byte(0, 101, 0, 1), NO], 0, false),
];

/// Changes in a rebuild of disk 1.
const IN_A_REBUILD: [Row; 11] = [
    ([NO; 3], 0, true),
    // A rebuilt row, one that is not, the map, and the gate of a fresh log disk.
    ([Byte(1, 101, 0, 1), NO, NO], 0, false),
    ([Byte(1, 102, 0, 1), NO, NO], 0, true),
    ([Byte(1, 100, 400, 1), NO, NO], 0, true),
    ([Byte(1, 100, 400, 1), MetaByte(REBUILT, 6), NO], 0, false),
    ([Byte(1, 0, 0, 1), NO, NO], 0, false),
    ([Short(1), NO, NO], 0, false),
    ([MetaByte(OUT, 2), Powered(2, Power::Parked), NO], 0, false),
    ([Powered(1, Power::Absent), NO, NO], 0, true),
    // A witness against the log disk that is rebuilt, and against the other one.
    ([Byte(2, 1, 0, 1), NO, NO], 0, true),
    ([Byte(2, 0, 0, 1), NO, NO], 0, false),
];

/// A stripe of a fresh disk below the gear, before and after it is rebuilt.
const IN_A_REBUILD_BELOW: [Row; 2] = [
    ([MetaByte(OUT, 2), Byte(2, 106, 0, 1), NO], 0, false),
    ([MetaByte(OUT, 2), Byte(2, 107, 0, 1), NO], 0, true),
];

/// The array in a shift down, in a shift up, and in two rebuilds.
const FALLING: [Change; 3] = [MetaByte(PHASE, 1), MetaByte(TO, 4), MetaByte(FILL, 1)];

const RISING: [Change; 3] = [MetaByte(GEAR, 4), MetaByte(PHASE, 2), MetaByte(TO, 5)];

const REBUILDING: [Change; 3] = [MetaByte(OUT, 1), MetaByte(FRESH, 1), MetaByte(REBUILT, 1)];

const REBUILDING_BELOW: [Change; 3] = [MetaByte(GEAR, 4), MetaByte(FRESH, 1), MetaByte(REBUILT, 6)];

#[test]
fn shifts_and_rebuilds_are_asked_as_far_as_they_have_come(rt: HostRuntime) {
    check(&rt, &FALLING, &[], &IN_A_SHIFT_DOWN);
    check(&rt, &RISING, &[], &IN_A_SHIFT_UP);
    check(&rt, &REBUILDING, &[], &IN_A_REBUILD);
    check(&rt, &REBUILDING_BELOW, &[], &IN_A_REBUILD_BELOW);
}

/// The first byte of the value of a cell.
fn value_byte(image: &Image, says: &Statement, row: u32, disk: DiskNo) -> Option<u8> {
    let geometry = &says.meta.setup.geometry;
    if row < geometry.rows && disk < geometry.disks {
        Some(value_of(image, says, row, disk).bytes[0])
    } else {
        None
    }
}

/// The first byte of a block of the array.
fn block_byte(image: &Image, says: &Statement, block: BlockNo) -> Option<u8> {
    if block < says.meta.setup.geometry.blocks() {
        Some(block_of(image, says, block).bytes[0])
    } else {
        None
    }
}

/// The disk that stands, whether its gate is open, how many writes and targets it says, and the
/// disk that is out.
fn standing(image: &Image) -> Option<(DiskNo, bool, u64, u8, Option<DiskNo>)> {
    let says = standing_of(image)?;
    let out = out_of(image, &says);
    Some((
        says.disk,
        says.opened,
        says.meta.writes,
        says.targets.count,
        out,
    ))
}

/// By what stands: the last byte of the place of a target, and whether two cells of row 1 are
/// dirty.
fn laid(image: &Image) -> Option<(u8, [bool; 2])> {
    let says = standing_of(image)?;
    let dirty = [is_dirty(image, &says, 1, 4), is_dirty(image, &says, 1, 3)];
    Some((content(image, &says, 3, 102).bytes[511], dirty))
}

/// Whether a log disk says an open gate, its epoch, and by it the first bytes of the cell of row 1
/// and disk 4 and of block 7.
fn said_by(image: &Image, disk: DiskNo) -> Option<(bool, u64, Option<u8>, Option<u8>)> {
    if disk > 1 {
        return None;
    }
    let Side::Formed { says } = side_of(image, disk) else {
        return None;
    };
    Some((
        says.opened,
        says.meta.epoch,
        value_byte(image, &says, 1, 4),
        block_byte(image, &says, 7),
    ))
}

/// Whether disk 0 stands, and its gate is open over the epoch that it brings.
fn is_read(image: &Image) -> bool {
    standing(image) == Some((0, true, 1, 5, None))
        && laid(image) == Some((0x77, [true, false]))
        && said_by(image, 0) == Some((true, 6, Some(0x77), Some(0x77)))
        && said_by(image, 1) == Some((false, 5, Some(0), Some(0)))
}

fn is_opened(alloc: Global) -> Option<bool> {
    Some(is_read(&array(alloc, &OPENED, &[])?))
}

#[test]
fn what_stands_is_read_and_valued(rt: HostRuntime) {
    assert!(rt; is_opened(rt.alloc()) == Some(true));
}

/// A blank log disk and an absent one.
const UNREADABLE: [Change; 2] = [Fill(0, 1, 0), Powered(1, Power::Absent)];

/// Whether a log disk is blank, and whether it is absent.
fn lacks(image: &Image, disk: DiskNo) -> (bool, bool) {
    if disk > 1 {
        return (false, false);
    }
    match side_of(image, disk) {
        Side::Blank => (true, false),
        Side::Absent => (false, true),
        _ => (false, false),
    }
}

/// Whether disk 0 is blank and disk 1 absent, and none of them stands.
fn is_unreadable(image: &Image) -> bool {
    lacks(image, 0) == (true, false)
        && lacks(image, 1) == (false, true)
        && standing_of(image).is_none()
}

fn unreadable(alloc: Global) -> Option<bool> {
    Some(is_unreadable(&array(alloc, &UNREADABLE, &[])?))
}

#[test]
fn a_blank_side_and_an_absent_one_do_not_stand(rt: HostRuntime) {
    assert!(rt; unreadable(rt.alloc()) == Some(true));
}

/// Writes of blocks 3, 4 and 3 again.
fn three_writes() -> [Pairs; 3] {
    [
        Pairs::one(3, &filled_with(1)),
        Pairs::one(4, &filled_with(2)),
        Pairs::one(3, &filled_with(3)),
    ]
}

/// A number of writes, and what block 3 is filled with after so many.
const BYTES_AFTER: [(u64, u8); 5] = [(0, 0), (1, 1), (2, 1), (3, 3), (9, 3)];

// A byte of block 3 after so many writes of a history.
fn byte_after(history: &[Pairs], writes: u64) -> u8 {
    block_after(history, writes, 3).bytes[7]
}

#[test]
fn the_last_write_of_a_block_that_counts_is_its_value(rt: HostRuntime) {
    let history = three_writes();
    for &(writes, byte) in &BYTES_AFTER {
        assert!(rt; byte_after(&history, writes) == byte, "after {writes}");
    }
}
