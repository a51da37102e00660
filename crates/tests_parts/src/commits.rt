//! Commits to a rack in memory: what each stop leaves, and how many calls they make.

use crate::images::{META, block_with, filled_with};
use paraid_base::{Block, DiskNo, Pairs, Place, Two};
use paraid_memrack::{MemRack, Pick, Planned};
use paraid_plain::{Image, content, is_sound, standing_of};
use paraid_rack::{Call, Power, Rack};
use paraid_record::{Meta, read_meta};
use paraid_recover::{choose, hear_both};
use paraid_txn::{Batch, Store};
use std::alloc::Global;

// An array of five disks: how many rows it has, and how many blocks a disk needs for them.
#[derive(Clone, Copy)]
struct Shape {
    rows: u8,
    size: u32,
}

const SMALL: Shape = Shape { rows: 5, size: 108 };

// 100 places of the log, one of the map, 40 rows, and a region of a third of them.
const LARGE: Shape = Shape {
    rows: 40,
    size: 155,
};

// The meta of a formatted array of so many rows.
fn meta_block(rows: u8) -> Block {
    let mut block = block_with(&META);
    block.set(23, rows);
    block
}

// The meta of such an array after so many writes.
fn meta_after(block: &Block, writes: u64) -> Option<Meta> {
    let meta = read_meta(block)?;
    Some(Meta { writes, ..meta })
}

// Writes a meta to a disk.
fn put_meta(rack: &mut MemRack, meta: &Block, disk: DiskNo) -> bool {
    let may_write = disk < rack.slots()
        && rack.power(disk) == Power::Spinning
        && rack.size(disk) > 1;
    may_write && rack.write(disk, 1, meta).is_ok()
}

// A disk in a slot, with this meta at place 1 if it is a log disk.
fn add_disk(rack: &mut MemRack, size: u32, meta: &Block, disk: DiskNo) -> bool {
    if disk >= rack.slots() || rack.attach(disk, size).is_err() {
        return false;
    }
    disk >= 2 || put_meta(rack, meta, disk)
}

fn add_disks(rack: &mut MemRack, size: u32, meta: &Block) -> bool {
    for disk in 0..5 {
        if !add_disk(rack, size, meta, disk) {
            return false;
        }
    }
    true
}

// Five empty slots.
fn slots(alloc: Global, size: u32) -> Option<MemRack> {
    MemRack::new(alloc, 5, size, 100, Vec::new(alloc)).ok()
}

// An array of zeros with this meta as a start, whose calls fail as the plan says.
fn formatted(alloc: Global, size: u32, meta: &Block, plan: &[Planned]) -> Option<MemRack> {
    let mut rack = slots(alloc, size)?;
    filled(alloc, &mut rack, size, meta, plan)
}

// The same in these slots.
fn filled(
    alloc: Global,
    rack: &mut MemRack,
    size: u32,
    meta: &Block,
    plan: &[Planned],
) -> Option<MemRack> {
    if add_disks(rack, size, meta) {
        started(alloc, rack, plan)
    } else {
        None
    }
}

// These disks before any call, whose calls fail as the plan says.
fn started(alloc: Global, rack: &MemRack, plan: &[Planned]) -> Option<MemRack> {
    let plan = plan.to_vec(alloc).ok()?;
    rack.stopped(alloc, rack.calls(), Pick::New, 1000, plan)
        .ok()
}

/// An array after a commit, and what that answered.
type Committed = (MemRack, Result<Option<DiskNo>, Two>);

// The disks after one commit of this batch under this meta.
fn commit(rack: MemRack, batch: &Batch, meta: &Meta) -> Option<Committed> {
    if meta.setup.geometry.disks > rack.slots() {
        return None;
    }
    let mut store = Store::adopt(rack, meta);
    if !store.can_commit(batch, meta) || store.epoch() != 1 {
        return None;
    }
    let answer = store.commit(batch, meta);
    Some((store.close(), answer))
}

// The array after one commit of this batch, under a meta of so many writes.
fn committed(
    alloc: Global,
    shape: Shape,
    batch: &Batch,
    writes: u64,
    plan: &[Planned],
) -> Option<Committed> {
    let block = meta_block(shape.rows);
    let meta = meta_after(&block, writes)?;
    commit(formatted(alloc, shape.size, &block, plan)?, batch, &meta)
}

fn copy_disk(rack: &MemRack, disk: DiskNo, image: &mut Image) {
    if disk >= rack.slots() {
        return;
    }
    for place in 0..rack.size(disk) {
        if (place as usize) < image.size(disk) {
            image.set_block(disk, place, rack.block(disk, place));
        }
    }
}

// What the disks of a rack hold now.
fn image_of(alloc: Global, rack: &MemRack) -> Option<Image> {
    let mut image = Image::new(alloc);
    for disk in 0..rack.slots() {
        image.add(alloc, rack.power(disk), rack.size(disk)).ok()?;
        copy_disk(rack, disk, &mut image);
    }
    Some(image)
}

/// No disk of these five.
const NO_DISK: DiskNo = 5;

// The rack that a stop leaves, with a disk lost or none.
fn left_at(
    alloc: Global,
    rack: &MemRack,
    moment: u32,
    pick: Pick,
    lost: DiskNo,
) -> Option<MemRack> {
    let moment = moment.min(rack.calls());
    let mut left = rack.stopped(alloc, moment, pick, 40, Vec::new(alloc)).ok()?;
    if lost < left.slots() {
        left.lose(lost);
    }
    Some(left)
}

// The log disk that a mount would let stand.
fn chosen(alloc: Global, rack: &mut MemRack) -> Option<DiskNo> {
    let mut first = Batch::new(alloc).ok()?;
    let mut second = Batch::new(alloc).ok()?;
    if rack.slots() < 2 || rack.power(0) == Power::Parked || rack.power(1) == Power::Parked {
        return None;
    }
    let sides = hear_both(rack, &mut first, &mut second).ok()?;
    choose(sides.first, sides.second)
}

// What the target holds by an epoch.
fn byte_by(epoch: u64) -> Option<u8> {
    match epoch {
        1 => Some(0),
        2 => Some(255),
        _ => None,
    }
}

fn is_filled_with(block: &Block, byte: u8) -> bool {
    block.as_slice() == filled_with(byte).as_slice()
}

// The epoch that stands, where the target holds the old block or the new one by it. With the
// target's disk lost only the epoch counts.
fn epoch_left(image: &Image, lost: DiskNo) -> Option<u64> {
    let says = standing_of(image)?;
    let byte = byte_by(says.meta.epoch)?;
    if lost == 2 || is_filled_with(&content(image, &says, 2, 101), byte) {
        Some(says.meta.epoch)
    } else {
        None
    }
}

// A disk, a place, and what a block is filled with.
type Filling = (DiskNo, Place, u8);

fn add_all(batch: &mut Batch, fillings: &[Filling]) -> bool {
    for &(disk, place, byte) in fillings {
        if batch.add(disk, place, &filled_with(byte)).is_err() {
            return false;
        }
    }
    true
}

// A batch of these targets.
fn batch_of(alloc: Global, fillings: &[Filling]) -> Option<Batch> {
    let mut batch = Batch::new(alloc).ok()?;
    if add_all(&mut batch, fillings) {
        Some(batch)
    } else {
        None
    }
}

// One block of 255s, without the parity of its row.
const ONE_TARGET: [Filling; 1] = [(2, 101, 255)];

// How many calls the commit of one target makes on a disk: ten on a log disk, and a write and a
// sync on that of the target.
fn calls_on(disk: DiskNo) -> u32 {
    match disk {
        0 | 1 => 10,
        2 => 2,
        _ => 0,
    }
}

// How many calls it makes in all. Where a log disk fails in it, disk 2 bears witness against that
// one by a write and a sync more.
fn calls_without(disk: DiskNo) -> u32 {
    match disk {
        0 | 1 => 24,
        _ => 22,
    }
}

// Whether the commit goes on without a disk whose call fails: it is answered, it gets no call
// after that one, the others get the same calls, and the new contents stand.
fn goes_on_without(alloc: Global, batch: &Batch, disk: DiskNo, nth: u32) -> Option<bool> {
    let plan = [Planned::OnDisk { disk, nth }];
    let (rack, answer) = committed(alloc, SMALL, batch, 0, &plan)?;
    let image = image_of(alloc, &rack)?;
    let left_out = calls_on(disk).saturating_sub(nth.saturating_add(1));
    let calls = rack.calls().saturating_add(left_out);
    let is_told = answer == Ok(Some(disk)) && calls == calls_without(disk);
    Some(is_told && epoch_left(&image, disk) == Some(2))
}

// Whether that is so of each call on a disk.
fn goes_on(alloc: Global, batch: &Batch, disk: DiskNo) -> bool {
    for nth in 0..calls_on(disk) {
        if goes_on_without(alloc, batch, disk, nth) != Some(true) {
            return false;
        }
    }
    true
}

// The first of the two log disks and that of the target of which that is not so, or 3.
fn go_on(alloc: Global) -> Option<u8> {
    let batch = batch_of(alloc, &ONE_TARGET)?;
    for disk in 0..3 {
        if !goes_on(alloc, &batch, disk) {
            return Some(disk);
        }
    }
    Some(3)
}

// What the commit answers where a call of disk 1 and one of disk 2 fail, and how many calls are
// made.
fn second_loss(alloc: Global) -> Option<(Result<Option<DiskNo>, Two>, u32)> {
    let first = Planned::OnDisk { disk: 1, nth: 3 };
    let second = Planned::OnDisk { disk: 2, nth: 0 };
    let batch = batch_of(alloc, &ONE_TARGET)?;
    let (rack, answer) = committed(alloc, SMALL, &batch, 0, &[first, second])?;
    Some((answer, rack.calls()))
}

#[test]
fn a_commit_goes_on_without_a_disk_that_fails(rt: HostRuntime) {
    assert!(rt; go_on(rt.alloc()) == Some(3));
}

// The calls are four on each log disk, the gate of disk 0 with its sync, and the write that failed.
#[test]
fn a_second_loss_is_named_with_the_first(rt: HostRuntime) {
    let two = Two {
        first: 1,
        second: 2,
    };
    assert!(rt; second_loss(rt.alloc()) == Some((Err(two), 11)));
}

// Adds so many targets on disks 4, 3, 2, 1 and 0, from the last place down.
fn add_many(batch: &mut Batch, count: u32) -> bool {
    for at in 0..count {
        let disk = (4 - at % 5) as DiskNo;
        let place = 140u32.saturating_sub(at / 5);
        if batch.add(disk, place, &filled_with(1)).is_err() {
            return false;
        }
    }
    true
}

// How many writes and syncs the rack has made, where it has made no other call.
fn writes_and_syncs(rack: &MemRack) -> Option<(u32, u32)> {
    let mut writes = 0u32;
    let mut syncs = 0u32;
    for at in 0..rack.calls() {
        match rack.call(at) {
            Call::Write { .. } => writes = writes.saturating_add(1),
            Call::Sync { .. } => syncs = syncs.saturating_add(1),
            _ => return None,
        }
    }
    Some((writes, syncs))
}

// A batch of so many targets.
fn many(alloc: Global, count: u32) -> Option<Batch> {
    let mut batch = Batch::new(alloc).ok()?;
    if add_many(&mut batch, count) {
        Some(batch)
    } else {
        None
    }
}

// The writes and the syncs of a commit of so many targets.
fn cost_of(alloc: Global, count: u32) -> Option<(u32, u32)> {
    let (rack, answer) = committed(alloc, LARGE, &many(alloc, count)?, 0, &[])?;
    if answer == Ok(None) {
        return writes_and_syncs(&rack);
    }
    None
}

// Targets, and the writes and syncs of their commit: the targets are on 0, 1, 5 and 5 disks.
const COSTS: [(u32, u32, u32); 4] = [(0, 10, 8), (1, 13, 9), (10, 40, 13), (96, 298, 13)];

#[test]
fn a_commit_costs_three_writes_a_target_and_ten_more(rt: HostRuntime) {
    for &(targets, writes, syncs) in &COSTS {
        let found = cost_of(rt.alloc(), targets);
        assert!(rt; found == Some((writes, syncs)), "{targets} targets");
    }
}

// The write of block 7, which is the cell of row 1 and disk 4, with the parity of its row.
const ONE_WRITE: [Filling; 2] = [(4, 102, 0x77), (3, 102, 0x77)];

// The array after the commit of that write.
fn written(alloc: Global) -> Option<Committed> {
    committed(alloc, SMALL, &batch_of(alloc, &ONE_WRITE)?, 1, &[])
}

// How many writes an image holds by the log disk that a mount would let stand; None where it does
// not hold so many, or where another log disk stands.
fn writes_held(image: &Image, chosen: DiskNo) -> Option<u64> {
    let history = [Pairs::one(7, &filled_with(0x77))];
    let says = standing_of(image)?;
    let writes = says.meta.writes;
    if says.disk == chosen && is_sound(image, &history, writes) {
        Some(writes)
    } else {
        None
    }
}

// How many writes a stop leaves.
fn writes_left(
    alloc: Global,
    rack: &MemRack,
    moment: u32,
    pick: Pick,
    lost: DiskNo,
) -> Option<u64> {
    let mut left = left_at(alloc, rack, moment, pick, lost)?;
    let disk = chosen(alloc, &mut left)?;
    writes_held(&image_of(alloc, &left)?, disk)
}

// Counts a stop that leaves no write, or the write.
fn counted(counts: (u32, u32), writes: u64) -> Option<(u32, u32)> {
    match writes {
        0 => Some((counts.0.saturating_add(1), counts.1)),
        1 => Some((counts.0, counts.1.saturating_add(1))),
        _ => None,
    }
}

// Counts the images that a stop leaves with each disk lost, and with none.
fn count_losses(
    alloc: Global,
    rack: &MemRack,
    moment: u32,
    pick: Pick,
    counts: (u32, u32),
) -> Option<(u32, u32)> {
    let mut counts = counts;
    for lost in 0..NO_DISK + 1 {
        counts = counted(counts, writes_left(alloc, rack, moment, pick, lost)?)?;
    }
    Some(counts)
}

// How many images that stops at a moment leave hold no write, and how many hold the write.
fn sound_at(alloc: Global, rack: &MemRack, moment: u32) -> Option<(u32, u32)> {
    let mut counts = (0, 0);
    for pick in [Pick::Old, Pick::New, Pick::Filled(165), Pick::Mixed] {
        counts = count_losses(alloc, rack, moment, pick, counts)?;
    }
    Some(counts)
}

// How many images hold no write and the write after so many calls of its commit: four blocks and a
// sync on each log disk; then each gate with its sync; and the rest.
fn expected_at(moment: u32) -> (u32, u32) {
    match moment {
        // no gate was written
        0..=10 => (24, 0),
        // the gate of disk 0 is loose: closed by one pick of four, or disk 0 is lost
        11 => (9, 15),
        // it is open, but disk 0 may be lost
        12 => (4, 20),
        // with disk 0 lost the gate of disk 1 is loose
        13 => (1, 23),
        _ => (0, 24),
    }
}

// The first moment at which they are not so many, or 27.
fn first_other(alloc: Global, rack: &MemRack) -> u32 {
    for moment in 0..27 {
        if sound_at(alloc, rack, moment) != Some(expected_at(moment)) {
            return moment;
        }
    }
    27
}

// Whether the commit was answered as one without a loss, how many calls it made, and that moment.
fn stopped_writes(alloc: Global) -> Option<(bool, u32, u32)> {
    let (rack, answer) = written(alloc)?;
    Some((answer == Ok(None), rack.calls(), first_other(alloc, &rack)))
}

#[test]
fn every_stop_in_the_commit_of_a_write_is_sound(rt: HostRuntime) {
    assert!(rt; stopped_writes(rt.alloc()) == Some((true, 26, 27)));
}
