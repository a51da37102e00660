//! What a rack in memory holds, and what a stop of it leaves, where its list of calls is full.

use crate::racks::{Step, make};
use Step::{Attach, Park, Read, SpinUp, Sync, Write};
use paraid_base::{DiskNo, Place};
use paraid_memrack::{MemRack, Pick};
use paraid_rack::{Call, Rack};
use std::alloc::Global;

/// Calls on two disks, the second of which is parked in between.
const WALK: [(DiskNo, Step); 11] = [
    (0, Attach(4)),
    (1, Attach(4)),
    (0, Write(1, 7)),
    (1, Write(2, 9)),
    (0, Sync),
    (0, Read(1, 7)),
    (1, Sync),
    (1, Park),
    (1, SpinUp),
    (1, Read(2, 9)),
    (1, Read(3, 0)),
];

/// Two slots, of which so many calls are listed.
fn rack_of(alloc: Global, calls: u32) -> Option<MemRack> {
    MemRack::new(alloc, 2, 4, calls, Vec::new(alloc)).ok()
}

/// Makes these calls.
fn walk(rack: &mut MemRack, steps: &[(DiskNo, Step)]) {
    for at in 0..steps.len() {
        let _mark = make(rack, steps[at].0, steps[at].1);
    }
}

/// Bytes 0, 255, 256 and 511 of a block, 238 where there is no such block.
fn ends(rack: &MemRack, disk: DiskNo, place: Place) -> [u8; 4] {
    if disk < rack.slots() && place < rack.size(disk) {
        let bytes = &rack.block(disk, place).bytes;
        [bytes[0], bytes[255], bytes[256], bytes[511]]
    } else {
        [238; 4]
    }
}

/// Whether the listed call of this number is a done write of block 2 of disk 1.
fn is_write(rack: &MemRack, m: u32) -> bool {
    m < rack.calls()
        && match *rack.call(m) {
            Call::Write {
                disk,
                place,
                done,
                ..
            } => disk == 1 && place == 2 && done,
            _ => false,
        }
}

/// How many of the calls are listed, whether call 3 is, and what three blocks hold.
fn listed(alloc: Global, calls: u32) -> Option<(u32, bool, [[u8; 4]; 3])> {
    let mut rack = rack_of(alloc, calls)?;
    walk(&mut rack, &WALK);
    let blocks = [ends(&rack, 0, 1), ends(&rack, 1, 2), ends(&rack, 1, 3)];
    Some((rack.calls(), is_write(&rack, 3), blocks))
}

#[test]
fn contents_stay_right_where_the_list_is_full(rt: HostRuntime) {
    let blocks = [[7; 4], [9; 4], [0; 4]];
    for (calls, count, is_listed) in [(100, 11, true), (4, 4, true), (3, 3, false)] {
        assert!(rt; listed(rt.alloc(), calls) == Some((count, is_listed, blocks)));
    }
}

const WRITES: [(DiskNo, Step); 4] = [
    (0, Attach(2)),
    (0, Write(1, 7)),
    (0, Sync),
    (0, Write(1, 9)),
];

/// What block 1 of disk 0 holds after a stop past the last listed call.
fn left(alloc: Global, rack: &MemRack) -> Option<[u8; 4]> {
    let moment = rack.calls();
    let stopped = rack.stopped(alloc, moment, Pick::New, 9, Vec::new(alloc));
    Some(ends(&stopped.ok()?, 0, 1))
}

/// What that block holds before a stop and after it, where three of the four calls are listed.
fn held_and_left(alloc: Global) -> Option<([u8; 4], [u8; 4])> {
    let mut rack = rack_of(alloc, 3)?;
    walk(&mut rack, &WRITES);
    Some((ends(&rack, 0, 1), left(alloc, &rack)?))
}

#[test]
fn a_stop_goes_by_the_listed_calls(rt: HostRuntime) {
    assert!(rt; held_and_left(rt.alloc()) == Some(([9; 4], [7; 4])));
}
