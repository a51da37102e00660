//! Named volumes on a device that keeps its history.

use crate::device::Kept;
use paraid_base::{Block, Halt};
use paraid_volume::{Name, VolFault, Volumes};
use std::alloc::Global;

// A call on volumes.
#[derive(Clone, Copy)]
enum Deed {
    // A volume whose name is this letter, and so many extents.
    Create(u8, u32),
    // A block of this byte, repeated.
    Write(u8, u32, u8),
    Read(u8, u32),
    Delete(u8),
    Find(u8),
    Size(u8),
    Free,
    Flush,
}

use Deed::{Create, Delete, Find, Flush, Free, Read, Size, Write};

fn created(volumes: &mut Volumes<Kept>, letter: u8, extents: u32) -> Result<u32, VolFault> {
    match Name::new(&[letter]) {
        Some(name) => Ok(u32::from(volumes.create(&name, extents)?)),
        None => Ok(999),
    }
}

// The first byte of a block whose bytes are the same, else 999.
fn byte_of(volumes: &mut Volumes<Kept>, id: u8, block: u32) -> Result<u32, VolFault> {
    let mut found = Block::zero();
    volumes.read(id, block, &mut found)?;
    let filled = Block::from_array([found.bytes[0]; 512]);
    if found.as_slice() == filled.as_slice() {
        Ok(u32::from(found.bytes[0]))
    } else {
        Ok(999)
    }
}

// The id of this name, and 0 where there is none.
fn id_of(volumes: &Volumes<Kept>, letter: u8) -> u32 {
    match Name::new(&[letter]) {
        Some(name) => u32::from(volumes.find(&name).unwrap_or(0)),
        None => 999,
    }
}

// What the call answers as a number, 0 where it answers none.
fn done(volumes: &mut Volumes<Kept>, deed: Deed) -> Result<u32, VolFault> {
    match deed {
        Create(letter, extents) => created(volumes, letter, extents),
        Write(id, block, byte) => {
            volumes.write(id, block, &Block::from_array([byte; 512]))?;
            Ok(0)
        }
        Read(id, block) => byte_of(volumes, id, block),
        Delete(id) => {
            volumes.delete(id)?;
            Ok(0)
        }
        Find(letter) => Ok(id_of(volumes, letter)),
        Size(id) => Ok(volumes.size(id)),
        Free => Ok(volumes.free()),
        Flush => Ok(volumes.flush()?.min(999) as u32),
    }
}

// Calls on a new table of twenty blocks, and what each answers.
const CALLS: [(Deed, Result<u32, VolFault>); 22] = [
    (Free, Ok(14)),
    (Create(b'a', 3), Ok(1)),
    (Write(1, 0, 17), Ok(0)),
    (Create(b'b', 11), Ok(2)),
    (Create(b'c', 1), Err(VolFault::Space { free: 0 })),
    (Read(1, 0), Ok(17)),
    (Read(2, 0), Ok(0)),
    (Delete(1), Ok(0)),
    (Create(b'c', 3), Ok(1)),
    // the bytes of the volume that was removed are gone
    (Read(1, 0), Ok(0)),
    (Find(b'a'), Ok(0)),
    (Find(b'b'), Ok(2)),
    (Find(b'c'), Ok(1)),
    (Size(1), Ok(3)),
    (Size(2), Ok(11)),
    (Size(3), Ok(0)),
    (Create(b'c', 1), Err(VolFault::Exists { id: 1 })),
    (Read(2, 11), Err(VolFault::NoBlock { block: 11 })),
    (Read(3, 0), Err(VolFault::NoVolume { id: 3 })),
    (Create(b'a', 0), Err(VolFault::NoExtents)),
    (Free, Ok(0)),
    (Read(2, 10), Ok(0)),
];

const WORN: VolFault = VolFault::Halt(Halt::Worn { count: 3 });

// The same on a device that is worn after three writes.
const HALTED: [(Deed, Result<u32, VolFault>); 5] = [
    (Create(b'a', 3), Err(WORN)),
    (Find(b'a'), Ok(0)),
    (Free, Ok(14)),
    (Create(b'a', 0), Err(WORN)),
    (Flush, Err(WORN)),
];

fn made(alloc: Global, worn: usize) -> Option<Volumes<Kept>> {
    Volumes::init(Kept::new(alloc, 20, worn)).ok()
}

// How many of these calls are answered so before one that is not.
fn answered(volumes: &mut Volumes<Kept>, rows: &[(Deed, Result<u32, VolFault>)]) -> usize {
    for at in 0..rows.len() {
        if done(volumes, rows[at].0) != rows[at].1 {
            return at;
        }
    }
    rows.len()
}

// The same on a new table, where the device is worn after so many writes.
fn answered_anew(
    alloc: Global,
    worn: usize,
    rows: &[(Deed, Result<u32, VolFault>)],
) -> Option<usize> {
    Some(answered(&mut made(alloc, worn)?, rows))
}

#[test]
fn volumes_are_made_used_and_removed(rt: HostRuntime) {
    assert!(rt; answered_anew(rt.alloc(), 1000, &CALLS) == Some(22));
}

#[test]
fn a_halt_in_a_call_leaves_the_table_and_stays(rt: HostRuntime) {
    assert!(rt; answered_anew(rt.alloc(), 3, &HALTED) == Some(5));
}

// What a device is refused by for a new table, or for one that is there.
fn refused(device: Kept, new: bool) -> Option<VolFault> {
    let made = if new {
        Volumes::init(device)
    } else {
        Volumes::adopt(device)
    };
    match made {
        Ok(_) => None,
        Err(refused) => Some(refused.fault),
    }
}

// By what a device is refused for a new table that has one.
fn refused_again(alloc: Global) -> Option<VolFault> {
    refused(made(alloc, 1000)?.finish(), true)
}

#[test]
fn a_device_is_refused_by_its_table_or_its_size(rt: HostRuntime) {
    let alloc = rt.alloc();
    assert!(rt; refused_again(alloc) == Some(VolFault::Already));
    let few = refused(Kept::new(alloc, 2, 1000), true);
    assert!(rt; few == Some(VolFault::Small { blocks: 2 }));
    let none = refused(Kept::new(alloc, 20, 1000), false);
    assert!(rt; none == Some(VolFault::NotVolumes));
}

// The device after its writes: 1 the table, 2 to 4 zeros and 5 the table for `a`, 6 its block, 7 to
// 17 zeros and 18 the table for `b`.
fn written(alloc: Global) -> Option<Kept> {
    let mut volumes = made(alloc, 1000)?;
    for deed in [Create(b'a', 3), Write(1, 0, 17), Create(b'b', 11)] {
        done(&mut volumes, deed).ok()?;
    }
    Some(volumes.finish())
}

// The ids of both names, how many extents are free and the first byte of `a`, as so many of the
// writes leave the device; and the device again.
fn left(mut device: Kept, seen: usize) -> Option<(Kept, [u32; 4])> {
    device.seen = seen;
    let mut volumes = Volumes::adopt(device).ok()?;
    let ids = (id_of(&volumes, b'a'), id_of(&volumes, b'b'));
    let free = volumes.free();
    let byte = done(&mut volumes, Read(1, 0)).unwrap_or(0);
    Some((volumes.finish(), [ids.0, ids.1, free, byte]))
}

fn expected(seen: usize) -> [u32; 4] {
    match seen {
        0..=4 => [0, 0, 14, 0],
        5 => [1, 0, 11, 0],
        6..=17 => [1, 0, 11, 17],
        _ => [1, 2, 0, 17],
    }
}

// The first number of writes, from 1 to 18, that leaves something else, or 19.
fn first_other(alloc: Global) -> Option<usize> {
    let mut device = written(alloc)?;
    for seen in 1..19 {
        let (again, found) = left(device, seen)?;
        if found != expected(seen) {
            return Some(seen);
        }
        device = again;
    }
    Some(19)
}

#[test]
fn a_stop_at_each_write_of_a_new_volume_leaves_the_volumes_before_it_or_with_it(rt: HostRuntime) {
    assert!(rt; first_other(rt.alloc()) == Some(19));
}
