//! The list of targets of a batch: which blocks it writes, on which disks and places.

ghost use Rattle.std.specs.Prelude.{◌≡◌, ◌≢◌, ℕ, ◌+◌, ◌*◌, ◌≤◌, ◌↔◌, ◌++◌, List, length, All, AllPairs, Contains, IfSome, IfNone, IsSomeAnd, IsTrue};
ghost use Rattle.paraid_base.specs.Log.{batch_room};
ghost use Rattle.paraid_base.specs.Regions.{disk_size};
ghost use Rattle.paraid_record.specs.declared.targets.Target.{Target as TargetType};
ghost use Rattle.paraid_record.specs.Spelling.{big_endian};
ghost use Rattle.paraid_record.specs.Targets.{AreRestUnused, AreTargets, IsTargetInRange, FitsBytes, places_bytes, targets_bytes, targets_of};

use crate::pen::Pen;
use crate::reader::Reader;
use paraid_base::{BATCH_ROOM, Block, DiskNo, Geometry, MAP_START, Place};

/// A block of a disk that a batch writes.
#[derive(Clone, Copy, PartialEq, Eq)]
pub struct Target {
    pub disk: DiskNo,
    pub place: Place,
}

impl Target {
    /// Whether it is a place past the log, on a disk of the array, and on disk 0 or 1 where it is
    /// of the dirty map.
    pub fn is_in_range(self, geometry: &Geometry) -> bool
        ensures { IsTrue result ↔ IsTargetInRange geometry.now self }
    {
        is_in_range(self, geometry, geometry.size())
    }
}

/// The targets of a batch, in its order.
#[derive(Clone, Copy)]
pub struct Targets {
    /// How many targets there are, at most 96.
    pub count: u8,
    /// The targets; those past the count say nothing.
    pub list: [Target; BATCH_ROOM],
}

/// Writes the one spelling of a list of targets, 512 bytes. It needs no geometry.
pub fn write_targets(targets: &Targets, into: &mut Block)
    requires { targets.now.count ≤ batch_room }
    ensures { into.new.bytes ≡ targets_bytes (targets_of targets.now) }
{
    put_targets(&targets.list[..targets.count as usize], into);
}

fn put_targets(targets: &[Target], into: &mut Block)
    requires { length targets.now ≤ batch_room }
    ensures { into.new.bytes ≡ targets_bytes targets.now }
{
    let mut pen = Pen::new();
    pen.put_u16(targets.len() as u16);
    put_places(&mut pen, targets);
    pen.finish(into);
}

fn put_places(pen: &mut Pen, targets: &[Target])
    requires { length pen.old + 5 * length targets.now ≤ 512 }
    ensures { pen.new ≡ pen.old ++ places_bytes targets.now }
{
    for target in targets {
        pen.put_u8(target.disk);
        pen.put_u32(target.place);
    }
}

/// The list of targets in range that a block spells, if it spells one. Those past the count are
/// disk 0, place 0.
pub fn read_targets(block: &Block, geometry: &Geometry) -> Option<Targets>
    ensures some { IfSome result (λ t. AreTargets geometry.now (targets_of t)
        × (block.now.bytes ≡ targets_bytes (targets_of t))) }
    ensures rest { IfSome result AreRestUnused }
    ensures value { (ts : List TargetType) → AreTargets geometry.now ts
        → block.now.bytes ≡ targets_bytes ts → IsSomeAnd result (λ t. targets_of t ≡ ts) }
    ensures none { IfNone result ((ts : List TargetType) → AreTargets geometry.now ts
        → block.now.bytes ≢ targets_bytes ts) }
{
    let size = geometry.size();
    let targets = take_targets(&mut Reader::new(block.as_slice()))?;
    let list = &targets.list[..targets.count as usize];
    if are_in_range(list, geometry, size) && is_spelling(list, block) {
        Some(targets)
    } else {
        None
    }
}

fn is_spelling(targets: &[Target], block: &Block) -> bool
    requires { length targets.now ≤ batch_room }
    ensures { IsTrue result ↔ (block.now.bytes ≡ targets_bytes targets.now) }
{
    let mut spelling = Block::zero();
    put_targets(targets, &mut spelling);
    block.as_slice() == spelling.as_slice()
}

fn take_targets(reader: &mut Reader) -> Option<Targets>
    requires { 482 ≤ length reader.old }
    ensures rest { IfSome result AreRestUnused }
    ensures value { (ts : List TargetType) (rest : List ℕ) → length ts ≤ batch_room
        → All FitsBytes ts → reader.old ≡ big_endian 2 (length ts) ++ (places_bytes ts ++ rest)
        → IsSomeAnd result (λ t. targets_of t ≡ ts) }
{
    let count = reader.take_u16();
    if count as usize > BATCH_ROOM {
        return None;
    }
    let list = take_places(reader, count as usize);
    Some(Targets {
        count: count as u8,
        list,
    })
}

fn take_places(reader: &mut Reader, count: usize) -> [Target; BATCH_ROOM]
    requires few { count ≤ batch_room }
    requires room { 5 * count ≤ length reader.old }
    ensures rest { AreRestUnused (record { count = count; list = result }) }
    ensures value { (ts : List TargetType) (rest : List ℕ) → length ts ≡ count → All FitsBytes ts
        → reader.old ≡ places_bytes ts ++ rest
        → targets_of (record { count = count; list = result }) ≡ ts }
{
    let mut list = [Target { disk: 0, place: 0 }; BATCH_ROOM];
    for at in 0..count {
        let disk = reader.take_u8();
        let place = reader.take_u32();
        list[at] = Target { disk, place };
    }
    list
}

fn are_in_range(targets: &[Target], geometry: &Geometry, size: Place) -> bool
    requires few { length targets.now ≤ batch_room }
    requires size { size ≡ disk_size geometry.now }
    ensures { IsTrue result ↔ AreTargets geometry.now targets.now }
{
    are_each_in_range(targets, geometry, size) && are_distinct(targets)
}

fn are_each_in_range(targets: &[Target], geometry: &Geometry, size: Place) -> bool
    requires { size ≡ disk_size geometry.now }
    ensures { IsTrue result ↔ All (IsTargetInRange geometry.now) targets.now }
{
    for target in targets {
        if !is_in_range(*target, geometry, size) {
            return false;
        }
    }
    true
}

fn is_in_range(target: Target, geometry: &Geometry, size: Place) -> bool
    requires { size ≡ disk_size geometry.now }
    ensures { IsTrue result ↔ IsTargetInRange geometry.now target }
{
    target.disk < geometry.disks
        && target.place >= MAP_START
        && target.place < size
        && (target.disk < 2 || target.place >= MAP_START + geometry.map_blocks())
}

fn are_distinct(targets: &[Target]) -> bool
    ensures { IsTrue result ↔ AllPairs (λ a b. a ≢ b) targets.now }
{
    for at in 0..targets.len() {
        if stands_in(targets[at], &targets[..at]) {
            return false;
        }
    }
    true
}

fn stands_in(target: Target, others: &[Target]) -> bool
    ensures { IsTrue result ↔ Contains others.now target }
{
    for other in others {
        if *other == target {
            return true;
        }
    }
    false
}
