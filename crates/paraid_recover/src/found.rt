//! What the log disks say of an array that is there already.
ghost use Rattle.paraid_rack.specs.Slots.{AreSameSlots};
ghost use Rattle.std.specs.Prelude.{◌≡◌, ◌≢◌, ◌<◌, ◌≤◌, ℕ, true, false, Some, OnOk, IfErr, IfOk, is_ok};
ghost use Rattle.paraid_rack.specs.declared.call.Power.TheVariants.{Spinning};
ghost use Rattle.paraid_rack.specs.Told.{Ran};
ghost use Rattle.paraid_rack.specs.Trail.{Trail, now};
ghost use Rattle.paraid_base.specs.Told.{HasRisen};
ghost use Rattle.paraid_image.specs.Sides.{is_open, stored_block};
ghost use Rattle.paraid_recover.specs.Calls.{AreHeadReadsOf, OnlyHeadReads, OnlyReadsAndKeeps};
ghost use Rattle.paraid_recover.specs.Found.{IsEpochOf, IsGreatestOf, IsMetaOf, greater_of};
ghost use Rattle.paraid_recover.specs.HeardSides.{HasReadLog};

use crate::reads::read_place;
use paraid_base::{BATCH_META, Block, DiskNo, FIRST_LIST, Failed, GATE, META};
use paraid_rack::{Power, Rack};
use paraid_record::{Meta, read_meta, read_targets};
use paraid_txn::opens;

// The meta that a log disk says by a closed gate.
fn hear_closed<R: Rack>(rack: &mut R, disk: DiskNo) -> Result<Option<Meta>, Failed>
    requires exists { disk < R.slot_count rack.old }
    requires spinning { (R.slot rack.old disk).power ≡ Spinning }
    requires shut { (t : Trail)
        → R.told rack.old ≡ Some t → is_open (stored_block (now t) disk 0) ≡ false }
    ensures reads { HasReadLog R.Rack disk 1 rack.old rack.new (is_ok result) }
    ensures head { Ran (R.told rack.old) (R.told rack.new) (AreHeadReadsOf disk 1) }
    ensures heard { IfOk result (λ meta. (t : Trail) → R.told rack.new ≡ Some t
        → IsMetaOf (now t) disk meta) }
{
    let mut block = Block::zero();
    read_place(rack, disk, META, &mut block)?;
    Ok(read_meta(&block))
}

// The meta that a log disk says by an open gate.
fn hear_open<R: Rack>(rack: &mut R, disk: DiskNo) -> Result<Option<Meta>, Failed>
    requires exists { disk < R.slot_count rack.old }
    requires spinning { (R.slot rack.old disk).power ≡ Spinning }
    requires opened { (t : Trail)
        → R.told rack.old ≡ Some t → is_open (stored_block (now t) disk 0) ≡ true }
    ensures reads { HasReadLog R.Rack disk 2 rack.old rack.new (is_ok result) }
    ensures head { Ran (R.told rack.old) (R.told rack.new) (AreHeadReadsOf disk 2) }
    ensures heard { IfOk result (λ meta. (t : Trail) → R.told rack.new ≡ Some t
        → IsMetaOf (now t) disk meta) }
{
    let mut block = Block::zero();
    let mut list = Block::zero();
    read_place(rack, disk, BATCH_META, &mut block)?;
    read_place(rack, disk, FIRST_LIST, &mut list)?;
    let Some(meta) = read_meta(&block) else {
        return Ok(None);
    };
    let Some(_targets) = read_targets(&list, &meta.setup.geometry) else {
        return Ok(None);
    };
    Ok(Some(meta))
}

// The meta that a log disk says, if it is well formed.
fn hear<R: Rack>(rack: &mut R, disk: DiskNo) -> Result<Option<Meta>, Failed>
    requires exists { disk < R.slot_count rack.old }
    requires spinning { (R.slot rack.old disk).power ≡ Spinning }
    ensures reads { HasReadLog R.Rack disk 3 rack.old rack.new (is_ok result) }
    ensures head { Ran (R.told rack.old) (R.told rack.new) (AreHeadReadsOf disk 3) }
    ensures heard { IfOk result (λ meta. (t : Trail) → R.told rack.new ≡ Some t
        → IsMetaOf (now t) disk meta) }
{
    let mut gate = Block::zero();
    read_place(rack, disk, GATE, &mut gate)?;
    if opens(&gate) {
        return hear_open(rack, disk);
    }
    hear_closed(rack, disk)
}

// Whether a disk does not spin, or has no room for the head of a log.
fn lacks_log<R: Rack>(rack: &R, disk: DiskNo) -> bool
    ensures yes { result ≡ true → (R.slot rack.now disk).power ≡ Spinning
        → 4 ≤ (R.slot rack.now disk).size → disk < R.slot_count rack.now → ⊥ }
    ensures no { result ≡ false → (disk < R.slot_count rack.now)
        × ((R.slot rack.now disk).power ≡ Spinning) × (4 ≤ (R.slot rack.now disk).size) }
{
    disk >= rack.slots() || rack.power(disk) != Power::Spinning || rack.size(disk) < 4
}

// The epoch that a log disk says, if it belongs to an array.
fn epoch_of<R: Rack>(rack: &mut R, disk: DiskNo) -> Result<Option<u64>, Failed>
    requires log_disk { disk < 2 }
    ensures reads { HasReadLog R.Rack disk 3 rack.old rack.new (is_ok result) }
    ensures head { Ran (R.told rack.old) (R.told rack.new) (AreHeadReadsOf disk 3) }
    ensures heard { IfOk result (λ epoch. (t : Trail) → R.told rack.new ≡ Some t
        → IsEpochOf (now t) disk epoch) }
{
    if lacks_log(rack, disk) {
        return Ok(None);
    }
    let Some(meta) = hear(rack, disk)? else {
        return Ok(None);
    };
    Ok(Some(meta.epoch))
}

// The greater of two.
fn greater(first: Option<u64>, second: Option<u64>) -> Option<u64>
    ensures { result ≡ greater_of first second }
{
    match (first, second) {
        (None, second) => second,
        (first, None) => first,
        (Some(a), Some(b)) => Some(a.max(b)),
    }
}

/// The greatest epoch that a log disk says, if one belongs to an array. A disk that failed is
/// named.
pub fn greatest_epoch<R: Rack>(rack: &mut R) -> Result<Option<u64>, DiskNo>
    ensures slots { R.slot_count rack.new ≡ R.slot_count rack.old }
    ensures same { OnOk result (AreSameSlots (R.slot rack.old) (R.slot rack.new)) }
    ensures others { (d : ℕ) → 2 ≤ d → R.slot rack.new d ≡ R.slot rack.old d }
    ensures reads { OnlyHeadReads (R.told rack.old) (R.told rack.new) }
    ensures quiet { OnOk result (OnlyReadsAndKeeps (R.told rack.old) (R.told rack.new)) }
    ensures heard { IfOk result (λ epoch. (t : Trail) → R.told rack.new ≡ Some t
        → IsGreatestOf (now t) epoch) }
    ensures log_disk { IfErr result (λ failed. failed < 2) }
    ensures alone { IfErr result (λ failed. (d : ℕ) → d ≢ failed
        → R.slot rack.new d ≡ R.slot rack.old d) }
    ensures risen { IfErr result (λ d. HasRisen (R.slot rack.old d).faults
        (R.slot rack.new d).faults) }
{
    let Ok(first) = epoch_of(rack, 0) else {
        return Err(0);
    };
    let Ok(second) = epoch_of(rack, 1) else {
        return Err(1);
    };
    Ok(greater(first, second))
}
