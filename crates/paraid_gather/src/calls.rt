//! Calls on one disk, with the blocks that wait for it.
ghost use Rattle.std.specs.Prelude.{◌≡◌, ◌<◌, ℕ, true, false, [], ◌∷◌, Some, IsSome, is_ok};
ghost use Rattle.paraid_rack.specs.declared.call.Call.TheVariants.{Attach, Read, Sync, Write};
ghost use Rattle.paraid_rack.specs.declared.call.Power.TheVariants.{Spinning as Turning};
ghost use Rattle.paraid_rack.specs.Disks.{Disks, step, with_at};
ghost use Rattle.paraid_rack.specs.Slots.{ChangesOneSlot};
ghost use Rattle.paraid_rack.specs.Told.{Ran};
ghost use Rattle.paraid_rack.specs.Trail.{Trail, now};
ghost use Rattle.paraid_gather.specs.Above.{IsAbove, slot_above};
ghost use Rattle.paraid_gather.specs.Bulk.{left_by};
ghost use Rattle.paraid_gather.specs.Does.{DoesAbove};
ghost use Rattle.paraid_gather.specs.PowerCalls.{PowersAs};
ghost use Rattle.paraid_gather.specs.Waiting.{Fits, Joins, Waiting, run_of, waiting, waits};

use crate::bulk::BulkRack;
use crate::run::Run;
use paraid_base::{Block, DiskNo, Failed, Place};

/// Writes what waits, so that nothing waits any more. After a failure the disk is lost, and what
/// waits for it means nothing.
pub(crate) fn write_out<R: BulkRack>(
    rack: &mut R,
    run: &mut Run,
    disk: DiskNo,
) -> Result<(), Failed>
    requires exists { disk < R.slot_count rack.old }
    requires spinning { (R.slot rack.old disk).power ≡ Turning }
    requires fits { Fits (R.slot rack.old disk) (run_of run.old) }
    ensures does { DoesAbove R.Rack disk (run_of run.old) (run_of run.new) rack.old rack.new
        (slot_above (R.slot rack.old disk) (run_of run.old))
        (slot_above (R.slot rack.old disk) (run_of run.old)).unsynced
        (is_ok result) (left_by (is_ok result) disk) }
    ensures power_calls { Ran (R.told rack.old) (R.told rack.new) (PowersAs []) }
    ensures empty { is_ok result ≡ true → waits (run_of run.new) ≡ false }
    ensures spins { is_ok result ≡ true → (R.slot rack.new disk).power ≡ Turning }
    ensures waited { is_ok result ≡ false → waits (run_of run.old) ≡ true }
    // The slots below become as they were above.
    ensures slot { ChangesOneSlot (R.slot rack.old) (R.slot rack.new) disk
        (slot_above (R.slot rack.old disk) (run_of run.old))
        (slot_above (R.slot rack.old disk) (run_of run.old)).unsynced (is_ok result) }
    ensures idle { waits (run_of run.old) ≡ false → rack.new ≡ rack.old }
{
    if run.is_empty() {
        return Ok(());
    }
    let Ok(()) = rack.write_blocks(disk, run.first(), run.blocks()) else {
        return Err(Failed);
    };
    run.clear();
    Ok(())
}

/// Writes what waits, unless a block at this place can join it.
fn make_room<R: BulkRack>(
    rack: &mut R,
    run: &mut Run,
    disk: DiskNo,
    place: Place,
) -> Result<(), Failed>
    requires exists { disk < R.slot_count rack.old }
    requires spinning { (R.slot rack.old disk).power ≡ Turning }
    requires fits { Fits (R.slot rack.old disk) (run_of run.old) }
    ensures does { DoesAbove R.Rack disk (run_of run.old) (run_of run.new) rack.old rack.new
        (slot_above (R.slot rack.old disk) (run_of run.old))
        (slot_above (R.slot rack.old disk) (run_of run.old)).unsynced
        (is_ok result) (left_by (is_ok result) disk) }
    ensures power_calls { Ran (R.told rack.old) (R.told rack.new) (PowersAs []) }
    ensures joins { is_ok result ≡ true → Joins (run_of run.new) place }
    ensures joined { Joins (run_of run.old) place → rack.new ≡ rack.old }
    ensures waited { is_ok result ≡ false → waits (run_of run.old) ≡ true }
{
    if run.joins(place) {
        return Ok(());
    }
    write_out(rack, run, disk)
}

/// The block waits, where need be after all that waited was written.
pub(crate) fn write<R: BulkRack>(
    rack: &mut R,
    run: &mut Run,
    disk: DiskNo,
    place: Place,
    block: &Block,
) -> Result<(), Failed>
    requires exists { disk < R.slot_count rack.old }
    requires spinning { (R.slot rack.old disk).power ≡ Turning }
    requires within { place < (R.slot rack.old disk).size }
    requires fits { Fits (R.slot rack.old disk) (run_of run.old) }
    ensures does { DoesAbove R.Rack disk (run_of run.old) (run_of run.new) rack.old rack.new
        (record (slot_above (R.slot rack.old disk) (run_of run.old)) { unsynced = true }) true
        (is_ok result) (step (Write disk place block.now (is_ok result))) }
    ensures power_calls { Ran (R.told rack.old) (R.told rack.new) (PowersAs []) }
    ensures joined { Joins (run_of run.old) place → rack.new ≡ rack.old }
{
    let Ok(()) = make_room(rack, run, disk, place) else {
        return Err(Failed);
    };
    run.put(place, block);
    Ok(())
}

/// Gives the block that waits, or reads one.
pub(crate) fn read<R: BulkRack>(
    rack: &mut R,
    run: &Run,
    disk: DiskNo,
    place: Place,
    into: &mut Block,
) -> Result<(), Failed>
    requires exists { disk < R.slot_count rack.old }
    requires spinning { (R.slot rack.old disk).power ≡ Turning }
    requires within { place < (R.slot rack.old disk).size }
    requires fits { Fits (R.slot rack.old disk) (run_of run.now) }
    ensures does { DoesAbove R.Rack disk (run_of run.now) (run_of run.now) rack.old rack.new
        (slot_above (R.slot rack.old disk) (run_of run.now))
        (slot_above (R.slot rack.old disk) (run_of run.now)).unsynced
        (is_ok result) (step (Read disk place (is_ok result))) }
    ensures power_calls { Ran (R.told rack.old) (R.told rack.new) (PowersAs []) }
    ensures bytes { is_ok result ≡ true → (t : Trail) (w : ℕ → Waiting) (s : Disks)
        → R.told rack.old ≡ Some t → IsAbove (now t) (with_at w disk (run_of run.now)) s
        → into.new ≡ s.block disk place }
    ensures held { IsSome (waiting (run_of run.now) place) → rack.new ≡ rack.old }
{
    if let Some(bytes) = run.get(place) {
        *into = Block::from_array(*bytes);
        return Ok(());
    }
    rack.read(disk, place, into)
}

/// Writes what waits, and makes the disk keep it.
pub(crate) fn sync<R: BulkRack>(rack: &mut R, run: &mut Run, disk: DiskNo) -> Result<(), Failed>
    requires exists { disk < R.slot_count rack.old }
    requires spinning { (R.slot rack.old disk).power ≡ Turning }
    requires fits { Fits (R.slot rack.old disk) (run_of run.old) }
    ensures does { DoesAbove R.Rack disk (run_of run.old) (run_of run.new) rack.old rack.new
        (record (slot_above (R.slot rack.old disk) (run_of run.old)) { unsynced = false })
        (slot_above (R.slot rack.old disk) (run_of run.old)).unsynced
        (is_ok result) (step (Sync disk (is_ok result))) }
    ensures power_calls { Ran (R.told rack.old) (R.told rack.new) (PowersAs []) }
{
    let Ok(()) = write_out(rack, run, disk) else {
        return Err(Failed);
    };
    rack.sync(disk)
}

/// Puts a fresh disk into the slot. What waited for the one before is dropped.
pub(crate) fn attach<R: BulkRack>(
    rack: &mut R,
    run: &mut Run,
    disk: DiskNo,
    size: u32,
) -> Result<(), Failed>
    requires exists { disk < R.slot_count rack.old }
    requires fits { Fits (R.slot rack.old disk) (run_of run.old) }
    ensures does { DoesAbove R.Rack disk (run_of run.old) (run_of run.new) rack.old rack.new
        (record (slot_above (R.slot rack.old disk) (run_of run.old))
        { power = Turning; size = size; unsynced = false })
        (slot_above (R.slot rack.old disk) (run_of run.old)).unsynced
        (is_ok result) (step (Attach disk size (is_ok result))) }
    ensures power_calls { Ran (R.told rack.old) (R.told rack.new)
        (PowersAs (Attach disk size (is_ok result) ∷ [])) }
{
    let Ok(()) = rack.attach(disk, size) else {
        return Err(Failed);
    };
    run.clear();
    Ok(())
}
