//! The calls that a commit makes of the rack: a disk that is skipped or absent gets none, the
//! first loss is borne, and the second is too many.
ghost use Rattle.std.specs.Prelude.{◌≡◌, ◌≢◌, ◌<◌, true, false, Some, Ok, is_ok};
ghost use Rattle.paraid_base.specs.Log.{log_most};
ghost use Rattle.paraid_rack.specs.Trail.{Trail, now};
ghost use Rattle.paraid_rack.specs.declared.call.Call.TheVariants.{Read, Sync, Write};
ghost use Rattle.paraid_rack.specs.declared.call.Power.TheVariants.{Absent};
ghost use Rattle.paraid_rack.specs.Disks.{is_present};
ghost use Rattle.paraid_txn.specs.CommitPart.{CommitPart, SyncedPart};
ghost use Rattle.paraid_txn.specs.Losses.{StaySynced, StaySyncedBut, CanWrite, FollowsAnswer, IsSyncedAt, MayDo};
ghost use Rattle.paraid_txn.specs.PutSynced.{MayPutSynced};
ghost use Rattle.paraid_txn.specs.Ready.{IsLogReady};
ghost use Rattle.paraid_txn.specs.Uses.{IsThisCall, UsesLog};

use crate::losses::Losses;
use paraid_base::{Block, DiskNo, Failed, Place, Two};
use paraid_rack::{Power, Rack};

// What follows the answer of a call on a disk.
fn follow(losses: &mut Losses, disk: DiskNo, answer: Result<(), Failed>) -> Result<(), Two>
    ensures { FollowsAnswer losses.old losses.new disk (is_ok answer) result }
{
    let Err(Failed) = answer else {
        return Ok(());
    };
    if let Some(two) = Two::beside(losses.down, disk) {
        return Err(two);
    }
    *losses = Losses {
        down: Some(disk),
        lost: Some(disk),
    };
    Ok(())
}

// Whether a disk gets no call: it is the one that is skipped, or it is absent.
fn is_passed<R: Rack>(rack: &R, skip: Option<DiskNo>, disk: DiskNo) -> bool
    requires { disk < R.slot_count rack.now }
    ensures passed { result ≡ true → skip ≢ Some disk → (R.slot rack.now disk).power ≡ Absent }
    ensures called { result ≡ false → skip ≢ Some disk }
    ensures present { result ≡ false → is_present (R.slot rack.now disk).power ≡ true }
{
    skip == Some(disk) || rack.power(disk) == Power::Absent
}

/// Writes a block, unless the disk is skipped or absent. Most calls that a commit makes are of this
/// kind.
#[inline(always)]
pub fn put<R: Rack>(
    rack: &mut R,
    losses: &mut Losses,
    skip: Option<DiskNo>,
    disk: DiskNo,
    place: Place,
    block: &Block,
) -> Result<(), Two>
    requires exists { disk < R.slot_count rack.old }
    requires can { skip ≢ Some disk → CanWrite (R.slot rack.old) disk place }
    ensures slots { R.slot_count rack.new ≡ R.slot_count rack.old }
    ensures does { MayDo (R.told rack.old) (R.told rack.new) (R.slot rack.old) skip disk
        (λ done. Write disk place block.now done) }
    ensures part { CommitPart R.Rack (IsThisCall skip disk (λ done.
        Write disk place block.now done)) losses.old losses.new rack.old rack.new result }
    ensures still_synced { StaySyncedBut (λ d. (d ≡ disk) × (skip ≢ Some d))
        (R.slot rack.old) (R.slot rack.new) }
{
    if is_passed(rack, skip, disk) {
        return Ok(());
    }
    let answer = rack.write(disk, place, block);
    follow(losses, disk, answer)
}

/// Makes the disk keep all that was written, unless it is skipped or absent.
pub fn sync_slot<R: Rack>(
    rack: &mut R,
    losses: &mut Losses,
    skip: Option<DiskNo>,
    disk: DiskNo,
) -> Result<(), Two>
    requires exists { disk < R.slot_count rack.old }
    requires can { skip ≢ Some disk → CanWrite (R.slot rack.old) disk 0 }
    ensures slots { R.slot_count rack.new ≡ R.slot_count rack.old }
    ensures does { MayDo (R.told rack.old) (R.told rack.new) (R.slot rack.old) skip disk
        (λ done. Sync disk done) }
    ensures part { CommitPart R.Rack (IsThisCall skip disk (λ done. Sync disk done))
        losses.old losses.new rack.old rack.new result }
    ensures still_synced { StaySynced (R.slot rack.old) (R.slot rack.new) }
    ensures synced { skip ≢ Some disk → IsSyncedAt (R.slot rack.new) disk }
{
    if is_passed(rack, skip, disk) {
        return Ok(());
    }
    let answer = rack.sync(disk);
    follow(losses, disk, answer)
}

/// Writes a block in the log of a log disk and makes the disk keep it, unless it is skipped or
/// absent.
#[inline(always)]
pub fn put_synced<R: Rack>(
    rack: &mut R,
    losses: &mut Losses,
    skip: Option<DiskNo>,
    disk: DiskNo,
    place: Place,
    block: &Block,
) -> Result<(), Two>
    requires exists { disk < R.slot_count rack.old }
    requires log_disk { disk < 2 }
    requires in_log { place < log_most }
    requires log { IsLogReady skip (R.slot rack.old) }
    ensures does { MayPutSynced R.Rack skip disk place block.now rack.old rack.new result }
    ensures leaves { SyncedPart R.Rack (UsesLog skip) losses.old losses.new rack.old rack.new
        result }
{
    put(rack, losses, skip, disk, place, block)?;
    sync_slot(rack, losses, skip, disk) // before the next step
}

/// Reads a block, unless the disk is skipped or absent. It answers whether it was read.
pub fn take<R: Rack>(
    rack: &mut R,
    losses: &mut Losses,
    skip: Option<DiskNo>,
    disk: DiskNo,
    place: Place,
    into: &mut Block,
) -> Result<bool, Two>
    requires exists { disk < R.slot_count rack.old }
    requires can { skip ≢ Some disk → CanWrite (R.slot rack.old) disk place }
    ensures slots { R.slot_count rack.new ≡ R.slot_count rack.old }
    ensures does { MayDo (R.told rack.old) (R.told rack.new) (R.slot rack.old) skip disk
        (λ done. Read disk place done) }
    ensures part { CommitPart R.Rack (IsThisCall skip disk (λ done. Read disk place done))
        losses.old losses.new rack.old rack.new result }
    ensures still_synced { StaySynced (R.slot rack.old) (R.slot rack.new) }
    ensures bytes { result ≡ Ok true → (t : Trail) → R.told rack.old ≡ Some t
        → into.new ≡ (now t).block disk place }
    ensures read { result ≡ Ok true → skip ≢ Some disk }
    ensures present { result ≡ Ok true
        → is_present (R.slot rack.old disk).power ≡ true }
    ensures passed { result ≡ Ok false → skip ≢ Some disk
        → (R.slot rack.new disk).power ≡ Absent }
{
    if is_passed(rack, skip, disk) {
        return Ok(false);
    }
    let answer = rack.read(disk, place, into);
    let read = answer.is_ok();
    follow(losses, disk, answer)?;
    Ok(read)
}
