//! The end of a commit that was interrupted.
//!
//! Two log disks that are not out may say the same, or differ in one of three ways:
//!
//! - the standing one is open and the other one is closed over the meta before: the batch is
//!   brought to the other one, as in the first two steps of a commit;
//! - both are open: the targets are laid, and the gates closed, as in the last three steps;
//! - the standing one is closed and the other one is open with the same meta: its targets have
//!   been laid. The meta is written to place 1 of the other one, and its gate is closed.
//!
//! A log disk that the meta names out is left alone.
ghost use Rattle.std.specs.Prelude.{◌≡◌, ◌≢◌, ◌<◌, ◌≤◌, true, false, length, Some, OnOk, IfErr, IfOk};
ghost use Rattle.paraid_base.specs.Log.{batch_room};
ghost use Rattle.paraid_record.specs.Targets.{AreTargets};
ghost use Rattle.paraid_txn.specs.Commit.{gone_out};
ghost use Rattle.paraid_txn.specs.CommitPart.{SyncedPart};
ghost use Rattle.paraid_txn.specs.CrashSpecification.{CrashSpecification};
ghost use Rattle.paraid_txn.specs.Uses.{Uses, UsesLog};
ghost use Rattle.paraid_image.specs.Out.{named_out};
ghost use Rattle.paraid_txn.specs.Ready.{AreTargetsReady, IsLogReady};
ghost use Rattle.paraid_txn.specs.Resume.{CanResume, StandsWhileResumed, LeadsResume, HoldsThroughResume, AreDisksSame, EndsResumed, EndsLaid, OnlyReadsIfClosed, ShutSynced, ShutEnd, HoldsThroughShut};
ghost use Rattle.paraid_image.specs.Sides.{closed_over, log_state, is_open, targets};
ghost use Rattle.paraid_txn.specs.CommitStages.{CloseStage, IsSpelled, Job, LayIn, job_gone, job_named};
ghost use Rattle.paraid_image.specs.Standing.{other_log};
ghost use Rattle.paraid_record.specs.declared.meta.Meta.{Meta as MetaType};

use crate::batch::Batch;
use crate::calls::{put_synced, take};
use crate::commit::{finish, lay_all, spell_meta, spell_targets, write_log};
use crate::gates::{gate, opens};
use crate::losses::Losses;
use crate::store::{Store, find_absent, out_first};
use paraid_base::{Block, DiskNo, GATE, META, Two};
use paraid_rack::Rack;
use paraid_record::Meta;

// The batch is brought to the log disk beside `side`, if that one is live and its gate is closed.
fn catch_up<R: Rack>(
    rack: &mut R,
    losses: &mut Losses,
    skip: Option<DiskNo>,
    side: DiskNo,
    batch: &Batch,
    list: &Block,
    meta: &Block,
) -> Result<(), Two>
    requires exists { 2 ≤ R.slot_count rack.old }
    requires log_disk { side < 2 }
    requires log { IsLogReady skip (R.slot rack.old) }
    requires few { length batch.now ≤ batch_room }
    ensures leaves { SyncedPart R.Rack (UsesLog skip) losses.old losses.new rack.old rack.new
        result }
    ensures crash { (j : Job) → IsSpelled j → job_named j ≡ skip → j.batch ≡ batch.now
        → j.list ≡ list.now → j.spelled ≡ meta.now → LeadsResume j side
        → CrashSpecification (HoldsThroughResume j side) (AreDisksSame j) (LayIn j 0)
        (R.told rack.old) (R.told rack.new) result }
{
    let other = 1 - side;
    let mut found = Block::zero();
    let read = take(rack, losses, skip, other, GATE, &mut found)?;
    if !read {
        return Ok(());
    }
    if opens(&found) {
        return Ok(());
    }
    write_log(rack, losses, Some(side), other, batch, list, meta)?;
    let opened = gate(true);
    put_synced(rack, losses, Some(side), other, GATE, &opened)
}

// The log disk that stands is open: the commit is ended.
fn resume_open<R: Rack>(
    rack: &mut R,
    losses: &mut Losses,
    side: DiskNo,
    meta: &Meta,
    batch: &Batch,
    list: &Block,
    spelled: &Block,
) -> Result<(), Two>
    requires exists { meta.now.setup.geometry.disks ≤ R.slot_count rack.old }
    requires log_disk { side < 2 }
    requires log { IsLogReady (named_out meta.now.out) (R.slot rack.old) }
    requires ready { AreTargetsReady (gone_out meta.now.out) (R.slot_count rack.old)
        (R.slot rack.old) (targets batch.now) }
    requires in_range { AreTargets meta.now.setup.geometry (targets batch.now) }
    ensures leaves { SyncedPart R.Rack
        (Uses meta.now batch.now) losses.old losses.new rack.old rack.new result }
    ensures crash { (j : Job) → IsSpelled j → job_named j ≡ named_out meta.now.out
        → job_gone j ≡ gone_out meta.now.out → j.batch ≡ batch.now → j.list ≡ list.now
        → j.spelled ≡ spelled.now → LeadsResume j side
        → CrashSpecification (HoldsThroughResume j side) (AreDisksSame j) (CloseStage j 2)
        (R.told rack.old) (R.told rack.new) result }
{
    let named = meta.out.named();
    catch_up(rack, losses, named, side, batch, list, spelled)?;
    lay_all(
        rack,
        losses,
        meta.out.gone(),
        batch,
        meta.setup.geometry.disks,
    )?;
    finish(rack, losses, named, spelled)
}

// The meta is written to a log disk whose gate is open, and the gate is closed.
fn shut<R: Rack>(
    rack: &mut R,
    losses: &mut Losses,
    skip: Option<DiskNo>,
    disk: DiskNo,
    meta: &Block,
) -> Result<(), Two>
    requires exists { disk < R.slot_count rack.old }
    requires log_disk { disk < 2 }
    requires log { IsLogReady skip (R.slot rack.old) }
    ensures leaves { SyncedPart R.Rack (UsesLog skip) losses.old losses.new rack.old rack.new
        result }
    ensures crash { (j : Job) → IsSpelled j → job_named j ≡ skip → j.spelled ≡ meta.now
        → job_named j ≢ Some disk → is_open (j.start.block disk 0) ≡ true
        → CrashSpecification (HoldsThroughShut j disk) (AreDisksSame j) (ShutSynced j disk)
        (R.told rack.old) (R.told rack.new) result }
{
    put_synced(rack, losses, skip, disk, META, meta)?; // before its gate closes
    let closed = gate(false);
    put_synced(rack, losses, skip, disk, GATE, &closed)
}

// The log disk that stands is closed: the other one is closed too, if it is live and open.
fn resume_closed<R: Rack>(
    rack: &mut R,
    losses: &mut Losses,
    skip: Option<DiskNo>,
    side: DiskNo,
    meta: &Block,
) -> Result<(), Two>
    requires exists { 2 ≤ R.slot_count rack.old }
    requires log_disk { side < 2 }
    requires log { IsLogReady skip (R.slot rack.old) }
    ensures leaves { SyncedPart R.Rack (UsesLog skip) losses.old losses.new rack.old rack.new
        result }
    ensures crash { (j : Job) → IsSpelled j → job_named j ≡ skip
        → j.spelled ≡ meta.now → CrashSpecification (HoldsThroughShut j (other_log side))
        (AreDisksSame j) (ShutEnd j (other_log side)) (R.told rack.old) (R.told rack.new) result }
    ensures quiet { (m : MetaType) → named_out m.out ≡ skip
        → OnlyReadsIfClosed (R.told rack.old) (R.told rack.new) (closed_over m) }
{
    let other = 1 - side;
    let mut found = Block::zero();
    let read = take(rack, losses, skip, other, GATE, &mut found)?;
    if !read {
        return Ok(());
    }
    if !opens(&found) {
        return Ok(());
    }
    shut(rack, losses, skip, other, meta)
}

// Either.
fn end_commit<R: Rack>(
    rack: &mut R,
    losses: &mut Losses,
    side: DiskNo,
    gate_open: bool,
    meta: &Meta,
    batch: &Batch,
) -> Result<(), Two>
    requires { CanResume (R.slot_count rack.old) (R.slot rack.old) side gate_open batch.now
        meta.now }
    ensures leaves { SyncedPart R.Rack (Uses meta.now batch.now) losses.old losses.new rack.old
        rack.new result }
    ensures moments { StandsWhileResumed (R.told rack.old) (R.told rack.new) side
        (log_state gate_open meta.now batch.now) }
    ensures done { OnOk result (EndsResumed (R.told rack.old) (R.told rack.new) side
        (log_state gate_open meta.now batch.now)) }
    ensures laid { OnOk result (EndsLaid (R.told rack.old) (R.told rack.new) side
        (log_state gate_open meta.now batch.now)) }
    ensures quiet { OnlyReadsIfClosed (R.told rack.old) (R.told rack.new)
        (log_state gate_open meta.now batch.now) }
{
    let list = spell_targets(batch);
    let spelled = spell_meta(meta);
    if gate_open {
        return resume_open(rack, losses, side, meta, batch, &list, &spelled);
    }
    resume_closed(rack, losses, meta.out.named(), side, &spelled)
}

/// Two disks are down, so that an interrupted commit was not ended.
#[derive(Drop)]
pub struct ResumeRefused<R: Rack> {
    pub two: Two,
    pub rack: R,
}

impl<R: Rack> Store<R> {
    ghost use Rattle.paraid_txn.specs.Steps.{RefusesResume, Resumes};

    /// Takes over a rack and ends a commit that was interrupted: at Ok nothing is loose, all live
    /// gates are closed and the meta that stood is at place 1.
    ///
    /// `side` is the log disk that stands, `gate_open` tells its gate, `meta` is its meta, and
    /// `batch` holds its targets with their blocks, none where the gate is closed. A single lost
    /// disk goes out; where a second one is down it ends, names both and gives the rack back.
    pub fn resume(
        rack: R,
        side: DiskNo,
        gate_open: bool,
        batch: &Batch,
        meta: &Meta,
    ) -> Result<Store<R>, ResumeRefused<R>>
        requires { CanResume (R.slot_count rack) (R.slot rack) side gate_open batch.now meta.now }
        ensures resumes { IfOk result (Resumes side (log_state gate_open meta.now batch.now) rack) }
        ensures refused { IfErr result (λ refused. RefusesResume R.Rack side
            (log_state gate_open meta.now batch.now) rack refused.rack refused.two) }
    {
        let mut store = Store::adopt(rack, meta);
        let absent = find_absent(&store.rack, store.disks);
        let mut losses = Losses {
            down: out_first(absent, store.named, store.named),
            lost: None,
        };
        let ended = end_commit(&mut store.rack, &mut losses, side, gate_open, meta, batch);
        if let Err(two) = ended {
            return Err(ResumeRefused {
                two,
                rack: store.close(),
            });
        }
        Ok(store)
    }
}
