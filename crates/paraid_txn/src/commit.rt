//! A commit that a stop leaves whole or absent, whichever one disk is lost.
//!
//! All that an array keeps goes through here. Disks 0 and 1 each have a log, so that either can be
//! lost:
//!
//!     place 0          the gate: closed, or open
//!     place 1          the meta
//!     places 2, 3      of a batch on its way: its meta, and the list of its targets
//!     places 4 to 99   its blocks, one for each target
//!     from 100 on      what the targets name, here and on all other disks
//!
//! 1. On each log disk the batch is written to places 2 to 99 under the closed gate, and synced.
//!    Until the next step a stop leaves the old contents.
//! 2. On each log disk the gate is opened, and synced; first on one that comes in again, whose log
//!    holds nothing valid until then. An open gate stands before the closed one of the commit
//!    before: its epoch is greater by one. From here on a stop leaves the new contents, if the open
//!    gate is kept: the batch is laid over the image.
//! 3. Each target is written in place, and each disk that was written is synced. Whatever a stop
//!    leaves of a target, the batch is laid over it.
//! 4. On each log disk the meta is written to place 1, and synced. It is not looked at yet.
//! 5. On each log disk the gate is closed, and synced. The meta at place 1 is that of the batch,
//!    and the targets hold what the batch would lay.
//!
//! Before them the witness on disk 2 against a log disk that comes in again is taken back; or, if
//! none is borne, one is borne against a log disk that is absent. After them one is borne against a
//! log disk that was lost in them or is named out, unless it is borne already.
//!
//! A log disk that the meta names out is left alone, and so are the targets on a disk that is gone.
//! A disk that fails is left out of the rest.
ghost use Rattle.std.specs.Prelude.{◌≡◌, ◌≢◌, ◌⊎◌, ℕ, ◌+◌, ◌<◌, ◌≤◌, true, false, length, Some, None, OnOk, IfOk, All, AllPairs};
ghost use Rattle.paraid_base.specs.declared.fault.Two.{Two as TwoType};
ghost use Rattle.paraid_base.specs.Log.{batch_room, log_least};
ghost use Rattle.paraid_record.specs.declared.targets.Target.{Target as TargetType};
ghost use Rattle.paraid_rack.specs.Told.{Ran};
ghost use Rattle.paraid_txn.specs.CommitPart.{CommitPart, SyncedPart};
ghost use Rattle.paraid_txn.specs.CrashSpecification.{CrashSpecification};
ghost use Rattle.paraid_txn.specs.Losses.{CanWrite, StaySynced, StaySyncedBut, IsSyncedAt, IsOutOfCommit};
ghost use Rattle.paraid_txn.specs.Uses.{EachCall, Uses, UsesInCommit, UsesLog, UsesTarget, UsesWitness};
ghost use Rattle.paraid_txn.specs.Ready.{AreTargetsReady, CanCommit, IsLogReady};
ghost use Rattle.paraid_image.specs.Sides.{targets};
ghost use Rattle.paraid_rack.specs.Disks.{Disks, is_present};
ghost use Rattle.paraid_rack.specs.declared.call.Power.TheVariants.{Absent};
ghost use Rattle.paraid_rack.specs.Trail.{run};
ghost use Rattle.paraid_txn.specs.Borne.{IsBorneNow};
ghost use Rattle.paraid_txn.specs.Witness.{BearsAtEnd, CannotSet, IsKnown, IsNoSecond, KeepsBorne, EachLeavesPlace, MaySetAny, NoneJoins, SetsAfter, SetsBefore};
ghost use Rattle.paraid_txn.specs.declared.bearing.Witness.{Witness as WitnessType};
ghost use Rattle.paraid_image.specs.Batches.{names_disk};
ghost use Rattle.paraid_txn.specs.CommitStages.{CloseStage, FirstStage, HoldsEarly, HoldsWitnessed, LastStage, IsSpelled, Job, HoldsLate, LayIn, LogStage, LogIn, MarkStage, OpenStage, SyncIn, HoldsWhole, job_gone, job, job_named};
ghost use Rattle.paraid_txn.specs.Commit.{EndsCommitted, IsWholeOrAbsent, LeavesBorne, gone_out};
ghost use Rattle.paraid_image.specs.Out.{named_out, or_else};
ghost use Rattle.paraid_record.specs.declared.meta.Meta.{Meta as MetaType};
ghost use Rattle.paraid_record.specs.Meta.{meta_bytes};
ghost use Rattle.paraid_record.specs.Range.{IsInRange};
ghost use Rattle.paraid_record.specs.Targets.{AreTargets, targets_bytes};

use crate::batch::Batch;
use crate::bearing::{Bearing, Witness};
use crate::calls::{put, put_synced, sync_slot};
use crate::gates::gate;
use crate::losses::Losses;
use crate::store::{Store, find_absent, out_first};
use crate::witness::{first_witness, last_witness, set_witness};
use paraid_base::{BATCH_META, Block, DiskNo, FIRST_BODY, FIRST_LIST, GATE, META, Two};
use paraid_rack::Rack;
use paraid_record::{Meta, write_meta, write_targets};

// Step 1: the blocks of the batch, on one log disk.
fn put_blocks<R: Rack>(
    rack: &mut R,
    losses: &mut Losses,
    skip: Option<DiskNo>,
    disk: DiskNo,
    batch: &Batch,
) -> Result<(), Two>
    requires exists { disk < R.slot_count rack.old }
    requires log_disk { disk < 2 }
    requires log { IsLogReady skip (R.slot rack.old) }
    requires few { length batch.now ≤ batch_room }
    ensures slots { R.slot_count rack.new ≡ R.slot_count rack.old }
    ensures part { CommitPart R.Rack (UsesLog skip) losses.old losses.new rack.old rack.new
        result }
    ensures still_synced { StaySyncedBut (λ d. (d ≡ disk) × (skip ≢ Some d))
        (R.slot rack.old) (R.slot rack.new) }
    ensures crash { (j : Job) → IsSpelled j → job_named j ≡ skip → j.batch ≡ batch.now
        → CrashSpecification (HoldsEarly j) (LogIn j disk 0) (LogIn j disk (length batch.now))
        (R.told rack.old) (R.told rack.new) result }
{
    for at in 0..batch.count() {
        put(
            rack,
            losses,
            skip,
            disk,
            FIRST_BODY + u32::from(at),
            batch.block(at as usize),
        )?;
    }
    Ok(())
}

// Step 1 on one log disk.
pub fn write_log<R: Rack>(
    rack: &mut R,
    losses: &mut Losses,
    skip: Option<DiskNo>,
    disk: DiskNo,
    batch: &Batch,
    list: &Block,
    meta: &Block,
) -> Result<(), Two>
    requires exists { disk < R.slot_count rack.old }
    requires log_disk { disk < 2 }
    requires log { IsLogReady skip (R.slot rack.old) }
    requires few { length batch.now ≤ batch_room }
    ensures leaves { SyncedPart R.Rack (UsesLog skip) losses.old losses.new rack.old rack.new
        result }
    ensures crash { (j : Job) → IsSpelled j → job_named j ≡ skip → j.batch ≡ batch.now
        → j.list ≡ list.now → j.spelled ≡ meta.now
        → CrashSpecification (HoldsEarly j) (LogStage j disk) (LogStage j (disk + 1))
        (R.told rack.old) (R.told rack.new) result }
{
    put(rack, losses, skip, disk, BATCH_META, meta)?;
    put(rack, losses, skip, disk, FIRST_LIST, list)?;
    put_blocks(rack, losses, skip, disk, batch)?;
    sync_slot(rack, losses, skip, disk) // before its gate opens
}

// Step 3: the targets in place.
fn lay<R: Rack>(
    rack: &mut R,
    losses: &mut Losses,
    skip: Option<DiskNo>,
    batch: &Batch,
) -> Result<(), Two>
    requires ready { AreTargetsReady skip (R.slot_count rack.old) (R.slot rack.old)
        (targets batch.now) }
    requires past_log { All (λ (t : TargetType). log_least ≤ t.place) (targets batch.now) }
    requires few { length batch.now ≤ batch_room }
    ensures slots { R.slot_count rack.new ≡ R.slot_count rack.old }
    ensures part { CommitPart R.Rack
        (UsesTarget skip batch.now) losses.old losses.new rack.old rack.new result }
    ensures still_synced { StaySyncedBut (λ d. (names_disk batch.now d ≡ true) × (skip ≢ Some d))
        (R.slot rack.old) (R.slot rack.new) }
    ensures crash { (j : Job) → IsSpelled j → job_gone j ≡ skip → j.batch ≡ batch.now
        → CrashSpecification (HoldsLate j) (LayIn j 0) (LayIn j (length batch.now))
        (R.told rack.old) (R.told rack.new) result }
{
    for at in 0..batch.count() {
        let target = batch.target(at as usize);
        put(
            rack,
            losses,
            skip,
            target.disk,
            target.place,
            batch.block(at as usize),
        )?;
    }
    Ok(())
}

// Step 3: a disk that has targets is synced.
fn sync_target_slot<R: Rack>(
    rack: &mut R,
    losses: &mut Losses,
    skip: Option<DiskNo>,
    batch: &Batch,
    disk: DiskNo,
) -> Result<(), Two>
    requires exists { disk < R.slot_count rack.old }
    requires ready { AreTargetsReady skip (R.slot_count rack.old) (R.slot rack.old)
        (targets batch.now) }
    ensures slots { R.slot_count rack.new ≡ R.slot_count rack.old }
    ensures part { CommitPart R.Rack
        (UsesTarget skip batch.now) losses.old losses.new rack.old rack.new result }
    ensures still_synced { StaySynced (R.slot rack.old) (R.slot rack.new) }
    ensures synced { names_disk batch.now disk ≡ true → skip ≢ Some disk
        → IsSyncedAt (R.slot rack.new) disk }
    ensures crash { (j : Job) → IsSpelled j → job_gone j ≡ skip → j.batch ≡ batch.now
        → CrashSpecification (HoldsLate j) (SyncIn j disk) (SyncIn j (disk + 1))
        (R.told rack.old) (R.told rack.new) result }
{
    if !batch.has_disk(disk) {
        return Ok(());
    }
    sync_slot(rack, losses, skip, disk)
}

// Step 3: each disk that has targets is synced, in ascending order.
fn sync_target_slots<R: Rack>(
    rack: &mut R,
    losses: &mut Losses,
    skip: Option<DiskNo>,
    batch: &Batch,
    disks: u8,
) -> Result<(), Two>
    requires exists { disks ≤ R.slot_count rack.old }
    requires ready { AreTargetsReady skip (R.slot_count rack.old) (R.slot rack.old)
        (targets batch.now) }
    requires below { All (λ (t : TargetType). t.disk < disks) (targets batch.now) }
    ensures slots { R.slot_count rack.new ≡ R.slot_count rack.old }
    ensures part { CommitPart R.Rack
        (UsesTarget skip batch.now) losses.old losses.new rack.old rack.new result }
    ensures still_synced { StaySynced (R.slot rack.old) (R.slot rack.new) }
    ensures synced { OnOk result ((d : ℕ) → names_disk batch.now d ≡ true → skip ≢ Some d
        → IsSyncedAt (R.slot rack.new) d) }
    ensures crash { (j : Job) → IsSpelled j → job_gone j ≡ skip → j.batch ≡ batch.now
        → CrashSpecification (HoldsLate j) (SyncIn j 0) (MarkStage j 0)
        (R.told rack.old) (R.told rack.new) result }
{
    for disk in 0..disks {
        sync_target_slot(rack, losses, skip, batch, disk)?;
    }
    Ok(())
}

// Step 1 on both log disks.
fn write_logs<R: Rack>(
    rack: &mut R,
    losses: &mut Losses,
    skip: Option<DiskNo>,
    batch: &Batch,
    list: &Block,
    meta: &Block,
) -> Result<(), Two>
    requires exists { 2 ≤ R.slot_count rack.old }
    requires log { IsLogReady skip (R.slot rack.old) }
    requires few { length batch.now ≤ batch_room }
    ensures leaves { SyncedPart R.Rack (UsesLog skip) losses.old losses.new rack.old rack.new
        result }
    ensures crash { (j : Job) → IsSpelled j → job_named j ≡ skip → j.batch ≡ batch.now
        → j.list ≡ list.now → j.spelled ≡ meta.now
        → CrashSpecification (HoldsEarly j) (LogStage j 0) (OpenStage j 0)
        (R.told rack.old) (R.told rack.new) result }
{
    write_log(rack, losses, skip, 0, batch, list, meta)?;
    write_log(rack, losses, skip, 1, batch, list, meta)
}

// Step 2 on both log disks, on one of them first.
fn open_gates<R: Rack>(
    rack: &mut R,
    losses: &mut Losses,
    skip: Option<DiskNo>,
    first: DiskNo,
) -> Result<(), Two>
    requires exists { 2 ≤ R.slot_count rack.old }
    requires log_disk { first < 2 }
    requires log { IsLogReady skip (R.slot rack.old) }
    ensures leaves { SyncedPart R.Rack (UsesLog skip) losses.old losses.new rack.old rack.new
        result }
    ensures crash { (j : Job) → IsSpelled j → job_named j ≡ skip → j.first ≡ first
        → CrashSpecification (HoldsEarly j) (OpenStage j 0) (LayIn j 0)
        (R.told rack.old) (R.told rack.new) result }
{
    let opened = gate(true);
    put_synced(rack, losses, skip, first, GATE, &opened)?;
    put_synced(rack, losses, skip, 1 - first, GATE, &opened) // before a target is touched
}

// Step 3.
pub fn lay_all<R: Rack>(
    rack: &mut R,
    losses: &mut Losses,
    skip: Option<DiskNo>,
    batch: &Batch,
    disks: u8,
) -> Result<(), Two>
    requires exists { disks ≤ R.slot_count rack.old }
    requires ready { AreTargetsReady skip (R.slot_count rack.old) (R.slot rack.old)
        (targets batch.now) }
    requires past_log { All (λ (t : TargetType). log_least ≤ t.place) (targets batch.now) }
    requires below { All (λ (t : TargetType). t.disk < disks) (targets batch.now) }
    requires few { length batch.now ≤ batch_room }
    ensures leaves { SyncedPart R.Rack
        (UsesTarget skip batch.now) losses.old losses.new rack.old rack.new result }
    ensures crash { (j : Job) → IsSpelled j → job_gone j ≡ skip → j.batch ≡ batch.now
        → CrashSpecification (HoldsLate j) (LayIn j 0) (MarkStage j 0)
        (R.told rack.old) (R.told rack.new) result }
{
    lay(rack, losses, skip, batch)?;
    sync_target_slots(rack, losses, skip, batch, disks)
}

// Steps 4 and 5 on both log disks.
pub fn finish<R: Rack>(
    rack: &mut R,
    losses: &mut Losses,
    skip: Option<DiskNo>,
    meta: &Block,
) -> Result<(), Two>
    requires exists { 2 ≤ R.slot_count rack.old }
    requires log { IsLogReady skip (R.slot rack.old) }
    ensures leaves { SyncedPart R.Rack (UsesLog skip) losses.old losses.new rack.old rack.new
        result }
    ensures crash { (j : Job) → IsSpelled j → job_named j ≡ skip → j.spelled ≡ meta.now
        → CrashSpecification (HoldsLate j) (MarkStage j 0) (CloseStage j 2)
        (R.told rack.old) (R.told rack.new) result }
{
    put_synced(rack, losses, skip, 0, META, meta)?;
    put_synced(rack, losses, skip, 1, META, meta)?; // before a gate closes
    let closed = gate(false);
    put_synced(rack, losses, skip, 0, GATE, &closed)?;
    put_synced(rack, losses, skip, 1, GATE, &closed)
}

// The five steps.
fn run<R: Rack>(
    rack: &mut R,
    losses: &mut Losses,
    meta: &Meta,
    batch: &Batch,
    list: &Block,
    spelled: &Block,
    first: DiskNo,
) -> Result<(), Two>
    requires log_disk { first < 2 }
    requires exists { meta.now.setup.geometry.disks ≤ R.slot_count rack.old }
    requires log { IsLogReady (named_out meta.now.out) (R.slot rack.old) }
    requires ready { AreTargetsReady (gone_out meta.now.out) (R.slot_count rack.old)
        (R.slot rack.old) (targets batch.now) }
    requires in_range { AreTargets meta.now.setup.geometry (targets batch.now) }
    ensures leaves { SyncedPart R.Rack
        (Uses meta.now batch.now) losses.old losses.new rack.old rack.new result }
    ensures crash { (start : Disks)
        → IsSpelled (job start meta.now batch.now spelled.now list.now first)
        → CrashSpecification (HoldsWhole (job start meta.now batch.now spelled.now list.now first))
        (LogStage (job start meta.now batch.now spelled.now list.now first) 0)
        (CloseStage (job start meta.now batch.now spelled.now list.now first) 2)
        (R.told rack.old) (R.told rack.new) result }
{
    let named = meta.out.named();
    write_logs(rack, losses, named, batch, list, spelled)?;
    open_gates(rack, losses, named, first)?;
    lay_all(
        rack,
        losses,
        meta.out.gone(),
        batch,
        meta.setup.geometry.disks,
    )?;
    finish(rack, losses, named, spelled)
}

// Sets a witness, if one is to be set. It answers against which log disk witness is borne then.
fn set_if_any<R: Rack>(
    rack: &mut R,
    losses: &mut Losses,
    meta: &Meta,
    witness: Option<Witness>,
    borne: Option<DiskNo>,
) -> Result<Option<DiskNo>, Two>
    requires exists { 2 < R.slot_count rack.old }
    ensures leaves { SyncedPart R.Rack
        (UsesWitness meta.now) losses.old losses.new rack.old rack.new result }
    ensures told { Ran (R.told rack.old) (R.told rack.new)
        (λ s cs. MaySetAny (R.slot rack.old) (gone_out meta.now.out) witness cs) }
    ensures known { IfOk result (λ then. IsBorneNow borne (R.told rack.old)
        → IsBorneNow then (R.told rack.new)) }
    ensures none { witness ≡ None → IfOk result (λ then. then ≡ borne) }
    ensures opens { (w : WitnessType) → witness ≡ Some w → w.opened ≡ true → IfOk result (λ then.
        (then ≡ Some w.disk) ⊎ CannotSet (R.slot rack.old) (gone_out meta.now.out) w.disk) }
{
    let Some(witness) = witness else {
        return Ok(borne);
    };
    set_witness(rack, losses, meta, witness)
}

// What is set before the steps. It answers against which log disk witness is borne then.
fn bear_before<R: Rack>(
    rack: &mut R,
    losses: &mut Losses,
    meta: &Meta,
    out: Bearing,
) -> Result<Option<DiskNo>, Two>
    requires exists { 2 < R.slot_count rack.old }
    requires absent { (d : ℕ) → out.absent ≡ Some d → is_present (R.slot rack.old d).power ≡ false }
    requires witness { (x : ℕ) → x < 2 → out.named ≡ Some x → named_out meta.now.out ≢ Some x
        → CanWrite (R.slot rack.old) 2 1 }
    ensures leaves { SyncedPart R.Rack
        (UsesWitness meta.now) losses.old losses.new rack.old rack.new result }
    ensures told { Ran
        (R.told rack.old) (R.told rack.new) (SetsBefore meta.now out.named out.borne) }
    ensures known { IfOk result (λ borne. IsBorneNow out.borne (R.told rack.old)
        → IsBorneNow borne (R.told rack.new)) }
    ensures borne { IfOk result (λ borne.
        KeepsBorne (R.told rack.old) (R.told rack.new) meta.now out.borne borne) }
    ensures stays { NoneJoins out.named (named_out meta.now.out) → (x : ℕ) → out.borne ≡ Some x
        → IfOk result (λ borne. borne ≡ Some x) }
{
    let witness = first_witness(out, meta.out.named());
    set_if_any(rack, losses, meta, witness, out.borne)
}

// What is set after them, unless two disks are down, by the log disk against which witness is
// borne. It answers against which one it is then.
fn bear_after<R: Rack>(
    rack: &mut R,
    losses: &mut Losses,
    meta: &Meta,
    borne: Option<DiskNo>,
) -> Result<Option<DiskNo>, Two>
    requires exists { 2 < R.slot_count rack.old }
    requires lost { (d : ℕ) → losses.old.lost ≡ Some d → (R.slot rack.old d).power ≡ Absent }
    ensures leaves { SyncedPart R.Rack
        (UsesWitness meta.now) losses.old losses.new rack.old rack.new result }
    ensures told { Ran (R.told rack.old) (R.told rack.new) (SetsAfter meta.now borne) }
    ensures known { IfOk result (λ then. IsBorneNow borne (R.told rack.old)
        → IsBorneNow then (R.told rack.new)) }
    ensures borne { OnOk result (BearsAtEnd (R.told rack.old) (R.told rack.new) meta.now borne
        losses.new.lost) }
    ensures knows { IfOk result (λ then. IsNoSecond losses.new.lost meta.now
        → IsKnown (R.slot rack.new) (or_else losses.new.lost (named_out meta.now.out)) then) }
{
    let named = meta.out.named();
    if find_second(losses.lost, named).is_some() {
        return Ok(borne);
    }
    let witness = last_witness(losses.lost, named, borne);
    set_if_any(rack, losses, meta, witness, borne)
}

// The five steps, with the witness that is set before them and the one that is set after them. It
// answers against which log disk witness is borne then.
fn run_witnessed<R: Rack>(
    rack: &mut R,
    losses: &mut Losses,
    meta: &Meta,
    batch: &Batch,
    list: &Block,
    spelled: &Block,
    first: DiskNo,
    out: Bearing,
) -> Result<Option<DiskNo>, Two>
    requires log_disk { first < 2 }
    requires exists { meta.now.setup.geometry.disks ≤ R.slot_count rack.old }
    requires log { IsLogReady (named_out meta.now.out) (R.slot rack.old) }
    requires ready { AreTargetsReady (gone_out meta.now.out) (R.slot_count rack.old)
        (R.slot rack.old) (targets batch.now) }
    requires in_range { AreTargets meta.now.setup.geometry (targets batch.now) }
    requires absent { (d : ℕ) → out.absent ≡ Some d → is_present (R.slot rack.old d).power ≡ false }
    requires witness { (x : ℕ) → x < 2 → out.named ≡ Some x → named_out meta.now.out ≢ Some x
        → CanWrite (R.slot rack.old) 2 1 }
    requires none_lost { losses.old.lost ≡ None }
    ensures leaves { SyncedPart R.Rack
        (UsesInCommit meta.now batch.now) losses.old losses.new rack.old rack.new result }
    ensures crash { (start : Disks) (before : MetaType)
        → IsSpelled (job start meta.now batch.now spelled.now list.now first)
        → out.named ≡ named_out before.out → CrashSpecification
        (HoldsWitnessed (job start meta.now batch.now spelled.now list.now first) before)
        (FirstStage (job start meta.now batch.now spelled.now list.now first) before)
        (LastStage (job start meta.now batch.now spelled.now list.now first) before)
        (R.told rack.old) (R.told rack.new) result }
    ensures known { IfOk result (λ borne. IsBorneNow out.borne (R.told rack.old)
        → IsBorneNow borne (R.told rack.new)) }
    ensures borne { OnOk result (BearsAtEnd (R.told rack.old) (R.told rack.new) meta.now out.borne
        losses.new.lost) }
    ensures knows { IfOk result (λ borne. IsNoSecond losses.new.lost meta.now
        → IsKnown (R.slot rack.new) (or_else losses.new.lost (named_out meta.now.out)) borne) }
    ensures once { NoneJoins out.named (named_out meta.now.out) → (x : ℕ) → x < 2
        → out.borne ≡ Some x
        → Ran (R.told rack.old) (R.told rack.new) (λ s cs. EachLeavesPlace 2 x cs) }
{
    let borne = bear_before(rack, losses, meta, out)?;
    run(rack, losses, meta, batch, list, spelled, first)?;
    bear_after(rack, losses, meta, borne)
}

// The log disk whose gate opens first: the one that was named out, since it may come in again.
fn opens_first(was: Option<DiskNo>) -> DiskNo
    ensures log_disk { result < 2 }
    ensures joins { (x : ℕ) → x < 2 → was ≡ Some x → result ≡ x }
{
    match was {
        Some(1) => 1,
        _ => 0,
    }
}

// Two disks are down where one was lost beside another one that the meta names out.
fn find_second(lost: Option<DiskNo>, named: Option<DiskNo>) -> Option<Two>
    ensures none { result ≡ None → (d e : ℕ) → lost ≡ Some d → named ≡ Some e → e ≡ d }
    ensures two { (two : TwoType) → result ≡ Some two
        → (named ≡ Some two.first) × (lost ≡ Some two.second) × (two.first ≢ two.second) }
{
    Two::beside(named, lost?)
}

// Makes of a block the one that spells the targets of a batch.
fn put_list(batch: &Batch, list: &mut Block)
    ensures value { list.new.bytes ≡ targets_bytes (targets batch.now) }
    ensures few { length (targets batch.now) ≤ batch_room }
    ensures distinct { AllPairs (λ s t. s ≢ t) (targets batch.now) }
{
    write_targets(&batch.targets(), list);
}

// The block that spells the targets of a batch.
pub fn spell_targets(batch: &Batch) -> Block
    ensures value { result.bytes ≡ targets_bytes (targets batch.now) }
    ensures few { length (targets batch.now) ≤ batch_room }
    ensures distinct { AllPairs (λ s t. s ≢ t) (targets batch.now) }
{
    let mut list = Block::zero();
    put_list(batch, &mut list);
    list
}

// The block that spells a meta.
pub fn spell_meta(meta: &Meta) -> Block
    requires { IsInRange meta.now }
    ensures { result.bytes ≡ meta_bytes meta.now }
{
    let mut spelled = Block::zero();
    write_meta(meta, &mut spelled);
    spelled
}

impl<R: Rack> Store<R> {
    ghost use Rattle.paraid_txn.specs.Steps.{KeepsStore, SurvivesLoss, TakesCommit};
    ghost use Rattle.paraid_txn.specs.Stores.{borne_of, disks_of, epoch_of, named_of, store_rack};

    /// Lays a batch and the next meta over what the disks hold: whole or not at all, whatever
    /// stops it and whichever one disk is lost.
    ///
    /// The epoch of the meta given does not count: it becomes one greater than the last commit's.
    /// It answers the disk that failed in it, if one did; the commit went on without it. Where a
    /// second disk is down it ends and names both.
    ///
    /// A log disk that was being rebuilt comes in again where the meta given names none out; its
    /// gate is opened first.
    pub fn commit(&mut self, batch: &Batch, meta: &Meta) -> Result<Option<DiskNo>, Two>
        requires can { CanCommit (epoch_of self.old) (disks_of self.old)
            (R.slot_count (store_rack self.old)) (R.slot (store_rack self.old)) batch.now meta.now }
        // Where a log disk comes in again, disk 2 can be written.
        requires witness { (x : ℕ) → x < 2 → named_of self.old ≡ Some x
            → named_out meta.now.out ≢ Some x → CanWrite (R.slot (store_rack self.old)) 2 1 }

        ensures keeps { KeepsStore (IsOutOfCommit (λ e. (R.slot (store_rack self.old) e).power)
            (disks_of self.old) (named_of self.old) (named_out meta.now.out))
            self.old self.new result }
        ensures takes { TakesCommit (named_out meta.now.out) self.old self.new result }

        // The disk that is answered is the one whose count has risen, and no other one was out.
        ensures loss { IfOk result (SurvivesLoss
            (IsOutOfCommit (λ e. (R.slot (store_rack self.old) e).power)
            (disks_of self.old) (named_of self.old) (named_out meta.now.out))
            self.old self.new) }

        // Which calls are made.
        ensures calls { Ran (R.told (store_rack self.old)) (R.told (store_rack self.new))
            (EachCall (UsesInCommit meta.now batch.now)) }

        // Witness is borne at its end against a log disk that it lost, or that is named out, and
        // that is known; and the place of one that is known is not written.
        ensures bears_witness { IfOk result (λ lost.
            Ran (R.told (store_rack self.old)) (R.told (store_rack self.new)) (λ start calls.
            LeavesBorne start (run start calls) (or_else lost (named_out meta.now.out)))) }
        ensures knows { IfOk result (λ lost. IsKnown (R.slot (store_rack self.new))
            (or_else lost (named_out meta.now.out)) (borne_of self.new)) }
        ensures once { NoneJoins (named_of self.old) (named_out meta.now.out)
            → (x : ℕ) → x < 2 → borne_of self.old ≡ Some x → Ran (R.told (store_rack self.old))
            (R.told (store_rack self.new)) (λ start calls. EachLeavesPlace 2 x calls) }

        // At each moment the old contents or the new ones; at the end only these.
        ensures any_moment { (before : MetaType) → named_of self.old ≡ named_out before.out
            → IsWholeOrAbsent (R.told (store_rack self.old)) (R.told (store_rack self.new)) before
            (record meta.now { epoch = epoch_of self.old + 1 }) batch.now }
        ensures committed { OnOk result ((before : MetaType)
            → named_of self.old ≡ named_out before.out
            → EndsCommitted (R.told (store_rack self.old)) (R.told (store_rack self.new)) before
            (record meta.now { epoch = epoch_of self.old + 1 }) batch.now) }
    {
        let next = Meta {
            epoch: self.epoch + 1,
            ..*meta
        };
        let mut list = Block::zero();
        put_list(batch, &mut list);
        let mut spelled = Block::zero();
        write_meta(&next, &mut spelled);
        let named = meta.out.named();
        let absent = find_absent(&self.rack, self.disks);
        let mut losses = Losses {
            down: out_first(absent, self.named, named),
            lost: None,
        };
        let first = opens_first(self.named);
        let borne = self.borne;
        self.borne = None; // unless it ends
        let borne = run_witnessed(
            &mut self.rack,
            &mut losses,
            &next,
            batch,
            &list,
            &spelled,
            first,
            Bearing {
                absent,
                named: self.named,
                borne,
            },
        )?;
        if let Some(two) = find_second(losses.lost, named) {
            return Err(two);
        }
        self.epoch = next.epoch;
        self.named = named;
        self.borne = borne;
        Ok(losses.lost)
    }
}
