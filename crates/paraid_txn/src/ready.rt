//! Whether a commit can be made: a test of its conditions, for who cannot know them.
ghost use Rattle.std.specs.Prelude.{◌≢◌, ◌<◌, ◌≤◌, ◌↔◌, true, false, Some, All, IsTrue};
ghost use Rattle.paraid_base.specs.Log.{log_last};
ghost use Rattle.paraid_record.specs.Targets.{IsTargetInRange};
ghost use Rattle.paraid_txn.specs.Losses.{CanWrite};
ghost use Rattle.paraid_txn.specs.Ready.{AreTargetsReady, CanCommit, IsLogReady};
ghost use Rattle.paraid_image.specs.Sides.{targets};

use crate::batch::Batch;
use crate::store::Store;
use paraid_base::{DiskNo, Geometry, LOG_LAST, Place};
use paraid_rack::{Power, Rack};
use paraid_record::{Meta, Target};

// Whether a disk is absent, or spins and has this place.
fn can_write<R: Rack>(rack: &R, disk: DiskNo, place: Place) -> bool
    requires { disk < R.slot_count rack.now }
    ensures { IsTrue result ↔ CanWrite (R.slot rack.now) disk place }
{
    match rack.power(disk) {
        Power::Absent => true,
        Power::Parked => false,
        Power::Spinning => place < rack.size(disk),
    }
}

// The same, for the log of a log disk that may be skipped.
fn can_log<R: Rack>(rack: &R, skip: Option<DiskNo>, disk: DiskNo) -> bool
    requires { disk < R.slot_count rack.now }
    ensures { IsTrue result ↔ (skip ≢ Some disk → CanWrite (R.slot rack.now) disk log_last) }
{
    skip == Some(disk) || can_write(rack, disk, LOG_LAST)
}

// Whether the log of each log disk that is not skipped can be written.
fn is_log_ready<R: Rack>(rack: &R, skip: Option<DiskNo>) -> bool
    requires { 2 ≤ R.slot_count rack.now }
    ensures { IsTrue result ↔ IsLogReady skip (R.slot rack.now) }
{
    can_log(rack, skip, 0) && can_log(rack, skip, 1)
}

// Whether the slot of a target exists, and can be written or is skipped.
fn is_target_ready<R: Rack>(rack: &R, skip: Option<DiskNo>, target: Target) -> bool
    ensures { IsTrue result ↔ ((target.disk < R.slot_count rack.now)
        × (skip ≢ Some target.disk → CanWrite (R.slot rack.now) target.disk target.place)) }
{
    if target.disk >= rack.slots() {
        return false;
    }
    skip == Some(target.disk) || can_write(rack, target.disk, target.place)
}

// The same of each target of a batch.
fn are_targets_ready<R: Rack>(rack: &R, skip: Option<DiskNo>, batch: &Batch) -> bool
    ensures { IsTrue result ↔ AreTargetsReady skip (R.slot_count rack.now) (R.slot rack.now)
        (targets batch.now) }
{
    for at in 0..batch.count() {
        if !is_target_ready(rack, skip, batch.target(at as usize)) {
            return false;
        }
    }
    true
}

// Whether each target of a batch is in range for this geometry.
fn are_in_range(geometry: &Geometry, batch: &Batch) -> bool
    ensures { IsTrue result ↔ All (IsTargetInRange geometry.now) (targets batch.now) }
{
    for at in 0..batch.count() {
        if !batch.target(at as usize).is_in_range(geometry) {
            return false;
        }
    }
    true
}

impl<R: Rack> Store<R> {
    ghost use Rattle.paraid_txn.specs.Stores.{disks_of, epoch_of, store_rack};

    /// Whether this batch and this meta can be committed. It makes no call of the rack.
    pub fn can_commit(&self, batch: &Batch, meta: &Meta) -> bool
        ensures { IsTrue result ↔ CanCommit (epoch_of self.now) (disks_of self.now)
            (R.slot_count (store_rack self.now)) (R.slot (store_rack self.now)) batch.now meta.now }
    {
        let geometry = &meta.setup.geometry;
        geometry.disks == self.disks
            && self.epoch < u64::MAX
            && meta.is_in_range()
            && is_log_ready(&self.rack, meta.out.named())
            && are_in_range(geometry, batch)
            && are_targets_ready(&self.rack, meta.out.gone(), batch)
    }
}
