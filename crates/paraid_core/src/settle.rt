//! Copies past the log are made to last: each disk to which copies went is synced once.
ghost use Rattle.std.specs.Prelude.{◌≡◌, ◌≢◌, ℕ, ◌<◌, true, false, OnOk};
ghost use Rattle.paraid_core.specs.CoreInvariant.{AreCopiesSynced, is_copied};
ghost use Rattle.paraid_core.specs.Steps.{IsCleared, IsStillOut};
ghost use Rattle.paraid_rack.specs.declared.call.Power.TheVariants.{Spinning};
ghost use Rattle.paraid_txn.specs.Losses.{IsSyncedAt};
ghost use Rattle.paraid_txn.specs.Stores.{named_of};
ghost use Rattle.paraid_core.specs.Calls.{MakesCopySyncs, MakesOneCall};
ghost use Rattle.paraid_rack.specs.declared.call.Call.TheVariants.{Sync};
ghost use Rattle.paraid_core.specs.Copying.{LeavesCopies};

use crate::staged::{Core, lose};
use paraid_base::{DiskNo, Two};
use paraid_rack::{Power, Rack};

// Whether a disk of this power spins.
fn is_spinning(power: Power) -> bool
    ensures spins { result ≡ true → power ≡ Spinning }
    ensures rests { result ≡ false → power ≢ Spinning }
{
    match power {
        Power::Spinning => true,
        Power::Parked => false,
        Power::Absent => false,
    }
}

impl<R: Rack> Core<R> {
    ghost use Rattle.paraid_core.specs.Cores.{IsCoreReady, copied_of, meta_of, core_rack, store_of};

    // Syncs a disk that spins.
    fn sync_disk(&mut self, disk: DiskNo) -> Result<(), Two>
        requires ready { IsCoreReady R.slot_count R.slot self.old }
        requires still { IsStillOut (named_of (store_of self.old)) (meta_of self.old) }
        requires disk { disk < (meta_of self.old).setup.geometry.disks }
        requires spins { (R.slot (core_rack self.old) disk).power ≡ Spinning }
        ensures keeps { LeavesCopies self.old self.new result }
        ensures synced { OnOk result (IsSyncedAt (R.slot (core_rack self.new)) disk) }
        ensures cleared { IsCleared (copied_of self.old) (copied_of self.new) disk }
        ensures calls { MakesOneCall R.told (λ done. Sync disk done) self.old self.new }
    {
        let answer = self.store.sync(disk);
        self.copied[disk as usize] = false;
        let Err(_) = answer else {
            return Ok(());
        };
        lose(&mut self.meta, Some(disk))
    }

    // Syncs a disk if copies went to it; one that does not spin has nothing that is unsynced.
    fn settle_one(&mut self, disk: DiskNo) -> Result<(), Two>
        requires ready { IsCoreReady R.slot_count R.slot self.old }
        requires still { IsStillOut (named_of (store_of self.old)) (meta_of self.old) }
        requires disk { disk < (meta_of self.old).setup.geometry.disks }
        ensures keeps { LeavesCopies self.old self.new result }
        ensures synced { OnOk result (is_copied (copied_of self.old) disk ≡ true
            → IsSyncedAt (R.slot (core_rack self.new)) disk) }
        ensures cleared { OnOk result (IsCleared (copied_of self.old) (copied_of self.new) disk) }
        ensures calls { MakesCopySyncs R.told self.old self.new }
    {
        if !self.copied[disk as usize] {
            return Ok(());
        }
        if !is_spinning(self.store.power(disk)) {
            self.copied[disk as usize] = false;
            return Ok(());
        }
        self.sync_disk(disk)
    }

    /// Makes all copies last: each disk to which copies went since the last time is synced once, in
    /// ascending order. A disk that fails is out from then on, and the others are synced still.
    pub fn settle(&mut self) -> Result<(), Two>
        requires ready { IsCoreReady R.slot_count R.slot self.old }
        requires still { IsStillOut (named_of (store_of self.old)) (meta_of self.old) }
        ensures keeps { LeavesCopies self.old self.new result }
        ensures synced { OnOk result ((d : ℕ)
            → d < (meta_of self.old).setup.geometry.disks → is_copied (copied_of self.old) d ≡ true
            → IsSyncedAt (R.slot (core_rack self.new)) d) }
        ensures copies_synced { OnOk result (AreCopiesSynced (meta_of self.old).setup.geometry.disks
            (copied_of self.new)) }
        ensures calls { MakesCopySyncs R.told self.old self.new }
    {
        for disk in 0..self.meta.setup.geometry.disks {
            self.settle_one(disk)?;
        }
        Ok(())
    }
}
