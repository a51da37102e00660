//! The disks keep what was written, whatever a rack came with.
ghost use Rattle.std.specs.Prelude.{◌≡◌, ◌≢◌, ℕ, ◌<◌, ◌≤◌, Some, None, OnOk, IfErr};
ghost use Rattle.paraid_rack.specs.declared.call.Power.TheVariants.{Spinning};
ghost use Rattle.paraid_rack.specs.Told.{Ran};
ghost use Rattle.paraid_txn.specs.CommitPart.{CommitPart};
ghost use Rattle.paraid_txn.specs.Losses.{AreGoneSince, StaySynced, AreFailedOrWell, IsSyncedAt, IsOneOut, IsOutOfCommit, OnlyLosesSlots, AreTwoDownBeside, TellsSecondLoss};
ghost use Rattle.paraid_txn.specs.Uses.{CanSync, EachCall, UsesSync};

use crate::calls::sync_slot;
use crate::losses::Losses;
use crate::store::{Store, find_absent, out_first};
use paraid_base::{DiskNo, Two};
use paraid_rack::{Power, Rack};

// One disk, if it spins.
fn sync_one<R: Rack>(
    rack: &mut R,
    losses: &mut Losses,
    skip: Option<DiskNo>,
    disks: u8,
    disk: DiskNo,
) -> Result<(), Two>
    requires exists { disks ≤ R.slot_count rack.old }
    requires low { disk < disks }
    requires can { CanSync disks skip (R.slot rack.old) }
    ensures slots { R.slot_count rack.new ≡ R.slot_count rack.old }
    ensures part { CommitPart R.Rack (UsesSync disks skip) losses.old losses.new rack.old rack.new
        result }
    ensures still_synced { StaySynced (R.slot rack.old) (R.slot rack.new) }
    ensures synced { skip ≢ Some disk → IsSyncedAt (R.slot rack.new) disk }
{
    if rack.power(disk) != Power::Spinning {
        return Ok(());
    }
    sync_slot(rack, losses, skip, disk)
}

// Each of the first disks, in ascending order.
fn sync_each<R: Rack>(
    rack: &mut R,
    losses: &mut Losses,
    skip: Option<DiskNo>,
    disks: u8,
) -> Result<(), Two>
    requires exists { disks ≤ R.slot_count rack.old }
    requires can { CanSync disks skip (R.slot rack.old) }
    ensures slots { R.slot_count rack.new ≡ R.slot_count rack.old }
    ensures part { CommitPart R.Rack (UsesSync disks skip) losses.old losses.new rack.old rack.new
        result }
    ensures still_synced { StaySynced (R.slot rack.old) (R.slot rack.new) }
    ensures synced { OnOk result ((d : ℕ) → d < disks → skip ≢ Some d
        → IsSyncedAt (R.slot rack.new) d) }
{
    for disk in 0..disks {
        sync_one(rack, losses, skip, disks, disk)?;
    }
    Ok(())
}

impl<R: Rack> Store<R> {
    ghost use Rattle.paraid_txn.specs.Stores.{IsSameStore, Remembers, disks_of, named_of, store_rack};

    /// Makes each disk that spins keep all that was written, but for one that is skipped.
    ///
    /// A disk that fails goes out, and the others are synced still. Where a second disk is down it
    /// ends and names both.
    pub fn sync_all(&mut self, skip: Option<DiskNo>) -> Result<(), Two>
        requires { CanSync (disks_of self.old) skip (R.slot (store_rack self.old)) }
        ensures slots { R.slot_count (store_rack self.new) ≡ R.slot_count (store_rack self.old) }
        ensures same { IsSameStore self.old self.new }
        ensures remembers { Remembers self.old self.new }
        ensures powers { OnlyLosesSlots
            (R.slot (store_rack self.old)) (R.slot (store_rack self.new)) }
        ensures each { AreFailedOrWell
            (R.slot (store_rack self.old)) (R.slot (store_rack self.new)) }
        ensures still_synced { StaySynced
            (R.slot (store_rack self.old)) (R.slot (store_rack self.new)) }
        ensures synced { OnOk result ((d : ℕ) → d < disks_of self.old → skip ≢ Some d
            → IsSyncedAt (R.slot (store_rack self.new)) d) }
        ensures one { OnOk result
            (IsOneOut (disks_of self.old) (named_of self.old) (R.slot (store_rack self.old))
            → IsOneOut (disks_of self.old) (named_of self.old) (R.slot (store_rack self.new))) }
        ensures two { IfErr result (AreTwoDownBeside (IsOutOfCommit (λ e.
            (R.slot (store_rack self.old) e).power) (disks_of self.old) (named_of self.old) None)
            (R.slot (store_rack self.old)) (R.slot (store_rack self.new))) }
        ensures gone { IfErr result (AreGoneSince (IsOutOfCommit (λ e.
            (R.slot (store_rack self.old) e).power) (disks_of self.old) (named_of self.old) None)
            (R.slot (store_rack self.old)) (R.slot (store_rack self.new))) }
        ensures order { IfErr result (TellsSecondLoss (IsOutOfCommit (λ e.
            (R.slot (store_rack self.old) e).power) (disks_of self.old) (named_of self.old) None)
            (R.told (store_rack self.old)) (R.told (store_rack self.new))) }
        ensures calls { Ran (R.told (store_rack self.old)) (R.told (store_rack self.new))
            (EachCall (UsesSync (disks_of self.old) skip)) }
    {
        let absent = find_absent(&self.rack, self.disks);
        let mut losses = Losses {
            down: out_first(absent, self.named, None),
            lost: None,
        };
        sync_each(&mut self.rack, &mut losses, skip, self.disks)
    }
}
