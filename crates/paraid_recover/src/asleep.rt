//! Parked disks that are to spin.
ghost use Rattle.std.specs.Prelude.{◌≡◌, ◌<◌, ◌≤◌, MatchOption};
ghost use Rattle.paraid_recover.specs.Refusals.{IsLeastDisk, IsNone, is_asleep as is_asleep_of, must_spin as must_spin_of};

use paraid_base::DiskNo;
use paraid_rack::Rack;
use paraid_record::Meta;
use paraid_txn::Batch;

// Whether the meta or its batch asks a disk to spin.
#[tactic(auto, unfolding(crate::specs::Refusals::must_spin))]
fn must_spin(meta: &Meta, batch: &Batch, disk: DiskNo) -> bool
    ensures { result ≡ must_spin_of meta.now batch.now disk }
{
    meta.out.is_fresh(disk) || (!meta.out.names(disk) && (disk < meta.gear || batch.has_disk(disk)))
}

// Whether a disk is parked that is to spin.
#[tactic(auto, unfolding(crate::specs::Refusals::is_asleep))]
fn is_asleep<R: Rack>(rack: &R, meta: &Meta, batch: &Batch, disk: DiskNo) -> bool
    requires { disk < R.slot_count rack.now }
    ensures { result ≡ is_asleep_of (R.slot rack.now) meta.now batch.now disk }
{
    rack.power(disk).is_parked() && must_spin(meta, batch, disk)
}

/// The least parked disk of the array that is to spin: it is below the gear or has a target in the
/// batch and is not out, or it is being rebuilt.
pub fn first_asleep<R: Rack>(rack: &R, meta: &Meta, batch: &Batch) -> Option<DiskNo>
    requires { meta.now.setup.geometry.disks ≤ R.slot_count rack.now }
    ensures { MatchOption result
        (IsNone (is_asleep_of (R.slot rack.now) meta.now batch.now) meta.now.setup.geometry.disks)
        (IsLeastDisk (is_asleep_of (R.slot rack.now) meta.now batch.now)
        meta.now.setup.geometry.disks) }
{
    for disk in 0..meta.setup.geometry.disks() {
        if is_asleep(rack, meta, batch, disk) {
            return Some(disk);
        }
    }
    None
}
