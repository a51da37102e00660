//! Why a mount is refused by the meta that stands.
ghost use Rattle.std.specs.Prelude.{◌≡◌, MatchOption};
ghost use Rattle.paraid_recover.specs.Order.{IsRefusedBy, IsNotRefused, size_found};

use crate::asleep::first_asleep;
use crate::lacking::two_missing;
use crate::mount_fault::MountFault;
use crate::sizes::first_small;
use crate::wear::worn_count;
use paraid_base::DiskNo;
use paraid_rack::Rack;
use paraid_record::Meta;
use paraid_txn::Batch;

// The size that is found of a disk, 0 where there is no such slot.
fn found_size<R: Rack>(rack: &R, disk: DiskNo) -> u32
    ensures { result ≡ size_found (R.slot_count rack.now) (R.slot rack.now) disk }
{
    if disk >= rack.slots() {
        return 0;
    }
    rack.size(disk)
}

/// Why a mount is refused where this meta stands with this batch: the first cause that is there, of
/// a disk that is too small, one that is parked and is to spin, two that are missing, and wear.
pub fn refusal_by_meta<R: Rack>(rack: &R, meta: &Meta, batch: &Batch) -> Option<MountFault>
    ensures { MatchOption result
        (IsNotRefused (R.slot_count rack.now) (R.slot rack.now) meta.now batch.now)
        (IsRefusedBy (R.slot_count rack.now) (R.slot rack.now) meta.now batch.now) }
{
    if let Some(disk) = first_small(rack, meta) {
        return Some(MountFault::Size {
            disk,
            found: found_size(rack, disk),
            needed: meta.setup.geometry.size(),
        });
    }
    if let Some(disk) = first_asleep(rack, meta, batch) {
        return Some(MountFault::Power { disk });
    }
    if let Some(two) = two_missing(rack, meta) {
        return Some(MountFault::Two(two));
    }
    if let Some(count) = worn_count(meta) {
        return Some(MountFault::Worn { count });
    }
    None
}
