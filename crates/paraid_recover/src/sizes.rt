//! Disks that are too small for the array.
ghost use Rattle.std.specs.Prelude.{◌≡◌, ◌≤◌, None, MatchOption};
ghost use Rattle.paraid_recover.specs.Refusals.{IsLeastDisk, IsNone, is_small as is_small_of};

use paraid_base::DiskNo;
use paraid_rack::Rack;
use paraid_record::Meta;

// Whether there is no such slot, or a disk is there that is to be used and is too small.
#[tactic(auto, unfolding(crate::specs::Refusals::is_small))]
fn is_small<R: Rack>(rack: &R, meta: &Meta, disk: DiskNo) -> bool
    ensures { result ≡ is_small_of (R.slot_count rack.now) (R.slot rack.now) meta.now disk }
{
    if disk >= rack.slots() {
        return true;
    }
    rack.power(disk).is_present()
        && !meta.out.is_gone(disk)
        && rack.size(disk) < meta.setup.geometry.size()
}

/// The least disk of the array for which there is no slot, or which is there and not gone and has
/// fewer blocks than needed.
pub fn first_small<R: Rack>(rack: &R, meta: &Meta) -> Option<DiskNo>
    ensures enough { result ≡ None → meta.now.setup.geometry.disks ≤ R.slot_count rack.now }
    ensures least { MatchOption result
        (IsNone (is_small_of (R.slot_count rack.now) (R.slot rack.now) meta.now)
        meta.now.setup.geometry.disks)
        (IsLeastDisk (is_small_of (R.slot_count rack.now) (R.slot rack.now) meta.now)
        meta.now.setup.geometry.disks) }
{
    for disk in 0..meta.setup.geometry.disks() {
        if is_small(rack, meta, disk) {
            return Some(disk);
        }
    }
    None
}
