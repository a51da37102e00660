//! The disks are there, are large enough and are powered as they should be.
ghost use Rattle.std.specs.Prelude.{◌≡◌, ◌≢◌, ℕ, ◌<◌, ◌≤◌, ◌↔◌, true, length, IsTrue};
ghost use Rattle.paraid_base.specs.Regions.{disk_size};
ghost use Rattle.paraid_rack.specs.declared.call.Power.TheVariants.{Parked, Spinning};
ghost use Rattle.paraid_rack.specs.Disks.{is_present};
ghost use Rattle.paraid_image.specs.Sound.{AreDisks};
ghost use Rattle.paraid_plain.specs.Images.{disks_in};
ghost use Rattle.paraid_plain.specs.Parts.{AreDisksLarge, AreRecorded, AreSpinning, IsFreshReady, IsLarge, IsRecorded, IsSpinning};
ghost use Rattle.paraid_plain.specs.Views.{out_at};

use crate::image::Image;
use crate::statement::Statement;
use crate::view::is_out_disk;
use paraid_base::{DiskNo, Out, Phase};
use paraid_rack::Power;

pub(crate) fn are_disks(image: &Image, says: &Statement) -> bool
    ensures { IsTrue result ↔ AreDisks (length image.now.slots.items) (disks_in image.now).power
        (disks_in image.now).size says.now.meta (out_at image.now says.now) }
{
    if !are_slots(image, says) || !are_large(image, says) {
        return false;
    }
    if !are_spinning(image, says) || !is_fresh_ready(image, says) {
        return false;
    }
    are_recorded(image, says)
}

/// There are enough slots, and no log disk is parked.
fn are_slots(image: &Image, says: &Statement) -> bool
    ensures { IsTrue result ↔ ((says.now.meta.setup.geometry.disks ≤ length image.now.slots.items)
        × ((d : ℕ) → d < 2 → (disks_in image.now).power d ≢ Parked)) }
{
    says.meta.setup.geometry.disks as usize <= image.slots()
        && is_not_parked(image, 0)
        && is_not_parked(image, 1)
}

fn is_not_parked(image: &Image, disk: DiskNo) -> bool
    ensures { IsTrue result ↔ ((disks_in image.now).power disk ≢ Parked) }
{
    image.power(disk) != Power::Parked
}

fn are_large(image: &Image, says: &Statement) -> bool
    ensures { IsTrue result
        ↔ AreDisksLarge (disks_in image.now) says.now.meta (out_at image.now says.now) }
{
    for disk in 0..says.meta.setup.geometry.disks {
        if !is_large(image, says, disk) {
            return false;
        }
    }
    true
}

fn is_large(image: &Image, says: &Statement, disk: DiskNo) -> bool
    ensures { IsTrue result
        ↔ IsLarge (disks_in image.now) says.now.meta (out_at image.now says.now) disk }
{
    !image.is_present(disk) || is_out_disk(image, says, disk) || has_room(image, says, disk)
}

/// Whether a disk has as many blocks as each disk of the array needs.
fn has_room(image: &Image, says: &Statement, disk: DiskNo) -> bool
    ensures { IsTrue result
        ↔ (disk_size says.now.meta.setup.geometry ≤ (disks_in image.now).size disk) }
{
    says.meta.setup.geometry.size() as usize <= image.size(disk)
}

fn are_spinning(image: &Image, says: &Statement) -> bool
    ensures { IsTrue result
        ↔ AreSpinning (disks_in image.now).power says.now.meta (out_at image.now says.now) }
{
    for disk in 0..says.meta.gear {
        if !is_spinning(image, says, disk) {
            return false;
        }
    }
    true
}

/// Whether a disk spins, unless it is out.
pub(crate) fn is_spinning(image: &Image, says: &Statement, disk: DiskNo) -> bool
    ensures { IsTrue result
        ↔ IsSpinning (disks_in image.now).power (out_at image.now says.now) disk }
{
    is_out_disk(image, says, disk) || image.power(disk) == Power::Spinning
}

/// The disk that is being rebuilt spins and is large enough.
fn is_fresh_ready(image: &Image, says: &Statement) -> bool
    ensures { IsTrue result ↔ IsFreshReady (disks_in image.now) says.now.meta }
{
    match says.meta.out {
        Out::No => true,
        Out::Gone { .. } => true,
        Out::Fresh { disk, .. } => !image.is_present(disk) || is_ready(image, says, disk),
    }
}

fn is_ready(image: &Image, says: &Statement, disk: DiskNo) -> bool
    ensures { IsTrue result
        ↔ ((disk_size says.now.meta.setup.geometry ≤ (disks_in image.now).size disk)
        × ((disks_in image.now).power disk ≡ Spinning)) }
{
    has_room(image, says, disk) && image.power(disk) == Power::Spinning
}

fn are_recorded(image: &Image, says: &Statement) -> bool
    ensures { IsTrue result
        ↔ AreRecorded (disks_in image.now).power says.now.meta (out_at image.now says.now) }
{
    match says.meta.phase {
        Phase::Steady => true,
        Phase::Down { .. } => true,
        Phase::Up { to } => are_recorded_below(image, says, to),
    }
}

fn are_recorded_below(image: &Image, says: &Statement, to: u8) -> bool
    requires { to ≤ 8 }
    ensures { IsTrue result ↔ ((d : ℕ) → says.now.meta.gear ≤ d → d < to
        → IsRecorded (disks_in image.now).power says.now.meta (out_at image.now says.now) d) }
{
    for disk in says.meta.gear..to {
        if !is_recorded(image, says, disk) {
            return false;
        }
    }
    true
}

/// Whether the spin-up of a parked disk is recorded, unless it is out.
fn is_recorded(image: &Image, says: &Statement, disk: DiskNo) -> bool
    requires { disk < 8 }
    ensures { IsTrue result
        ↔ IsRecorded (disks_in image.now).power says.now.meta (out_at image.now says.now) disk }
{
    image.power(disk) != Power::Parked
        || is_out_disk(image, says, disk)
        || says.meta.spins[disk as usize] >= 1
}
