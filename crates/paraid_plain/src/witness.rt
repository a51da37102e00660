//! Disk 2 bears witness only against the log disk that is out.
ghost use Rattle.std.specs.Prelude.{◌≡◌, ◌↔◌, IsTrue};
ghost use Rattle.paraid_image.specs.Sides.{is_open, stored_block};
ghost use Rattle.paraid_image.specs.Sound.{AreWitnessesTrue};
ghost use Rattle.paraid_plain.specs.Images.{disks_in};
ghost use Rattle.paraid_plain.specs.LogParts.{IsWitnessTrue};
ghost use Rattle.paraid_plain.specs.Views.{out_at};

use crate::image::Image;
use crate::statement::Statement;
use crate::view::is_out_disk;
use paraid_base::{DiskNo, Place, WITNESS_DISK};

/// No log disk that is in has a witness against it.
pub(crate) fn are_witnesses_true(image: &Image, says: &Statement) -> bool
    ensures { IsTrue result ↔ AreWitnessesTrue (disks_in image.now) (out_at image.now says.now) }
{
    is_witness_true(image, says, 0) && is_witness_true(image, says, 1)
}

/// A log disk has no witness against it, or is out.
fn is_witness_true(image: &Image, says: &Statement, disk: DiskNo) -> bool
    ensures { IsTrue result
        ↔ IsWitnessTrue (disks_in image.now) (out_at image.now says.now) disk }
{
    !has_witness(image, disk) || is_out_disk(image, says, disk)
}

/// Whether disk 2 bears witness against a log disk.
fn has_witness(image: &Image, disk: DiskNo) -> bool
    ensures { result ≡ is_open (stored_block (disks_in image.now) 2 disk) }
{
    image.stored(WITNESS_DISK, disk as Place).bytes[0] != 0
}
