//! A clean cell of a disk from the gear on has its value in its hard place too.
ghost use Rattle.std.specs.Prelude.{◌<◌, ◌↔◌, IsTrue};
ghost use Rattle.paraid_image.specs.Sound.{AreCleanStored};
ghost use Rattle.paraid_plain.specs.Parts.{AreRowCleanStored, IsCleanStored};
ghost use Rattle.paraid_plain.specs.Views.{view_at};

use crate::image::Image;
use crate::same::is_same_block;
use crate::statement::Statement;
use crate::value::{cell_value, hard_block};
use crate::view::{is_dirty, is_out_disk};
use paraid_base::{DiskNo, Row};

pub(crate) fn are_clean_stored(image: &Image, says: &Statement) -> bool
    ensures { IsTrue result ↔ AreCleanStored (view_at image.now says.now) }
{
    for row in 0..says.meta.setup.geometry.rows {
        if !is_row_clean_stored(image, says, row) {
            return false;
        }
    }
    true
}

fn is_row_clean_stored(image: &Image, says: &Statement, row: Row) -> bool
    requires { row < says.now.meta.setup.geometry.rows }
    ensures { IsTrue result ↔ AreRowCleanStored (view_at image.now says.now) row }
{
    for disk in says.meta.gear..says.meta.setup.geometry.disks {
        if !is_clean_stored(image, says, row, disk) {
            return false;
        }
    }
    true
}

fn is_clean_stored(image: &Image, says: &Statement, row: Row, disk: DiskNo) -> bool
    requires row { row < says.now.meta.setup.geometry.rows }
    requires disk { disk < says.now.meta.setup.geometry.disks }
    ensures { IsTrue result ↔ IsCleanStored (view_at image.now says.now) row disk }
{
    if is_out_disk(image, says, disk) || is_dirty(image, says, row, disk) {
        return true;
    }
    is_same_block(
        &hard_block(image, says, row, disk),
        &cell_value(image, says, row, disk),
    )
}
