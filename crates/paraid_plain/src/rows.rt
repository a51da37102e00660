//! The values of each row sum to zero.
ghost use Rattle.std.specs.Prelude.{◌≡◌, ◌<◌, ◌↔◌, IsTrue};
ghost use Rattle.paraid_base.specs.Sums.{xor_upto};
ghost use Rattle.paraid_image.specs.Sound.{AreRowsZero};
ghost use Rattle.paraid_image.specs.Value.{value};
ghost use Rattle.paraid_plain.specs.Views.{view_at};

use crate::image::Image;
use crate::statement::Statement;
use crate::value::cell_value;
use paraid_base::{Block, Row};
use paraid_parity::{is_zero, xor_into};

pub(crate) fn are_rows_zero(image: &Image, says: &Statement) -> bool
    ensures { IsTrue result ↔ AreRowsZero (view_at image.now says.now) }
{
    for row in 0..says.meta.setup.geometry.rows {
        if !is_zero(&row_sum(image, says, row)) {
            return false;
        }
    }
    true
}

fn row_sum(image: &Image, says: &Statement, row: Row) -> Block
    requires { row < says.now.meta.setup.geometry.rows }
    ensures { result ≡ xor_upto (value (view_at image.now says.now) row)
        says.now.meta.setup.geometry.disks }
{
    let mut sum = Block::zero();
    for disk in 0..says.meta.setup.geometry.disks {
        xor_into(&mut sum, &cell_value(image, says, row, disk));
    }
    sum
}
