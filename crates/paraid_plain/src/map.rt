//! The two dirty maps agree, and each dirty bit is of a cell of a disk from the gear on.
ghost use Rattle.std.specs.Prelude.{◌≡◌, ◌≢◌, ℕ, ◌*◌, ◌<◌, ◌↔◌, Some, true, IsTrue};
ghost use Rattle.paraid_base.specs.Log.{map_block_place};
ghost use Rattle.paraid_base.specs.Regions.{map_count};
ghost use Rattle.paraid_image.specs.Sound.{IsMap};
ghost use Rattle.paraid_plain.specs.Parts.{IsBitOfCell};
ghost use Rattle.paraid_plain.specs.Views.{block_at, dirty_at, out_at, view_at};

use crate::image::Image;
use crate::same::is_same_block;
use crate::statement::Statement;
use crate::view::{content, is_dirty, is_out_disk};
use paraid_base::{DiskNo, MAP_START, Row};

pub(crate) fn is_map(image: &Image, says: &Statement) -> bool
    ensures { IsTrue result ↔ IsMap (view_at image.now says.now) (dirty_at image.now says.now) }
{
    is_mirrored(image, says) && are_bits_of_cells(image, says)
}

fn is_mirrored(image: &Image, says: &Statement) -> bool
    ensures { IsTrue result ↔ ((j : ℕ) → j < map_count says.now.meta.setup.geometry
        → out_at image.now says.now ≢ Some 0 → out_at image.now says.now ≢ Some 1
        → block_at image.now says.now 0 (map_block_place says.now.meta.setup.geometry j)
        ≡ block_at image.now says.now 1 (map_block_place says.now.meta.setup.geometry j)) }
{
    if is_out_disk(image, says, 0) || is_out_disk(image, says, 1) {
        return true;
    }
    are_mirrors(image, says)
}

fn are_mirrors(image: &Image, says: &Statement) -> bool
    ensures { IsTrue result ↔ ((j : ℕ) → j < map_count says.now.meta.setup.geometry
        → block_at image.now says.now 0 (map_block_place says.now.meta.setup.geometry j)
        ≡ block_at image.now says.now 1 (map_block_place says.now.meta.setup.geometry j)) }
{
    for at in 0..says.meta.setup.geometry.map_blocks() {
        if !is_same_block(
            &content(image, says, 0, MAP_START + at),
            &content(image, says, 1, MAP_START + at),
        ) {
            return false;
        }
    }
    true
}

fn are_bits_of_cells(image: &Image, says: &Statement) -> bool
    ensures { IsTrue result ↔ ((r d : ℕ) → r < 512 * map_count says.now.meta.setup.geometry
        → IsBitOfCell (view_at image.now says.now) r d) }
{
    for row in 0..512 * says.meta.setup.geometry.map_blocks() {
        if !are_row_bits_of_cells(image, says, row) {
            return false;
        }
    }
    true
}

fn are_row_bits_of_cells(image: &Image, says: &Statement, row: Row) -> bool
    ensures { IsTrue result ↔ ((d : ℕ) → IsBitOfCell (view_at image.now says.now) row d) }
{
    for disk in 0..8 {
        if !is_bit_of_cell(image, says, row, disk) {
            return false;
        }
    }
    true
}

fn is_bit_of_cell(image: &Image, says: &Statement, row: Row, disk: DiskNo) -> bool
    requires { disk < 8 }
    ensures { IsTrue result ↔ IsBitOfCell (view_at image.now says.now) row disk }
{
    let geometry = &says.meta.setup.geometry;
    !is_dirty(image, says, row, disk)
        || (row < geometry.rows && says.meta.gear <= disk && disk < geometry.disks)
}
