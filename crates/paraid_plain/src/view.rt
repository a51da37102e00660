//! What an image holds past the log, under what a log disk says of it.
ghost use Rattle.std.specs.Prelude.{◌≡◌, ◌<◌, ◌==◌, ◌&&◌, None, Some, Option, if◌then◌else◌};
ghost use Rattle.paraid_rack.specs.Disks.{is_present};
ghost use Rattle.paraid_image.specs.Out.{first_absent as first_absent_of, is_out, or_else};
ghost use Rattle.paraid_image.specs.Sides.{stored_block};
ghost use Rattle.paraid_image.specs.Standing.{overlaid_block as laid_over};
ghost use Rattle.paraid_plain.specs.Images.{disks_in};
ghost use Rattle.paraid_plain.specs.Statements.{batch_in};
ghost use Rattle.paraid_plain.specs.Views.{block_at, dirty_at, out_at};

use crate::image::Image;
use crate::statement::Statement;
use paraid_base::{Block, DiskNo, FIRST_BODY, MAP_START, Place, Row};
use paraid_record::Target;

/// The out disk: the one that the meta names out, or else the least absent slot.
#[tactic(auto, unfolding(crate::specs::Views::out_at))]
pub fn out_of(image: &Image, says: &Statement) -> Option<DiskNo>
    ensures { result ≡ out_at image.now says.now }
{
    match says.meta.out.named() {
        Some(disk) => Some(disk),
        None => first_absent(image, says.meta.setup.geometry.disks),
    }
}

fn first_absent(image: &Image, count: u8) -> Option<DiskNo>
    ensures { result ≡ first_absent_of (disks_in image.now).power count }
{
    let mut found = None;
    for disk in 0..count {
        found = or_absent(image, found, disk);
    }
    found
}

fn or_absent(image: &Image, found: Option<DiskNo>, disk: DiskNo) -> Option<DiskNo>
    ensures { result ≡ or_else found
        (if is_present ((disks_in image.now).power disk) then None else Some disk) }
{
    match found {
        Some(lower) => Some(lower),
        None => {
            if image.is_present(disk) {
                None
            } else {
                Some(disk)
            }
        }
    }
}

/// Whether a disk is the out disk.
pub(crate) fn is_out_disk(image: &Image, says: &Statement, disk: DiskNo) -> bool
    ensures { result ≡ is_out (out_at image.now says.now) disk }
{
    match out_of(image, says) {
        None => false,
        Some(out) => disk == out,
    }
}

/// The block at a place past the log, with the batch laid over it; zeros where there is none.
#[tactic(auto, unfolding(crate::specs::Views::block_at, paraid_image::specs::Standing::contents))]
pub fn content(image: &Image, says: &Statement, disk: DiskNo, place: Place) -> Block
    ensures { result ≡ block_at image.now says.now disk place }
{
    if place < MAP_START || !image.has_place(disk, place) {
        return Block::zero();
    }
    laid(image, says, disk, place)
}

/// The block at a place, or what the last target there gets.
fn laid(image: &Image, says: &Statement, disk: DiskNo, place: Place) -> Block
    ensures { result ≡ laid_over (batch_in image.now says.now) disk place
        (stored_block (disks_in image.now) disk place) }
{
    let mut block = image.stored(disk, place);
    for at in 0..says.targets.count {
        if is_target(says.targets.list[at as usize], disk, place) {
            block = image.stored(says.disk, FIRST_BODY + at as Place);
        }
    }
    block
}

fn is_target(target: Target, disk: DiskNo, place: Place) -> bool
    ensures { result ≡ (target.disk == disk && target.place == place) }
{
    target.disk == disk && target.place == place
}

/// Whether a cell is dirty, by the map of the lower log disk that is not out.
#[tactic(auto, unfolding(crate::specs::Views::dirty_at, paraid_image::specs::Spot::map_bit))]
pub fn is_dirty(image: &Image, says: &Statement, row: Row, disk: DiskNo) -> bool
    requires { disk < 8 }
    ensures { result ≡ dirty_at image.now says.now row disk }
{
    let mirror = if is_out_disk(image, says, 0) { 1 } else { 0 };
    let map = content(image, says, mirror, MAP_START + row / 512);
    (map.bytes[(row % 512) as usize] >> disk) % 2 == 1
}
