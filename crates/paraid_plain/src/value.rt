//! The value of a cell, and what a block of the array holds.
ghost use Rattle.std.specs.Prelude.{◌≡◌, ◌<◌, ◌≤◌};
ghost use Rattle.paraid_base.specs.Regions.{IsGear, hard_place_of, array_blocks};
ghost use Rattle.paraid_base.specs.Soft.{stripe_count};
ghost use Rattle.paraid_image.specs.Content.{blocks_of, view_of};
ghost use Rattle.paraid_image.specs.Spot.{is_hard as is_hard_in};
ghost use Rattle.paraid_image.specs.Value.{reconstructed_value as far_in, stored_value as near_in, soft_value as soft_value_in, stripe as stripe_of, stripe_rest as rest_of_stripe, value};
ghost use Rattle.paraid_plain.specs.Images.{disks_in};
ghost use Rattle.paraid_plain.specs.Statements.{said_of};
ghost use Rattle.paraid_plain.specs.Views.{block_at, view_at};

use crate::image::Image;
use crate::statement::Statement;
use crate::view::{content, is_dirty, is_out_disk};
use paraid_base::{Block, BlockNo, DiskNo, Row};
use paraid_layout::{hard_place, home, soft_of, soft_place};
use paraid_parity::xor_into;

/// The value of a cell, by what a log disk says.
#[tactic(auto, unfolding(crate::specs::Views::block_at, crate::specs::Views::out_at, crate::specs::Views::dirty_at))]
pub fn value_of(image: &Image, says: &Statement, row: Row, disk: DiskNo) -> Block
    requires row { row < says.now.meta.setup.geometry.rows }
    requires disk { disk < says.now.meta.setup.geometry.disks }
    ensures { result
        ≡ value (view_of (disks_in image.now) (said_of image.now says.now)) row disk }
{
    cell_value(image, says, row, disk)
}

/// What a block of the array holds, by what a log disk says.
#[tactic(auto, unfolding(crate::specs::Views::block_at, crate::specs::Views::out_at, crate::specs::Views::dirty_at))]
pub fn block_of(image: &Image, says: &Statement, block: BlockNo) -> Block
    requires { block < array_blocks says.now.meta.setup.geometry }
    ensures { result
        ≡ blocks_of (view_of (disks_in image.now) (said_of image.now says.now)) block }
{
    home_value(image, says, block)
}

pub(crate) fn home_value(image: &Image, says: &Statement, block: BlockNo) -> Block
    requires { block < array_blocks says.now.meta.setup.geometry }
    ensures { result ≡ blocks_of (view_at image.now says.now) block }
{
    let (row, disk) = home(&says.meta.setup.geometry, block);
    cell_value(image, says, row, disk)
}

#[tactic(auto, unfolding(paraid_image::specs::Value::value))]
pub(crate) fn cell_value(image: &Image, says: &Statement, row: Row, disk: DiskNo) -> Block
    requires row { row < says.now.meta.setup.geometry.rows }
    requires disk { disk < says.now.meta.setup.geometry.disks }
    ensures { result ≡ value (view_at image.now says.now) row disk }
{
    if is_hard(image, says, row, disk) && is_out_disk(image, says, disk) {
        far(image, says, row, disk)
    } else {
        near(image, says, row, disk)
    }
}

/// Whether the value of a cell lives on its hard place.
#[tactic(auto, unfolding(paraid_image::specs::Spot::is_hard))]
fn is_hard(image: &Image, says: &Statement, row: Row, disk: DiskNo) -> bool
    requires { disk < says.now.meta.setup.geometry.disks }
    ensures { result ≡ is_hard_in (view_at image.now says.now) row disk }
{
    disk < says.meta.gear
        || (disk < says.meta.phase.rising_to() && !is_dirty(image, says, row, disk))
}

/// The XOR of the values of the row's other cells.
#[tactic(auto, unfolding(paraid_image::specs::Value::reconstructed_value))]
fn far(image: &Image, says: &Statement, row: Row, disk: DiskNo) -> Block
    requires row { row < says.now.meta.setup.geometry.rows }
    requires disk { disk < says.now.meta.setup.geometry.disks }
    ensures { result ≡ far_in (view_at image.now says.now) row disk }
{
    let mut sum = Block::zero();
    for other in 0..says.meta.setup.geometry.disks {
        if other != disk {
            xor_into(&mut sum, &near(image, says, row, other));
        }
    }
    sum
}

/// The value of a cell that is not the hard place of the out disk.
#[tactic(auto, unfolding(paraid_image::specs::Value::stored_value))]
fn near(image: &Image, says: &Statement, row: Row, disk: DiskNo) -> Block
    requires row { row < says.now.meta.setup.geometry.rows }
    requires disk { disk < says.now.meta.setup.geometry.disks }
    ensures { result ≡ near_in (view_at image.now says.now) row disk }
{
    if is_hard(image, says, row, disk) {
        hard_block(image, says, row, disk)
    } else {
        soft_value(image, says, row, disk)
    }
}

/// The block at the hard place of a cell.
pub(crate) fn hard_block(image: &Image, says: &Statement, row: Row, disk: DiskNo) -> Block
    requires { row < says.now.meta.setup.geometry.rows }
    ensures { result ≡ block_at image.now says.now disk
        (hard_place_of says.now.meta.setup.geometry row) }
{
    content(
        image,
        says,
        disk,
        hard_place(&says.meta.setup.geometry, row),
    )
}

/// The copy of a cell, or where that is on the out disk the XOR of the rest of its stripe.
#[tactic(auto, unfolding(paraid_image::specs::Value::soft_value))]
fn soft_value(image: &Image, says: &Statement, row: Row, disk: DiskNo) -> Block
    requires row { row < says.now.meta.setup.geometry.rows }
    requires parked { says.now.meta.gear ≤ disk }
    requires disk { disk < says.now.meta.setup.geometry.disks }
    ensures { result ≡ soft_value_in (view_at image.now says.now) row disk }
{
    let gear = says.meta.gear;
    let (stripe, copy) = soft_of(&says.meta.setup.geometry, gear, row, disk);
    if is_out_disk(image, says, copy) {
        stripe_rest(image, says, gear, stripe, copy)
    } else {
        stripe_block(image, says, gear, stripe, copy)
    }
}

/// The block of a stripe on one disk.
pub(crate) fn stripe_block(
    image: &Image,
    says: &Statement,
    gear: u8,
    stripe: u32,
    disk: DiskNo,
) -> Block
    requires gear { IsGear says.now.meta.setup.geometry gear }
    requires region { gear < says.now.meta.setup.geometry.disks }
    requires stripe { stripe < stripe_count says.now.meta.setup.geometry.disks
        says.now.meta.setup.geometry.rows gear }
    ensures { result ≡ stripe_of says.now.meta.setup.geometry (block_at image.now says.now) gear
        stripe disk }
{
    content(
        image,
        says,
        disk,
        soft_place(&says.meta.setup.geometry, gear, stripe),
    )
}

/// The XOR of the blocks of a stripe but that of one disk.
pub(crate) fn stripe_rest(
    image: &Image,
    says: &Statement,
    gear: u8,
    stripe: u32,
    disk: DiskNo,
) -> Block
    requires gear { IsGear says.now.meta.setup.geometry gear }
    requires region { gear < says.now.meta.setup.geometry.disks }
    requires stripe { stripe < stripe_count says.now.meta.setup.geometry.disks
        says.now.meta.setup.geometry.rows gear }
    ensures { result ≡ rest_of_stripe says.now.meta.setup.geometry (block_at image.now says.now)
        gear stripe disk }
{
    let mut sum = Block::zero();
    for other in 0..gear {
        if other != disk {
            xor_into(&mut sum, &stripe_block(image, says, gear, stripe, other));
        }
    }
    sum
}
