//! The units of the disk that is being rebuilt store what they should: the rows, the stripes, and
//! the blocks of the dirty map.
ghost use Rattle.std.specs.Prelude.{◌≡◌, ℕ, ◌<◌, ◌≤◌, ◌↔◌, IsTrue, nat_lt, if◌then◌else◌};
ghost use Rattle.paraid_base.specs.Regions.{map_count};
ghost use Rattle.paraid_base.specs.Soft.{stripe_count};
ghost use Rattle.paraid_image.specs.Sound.{AreRebuilt, stripes_on};
ghost use Rattle.paraid_plain.specs.Images.{disks_in};
ghost use Rattle.paraid_plain.specs.Parts.{IsFreshRebuilt, IsMapRebuilt, IsRowRebuilt, IsStripeRebuilt};
ghost use Rattle.paraid_plain.specs.Views.{view_at};

use crate::image::Image;
use crate::same::is_same_block;
use crate::statement::Statement;
use crate::value::{cell_value, hard_block, stripe_block, stripe_rest};
use crate::view::{content, is_dirty};
use paraid_base::{DiskNo, MAP_START, Out, Row};

pub(crate) fn is_fresh_rebuilt(image: &Image, says: &Statement) -> bool
    ensures { IsTrue result ↔ IsFreshRebuilt (disks_in image.now).power
        (view_at image.now says.now) }
{
    match says.meta.out {
        Out::No => true,
        Out::Gone { .. } => true,
        Out::Fresh { disk, rebuilt } => {
            !image.is_present(disk) || are_rebuilt(image, says, disk, rebuilt)
        }
    }
}

fn are_rebuilt(image: &Image, says: &Statement, disk: DiskNo, rebuilt: u32) -> bool
    requires { disk < says.now.meta.setup.geometry.disks }
    ensures { IsTrue result ↔ AreRebuilt (view_at image.now says.now) disk rebuilt }
{
    are_rows_rebuilt(image, says, disk, rebuilt)
        && are_stripes_rebuilt(image, says, disk, rebuilt)
        && is_map_rebuilt(image, says, disk, rebuilt)
}

fn are_rows_rebuilt(image: &Image, says: &Statement, disk: DiskNo, rebuilt: u32) -> bool
    requires { disk < says.now.meta.setup.geometry.disks }
    ensures { IsTrue result ↔ ((r : ℕ) → r < says.now.meta.setup.geometry.rows
        → IsRowRebuilt (view_at image.now says.now) disk rebuilt r) }
{
    for row in 0..says.meta.setup.geometry.rows {
        if !is_row_rebuilt(image, says, disk, rebuilt, row) {
            return false;
        }
    }
    true
}

fn is_row_rebuilt(image: &Image, says: &Statement, disk: DiskNo, rebuilt: u32, row: Row) -> bool
    requires disk { disk < says.now.meta.setup.geometry.disks }
    requires row { row < says.now.meta.setup.geometry.rows }
    ensures { IsTrue result ↔ IsRowRebuilt (view_at image.now says.now) disk rebuilt row }
{
    if row >= rebuilt || (says.meta.gear <= disk && is_dirty(image, says, row, disk)) {
        return true;
    }
    is_same_block(
        &hard_block(image, says, row, disk),
        &cell_value(image, says, row, disk),
    )
}

fn are_stripes_rebuilt(image: &Image, says: &Statement, disk: DiskNo, rebuilt: u32) -> bool
    ensures { IsTrue result ↔ ((s : ℕ) → s < stripes_on (view_at image.now says.now) disk
        → IsStripeRebuilt (view_at image.now says.now) disk rebuilt s) }
{
    for at in 0..stripe_units(says, disk) {
        if !is_stripe_rebuilt(image, says, disk, rebuilt, at) {
            return false;
        }
    }
    true
}

/// The number of stripes that a disk below the gear has to get back.
fn stripe_units(says: &Statement, disk: DiskNo) -> u32
    ensures value { result ≡ (if nat_lt disk says.now.meta.gear then
        stripe_count says.now.meta.setup.geometry.disks says.now.meta.setup.geometry.rows
        says.now.meta.gear else 0) }
    ensures small { result ≤ 400000 }
{
    if disk < says.meta.gear {
        says.meta.setup.geometry.stripes(says.meta.gear)
    } else {
        0
    }
}

fn is_stripe_rebuilt(image: &Image, says: &Statement, disk: DiskNo, rebuilt: u32, at: u32) -> bool
    requires { at < stripe_count says.now.meta.setup.geometry.disks
        says.now.meta.setup.geometry.rows says.now.meta.gear }
    ensures { IsTrue result ↔ IsStripeRebuilt (view_at image.now says.now) disk rebuilt at }
{
    if says.meta.setup.geometry.rows + at >= rebuilt {
        return true;
    }
    let gear = says.meta.gear;
    is_same_block(
        &stripe_block(image, says, gear, at, disk),
        &stripe_rest(image, says, gear, at, disk),
    )
}

fn is_map_rebuilt(image: &Image, says: &Statement, disk: DiskNo, rebuilt: u32) -> bool
    ensures { IsTrue result ↔ ((j : ℕ) → disk < 2 → j < map_count says.now.meta.setup.geometry
        → IsMapRebuilt (view_at image.now says.now) disk rebuilt j) }
{
    if disk >= 2 {
        return true;
    }
    for at in 0..says.meta.setup.geometry.map_blocks() {
        if !is_map_block_rebuilt(image, says, disk, rebuilt, at) {
            return false;
        }
    }
    true
}

fn is_map_block_rebuilt(
    image: &Image,
    says: &Statement,
    disk: DiskNo,
    rebuilt: u32,
    at: u32,
) -> bool
    requires disk { disk < 2 }
    requires block { at < map_count says.now.meta.setup.geometry }
    ensures { IsTrue result ↔ IsMapRebuilt (view_at image.now says.now) disk rebuilt at }
{
    let before = says.meta.setup.geometry.rows + stripe_units(says, disk);
    if before + at >= rebuilt {
        return true;
    }
    is_same_block(
        &content(image, says, disk, MAP_START + at),
        &content(image, says, 1 - disk, MAP_START + at),
    )
}
