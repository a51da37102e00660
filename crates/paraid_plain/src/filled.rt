//! The stripes of the new gear below the fill mark are filled, while no disk is out.
ghost use Rattle.std.specs.Prelude.{ℕ, ◌-◌, ◌<◌, ◌≤◌, ◌↔◌, IsTrue};
ghost use Rattle.paraid_base.specs.Regions.{IsGear};
ghost use Rattle.paraid_base.specs.Soft.{stripe_count};
ghost use Rattle.paraid_image.specs.Sound.{AreFilled, IsFilled};
ghost use Rattle.paraid_image.specs.Value.{stripe, value};
ghost use Rattle.paraid_plain.specs.Parts.{AreCopied, ArePadsZero, IsCopied, IsPadZero};
ghost use Rattle.paraid_plain.specs.Views.{view_at};

use crate::image::Image;
use crate::same::is_same_block;
use crate::statement::Statement;
use crate::stripes::is_stripe_zero;
use crate::value::{cell_value, stripe_block};
use crate::view::out_of;
use paraid_base::{DiskNo, Row};
use paraid_layout::{soft_of, soft_parity};
use paraid_parity::is_zero;

pub(crate) fn are_filled(image: &Image, says: &Statement) -> bool
    ensures { IsTrue result ↔ AreFilled (view_at image.now says.now) }
{
    if out_of(image, says).is_some() {
        return true;
    }
    for at in 0..says.meta.fill {
        if !is_filled(image, says, says.meta.phase.to(), at) {
            return false;
        }
    }
    true
}

/// Whether a stripe stores the values of its cells and zeros in its pads, and sums to zero.
fn is_filled(image: &Image, says: &Statement, gear: u8, at: u32) -> bool
    requires gear { IsGear says.now.meta.setup.geometry gear }
    requires stripe { at < stripe_count says.now.meta.setup.geometry.disks
        says.now.meta.setup.geometry.rows gear }
    ensures { IsTrue result ↔ IsFilled (view_at image.now says.now) gear at }
{
    are_copied(image, says, gear, at)
        && are_pads_zero(image, says, gear, at)
        && is_stripe_zero(image, says, gear, at)
}

fn are_copied(image: &Image, says: &Statement, gear: u8, at: u32) -> bool
    requires gear { IsGear says.now.meta.setup.geometry gear }
    requires stripe { at < stripe_count says.now.meta.setup.geometry.disks
        says.now.meta.setup.geometry.rows gear }
    ensures { IsTrue result ↔ ((r : ℕ) → r < says.now.meta.setup.geometry.rows
        → AreCopied (view_at image.now says.now) gear at r) }
{
    for row in 0..says.meta.setup.geometry.rows {
        if !are_copied_of(image, says, gear, at, row) {
            return false;
        }
    }
    true
}

/// Whether the stripe stores the values of its cells of one row.
fn are_copied_of(image: &Image, says: &Statement, gear: u8, at: u32, row: Row) -> bool
    requires gear { IsGear says.now.meta.setup.geometry gear }
    requires stripe { at < stripe_count says.now.meta.setup.geometry.disks
        says.now.meta.setup.geometry.rows gear }
    requires row { row < says.now.meta.setup.geometry.rows }
    ensures { IsTrue result ↔ AreCopied (view_at image.now says.now) gear at row }
{
    for disk in gear..says.meta.setup.geometry.disks {
        if !is_copied(image, says, gear, at, row, disk) {
            return false;
        }
    }
    true
}

fn is_copied(image: &Image, says: &Statement, gear: u8, at: u32, row: Row, disk: DiskNo) -> bool
    requires gear { IsGear says.now.meta.setup.geometry gear }
    requires stripe { at < stripe_count says.now.meta.setup.geometry.disks
        says.now.meta.setup.geometry.rows gear }
    requires row { row < says.now.meta.setup.geometry.rows }
    requires parked { gear ≤ disk }
    requires disk { disk < says.now.meta.setup.geometry.disks }
    ensures { IsTrue result ↔ IsCopied (view_at image.now says.now) gear at row disk }
{
    let (stripe, copy) = soft_of(&says.meta.setup.geometry, gear, row, disk);
    if stripe != at {
        return true;
    }
    is_same_block(
        &stripe_block(image, says, gear, at, copy),
        &cell_value(image, says, row, disk),
    )
}

fn are_pads_zero(image: &Image, says: &Statement, gear: u8, at: u32) -> bool
    requires gear { IsGear says.now.meta.setup.geometry gear }
    requires stripe { at < stripe_count says.now.meta.setup.geometry.disks
        says.now.meta.setup.geometry.rows gear }
    ensures { IsTrue result ↔ ArePadsZero (view_at image.now says.now) gear at }
{
    for index in 0..gear - 1 {
        if !is_pad_zero(image, says, gear, at, index) {
            return false;
        }
    }
    true
}

fn is_pad_zero(image: &Image, says: &Statement, gear: u8, at: u32, index: u8) -> bool
    requires gear { IsGear says.now.meta.setup.geometry gear }
    requires stripe { at < stripe_count says.now.meta.setup.geometry.disks
        says.now.meta.setup.geometry.rows gear }
    requires index { index < gear - 1 }
    ensures { IsTrue result ↔ IsPadZero (view_at image.now says.now) gear at index }
{
    let geometry = &says.meta.setup.geometry;
    let cells = geometry.rows * (geometry.disks - gear) as u32;
    if at * (gear as u32 - 1) + (index as u32) < cells {
        return true;
    }
    let parity = soft_parity(geometry, gear, at);
    let disk = if index < parity { index } else { index + 1 };
    is_zero(&stripe_block(image, says, gear, at, disk))
}
