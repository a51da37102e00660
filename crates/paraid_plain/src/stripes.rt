//! Each stripe of the gear's region sums to zero as it is stored, unless one of its blocks is on
//! the out disk.
ghost use Rattle.std.specs.Prelude.{◌≡◌, ◌<◌, ◌↔◌, IsTrue};
ghost use Rattle.paraid_base.specs.Regions.{IsGear};
ghost use Rattle.paraid_base.specs.Soft.{stripe_count};
ghost use Rattle.paraid_base.specs.Sums.{xor_upto};
ghost use Rattle.paraid_image.specs.Sound.{AreStripesZero, IsOffStripes, IsStripeZero};
ghost use Rattle.paraid_image.specs.Value.{stripe};
ghost use Rattle.paraid_plain.specs.Views.{block_at, out_at, view_at};

use crate::image::Image;
use crate::statement::Statement;
use crate::value::stripe_block;
use crate::view::out_of;
use paraid_base::Block;
use paraid_parity::{is_zero, xor_into};

pub(crate) fn are_stripes_zero(image: &Image, says: &Statement) -> bool
    ensures { IsTrue result ↔ AreStripesZero (view_at image.now says.now) }
{
    if !is_off_stripes(image, says) {
        return true;
    }
    for at in 0..says.meta.setup.geometry.stripes(says.meta.gear) {
        if !is_stripe_zero(image, says, says.meta.gear, at) {
            return false;
        }
    }
    true
}

fn is_off_stripes(image: &Image, says: &Statement) -> bool
    ensures { IsTrue result ↔ IsOffStripes (out_at image.now says.now) says.now.meta.gear }
{
    match out_of(image, says) {
        None => true,
        Some(out) => says.meta.gear <= out,
    }
}

/// Whether a stripe of a region sums to zero.
pub(crate) fn is_stripe_zero(image: &Image, says: &Statement, gear: u8, at: u32) -> bool
    requires gear { IsGear says.now.meta.setup.geometry gear }
    requires stripe { at < stripe_count says.now.meta.setup.geometry.disks
        says.now.meta.setup.geometry.rows gear }
    ensures { IsTrue result ↔ IsStripeZero (view_at image.now says.now) gear at }
{
    is_zero(&stripe_sum(image, says, gear, at))
}

fn stripe_sum(image: &Image, says: &Statement, gear: u8, at: u32) -> Block
    requires gear { IsGear says.now.meta.setup.geometry gear }
    requires stripe { at < stripe_count says.now.meta.setup.geometry.disks
        says.now.meta.setup.geometry.rows gear }
    ensures { result ≡ xor_upto (stripe says.now.meta.setup.geometry (block_at image.now says.now)
        gear at) gear }
{
    let mut sum = Block::zero();
    for disk in 0..gear {
        xor_into(&mut sum, &stripe_block(image, says, gear, at, disk));
    }
    sum
}
