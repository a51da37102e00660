//! Whether an image holds a history.
ghost use Rattle.std.specs.Prelude.{◌↔◌, length, map, IsTrue};
ghost use Rattle.paraid_base.specs.Pairs.{pairs_of};
ghost use Rattle.paraid_image.specs.Sound.{AreWitnessesTrue, ContentOk, IsWellKept, IsSoundAt};
ghost use Rattle.paraid_plain.specs.Images.{disks_in};
ghost use Rattle.paraid_plain.specs.Views.{out_at, view_at};

use crate::clean::are_clean_stored;
use crate::disks::are_disks;
use crate::filled::are_filled;
use crate::history::are_blocks_held;
use crate::image::Image;
use crate::log::is_log_ok;
use crate::map::is_map;
use crate::rebuilt::is_fresh_rebuilt;
use crate::rows::are_rows_zero;
use crate::standing::standing_of;
use crate::statement::Statement;
use crate::stripes::are_stripes_zero;
use crate::witness::are_witnesses_true;
use paraid_base::Pairs;

/// Whether an image holds the first `writes` writes of a history.
pub fn is_sound(image: &Image, history: &[Pairs], writes: u64) -> bool
    ensures { IsTrue result ↔ IsSoundAt (length image.now.slots.items) (disks_in image.now)
        (map pairs_of history.now) writes }
{
    match standing_of(image) {
        None => false,
        Some(says) => {
            is_log_ok(image, &says, writes) && is_rest_ok(image, &says, history, writes)
        }
    }
}

/// What is asked besides the log: that the witnesses are true, and the content.
fn is_rest_ok(image: &Image, says: &Statement, history: &[Pairs], writes: u64) -> bool
    ensures { IsTrue result ↔ (AreWitnessesTrue (disks_in image.now) (out_at image.now says.now)
        × ContentOk (length image.now.slots.items) (disks_in image.now).power
        (disks_in image.now).size (view_at image.now says.now) (map pairs_of history.now) writes) }
{
    are_witnesses_true(image, says) && is_content_ok(image, says, history, writes)
}

/// What is asked of the blocks past the log and of the disks.
fn is_content_ok(image: &Image, says: &Statement, history: &[Pairs], writes: u64) -> bool
    ensures { IsTrue result ↔ ContentOk (length image.now.slots.items) (disks_in image.now).power
        (disks_in image.now).size (view_at image.now says.now) (map pairs_of history.now) writes }
{
    is_well_kept(image, says) && are_blocks_held(image, says, history, writes)
}

/// The same, whatever history they hold.
fn is_well_kept(image: &Image, says: &Statement) -> bool
    ensures { IsTrue result ↔ IsWellKept (length image.now.slots.items) (disks_in image.now).power
        (disks_in image.now).size (view_at image.now says.now) }
{
    if !are_rows_zero(image, says) || !are_stripes_zero(image, says) {
        return false;
    }
    if !are_filled(image, says) || !are_clean_stored(image, says) {
        return false;
    }
    if !is_fresh_rebuilt(image, says) || !is_map(image, says) {
        return false;
    }
    are_disks(image, says)
}
