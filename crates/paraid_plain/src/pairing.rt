//! Whether what two log disks say fits together: it is the same, or one is a step ahead.
ghost use Rattle.std.specs.Prelude.{◌≡◌, ◌<◌, ◌↔◌, Some, true, false, IsTrue};
ghost use Rattle.paraid_base.specs.Log.{batch_room};
ghost use Rattle.paraid_image.specs.Sound.{IsAhead, IsBatchInPlace, Pairing};
ghost use Rattle.paraid_plain.specs.LogParts.{AreOutAlike, IsSameTarget};
ghost use Rattle.paraid_plain.specs.Statements.{batch_in, said_of};

use crate::image::Image;
use crate::same::{is_same_block, is_same_meta, is_same_setup};
use crate::statement::Statement;
use paraid_base::{FIRST_BODY, Out, Place};

pub(crate) fn is_pairing(image: &Image, a: &Statement, b: &Statement) -> bool
    ensures { IsTrue result ↔ Pairing (said_of image.now a.now) (said_of image.now b.now) }
{
    if is_alike(image, a, b) || is_ahead(image, a, b) || is_ahead(image, b, a) {
        return true;
    }
    is_done(image, a, b) || is_done(image, b, a)
}

fn is_alike(image: &Image, a: &Statement, b: &Statement) -> bool
    ensures { IsTrue result ↔ (said_of image.now a.now ≡ said_of image.now b.now) }
{
    a.opened == b.opened && is_same_meta(&a.meta, &b.meta) && is_same_batch(image, a, b)
}

fn is_same_batch(image: &Image, a: &Statement, b: &Statement) -> bool
    ensures { IsTrue result ↔ (batch_in image.now a.now ≡ batch_in image.now b.now) }
{
    if a.targets.count != b.targets.count {
        return false;
    }
    for at in 0..a.targets.count {
        if !is_same_target(image, a, b, at) {
            return false;
        }
    }
    true
}

fn is_same_target(image: &Image, a: &Statement, b: &Statement, at: u8) -> bool
    requires { at < batch_room }
    ensures { IsTrue result ↔ IsSameTarget image.now a.now b.now at }
{
    if a.targets.list[at as usize] != b.targets.list[at as usize] {
        return false;
    }
    let place = FIRST_BODY + at as Place;
    is_same_block(&image.stored(a.disk, place), &image.stored(b.disk, place))
}

/// Whether `a` is open over a batch on its way, and `b` closed over the commit before it.
fn is_ahead(image: &Image, a: &Statement, b: &Statement) -> bool
    ensures { IsTrue result ↔ IsAhead (said_of image.now a.now) (said_of image.now b.now) }
{
    if !a.opened || b.opened {
        return false;
    }
    a.meta.epoch - 1 == b.meta.epoch
        && is_same_setup(&a.meta.setup, &b.meta.setup)
        && are_out_alike(a.meta.out, b.meta.out)
}

/// Where both name a disk out, it is the same one.
fn are_out_alike(a: Out, b: Out) -> bool
    ensures { IsTrue result ↔ AreOutAlike a b }
{
    match a.named() {
        None => true,
        Some(first) => match b.named() {
            None => true,
            Some(second) => first == second,
        },
    }
}

/// Whether `a` is open over a batch that was laid in place, and `b` closed over its meta.
fn is_done(image: &Image, a: &Statement, b: &Statement) -> bool
    ensures { IsTrue result ↔ IsBatchInPlace (said_of image.now a.now) (said_of image.now b.now) }
{
    a.opened && !b.opened && is_same_meta(&a.meta, &b.meta)
}
