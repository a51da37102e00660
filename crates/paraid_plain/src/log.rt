//! What is asked of the log disks and of the powers of the targets.
ghost use Rattle.std.specs.Prelude.{◌≡◌, ◌≢◌, ◌<◌, ◌↔◌, Some, true, All, IsTrue};
ghost use Rattle.paraid_rack.specs.Disks.{is_present};
ghost use Rattle.paraid_image.specs.Out.{IsMissing, named_out};
ghost use Rattle.paraid_image.specs.Sides.{LogState, Says};
ghost use Rattle.paraid_image.specs.Sound.{LogOk, Pairing};
ghost use Rattle.paraid_image.specs.Standing.{Stands};
ghost use Rattle.paraid_plain.specs.Images.{disks_in};
ghost use Rattle.paraid_plain.specs.LogParts.{AreLogsFormed, ArePaired, AreTargetsSpinning, IsLogFormed, IsFreshShut, IsSingle, IsSingleWith, IsTargetSpinning};
ghost use Rattle.paraid_plain.specs.Statements.{said_of};
ghost use Rattle.paraid_plain.specs.Views.{out_at};

use crate::disks::is_spinning;
use crate::image::Image;
use crate::pairing::is_pairing;
use crate::side::{is_gate_open, statement_of};
use crate::statement::Statement;
use crate::view::is_out_disk;
use paraid_base::{DiskNo, Out};
use paraid_record::Target;

#[tactic(auto, unfolding(crate::specs::Views::out_at))]
pub(crate) fn is_log_ok(image: &Image, says: &Statement, writes: u64) -> bool
    requires { Stands (disks_in image.now) says.now.disk (said_of image.now says.now) }
    ensures { IsTrue result ↔ LogOk (disks_in image.now) says.now.disk
        (said_of image.now says.now) writes }
{
    if says.meta.writes != writes {
        return false;
    }
    if !is_single(image, says) || !is_standing_in(says) {
        return false;
    }
    if !is_fresh_shut(image, says) || !are_targets_spinning(image, says) {
        return false;
    }
    are_formed(image, says) && are_paired(image, says)
}

/// At most one disk of the array is missing.
fn is_single(image: &Image, says: &Statement) -> bool
    ensures { IsTrue result ↔ IsSingle (disks_in image.now).power says.now.meta }
{
    for disk in 0..says.meta.setup.geometry.disks {
        if !is_single_with(image, says, disk) {
            return false;
        }
    }
    true
}

/// Where a disk is missing, no other one is.
fn is_single_with(image: &Image, says: &Statement, disk: DiskNo) -> bool
    requires { disk < says.now.meta.setup.geometry.disks }
    ensures { IsTrue result ↔ IsSingleWith (disks_in image.now).power says.now.meta disk }
{
    if !is_missing(image, says, disk) {
        return true;
    }
    for other in 0..says.meta.setup.geometry.disks {
        if !is_alone_beside(image, says, disk, other) {
            return false;
        }
    }
    true
}

/// Another disk is not missing.
fn is_alone_beside(image: &Image, says: &Statement, disk: DiskNo, other: DiskNo) -> bool
    requires { other < says.now.meta.setup.geometry.disks }
    ensures { IsTrue result ↔ (IsMissing (disks_in image.now).power says.now.meta other
        → disk ≡ other) }
{
    disk == other || !is_missing(image, says, other)
}

fn is_missing(image: &Image, says: &Statement, disk: DiskNo) -> bool
    requires { disk < says.now.meta.setup.geometry.disks }
    ensures { IsTrue result ↔ IsMissing (disks_in image.now).power says.now.meta disk }
{
    !image.is_present(disk) || is_named_out(says, disk)
}

fn is_named_out(says: &Statement, disk: DiskNo) -> bool
    ensures { IsTrue result ↔ (named_out says.now.meta.out ≡ Some disk) }
{
    says.meta.out.named() == Some(disk)
}

fn is_standing_in(says: &Statement) -> bool
    ensures { IsTrue result ↔ (named_out says.now.meta.out ≢ Some says.now.disk) }
{
    !is_named_out(says, says.disk)
}

/// A log disk that is being rebuilt has its gate closed.
fn is_fresh_shut(image: &Image, says: &Statement) -> bool
    ensures { IsTrue result ↔ IsFreshShut (disks_in image.now) says.now.meta }
{
    match says.meta.out {
        Out::No => true,
        Out::Gone { .. } => true,
        Out::Fresh { disk, .. } => {
            !image.is_present(disk) || disk >= 2 || !is_gate_open(image, disk)
        }
    }
}

/// The disks of the targets spin, unless they are out.
fn are_targets_spinning(image: &Image, says: &Statement) -> bool
    ensures { IsTrue result ↔ AreTargetsSpinning (disks_in image.now).power
        (said_of image.now says.now) (out_at image.now says.now) }
{
    are_spinning_on(
        image,
        says,
        &says.targets.list[..says.targets.count as usize],
    )
}

fn are_spinning_on(image: &Image, says: &Statement, targets: &[Target]) -> bool
    ensures { IsTrue result ↔ All (IsTargetSpinning (disks_in image.now).power
        (out_at image.now says.now)) targets.now }
{
    for target in targets {
        if !is_spinning(image, says, target.disk) {
            return false;
        }
    }
    true
}

/// Each log disk that is there and not out is well formed.
fn are_formed(image: &Image, says: &Statement) -> bool
    ensures { IsTrue result ↔ AreLogsFormed (disks_in image.now) (out_at image.now says.now) }
{
    is_formed(image, says, 0) && is_formed(image, says, 1)
}

fn is_formed(image: &Image, says: &Statement, disk: DiskNo) -> bool
    requires { disk < 2 }
    ensures { IsTrue result ↔ IsLogFormed (disks_in image.now) (out_at image.now says.now) disk }
{
    if !image.is_present(disk) || is_out_disk(image, says, disk) {
        return true;
    }
    match statement_of(image, disk) {
        None => false,
        Some(_) => true,
    }
}

/// What the two log disks say fits together, if neither is out.
fn are_paired(image: &Image, says: &Statement) -> bool
    ensures { IsTrue result ↔ ArePaired (disks_in image.now) (out_at image.now says.now) }
{
    if is_out_disk(image, says, 0) || is_out_disk(image, says, 1) {
        return true;
    }
    match statement_of(image, 0) {
        None => true,
        Some(first) => is_paired_with(image, &first),
    }
}

fn is_paired_with(image: &Image, first: &Statement) -> bool
    ensures { IsTrue result ↔ ((b : LogState) → Says (disks_in image.now) 1 b
        → Pairing (said_of image.now first.now) b) }
{
    match statement_of(image, 1) {
        None => true,
        Some(second) => is_pairing(image, first, &second),
    }
}
