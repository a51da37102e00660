//! Why a mount is refused by what the log disks said.
ghost use Rattle.std.specs.Prelude.{◌≡◌, MatchOption};
ghost use Rattle.paraid_recover.specs.Said.{AreSidesFormed, IsRefusedBySides, said_out as said_out_of, standing_out as standing_out_of};

use crate::mount_fault::MountFault;
use crate::{Heard, Sides, choose, first_faulty, is_unformatted};
use paraid_base::DiskNo;

// The disk that the meta of a side names out.
fn said_out(side: Option<Heard>) -> Option<DiskNo>
    ensures { result ≡ said_out_of side }
{
    let Some(Heard::Formed { meta, .. }) = side else {
        return None;
    };
    meta.out.named()
}

/// The disk that the meta which stands names out.
pub fn standing_out(sides: &Sides) -> Option<DiskNo>
    ensures { result ≡ standing_out_of sides.now }
{
    match choose(sides.first, sides.second) {
        None => None,
        Some(0) => said_out(sides.first),
        Some(_) => said_out(sides.second),
    }
}

/// Why a mount is refused by what the log disks said: none of them belongs to an array; or one that
/// the standing meta does not name out is not well formed, and an open gate is found before a
/// closed one. The least such log disk is named.
pub fn refusal_by_sides(sides: &Sides) -> Option<MountFault>
    ensures { MatchOption result (AreSidesFormed sides.now) (IsRefusedBySides sides.now) }
{
    if is_unformatted(sides) {
        return Some(MountFault::NotFormatted);
    }
    let out = standing_out(sides);
    if let Some(disk) = first_faulty(sides, true, out) {
        return Some(MountFault::BadLog { disk });
    }
    if let Some(disk) = first_faulty(sides, false, out) {
        return Some(MountFault::BadMeta { disk });
    }
    None
}
