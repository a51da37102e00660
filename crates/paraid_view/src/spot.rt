//! Where the value of a cell lives: on its own place, or in its copy.
ghost use Rattle.std.specs.Prelude.{◌≡◌, ℕ, ◌<◌, ◌≤◌, Option, length, false};
ghost use Rattle.paraid_record.specs.Range.{IsInRange};
ghost use Rattle.paraid_image.specs.Spot.{is_hard as hard_in};
ghost use Rattle.paraid_image.specs.Standing.{Contents};
ghost use Rattle.paraid_view.specs.Reads.{seen_by};

use paraid_base::{DiskNo, Row};
use paraid_dirty::DirtyTable;
use paraid_record::Meta;

// Whether the value of a cell lives on its hard place.
#[tactic(auto, unfolding(paraid_image::specs::Spot::is_hard))]
pub(crate) fn is_hard(meta: &Meta, dirty: &DirtyTable, r: Row, d: DiskNo) -> bool
    requires in_range { IsInRange meta.now }
    requires row { r < meta.now.setup.geometry.rows }
    requires disk { d < meta.now.setup.geometry.disks }
    requires rows { length dirty.now ≡ meta.now.setup.geometry.rows }
    ensures value { (out : Option ℕ) (f : Contents)
        → result ≡ hard_in (seen_by meta.now dirty.now out f) r d }
    ensures parked { result ≡ false → meta.now.gear ≤ d }
{
    d < meta.gear || (d < meta.phase.rising_to() && !dirty.has(r, d))
}
