//! What the meta says of a place.
ghost use Rattle.std.specs.Prelude.{◌≡◌, ◌<◌};
ghost use Rattle.paraid_plan.specs.WriteTargets.{is_written as written_in, is_filled as filled_in};
ghost use Rattle.paraid_record.specs.Range.{IsInRange};

use paraid_base::{DiskNo, Out, Row};
use paraid_layout::soft_of;
use paraid_record::Meta;

/// Whether a place of this unit is written.
pub fn is_written(out: Out, disk: DiskNo, unit: u32) -> bool
    ensures { result ≡ written_in out disk unit }
{
    match out {
        Out::No => true,
        Out::Gone { disk: gone } => disk != gone,
        Out::Fresh {
            disk: fresh,
            rebuilt,
        } => disk != fresh || unit < rebuilt,
    }
}

/// Whether a cell has its copy in a stripe that a shift has filled already.
pub fn is_filled(m: &Meta, r: Row, d: DiskNo) -> bool
    requires in_range { IsInRange m.now }
    requires row { r < m.now.setup.geometry.rows }
    requires disk { d < m.now.setup.geometry.disks }
    ensures { result ≡ filled_in m.now r d }
{
    if m.fill == 0 {
        return false;
    }
    let to = m.phase.to();
    if d < to {
        return false;
    }
    let (s, _copy) = soft_of(&m.setup.geometry, to, r, d);
    s < m.fill
}
