//! Which log disk stands, by what both say.
ghost use Rattle.std.specs.Prelude.{◌≡◌};
ghost use Rattle.paraid_recover.specs.HeardSides.{side_by};
ghost use Rattle.paraid_image.specs.Sides.{Batch};
ghost use Rattle.paraid_image.specs.Standing.{standing};

use crate::hearing::Heard;
use paraid_base::DiskNo;

/// The log disk that stands, where disk 0 says the first and disk 1 the second, and None is said
/// by one that is absent: the one of the greater epoch; on equal epochs one that is closed, then
/// disk 0.
pub fn choose(first: Option<Heard>, second: Option<Heard>) -> Option<DiskNo>
    ensures { (a b : Batch) → result ≡ standing (side_by first a) (side_by second b) }
{
    let Some(Heard::Formed { gate_open, meta }) = first else {
        return match second {
            Some(Heard::Formed { .. }) => Some(1),
            _ => None,
        };
    };
    let Some(
        Heard::Formed {
            gate_open: other_open,
            meta: other,
        },
    ) = second
    else {
        return Some(0);
    };
    let same = meta.epoch == other.epoch;
    if other.epoch < meta.epoch || (same && (!gate_open || other_open)) {
        Some(0)
    } else {
        Some(1)
    }
}
