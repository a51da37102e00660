//! Which log disk stands.
ghost use Rattle.std.specs.Prelude.{◌≡◌, ℕ, ◌<◌, IfSome, IfNone, IsSomeAnd};
ghost use Rattle.paraid_image.specs.Sides.{LogState};
ghost use Rattle.paraid_image.specs.Standing.{Stands, is_first as goes_first, stands_before as is_before};
ghost use Rattle.paraid_plain.specs.declared.image.Image.{Image as ImageType};
ghost use Rattle.paraid_plain.specs.Images.{disks_in};
ghost use Rattle.paraid_plain.specs.Statements.{said_of};

use crate::image::Image;
use crate::side::statement_of;
use crate::statement::Statement;
use paraid_base::DiskNo;

/// What the standing log disk says, if one stands.
pub fn standing_of(image: &Image) -> Option<Statement>
    ensures some { IfSome result (λ s. Stands (disks_in image.now) s.disk (said_of image.now s)) }
    ensures none { IfNone result ((x : ℕ) (said : LogState)
        → Stands (disks_in image.now) x said → ⊥) }
    ensures value { (x : ℕ) (said : LogState) → Stands (disks_in image.now) x said
        → IsSomeAnd result (λ s. (s.disk ≡ x) × (said_of image.now s ≡ said)) }
{
    match standing_at(image, 0) {
        Some(says) => Some(says),
        None => standing_at(image, 1),
    }
}

fn standing_at(image: &Image, disk: DiskNo) -> Option<Statement>
    requires { disk < 2 }
    ensures some { IfSome result (λ s. Stands (disks_in image.now) s.disk (said_of image.now s)) }
    ensures none { IfNone result ((said : LogState) → Stands (disks_in image.now) disk said → ⊥) }
{
    let mine = statement_of(image, disk)?;
    match statement_of(image, 1 - disk) {
        None => Some(mine),
        Some(other) => {
            if stands_before(&mine, &other) {
                Some(mine)
            } else {
                None
            }
        }
    }
}

/// Whether a log disk stands before the other one, by what both say.
fn stands_before(mine: &Statement, other: &Statement) -> bool
    ensures { (i : ImageType) → result
        ≡ is_before mine.now.disk (said_of i mine.now) (said_of i other.now) }
{
    if mine.disk == 0 {
        is_first(mine, other)
    } else {
        !is_first(other, mine)
    }
}

/// Whether disk 0 stands where the two log disks say this.
fn is_first(first: &Statement, second: &Statement) -> bool
    ensures { (i : ImageType) → result ≡ goes_first (said_of i first.now) (said_of i second.now) }
{
    first.meta.epoch > second.meta.epoch
        || (first.meta.epoch == second.meta.epoch && (!first.opened || second.opened))
}
