//! Two disks that are missing.
ghost use Rattle.std.specs.Prelude.{◌≡◌, ◌<◌, ◌≤◌, ℕ, false, true, Some, None, MatchOption};
ghost use Rattle.paraid_recover.specs.Refusals.{AreMissing, is_lacking as is_lacking_of};
ghost use Rattle.paraid_image.specs.Out.{IsDouble};

use paraid_base::{DiskNo, Two};
use paraid_rack::{Power, Rack};
use paraid_record::Meta;

// Whether a slot is absent and not named out.
#[tactic(auto, unfolding(crate::specs::Refusals::is_lacking))]
fn is_lacking<R: Rack>(rack: &R, meta: &Meta, disk: DiskNo) -> bool
    requires { disk < R.slot_count rack.now }
    ensures { result ≡ is_lacking_of (R.slot rack.now) meta.now disk }
{
    match rack.power(disk) {
        Power::Absent => !meta.out.names(disk),
        _ => false,
    }
}

// The least lacking disk of the array from one on.
fn lacking_from<R: Rack>(rack: &R, meta: &Meta, from: DiskNo) -> Option<DiskNo>
    requires { meta.now.setup.geometry.disks ≤ R.slot_count rack.now }
    ensures { MatchOption result
        ((d : ℕ) → from ≤ d → d < meta.now.setup.geometry.disks
        → is_lacking_of (R.slot rack.now) meta.now d ≡ false)
        (λ d. (from ≤ d) × (d < meta.now.setup.geometry.disks)
        × (is_lacking_of (R.slot rack.now) meta.now d ≡ true)
        × ((e : ℕ) → from ≤ e → e < d → is_lacking_of (R.slot rack.now) meta.now e ≡ false)) }
{
    for disk in from..meta.setup.geometry.disks() {
        if is_lacking(rack, meta, disk) {
            return Some(disk);
        }
    }
    None
}

/// Two disks of the array that are missing, each absent or named out. The first is the one named
/// out, or else the least; the second is the least other absent one.
pub fn two_missing<R: Rack>(rack: &R, meta: &Meta) -> Option<Two>
    requires { meta.now.setup.geometry.disks ≤ R.slot_count rack.now }
    ensures some { (two : _) → result ≡ Some two → AreMissing (R.slot rack.now) meta.now two }
    ensures none { result ≡ None → IsDouble (λ d. (R.slot rack.now d).power) meta.now → ⊥ }
{
    let least = lacking_from(rack, meta, 0)?;
    if let Some(out) = meta.out.named() {
        return Some(Two {
            first: out,
            second: least,
        });
    }
    let other = lacking_from(rack, meta, least + 1)?;
    Some(Two {
        first: least,
        second: other,
    })
}
