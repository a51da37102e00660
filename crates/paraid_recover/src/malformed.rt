//! What of both sides refuses a mount, before the meta that stands is looked at.
ghost use Rattle.std.specs.Prelude.{◌≡◌, ◌≢◌, ◌↔◌, ◌<◌, ℕ, Some, None, IsTrue};
ghost use Rattle.paraid_recover.specs.Faults.{IsFaulty, IsSilent, side_at};

use crate::hearing::Heard;
use crate::sides::Sides;
use paraid_base::DiskNo;

// Whether a side is not well formed, under such a gate.
fn is_faulty(side: Option<Heard>, gate: bool) -> bool
    ensures { IsTrue result ↔ IsFaulty gate side }
{
    match side {
        Some(Heard::Bad { gate_open }) => gate_open == gate,
        Some(Heard::Blank) => !gate,
        _ => false,
    }
}

/// The lower log disk whose side is not well formed under such a gate and that is not out; a
/// blank side counts under a closed gate.
pub fn first_faulty(sides: &Sides, gate: bool, out: Option<DiskNo>) -> Option<DiskNo>
    ensures some { (d : ℕ) → result ≡ Some d
        → (d < 2) × IsFaulty gate (side_at sides.now d) × (out ≢ Some d) }
    ensures least { (d e : ℕ) → result ≡ Some d → e < d
        → IsFaulty gate (side_at sides.now e) → out ≡ Some e }
    ensures none { (d : ℕ) → result ≡ None → d < 2 → IsFaulty gate (side_at sides.now d)
        → out ≡ Some d }
{
    if is_faulty(sides.first, gate) && out != Some(0) {
        return Some(0);
    }
    if is_faulty(sides.second, gate) && out != Some(1) {
        return Some(1);
    }
    None
}

// Whether a log disk is absent or blank.
fn is_silent(side: Option<Heard>) -> bool
    ensures { IsTrue result ↔ IsSilent side }
{
    match side {
        None => true,
        Some(Heard::Blank) => true,
        _ => false,
    }
}

/// Whether each log disk is absent or blank.
pub fn is_unformatted(sides: &Sides) -> bool
    ensures { IsTrue result ↔ (IsSilent sides.now.first × IsSilent sides.now.second) }
{
    is_silent(sides.first) && is_silent(sides.second)
}
