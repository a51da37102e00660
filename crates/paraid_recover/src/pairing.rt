//! Whether what both log disks say fits together: it is the same, or one is a step ahead.
ghost use Rattle.std.specs.Prelude.{◌≡◌, ◌≢◌, ℕ, Bool, true, false, Some};
ghost use Rattle.paraid_image.specs.Out.{named_out};
ghost use Rattle.paraid_image.specs.Sides.{Batch as BatchValue, log_state};
ghost use Rattle.paraid_image.specs.Sound.{IsAhead, Pairing};
ghost use Rattle.paraid_record.specs.Range.{IsInRange, IsSetupInRange};

use crate::alike::{is_same_batch, is_same_meta};
use crate::making::first_meta;
use crate::standing::Standing;
use paraid_base::Out;
use paraid_record::{Meta, Setup};
use paraid_txn::Batch;

// Whether two arrays are configured alike: a new array of each has the same meta.
fn have_same_setup(a: &Setup, b: &Setup) -> bool
    requires first { IsSetupInRange a.now }
    requires second { IsSetupInRange b.now }
    ensures yes { result ≡ true → a.now ≡ b.now }
    ensures no { result ≡ false → a.now ≢ b.now }
{
    is_same_meta(&first_meta(a), &first_meta(b))
}

// Whether it is the same disk, where both name one out.
fn name_no_two_out(a: Out, b: Out) -> bool
    ensures yes { (d e : ℕ) → result ≡ true → named_out a ≡ Some d → named_out b ≡ Some e → d ≡ e }
    ensures no { result ≡ false
        → ((d e : ℕ) → named_out a ≡ Some d → named_out b ≡ Some e → d ≡ e) → ⊥ }
{
    let Some(first) = a.named() else {
        return true;
    };
    let Some(second) = b.named() else {
        return true;
    };
    first == second
}

// Whether a meta is that of the commit after the other one.
fn is_next(next: &Meta, meta: &Meta) -> bool
    requires first { IsInRange next.now }
    requires second { IsInRange meta.now }
    ensures yes { result ≡ true → (a b : BatchValue)
        → IsAhead (log_state true next.now a) (log_state false meta.now b) }
    ensures no { result ≡ false → (a b : BatchValue)
        → IsAhead (log_state true next.now a) (log_state false meta.now b) → ⊥ }
{
    if next.epoch - 1 != meta.epoch {
        return false;
    }
    have_same_setup(&next.setup, &meta.setup) && name_no_two_out(next.out, meta.out)
}

// Whether a log under an open gate with this meta fits to one under a closed gate.
fn is_a_step_ahead(opened: &Meta, closed: &Meta) -> bool
    requires first { IsInRange opened.now }
    requires second { IsInRange closed.now }
    ensures yes { result ≡ true → (a b : BatchValue)
        → Pairing (log_state true opened.now a) (log_state false closed.now b) }
    ensures no { result ≡ false → (a b : BatchValue)
        → Pairing (log_state true opened.now a) (log_state false closed.now b) → ⊥ }
{
    is_same_meta(opened, closed) || is_next(opened, closed)
}

// Whether under the same gate this is the same.
fn say_the_same(a: &Meta, first: &Batch, b: &Meta, second: &Batch) -> bool
    requires a_range { IsInRange a.now }
    requires b_range { IsInRange b.now }
    ensures yes { result ≡ true
        → (gate : Bool) → log_state gate a.now first.now ≡ log_state gate b.now second.now }
    ensures no { result ≡ false
        → (gate : Bool) → log_state gate a.now first.now ≢ log_state gate b.now second.now }
{
    is_same_meta(a, b) && is_same_batch(first, second)
}

/// Whether what both log disks say fits together: it is the same; or one gate is open, over the
/// next commit or over the meta of the other one.
pub fn fit_together(a: &Standing, first: &Batch, b: &Standing, second: &Batch) -> bool
    requires a_range { IsInRange a.now.meta }
    requires b_range { IsInRange b.now.meta }
    ensures yes { result ≡ true → Pairing (log_state a.now.gate_open a.now.meta first.now)
        (log_state b.now.gate_open b.now.meta second.now) }
    ensures no { result ≡ false → Pairing (log_state a.now.gate_open a.now.meta first.now)
        (log_state b.now.gate_open b.now.meta second.now) → ⊥ }
{
    if a.gate_open {
        if b.gate_open {
            return say_the_same(&a.meta, first, &b.meta, second);
        }
        return is_a_step_ahead(&a.meta, &b.meta);
    }
    if b.gate_open {
        return is_a_step_ahead(&b.meta, &a.meta);
    }
    say_the_same(&a.meta, first, &b.meta, second)
}
