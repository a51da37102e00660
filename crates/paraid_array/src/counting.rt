//! A commit of all that is staged, and a count of what is false after it.
ghost use Rattle.std.specs.Prelude.{◌≡◌, ◌≢◌, ℕ, true, length, Some, OnOk, IfOk, IsSome};
ghost use Rattle.paraid_base.specs.History.{History};
ghost use Rattle.paraid_core.specs.Calls.{CommitsWhole, MakesTransferCalls};
ghost use Rattle.paraid_core.specs.Cores.{CoreStandsFor, IsCoreHeld, copied_of, core_rack, meta_of};
ghost use Rattle.paraid_core.specs.Lost.{CoreTellsLosses};
ghost use Rattle.paraid_image.specs.Out.{named_out};
ghost use Rattle.paraid_rack.specs.Told.{CrashTriple, Ran};
ghost use Rattle.paraid_rack.specs.Trail.{Trail, now};
ghost use Rattle.paraid_scrub.specs.Counts.{no_faults};
ghost use Rattle.paraid_shift.specs.Parts.{KeepsRack};
ghost use Rattle.paraid_array.specs.Checked.{CanBeCounted, CountsCommitted, LeavesCounted};

use paraid_base::{Out, Two};
use paraid_core::Core;
use paraid_rack::Rack;
use paraid_scrub::{CheckReport, check};

// Nothing was counted.
fn nothing_counted() -> CheckReport
    ensures { result ≡ no_faults }
{
    CheckReport {
        rows: 0,
        stripes: 0,
        fill: 0,
        units: 0,
        mirrors: 0,
    }
}

// Whether another disk is out, or one is out otherwise.
fn is_another_out(out: Out, before: Out) -> bool
    ensures { result ≡ true → out ≢ before }
{
    out != before
}

/// Commits all that is staged, and counts what is false then. Where a disk is lost in the commit
/// nothing is counted.
pub(crate) fn commit_and_count<R: Rack>(core: &mut Core<R>) -> Result<CheckReport, Two>
    requires can { CanBeCounted core.old }
    ensures copied { copied_of core.new ≡ copied_of core.old }
    ensures leaves { OnOk result (LeavesCounted core.old core.new) }
    ensures rack { KeepsRack core.old core.new
        (CoreTellsLosses R.told (named_out (meta_of core.old).out) core.old core.new) result }
    ensures calls { MakesTransferCalls R.told core.old core.new }
    ensures whole { CommitsWhole R.slot_count R.told core.old core.new }
    // Each stop leaves what it left before or all writes, and at the end all writes.
    ensures moments { (h : History) (lo : ℕ) → Ran (R.told (core_rack core.old))
        (R.told (core_rack core.new)) (CrashTriple (IsCoreHeld R.slot_count core.old h lo)
        (CoreStandsFor R.slot_count core.old h lo) (IsCoreHeld R.slot_count core.old h lo)) }
    ensures stands { OnOk result ((h : History) (lo : ℕ)
        → Ran (R.told (core_rack core.old)) (R.told (core_rack core.new)) (CrashTriple
        (IsCoreHeld R.slot_count core.old h lo) (CoreStandsFor R.slot_count core.old h lo)
        (CoreStandsFor R.slot_count core.new h (length h)))) }
    // A core that stands for a history has nothing false.
    ensures sound { IfOk result (λ report. (h : History) (lo : ℕ) (t : Trail)
        → R.told (core_rack core.old) ≡ Some t → CoreStandsFor R.slot_count core.old h lo (now t)
        → IsSome (R.told (core_rack core.new)) → report ≡ no_faults) }
    // Whatever the disks held, what is counted is what they hold after the commit.
    ensures counts { IfOk result (CountsCommitted R.slot R.told core.old core.new) }
{
    let out = core.out();
    core.commit()?;
    if is_another_out(core.out(), out) {
        return Ok(nothing_counted());
    }
    let checked = check(core)?;
    Ok(checked.report)
}
