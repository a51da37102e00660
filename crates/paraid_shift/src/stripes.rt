//! Stripes of the region of the new gear are copied past the log, made to last and marked.
ghost use Rattle.std.specs.Prelude.{◌≡◌, ◌≢◌, ℕ, true, false, Ok, IfOk};
ghost use Rattle.paraid_base.specs.declared.state.Out.TheVariants.{No};
ghost use Rattle.paraid_base.specs.History.{History};
ghost use Rattle.paraid_core.specs.Cores.{IsCoreHeldSinceCommit, core_rack, meta_of};
ghost use Rattle.paraid_core.specs.Fills.{Filled};
ghost use Rattle.paraid_core.specs.Lost.{CoreTellsLosses};
ghost use Rattle.paraid_image.specs.Out.{named_out};
ghost use Rattle.paraid_rack.specs.Told.{CrashTriple, Ran};
ghost use Rattle.paraid_shift.specs.Outcomes.{MarksStripes};
ghost use Rattle.paraid_shift.specs.Parts.{AreStripesToFill, CanMoveUnits, CopiesUnits, SparesRack};
ghost use Rattle.paraid_event.specs.CoreServing.{RestsInShift};
ghost use Rattle.paraid_shift.specs.Steps.{CoreLosesInSteps};

use paraid_base::Two;
use paraid_core::Core;
use paraid_rack::Rack;

// Copies the stripes from the fill mark to `end - 1`. False where a disk was lost.
fn fill_stripes<R: Rack>(core: &mut Core<R>, end: u32) -> Result<bool, Two>
    requires can { CanMoveUnits core.old }
    requires stripes { AreStripesToFill (meta_of core.old) end }
    ensures copies { CopiesUnits core.old core.new result }
    ensures rack { SparesRack core.old core.new
        (CoreTellsLosses R.told (named_out (meta_of core.old).out) core.old core.new) result }
    ensures same { result ≡ Ok true → meta_of core.new ≡ meta_of core.old }
    ensures gone { result ≡ Ok false → (meta_of core.new).out ≢ No }
    ensures filled { result ≡ Ok true
        → (h : History) (lo : ℕ) → Ran (R.told (core_rack core.old)) (R.told (core_rack core.new))
        (CrashTriple (IsCoreHeldSinceCommit R.slot_count core.old h lo)
        (RestsInShift R.slot_count core.old h lo) (Filled R.slot_count core.new h lo end)) }
{
    let from = core.meta().fill;
    for s in from..end {
        let done = core.fill_stripe(s)?;
        if !done {
            return Ok(false);
        }
    }
    Ok(true)
}

/// Copies the stripes from the fill mark to `end - 1`, makes them last and marks them; the marks
/// are staged. False where a disk was lost: then none is marked.
pub(crate) fn move_stripes<R: Rack>(core: &mut Core<R>, end: u32) -> Result<bool, Two>
    requires can { CanMoveUnits core.old }
    requires stripes { AreStripesToFill (meta_of core.old) end }
    ensures marks { IfOk result (λ done.
        MarksStripes R.slot_count R.slot R.told core.old core.new end done) }
    ensures rack { SparesRack core.old core.new
        (CoreLosesInSteps R.slot_count R.told core.old core.new 1) result }
{
    let done = fill_stripes(core, end)?;
    core.settle()?;
    if !done {
        return Ok(false);
    }
    if core.out().is_any() {
        return Ok(false);
    }
    core.mark_filled(end);
    Ok(true)
}
