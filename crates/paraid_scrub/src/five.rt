//! The five counts, in their order.
ghost use Rattle.std.specs.Prelude.{◌≡◌, ℕ, false, IfOk, IfErr, IsTrue};
ghost use Rattle.paraid_image.specs.Spot.{View};
ghost use Rattle.paraid_scrub.specs.Counts.{AreCounts, AreWithinMembers, all_members};
ghost use Rattle.paraid_scrub.specs.Looks.{KeepsView};
ghost use Rattle.paraid_scrub.specs.declared.ending.Ending.TheVariants.{Lost as HasLost, Two as LostTwo};

use crate::kind::{CheckReport, Kind};
use crate::scrub::count;
use crate::stored::Stored;
use paraid_base::Two;

/// The counts, and whether all of them were made.
#[derive(Clone, Copy)]
pub struct Checked {
    pub report: CheckReport,
    pub whole: bool,
}

fn so_far(rows: u32, stripes: u32, fill: u32, units: u32, mirrors: u32, whole: bool) -> Checked
    ensures rows { result.report.rows ≡ rows }
    ensures stripes { result.report.stripes ≡ stripes }
    ensures fill { result.report.fill ≡ fill }
    ensures units { result.report.units ≡ units }
    ensures mirrors { result.report.mirrors ≡ mirrors }
    ensures whole { result.whole ≡ whole }
{
    Checked {
        report: CheckReport {
            rows,
            stripes,
            fill,
            units,
            mirrors,
        },
        whole,
    }
}

/// Makes the five counts in their order. A disk that is lost inside ends them, and they are then
/// those of a first part.
pub(crate) fn count_all<C: Stored>(core: &mut C) -> Result<Checked, Two>
    requires usable { C.usable core.old }
    ensures kept { IfOk result (λ checked. IsTrue checked.whole → KeepsView
        C.meta C.usable C.tells C.shows C.leads core.old core.new (λ v. C.shows core.new v)) }
    ensures ended { IfOk result (λ checked. checked.whole ≡ false
        → C.loses core.old core.new HasLost) }
    ensures two { IfErr result (λ two. C.loses core.old core.new (LostTwo two)) }
    ensures counts { IfOk result (λ checked. (v : View) → C.shows core.old v → C.tells core.new
        → (seen : ℕ) × AreCounts v seen checked.report
        × (IsTrue checked.whole → seen ≡ all_members v)) }
    // Over every rack no more is counted than there is.
    ensures most { IfOk result (λ checked. AreWithinMembers (C.meta core.old) checked.report) }
{
    let rows = count(core, Kind::Row)?;
    if !rows.whole {
        return Ok(so_far(rows.found, 0, 0, 0, 0, false));
    }
    let stripes = count(core, Kind::Stripe)?;
    if !stripes.whole {
        return Ok(so_far(rows.found, stripes.found, 0, 0, 0, false));
    }
    let fill = count(core, Kind::Fill)?;
    if !fill.whole {
        return Ok(so_far(rows.found, stripes.found, fill.found, 0, 0, false));
    }
    let units = count(core, Kind::Unit)?;
    if !units.whole {
        return Ok(so_far(rows.found, stripes.found, fill.found, units.found, 0, false));
    }
    let mirrors = count(core, Kind::Mirror)?;
    Ok(so_far(
        rows.found,
        stripes.found,
        fill.found,
        units.found,
        mirrors.found,
        mirrors.whole,
    ))
}
