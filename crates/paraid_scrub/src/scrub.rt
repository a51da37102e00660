//! The members of one kind, in ascending order.
ghost use Rattle.std.specs.Prelude.{◌≡◌, ◌<◌, ◌≤◌, ◌↔◌, false, IfOk, IfErr, IsTrue, if◌then◌else◌};
ghost use Rattle.paraid_record.specs.Range.{IsInRange};
ghost use Rattle.paraid_image.specs.Out.{named_out};
ghost use Rattle.paraid_image.specs.Spot.{View};
ghost use Rattle.paraid_scrub.specs.Counts.{IsOff, is_whole_below, total, when_whole};
ghost use Rattle.paraid_scrub.specs.Looks.{KeepsView, PartCount};
ghost use Rattle.paraid_scrub.specs.declared.ending.Ending.TheVariants.{Lost as HasLost, Two as LostTwo};

use crate::ending::Ending;
use crate::fill::is_fill_off;
use crate::kind::Kind;
use crate::member::{is_map_off, is_row_off, is_stripe_off};
use crate::stored::Stored;
use crate::unit::is_unit_off;
use paraid_base::{DiskNo, Out, Two};
use paraid_record::Meta;

/// How many of a part are false, and whether all of it was looked at.
#[derive(Clone, Copy)]
pub(crate) struct Part {
    pub(crate) found: u32,
    pub(crate) whole: bool,
}

fn one_if(off: bool) -> u32
    ensures { result ≡ (if off then 1 else 0) }
{
    if off { 1 } else { 0 }
}

// All of them while no disk is out.
fn while_whole(out: Option<DiskNo>, count: u32) -> u32
    ensures { result ≡ when_whole out count }
{
    match out {
        None => count,
        Some(_) => 0,
    }
}

// All of them while no disk below this one is out.
fn while_whole_below(out: Option<DiskNo>, end: u8, count: u32) -> u32
    ensures { result ≡ (if is_whole_below out end then count else 0) }
{
    let Some(disk) = out else {
        return count;
    };
    if disk < end {
        return 0;
    }
    count
}

// How many members of a kind there are.
fn members(meta: &Meta, kind: Kind) -> u32
    requires in_range { IsInRange meta.now }
    ensures { result ≡ total meta.now (named_out meta.now.out) kind }
{
    let out = meta.out.named();
    match kind {
        Kind::Row => while_whole(out, meta.setup.geometry.rows()),
        Kind::Stripe => while_whole_below(out, meta.gear, meta.setup.geometry.stripes(meta.gear)),
        Kind::Fill => while_whole(out, meta.fill),
        Kind::Unit => meta.out.rebuilt(),
        Kind::Mirror => while_whole_below(out, 2, meta.setup.geometry.map_blocks()),
    }
}

// Whether a rebuilt unit is false, by whichever disk is rebuilt.
fn is_rebuilt_off<C: Stored>(core: &mut C, at: u32) -> Result<bool, Ending>
    requires usable { C.usable core.old }
    requires at { at < total (C.meta core.old) (named_out (C.meta core.old).out) Kind.Unit }
    ensures shown { IfOk result (λ off. KeepsView C.meta C.usable
        C.tells C.shows C.leads core.old core.new (λ v. IsTrue off ↔ IsOff v Kind.Unit at)) }
    ensures lost { IfErr result (C.loses core.old core.new) }
{
    match core.meta().out {
        Out::Fresh { disk, .. } => { is_unit_off(core, disk, at) }
        Out::No => Ok(false),
        Out::Gone { .. } => Ok(false),
    }
}

// Whether a member of a kind is false.
fn is_off<C: Stored>(core: &mut C, kind: Kind, at: u32) -> Result<bool, Ending>
    requires usable { C.usable core.old }
    requires at { at < total (C.meta core.old) (named_out (C.meta core.old).out) kind }
    ensures shown { IfOk result (λ off. KeepsView C.meta
        C.usable C.tells C.shows C.leads core.old core.new (λ v. IsTrue off ↔ IsOff v kind at)) }
    ensures lost { IfErr result (C.loses core.old core.new) }
{
    let meta = core.meta();
    match kind {
        Kind::Row => { is_row_off(core, at) }
        Kind::Stripe => { is_stripe_off(core, meta.gear, at) }
        Kind::Fill => { is_fill_off(core, meta.phase.to(), at) }
        Kind::Unit => { is_rebuilt_off(core, at) }
        Kind::Mirror => { is_map_off(core, 0, at) }
    }
}

/// Counts the members of a kind that are false. A disk that is lost inside ends it.
pub(crate) fn count<C: Stored>(core: &mut C, kind: Kind) -> Result<Part, Two>
    requires usable { C.usable core.old }
    ensures kept { IfOk result (λ part. IsTrue part.whole → KeepsView
        C.meta C.usable C.tells C.shows C.leads core.old core.new (λ v. C.shows core.new v)) }
    ensures ended { IfOk result (λ part. part.whole ≡ false → C.loses core.old core.new HasLost) }
    ensures two { IfErr result (λ two. C.loses core.old core.new (LostTwo two)) }
    ensures counts { IfOk result (λ part. (v : View) → C.shows core.old v → C.tells core.new
        → PartCount v kind (total v.meta v.out kind) part.found part.whole) }
    ensures most { IfOk result (λ part.
        part.found ≤ total (C.meta core.old) (named_out (C.meta core.old).out) kind) }
{
    let size = members(&core.meta(), kind);
    let mut found = 0;
    for at in 0..size {
        let off = match is_off(core, kind, at) {
            Ok(off) => off,
            Err(Ending::Lost) => {
                return Ok(Part {
                    found,
                    whole: false,
                });
            }
            Err(Ending::Two(two)) => return Err(two),
        };
        found += one_if(off);
    }
    Ok(Part { found, whole: true })
}
