//! What stands, where the log disks agree.
ghost use Rattle.std.specs.Prelude.{◌≡◌, ◌≢◌, ◌⊎◌, ◌<◌, Bool, true, false, Some, None, IfSome, IfOk, IfErr, MatchOption};
ghost use Rattle.paraid_image.specs.Sides.{Batch as BatchValue, log_state};
ghost use Rattle.paraid_image.specs.Standing.{other_log};
ghost use Rattle.paraid_recover.specs.Examined.{AreUnpaired, IsAgreed, IsRefusedByLogs, IsStanding, batch_at, logs_of, unpaired_fault as unpaired_fault_of};
ghost use Rattle.paraid_recover.specs.Said.{AreSidesFormed};
ghost use Rattle.paraid_record.specs.declared.meta.Meta.{Meta as MetaType};
ghost use Rattle.paraid_recover.specs.declared.hearing.Heard.TheVariants.{Formed};
ghost use Rattle.paraid_recover.specs.HeardSides.{IsInForm};

use crate::mount_fault::MountFault;
use crate::pairing::fit_together;
use crate::side_refusals::{refusal_by_sides, standing_out};
use crate::{Heard, Sides, choose};
use paraid_base::DiskNo;
use paraid_record::Meta;
use paraid_txn::Batch;
use std::mem::swap;

/// The log disk that stands, whether its gate is open, and its meta.
#[derive(Clone, Copy)]
pub struct Standing {
    /// Which log disk it is, 0 or 1.
    pub side: DiskNo,
    pub gate_open: bool,
    pub meta: Meta,
}

// What a log disk says, if it is well formed.
fn standing_by(side: DiskNo, heard: Option<Heard>) -> Option<Standing>
    ensures { MatchOption result
        ((opened : Bool) (meta : MetaType) → heard ≢ Some (Formed opened meta))
        (λ it. (it.side ≡ side) × (heard ≡ Some (Formed it.gate_open it.meta))) }
{
    match heard {
        Some(Heard::Formed { gate_open, meta }) => Some(Standing {
            side,
            gate_open,
            meta,
        }),
        _ => None,
    }
}

// What stands by the two sides.
fn standing_of(sides: &Sides) -> Option<Standing>
    ensures some { IfSome result (λ it. (a b : BatchValue) → IsStanding (logs_of sides.now a b)
        it.side (log_state it.gate_open it.meta (batch_at (logs_of sides.now a b) it.side))) }
    ensures none { result ≡ None → AreSidesFormed sides.now → ⊥ }
{
    match choose(sides.first, sides.second) {
        None => None,
        Some(0) => standing_by(0, sides.first),
        Some(_) => standing_by(1, sides.second),
    }
}

// Whether one of both log disks is named out.
fn is_log_out(out: Option<DiskNo>) -> bool
    ensures yes { result ≡ true → (out ≡ Some 0) ⊎ (out ≡ Some 1) }
    ensures no { result ≡ false → (out ≢ Some 0) × (out ≢ Some 1) }
{
    match out {
        Some(0) => true,
        Some(1) => true,
        _ => false,
    }
}

// Why a mount is refused by the one of two unpaired log disks that does not stand, by both gates.
fn unpaired_fault(first_open: bool, second_open: bool, side: DiskNo) -> MountFault
    requires { side < 2 }
    ensures { result ≡ unpaired_fault_of first_open second_open (other_log side) }
{
    let disk = 1 - side;
    if first_open && second_open {
        MountFault::BadLog { disk }
    } else {
        MountFault::BadMeta { disk }
    }
}

// Why a mount is refused where both log disks are live and well formed and are unpaired, and this
// side stands.
fn refusal_by_pair(sides: &Sides, first: &Batch, second: &Batch, side: DiskNo) -> Option<MountFault>
    requires first_form { IsInForm sides.now.first first.now }
    requires second_form { IsInForm sides.now.second second.now }
    requires side { side < 2 }
    ensures { MatchOption result (AreUnpaired (logs_of sides.now first.now second.now) → ⊥)
        (λ fault. (pair : AreUnpaired (logs_of sides.now first.now second.now))
        × (fault ≡ unpaired_fault_of pair.first.opened pair.second.opened (other_log side))) }
{
    let Some(a) = standing_by(0, sides.first) else {
        return None;
    };
    let Some(b) = standing_by(1, sides.second) else {
        return None;
    };
    if is_log_out(standing_out(sides)) {
        return None;
    }
    if fit_together(&a, first, &b, second) {
        return None;
    }
    Some(unpaired_fault(a.gate_open, b.gate_open, side))
}

// What stands, where no log disk refuses it.
fn agreed(sides: &Sides, first: &Batch, second: &Batch) -> Result<Standing, MountFault>
    requires first_form { IsInForm sides.now.first first.now }
    requires second_form { IsInForm sides.now.second second.now }
    ensures err { IfErr result (IsRefusedByLogs (logs_of sides.now first.now second.now)) }
    ensures ok { IfOk result (λ it. IsAgreed (logs_of sides.now first.now second.now) it.side
        (log_state it.gate_open it.meta
        (batch_at (logs_of sides.now first.now second.now) it.side))) }
{
    if let Some(fault) = refusal_by_sides(sides) {
        return Err(fault);
    }
    let Some(standing) = standing_of(sides) else {
        return Err(MountFault::NotFormatted); // never, as one is formed
    };
    if standing.meta.out.names(standing.side) {
        return Err(MountFault::BadMeta {
            disk: standing.side,
        });
    }
    if let Some(fault) = refusal_by_pair(sides, first, second, standing.side) {
        return Err(fault);
    }
    Ok(standing)
}

/// What stands by what was heard of both log disks, with its batch in the first; or why they refuse
/// a mount.
pub fn stand(sides: &Sides, batch: &mut Batch, other: &mut Batch) -> Result<Standing, MountFault>
    requires first_form { IsInForm sides.now.first batch.old }
    requires second_form { IsInForm sides.now.second other.old }
    ensures err { IfErr result (IsRefusedByLogs (logs_of sides.now batch.old other.old)) }
    ensures ok { IfOk result (λ it. IsAgreed (logs_of sides.now batch.old other.old) it.side
        (log_state it.gate_open it.meta batch.new)) }
{
    let standing = match agreed(sides, batch, other) {
        Ok(standing) => standing,
        Err(fault) => return Err(fault),
    };
    if standing.side == 1 {
        swap(batch, other);
        return Ok(standing);
    }
    Ok(standing)
}
