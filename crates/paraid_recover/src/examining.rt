//! The first half of a mount: what stands, or why it is refused.
//!
//! Only reads of the log disks are made, so that a mount that is refused here leaves every image as
//! it was. The causes are tested in the order of `IsRefused`.
ghost use Rattle.std.specs.Prelude.{◌≡◌, ℕ, ◌≤◌, Some, Err, IfErr, IfOk, OnOk, MatchOption, ◌+◌, ◌*◌};
ghost use Rattle.paraid_base.specs.Log.{batch_room, worn_at};
ghost use Rattle.paraid_rack.specs.Told.{Ran};
ghost use Rattle.paraid_rack.specs.Trail.{Trail, now};
ghost use Rattle.paraid_image.specs.Sides.{LogState, log_state};
ghost use Rattle.paraid_image.specs.Standing.{Stands};
ghost use Rattle.paraid_recover.specs.Examined.{AreReadable, IsExamined, IsRefused, IsRefusedAsHeard, IsRefusedBySlots, IsServedAsHeard, is_log_parked as is_log_parked_of, logs_of};
ghost use Rattle.paraid_recover.specs.declared.mount_fault.MountFault.TheVariants.{Worn};
ghost use Rattle.paraid_record.specs.Range.{meta_wear};
ghost use Rattle.paraid_recover.specs.HeardSides.{AtMost, IsInForm, IsReadLosing, IsReadOnly, ReadsLogs};
ghost use Rattle.paraid_txn.specs.Losses.{AreFailedOrWell, OnlyLosesSlots};
ghost use Rattle.paraid_txn.specs.Resume.{CanResume};
ghost use Rattle.paraid_txn.specs.Uses.{EachCall};

use crate::mount_fault::MountFault;
use crate::refusal::refusal_by_meta;
use crate::standing::{Standing, stand};
use crate::{Sides, hear_both};
use paraid_base::DiskNo;
use paraid_rack::{Power, Rack};
use paraid_txn::Batch;

// Whether there is a log disk in the slot that is parked.
fn is_log_parked<R: Rack>(rack: &R, disk: DiskNo) -> bool
    ensures { result ≡ is_log_parked_of (R.slot rack.now) disk }
{
    disk < rack.slots() && rack.power(disk) == Power::Parked
}

/// Why a mount is refused before a read: a log disk is parked, or there are not two slots.
pub fn refusal_by_slots<R: Rack>(rack: &R) -> Option<MountFault>
    ensures { MatchOption result (AreReadable (R.slot_count rack.now) (R.slot rack.now))
        (IsRefusedBySlots (R.slot_count rack.now) (R.slot rack.now)) }
{
    if is_log_parked(rack, 0) {
        return Some(MountFault::Power { disk: 0 });
    }
    if is_log_parked(rack, 1) {
        return Some(MountFault::Power { disk: 1 });
    }
    if rack.slots() < 2 {
        return Some(MountFault::NotFormatted);
    }
    None
}

// What stands by what was heard, or why a mount is refused by it.
fn judge<R: Rack>(
    rack: &R,
    sides: &Sides,
    batch: &mut Batch,
    other: &mut Batch,
) -> Result<Standing, MountFault>
    requires first_form { IsInForm sides.now.first batch.old }
    requires second_form { IsInForm sides.now.second other.old }
    ensures err { IfErr result (IsRefusedAsHeard (R.slot_count rack.now) (R.slot rack.now)
        (logs_of sides.now batch.old other.old)) }
    ensures ok { IfOk result (λ it. IsServedAsHeard (R.slot_count rack.now) (R.slot rack.now)
        (logs_of sides.now batch.old other.old) it.side
        (log_state it.gate_open it.meta batch.new)) }
{
    let standing = match stand(sides, batch, other) {
        Ok(standing) => standing,
        Err(fault) => return Err(fault),
    };
    if let Some(fault) = refusal_by_meta(rack, &standing.meta, batch) {
        return Err(fault);
    }
    Ok(standing)
}

/// Reads both log disks and tests each cause of a refusal. It gives the log disk that stands, whose
/// batch is then in `batch`, none where its gate is closed; `other` holds anything.
pub fn examine<R: Rack>(
    rack: &mut R,
    batch: &mut Batch,
    other: &mut Batch,
) -> Result<Standing, MountFault>
    ensures slots { R.slot_count rack.new ≡ R.slot_count rack.old }
    ensures powers { OnlyLosesSlots (R.slot rack.old) (R.slot rack.new) }
    ensures each { AreFailedOrWell (R.slot rack.old) (R.slot rack.new) }
    ensures calls { Ran (R.told rack.old) (R.told rack.new) (EachCall ReadsLogs) }
    ensures few { Ran (R.told rack.old) (R.told rack.new) (AtMost (2 * (batch_room + 3))) }
    ensures quiet { IsReadLosing (R.told rack.old) (R.told rack.new) }
    ensures one { OnOk result (IsReadOnly (R.told rack.old) (R.told rack.new)) }
    ensures refused { IfErr result (IsRefused (R.slot_count rack.old) (R.slot rack.old)
        (R.slot rack.new) (R.told rack.new)) }
    ensures ok { IfOk result (λ it. IsExamined (R.slot_count rack.old) (R.slot rack.old)
        (R.slot rack.new) (R.told rack.new) it.side
        (log_state it.gate_open it.meta batch.new)) }
    ensures stands { IfOk result (λ it. (t : Trail) → R.told rack.new ≡ Some t
        → Stands (now t) it.side (log_state it.gate_open it.meta batch.new)) }
    ensures resumes { IfOk result (λ it. CanResume (R.slot_count rack.new) (R.slot rack.new)
        it.side it.gate_open batch.new it.meta) }
    ensures worn { (count : ℕ) → result ≡ Err (Worn count)
        → (t : Trail) → R.told rack.new ≡ Some t
        → (x : ℕ) (said : LogState) → Stands (now t) x said
        → (count ≡ meta_wear said.meta) × (worn_at ≤ count) }
{
    if let Some(fault) = refusal_by_slots(rack) {
        return Err(fault);
    }
    batch.clear();
    other.clear();
    let sides = match hear_both(rack, batch, other) {
        Ok(sides) => sides,
        Err(two) => return Err(MountFault::Two(two)),
    };
    judge(rack, &sides, batch, other)
}
