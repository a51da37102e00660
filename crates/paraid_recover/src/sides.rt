//! What both log disks say.
ghost use Rattle.std.specs.Prelude.{◌≡◌, ◌≢◌, ◌<◌, ◌≤◌, [], Some, OnOk, IfErr, IfOk, None, Ok, is_ok, ◌+◌};
ghost use Rattle.paraid_rack.specs.declared.call.Power.TheVariants.{Absent, Parked, Spinning};
ghost use Rattle.paraid_rack.specs.Trail.{Trail, now};
ghost use Rattle.paraid_recover.specs.HeardSides.{AreBothLost, HasReadLog, IsHeardAt, IsHeardBy, IsInForm, IsOneLost, IsReadLosing, IsReadOnly, gone_pair as gone_pair_of};
ghost use Rattle.paraid_recover.specs.Steps.{HasHeard, HasReadLogs};
ghost use Rattle.paraid_txn.specs.Losses.{AreTwoDownBeside};
ghost use Rattle.paraid_base.specs.Log.{batch_room};

use crate::hearing::{Heard, hear};
use paraid_base::{DiskNo, Failed, Two};
use paraid_rack::{Power, Rack};
use paraid_txn::Batch;

/// Reads what a log disk says, unless it is absent.
pub fn hear_if_there<R: Rack>(
    rack: &mut R,
    disk: DiskNo,
    batch: &mut Batch,
) -> Result<Option<Heard>, Failed>
    requires exists { disk < R.slot_count rack.old }
    requires not_parked { (R.slot rack.old disk).power ≢ Parked }
    requires empty { batch.old ≡ [] }
    ensures reads { HasReadLog R.Rack disk (batch_room + 3) rack.old rack.new (is_ok result) }
    ensures heard { IfOk result (λ heard. (t : Trail) → R.told rack.new ≡ Some t
        → IsHeardAt (now t) disk heard batch.new) }
    ensures form { IfOk result (λ heard. IsInForm heard batch.new) }
    ensures power { IfOk result (λ heard. IsHeardBy heard (R.slot rack.new disk).power) }
    ensures silent { result ≡ Ok None → (R.slot rack.old disk).power ≡ Absent }
    ensures was { IfErr result (λ failed. (R.slot rack.old disk).power ≡ Spinning) }
{
    if let Power::Absent = rack.power(disk) {
        return Ok(None);
    }
    let heard = hear(rack, disk, batch)?;
    Ok(Some(heard))
}

/// What both log disks say; None is said by one that is absent.
#[derive(Clone, Copy)]
pub struct Sides {
    pub first: Option<Heard>,
    pub second: Option<Heard>,
}

// The two that are gone, by the power that disk 1 had: disk 1 was absent, or disk 0 was so or
// failed first.
fn gone_pair(power: Power) -> Two
    ensures { result ≡ gone_pair_of power }
{
    match power {
        Power::Absent => Two {
            first: 1,
            second: 0,
        },
        _ => Two {
            first: 0,
            second: 1,
        },
    }
}

/// Reads what both log disks say, each whole before the other, their batches into empty ones. One
/// that fails is absent; where the other one is absent or fails too, it answers both.
pub fn hear_both<R: Rack>(
    rack: &mut R,
    first_batch: &mut Batch,
    second_batch: &mut Batch,
) -> Result<Sides, Two>
    requires exists { 2 ≤ R.slot_count rack.old }
    requires first { (R.slot rack.old 0).power ≢ Parked }
    requires second { (R.slot rack.old 1).power ≢ Parked }
    requires first_empty { first_batch.old ≡ [] }
    requires second_empty { second_batch.old ≡ [] }
    ensures leaves { HasReadLogs R.Rack rack.old rack.new }
    ensures first { IfOk result (λ it. HasHeard R.Rack rack.new 0 it.first first_batch.new) }
    ensures second { IfOk result (λ it. HasHeard R.Rack rack.new 1 it.second second_batch.new) }
    ensures one { OnOk result (IsOneLost (R.slot rack.old) (R.slot rack.new)) }
    ensures both { IfErr result (AreBothLost (R.slot rack.old) (R.slot rack.new)) }
    ensures two { IfErr result (λ two. two ≡ gone_pair_of (R.slot rack.old 1).power) }
    ensures cause { IfErr result (AreTwoDownBeside (λ e. (R.slot rack.old e).power ≡ Absent)
        (R.slot rack.old) (R.slot rack.new)) }
    ensures moments { IfOk result (λ it. IsReadOnly (R.told rack.old) (R.told rack.new)) }
    ensures refused { IfErr result (λ two. IsReadLosing (R.told rack.old) (R.told rack.new)) }
{
    let power = rack.power(1);
    let first = hear_if_there(rack, 0, first_batch);
    let second = hear_if_there(rack, 1, second_batch);
    let Ok(first) = first else {
        return match second {
            Ok(Some(second)) => Ok(Sides {
                first: None,
                second: Some(second),
            }),
            Ok(None) => Err(gone_pair(power)),
            Err(Failed) => Err(gone_pair(power)),
        };
    };
    let Ok(second) = second else {
        return match first {
            Some(first) => Ok(Sides {
                first: Some(first),
                second: None,
            }),
            None => Err(gone_pair(power)),
        };
    };
    Ok(Sides { first, second })
}
