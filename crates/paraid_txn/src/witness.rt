//! The witnesses that disk 2 bears against the log disks. Its place `x` is open, as a gate is,
//! where log disk `x` was out: then a mount that finds the other log disk absent refuses what log
//! disk `x` says. They stand on disk 2, which spins in every gear, and not on the log disk, which
//! may be away as it is taken out.
ghost use Rattle.std.specs.Prelude.{◌≡◌, ◌≢◌, ℕ, ◌<◌, ◌⊎◌, true, false, Some, None, Ok, IfOk, IfSome};
ghost use Rattle.paraid_rack.specs.declared.call.Power.TheVariants.{Spinning};
ghost use Rattle.paraid_rack.specs.Told.{Ran};
ghost use Rattle.paraid_txn.specs.Borne.{IsBorneNow};
ghost use Rattle.paraid_txn.specs.Commit.{gone_out};
ghost use Rattle.paraid_txn.specs.CommitPart.{SyncedPart};
ghost use Rattle.paraid_txn.specs.Uses.{UsesWitness};
ghost use Rattle.paraid_image.specs.Out.{or_else};
ghost use Rattle.paraid_image.specs.Sides.{is_open};
ghost use Rattle.paraid_record.specs.declared.meta.Meta.{Meta as MetaType};
ghost use Rattle.paraid_txn.specs.Witness.{CannotSet, IsFirstWitness, IsLastWitness, MaySetWitness, SetsWitness};

use crate::bearing::{Bearing, Witness};
use crate::calls::{put, sync_slot};
use crate::gates::gate;
use crate::losses::Losses;
use paraid_base::{Block, DiskNo, Place, Two, WITNESS_DISK};
use paraid_rack::{Power, Rack};
use paraid_record::Meta;

// The witness against this disk is borne, if it is a log disk.
fn against(out: Option<DiskNo>) -> Option<Witness>
    ensures some { IfSome result (λ w. (out ≡ Some w.disk) × (w.opened ≡ true)) }
    ensures none { result ≡ None → (x : ℕ) → x < 2 → out ≢ Some x }
{
    match out {
        Some(disk) if disk < 2 => Some(Witness { disk, opened: true }),
        _ => None,
    }
}

/// The log disk that comes in again: it was named out, and is so no longer.
pub(crate) fn joining(was: Option<DiskNo>, now: Option<DiskNo>) -> Option<DiskNo>
    ensures some { (x : ℕ) → result ≡ Some x → (x < 2) × (was ≡ Some x) × (now ≢ Some x) }
    ensures none { result ≡ None → (x : ℕ) → x < 2 → was ≡ Some x → now ≡ Some x }
{
    match was {
        Some(disk) if disk < 2 && now != Some(disk) => Some(disk),
        _ => None,
    }
}

/// What is set before the steps of a commit: the witness against a log disk that comes in again is
/// taken back; or, if none is borne, one is borne against a log disk that is absent.
pub(crate) fn first_witness(out: Bearing, now: Option<DiskNo>) -> Option<Witness>
    ensures { IsFirstWitness out.absent out.named now out.borne result }
{
    if let Some(disk) = joining(out.named, now) {
        return Some(Witness {
            disk,
            opened: false,
        });
    }
    if out.borne.is_some() {
        return None;
    }
    against(out.absent)
}

// The disk that was lost, or else the one that is named out.
fn out_last(lost: Option<DiskNo>, now: Option<DiskNo>) -> Option<DiskNo>
    ensures { result ≡ or_else lost now }
{
    match lost {
        Some(disk) => Some(disk),
        None => now,
    }
}

/// What is set after them: the witness against a log disk that was lost in them, or is named out,
/// unless it is borne against it.
pub(crate) fn last_witness(
    lost: Option<DiskNo>,
    now: Option<DiskNo>,
    borne: Option<DiskNo>,
) -> Option<Witness>
    ensures { IsLastWitness lost now borne result }
{
    let out = out_last(lost, now);
    if out == borne {
        return None;
    }
    against(out)
}

// Whether the disk that bears witness can be written there.
fn can_bear<R: Rack>(rack: &R, skip: Option<DiskNo>, place: Place) -> bool
    requires { 2 < R.slot_count rack.now }
    ensures can { result ≡ true → (skip ≢ Some 2) × ((R.slot rack.now 2).power ≡ Spinning)
        × (place < (R.slot rack.now 2).size) }
    ensures cannot { result ≡ false → CannotSet (R.slot rack.now) skip place }
{
    skip != Some(WITNESS_DISK)
        && rack.power(WITNESS_DISK) == Power::Spinning
        && place < rack.size(WITNESS_DISK)
}

// Writes the place of a witness and makes disk 2 keep it.
fn write_witness<R: Rack>(
    rack: &mut R,
    losses: &mut Losses,
    skip: Option<DiskNo>,
    place: Place,
    block: &Block,
) -> Result<(), Two>
    requires exists { 2 < R.slot_count rack.old }
    requires low { place < 2 }
    requires unskipped { skip ≢ Some 2 }
    requires spinning { (R.slot rack.old 2).power ≡ Spinning }
    requires within { place < (R.slot rack.old 2).size }
    ensures leaves { (m : MetaType) → gone_out m.out ≡ skip
        → SyncedPart R.Rack (UsesWitness m) losses.old losses.new rack.old rack.new result }
    ensures told { Ran (R.told rack.old) (R.told rack.new) (λ s cs.
        SetsWitness place (is_open block.now) cs) }
{
    put(rack, losses, skip, WITNESS_DISK, place, block)?;
    sync_slot(rack, losses, skip, WITNESS_DISK) // before a step that counts on it
}

// The log disk against which witness is borne by this one, once it is set.
fn borne_by(witness: Witness) -> Option<DiskNo>
    ensures is { (x : ℕ) → result ≡ Some x → (witness.disk ≡ x) × (witness.opened ≡ true) }
    ensures opened { witness.opened ≡ true → result ≡ Some witness.disk }
{
    if witness.opened {
        return Some(witness.disk);
    }
    None
}

/// Sets a witness on disk 2. Nothing is done where that disk is gone, or cannot be written. It
/// answers against which log disk witness is borne then, as far as it knows.
pub(crate) fn set_witness<R: Rack>(
    rack: &mut R,
    losses: &mut Losses,
    meta: &Meta,
    witness: Witness,
) -> Result<Option<DiskNo>, Two>
    requires exists { 2 < R.slot_count rack.old }
    ensures leaves { SyncedPart R.Rack
        (UsesWitness meta.now) losses.old losses.new rack.old rack.new result }
    ensures told { Ran (R.told rack.old) (R.told rack.new) (λ s cs.
        MaySetWitness (R.slot rack.old) (gone_out meta.now.out) witness.disk witness.opened cs) }
    ensures known { IfOk result (λ borne. IsBorneNow borne (R.told rack.new)) }
    ensures opens { witness.opened ≡ true → IfOk result (λ borne. (borne ≡ Some witness.disk)
        ⊎ CannotSet (R.slot rack.old) (gone_out meta.now.out) witness.disk) }
{
    let skip = meta.out.gone();
    let place = u32::from(witness.disk);
    if !can_bear(rack, skip, place) {
        return Ok(None);
    }
    let block = gate(witness.opened);
    write_witness(rack, losses, skip, place, &block)?;
    Ok(borne_by(witness))
}
