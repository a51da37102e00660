//! The witness on disk 2 against a log disk: a mount heeds it where that log disk stands alone, and
//! bears it where a meta names that log disk out.
ghost use Rattle.std.specs.Prelude.{◌≡◌, ◌<◌, ◌≤◌, ℕ, true, false, Some, OnOk, IfErr, is_ok};
ghost use Rattle.paraid_rack.specs.declared.call.Power.TheVariants.{Spinning};
ghost use Rattle.paraid_rack.specs.Trail.{Trail, now};
ghost use Rattle.paraid_image.specs.Out.{named_out};
ghost use Rattle.paraid_image.specs.Sides.{is_open};
ghost use Rattle.paraid_recover.specs.Bearing.{CanBear, HasBorne, IsNamedLog};
ghost use Rattle.paraid_recover.specs.Witness.{IsUnwitnessed, IsWitnessed};
ghost use Rattle.paraid_txn.specs.Losses.{CanWrite};
ghost use Rattle.paraid_txn.specs.Stores.{borne_of, store_rack};

use crate::reads::read_place;
use paraid_base::{Block, DiskNo, Two, WITNESS_DISK};
use paraid_rack::{Power, Rack};
use paraid_record::Meta;
use paraid_txn::{Lost, Store, gate, opens};

/// Where log disk `side` stands and the other one is absent, the place of the witness against
/// `side` on disk 2 is read: if it is open, `side` was named out and is refused.
pub fn heed<R: Rack>(rack: &mut R, side: DiskNo) -> Result<(), Two>
    requires log_disk { side < 2 }
    requires exists { 3 ≤ R.slot_count rack.old }
    ensures ok { OnOk result (IsUnwitnessed R.Rack side rack.old rack.new) }
    ensures err { IfErr result (IsWitnessed R.Rack side rack.old rack.new) }
{
    let other = 1 - side;
    if rack.power(other) != Power::Absent {
        return Ok(());
    }
    if rack.power(WITNESS_DISK) != Power::Spinning {
        return Ok(());
    }
    let mut found = Block::zero();
    let Ok(()) = read_place(rack, WITNESS_DISK, u32::from(side), &mut found) else {
        return Err(Two {
            first: other,
            second: WITNESS_DISK,
        });
    };
    if opens(&found) {
        return Err(Two {
            first: side,
            second: other,
        });
    }
    Ok(())
}

// Opens the place of the witness against a log disk, which is closed, and makes disk 2 keep it.
fn open_place<R: Rack>(store: &mut Store<R>, disk: DiskNo) -> Result<(), Lost>
    requires log_disk { disk < 2 }
    requires exists { 2 < R.slot_count (store_rack store.old) }
    requires spinning { (R.slot (store_rack store.old) 2).power ≡ Spinning }
    requires within { 1 < (R.slot (store_rack store.old) 2).size }
    requires closed { (t : Trail) → R.told (store_rack store.old) ≡ Some t
        → is_open ((now t).block 2 disk) ≡ false }
    ensures { HasBorne R.Rack (Some disk) store.old store.new (is_ok result) }
{
    let opened = gate(true);
    match store.write_free(WITNESS_DISK, u32::from(disk), &opened) {
        Ok(()) => store.sync(WITNESS_DISK),
        Err(lost) => Err(lost),
    }
}

// Bears witness against a log disk, unless it is borne. Disk 2 spins.
fn bear_there<R: Rack>(store: &mut Store<R>, disk: DiskNo) -> Result<(), Two>
    requires log_disk { disk < 2 }
    requires exists { 2 < R.slot_count (store_rack store.old) }
    requires spinning { (R.slot (store_rack store.old) 2).power ≡ Spinning }
    requires within { 1 < (R.slot (store_rack store.old) 2).size }
    ensures borne { HasBorne R.Rack (Some disk) store.old store.new (is_ok result) }
    ensures two { IfErr result (λ two. two ≡ record { first = disk; second = 2 }) }
{
    let two = Two {
        first: disk,
        second: WITNESS_DISK,
    };
    let mut stored = Block::zero();
    let Ok(()) = store.read(WITNESS_DISK, u32::from(disk), &mut stored) else {
        return Err(two);
    };
    if opens(&stored) {
        return Ok(());
    }
    let Ok(()) = open_place(store, disk) else {
        return Err(two);
    };
    Ok(())
}

// The same, unless disk 2 is absent.
fn bear<R: Rack>(store: &mut Store<R>, disk: DiskNo) -> Result<(), Two>
    requires log_disk { disk < 2 }
    requires exists { 2 < R.slot_count (store_rack store.old) }
    requires ready { CanWrite (R.slot (store_rack store.old)) 2 1 }
    ensures borne { HasBorne R.Rack (Some disk) store.old store.new (is_ok result) }
    ensures two { IfErr result (λ two. two ≡ record { first = disk; second = 2 }) }
{
    match store.power(WITNESS_DISK) {
        Power::Absent => Ok(()),
        _ => bear_there(store, disk),
    }
}

// The same, unless the store knows that it is borne; it knows so then.
fn bear_once<R: Rack>(store: &mut Store<R>, disk: DiskNo) -> Result<(), Two>
    requires log_disk { disk < 2 }
    requires exists { 2 < R.slot_count (store_rack store.old) }
    requires ready { CanBear (R.slot (store_rack store.old)) }
    ensures borne { HasBorne R.Rack (Some disk) store.old store.new (is_ok result) }
    ensures two { IfErr result (λ two. two ≡ record { first = disk; second = 2 }) }
    ensures known { borne_of store.old ≡ Some disk
        → R.told (store_rack store.new) ≡ R.told (store_rack store.old) }
{
    if store.knows_borne(disk) {
        return Ok(());
    }
    match bear(store, disk) {
        Ok(()) => {
            store.note_borne(disk);
            Ok(())
        }
        Err(two) => Err(two),
    }
}

/// Where the meta names out a log disk, the place of the witness against it on disk 2 is read, and
/// opened if it is closed; unless the store knows that it is open.
pub fn bear_named<R: Rack>(store: &mut Store<R>, meta: &Meta) -> Result<(), Two>
    requires exists { 2 < R.slot_count (store_rack store.old) }
    requires ready { (x : ℕ) → IsNamedLog (named_out meta.now.out) x
        → CanBear (R.slot (store_rack store.old)) }
    ensures borne { HasBorne R.Rack (named_out meta.now.out) store.old store.new (is_ok result) }
    ensures two { IfErr result (λ two. IsNamedLog (named_out meta.now.out) two.first
        × (two.second ≡ 2)) }
    // no call, where the store knows that it is open
    ensures known { (x : ℕ) → IsNamedLog (named_out meta.now.out) x → borne_of store.old ≡ Some x
        → R.told (store_rack store.new) ≡ R.told (store_rack store.old) }
{
    let Some(disk) = meta.out.named() else {
        return Ok(());
    };
    if disk >= 2 {
        return Ok(());
    }
    bear_once(store, disk)
}
