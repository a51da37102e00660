//! Disks are spun up and parked as the gear asks.
ghost use Rattle.std.specs.Prelude.{◌≡◌, ◌≢◌, ℕ, ◌<◌, ◌≤◌, false, Some};
ghost use Rattle.paraid_rack.specs.declared.call.Power.TheVariants.{Parked, Spinning};
ghost use Rattle.paraid_image.specs.Out.{named_out};
ghost use Rattle.paraid_recover.specs.Powers.{ArePowered, HasPowered, HasChangedPower, is_to_spin as is_to_spin_of};
ghost use Rattle.paraid_txn.specs.Losses.{IsSyncedAt};
ghost use Rattle.paraid_txn.specs.Stores.{disks_of, named_of, store_rack};

use paraid_base::{DiskNo, Two};
use paraid_rack::{Power, Rack};
use paraid_record::Meta;
use paraid_txn::{Lost, Store};

// Whether a disk that is not out is to spin.
fn is_to_spin(meta: &Meta, disk: DiskNo) -> bool
    ensures { result ≡ is_to_spin_of meta.now disk }
{
    disk < meta.gear || disk < meta.phase.rising_to()
}

// A parked disk is spun up, if it is to spin.
fn spin_up_one<R: Rack>(store: &mut Store<R>, meta: &Meta, disk: DiskNo) -> Result<(), Lost>
    requires exists { disk < R.slot_count (store_rack store.old) }
    requires low { disk < meta.now.setup.geometry.disks }
    requires parked { (R.slot (store_rack store.old) disk).power ≡ Parked }
    requires high { meta.now.gear ≤ disk }
    requires in_use { named_out meta.now.out ≢ Some disk }
    ensures { HasChangedPower R.Rack meta.now disk store.old store.new result }
{
    if !is_to_spin(meta, disk) {
        return Ok(());
    }
    store.spin_up(disk)
}

// A spinning disk is parked, unless it is to spin.
fn park_one<R: Rack>(store: &mut Store<R>, meta: &Meta, disk: DiskNo) -> Result<(), Lost>
    requires exists { disk < R.slot_count (store_rack store.old) }
    requires low { disk < meta.now.setup.geometry.disks }
    requires spinning { (R.slot (store_rack store.old) disk).power ≡ Spinning }
    requires synced { (R.slot (store_rack store.old) disk).unsynced ≡ false }
    requires in_use { named_out meta.now.out ≢ Some disk }
    ensures { HasChangedPower R.Rack meta.now disk store.old store.new result }
{
    if is_to_spin(meta, disk) {
        return Ok(());
    }
    store.park(disk)
}

// One disk, unless it is out.
fn power_one<R: Rack>(store: &mut Store<R>, meta: &Meta, disk: DiskNo) -> Result<(), Lost>
    requires exists { disk < R.slot_count (store_rack store.old) }
    requires low { disk < meta.now.setup.geometry.disks }
    requires awake { disk < meta.now.gear → named_out meta.now.out ≢ Some disk
        → (R.slot (store_rack store.old) disk).power ≢ Parked }
    requires synced { named_out meta.now.out ≢ Some disk
        → IsSyncedAt (R.slot (store_rack store.old)) disk }
    ensures { HasChangedPower R.Rack meta.now disk store.old store.new result }
{
    if meta.out.names(disk) {
        return Ok(());
    }
    match store.power(disk) {
        Power::Absent => Ok(()),
        Power::Parked => spin_up_one(store, meta, disk),
        Power::Spinning => park_one(store, meta, disk),
    }
}

// The same, where a first failure is borne.
fn power_disk<R: Rack>(store: &mut Store<R>, meta: &Meta, disk: DiskNo) -> Result<(), Two>
    requires exists { disk < R.slot_count (store_rack store.old) }
    requires low { disk < meta.now.setup.geometry.disks }
    requires disks { disks_of store.old ≡ meta.now.setup.geometry.disks }
    requires named { named_of store.old ≡ named_out meta.now.out }
    requires awake { disk < meta.now.gear → named_out meta.now.out ≢ Some disk
        → (R.slot (store_rack store.old) disk).power ≢ Parked }
    requires synced { named_out meta.now.out ≢ Some disk
        → IsSyncedAt (R.slot (store_rack store.old)) disk }
    ensures { HasPowered R.Rack meta.now disk store.old store.new result }
{
    match power_one(store, meta, disk) {
        Ok(()) => Ok(()),
        Err(Lost::One { .. }) => Ok(()),
        Err(Lost::Two(two)) => Err(two),
    }
}

/// Powers the disks by the gear, in ascending order: a parked disk that a shift up asks to spin is
/// spun up, and a spinning one that is not asked to spin is parked. Disks that are out are left.
///
/// A first disk that fails is out from then on; where a second one is down it ends and names both.
pub fn power_disks<R: Rack>(store: &mut Store<R>, meta: &Meta) -> Result<(), Two>
    requires exists { meta.now.setup.geometry.disks ≤ R.slot_count (store_rack store.old) }
    requires disks { disks_of store.old ≡ meta.now.setup.geometry.disks }
    requires named { named_of store.old ≡ named_out meta.now.out }
    requires awake { (d : ℕ) → d < meta.now.gear → named_out meta.now.out ≢ Some d
        → (R.slot (store_rack store.old) d).power ≢ Parked }
    requires synced { (d : ℕ) → d < meta.now.setup.geometry.disks
        → named_out meta.now.out ≢ Some d → IsSyncedAt (R.slot (store_rack store.old)) d }
    ensures { ArePowered R.Rack meta.now meta.now.setup.geometry.disks store.old store.new result }
{
    for disk in 0..meta.setup.geometry.disks {
        power_disk(store, meta, disk)?;
    }
    Ok(())
}
