//! Copies into free places, straight past the log.
ghost use Rattle.std.specs.Prelude.{◌≡◌, ℕ, ◌<◌, true, IfErr, OnErr, OnOk, is_ok};
ghost use Rattle.paraid_base.specs.History.{History};
ghost use Rattle.paraid_rack.specs.declared.call.Power.TheVariants.{Spinning};
ghost use Rattle.paraid_rack.specs.declared.call.Call.TheVariants.{Write};
ghost use Rattle.paraid_rack.specs.Slots.{ChangesOneSlot};
ghost use Rattle.paraid_rack.specs.Told.{GrowsByCall, Ran, CrashTriple};
ghost use Rattle.paraid_record.specs.declared.meta.Meta.{Meta as MetaType};
ghost use Rattle.paraid_record.specs.Range.{IsInRange};
ghost use Rattle.paraid_image.specs.Standing.{Contents};
ghost use Rattle.paraid_txn.specs.Losses.{IsLostBy};
ghost use Rattle.paraid_txn.specs.Stores.{IsSameStore, store_out, store_rack};
ghost use Rattle.paraid_moves.specs.Copying.{CanCopy, CanLose, HoldsWithCopies, IsHeldByCopies, without_disk};

use paraid_base::{Block, DiskNo, Place};
use paraid_rack::Rack;
use paraid_txn::{Lost, Store};

/// Writes one copy into a free place. Done or failed, the history is held at each moment.
pub fn copy<R: Rack>(
    store: &mut Store<R>,
    disk: DiskNo,
    place: Place,
    block: &Block,
) -> Result<(), Lost>
    requires exists { disk < R.slot_count (store_rack store.old) }
    requires spinning { (R.slot (store_rack store.old) disk).power ≡ Spinning }
    requires within { place < (R.slot (store_rack store.old) disk).size }
    ensures slots { R.slot_count (store_rack store.new) ≡ R.slot_count (store_rack store.old) }
    ensures same { IsSameStore store.old store.new }
    ensures slot { ChangesOneSlot (R.slot (store_rack store.old)) (R.slot (store_rack store.new))
        disk (record (R.slot (store_rack store.old) disk) { unsynced = true }) true (is_ok result) }
    ensures told { GrowsByCall (R.told (store_rack store.old)) (R.told (store_rack store.new))
        (Write disk place block.now (is_ok result)) }
    ensures cause { IfErr result (IsLostBy (store_out R.slot store.old) disk
        (R.slot (store_rack store.old)) (R.slot (store_rack store.new))) }
    ensures done { OnOk result ((slots : ℕ) (m : MetaType) (f : Contents) (h : History) (lo : ℕ)
        → Ran (R.told (store_rack store.old)) (R.told (store_rack store.new))
        (CrashTriple (IsHeldByCopies slots m h lo) (CanCopy slots m f h lo disk place)
        (HoldsWithCopies slots m f h lo))) }
    ensures lost { OnErr result ((slots : ℕ) (m : MetaType) (f : Contents) (h : History) (lo : ℕ)
        → IsInRange m → Ran (R.told (store_rack store.old)) (R.told (store_rack store.new))
        (CrashTriple (IsHeldByCopies slots m h lo) (CanLose slots m f h lo disk)
        (HoldsWithCopies slots m (without_disk f disk) h lo))) }
{
    store.write_free(disk, place, block)
}
