//! Reads of one place, and of one stripe, with all that is staged laid over.
ghost use Rattle.std.specs.Prelude.{◌++◌, ◌≡◌, ◌≢◌, ℕ, ◌+◌, ◌<◌, ◌≤◌, Option, Some, MatchOption, OnOk, IfErr, IsSome};
ghost use Rattle.paraid_base.specs.Log.{log_least};
ghost use Rattle.paraid_base.specs.Soft.{stripe_count};
ghost use Rattle.paraid_base.specs.Sums.{without, xor_upto};
ghost use Rattle.paraid_rack.specs.declared.call.Power.TheVariants.{Spinning};
ghost use Rattle.paraid_rack.specs.Told.{Ran};
ghost use Rattle.paraid_record.specs.Range.{IsInRange};
ghost use Rattle.paraid_base.specs.declared.block.Block.{Block as BlockType};
ghost use Rattle.paraid_image.specs.Standing.{Contents, overlaid_block};
ghost use Rattle.paraid_txn.specs.Stores.{disks_of, store_rack};
ghost use Rattle.paraid_image.specs.Value.{stripe_rest};
ghost use Rattle.paraid_view.specs.Reads.{AreOffDisk, CanRead, HaveRead, ShowsContents, lost_by};

use crate::draft::Draft;
use paraid_base::{Block, DiskNo, Place};
use paraid_layout::soft_place;
use paraid_parity::xor_into;
use paraid_rack::Rack;
use paraid_record::Meta;
use paraid_txn::{Batch, Store};

// The block that is staged for a place: that of the draft before that of the batch.
fn find_staged<'a>(
    batch: &'a Batch,
    draft: &'a Draft,
    disk: DiskNo,
    place: Place,
) -> Option<&'a Block>
    ensures { MatchOption result ((any : BlockType)
        → overlaid_block (batch.now ++ draft.now) disk place any ≡ any) (λ block. (any : BlockType)
        → overlaid_block (batch.now ++ draft.now) disk place any ≡ block.now) }
{
    if let Some(block) = draft.get(disk, place) {
        return Some(block);
    }
    batch.get(disk, place)
}

/// Reads a block with all that is staged laid over. It answers the disk where that has failed.
pub fn read_laid<R: Rack>(
    store: &mut Store<R>,
    batch: &Batch,
    draft: &Draft,
    disk: DiskNo,
    place: Place,
    into: &mut Block,
) -> Result<(), DiskNo>
    requires exists { disk < R.slot_count (store_rack store.old) }
    requires below { disk < disks_of store.old }
    requires spinning { (R.slot (store_rack store.old) disk).power ≡ Spinning }
    requires within { place < (R.slot (store_rack store.old) disk).size }
    requires past_log { log_least ≤ place }
    ensures read { HaveRead R.slot_count R.slot R.told (disks_of store.old) (lost_by result)
        store.old store.new }
    ensures below { IfErr result (λ e. e < disks_of store.old) }
    ensures failed { IfErr result (λ e. e ≡ disk) }
    ensures off { (out : Option ℕ) → out ≢ Some disk
        → Ran (R.told (store_rack store.old)) (R.told (store_rack store.new)) (AreOffDisk out) }
    ensures value { OnOk result ((f : Contents)
        → ShowsContents (R.told (store_rack store.old)) (batch.now ++ draft.now) f
        → IsSome (R.told (store_rack store.new)) → into.new ≡ f disk place) }
{
    if let Some(block) = find_staged(batch, draft, disk, place) {
        into.copy_from(block);
        return Ok(());
    }
    let Ok(()) = store.read(disk, place, into) else {
        return Err(disk);
    };
    Ok(())
}

// Adds one block of a stripe to a sum, unless it is on this disk.
fn add_block<R: Rack>(
    store: &mut Store<R>,
    batch: &Batch,
    draft: &Draft,
    skipped: DiskNo,
    disk: DiskNo,
    place: Place,
    sum: &mut Block,
) -> Result<(), DiskNo>
    requires exists { disk < R.slot_count (store_rack store.old) }
    requires below { disk < disks_of store.old }
    requires spinning { disk ≢ skipped → (R.slot (store_rack store.old) disk).power ≡ Spinning }
    requires within { disk ≢ skipped → place < (R.slot (store_rack store.old) disk).size }
    requires past_log { log_least ≤ place }
    ensures read { HaveRead R.slot_count R.slot R.told (disks_of store.old) (lost_by result)
        store.old store.new }
    ensures below { IfErr result (λ e. e < disks_of store.old) }
    ensures failed { IfErr result (λ e. (e ≡ disk) × (e ≢ skipped)) }
    ensures off { Ran (R.told (store_rack store.old))
        (R.told (store_rack store.new)) (AreOffDisk (Some skipped)) }
    ensures value { OnOk result ((f : Contents)
        → ShowsContents (R.told (store_rack store.old)) (batch.now ++ draft.now) f
        → IsSome (R.told (store_rack store.new))
        → sum.old ≡ xor_upto (without (λ e. f e place) skipped) disk
        → sum.new ≡ xor_upto (without (λ e. f e place) skipped) (disk + 1)) }
{
    if disk == skipped {
        return Ok(());
    }
    let mut block = Block::zero();
    read_laid(store, batch, draft, disk, place, &mut block)?;
    xor_into(sum, &block);
    Ok(())
}

/// The XOR of the blocks of a stripe of the current region but that of one disk.
pub fn read_rest<R: Rack>(
    store: &mut Store<R>,
    batch: &Batch,
    draft: &Draft,
    meta: &Meta,
    stripe: u32,
    skipped: DiskNo,
    into: &mut Block,
) -> Result<(), DiskNo>
    requires in_range { IsInRange meta.now }
    requires region { meta.now.gear < meta.now.setup.geometry.disks }
    requires stripe { stripe
        < stripe_count meta.now.setup.geometry.disks meta.now.setup.geometry.rows meta.now.gear }
    requires array { meta.now.setup.geometry.disks ≡ disks_of store.old }
    requires ready { CanRead (R.slot_count (store_rack store.old)) (R.slot (store_rack store.old))
        meta.now (Some skipped) }
    ensures read { HaveRead R.slot_count R.slot R.told (disks_of store.old) (lost_by result)
        store.old store.new }
    ensures below { IfErr result (λ e. e < disks_of store.old) }
    ensures failed { IfErr result (λ e. e ≢ skipped) }
    ensures off { Ran (R.told (store_rack store.old))
        (R.told (store_rack store.new)) (AreOffDisk (Some skipped)) }
    ensures value { OnOk result ((f : Contents)
        → ShowsContents (R.told (store_rack store.old)) (batch.now ++ draft.now) f
        → IsSome (R.told (store_rack store.new))
        → into.new ≡ stripe_rest meta.now.setup.geometry f meta.now.gear stripe skipped) }
{
    *into = Block::zero();
    let place = soft_place(&meta.setup.geometry, meta.gear, stripe);
    for disk in 0..meta.gear {
        add_block(store, batch, draft, skipped, disk, place, into)?;
    }
    Ok(())
}
