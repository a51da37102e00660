//! The blocks of a stripe of the region of the new gear, read by the values of its cells.
ghost use Rattle.std.specs.Prelude.{◌≡◌, ◌≢◌, ℕ, ◌+◌, ◌<◌, ◌++◌, None, OnOk, IfErr, IsSome};
ghost use Rattle.paraid_base.specs.Soft.{soft_parity_disk};
ghost use Rattle.paraid_base.specs.Sums.{without, xor_upto};
ghost use Rattle.paraid_core.specs.Fills.{member};
ghost use Rattle.paraid_image.specs.Standing.{Contents};
ghost use Rattle.paraid_moves.specs.MoveMetas.{copies, copied_block};
ghost use Rattle.paraid_txn.specs.Stores.{disks_of, store_rack};
ghost use Rattle.paraid_view.specs.Reads.{HaveRead, ShowsContents, lost_by, seen_by};
ghost use Rattle.paraid_core.specs.Gathering.{CanGather};

use paraid_base::{Block, DiskNo};
use paraid_dirty::DirtyTable;
use paraid_layout::{cell_at, index_among, soft_parity};
use paraid_parity::xor_into;
use paraid_rack::Rack;
use paraid_record::Meta;
use paraid_txn::{Batch, Store};
use paraid_view::{Draft, read_value};

// Changes one of the blocks.
fn put(blocks: &mut [Block; 8], at: DiskNo, block: &Block)
    requires { at < 8 }
    ensures here { member blocks.new at ≡ block.now }
    ensures others { (x : ℕ) → x ≢ at → member blocks.new x ≡ member blocks.old x }
{
    blocks[at as usize].copy_from(block);
}

// The copy that a disk holds in stripe `s` of gear `to`: the value of a cell, or zeros for a pad.
fn read_copy<R: Rack>(
    store: &mut Store<R>,
    batch: &Batch,
    draft: &Draft,
    meta: &Meta,
    dirty: &DirtyTable,
    to: u8,
    s: u32,
    disk: DiskNo,
    into: &mut Block,
) -> Result<(), DiskNo>
    requires gathers { CanGather store.old meta.now dirty.now to s }
    requires disk { disk < to }
    requires apart { disk ≢ soft_parity_disk to s }
    ensures read { HaveRead R.slot_count R.slot R.told (disks_of store.old) (lost_by result)
        store.old store.new }
    ensures below { IfErr result (λ e. e < disks_of store.old) }
    ensures value { OnOk result ((f : Contents)
        → ShowsContents (R.told (store_rack store.old)) (batch.now ++ draft.now) f
        → IsSome (R.told (store_rack store.new))
        → into.new ≡ copies (seen_by meta.now dirty.now None f) to s disk) }
{
    let g = &meta.setup.geometry;
    let index = index_among(soft_parity(g, to, s), disk, to);
    let Some((r, d)) = cell_at(g, to, s, index) else {
        *into = Block::zero();
        return Ok(());
    };
    read_value(store, batch, draft, meta, dirty, None, r, d, into)
}

// Puts the copy of one disk among the blocks, and adds it to their sum; the parity is left out.
fn gather_one<R: Rack>(
    store: &mut Store<R>,
    batch: &Batch,
    draft: &Draft,
    meta: &Meta,
    dirty: &DirtyTable,
    to: u8,
    s: u32,
    disk: DiskNo,
    blocks: &mut [Block; 8],
    sum: &mut Block,
) -> Result<(), DiskNo>
    requires gathers { CanGather store.old meta.now dirty.now to s }
    requires disk { disk < to }
    ensures read { HaveRead R.slot_count R.slot R.told (disks_of store.old) (lost_by result)
        store.old store.new }
    ensures below { IfErr result (λ e. e < disks_of store.old) }
    ensures others { (x : ℕ) → x ≢ disk → member blocks.new x ≡ member blocks.old x }
    ensures here { OnOk result ((f : Contents)
        → ShowsContents (R.told (store_rack store.old)) (batch.now ++ draft.now) f
        → IsSome (R.told (store_rack store.new)) → disk ≢ soft_parity_disk to s
        → member blocks.new disk ≡ copies (seen_by meta.now dirty.now None f) to s disk) }
    ensures sums { OnOk result ((f : Contents)
        → ShowsContents (R.told (store_rack store.old)) (batch.now ++ draft.now) f
        → IsSome (R.told (store_rack store.new)) → sum.old ≡ xor_upto
        (without (copies (seen_by meta.now dirty.now None f) to s) (soft_parity_disk to s)) disk
        → sum.new ≡ xor_upto (without
        (copies (seen_by meta.now dirty.now None f) to s) (soft_parity_disk to s)) (disk + 1)) }
{
    let parity = soft_parity(&meta.setup.geometry, to, s);
    if disk == parity {
        return Ok(());
    }
    let mut block = Block::zero();
    read_copy(store, batch, draft, meta, dirty, to, s, disk, &mut block)?;
    xor_into(sum, &block);
    put(blocks, disk, &block);
    Ok(())
}

/// Reads the blocks of stripe `s` of gear `to`: the copies of its cells, zeros for its pads, and on
/// its parity disk their XOR. It reads each cell once, and names a disk that has failed.
pub(crate) fn gather<R: Rack>(
    store: &mut Store<R>,
    batch: &Batch,
    draft: &Draft,
    meta: &Meta,
    dirty: &DirtyTable,
    to: u8,
    s: u32,
    blocks: &mut [Block; 8],
) -> Result<(), DiskNo>
    requires gathers { CanGather store.old meta.now dirty.now to s }
    ensures read { HaveRead R.slot_count R.slot R.told (disks_of store.old) (lost_by result)
        store.old store.new }
    ensures below { IfErr result (λ e. e < disks_of store.old) }
    ensures value { OnOk result ((f : Contents)
        → ShowsContents (R.told (store_rack store.old)) (batch.now ++ draft.now) f
        → IsSome (R.told (store_rack store.new)) → (e : ℕ)
        → e < to → member blocks.new e ≡ copied_block (seen_by meta.now dirty.now None f) to s e) }
{
    let mut sum = Block::zero();
    for disk in 0..to {
        gather_one(
            store, batch, draft, meta, dirty, to, s, disk, blocks, &mut sum,
        )?;
    }
    put(blocks, soft_parity(&meta.setup.geometry, to, s), &sum);
    Ok(())
}
