//! The value of a cell, whichever one disk is out.
ghost use Rattle.std.specs.Prelude.{◌++◌, ◌≡◌, ◌≢◌, ℕ, ◌+◌, ◌<◌, ◌≤◌, Option, Some, None, OnOk, IfOk, IfErr, IsSome, IsTrue, length, ◌↔◌, true};
ghost use Rattle.paraid_base.specs.Sums.{without, xor_upto};
ghost use Rattle.paraid_rack.specs.Told.{Ran};
ghost use Rattle.paraid_record.specs.Range.{IsInRange};
ghost use Rattle.paraid_image.specs.Out.{first_absent, out_disk};
ghost use Rattle.paraid_image.specs.Spot.{is_hard as hard_in};
ghost use Rattle.paraid_image.specs.Sound.{AreRowsZero, AreStripesZero};
ghost use Rattle.paraid_image.specs.Standing.{Contents};
ghost use Rattle.paraid_txn.specs.Stores.{disks_of, store_rack};
ghost use Rattle.paraid_image.specs.Value.{stored_value as near_of, soft_value, value as value_of};
ghost use Rattle.paraid_view.specs.Reads.{AreOffDisk, CanRead, HaveLostTwo, HaveRead, HaveReadOn, ShowsContents, lost_by, seen_by};

use crate::draft::Draft;
use crate::laid::{read_laid, read_rest};
use crate::spot::is_hard;
use paraid_base::{Block, DiskNo, Out, Row, Two};
use paraid_dirty::DirtyTable;
use paraid_layout::{hard_place, soft_of, soft_place};
use paraid_parity::xor_into;
use paraid_rack::{Power, Rack};
use paraid_record::Meta;
use paraid_txn::{Batch, Store};

/// Whether this disk is out.
pub fn is_at(out: Option<DiskNo>, disk: DiskNo) -> bool
    ensures { IsTrue result ↔ (out ≡ Some disk) }
{
    out == Some(disk)
}

// The copy of a cell, or where it is on the disk that is out the XOR of the rest of its stripe.
fn read_soft<R: Rack>(
    store: &mut Store<R>,
    batch: &Batch,
    draft: &Draft,
    meta: &Meta,
    out: Option<DiskNo>,
    r: Row,
    d: DiskNo,
    into: &mut Block,
) -> Result<(), DiskNo>
    requires in_range { IsInRange meta.now }
    requires row { r < meta.now.setup.geometry.rows }
    requires disk { d < meta.now.setup.geometry.disks }
    requires parked { meta.now.gear ≤ d }
    requires array { meta.now.setup.geometry.disks ≡ disks_of store.old }
    requires ready { CanRead (R.slot_count (store_rack store.old)) (R.slot (store_rack store.old))
        meta.now out }
    ensures read { HaveRead R.slot_count R.slot R.told (disks_of store.old) (lost_by result)
        store.old store.new }
    ensures below { IfErr result (λ e. e < disks_of store.old) }
    ensures failed { IfErr result (λ e. out ≢ Some e) }
    ensures off { Ran
        (R.told (store_rack store.old)) (R.told (store_rack store.new)) (AreOffDisk out) }
    ensures value { OnOk result ((f : Contents) (table : _)
        → ShowsContents (R.told (store_rack store.old)) (batch.now ++ draft.now) f
        → IsSome (R.told (store_rack store.new))
        → into.new ≡ soft_value (seen_by meta.now table out f) r d) }
{
    let g = &meta.setup.geometry;
    let (stripe, disk) = soft_of(g, meta.gear, r, d);
    if is_at(out, disk) {
        return read_rest(store, batch, draft, meta, stripe, disk, into);
    }
    read_laid(
        store,
        batch,
        draft,
        disk,
        soft_place(g, meta.gear, stripe),
        into,
    )
}

// The value of a cell that is not the hard place of the disk that is out.
#[inline(always)]
fn read_near<R: Rack>(
    store: &mut Store<R>,
    batch: &Batch,
    draft: &Draft,
    meta: &Meta,
    dirty: &DirtyTable,
    out: Option<DiskNo>,
    r: Row,
    d: DiskNo,
    into: &mut Block,
) -> Result<(), DiskNo>
    requires in_range { IsInRange meta.now }
    requires row { r < meta.now.setup.geometry.rows }
    requires disk { d < meta.now.setup.geometry.disks }
    requires rows { length dirty.now ≡ meta.now.setup.geometry.rows }
    requires near { (f : Contents) → hard_in (seen_by meta.now dirty.now out f) r d ≡ true
        → out ≢ Some d }
    requires array { meta.now.setup.geometry.disks ≡ disks_of store.old }
    requires ready { CanRead (R.slot_count (store_rack store.old)) (R.slot (store_rack store.old))
        meta.now out }
    ensures read { HaveRead R.slot_count R.slot R.told (disks_of store.old) (lost_by result)
        store.old store.new }
    ensures below { IfErr result (λ e. e < disks_of store.old) }
    ensures failed { IfErr result (λ e. out ≢ Some e) }
    ensures off { Ran
        (R.told (store_rack store.old)) (R.told (store_rack store.new)) (AreOffDisk out) }
    ensures value { OnOk result ((f : Contents)
        → ShowsContents (R.told (store_rack store.old)) (batch.now ++ draft.now) f
        → IsSome (R.told (store_rack store.new))
        → into.new ≡ near_of (seen_by meta.now dirty.now out f) r d) }
{
    if is_hard(meta, dirty, r, d) {
        return read_laid(
            store,
            batch,
            draft,
            d,
            hard_place(&meta.setup.geometry, r),
            into,
        );
    }
    read_soft(store, batch, draft, meta, out, r, d, into)
}

// Adds the value of one cell of a row to a sum, unless it is on the disk that is out or on the one
// that is skipped.
fn add_near<R: Rack>(
    store: &mut Store<R>,
    batch: &Batch,
    draft: &Draft,
    meta: &Meta,
    dirty: &DirtyTable,
    out: DiskNo,
    skipped: DiskNo,
    r: Row,
    d: DiskNo,
    sum: &mut Block,
) -> Result<(), DiskNo>
    requires in_range { IsInRange meta.now }
    requires row { r < meta.now.setup.geometry.rows }
    requires disk { d < meta.now.setup.geometry.disks }
    requires rows { length dirty.now ≡ meta.now.setup.geometry.rows }
    requires array { meta.now.setup.geometry.disks ≡ disks_of store.old }
    requires ready { CanRead (R.slot_count (store_rack store.old)) (R.slot (store_rack store.old))
        meta.now (Some out) }
    ensures read { HaveRead R.slot_count R.slot R.told (disks_of store.old) (lost_by result)
        store.old store.new }
    ensures below { IfErr result (λ e. e < disks_of store.old) }
    ensures failed { IfErr result (λ e. out ≢ e) }
    ensures off { Ran
        (R.told (store_rack store.old)) (R.told (store_rack store.new)) (AreOffDisk (Some out)) }
    ensures value { OnOk result ((f : Contents)
        → ShowsContents (R.told (store_rack store.old)) (batch.now ++ draft.now) f
        → IsSome (R.told (store_rack store.new)) → sum.old ≡ xor_upto
        (without (without (near_of (seen_by meta.now dirty.now (Some out) f) r) out) skipped) d
        → sum.new ≡ xor_upto (without
        (without (near_of (seen_by meta.now dirty.now (Some out) f) r) out) skipped) (d + 1)) }
{
    if d == out || d == skipped {
        return Ok(());
    }
    let mut block = Block::zero();
    read_near(
        store,
        batch,
        draft,
        meta,
        dirty,
        Some(out),
        r,
        d,
        &mut block,
    )?;
    xor_into(sum, &block);
    Ok(())
}

/// The XOR of the values of a row's cells but for that on the disk that is out and that on one
/// other. They may be one disk. It is apart, with room for a block, since most reads have no disk
/// out.
#[inline(never)]
pub fn read_others<R: Rack>(
    store: &mut Store<R>,
    batch: &Batch,
    draft: &Draft,
    meta: &Meta,
    dirty: &DirtyTable,
    out: DiskNo,
    skipped: DiskNo,
    r: Row,
    into: &mut Block,
) -> Result<(), DiskNo>
    requires in_range { IsInRange meta.now }
    requires row { r < meta.now.setup.geometry.rows }
    requires rows { length dirty.now ≡ meta.now.setup.geometry.rows }
    requires array { meta.now.setup.geometry.disks ≡ disks_of store.old }
    requires ready { CanRead (R.slot_count (store_rack store.old)) (R.slot (store_rack store.old))
        meta.now (Some out) }
    ensures read { HaveRead R.slot_count R.slot R.told (disks_of store.old) (lost_by result)
        store.old store.new }
    ensures below { IfErr result (λ e. e < disks_of store.old) }
    ensures failed { IfErr result (λ e. out ≢ e) }
    ensures off { Ran
        (R.told (store_rack store.old)) (R.told (store_rack store.new)) (AreOffDisk (Some out)) }
    ensures value { OnOk result ((f : Contents)
        → ShowsContents (R.told (store_rack store.old)) (batch.now ++ draft.now) f
        → IsSome (R.told (store_rack store.new)) → into.new
        ≡ xor_upto (without (without (near_of (seen_by meta.now dirty.now (Some out) f) r) out)
        skipped) meta.now.setup.geometry.disks) }
{
    *into = Block::zero();
    for d in 0..meta.setup.geometry.disks {
        add_near(store, batch, draft, meta, dirty, out, skipped, r, d, into)?;
    }
    Ok(())
}

/// Reads the value of a cell where this disk is out, or none. It answers another disk where that
/// has failed.
pub fn read_value<R: Rack>(
    store: &mut Store<R>,
    batch: &Batch,
    draft: &Draft,
    meta: &Meta,
    dirty: &DirtyTable,
    out: Option<DiskNo>,
    r: Row,
    d: DiskNo,
    into: &mut Block,
) -> Result<(), DiskNo>
    requires in_range { IsInRange meta.now }
    requires row { r < meta.now.setup.geometry.rows }
    requires disk { d < meta.now.setup.geometry.disks }
    requires rows { length dirty.now ≡ meta.now.setup.geometry.rows }
    requires array { meta.now.setup.geometry.disks ≡ disks_of store.old }
    requires ready { CanRead (R.slot_count (store_rack store.old)) (R.slot (store_rack store.old))
        meta.now out }
    ensures read { HaveRead R.slot_count R.slot R.told (disks_of store.old) (lost_by result)
        store.old store.new }
    ensures below { IfErr result (λ e. e < disks_of store.old) }
    ensures failed { IfErr result (λ e. out ≢ Some e) }
    ensures off { Ran
        (R.told (store_rack store.old)) (R.told (store_rack store.new)) (AreOffDisk out) }
    ensures value { OnOk result ((f : Contents)
        → ShowsContents (R.told (store_rack store.old)) (batch.now ++ draft.now) f
        → IsSome (R.told (store_rack store.new))
        → into.new ≡ value_of (seen_by meta.now dirty.now out f) r d) }
{
    if is_at(out, d) && is_hard(meta, dirty, r, d) {
        return read_others(store, batch, draft, meta, dirty, d, d, r, into);
    }
    read_near(store, batch, draft, meta, dirty, out, r, d, into)
}

/// The disk that is out: the one that this meta names, or else the least absent one.
pub fn out_of<R: Rack>(store: &Store<R>, meta: &Meta) -> Option<DiskNo>
    requires { meta.now.setup.geometry.disks ≤ R.slot_count (store_rack store.now) }
    ensures { result ≡ out_disk (λ d. (R.slot (store_rack store.now) d).power) meta.now }
{
    match meta.out.named() {
        Some(disk) => Some(disk),
        None => store.first_absent(meta.setup.geometry.disks),
    }
}

/// Reads the value of a cell with all that is staged laid over, also where one disk is out or
/// fails in the read. It answers the disk that failed, if one did; where a second disk is down it
/// names both.
pub fn read_cell<R: Rack>(
    store: &mut Store<R>,
    batch: &Batch,
    draft: &Draft,
    meta: &Meta,
    dirty: &DirtyTable,
    r: Row,
    d: DiskNo,
    into: &mut Block,
) -> Result<Option<DiskNo>, Two>
    requires in_range { IsInRange meta.now }
    requires row { r < meta.now.setup.geometry.rows }
    requires disk { d < meta.now.setup.geometry.disks }
    requires rows { length dirty.now ≡ meta.now.setup.geometry.rows }
    requires array { meta.now.setup.geometry.disks ≡ disks_of store.old }
    requires ready { CanRead (R.slot_count (store_rack store.old)) (R.slot (store_rack store.old))
        meta.now (out_disk (λ e. (R.slot (store_rack store.old) e).power) meta.now) }
    ensures read { IfOk result (λ lost. HaveReadOn R.slot_count R.slot R.told (disks_of store.old)
        lost store.old store.new) }
    ensures below { IfOk result (λ lost. (e : ℕ) → lost ≡ Some e → e < disks_of store.old) }
    ensures off { Ran (R.told (store_rack store.old)) (R.told (store_rack store.new))
        (AreOffDisk (out_disk (λ e. (R.slot (store_rack store.old) e).power) meta.now)) }
    ensures one { IfOk result (λ lost. (e : ℕ) → lost ≡ Some e
        → out_disk (λ x. (R.slot (store_rack store.old) x).power) meta.now ≡ None) }
    ensures value { OnOk result ((f : Contents)
        → ShowsContents (R.told (store_rack store.old)) (batch.now ++ draft.now) f
        → IsSome (R.told (store_rack store.new)) → AreRowsZero (seen_by meta.now dirty.now
        (out_disk (λ e. (R.slot (store_rack store.old) e).power) meta.now) f)
        → AreStripesZero (seen_by meta.now dirty.now
        (out_disk (λ e. (R.slot (store_rack store.old) e).power) meta.now) f)
        → into.new ≡ value_of (seen_by meta.now dirty.now
        (out_disk (λ e. (R.slot (store_rack store.old) e).power) meta.now) f) r d) }
    ensures two { IfErr result (λ two.
        HaveLostTwo R.slot_count R.slot R.told (disks_of store.old) (out_disk (λ e.
        (R.slot (store_rack store.old) e).power) meta.now) two store.old store.new) }
{
    let out = out_of(store, meta);
    let Err(lost) = read_value(store, batch, draft, meta, dirty, out, r, d, into) else {
        return Ok(None);
    };
    if let Some(first) = out {
        return Err(Two {
            first,
            second: lost,
        });
    }
    match read_value(store, batch, draft, meta, dirty, Some(lost), r, d, into) {
        Ok(()) => Ok(Some(lost)),
        Err(second) => Err(Two {
            first: lost,
            second,
        }),
    }
}
