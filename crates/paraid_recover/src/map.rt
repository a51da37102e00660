//! The dirty map is read into the table.
ghost use Rattle.std.specs.Prelude.{◌≡◌, ◌≢◌, ℕ, ◌+◌, ◌*◌, ◌<◌, ◌≤◌, [], length, slice_index, Option, Some, None, OnOk, IfOk, IfErr, IsSome, is_ok};
ghost use Rattle.paraid_base.specs.Log.{log_least, map_start};
ghost use Rattle.paraid_base.specs.Regions.{map_count};
ghost use Rattle.paraid_dirty.specs.Bits.{bit_of};
ghost use Rattle.paraid_dirty.specs.Table.{is_dirty};
ghost use Rattle.paraid_rack.specs.declared.call.Call.TheVariants.{Read};
ghost use Rattle.paraid_rack.specs.Told.{GrowsByCall, Ran};
ghost use Rattle.paraid_rack.specs.declared.call.Power.TheVariants.{Spinning};
ghost use Rattle.paraid_image.specs.Out.{or_else};
ghost use Rattle.paraid_image.specs.Spot.{map_disk as map_disk_of};
ghost use Rattle.paraid_image.specs.Standing.{Contents};
ghost use Rattle.paraid_recover.specs.Map.{IsMapReady, IsNarrow, ReadsMap, ReadsMapOf, ShowsMap};
ghost use Rattle.paraid_txn.specs.Losses.{AreFailedOrWell, AreGoneSince};
ghost use Rattle.paraid_txn.specs.Stores.{disks_of, store_out, store_rack};
ghost use Rattle.paraid_txn.specs.Uses.{EachCall};
ghost use Rattle.paraid_view.specs.Reads.{HaveLostTwo, HaveRead, HaveReadOn, ShowsContents, lost_by};

use paraid_base::{Block, DiskNo, Geometry, MAP_START, Place, Row, Two};
use paraid_dirty::DirtyTable;
use paraid_rack::Rack;
use paraid_record::Meta;
use paraid_txn::Store;

// Whether the bit of a disk is set in a byte of the map.
fn has_bit(byte: u8, disk: DiskNo) -> bool
    requires { disk < 8 }
    ensures { result ≡ bit_of byte disk }
{
    byte >> disk & 1 == 1
}

// Takes the bits of a row, if it is one of the table. Most rows have them already.
fn take_row(table: &mut DirtyTable, row: Row, byte: u8)
    ensures rows { length table.new ≡ length table.old }
    ensures here { (d : ℕ) → row < length table.old → d < 8
        → is_dirty table.new row d ≡ bit_of byte d }
    ensures wide { (q d : ℕ) → 8 ≤ d → is_dirty table.new q d ≡ is_dirty table.old q d }
    ensures others { (q d : ℕ) → q ≢ row → is_dirty table.new q d ≡ is_dirty table.old q d }
{
    if row >= table.rows() {
        return;
    }
    if table.row(row) == byte {
        return;
    }
    for disk in 0..8 {
        table.put(row, disk, has_bit(byte, disk));
    }
}

// Takes the bits of 512 rows from a block of the map.
fn take_block(table: &mut DirtyTable, j: u32, block: &Block)
    requires few { j ≤ 128 }
    ensures rows { length table.new ≡ length table.old }
    ensures here { (i d : ℕ) → i < 512 → 512 * j + i < length table.old → d < 8
        → is_dirty table.new (512 * j + i) d ≡ bit_of (slice_index block.now.bytes i) d }
    ensures wide { (q d : ℕ) → 8 ≤ d → is_dirty table.new q d ≡ is_dirty table.old q d }
    ensures before { (q d : ℕ) → q < 512 * j → is_dirty table.new q d ≡ is_dirty table.old q d }
{
    for i in 0..512 {
        let byte = block.as_slice()[i as usize];
        take_row(table, 512 * j + i, byte);
    }
}

// Reads a block of the map. It answers the disk where that has failed.
fn read_block<R: Rack>(
    store: &mut Store<R>,
    disk: DiskNo,
    place: Place,
    into: &mut Block,
) -> Result<(), DiskNo>
    requires exists { disk < R.slot_count (store_rack store.old) }
    requires below { disk < disks_of store.old }
    requires spinning { (R.slot (store_rack store.old) disk).power ≡ Spinning }
    requires within { place < (R.slot (store_rack store.old) disk).size }
    requires past_log { log_least ≤ place }
    ensures read { HaveRead R.slot_count R.slot R.told (disks_of store.old) (lost_by result)
        store.old store.new }
    ensures failed { IfErr result (λ e. e ≡ disk) }
    ensures called { GrowsByCall (R.told (store_rack store.old)) (R.told (store_rack store.new))
        (Read disk place (is_ok result)) }
    ensures value { OnOk result ((f : Contents) → ShowsContents (R.told (store_rack store.old)) [] f
        → IsSome (R.told (store_rack store.new)) → into.new ≡ f disk place) }
{
    let Ok(()) = store.read(disk, place, into) else {
        return Err(disk);
    };
    Ok(())
}

// Reads the map of one disk.
fn read_map_of<R: Rack>(
    store: &mut Store<R>,
    geometry: &Geometry,
    disk: DiskNo,
    table: &mut DirtyTable,
) -> Result<(), DiskNo>
    requires exists { disk < R.slot_count (store_rack store.old) }
    requires below { disk < disks_of store.old }
    requires spinning { (R.slot (store_rack store.old) disk).power ≡ Spinning }
    requires large { map_start geometry.now + map_count geometry.now
        ≤ (R.slot (store_rack store.old) disk).size }
    requires rows { length table.old ≡ geometry.now.rows }
    requires narrow { IsNarrow (is_dirty table.old) }
    ensures rows { length table.new ≡ length table.old }
    ensures narrow { IsNarrow (is_dirty table.new) }
    ensures read { HaveRead R.slot_count R.slot R.told (disks_of store.old) (lost_by result)
        store.old store.new }
    ensures failed { IfErr result (λ e. e ≡ disk) }
    ensures calls { Ran (R.told (store_rack store.old)) (R.told (store_rack store.new))
        (EachCall (ReadsMapOf geometry.now disk)) }
    ensures shows { OnOk result ((f : Contents) → ShowsContents (R.told (store_rack store.old)) [] f
        → IsSome (R.told (store_rack store.new))
        → ShowsMap geometry.now (f disk) (is_dirty table.new)) }
{
    let mut block = Block::zero();
    for j in 0..geometry.map_blocks() {
        read_block(store, disk, MAP_START + j, &mut block)?;
        take_block(table, j, &block);
    }
    Ok(())
}

// The lower log disk that is not out.
fn map_disk(out: Option<DiskNo>) -> DiskNo
    ensures { result ≡ map_disk_of out }
{
    match out {
        Some(0) => 1,
        _ => 0,
    }
}

/// Reads the dirty map into the table: that of the lower log disk that is not out; where it fails,
/// that of the other one.
///
/// It answers the disk that failed, if one did; where a second disk is down it names both.
pub fn read_map<R: Rack>(
    store: &mut Store<R>,
    meta: &Meta,
    table: &mut DirtyTable,
) -> Result<Option<DiskNo>, Two>
    requires logs { 2 ≤ disks_of store.old }
    requires exists { disks_of store.old ≤ R.slot_count (store_rack store.old) }
    requires ready { IsMapReady meta.now.setup.geometry (R.slot (store_rack store.old))
        (store_out R.slot store.old) }
    requires rows { length table.old ≡ meta.now.setup.geometry.rows }
    requires narrow { IsNarrow (is_dirty table.old) }
    ensures rows { length table.new ≡ length table.old }
    ensures narrow { IsNarrow (is_dirty table.new) }
    ensures read { IfOk result (λ lost. HaveReadOn R.slot_count R.slot R.told (disks_of store.old)
        lost store.old store.new) }
    ensures each { AreFailedOrWell (R.slot (store_rack store.old)) (R.slot (store_rack store.new)) }
    ensures calls { Ran (R.told (store_rack store.old)) (R.told (store_rack store.new))
        (EachCall (ReadsMap meta.now.setup.geometry (store_out R.slot store.old))) }
    ensures alone { IfOk result (λ lost. (e : ℕ) → lost ≡ Some e
        → (e < disks_of store.old) × (store_out R.slot store.old ≡ None)) }
    ensures two { IfErr result (λ two. HaveLostTwo R.slot_count R.slot R.told (disks_of store.old)
        (store_out R.slot store.old) two store.old store.new) }
    ensures gone { IfErr result (AreGoneSince (λ d. store_out R.slot store.old ≡ Some d)
        (R.slot (store_rack store.old)) (R.slot (store_rack store.new))) }
    ensures shows { IfOk result (λ lost. (f : Contents)
        → ShowsContents (R.told (store_rack store.old)) [] f
        → IsSome (R.told (store_rack store.new)) → ShowsMap meta.now.setup.geometry
        (f (map_disk_of (or_else (store_out R.slot store.old) lost))) (is_dirty table.new)) }
{
    let out = store.out();
    let geometry = &meta.setup.geometry;
    let disk = map_disk(out);
    let Err(lost) = read_map_of(store, geometry, disk, table) else {
        return Ok(None);
    };
    if let Some(first) = out {
        return Err(Two {
            first,
            second: lost,
        });
    }
    match read_map_of(store, geometry, 1, table) {
        Ok(()) => Ok(Some(lost)),
        Err(second) => Err(Two {
            first: lost,
            second,
        }),
    }
}
