//! The units of the disk that is rebuilt are copied past the log, and marked once they are synced.
ghost use Rattle.std.specs.Prelude.{◌≡◌, ◌≢◌, ℕ, ◌+◌, ◌<◌, ◌≤◌, ◌++◌, List, Bool, Option, true, false, [], length, None, Some, OnOk, IfErr, IsSome, Ok};
ghost use Rattle.paraid_base.specs.declared.state.Out.TheVariants.{Fresh};
ghost use Rattle.paraid_base.specs.History.{History};
ghost use Rattle.paraid_base.specs.Log.{log_least};
ghost use Rattle.paraid_base.specs.Regions.{disk_size};
ghost use Rattle.paraid_base.specs.States.{gone_out, has_out, rebuilt_count};
ghost use Rattle.paraid_core.specs.CoreInvariant.{AreCopiesSynced};
ghost use Rattle.paraid_core.specs.Fills.{KeepsFilled};
ghost use Rattle.paraid_core.specs.Steps.{IsStillOut};
ghost use Rattle.paraid_core.specs.Units.{CopyingUnit, IsRebuilding, IsUnitNumber, KeepsRebuilt, UnitsRebuilt, rebuilt_block, rebuilt_place};
ghost use Rattle.paraid_dirty.specs.Table.{is_dirty};
ghost use Rattle.paraid_image.specs.Mark.{meta_after_loss};
ghost use Rattle.paraid_image.specs.Out.{named_out as named_out_of};
ghost use Rattle.paraid_image.specs.Standing.{Contents};
ghost use Rattle.paraid_moves.specs.MoveMetas.{meta_with_out};
ghost use Rattle.paraid_rack.specs.declared.call.Power.TheVariants.{Spinning};
ghost use Rattle.paraid_rack.specs.Disks.{Disks};
ghost use Rattle.paraid_rack.specs.Told.{Ran, CrashTriple};
ghost use Rattle.paraid_record.specs.declared.meta.Meta.{Meta as MetaType};
ghost use Rattle.paraid_record.specs.Range.{IsInRange, rebuild_units as units_of_rebuild};
ghost use Rattle.paraid_txn.specs.Losses.{IsLostNow};
ghost use Rattle.paraid_txn.specs.Stores.{disks_of, named_of, store_rack as rack_of_store};
ghost use Rattle.paraid_view.specs.Reads.{CanRead, HaveRead, ShowsContents, lost_by, seen_by};
ghost use Rattle.paraid_core.specs.declared.units.RebuildUnit.TheVariants.{Row as RowUnit};
ghost use Rattle.paraid_core.specs.Answers.{LosesGiven};
ghost use Rattle.paraid_core.specs.Copying.{CopiesOrLoses, CopiesPastLog};
ghost use Rattle.paraid_core.specs.Marking.{OnlyMarks};
ghost use Rattle.paraid_core.specs.Serving.{IsCoreInService};

use crate::fill::mark;
use crate::staged::{Core, put_out};
use paraid_base::{Block, DiskNo, MAP_START, Out, Place, Two};
use paraid_dirty::DirtyTable;
use paraid_layout::{hard_place, soft_place};
use paraid_rack::Rack;
use paraid_record::Meta;
use paraid_txn::{Batch, Store};
use paraid_view::{Draft, read_laid, read_rest, read_value};

/// What one unit of a rebuild stores: a row's block, a stripe's, or one of the dirty map.
#[derive(Clone, Copy)]
pub enum RebuildUnit {
    Row { row: u32 },
    Stripe { stripe: u32 },
    MapBlock { block: u32 },
}

// The disk that is being rebuilt.
fn fresh_disk(out: Out) -> DiskNo
    requires out { has_out out ≡ true }
    requires back { gone_out out ≡ None }
    ensures { out ≡ Fresh result (rebuilt_count out) }
{
    match out {
        Out::Fresh { disk, .. } | Out::Gone { disk } => disk,
        Out::No => 0,
    }
}

// The unit of this number.
fn unit_of(meta: &Meta, disk: DiskNo, number: u32) -> RebuildUnit
    requires in_range { IsInRange meta.now }
    requires number { number < units_of_rebuild meta.now.setup.geometry meta.now.gear disk }
    ensures { IsUnitNumber meta.now disk number result }
{
    let g = &meta.setup.geometry;
    if number < g.rows() {
        return RebuildUnit::Row { row: number };
    }
    let past = number - g.rows();
    if disk >= meta.gear {
        return RebuildUnit::MapBlock { block: past };
    }
    let stripes = g.stripes(meta.gear);
    if past < stripes {
        return RebuildUnit::Stripe { stripe: past };
    }
    RebuildUnit::MapBlock {
        block: past - stripes,
    }
}

// Where a unit stands on its disk.
fn place_of_unit(meta: &Meta, disk: DiskNo, number: u32, unit: RebuildUnit) -> Place
    requires in_range { IsInRange meta.now }
    requires unit { IsUnitNumber meta.now disk number unit }
    ensures value { result ≡ rebuilt_place meta.now unit }
    ensures past_log { log_least ≤ result }
    ensures within { result < disk_size meta.now.setup.geometry }
{
    let g = &meta.setup.geometry;
    match unit {
        RebuildUnit::Row { row } => hard_place(g, row),
        RebuildUnit::Stripe { stripe } => soft_place(g, meta.gear, stripe),
        RebuildUnit::MapBlock { block } => MAP_START + block,
    }
}

// Whether a unit is passed over: the dirty cell of a disk from the gear on, which is stored nowhere
// but in its copy.
fn is_passed(meta: &Meta, dirty: &DirtyTable, disk: DiskNo, number: u32, unit: RebuildUnit) -> bool
    requires unit { IsUnitNumber meta.now disk number unit }
    requires disk { disk < 8 }
    requires rows { length dirty.now ≡ meta.now.setup.geometry.rows }
    ensures passed { result ≡ true → (unit ≡ RowUnit number) × (meta.now.gear ≤ disk)
        × (is_dirty dirty.now number disk ≡ true) }
    ensures copied { result ≡ false → number < meta.now.setup.geometry.rows → meta.now.gear ≤ disk
        → is_dirty dirty.now number disk ≡ false }
{
    match unit {
        RebuildUnit::Row { row } => disk >= meta.gear && dirty.has(row, disk),
        RebuildUnit::Stripe { .. } | RebuildUnit::MapBlock { .. } => false,
    }
}

// Reads what a unit of the disk that is out stores, from the other disks. It names one of them that
// has failed.
fn read_unit<R: Rack>(
    store: &mut Store<R>,
    batch: &Batch,
    draft: &Draft,
    meta: &Meta,
    dirty: &DirtyTable,
    disk: DiskNo,
    number: u32,
    unit: RebuildUnit,
    into: &mut Block,
) -> Result<(), DiskNo>
    requires in_range { IsInRange meta.now }
    requires disk { disk < meta.now.setup.geometry.disks }
    requires unit { IsUnitNumber meta.now disk number unit }
    requires rows { length dirty.now ≡ meta.now.setup.geometry.rows }
    requires array { meta.now.setup.geometry.disks ≡ disks_of store.old }
    requires ready { CanRead (R.slot_count (rack_of_store store.old))
        (R.slot (rack_of_store store.old)) meta.now (Some disk) }
    ensures read { HaveRead R.slot_count R.slot R.told (disks_of store.old) (lost_by result)
        store.old store.new }
    ensures below { IfErr result (λ e. e < disks_of store.old) }
    ensures failed { IfErr result (λ e. e ≢ disk) }
    ensures value { OnOk result ((f : Contents)
        → ShowsContents (R.told (rack_of_store store.old)) (batch.now ++ draft.now) f
        → IsSome (R.told (rack_of_store store.new))
        → into.new ≡ rebuilt_block (seen_by meta.now dirty.now (Some disk) f) disk unit) }
{
    match unit {
        RebuildUnit::Row { row } => read_value(
            store,
            batch,
            draft,
            meta,
            dirty,
            Some(disk),
            row,
            disk,
            into,
        ),
        RebuildUnit::Stripe { stripe } => read_rest(store, batch, draft, meta, stripe, disk, into),
        RebuildUnit::MapBlock { block } => {
            read_laid(store, batch, draft, 1 - disk, MAP_START + block, into)
        }
    }
}

impl<R: Rack> Core<R> {
    ghost use Rattle.paraid_core.specs.Cores.{IsCoreHeldSinceCommit, IsCoreReady, CanCoreServe, CoreStandsFor, batch_of, copied_of, core_table, draft_of, meta_of, core_rack, store_of};

    // Writes what a unit stores to its place of the disk that is rebuilt. False where that disk was
    // lost.
    fn write_unit(
        &mut self,
        disk: DiskNo,
        number: u32,
        unit: RebuildUnit,
        block: &Block,
    ) -> Result<bool, Two>
        requires ready { IsCoreReady R.slot_count R.slot self.old }
        requires still { IsStillOut (named_of (store_of self.old)) (meta_of self.old) }
        requires fresh { IsRebuilding (meta_of self.old) disk }
        requires unit { IsUnitNumber (meta_of self.old) disk number unit }
        requires from { rebuilt_count (meta_of self.old).out ≤ number }
        requires spins { (R.slot (core_rack self.old) disk).power ≡ Spinning }
        requires nothing { batch_of self.old ≡ [] }
        ensures copies { CopiesPastLog self.old self.new result }
        ensures spins { result ≡ Ok true → (R.slot (core_rack self.new) disk).power ≡ Spinning }
        ensures held { CopiesOrLoses self.old self.new result
            (λ h lo. CopyingUnit R.slot_count self.old h lo number disk unit block.now)
            (λ h lo. UnitsRebuilt R.slot_count self.new h lo (number + 1)) }
        ensures loses { LosesGiven disk self.old self.new result }
    {
        let place = place_of_unit(&self.meta, disk, number, unit);
        let answer = self.store.write_free(disk, place, block);
        mark(&mut self.copied, disk);
        let Err(_) = answer else {
            return Ok(true);
        };
        put_out(&mut self.meta, disk)
    }

    // Reads what a unit stores, and writes it.
    fn copy_unit(&mut self, disk: DiskNo, number: u32, unit: RebuildUnit) -> Result<bool, Two>
        requires serving { IsCoreInService self.old }
        requires no_draft { draft_of self.old ≡ [] }
        requires fresh { IsRebuilding (meta_of self.old) disk }
        requires unit { IsUnitNumber (meta_of self.old) disk number unit }
        requires from { rebuilt_count (meta_of self.old).out ≤ number }
        requires spins { (R.slot (core_rack self.old) disk).power ≡ Spinning }
        requires nothing { batch_of self.old ≡ [] }
        ensures copies { CopiesPastLog self.old self.new result }
        ensures spins { result ≡ Ok true → (R.slot (core_rack self.new) disk).power ≡ Spinning }
        ensures held { CopiesOrLoses self.old self.new result
            (λ h lo. UnitsRebuilt R.slot_count self.old h lo number)
            (λ h lo. UnitsRebuilt R.slot_count self.new h lo (number + 1)) }
        ensures loses { LosesGiven disk self.old self.new result }
    {
        let mut block = Block::zero();
        let Err(second) = read_unit(
            &mut self.store,
            &self.batch,
            &self.draft,
            &self.meta,
            &self.dirty,
            disk,
            number,
            unit,
            &mut block,
        ) else {
            return self.write_unit(disk, number, unit, &block);
        };
        Err(Two {
            first: disk,
            second,
        })
    }

    /// Copies one unit of the disk that is rebuilt past the log, by what the other disks give, with
    /// one write. The dirty cell of a disk from the gear on is a unit that writes nothing.
    ///
    /// True once the unit is copied. False where the disk that is rebuilt was lost: it is gone from
    /// then on.
    pub fn rebuild_unit(&mut self, number: u32) -> Result<bool, Two>
        requires serving { IsCoreInService self.old }
        requires no_draft { draft_of self.old ≡ [] }
        requires out { has_out (meta_of self.old).out ≡ true }
        requires back { gone_out (meta_of self.old).out ≡ None }
        requires from { rebuilt_count (meta_of self.old).out ≤ number }
        requires unit { (d : ℕ) → named_out_of (meta_of self.old).out ≡ Some d → number
            < units_of_rebuild (meta_of self.old).setup.geometry (meta_of self.old).gear d }
        requires spins { (d : ℕ) → named_out_of (meta_of self.old).out ≡ Some d
            → (R.slot (core_rack self.old) d).power ≡ Spinning }
        requires nothing { batch_of self.old ≡ [] }
        ensures copies { CopiesPastLog self.old self.new result }
        ensures spins { result ≡ Ok true → (d : ℕ) → named_out_of (meta_of self.old).out ≡ Some d
            → (R.slot (core_rack self.new) d).power ≡ Spinning }
        // No call is made for the dirty cell of a disk from the gear on.
        ensures passed { (d : ℕ) → named_out_of (meta_of self.old).out ≡ Some d
            → (meta_of self.old).gear ≤ d → number < (meta_of self.old).setup.geometry.rows
            → is_dirty (core_table self.old) number d ≡ true
            → core_rack self.new ≡ core_rack self.old }
        ensures held { CopiesOrLoses self.old self.new result
            (λ h lo. UnitsRebuilt R.slot_count self.old h lo number)
            (λ h lo. UnitsRebuilt R.slot_count self.new h lo (number + 1)) }
        // The disk that is rebuilt has failed, and is gone.
        ensures gone { result ≡ Ok false → (d : ℕ) → named_out_of (meta_of self.old).out ≡ Some d
            → meta_of self.new ≡ meta_after_loss (meta_of self.old) d }
        ensures failed { result ≡ Ok false → (d : ℕ) → named_out_of (meta_of self.old).out ≡ Some d
            → IsLostNow (R.slot (core_rack self.old)) (R.slot (core_rack self.new)) d }
    {
        let disk = fresh_disk(self.meta.out);
        let unit = unit_of(&self.meta, disk, number);
        if is_passed(&self.meta, &self.dirty, disk, number, unit) {
            return Ok(true);
        }
        self.copy_unit(disk, number, unit)
    }

    /// Marks the units below `end` of the disk that is rebuilt. They are copied, and each copy is
    /// synced.
    pub fn mark_rebuilt(&mut self, end: u32)
        requires ready { IsCoreReady R.slot_count R.slot self.old }
        requires out { has_out (meta_of self.old).out ≡ true }
        requires back { gone_out (meta_of self.old).out ≡ None }
        requires nothing { batch_of self.old ≡ [] }
        requires limit { (d : ℕ) → named_out_of (meta_of self.old).out ≡ Some d
            → end ≤ units_of_rebuild (meta_of self.old).setup.geometry (meta_of self.old).gear d }
        requires copies_synced { AreCopiesSynced
            (meta_of self.old).setup.geometry.disks (copied_of self.old) }
        ensures meta { (d : ℕ) → named_out_of (meta_of self.old).out ≡ Some d
            → meta_of self.new ≡ meta_with_out (meta_of self.old) (Fresh d end) }
        ensures marks { OnlyMarks self.old self.new }
        ensures serves { CanCoreServe R.slot self.old → CanCoreServe R.slot self.new }
        ensures stands { (h : History) (lo : ℕ)
            → Ran (R.told (core_rack self.old)) (R.told (core_rack self.new))
            (CrashTriple (IsCoreHeldSinceCommit R.slot_count self.old h lo) (UnitsRebuilt
            R.slot_count self.old h lo end) (CoreStandsFor R.slot_count self.new h lo)) }
    {
        let disk = fresh_disk(self.meta.out);
        self.meta.out = Out::Fresh { disk, rebuilt: end };
    }
}

/// Where nothing is staged, copies of units can begin: those that are marked are copied. And copies
/// of stripes and of cells could begin again, whichever units are copied.
pub fn units_are_copied_beside_stripes()
    ensures units { (slots : ℕ) (named : Option ℕ) (m : MetaType)
        (table : List (List Bool)) (copied : List Bool) (h : History) (lo : ℕ) (s : Disks)
        → KeepsFilled slots named m table copied h lo m.fill s
        → KeepsRebuilt slots named m table copied h lo (rebuilt_count m.out) s }
    ensures stripes { (slots : ℕ) (named : Option ℕ) (m : MetaType)
        (table : List (List Bool)) (copied : List Bool) (h : History) (lo end : ℕ) (s : Disks)
        → KeepsRebuilt slots named m table copied h lo end s
        → KeepsFilled slots named m table copied h lo m.fill s }
{}
