//! A mount: an array of the disks that a rack brings, or why there is none.
ghost use Rattle.std.specs.Prelude.{◌≡◌, ℕ, ◌<◌, ◌≤◌, ◌⊎◌, [], false, length, Option, Some, None, IfErr, IfOk};
ghost use Rattle.paraid_dirty.specs.Table.{is_dirty};
ghost use Rattle.paraid_base.specs.declared.fault.Two.{Two as TwoType};
ghost use Rattle.paraid_base.specs.Log.{worn_at};
ghost use Rattle.paraid_recover.specs.declared.mount_fault.MountFault.TheVariants.{Two as BothMissing};
ghost use Rattle.paraid_txn.specs.Resume.{CanResume};
ghost use Rattle.paraid_image.specs.Sides.{log_state, LogState};
ghost use Rattle.paraid_rack.specs.declared.call.Power.TheVariants.{Absent};
ghost use Rattle.paraid_rack.specs.Disks.{is_present};
ghost use Rattle.paraid_record.specs.declared.meta.Meta.{Meta as MetaType};
ghost use Rattle.paraid_record.specs.Range.{IsInRange};
ghost use Rattle.paraid_rack.specs.Trail.{Trail};
ghost use Rattle.paraid_image.specs.Lost.{EndsBySecond};
ghost use Rattle.paraid_image.specs.Out.{named_out};
ghost use Rattle.paraid_recover.specs.Bearing.{EndsBorne, IsNamedLog};
ghost use Rattle.paraid_txn.specs.Borne.{IsBorneNow};
ghost use Rattle.paraid_recover.specs.EndOfMount.{IsMarkAtEnd, IsMarkAtMoment, KeepsDirty};
ghost use Rattle.paraid_recover.specs.HeldMoments.{EndsHeld, IsOutAtEnd, Recovers, ShowsAtEnd};
ghost use Rattle.paraid_recover.specs.Map.{HasMap, HasMapAtEnd, IsNarrow};
ghost use Rattle.paraid_recover.specs.RecoveryMark.{to_mark, with_mark};
ghost use Rattle.paraid_recover.specs.Powers.{IsPowerCall};
ghost use Rattle.paraid_recover.specs.Quiet.{WritesOnlyLogs};
ghost use Rattle.paraid_rack.specs.Told.{Ran};
ghost use Rattle.paraid_rack.specs.Calls.{IsTransfer};
ghost use Rattle.paraid_txn.specs.Uses.{EachCall};
ghost use Rattle.paraid_recover.specs.Mount.{HasMounted, IsCauseOfRefusal};
ghost use Rattle.paraid_recover.specs.Mounted.{IsFit, IsServable, IsStandingWithLoss, with_loss as with_loss_of};
ghost use Rattle.paraid_recover.specs.Steps.{CanSettle, HasStood, KeepsPowered, MountsOn, RecoversOn};
ghost use Rattle.paraid_txn.specs.Losses.{AreGoneSince, IsOutOfCommit, AreTwoDownBeside};
ghost use Rattle.paraid_txn.specs.Steps.{KeepsStore};
ghost use Rattle.paraid_txn.specs.Stores.{disks_of, epoch_of, named_of, store_out, store_rack};

use crate::examining::examine;
use crate::map::read_map;
use crate::marking::marked;
use crate::mount_fault::MountFault;
use crate::powering::power_disks;
use crate::recovery::{mark_out, unmarked};
use crate::standing::Standing;
use crate::witness::heed;
use paraid_base::Two;
use paraid_dirty::DirtyTable;
use paraid_rack::Rack;
use paraid_record::Meta;
use paraid_txn::{Batch, Store};
use std::alloc::Global;

// After an interrupted commit was ended: the map is read, all disks are synced, an absent disk is
// marked, a meta of version 1 is brought to version 2, and witness is borne against a log disk that
// was named out. It gives the meta that stands then.
fn settle<R: Rack>(
    store: &mut Store<R>,
    nothing: &Batch,
    meta: &Meta,
    table: &mut DirtyTable,
) -> Result<Meta, Two>
    requires empty { nothing.now ≡ [] }
    requires can { CanSettle store.old meta.now table.old }
    ensures rows { length table.new ≡ length table.old }
    ensures narrow { IsNarrow (is_dirty table.new) }
    ensures kept { KeepsStore (IsOutOfCommit (λ e. (R.slot (store_rack store.old) e).power)
        meta.now.setup.geometry.disks (named_out meta.now.out) None) store.old store.new result }
    ensures recovers { RecoversOn meta.now store.old store.new }
    ensures stood { IfOk result (HasStood store.new) }
    ensures given { IfOk result (λ m. (lost : Option ℕ) × (m ≡ with_mark meta.now lost)
        × ((d : ℕ) → lost ≡ Some d → (is_present (R.slot (store_rack store.new) d).power ≡ false)
        × (d < meta.now.setup.geometry.disks)) × ((d : ℕ) → lost ≡ Some d
        → (e : ℕ) → named_out meta.now.out ≡ Some e → e ≡ d) × IsMarkAtMoment meta.now lost
        (R.told (store_rack store.old)) (R.told (store_rack store.new))) }
    ensures still { Ran (R.told (store_rack store.old)) (R.told (store_rack store.new))
        (EachCall WritesOnlyLogs) }
    ensures ends { IfOk result (λ m. (slots x : ℕ) (said : LogState) (old : Option Trail)
        → said.meta ≡ meta.now → Recovers slots x said old (R.told (store_rack store.old))
        → EndsHeld slots x said m old (R.told (store_rack store.new))) }
    ensures map { IfOk result (λ m. HasMap meta.now.setup.geometry (store_out R.slot store.old)
        (R.slot (store_rack store.new)) (is_dirty table.new) (R.told (store_rack store.old))
        (R.told (store_rack store.new))) }
    // witness is borne against the log disk that the meta named out
    ensures borne { IfOk result (λ m. IsBorneNow (named_out meta.now.out)
        (R.told (store_rack store.new))) }
    // and so it is where a history was held, against the one that is named out then
    ensures marked { IfOk result (λ m. (slots x : ℕ) (said : LogState) (old : Option Trail)
        → said.meta ≡ meta.now → Recovers slots x said old (R.told (store_rack store.old))
        → EndsBorne (IsNamedLog (named_of store.new)) slots x said old
        (R.told (store_rack store.new))) }
{
    if let Err(two) = read_map(store, meta, table) {
        return Err(two);
    }
    if let Err(two) = store.sync_all(meta.out.gone()) {
        return Err(two);
    }
    match mark_out(store, nothing, meta) {
        Ok(marked) => Ok(marked),
        Err(two) => Err(two),
    }
}

// The meta that stands, with a disk that was lost since marked in memory.
fn with_loss<R: Rack>(store: &Store<R>, meta: &Meta) -> Meta
    requires named { named_of store.now ≡ named_out meta.now.out }
    requires in_range { IsInRange meta.now }
    requires exists { meta.now.setup.geometry.disks ≤ R.slot_count (store_rack store.now) }
    requires disks { disks_of store.now ≡ meta.now.setup.geometry.disks }
    ensures { result ≡ with_loss_of meta.now
        (to_mark (λ d. (R.slot (store_rack store.now) d).power) meta.now) }
{
    match unmarked(store, meta) {
        None => *meta,
        Some(disk) => marked(meta, disk),
    }
}

// The last steps: after those above the disks are powered by the gear. It gives the meta with which
// the array is served.
fn raise<R: Rack>(
    store: &mut Store<R>,
    nothing: &Batch,
    meta: &Meta,
    table: &mut DirtyTable,
) -> Result<Meta, Two>
    requires empty { nothing.now ≡ [] }
    requires can { CanSettle store.old meta.now table.old }
    ensures rows { length table.new ≡ length table.old }
    ensures narrow { IsNarrow (is_dirty table.new) }
    ensures kept { KeepsPowered (IsOutOfCommit (λ e. (R.slot (store_rack store.old) e).power)
        meta.now.setup.geometry.disks (named_out meta.now.out) None) store.old store.new result }
    ensures recovers { RecoversOn meta.now store.old store.new }
    ensures servable { IfOk result (λ m. IsServable (R.slot_count (store_rack store.new))
        (R.slot (store_rack store.new)) (epoch_of store.new) (disks_of store.new)
        (named_of store.new) m (length table.new)) }
    ensures split { (mid : Option Trail)
        × Ran (R.told (store_rack store.old)) mid (EachCall IsTransfer)
        × ((R.told (store_rack store.new) ≡ mid)
        ⊎ ((mark : Option ℕ) × ((slots x : ℕ) (said : LogState) (old : Option Trail)
        → said.meta ≡ meta.now → Recovers slots x said old (R.told (store_rack store.old))
        → EndsHeld slots x said (with_mark meta.now mark) old mid) × ((said : LogState)
        → said.meta ≡ meta.now → IsOutAtEnd said (with_mark meta.now mark) mid) × Ran mid
        (R.told (store_rack store.new)) (EachCall (IsPowerCall (with_mark meta.now mark))))) }
    ensures ends { IfOk result (λ m. (standing : MetaType) × (lost : Option ℕ)
        × (m ≡ with_loss_of standing lost) × (standing.setup ≡ meta.now.setup) × ((d : ℕ)
        → named_out meta.now.out ≡ Some d → named_out standing.out ≡ Some d)
        × (standing.version ≡ 2)
        × ((mark : Option ℕ) × (standing ≡ with_mark meta.now mark) × IsMarkAtMoment meta.now mark
        (R.told (store_rack store.old)) (R.told (store_rack store.new)))
        × ((slots x : ℕ) (said : LogState) (old : Option Trail)
        → said.meta ≡ meta.now → Recovers slots x said old (R.told (store_rack store.old))
        → EndsHeld slots x said standing old (R.told (store_rack store.new)))
        × IsMarkAtEnd standing lost (R.told (store_rack store.new))
        × IsStandingWithLoss (R.slot (store_rack store.new)) (named_of store.new) standing m) }
    ensures map { IfOk result (λ m. HasMap meta.now.setup.geometry (store_out R.slot store.old)
        (R.slot (store_rack store.new)) (is_dirty table.new) (R.told (store_rack store.old))
        (R.told (store_rack store.new))) }
    ensures out { IfOk result (λ m. (d : ℕ) → named_out m.out ≡ Some d
        → (named_out meta.now.out ≡ Some d)
        ⊎ ((R.slot (store_rack store.new) d).power ≡ Absent)) }
    ensures borne { IfOk result (λ m. IsBorneNow (named_out meta.now.out)
        (R.told (store_rack store.new))) }
    ensures marked { IfOk result (λ m. (slots x : ℕ) (said : LogState) (old : Option Trail)
        → said.meta ≡ meta.now → Recovers slots x said old (R.told (store_rack store.old))
        → EndsBorne (IsNamedLog (named_of store.new)) slots x said old
        (R.told (store_rack store.new))) }
{
    let standing = match settle(store, nothing, meta, table) {
        Ok(standing) => standing,
        Err(two) => return Err(two),
    };
    if let Err(two) = power_disks(store, &standing) {
        return Err(two);
    }
    Ok(with_loss(store, &standing))
}

/// An array that was mounted.
#[derive(Drop)]
pub struct Mounted<R: Rack> {
    pub store: Store<R>,
    /// The meta that stands, with the marks that are in memory alone.
    pub meta: Meta,
    pub dirty: DirtyTable,
    /// Room for a batch, in which nothing is staged.
    pub batch: Batch,
}

/// A rack is not mounted, and is handed back.
#[derive(Drop)]
pub struct MountRefused<R: Rack> {
    pub fault: MountFault,
    pub rack: R,
}

// The interrupted commit is ended, and all steps after it are made.
fn bring_up<R: Rack>(
    rack: R,
    standing: &Standing,
    batch: Batch,
    dirty: DirtyTable,
) -> Result<Mounted<R>, MountRefused<R>>
    requires can { CanResume (R.slot_count rack) (R.slot rack) standing.now.side
        standing.now.gate_open batch standing.now.meta }
    requires fit { IsFit (R.slot_count rack) (R.slot rack) standing.now.meta }
    requires few { standing.now.meta.epoch < worn_at }
    requires rows { length dirty ≡ standing.now.meta.setup.geometry.rows }
    requires narrow { IsNarrow (is_dirty dirty) }
    ensures mounts { IfOk result (λ it. MountsOn R.Rack standing.now.side
        (log_state standing.now.gate_open standing.now.meta batch) rack (store_rack it.store)) }
    ensures refused { IfErr result (λ refused. MountsOn R.Rack standing.now.side
        (log_state standing.now.gate_open standing.now.meta batch) rack refused.rack) }
    ensures servable { IfOk result (λ it. IsServable (R.slot_count (store_rack it.store))
        (R.slot (store_rack it.store)) (epoch_of it.store) (disks_of it.store)
        (named_of it.store) it.meta (length it.dirty)) }
    ensures nothing { IfOk result (λ it. it.batch ≡ []) }
    ensures two { IfErr result (λ refused. (two : TwoType) × (refused.fault ≡ BothMissing two)
        × AreTwoDownBeside (IsOutOfCommit (λ e. (R.slot rack e).power)
        standing.now.meta.setup.geometry.disks (named_out standing.now.meta.out) None)
        (R.slot rack) (R.slot refused.rack) two × AreGoneSince
        (IsOutOfCommit (λ e. (R.slot rack e).power) standing.now.meta.setup.geometry.disks
        (named_out standing.now.meta.out) None) (R.slot rack) (R.slot refused.rack) two
        × Ran (R.told rack) (R.told refused.rack) (λ start calls. EndsBySecond two calls)) }
    ensures ends { IfOk result (λ it. (stands : MetaType) × (lost : Option ℕ)
        × (it.meta ≡ with_loss_of stands lost) × (stands.version ≡ 2)
        × ((mark : Option ℕ) × (stands ≡ with_mark standing.now.meta mark)
        × IsMarkAtMoment standing.now.meta mark (R.told rack) (R.told (store_rack it.store)))
        × ((slots : ℕ) → EndsHeld slots
        standing.now.side (log_state standing.now.gate_open standing.now.meta batch) stands
        (R.told rack) (R.told (store_rack it.store)))
        × ((slots : ℕ) → ShowsAtEnd slots standing.now.side
        (log_state standing.now.gate_open standing.now.meta batch) stands (is_dirty it.dirty)
        (R.told rack) (R.told (store_rack it.store)))
        × IsMarkAtEnd stands lost (R.told (store_rack it.store))
        × ((slots : ℕ) → KeepsDirty slots standing.now.side
        (log_state standing.now.gate_open standing.now.meta batch) stands
        (R.told rack) (R.told (store_rack it.store)))
        × IsStandingWithLoss (R.slot (store_rack it.store)) (named_of it.store) stands it.meta) }
    ensures map { IfOk result (λ it. HasMapAtEnd (R.slot rack)
        (R.slot (store_rack it.store)) it.meta (is_dirty it.dirty) (R.told (store_rack it.store))) }
    ensures borne { IfOk result (λ it. IsBorneNow (named_out standing.now.meta.out)
        (R.told (store_rack it.store))) }
    ensures marked { IfOk result (λ it. (slots : ℕ) → EndsBorne (IsNamedLog (named_of it.store))
        slots standing.now.side (log_state standing.now.gate_open standing.now.meta batch)
        (R.told rack) (R.told (store_rack it.store))) }
{
    let meta = &standing.meta;
    let mut store = match Store::resume(rack, standing.side, standing.gate_open, &batch, meta) {
        Ok(store) => store,
        Err(refused) => {
            return Err(MountRefused {
                fault: MountFault::Two(refused.two),
                rack: refused.rack,
            });
        }
    };
    let mut batch = batch;
    batch.clear();
    let mut dirty = dirty;
    match raise(&mut store, &batch, meta, &mut dirty) {
        Ok(meta) => Ok(Mounted {
            store,
            meta,
            dirty,
            batch,
        }),
        Err(two) => Err(MountRefused {
            fault: MountFault::Two(two),
            rack: store.close(),
        }),
    }
}

/// Mounts an array: it examines what both log disks say, heeds a witness against the one that
/// stands alone, ends a commit that was interrupted, reads the dirty map, syncs all disks, marks an
/// absent one, bears witness against a log disk that was named out, and powers the others by the
/// gear. A meta of version 1 comes to version 2, by the commit that marks a disk or by one of its
/// own.
///
/// The memory for the dirty table is taken after reads alone and before the first write, that for
/// the batch of the second log disk before all. What was in `batch` is dropped. A disk that fails
/// goes out; where a second one is down, the mount names both.
pub fn mount_with<R: Rack>(
    alloc: Global,
    batch: Batch,
    rack: R,
) -> Result<Mounted<R>, MountRefused<R>>
    ensures slots { IfOk result (λ it. R.slot_count (store_rack it.store) ≡ R.slot_count rack) }
    ensures refused_slots { IfErr result (λ refused. R.slot_count refused.rack
        ≡ R.slot_count rack) }
    ensures servable { IfOk result (λ it. IsServable (R.slot_count (store_rack it.store))
        (R.slot (store_rack it.store)) (epoch_of it.store) (disks_of it.store)
        (named_of it.store) it.meta (length it.dirty)) }
    ensures nothing { IfOk result (λ it. it.batch ≡ []) }
    // no cause of a refusal was there, and all that is told is told of what stood then
    ensures served { IfOk result (λ it. HasMounted (R.slot_count rack) (R.slot rack)
        (R.slot (store_rack it.store)) (named_of it.store) it.meta (is_dirty it.dirty)
        (R.told rack) (R.told (store_rack it.store))) }
    ensures refused { IfErr result (λ refused. IsCauseOfRefusal (R.slot_count rack)
        (R.slot rack) (R.slot refused.rack) (R.told rack) (R.told refused.rack)
        refused.fault) }
    ensures refused_later { IfErr result (λ refused. (d : ℕ) → (R.slot rack d).faults
        ≤ (R.slot refused.rack d).faults) }
{
    let Ok(mut other) = Batch::new(alloc) else {
        return Err(MountRefused {
            fault: MountFault::NoMemory,
            rack,
        });
    };
    let mut rack = rack;
    let mut batch = batch;
    let standing = match examine(&mut rack, &mut batch, &mut other) {
        Ok(standing) => standing,
        Err(fault) => return Err(MountRefused { fault, rack }),
    };
    let Ok(dirty) = DirtyTable::new(alloc, standing.meta.setup.geometry.rows()) else {
        return Err(MountRefused {
            fault: MountFault::NoMemory,
            rack,
        });
    };
    if let Err(two) = heed(&mut rack, standing.side) {
        return Err(MountRefused {
            fault: MountFault::Two(two),
            rack,
        });
    }
    match bring_up(rack, &standing, batch, dirty) {
        Ok(mounted) => Ok(mounted),
        Err(refused) => Err(refused),
    }
}
