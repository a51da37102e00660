//! A core as that over which a write is planned: what is drafted is seen by the reads of the plan,
//! and nothing of it is staged yet.
ghost use Rattle.std.specs.Prelude.{◌++◌, ◌≡◌, ◌≢◌, ◌<◌, Some, Option, IfErr, IsSome, OnOk, length, false, []};
ghost use Rattle.paraid_core.specs.Undo.{AreOfTable, undo_changes};
ghost use Rattle.paraid_dirty.specs.Table.{is_dirty};
ghost use Rattle.paraid_image.specs.Standing.{Contents};
ghost use Rattle.paraid_plan.specs.WriteTargets.{soft_count, stripe_block_now};
ghost use Rattle.paraid_rack.specs.Told.{Ran};
ghost use Rattle.paraid_record.specs.Range.{IsInRange};
ghost use Rattle.paraid_txn.specs.Stores.{disks_of, store_rack};
ghost use Rattle.paraid_view.specs.Reads.{AreOffDisk, CanRead, HaveRead, ShowsContents, lost_by, seen_by};

use crate::changes::Changes;
use crate::staged::Core;
use paraid_base::{Block, DiskNo, Place, Row};
use paraid_dirty::DirtyTable;
use paraid_layout::soft_place;
use paraid_plan::{PlanLost, WritePlan};
use paraid_rack::Rack;
use paraid_record::{Meta, Target};
use paraid_txn::{Batch, Store};
use paraid_view::{Draft, is_at, read_laid, read_rest, read_value};

// A block of a stripe of the current region, or where it is on the disk that is out the XOR of the
// others.
fn read_stripe<R: Rack>(
    store: &mut Store<R>,
    batch: &Batch,
    draft: &Draft,
    meta: &Meta,
    out: Option<DiskNo>,
    s: u32,
    e: DiskNo,
    into: &mut Block,
) -> Result<(), DiskNo>
    requires in_range { IsInRange meta.now }
    requires stripe { s < soft_count meta.now }
    requires disk { e < meta.now.gear }
    requires array { meta.now.setup.geometry.disks ≡ disks_of store.old }
    requires ready { CanRead (R.slot_count (store_rack store.old)) (R.slot (store_rack store.old))
        meta.now out }
    ensures read { HaveRead R.slot_count R.slot R.told (disks_of store.old) (lost_by result)
        store.old store.new }
    ensures below { IfErr result (λ d. d < disks_of store.old) }
    ensures failed { IfErr result (λ d. out ≢ Some d) }
    ensures off { Ran
        (R.told (store_rack store.old)) (R.told (store_rack store.new)) (AreOffDisk out) }
    ensures value { OnOk result ((f : Contents) (table : _)
        → ShowsContents (R.told (store_rack store.old)) (batch.now ++ draft.now) f
        → IsSome (R.told (store_rack store.new))
        → into.new ≡ stripe_block_now (seen_by meta.now table out f) s e) }
{
    if is_at(out, e) {
        return read_rest(store, batch, draft, meta, s, e, into);
    }
    let place = soft_place(&meta.setup.geometry, meta.gear, s);
    read_laid(store, batch, draft, e, place, into)
}

// Makes the dirty bits what they were before the changes.
pub(crate) fn undo(changes: &mut Changes, dirty: &mut DirtyTable)
    requires logged { AreOfTable (length dirty.old) changes.old }
    ensures rows { length dirty.new ≡ length dirty.old }
    ensures bits { is_dirty dirty.new ≡ undo_changes changes.old (is_dirty dirty.old) }
    ensures none { changes.new ≡ [] }
{
    while let Some(change) = changes.pop() {
        dirty.put(change.row, change.disk, change.was);
    }
}

// Marks the disk of a target that is at this place. It branches nowhere, since no processor can
// guess which are.
fn mark_at(staged: &mut [bool; 8], place: Place, target: Target) {
    let at = (target.disk % 8) as usize;
    let is = u8::from(target.place == place) & u8::from(target.disk < 8);
    staged[at] = u8::from(staged[at]) | is != 0;
}

impl<R: Rack> WritePlan for Core<R> {
    ghost use Rattle.std.specs.Prelude.{length, IsSome};
    ghost use Rattle.paraid_core.specs.Cores.{changes_of, failed_of, core_rack};
    ghost use Rattle.paraid_core.specs.Leads.{leads_stays, leads_then, leads_told};
    ghost use Rattle.paraid_core.specs.Plans.{LeadsTo, ServesPlan, desk_of};

    ghost desk = { λ core. desk_of R.told core };

    ghost tells = { λ core. IsSome (R.told (core_rack core)) };

    ghost changes = { λ core. length (changes_of core) };

    ghost serves = { λ core m. ServesPlan R.slot_count R.slot core m };

    ghost fails = { λ core. IsSome (failed_of core) };

    ghost leads = { λ a b. LeadsTo R.slot_count R.slot R.told a b };

    fn value(&mut self, m: &Meta, r: Row, d: DiskNo, into: &mut Block) -> Result<(), PlanLost> {
        let out = m.out.named();
        let Err(disk) = read_value(
            &mut self.store,
            &self.batch,
            &self.draft,
            m,
            &self.dirty,
            out,
            r,
            d,
            into,
        ) else {
            return Ok(());
        };
        self.failed = Some(disk);
        Err(PlanLost)
    }

    fn stripe(&mut self, m: &Meta, s: u32, e: DiskNo, into: &mut Block) -> Result<(), PlanLost> {
        let out = m.out.named();
        let Err(disk) = read_stripe(
            &mut self.store,
            &self.batch,
            &self.draft,
            m,
            out,
            s,
            e,
            into,
        ) else {
            return Ok(());
        };
        self.failed = Some(disk);
        Err(PlanLost)
    }

    fn stored(
        &mut self,
        m: &Meta,
        disk: DiskNo,
        place: Place,
        into: &mut Block,
    ) -> Result<(), PlanLost> {
        let Err(failed) = read_laid(&mut self.store, &self.batch, &self.draft, disk, place, into)
        else {
            return Ok(());
        };
        self.failed = Some(failed);
        Err(PlanLost)
    }

    fn is_staged(&self, disk: DiskNo, place: Place) -> bool {
        self.draft.get(disk, place).is_some() || self.batch.get(disk, place).is_some()
    }

    fn staged_at(&self, place: Place) -> [bool; 8] {
        let mut staged = [false; 8];
        for at in 0..self.draft.count() as usize {
            mark_at(&mut staged, place, self.draft.target(at));
        }
        for at in 0..self.batch.count() as usize {
            mark_at(&mut staged, place, self.batch.target(at));
        }
        staged
    }

    fn is_dirty(&self, m: &Meta, r: Row, d: DiskNo) -> bool {
        self.dirty.has(r, d)
    }

    fn dirty_row(&self, m: &Meta, r: Row) -> u8 {
        self.dirty.row(r)
    }

    fn stage(&mut self, disk: DiskNo, place: Place, block: &Block) {
        self.draft.push(disk, place, block);
    }

    fn set_dirty(&mut self, m: &Meta, r: Row, d: DiskNo, bit: bool) {
        let was = self.dirty.has(r, d);
        self.changes.push(r, d, was);
        self.dirty.put(r, d, bit);
    }

    fn map_block(&mut self, j: u32, into: &mut Block) {
        self.dirty.map_block(j, into);
    }

    ghost stays = { leads_stays R.slot_count R.slot R.told };

    ghost then = { leads_then R.slot_count R.slot R.told };

    ghost told = { leads_told R.slot_count R.slot R.told };
}
