//! Cells that are copied to their hard places are marked as clean. It is staged, and the next
//! commit brings it to the disks. No call is made.
ghost use Rattle.std.specs.Prelude.{◌≡◌, ℕ, ◌+◌, ◌<◌, ◌≤◌, Bool, true, false, [], length};
ghost use Rattle.paraid_base.specs.declared.state.Out.TheVariants.{No};
ghost use Rattle.paraid_base.specs.History.{History};
ghost use Rattle.paraid_base.specs.States.{rising_to};
ghost use Rattle.paraid_core.specs.CellCopies.{CellsCopied};
ghost use Rattle.paraid_core.specs.Taken.{HasRoomForMap};
ghost use Rattle.paraid_dirty.specs.Table.{is_dirty, table_with_bit};
ghost use Rattle.paraid_image.specs.Neutral.{names_place};
ghost use Rattle.paraid_rack.specs.Told.{CrashTriple, Ran};
ghost use Rattle.paraid_core.specs.Marking.{OnlyStages};
ghost use Rattle.paraid_core.specs.Serving.{IsCoreInService};
ghost use Rattle.paraid_base.specs.Log.{batch_room};

use crate::staged::Core;
use crate::take::take;
use paraid_base::{BATCH_ROOM, Block, DiskNo, MAP_START, Row};
use paraid_rack::Rack;
use paraid_record::Target;
use paraid_txn::Batch;

// Whether a batch has a block for this target.
fn is_held(batch: &Batch, target: Target) -> bool
    ensures { result ≡ true → names_place batch.now target.disk target.place ≡ true }
{
    for at in 0..batch.count() as usize {
        if batch.target(at) == target {
            return true;
        }
    }
    false
}

impl<R: Rack> Core<R> {
    ghost use Rattle.paraid_core.specs.Cores.{IsCoreHeldSinceCommit, batch_of, core_rack, core_table, draft_of, meta_of};

    /// Whether the block of the map with the bits of a row can be staged on both log disks: there
    /// is room for it, or it is staged already.
    pub fn has_map_room(&self, r: Row) -> bool
        ensures room { result ≡ true
            → HasRoomForMap (meta_of self.now).setup.geometry (batch_of self.now) r }
        ensures few { length (batch_of self.now) + 2 ≤ batch_room → result ≡ true }
    {
        if self.batch.count() as usize + 2 <= BATCH_ROOM {
            return true;
        }
        let place = MAP_START + r / 512;
        is_held(&self.batch, Target { disk: 0, place })
            && is_held(&self.batch, Target { disk: 1, place })
    }

    /// Marks a dirty cell of a disk that comes up as clean: its bit is cleared, and its block of
    /// the map is staged on both log disks. The cell is copied; the commit asks that each copy is
    /// synced.
    pub fn mark_cleaned(&mut self, r: Row, d: DiskNo)
        requires serving { IsCoreInService self.old }
        requires no_draft { draft_of self.old ≡ [] }
        requires whole { (meta_of self.old).out ≡ No }
        requires row { r < (meta_of self.old).setup.geometry.rows }
        requires rises { d < rising_to (meta_of self.old).phase }
        requires dirty { is_dirty (core_table self.old) r d ≡ true }
        requires room { HasRoomForMap (meta_of self.old).setup.geometry (batch_of self.old) r }
        ensures stages { OnlyStages self.old self.new }
        ensures staged { length (batch_of self.new) ≤ length (batch_of self.old) + 2 }
        ensures table { (q e : ℕ) → is_dirty (core_table self.new) q e
            ≡ table_with_bit (is_dirty (core_table self.old)) r d false q e }
        ensures marked { (h : History) (lo : ℕ) (cells : ℕ → ℕ → Bool)
            → cells r d ≡ true → Ran (R.told (core_rack self.old)) (R.told (core_rack self.new))
            (CrashTriple (IsCoreHeldSinceCommit R.slot_count self.old h lo) (CellsCopied
            R.slot_count self.old h lo cells) (CellsCopied R.slot_count self.new h lo cells)) }
    {
        let m = self.meta;
        let j = r / 512;
        let mut map = Block::zero();
        self.dirty.clear(r, d);
        self.dirty.map_block(j, &mut map);
        self.draft.clear();
        self.draft.push(0, MAP_START + j, &map);
        self.draft.push(1, MAP_START + j, &map);
        take(&mut self.batch, &m, &self.draft);
        self.draft.clear();
    }
}
