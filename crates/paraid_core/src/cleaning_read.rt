//! The read of a block, which in access mode brings a dirty cell back to its hard place.
ghost use Rattle.paraid_record.specs.Modes.{is_access as is_access_in};
ghost use Rattle.std.specs.Prelude.{◌≡◌, ℕ, ◌+◌, ◌<◌, ◌≤◌, [], length, None, OnOk, IsSome, Some, false, if◌then◌else◌};
ghost use Rattle.paraid_base.specs.Cells.{home_disk, home_row};
ghost use Rattle.paraid_base.specs.History.{History, after_all as held_by};
ghost use Rattle.paraid_base.specs.Log.{batch_room};
ghost use Rattle.paraid_dirty.specs.Table.{is_dirty, table_with_bit};
ghost use Rattle.paraid_image.specs.Content.{view_by};
ghost use Rattle.paraid_image.specs.Out.{named_out as named_out_of};
ghost use Rattle.paraid_image.specs.Spot.{rising_to as rising_to_of};
ghost use Rattle.paraid_image.specs.Standing.{contents};
ghost use Rattle.paraid_image.specs.Value.{value as value_of};
ghost use Rattle.paraid_rack.specs.Told.{Ran, CrashTriple};
ghost use Rattle.paraid_rack.specs.Trail.{Trail, now};
ghost use Rattle.paraid_core.specs.Cleaning.{CleansCell, cleaning as cleaning_in, is_cleaned, read_commits_first};
ghost use Rattle.paraid_core.specs.Marking.{OnlyStages};
ghost use Rattle.paraid_core.specs.Serving.{CanBeCommitted, IsCoreInService, MayCommit};

use crate::staged::Core;
use crate::take::take;
use paraid_base::{Block, BlockNo, DiskNo, MAP_START, Row, Two};
use paraid_layout::{hard_place, home};
use paraid_rack::Rack;
use paraid_record::Mode;

// Whether reads clean cells in this mode.
fn is_access(mode: Mode) -> bool
    ensures { result ≡ is_access_in mode }
{
    match mode {
        Mode::Whole => false,
        Mode::Access => true,
    }
}

impl<R: Rack> Core<R> {
    ghost use Rattle.paraid_core.specs.Cores.{IsCoreHeld, CoreStandsFor, batch_of, core_block_count, draft_of, meta_of, core_rack, core_table};

    // Whether a read of this cell cleans it.
    fn cleans(&self, r: Row, d: DiskNo) -> bool
        requires row { r < length (core_table self.now) }
        requires disk { d < 8 }
        ensures { result ≡ is_cleaned (meta_of self.now) (core_table self.now) r d }
    {
        is_access(self.meta.setup.mode)
            && !self.meta.out.is_any()
            && self.meta.gear <= d
            && d < self.meta.phase.rising_to()
            && self.dirty.has(r, d)
    }

    // Stages the value of a cell for its hard place, and makes it clean.
    fn clean(&mut self, r: Row, d: DiskNo, value: &Block)
        requires serving { IsCoreInService self.old }
        requires row { r < (meta_of self.old).setup.geometry.rows }
        requires disk { d < (meta_of self.old).setup.geometry.disks }
        requires rises { d < rising_to_of (meta_of self.old).phase }
        requires whole { named_out_of (meta_of self.old).out ≡ None }
        requires room { length (batch_of self.old) + 3 ≤ batch_room }
        ensures stages { OnlyStages self.old self.new }
        ensures staged { length (batch_of self.new) ≤ length (batch_of self.old) + 3 }
        ensures cleaned { is_dirty (core_table self.new) r d ≡ false }
        ensures bits { (q e : ℕ) → is_dirty (core_table self.new) q e
            ≡ table_with_bit (is_dirty (core_table self.old)) r d false q e }
        ensures stands { (h : History) (lo : ℕ) (t : Trail) → R.told (core_rack self.old) ≡ Some t
            → value.now ≡ value_of (view_by (meta_of self.old) (now t).power
            (contents (now t) (batch_of self.old))) r d
            → CoreStandsFor R.slot_count self.old h lo (now t)
            → CoreStandsFor R.slot_count self.new h lo (now t) }
    {
        let m = self.meta;
        let j = r / 512;
        let mut map = Block::zero();
        self.dirty.clear(r, d);
        self.dirty.map_block(j, &mut map);
        self.draft.clear();
        self.draft.push(d, hard_place(&m.setup.geometry, r), value);
        self.draft.push(0, MAP_START + j, &map);
        self.draft.push(1, MAP_START + j, &map);
        take(&mut self.batch, &m, &self.draft);
        self.draft.clear();
    }

    // How many targets a read of this cell stages.
    fn cleaning(&self, r: Row, d: DiskNo) -> u8
        requires row { r < length (core_table self.now) }
        requires disk { d < 8 }
        ensures value { result ≡ cleaning_in (meta_of self.now) (core_table self.now) r d }
        ensures few { result ≤ 3 }
    {
        if self.cleans(r, d) { 3 } else { 0 }
    }

    // Cleans a cell if there was room kept for it, and it can still be cleaned.
    #[tactic(auto, using(crate::proofs::BitsLemmas::cell_kept, crate::proofs::BitsLemmas::cell_cleaned))]
    fn clean_in_room(&mut self, room: u8, r: Row, d: DiskNo, value: &Block)
        requires serving { IsCoreInService self.old }
        requires no_draft { draft_of self.old ≡ [] }
        requires row { r < (meta_of self.old).setup.geometry.rows }
        requires disk { d < (meta_of self.old).setup.geometry.disks }
        requires room { length (batch_of self.old) + room ≤ batch_room }
        requires kept { room < 3 → is_cleaned (meta_of self.old) (core_table self.old) r d ≡ false }
        ensures cleaned { is_cleaned (meta_of self.new) (core_table self.new) r d ≡ false }
        ensures bits { CleansCell
            (meta_of self.new) (core_table self.old) (core_table self.new) r d }
        ensures nothing { room < 3 → (batch_of self.new ≡ batch_of self.old)
            × (core_table self.new ≡ core_table self.old) }
        ensures stages { OnlyStages self.old self.new }
        ensures staged { length (batch_of self.new) ≤ length (batch_of self.old) + room }
        ensures stands { (h : History) (lo : ℕ) (t : Trail) → R.told (core_rack self.old) ≡ Some t
            → value.now ≡ value_of (view_by (meta_of self.old) (now t).power
            (contents (now t) (batch_of self.old))) r d
            → CoreStandsFor R.slot_count self.old h lo (now t)
            → CoreStandsFor R.slot_count self.new h lo (now t) }
    {
        if room < 3 {
            return;
        }
        if !self.cleans(r, d) {
            return;
        }
        self.clean(r, d, value);
    }

    /// Reads a block: the bytes last written to it, or zeros. A disk that fails in the read is out
    /// from then on.
    ///
    /// In access mode, in a shift up with no disk out, it stages the value of a dirty cell for its
    /// hard place on a disk that comes up, and makes the cell clean. It first commits what is
    /// staged, where that leaves no room for this.
    pub fn read(&mut self, block: BlockNo, into: &mut Block) -> Result<(), Two>
        requires serving { IsCoreInService self.old }
        requires block { block < core_block_count self.old }
        requires no_draft { draft_of self.old ≡ [] }
        requires committable { CanBeCommitted self.old }

        ensures draft { draft_of self.new ≡ [] }
        ensures commits { MayCommit
            (read_commits_first (meta_of self.old) (core_table self.old) (batch_of self.old) block)
            self.old self.new result }
        ensures writes { OnOk result ((meta_of self.new).writes ≡ (meta_of self.old).writes) }
        ensures cleaned { OnOk result (is_cleaned (meta_of self.new) (core_table self.new)
            (home_row (meta_of self.old).setup.geometry.disks block)
            (home_disk (meta_of self.old).setup.geometry.disks block) ≡ false) }
        // By the meta after it the cell is cleaned or not, and no other bit changes.
        ensures bits { OnOk result (CleansCell (meta_of self.new) (core_table self.old)
            (core_table self.new) (home_row (meta_of self.old).setup.geometry.disks block)
            (home_disk (meta_of self.old).setup.geometry.disks block)) }
        ensures nothing { OnOk result (is_cleaned (meta_of self.old)
            (core_table self.old) (home_row (meta_of self.old).setup.geometry.disks block)
            (home_disk (meta_of self.old).setup.geometry.disks block) ≡ false → (batch_of self.new
            ≡ batch_of self.old) × (core_table self.new ≡ core_table self.old)) }

        // No more is ever staged; so a read that cleans nothing commits nothing.
        ensures few { length (batch_of self.old) ≤ batch_room }
        ensures staged { OnOk result (length (batch_of self.new)
            ≤ (if read_commits_first (meta_of self.old) (core_table self.old) (batch_of self.old)
            block then 0 else length (batch_of self.old)) + 3) }

        ensures stands { OnOk result ((h : History) (lo : ℕ)
            → Ran (R.told (core_rack self.old)) (R.told (core_rack self.new)) (CrashTriple
            (IsCoreHeld R.slot_count self.old h lo) (CoreStandsFor R.slot_count self.old h lo)
            (CoreStandsFor R.slot_count self.new h (if read_commits_first (meta_of self.old)
            (core_table self.old) (batch_of self.old) block then length h else lo)))) }
        ensures value { OnOk result ((h : History) (lo : ℕ) (t : Trail)
            → R.told (core_rack self.old) ≡ Some t
            → CoreStandsFor R.slot_count self.old h lo (now t)
            → IsSome (R.told (core_rack self.new)) → into.new ≡ held_by h block) }
    {
        let (r, d) = home(&self.meta.setup.geometry, block);
        let room = self.cleaning(r, d);
        self.make_room(room)?;
        self.read_only(block, into)?;
        self.clean_in_room(room, r, d, into);
        Ok(())
    }
}
