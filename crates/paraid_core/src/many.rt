//! The write of one to eight blocks as one entry, which first commits what leaves no room for it.
ghost use Rattle.std.specs.Prelude.{◌≡◌, ℕ, ◌+◌, ◌*◌, ◌^◌, ◌<◌, ◌≤◌, ◌∷◌, ◌++◌, [], length, Some, All, OnOk, if◌then◌else◌, false};
ghost use Rattle.paraid_base.specs.declared.block.Block.{Block as BlockType};
ghost use Rattle.paraid_base.specs.History.{History};
ghost use Rattle.paraid_base.specs.Log.{batch_room, draft_room};
ghost use Rattle.paraid_base.specs.Pairs.{pairs_of};
ghost use Rattle.paraid_dirty.specs.Table.{is_dirty};
ghost use Rattle.paraid_plan.specs.WrittenBits.{bits_after_block, bits_after_writes};
ghost use Rattle.paraid_rack.specs.Told.{Ran, CrashTriple};
ghost use Rattle.paraid_txn.specs.Commit.{gone_out as gone_out_of};
ghost use Rattle.paraid_core.specs.Serving.{CanBeCommitted, IsCoreInService, KeepsCells, MayCommit, ReadsAlone};

use crate::staged::Core;
use paraid_base::{BATCH_ROOM, Block, BlockNo, Pairs, Two};
use paraid_rack::Rack;

// The most targets of a batch.
const ROOM: u8 = BATCH_ROOM as u8;

impl<R: Rack> Core<R> {
    ghost use Rattle.paraid_core.specs.Cores.{IsCoreHeld, IsCoreHeldSinceCommit, CoreStandsFor, batch_of, core_block_count, core_down, draft_of, meta_of, core_rack, core_table, store_of};
    ghost use Rattle.paraid_core.specs.Steps.{AreUnsyncedCopied};
    ghost use Rattle.paraid_core.specs.Room.{commits_first};
    ghost use Rattle.paraid_txn.specs.Stores.{named_of};

    // Commits where more is staged than leaves room for so many targets.
    pub(crate) fn make_room(&mut self, targets: u8) -> Result<(), Two>
        requires few { targets ≤ draft_room }
        requires serving { IsCoreInService self.old }
        requires committable { CanBeCommitted self.old }

        ensures cells { KeepsCells self.old self.new result }
        ensures commits { MayCommit
            (commits_first (batch_of self.old) targets) self.old self.new result }
        ensures few { length (batch_of self.old) ≤ batch_room }
        ensures room { OnOk result (length (batch_of self.new) + targets ≤ batch_room) }
        ensures staged { OnOk result (length (batch_of self.new) ≤ (if commits_first
            (batch_of self.old) targets then 0 else length (batch_of self.old))) }
        ensures nothing { OnOk result (targets ≡ 0 → (batch_of self.new ≡ batch_of self.old)
            × (core_table self.new ≡ core_table self.old)) }
        ensures idle { commits_first (batch_of self.old) targets ≡ false
            → R.told (core_rack self.new) ≡ R.told (core_rack self.old) }
        ensures named { OnOk result ((d : ℕ) → named_of (store_of self.new) ≡ Some d
            → core_down self.old ≡ Some d) }
        ensures gone { OnOk result ((d : ℕ) → gone_out_of (meta_of self.old).out ≡ Some d
            → gone_out_of (meta_of self.new).out ≡ Some d) }
        ensures stands { OnOk result ((h : History) (lo : ℕ) → Ran (R.told (core_rack self.old))
            (R.told (core_rack self.new)) (CrashTriple (IsCoreHeld R.slot_count self.old h lo)
            (CoreStandsFor R.slot_count self.old h lo) (CoreStandsFor R.slot_count self.new h
            (if commits_first (batch_of self.old) targets then length h else lo)))) }
    {
        if self.batch.count() <= ROOM - targets {
            return Ok(());
        }
        self.commit()
    }

    // Plans the write, and where a disk fails in that plans it once more without this disk.
    fn write_whole(&mut self, pairs: &Pairs) -> Result<(), Two>
        requires serving { IsCoreInService self.old }
        requires blocks { All (λ (pair : ℕ × BlockType).
            pair.0 < core_block_count self.old) (pairs_of pairs.now) }
        requires room { length (batch_of self.old) + 10 * pairs.now.count ≤ batch_room }
        requires fits { (meta_of self.old).writes + 1 < 2 ^ 64 }

        ensures draft { draft_of self.new ≡ [] }
        ensures reads { ReadsAlone self.old self.new result }
        ensures staged { OnOk result (length (batch_of self.new)
            ≤ length (batch_of self.old) + 10 * pairs.now.count) }
        ensures bits { OnOk result (is_dirty (core_table self.new) ≡ bits_after_writes
            (meta_of self.new) (pairs_of pairs.now) (is_dirty (core_table self.old))) }
        ensures writes { OnOk result ((meta_of self.new).writes ≡ (meta_of self.old).writes + 1) }
        ensures unsynced { OnOk result (AreUnsyncedCopied R.slot self.old
            → AreUnsyncedCopied R.slot self.new) }
        ensures stands { OnOk result ((h : History) (lo : ℕ)
            → Ran (R.told (core_rack self.old)) (R.told (core_rack self.new)) (CrashTriple
            (IsCoreHeldSinceCommit R.slot_count self.old h lo) (CoreStandsFor R.slot_count self.old
            h lo) (CoreStandsFor R.slot_count self.new (h ++ pairs_of pairs.now ∷ []) lo))) }
    {
        let done = self.try_write(pairs)?;
        if done {
            return Ok(());
        }
        // One disk is out now, so a further failure is the second one.
        self.try_write(pairs)?;
        Ok(())
    }

    /// Writes these pairs as one entry of the writes. A disk that fails in it is out from then on,
    /// and the write is made without it.
    ///
    /// It first commits what is staged, where that leaves no room for ten targets for each pair.
    pub fn write_many(&mut self, pairs: &Pairs) -> Result<(), Two>
        requires serving { IsCoreInService self.old }
        requires blocks { All (λ (pair : ℕ × BlockType).
            pair.0 < core_block_count self.old) (pairs_of pairs.now) }
        requires committable { CanBeCommitted self.old }
        requires fits { (meta_of self.old).writes + 1 < 2 ^ 64 }

        ensures draft { OnOk result (draft_of self.new ≡ []) }
        ensures commits { MayCommit
            (commits_first (batch_of self.old) (10 * pairs.now.count)) self.old self.new result }
        ensures staged { OnOk result (length (batch_of self.new)
            ≤ (if commits_first (batch_of self.old) (10 * pairs.now.count)
            then 0 else length (batch_of self.old)) + 10 * pairs.now.count) }
        // The dirty cells are those that the writes leave by the meta after them.
        ensures bits { OnOk result (is_dirty (core_table self.new) ≡ bits_after_writes
            (meta_of self.new) (pairs_of pairs.now) (is_dirty (core_table self.old))) }
        ensures writes { OnOk result ((meta_of self.new).writes ≡ (meta_of self.old).writes + 1) }

        ensures stands { OnOk result ((h : History) (lo : ℕ)
            → Ran (R.told (core_rack self.old)) (R.told (core_rack self.new)) (CrashTriple
            (IsCoreHeld R.slot_count self.old h lo) (CoreStandsFor R.slot_count self.old h lo)
            (CoreStandsFor R.slot_count self.new (h ++ pairs_of pairs.now ∷ [])
            (if commits_first (batch_of self.old) (10 * pairs.now.count) then length h else lo)))) }
    {
        self.make_room(10 * pairs.count)?;
        self.write_whole(pairs)?;
        Ok(())
    }

    /// Writes one block.
    pub fn write(&mut self, block: BlockNo, bytes: &Block) -> Result<(), Two>
        requires serving { IsCoreInService self.old }
        requires block { block < core_block_count self.old }
        requires committable { CanBeCommitted self.old }
        requires fits { (meta_of self.old).writes + 1 < 2 ^ 64 }

        ensures draft { OnOk result (draft_of self.new ≡ []) }
        ensures commits { MayCommit
            (commits_first (batch_of self.old) 10) self.old self.new result }
        ensures staged { OnOk result (length (batch_of self.new) ≤ (if commits_first
            (batch_of self.old) 10 then 0 else length (batch_of self.old)) + 10) }
        ensures bits { OnOk result (is_dirty (core_table self.new)
            ≡ bits_after_block (meta_of self.new) block (is_dirty (core_table self.old))) }
        ensures writes { OnOk result ((meta_of self.new).writes ≡ (meta_of self.old).writes + 1) }
        ensures stands { OnOk result ((h : History) (lo : ℕ)
            → Ran (R.told (core_rack self.old)) (R.told (core_rack self.new)) (CrashTriple
            (IsCoreHeld R.slot_count self.old h lo) (CoreStandsFor R.slot_count self.old h lo)
            (CoreStandsFor R.slot_count self.new (h ++ ((block, bytes.now) ∷ []) ∷ [])
            (if commits_first (batch_of self.old) 10 then length h else lo)))) }
    {
        let pairs = Pairs::one(block, bytes);
        self.write_many(&pairs)
    }
}
