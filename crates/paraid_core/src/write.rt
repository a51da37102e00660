//! The write of several blocks: planned whole, and then accepted or dropped.
ghost use Rattle.std.specs.Prelude.{◌≡◌, ℕ, ◌+◌, ◌*◌, ◌^◌, ◌<◌, ◌≤◌, ◌∷◌, ◌++◌, [], length, All, OnOk, IfOk, IfErr, IsSome, false, if◌then◌else◌};
ghost use Rattle.paraid_base.specs.declared.block.Block.{Block as BlockType};
ghost use Rattle.paraid_base.specs.History.{History};
ghost use Rattle.paraid_base.specs.Log.{batch_room};
ghost use Rattle.paraid_base.specs.Pairs.{pairs_of};
ghost use Rattle.paraid_dirty.specs.Table.{is_dirty};
ghost use Rattle.paraid_plan.specs.RowWrites.{StageAll};
ghost use Rattle.paraid_plan.specs.WrittenBits.{bits_after_writes};
ghost use Rattle.paraid_rack.specs.Told.{Ran, CrashTriple};
ghost use Rattle.paraid_core.specs.Serving.{IsCoreInService, ReadsAlone};

use crate::plan::undo;
use crate::staged::{Core, lose};
use crate::take::take;
use paraid_base::{Pairs, Two};
use paraid_plan::{PlanLost, write_blocks};
use paraid_rack::Rack;

impl<R: Rack> Core<R> {
    ghost use Rattle.paraid_core.specs.Cores.{IsCoreHeld, IsCoreHeldSinceCommit, CoreStandsFor, batch_of, core_block_count, core_down, draft_of, failed_of, meta_of, core_rack, core_table};
    ghost use Rattle.paraid_core.specs.Down.{HasLostOne};
    ghost use Rattle.paraid_core.specs.Plans.{LeadsTo, ServesPlan, without_draft, desk_of};

    // Plans the write of these pairs, over all that is staged.
    fn draft_writes(&mut self, pairs: &Pairs) -> Result<(), PlanLost>
        requires serving { IsCoreInService self.old }
        requires blocks { All (λ (pair : ℕ × BlockType).
            pair.0 < core_block_count self.old) (pairs_of pairs.now) }
        ensures leads { LeadsTo R.slot_count R.slot R.told (without_draft self.old) self.new }
        ensures whole { OnOk result (ServesPlan R.slot_count R.slot self.new (meta_of self.old)) }
        ensures few { OnOk result (length (draft_of self.new) ≤ 10 * pairs.now.count) }
        ensures fails { IfErr result (λ lost. IsSome (failed_of self.new)) }
        ensures writes { OnOk result (IsSome (R.told (core_rack self.new))
            → StageAll (meta_of self.old) (desk_of R.told (without_draft self.old))
            (desk_of R.told self.new) (pairs_of pairs.now)) }
        ensures some { OnOk result (IsSome (R.told (core_rack self.new))
            → 1 ≤ length (draft_of self.new)) }
        ensures bits { OnOk result (is_dirty (core_table self.new) ≡ bits_after_writes
            (meta_of self.old) (pairs_of pairs.now) (is_dirty (core_table self.old))) }
    {
        self.draft.clear();
        self.changes.clear();
        self.failed = None;
        let m = self.meta;
        write_blocks(self, &m, pairs)
    }

    /// Writes these pairs as one entry of the writes, or drops the plan of them.
    ///
    /// True once all of them are staged. False where none is: a disk that failed while the plan was
    /// made is out from then on, and the plan can be made anew.
    pub fn try_write(&mut self, pairs: &Pairs) -> Result<bool, Two>
        requires serving { IsCoreInService self.old }
        requires blocks { All (λ (pair : ℕ × BlockType).
            pair.0 < core_block_count self.old) (pairs_of pairs.now) }
        requires room { length (batch_of self.old) + 10 * pairs.now.count ≤ batch_room }
        requires fits { (meta_of self.old).writes + 1 < 2 ^ 64 }

        ensures draft { draft_of self.new ≡ [] }
        ensures reads { ReadsAlone self.old self.new result }
        ensures room { IfOk result (λ done. length (batch_of self.new)
            ≤ length (batch_of self.old) + (if done then 10 * pairs.now.count else 0)) }
        ensures dropped { IfOk result (λ done. done ≡ false
            → batch_of self.new ≡ batch_of self.old) }
        ensures bits { IfOk result (λ done. is_dirty (core_table self.new)
            ≡ (if done then bits_after_writes (meta_of self.new) (pairs_of pairs.now)
            (is_dirty (core_table self.old)) else is_dirty (core_table self.old))) }
        ensures writes { IfOk result (λ done. (meta_of self.new).writes
            ≡ (meta_of self.old).writes + (if done then 1 else 0)) }
        // It is false only where no disk was down, and one has failed.
        ensures lost { IfOk result (λ done. done ≡ false → HasLostOne (core_down self.old)
            (core_down self.new) (R.slot (core_rack self.old)) (R.slot (core_rack self.new))) }

        // Each stop leaves what it left before; at the end the entry is accepted, or nothing is.
        ensures moments { (h : History) (lo : ℕ) → Ran (R.told (core_rack self.old))
            (R.told (core_rack self.new)) (CrashTriple (IsCoreHeld R.slot_count self.old h lo)
            (CoreStandsFor R.slot_count self.old h lo) (IsCoreHeld R.slot_count self.old h lo)) }
        ensures stands { IfOk result (λ done. (h : History) (lo : ℕ)
            → Ran (R.told (core_rack self.old))
            (R.told (core_rack self.new)) (CrashTriple (IsCoreHeld R.slot_count self.old h lo)
            (CoreStandsFor R.slot_count self.old h lo) (CoreStandsFor R.slot_count self.new (if done
            then h ++ pairs_of pairs.now ∷ [] else h) lo))) }
        ensures since { IfOk result (λ done. (h : History) (lo : ℕ)
            → Ran (R.told (core_rack self.old)) (R.told (core_rack self.new))
            (CrashTriple (IsCoreHeldSinceCommit R.slot_count self.old h lo)
            (CoreStandsFor R.slot_count self.old h lo) (CoreStandsFor R.slot_count self.new (if done
            then h ++ pairs_of pairs.now ∷ [] else h) lo))) }
    {
        if self.draft_writes(pairs).is_err() {
            undo(&mut self.changes, &mut self.dirty);
            self.draft.clear();
            lose(&mut self.meta, self.failed)?;
            return Ok(false);
        }
        take(&mut self.batch, &self.meta, &self.draft);
        self.meta.writes += 1;
        self.draft.clear();
        Ok(true)
    }
}
