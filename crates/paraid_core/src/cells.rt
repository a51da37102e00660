//! Dirty cells of the disks that come up in a shift up are copied past the log to their hard
//! places.
ghost use Rattle.std.specs.Prelude.{◌≡◌, ℕ, List, Option, Bool, false, [], Ok};
ghost use Rattle.paraid_base.specs.History.{History};
ghost use Rattle.paraid_core.specs.CellCopies.{CellsCopied, CopyingCell, KeepsCellCopies, copied_with};
ghost use Rattle.paraid_core.specs.Fills.{KeepsFilled};
ghost use Rattle.paraid_rack.specs.Disks.{Disks};
ghost use Rattle.paraid_record.specs.declared.meta.Meta.{Meta as MetaType};
ghost use Rattle.paraid_core.specs.Lost.{CoreLosesDisk};
ghost use Rattle.paraid_core.specs.Answers.{LosesGiven};
ghost use Rattle.paraid_core.specs.Copying.{CanCopyCell, CopiesOrLoses, CopiesPastLog};
ghost use Rattle.paraid_core.specs.Serving.{IsCoreInService};

use crate::fill::mark;
use crate::staged::{Core, put_out};
use paraid_base::{Block, DiskNo, Row, Two};
use paraid_layout::hard_place;
use paraid_rack::Rack;
use paraid_view::read_value;

impl<R: Rack> Core<R> {
    ghost use Rattle.paraid_core.specs.Cores.{draft_of};

    // Writes the value of a dirty cell of a disk that comes up to its hard place. False where the
    // disk was lost.
    fn write_cell(&mut self, r: Row, disk: DiskNo, block: &Block) -> Result<bool, Two>
        requires serving { IsCoreInService self.old }
        requires cell { CanCopyCell self.old r disk }
        ensures copies { CopiesPastLog self.old self.new result }
        ensures held { (cells : ℕ → ℕ → Bool) → CopiesOrLoses self.old self.new result
            (λ h lo. CopyingCell R.slot_count self.old h lo cells r disk block.now)
            (λ h lo. CellsCopied R.slot_count self.new h lo (copied_with cells r disk)) }
        ensures loses { LosesGiven disk self.old self.new result }
    {
        let place = hard_place(&self.meta.setup.geometry, r);
        let answer = self.store.write_free(disk, place, block);
        mark(&mut self.copied, disk);
        let Err(_) = answer else {
            return Ok(true);
        };
        put_out(&mut self.meta, disk)
    }

    /// Copies the value of a dirty cell of a disk that comes up past the log to its hard place,
    /// with one read of its value and one write. The cell stays dirty until it is marked.
    ///
    /// True once the cell is copied. False where a disk was lost: that disk is out from then on.
    pub fn copy_cell(&mut self, r: Row, disk: DiskNo) -> Result<bool, Two>
        requires serving { IsCoreInService self.old }
        requires no_draft { draft_of self.old ≡ [] }
        requires cell { CanCopyCell self.old r disk }
        ensures copies { CopiesPastLog self.old self.new result }
        // The cells before it stay copied, and this one is.
        ensures held { (cells : ℕ → ℕ → Bool) → CopiesOrLoses self.old self.new result
            (λ h lo. CellsCopied R.slot_count self.old h lo cells)
            (λ h lo. CellsCopied R.slot_count self.new h lo (copied_with cells r disk)) }
        // A disk of the array has failed, and is gone.
        ensures failed { result ≡ Ok false → CoreLosesDisk R.slot self.old self.new }
    {
        let mut value = Block::zero();
        let Err(lost) = read_value(
            &mut self.store,
            &self.batch,
            &self.draft,
            &self.meta,
            &self.dirty,
            None,
            r,
            disk,
            &mut value,
        ) else {
            return self.write_cell(r, disk, &value);
        };
        put_out(&mut self.meta, lost)
    }
}

/// Where nothing is staged, copies of cells can begin: none is copied yet. And copies of stripes
/// can go on from the fill mark, whichever cells are copied.
pub fn cells_are_copied_beside_stripes()
    ensures cells { (slots : ℕ) (named : Option ℕ) (m : MetaType)
        (table : List (List Bool)) (copied : List Bool) (h : History) (lo : ℕ) (s : Disks)
        → KeepsFilled slots named m table copied h lo m.fill s
        → KeepsCellCopies slots named m table [] copied h lo (λ r d. false) s }
    ensures stripes { (slots : ℕ) (named : Option ℕ) (m : MetaType) (table : List (List Bool))
        (copied : List Bool) (h : History) (lo : ℕ) (cells : ℕ → ℕ → Bool) (s : Disks)
        → KeepsCellCopies slots named m table [] copied h lo cells s
        → KeepsFilled slots named m table copied h lo m.fill s }
{}
