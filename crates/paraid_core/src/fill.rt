//! Stripes of the region of the new gear are copied past the log.
ghost use Rattle.std.specs.Prelude.{◌≡◌, ◌≢◌, ℕ, ◌+◌, ◌<◌, true, false, [], Ok};
ghost use Rattle.paraid_base.specs.History.{History};
ghost use Rattle.paraid_base.specs.Regions.{soft_place_of};
ghost use Rattle.paraid_base.specs.States.{phase_to};
ghost use Rattle.paraid_core.specs.Fills.{Filled, Filling, member};
ghost use Rattle.paraid_core.specs.CoreInvariant.{is_copied};
ghost use Rattle.paraid_core.specs.Steps.{IsStillOut, StandsStill};
ghost use Rattle.paraid_rack.specs.declared.call.Power.TheVariants.{Spinning};
ghost use Rattle.paraid_rack.specs.Told.{Ran, CrashTriple};
ghost use Rattle.paraid_txn.specs.Stores.{named_of};
ghost use Rattle.paraid_core.specs.Lost.{CoreLosesDisk};
ghost use Rattle.paraid_core.specs.Answers.{LosesGiven};
ghost use Rattle.paraid_core.specs.Copying.{CanFillStripe, CopiesOrLoses, CopiesPastLog};
ghost use Rattle.paraid_core.specs.Serving.{IsCoreInService};

use crate::gather::gather;
use crate::staged::{Core, put_out};
use paraid_base::{Block, DiskNo, Place, Two};
use paraid_layout::soft_place;
use paraid_rack::Rack;

// Notes that a copy went to this disk.
pub(crate) fn mark(copied: &mut [bool; 8], disk: DiskNo)
    requires { disk < 8 }
    ensures here { is_copied copied.new disk ≡ true }
    ensures others { (x : ℕ) → x ≢ disk → is_copied copied.new x ≡ is_copied copied.old x }
{
    copied[disk as usize] = true;
}

// One of the blocks.
fn block_of(blocks: &[Block; 8], at: DiskNo) -> &Block
    requires { at < 8 }
    ensures { result.now ≡ member blocks.now at }
{
    &blocks[at as usize]
}

impl<R: Rack> Core<R> {
    ghost use Rattle.paraid_core.specs.Cores.{IsCoreHeldSinceCommit, IsCoreReady, draft_of, meta_of, core_rack, store_of};

    // Writes block `disk` of stripe `s` into its place in the region of the new gear. False where
    // the disk was lost.
    fn write_member(
        &mut self,
        s: u32,
        disk: DiskNo,
        place: Place,
        block: &Block,
    ) -> Result<bool, Two>
        requires ready { IsCoreReady R.slot_count R.slot self.old }
        requires still { IsStillOut (named_of (store_of self.old)) (meta_of self.old) }
        requires fills { CanFillStripe self.old s }
        requires disk { disk < (meta_of self.old).setup.geometry.disks }
        requires spins { (R.slot (core_rack self.old) disk).power ≡ Spinning }
        requires place { place ≡ soft_place_of (meta_of self.old).setup.geometry
            (phase_to (meta_of self.old).phase) s }
        requires within { place < (R.slot (core_rack self.old) disk).size }
        ensures copies { CopiesPastLog self.old self.new result }
        ensures written { result ≡ Ok true → (h : History) (lo : ℕ) (blocks : _)
            → block.now ≡ member blocks disk
            → Ran (R.told (core_rack self.old)) (R.told (core_rack self.new))
            (CrashTriple (IsCoreHeldSinceCommit R.slot_count self.old h lo)
            (Filling R.slot_count self.old h lo s blocks disk)
            (Filling R.slot_count self.new h lo s blocks (disk + 1))) }
        ensures loses { LosesGiven disk self.old self.new result }
        ensures lost { result ≡ Ok false → StandsStill R.slot_count R.told self.old self.new }
        ensures moments { (h : History) (lo : ℕ)
            → Ran (R.told (core_rack self.old)) (R.told (core_rack self.new)) (CrashTriple
            (IsCoreHeldSinceCommit R.slot_count self.old h lo) (Filled R.slot_count self.old h lo s)
            (IsCoreHeldSinceCommit R.slot_count self.old h lo)) }
    {
        let answer = self.store.write_free(disk, place, block);
        mark(&mut self.copied, disk);
        let Err(_) = answer else {
            return Ok(true);
        };
        put_out(&mut self.meta, disk)
    }

    // Writes the blocks of stripe `s` in ascending order of disks. False where a disk was lost.
    fn write_members(&mut self, s: u32, blocks: &[Block; 8]) -> Result<bool, Two>
        requires serving { IsCoreInService self.old }
        requires fills { CanFillStripe self.old s }
        ensures copies { CopiesPastLog self.old self.new result }
        ensures held { CopiesOrLoses self.old self.new result
            (λ h lo. Filling R.slot_count self.old h lo s blocks.now 0)
            (λ h lo. Filled R.slot_count self.new h lo (s + 1)) }
        // A disk of the array has failed, and is gone.
        ensures failed { result ≡ Ok false → CoreLosesDisk R.slot self.old self.new }
    {
        let to = self.meta.phase.to();
        let place = soft_place(&self.meta.setup.geometry, to, s);
        for disk in 0..to {
            let done = self.write_member(s, disk, place, block_of(blocks, disk))?;
            if !done {
                return Ok(false);
            }
        }
        Ok(true)
    }

    /// Copies stripe `s` of the region of the new gear past the log: the values of its cells, zeros
    /// for its pads and their XOR, each into its free place.
    ///
    /// It reads each cell of the stripe once by value, and then writes each block once, in
    /// ascending order of disks. True once the stripe is copied. False where a disk was lost: that
    /// disk is out from then on, and the stripe does not count.
    pub fn fill_stripe(&mut self, s: u32) -> Result<bool, Two>
        requires serving { IsCoreInService self.old }
        requires no_draft { draft_of self.old ≡ [] }
        requires fills { CanFillStripe self.old s }
        ensures copies { CopiesPastLog self.old self.new result }
        ensures held { CopiesOrLoses self.old self.new result
            (λ h lo. Filled R.slot_count self.old h lo s)
            (λ h lo. Filled R.slot_count self.new h lo (s + 1)) }
        // A disk of the array has failed, and is gone.
        ensures failed { result ≡ Ok false → CoreLosesDisk R.slot self.old self.new }
    {
        let mut blocks = [
            Block::zero(),
            Block::zero(),
            Block::zero(),
            Block::zero(),
            Block::zero(),
            Block::zero(),
            Block::zero(),
            Block::zero(),
        ];
        let to = self.meta.phase.to();
        let Err(disk) = gather(
            &mut self.store,
            &self.batch,
            &self.draft,
            &self.meta,
            &self.dirty,
            to,
            s,
            &mut blocks,
        ) else {
            return self.write_members(s, &blocks);
        };
        put_out(&mut self.meta, disk)
    }
}
