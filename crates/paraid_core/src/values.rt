//! The value of a cell, and the block that is stored at a place.
ghost use Rattle.std.specs.Prelude.{◌≡◌, ℕ, ◌<◌, [], true, Ok, Some, OnOk, IsSome};
ghost use Rattle.paraid_base.specs.History.{History};
ghost use Rattle.paraid_core.specs.Steps.{IsStillOut};
ghost use Rattle.paraid_image.specs.Content.{view_by};
ghost use Rattle.paraid_image.specs.Standing.{contents};
ghost use Rattle.paraid_image.specs.Value.{value as value_of};
ghost use Rattle.paraid_rack.specs.declared.call.Power.TheVariants.{Spinning};
ghost use Rattle.paraid_rack.specs.Trail.{Trail, now};
ghost use Rattle.paraid_txn.specs.Stores.{named_of};
ghost use Rattle.paraid_core.specs.Calls.{MakesOneCall};
ghost use Rattle.paraid_rack.specs.declared.call.Call.TheVariants.{Read};
ghost use Rattle.paraid_core.specs.Answers.{LosesGiven};
ghost use Rattle.paraid_core.specs.Copying.{LeavesStanding};
ghost use Rattle.paraid_core.specs.Serving.{IsCoreInService, StagesNothing};

use crate::staged::{Core, lose, put_out};
use paraid_base::{Block, DiskNo, Place, Row, Two};
use paraid_rack::Rack;
use paraid_view::read_cell;

impl<R: Rack> Core<R> {
    ghost use Rattle.paraid_core.specs.Cores.{IsCoreReady, CoreStandsFor, batch_of, copied_of, draft_of, meta_of, core_rack, store_of};

    /// Reads the value of a cell, with all that is staged laid over the disks. What is staged stays
    /// as it is; a disk that fails in the read is out from then on.
    pub fn read_value(&mut self, r: Row, d: DiskNo, into: &mut Block) -> Result<(), Two>
        requires serving { IsCoreInService self.old }
        requires row { r < (meta_of self.old).setup.geometry.rows }
        requires disk { d < (meta_of self.old).setup.geometry.disks }
        requires no_draft { draft_of self.old ≡ [] }

        ensures reads { StagesNothing self.old self.new result }

        ensures value { OnOk result ((h : History) (lo : ℕ) (t : Trail)
            → R.told (core_rack self.old) ≡ Some t
            → CoreStandsFor R.slot_count self.old h lo (now t)
            → IsSome (R.told (core_rack self.new)) → into.new ≡ value_of
            (view_by (meta_of self.old) (now t).power (contents (now t) (batch_of self.old))) r d) }
    {
        let lost = read_cell(
            &mut self.store,
            &self.batch,
            &self.draft,
            &self.meta,
            &self.dirty,
            r,
            d,
            into,
        )?;
        lose(&mut self.meta, lost)
    }

    /// Reads the block that is stored at a place of a disk that spins, while nothing is staged.
    /// True once it is read. False where the disk was lost: it is out from then on.
    pub fn read_stored(&mut self, disk: DiskNo, place: Place, into: &mut Block) -> Result<bool, Two>
        requires ready { IsCoreReady R.slot_count R.slot self.old }
        requires still { IsStillOut (named_of (store_of self.old)) (meta_of self.old) }
        requires disk { disk < (meta_of self.old).setup.geometry.disks }
        requires spins { (R.slot (core_rack self.old) disk).power ≡ Spinning }
        requires within { place < (R.slot (core_rack self.old) disk).size }
        requires nothing { batch_of self.old ≡ [] }
        ensures stays { LeavesStanding self.old self.new result }
        ensures same { result ≡ Ok true → meta_of self.new ≡ meta_of self.old }
        ensures copied { copied_of self.new ≡ copied_of self.old }
        ensures calls { MakesOneCall R.told (λ done. Read disk place done) self.old self.new }
        ensures loses { LosesGiven disk self.old self.new result }
        ensures value { result ≡ Ok true → (t : Trail) → R.told (core_rack self.old) ≡ Some t
            → into.new ≡ (now t).block disk place }
    {
        let Err(_) = self.store.read(disk, place, into) else {
            return Ok(true);
        };
        put_out(&mut self.meta, disk)
    }
}
