//! A fresh disk comes in the place of the one that is gone, and comes back once it is rebuilt. Both
//! are staged, and the next commit brings them to the disks.
ghost use Rattle.std.specs.Prelude.{◌≡◌, ℕ, ◌<◌, false, true, [], None, Some};
ghost use Rattle.paraid_base.specs.declared.state.Out.TheVariants.{Fresh, Gone, No};
ghost use Rattle.paraid_base.specs.History.{History};
ghost use Rattle.paraid_base.specs.Regions.{disk_size};
ghost use Rattle.paraid_base.specs.States.{gone_out as gone_out_of};
ghost use Rattle.paraid_core.specs.Calls.{MakesOneCall};
ghost use Rattle.paraid_core.specs.Replaced.{CoreCommitted, HaveComeUp};
ghost use Rattle.paraid_core.specs.Steps.{IsNamedOrAbsent};
ghost use Rattle.paraid_core.specs.Units.{UnitsRebuilt};
ghost use Rattle.paraid_moves.specs.MoveMetas.{meta_with_out};
ghost use Rattle.paraid_rack.specs.declared.call.Call.TheVariants.{Attach};
ghost use Rattle.paraid_rack.specs.declared.call.Power.TheVariants.{Spinning};
ghost use Rattle.paraid_rack.specs.Disks.{is_present};
ghost use Rattle.paraid_rack.specs.Told.{CrashTriple, Ran};
ghost use Rattle.paraid_record.specs.Range.{rebuild_units};
ghost use Rattle.paraid_txn.specs.Losses.{IsLostNow};
ghost use Rattle.paraid_txn.specs.Stores.{named_of};
ghost use Rattle.paraid_core.specs.Marking.{OnlyMarks};
ghost use Rattle.paraid_core.specs.PowerCalls.{LeavesAttached};

use crate::staged::Core;
use paraid_base::{DiskNo, Out};
use paraid_rack::Rack;

impl<R: Rack> Core<R> {
    ghost use Rattle.paraid_core.specs.Cores.{CanCoreServe, CoreStandsFor, IsCoreHeldSinceCommit, IsCoreReady, batch_of, core_rack, meta_of, store_of};

    /// Attaches a fresh disk in the place of the one that is gone, by the last commit too, while
    /// nothing is staged. True once it is there: none of its units is rebuilt. False where it
    /// failed: the disk is gone still.
    pub fn attach(&mut self, disk: DiskNo) -> bool
        requires ready { IsCoreReady R.slot_count R.slot self.old }
        requires gone { (meta_of self.old).out ≡ Gone disk }
        requires named { named_of (store_of self.old) ≡ Some disk }
        requires nothing { batch_of self.old ≡ [] }
        ensures leaves { LeavesAttached disk self.old self.new }
        ensures attached { result ≡ true → R.slot (core_rack self.new) disk
            ≡ record (R.slot (core_rack self.old) disk) {
              power = Spinning;
              size = disk_size (meta_of self.old).setup.geometry;
              unsynced = false;
            } }
        ensures fresh { result ≡ true
            → meta_of self.new ≡ meta_with_out (meta_of self.old) (Fresh disk 0) }
        ensures lost { result ≡ false
            → IsLostNow (R.slot (core_rack self.old)) (R.slot (core_rack self.new)) disk }
        ensures same { result ≡ false → meta_of self.new ≡ meta_of self.old }
        ensures calls { MakesOneCall R.told (λ done.
            Attach disk (disk_size (meta_of self.old).setup.geometry) done) self.old self.new }
        // Each stop leaves what it left before, and the writes are as before.
        ensures stands { (h : History) (lo : ℕ)
            → Ran (R.told (core_rack self.old)) (R.told (core_rack self.new))
            (CrashTriple (IsCoreHeldSinceCommit R.slot_count self.old h lo) (CoreCommitted
            R.slot_count self.old h lo (Gone disk)) (CoreStandsFor R.slot_count self.new h lo)) }
    {
        let size = self.meta.setup.geometry.size();
        let Ok(()) = self.store.attach(disk, size) else {
            return false;
        };
        self.meta.out = Out::Fresh { disk, rebuilt: 0 };
        true
    }

    /// Takes the disk that is rebuilt into the array again, where each of its units is copied and
    /// all disks are there. It is staged, and the disk comes back by the next commit. No call is
    /// made.
    pub fn rejoin(&mut self)
        requires ready { IsCoreReady R.slot_count R.slot self.old }
        requires rebuilding { gone_out_of (meta_of self.old).out ≡ None }
        requires there { (d : ℕ) → d < (meta_of self.old).setup.geometry.disks
            → is_present (R.slot (core_rack self.old) d).power ≡ true }
        requires nothing { batch_of self.old ≡ [] }
        ensures meta { meta_of self.new ≡ meta_with_out (meta_of self.old) No }
        ensures marks { OnlyMarks self.old self.new }
        ensures up { CanCoreServe R.slot self.old
            → HaveComeUp (R.slot (core_rack self.new)) (meta_of self.new) }
        ensures absent { IsNamedOrAbsent R.slot self.new }
        ensures stands { (d units : ℕ)
            → (meta_of self.old).out ≡ Fresh d units → (h : History) (lo : ℕ)
            → Ran (R.told (core_rack self.old)) (R.told (core_rack self.new)) (CrashTriple
            (IsCoreHeldSinceCommit R.slot_count self.old h lo) (UnitsRebuilt R.slot_count self.old
            h lo (rebuild_units (meta_of self.old).setup.geometry (meta_of self.old).gear d))
            (CoreStandsFor R.slot_count self.new h lo)) }
    {
        self.meta.out = Out::No;
    }
}
