//! The spin-ups of a disk that is gone are forgotten before it is replaced. It is staged, and the
//! next commit brings it to the disks. No call is made.
ghost use Rattle.std.specs.Prelude.{◌≡◌, ◌≢◌, ℕ, ◌<◌, length, slice_index};
ghost use Rattle.paraid_base.specs.declared.state.Out.TheVariants.{Gone};
ghost use Rattle.paraid_core.specs.Marking.{OnlyMarks};
ghost use Rattle.paraid_core.specs.Steps.{StandsStill};

use crate::staged::Core;
use paraid_base::DiskNo;
use paraid_rack::Rack;

// Forgets the spin-ups of a disk.
fn forget(spins: &mut [u16; 8], disk: DiskNo)
    requires { disk < 8 }
    ensures eight { length spins.new ≡ 8 }
    ensures here { slice_index spins.new disk ≡ 0 }
    ensures others { (e : ℕ) → e ≢ disk → slice_index spins.new e ≡ slice_index spins.old e }
{
    spins[disk as usize] = 0;
}

impl<R: Rack> Core<R> {
    ghost use Rattle.paraid_core.specs.Cores.{CanCoreServe, IsCoreReady, meta_of};

    /// Forgets the spin-ups of the disk that is gone.
    pub fn clear_spins(&mut self, disk: DiskNo)
        requires ready { IsCoreReady R.slot_count R.slot self.old }
        requires gone { (meta_of self.old).out ≡ Gone disk }
        ensures meta { meta_of self.new
            ≡ record (meta_of self.old) { spins = (meta_of self.new).spins } }
        ensures cleared { slice_index (meta_of self.new).spins disk ≡ 0 }
        ensures others { (e : ℕ) → e ≢ disk
            → slice_index (meta_of self.new).spins e ≡ slice_index (meta_of self.old).spins e }
        ensures marks { OnlyMarks self.old self.new }
        ensures serves { CanCoreServe R.slot self.old → CanCoreServe R.slot self.new }
        ensures stands { StandsStill R.slot_count R.told self.old self.new }
    {
        forget(&mut self.meta.spins, disk);
    }
}
