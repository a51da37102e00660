//! Marks of a shift: they are staged, and the next commit brings them to the disks. No call is
//! made.
ghost use Rattle.std.specs.Prelude.{◌≡◌, ℕ, ◌+◌, ◌<◌, ◌≤◌, ◌⊎◌, false, [], Some, length, min, slice_index};
ghost use Rattle.paraid_base.specs.declared.state.Out.TheVariants.{No};
ghost use Rattle.paraid_base.specs.declared.state.Phase.TheVariants.{Down, Steady, Up};
ghost use Rattle.paraid_base.specs.History.{History};
ghost use Rattle.paraid_base.specs.Soft.{stripe_count};
ghost use Rattle.paraid_base.specs.States.{phase_to};
ghost use Rattle.paraid_core.specs.CoreInvariant.{AreCopiesSynced};
ghost use Rattle.paraid_core.specs.Fills.{Filled};
ghost use Rattle.paraid_core.specs.Steps.{IsStillOut, StandsStill};
ghost use Rattle.paraid_image.specs.Mark.{meta_after_loss};
ghost use Rattle.paraid_image.specs.Out.{named_out as named_out_of};
ghost use Rattle.paraid_txn.specs.Stores.{named_of};
ghost use Rattle.paraid_dirty.specs.Table.{is_dirty};
ghost use Rattle.paraid_moves.specs.MoveMetas.{filled_to, meta_after_begin, meta_flipped_to};
ghost use Rattle.paraid_rack.specs.Told.{CrashTriple, Ran};
ghost use Rattle.paraid_record.specs.Range.{AreNextGears, allowed_spins, fill_limit};
ghost use Rattle.paraid_core.specs.Marking.{OnlyMarks};
ghost use Rattle.paraid_core.specs.Serving.{IsCoreInService};
ghost use Rattle.paraid_base.specs.Told.{counter_most};

use crate::staged::Core;
use paraid_base::{DiskNo, Out, Phase};
use paraid_rack::Rack;

// Counts one spin-up more for the disks from `lo` to `hi - 1`.
fn count_spins(spins: &mut [u16; 8], lo: u8, hi: u8)
    requires order { lo ≤ hi }
    requires few { hi ≤ 8 }
    requires room { (d : ℕ) → lo ≤ d → d < hi → slice_index spins.old d < 65535 }
    ensures eight { length spins.new ≡ 8 }
    ensures raised { (d : ℕ)
        → lo ≤ d → d < hi → slice_index spins.new d ≡ slice_index spins.old d + 1 }
    ensures others { (d : ℕ)
        → (d < lo) ⊎ (hi ≤ d) → slice_index spins.new d ≡ slice_index spins.old d }
{
    for disk in lo..hi {
        spins[disk as usize] += 1;
    }
}

impl<R: Rack> Core<R> {
    ghost use Rattle.paraid_core.specs.Cores.{CanCoreServe, CoreStandsFor, IsCoreHeldSinceCommit, IsCoreReady, batch_of, copied_of, core_rack, core_table, meta_of, store_of};

    /// Marks the stripes below `end` as filled. They are copied, and each copy is synced.
    pub fn mark_filled(&mut self, end: u32)
        requires ready { IsCoreReady R.slot_count R.slot self.old }
        requires whole { (meta_of self.old).out ≡ No }
        requires nothing { batch_of self.old ≡ [] }
        requires limit { end
            ≤ fill_limit (meta_of self.old).setup.geometry (meta_of self.old).phase }
        requires copies_synced { AreCopiesSynced
            (meta_of self.old).setup.geometry.disks (copied_of self.old) }
        ensures meta { meta_of self.new ≡ filled_to (meta_of self.old) end }
        ensures marks { OnlyMarks self.old self.new }
        ensures serves { CanCoreServe R.slot self.old → CanCoreServe R.slot self.new }
        ensures stands { (h : History) (lo : ℕ)
            → Ran (R.told (core_rack self.old)) (R.told (core_rack self.new))
            (CrashTriple (IsCoreHeldSinceCommit R.slot_count self.old h lo)
            (Filled R.slot_count self.old h lo end) (CoreStandsFor R.slot_count self.new h lo)) }
    {
        self.meta.fill = end;
    }

    /// Begins a shift down to the next lower gear.
    pub fn begin_down(&mut self, to: u8)
        requires serving { IsCoreInService self.old }
        requires whole { (meta_of self.old).out ≡ No }
        requires steady { (meta_of self.old).phase ≡ Steady }
        requires next { AreNextGears (meta_of self.old).setup.geometry to (meta_of self.old).gear }
        requires spared { (d : ℕ) → to ≤ d → d < (meta_of self.old).gear
            → slice_index (meta_of self.old).spins d < allowed_spins (meta_of self.old) }
        ensures meta { meta_of self.new
            ≡ meta_after_begin (meta_of self.old) (Down to) (meta_of self.old).spins }
        ensures marks { OnlyMarks self.old self.new }
        ensures serves { CanCoreServe R.slot self.new }
        ensures stands { StandsStill R.slot_count R.told self.old self.new }
    {
        self.meta.phase = Phase::Down { to };
        self.meta.fill = 0;
    }

    /// Begins a shift up to the next higher gear, with a spin-up counted for each disk that comes
    /// up. The allowance of a parked disk always leaves it one.
    pub fn begin_up(&mut self, to: u8)
        requires ready { IsCoreReady R.slot_count R.slot self.old }
        requires whole { (meta_of self.old).out ≡ No }
        requires steady { (meta_of self.old).phase ≡ Steady }
        requires next { AreNextGears (meta_of self.old).setup.geometry (meta_of self.old).gear to }
        ensures meta { meta_of self.new
            ≡ meta_after_begin (meta_of self.old) (Up to) (meta_of self.new).spins }
        ensures raised { (d : ℕ) → (meta_of self.old).gear ≤ d → d < to
            → slice_index (meta_of self.new).spins d ≡ slice_index (meta_of self.old).spins d + 1 }
        ensures others { (d : ℕ) → (d < (meta_of self.old).gear) ⊎ (to ≤ d)
            → slice_index (meta_of self.new).spins d ≡ slice_index (meta_of self.old).spins d }
        ensures marks { OnlyMarks self.old self.new }
        ensures stands { StandsStill R.slot_count R.told self.old self.new }
    {
        count_spins(&mut self.meta.spins, self.meta.gear, to);
        self.meta.phase = Phase::Up { to };
        self.meta.fill = 0;
    }

    /// Ends a shift of which no unit is left: all stripes are filled, and no cell of a disk that
    /// comes up is dirty.
    pub fn flip(&mut self)
        requires serving { IsCoreInService self.old }
        requires whole { (meta_of self.old).out ≡ No }
        requires shifts { 0 < phase_to (meta_of self.old).phase }
        requires filled { (meta_of self.old).fill
            ≡ stripe_count (meta_of self.old).setup.geometry.disks
            (meta_of self.old).setup.geometry.rows (phase_to (meta_of self.old).phase) }
        requires clean { (r d : ℕ)
            → r < (meta_of self.old).setup.geometry.rows → (meta_of self.old).gear ≤ d
            → d < phase_to (meta_of self.old).phase → is_dirty (core_table self.old) r d ≡ false }
        ensures meta { meta_of self.new
            ≡ meta_flipped_to (meta_of self.old) (phase_to (meta_of self.old).phase) }
        ensures marks { OnlyMarks self.old self.new }
        ensures serves { CanCoreServe R.slot self.new }
        ensures stands { StandsStill R.slot_count R.told self.old self.new }
    {
        self.meta.gear = self.meta.phase.to();
        self.meta.phase = Phase::Steady;
        self.meta.fill = 0;
    }

    /// Marks a disk as out, where no other one is.
    pub fn mark_out(&mut self, disk: DiskNo)
        requires ready { IsCoreReady R.slot_count R.slot self.old }
        requires still { IsStillOut (named_of (store_of self.old)) (meta_of self.old) }
        requires disk { disk < (meta_of self.old).setup.geometry.disks }
        requires alone { (x : ℕ) → named_out_of (meta_of self.old).out ≡ Some x → x ≡ disk }
        ensures meta { meta_of self.new ≡ meta_after_loss (meta_of self.old) disk }
        ensures marks { OnlyMarks self.old self.new }
        ensures serves { CanCoreServe R.slot self.old → CanCoreServe R.slot self.new }
        ensures stands { StandsStill R.slot_count R.told self.old self.new }
    {
        self.meta.phase = self.meta.phase.beside(true);
        self.meta.fill = 0;
        self.meta.out = Out::Gone { disk };
    }

    /// Counts a tick; the count stays at its greatest value.
    pub fn count_tick(&mut self)
        requires ready { IsCoreReady R.slot_count R.slot self.old }
        ensures meta { meta_of self.new ≡ record (meta_of self.old)
            { ticks = min ((meta_of self.old).ticks + 1) counter_most } }
        ensures marks { OnlyMarks self.old self.new }
        ensures serves { CanCoreServe R.slot self.old → CanCoreServe R.slot self.new }
        ensures stands { StandsStill R.slot_count R.told self.old self.new }
        // Copies can begin after it where they could before.
        ensures filled { (h : History) (lo : ℕ)
            → Ran (R.told (core_rack self.old)) (R.told (core_rack self.new))
            (CrashTriple (IsCoreHeldSinceCommit R.slot_count self.old h lo)
            (Filled R.slot_count self.old h lo (meta_of self.old).fill)
            (Filled R.slot_count self.new h lo (meta_of self.new).fill)) }
    {
        self.meta.ticks = self.meta.ticks.saturating_add(1);
    }
}
