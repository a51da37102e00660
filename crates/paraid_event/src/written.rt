//! That the dirty bits which a write leaves are those of the machine.
ghost use Rattle.std.specs.Prelude.{◌≡◌, ℕ, ◌<◌};
ghost use Rattle.paraid_base.specs.declared.pairs.Pairs.{Pairs as PairsType};
ghost use Rattle.paraid_base.specs.Pairs.{pairs_of};
ghost use Rattle.paraid_dirty.specs.Table.{is_dirty};
ghost use Rattle.paraid_image.specs.Power.{PowerState};
ghost use Rattle.paraid_machine.specs.Machine.{blocks_named};
ghost use Rattle.paraid_machine.specs.Moves.{all_written};
ghost use Rattle.paraid_plan.specs.WrittenBits.{bits_after_writes};
ghost use Rattle.paraid_event.specs.Counts.{with_counts_of};
ghost use Rattle.paraid_event.specs.Service.{IsStateOf, Service};

/// A write of several blocks that sets the bits of their cells, and of those of their rows' parity,
/// by the meta after it, leaves the dirty cells of the machine.
pub fn a_write_marks_its_cells()
    ensures { (k k_then : Service) (pairs : PairsType)
        → is_dirty k_then.table ≡ bits_after_writes k_then.meta (pairs_of pairs) (is_dirty k.table)
        → (s : PowerState)
        → IsStateOf (with_counts_of k_then k) s → (r d : ℕ) → r < k_then.meta.setup.geometry.rows
        → is_dirty k_then.table r d ≡ (all_written k_then.meta.setup.geometry.disks
        (blocks_named (pairs_of pairs)) s).dirty r d }
{}
