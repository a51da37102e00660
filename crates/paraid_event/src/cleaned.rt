//! That the dirty bits which a read leaves are those of the machine.
ghost use Rattle.std.specs.Prelude.{◌≡◌, ℕ, ◌<◌};
ghost use Rattle.paraid_base.specs.Cells.{home_disk, home_row};
ghost use Rattle.paraid_dirty.specs.Table.{is_dirty};
ghost use Rattle.paraid_image.specs.Power.{PowerState};
ghost use Rattle.paraid_machine.specs.Moves.{block_read};
ghost use Rattle.paraid_core.specs.Cleaning.{CleansCell};
ghost use Rattle.paraid_event.specs.Counts.{with_counts_of};
ghost use Rattle.paraid_event.specs.Service.{IsStateOf, Service};

/// A read that cleans its cell where the meta says so, and no other, leaves the dirty cells of the
/// machine.
pub fn a_read_cleans_its_cell()
    ensures { (k k_then : Service) (block : ℕ) → CleansCell k_then.meta k.table k_then.table
        (home_row k_then.meta.setup.geometry.disks block)
        (home_disk k_then.meta.setup.geometry.disks block)
        → (s : PowerState) → IsStateOf (with_counts_of k_then k) s
        → (r d : ℕ) → r < k_then.meta.setup.geometry.rows
        → is_dirty k_then.table r d ≡ (block_read k_then.meta.setup block s).dirty r d }
{}
