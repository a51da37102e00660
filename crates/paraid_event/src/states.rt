//! That a service with the mark of a disk that was lost, or with none, has gone to the state that a
//! tick is to leave.
ghost use Rattle.std.specs.Prelude.{◌≡◌, ℕ, List, Option};
ghost use Rattle.paraid_base.specs.declared.state.Out.TheVariants.{No};
ghost use Rattle.paraid_base.specs.declared.state.Phase.TheVariants.{Down, Up};
ghost use Rattle.paraid_base.specs.States.{phase_to};
ghost use Rattle.paraid_image.specs.Power.{PowerState};
ghost use Rattle.paraid_image.specs.Mark.{meta_with_lost};
ghost use Rattle.paraid_machine.specs.Moves.{begun_down, with_spin_ups};
ghost use Rattle.paraid_moves.specs.MoveMetas.{meta_after_begin, meta_flipped_to};
ghost use Rattle.paraid_event.specs.Moving.{EndsShift, GoesToState, MovesUnits, StartsShiftUp};
ghost use Rattle.paraid_event.specs.Service.{IsStateOf, Service};

/// Where a service has a state, it has it also after a commit, or the one after the loss of a disk
/// in it; so a shift ends with the units that were moved, and a shift up begins.
pub fn a_marked_service_goes_to_its_state()
    ensures marked { (k k_then : Service) (s : PowerState) (lost : Option ℕ) (epoch writes : ℕ)
        → IsStateOf k s → k.meta.out ≡ No
        → k_then.meta ≡ record (meta_with_lost lost k.meta) { epoch = epoch; writes = writes }
        → k_then.table ≡ k.table
        → k_then.samples ≡ k.samples → k_then.served ≡ k.served → GoesToState k_then s }
    ensures ended { (k j k_then : Service) (count : ℕ) (lost : Option ℕ) (epoch writes : ℕ)
        → MovesUnits k j count → j.meta.out ≡ No → k_then.meta ≡ record (meta_with_lost lost
        (meta_flipped_to j.meta (phase_to j.meta.phase))) { epoch = epoch; writes = writes }
        → k_then.table ≡ j.table
        → k_then.samples ≡ j.samples → k_then.served ≡ j.served → EndsShift k k_then count }
    ensures begun { (k k_then : Service) (to : ℕ) (spins : List ℕ) (lost : Option ℕ)
        (epoch writes : ℕ) → k.meta.out ≡ No → spins ≡ with_spin_ups k.meta.gear to k.meta.spins
        → k_then.meta ≡ record (meta_with_lost lost (meta_after_begin k.meta (Up to) spins)) {
          epoch = epoch;
          writes = writes;
        } → k_then.table ≡ k.table
        → k_then.samples ≡ k.samples → k_then.served ≡ k.served → StartsShiftUp k k_then to }
    ensures down { (k k_then : Service) (s : PowerState) (to : ℕ) (lost : Option ℕ)
        (epoch writes : ℕ) → IsStateOf k s → k.meta.out ≡ No
        → k_then.meta ≡ record (meta_with_lost lost
        (meta_after_begin k.meta (Down to) k.meta.spins)) { epoch = epoch; writes = writes }
        → k_then.table ≡ k.table → k_then.samples ≡ k.samples
        → k_then.served ≡ k.served → GoesToState k_then (begun_down to s) }
{}
