//! That the marks of a shift, and of units of a disk that are rebuilt, are marks in memory.
ghost use Rattle.std.specs.Prelude.{◌≡◌, ℕ, ◌+◌, ◌<◌, ◌≤◌, ◌⊎◌, List, slice_index};
ghost use Rattle.paraid_base.specs.declared.state.Out.TheVariants.{Fresh, No};
ghost use Rattle.paraid_base.specs.declared.state.Phase.TheVariants.{Down, Steady, Up};
ghost use Rattle.paraid_rack.specs.declared.call.Power.{Power as PowerType};
ghost use Rattle.paraid_record.specs.declared.meta.Meta.{Meta as MetaType};
ghost use Rattle.paraid_image.specs.Power.{power_by_gear};
ghost use Rattle.paraid_moves.specs.MoveMetas.{filled_to, meta_after_begin, meta_flipped_to, meta_with_out};
ghost use Rattle.paraid_event.specs.Marks.{ShowsMeta};
ghost use Rattle.paraid_event.specs.Service.{Service};
ghost use Rattle.paraid_event.specs.Steps.{IsSettled, MarksInMemory};

/// Stripes that are marked as filled, a shift that ends or begins, and units that are rebuilt are
/// marks in memory. A shift down that begins and a shift up that ends leave the powers of the disks
/// as they are.
pub fn marks_of_a_shift_are_in_memory()
    ensures filled { (k j : Service) (fill : ℕ) → j.slots ≡ k.slots
        → j.named ≡ k.named → k.meta.out ≡ No → j.meta ≡ filled_to k.meta fill → MarksInMemory k j }
    ensures flipped { (k j : Service) (to : ℕ) → j.slots ≡ k.slots → j.named ≡ k.named
        → k.meta.out ≡ No → j.meta ≡ meta_flipped_to k.meta to → MarksInMemory k j }
    ensures down { (k j : Service) (to : ℕ)
        → j.slots ≡ k.slots → j.named ≡ k.named → k.meta.out ≡ No
        → j.meta ≡ meta_after_begin k.meta (Down to) k.meta.spins → MarksInMemory k j }
    ensures up { (k j : Service) (to : ℕ) (spins : List ℕ) → j.slots ≡ k.slots → j.named ≡ k.named
        → k.meta.out ≡ No → j.meta ≡ meta_after_begin k.meta (Up to) spins → ((d : ℕ)
        → k.meta.gear ≤ d → d < to → slice_index spins d ≡ slice_index k.meta.spins d + 1)
        → ((d : ℕ) → (d < k.meta.gear) ⊎ (to ≤ d)
        → slice_index spins d ≡ slice_index k.meta.spins d) → MarksInMemory k j }
    ensures rebuilt { (k j : Service) (disk was units : ℕ)
        → j.slots ≡ k.slots → j.named ≡ k.named → k.meta.out ≡ Fresh disk was
        → IsSettled k.meta → j.meta ≡ meta_with_out k.meta (Fresh disk units) → MarksInMemory k j }
    ensures settled { (power : ℕ → PowerType) (base m : MetaType)
        → ShowsMeta power base m → IsSettled m }
    ensures down_powers { (m : MetaType) (to d : ℕ) → m.phase ≡ Steady
        → power_by_gear m.gear m.phase d ≡ power_by_gear m.gear (Down to) d }
    ensures up_powers { (m : MetaType) (to d : ℕ) → m.phase ≡ Up to → m.gear ≤ to
        → power_by_gear m.gear m.phase d ≡ power_by_gear to Steady d }
{}
