//! That a shift begins and ends between parts of an event: by its mark, a commit, and disks that
//! are powered.
ghost use Rattle.std.specs.Prelude.{◌≡◌, ℕ, ◌+◌, ◌<◌, ◌≤◌, ◌⊎◌, List, Option, Some, slice_index};
ghost use Rattle.paraid_base.specs.declared.state.Out.TheVariants.{No};
ghost use Rattle.paraid_base.specs.declared.state.Phase.TheVariants.{Down, Steady, Up};
ghost use Rattle.paraid_base.specs.History.{History};
ghost use Rattle.paraid_rack.specs.Told.{Ran};
ghost use Rattle.paraid_rack.specs.Trail.{Trail, now};
ghost use Rattle.paraid_record.specs.declared.meta.Meta.{Meta as MetaType};
ghost use Rattle.paraid_moves.specs.MoveMetas.{meta_after_begin, meta_flipped_to};
ghost use Rattle.paraid_event.specs.Service.{Service};
ghost use Rattle.paraid_event.specs.Stands.{ServiceStandsFor};
ghost use Rattle.paraid_event.specs.Steps.{PowersFrom, ServesMarked, StepsInEvent, StepsToMark};

/// A shift ends by its mark after other marks, a commit of them, and disks that are parked; one
/// down begins by its mark and a commit; and one up by its mark, a commit, and disks that are spun
/// up.
pub fn a_shift_begins_and_ends_in_steps()
    ensures ended { (told mid opened_told told_then : Option Trail)
        (i k j opened k_then : Service) (powers : MetaType) (h : History) (lo lo_then most to : ℕ)
        → k.meta.out ≡ No → j.slots ≡ k.slots
        → j.named ≡ k.named → ((t : Trail) → mid ≡ Some t → ServiceStandsFor k h lo (now t)
        → ServiceStandsFor j h lo (now t)) → j.meta ≡ meta_flipped_to k.meta to
        → lo ≤ lo_then → opened.slots ≡ j.slots → k_then.slots ≡ opened.slots
        → opened.meta.epoch ≡ j.meta.epoch + 1 → Ran told mid (StepsToMark i k powers h lo most)
        → Ran mid opened_told (ServesMarked j opened h lo lo_then)
        → Ran opened_told told_then (PowersFrom powers opened k_then h lo)
        → Ran told told_then (StepsInEvent i k_then h lo (most + 1)) }
    ensures down { (told mid told_then : Option Trail)
        (i k j k_then : Service) (h : History) (lo lo_then most to : ℕ)
        → k.meta.out ≡ No → j.slots ≡ k.slots → j.named ≡ k.named → ((t : Trail)
        → mid ≡ Some t → ServiceStandsFor k h lo (now t) → ServiceStandsFor j h lo (now t))
        → k.meta.phase ≡ Steady → j.meta ≡ meta_after_begin k.meta (Down to) k.meta.spins
        → lo ≤ lo_then → k_then.slots ≡ j.slots
        → k_then.meta.epoch ≡ j.meta.epoch + 1 → Ran told mid (StepsInEvent i k h lo most)
        → Ran mid told_then (ServesMarked j k_then h lo lo_then)
        → Ran told told_then (StepsInEvent i k_then h lo (most + 1)) }
    ensures up { (told mid opened_told told_then : Option Trail)
        (i k j opened k_then : Service) (h : History) (lo lo_then most to : ℕ) (spins : List ℕ)
        → k.meta.out ≡ No → j.slots ≡ k.slots → j.named ≡ k.named → ((t : Trail)
        → mid ≡ Some t → ServiceStandsFor k h lo (now t) → ServiceStandsFor j h lo (now t))
        → j.meta ≡ meta_after_begin k.meta (Up to) spins → ((d : ℕ) → k.meta.gear ≤ d
        → d < to → slice_index spins d ≡ slice_index k.meta.spins d + 1) → ((d : ℕ)
        → (d < k.meta.gear) ⊎ (to ≤ d) → slice_index spins d ≡ slice_index k.meta.spins d)
        → lo ≤ lo_then → opened.slots ≡ j.slots → k_then.slots ≡ opened.slots
        → opened.meta.epoch ≡ j.meta.epoch + 1 → Ran told mid (StepsInEvent i k h lo most)
        → Ran mid opened_told (ServesMarked j opened h lo lo_then)
        → Ran opened_told told_then (PowersFrom k.meta opened k_then h lo)
        → Ran told told_then (StepsInEvent i k_then h lo (most + 1)) }
{}
