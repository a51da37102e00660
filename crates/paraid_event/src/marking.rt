//! That marks in memory follow parts of an event, and commits the marks; and that disks which show
//! the meta in memory show the shift.
ghost use Rattle.std.specs.Prelude.{◌≡◌, ℕ, ◌+◌, ◌<◌, ◌≤◌, false, [], None, Option, Some, slice_index};
ghost use Rattle.paraid_base.specs.declared.fault.Two.{Two as TwoType};
ghost use Rattle.paraid_base.specs.declared.state.Out.TheVariants.{No};
ghost use Rattle.paraid_base.specs.History.{History};
ghost use Rattle.paraid_base.specs.States.{gone_out, rising_to};
ghost use Rattle.paraid_rack.specs.Disks.{Disks};
ghost use Rattle.paraid_rack.specs.Told.{Ran};
ghost use Rattle.paraid_rack.specs.Trail.{Trail, now};
ghost use Rattle.paraid_record.specs.declared.meta.Meta.{Meta as MetaType};
ghost use Rattle.paraid_image.specs.Power.{power_by_gear};
ghost use Rattle.paraid_core.specs.Calls.{IsDataCall};
ghost use Rattle.paraid_core.specs.CellCopies.{KeepsCellCopies};
ghost use Rattle.paraid_txn.specs.Uses.{EachCall};
ghost use Rattle.paraid_event.specs.Lost.{TellsTwo};
ghost use Rattle.paraid_event.specs.Marks.{ShowsMeta};
ghost use Rattle.paraid_event.specs.Parts.{LosesInEvent};
ghost use Rattle.paraid_event.specs.Powering.{PowersInEvent, ServiceRests};
ghost use Rattle.paraid_event.specs.Service.{Service};
ghost use Rattle.paraid_event.specs.Stands.{ServiceStandsFor};
ghost use Rattle.paraid_event.specs.Steps.{LosesInSteps, LosesPowered, MarksInMemory, PowersFrom, ServesAndMarks, ServesMarked, StepsInEvent, StepsToMark};

/// Where disks show the meta in memory, the shift is that of the last commit: cells can be copied
/// from there, and with nothing staged stripes too, and disks can be powered.
pub fn a_shown_meta_is_that_of_the_shift()
    ensures stands { (k : Service) (h : History)
        (lo : ℕ) (s : Disks) (z : ServiceStandsFor k h lo s) → ShowsMeta s.power z.base k.meta
        → KeepsCellCopies k.slots k.named k.meta k.table k.batch k.copied h lo (λ r d. false) s }
    ensures rests { (k : Service) (h : History) (lo : ℕ) (s : Disks) (z : ServiceStandsFor k h lo s)
        → ShowsMeta s.power z.base k.meta → k.batch ≡ [] → ServiceRests k h lo s }
{}

/// A mark makes no call: one of cells leaves the event underway; after another one, or more of
/// them, the next commit is to bring it. Copies and a mark of them are so too.
pub fn marks_are_a_step()
    ensures cells { (told mid : Option Trail) (i k j : Service) (h : History) (lo most : ℕ)
        → j.meta ≡ k.meta → j.slots ≡ k.slots → j.named ≡ k.named → ((t : Trail)
        → mid ≡ Some t → ServiceStandsFor k h lo (now t) → ServiceStandsFor j h lo (now t))
        → Ran told mid (StepsInEvent i k h lo most) → Ran told mid (StepsInEvent i j h lo most) }
    ensures shift { (told mid : Option Trail) (i k j : Service) (h : History) (lo most : ℕ)
        → MarksInMemory k j → ((t : Trail) → mid ≡ Some t → ServiceStandsFor k h lo (now t)
        → ServiceStandsFor j h lo (now t)) → Ran told mid (StepsInEvent i k h lo most)
        → Ran told mid (StepsToMark i j k.meta h lo most) }
    ensures more { (told mid : Option Trail)
        (i k j : Service) (powers : MetaType) (h : History) (lo most : ℕ)
        → MarksInMemory k j → ((t : Trail) → mid ≡ Some t → ServiceStandsFor k h lo (now t)
        → ServiceStandsFor j h lo (now t)) → Ran told mid (StepsToMark i k powers h lo most)
        → Ran told mid (StepsToMark i j powers h lo most) }
    ensures copies { (told told_then : Option Trail) (k unmarked j : Service) (h : History) (lo : ℕ)
        → unmarked.slots ≡ k.slots → MarksInMemory unmarked j
        → Ran told told_then (ServesAndMarks k unmarked j h lo) → Ran told told_then
        (EachCall (IsDataCall k.meta.setup.geometry.disks (gone_out k.meta.out)))
        → Ran told told_then (StepsToMark k j unmarked.meta h lo 0) }
    ensures later { (told mid told_then : Option Trail) (k j k_then : Service) (powers : MetaType)
        (h : History) (lo most more : ℕ) → Ran told mid (StepsInEvent k j h lo most)
        → Ran mid told_then (StepsToMark j k_then powers h lo more)
        → Ran told told_then (StepsToMark k k_then powers h lo (most + more)) }
{}

/// A commit brings the marks: where the disks are powered by the new meta already the event is
/// underway again, and else once they are spun up or parked. So it is where a second disk is lost
/// in either.
pub fn a_mark_is_committed()
    ensures commit { (told mid told_then : Option Trail)
        (k j k_then : Service) (powers : MetaType) (h : History) (lo lo_then most : ℕ)
        → lo ≤ lo_then → k_then.slots ≡ j.slots → k_then.meta.epoch ≡ j.meta.epoch + 1 → ((d : ℕ)
        → power_by_gear powers.gear powers.phase d ≡ power_by_gear j.meta.gear j.meta.phase d)
        → Ran told mid (StepsToMark k j powers h lo most)
        → Ran mid told_then (ServesMarked j k_then h lo lo_then)
        → Ran told told_then (StepsInEvent k k_then h lo (most + 1)) }
    ensures powered { (told mid opened_told told_then : Option Trail)
        (k j opened k_then : Service) (powers : MetaType) (h : History) (lo lo_then most : ℕ)
        → lo ≤ lo_then → opened.slots ≡ j.slots
        → k_then.slots ≡ opened.slots → opened.meta.epoch ≡ j.meta.epoch + 1 → j.meta.out ≡ No
        → ((d : ℕ) → j.meta.gear ≤ d → d < rising_to j.meta.phase → 1 ≤ slice_index j.meta.spins d)
        → Ran told mid (StepsToMark k j powers h lo most)
        → Ran mid opened_told (ServesMarked j opened h lo lo_then)
        → Ran opened_told told_then (PowersFrom powers opened k_then h lo)
        → Ran told told_then (StepsInEvent k k_then h lo (most + 1)) }
    ensures commit_loses { (told mid told_then : Option Trail)
        (k j : Service) (powers : MetaType) (h : History) (lo most : ℕ) (two : TwoType)
        → Ran told mid (StepsToMark k j powers h lo most)
        → Ran mid told_then (λ s cs. LosesInEvent j h lo s cs × TellsTwo j two s cs)
        → Ran told told_then (LosesInSteps k h lo (most + 1) two) }
    ensures powered_loses { (told mid opened_told told_then : Option Trail) (k j opened : Service)
        (powers : MetaType) (h : History) (lo lo_then most : ℕ) (two : TwoType) → lo ≤ lo_then
        → opened.slots ≡ j.slots → opened.meta.epoch ≡ j.meta.epoch + 1 → j.meta.out ≡ No
        → ((d : ℕ) → j.meta.gear ≤ d → d < rising_to j.meta.phase → 1 ≤ slice_index j.meta.spins d)
        → Ran told mid (StepsToMark k j powers h lo most)
        → Ran mid opened_told (ServesMarked j opened h lo lo_then)
        → Ran opened_told told_then (λ s cs. LosesPowered opened h lo s cs
        × TellsTwo opened two s cs) → Ran told told_then (LosesInSteps k h lo (most + 1) two) }
{}

/// Disks that are spun up or parked where no mark awaits a commit are a part of an event with none;
/// so they are where a second disk is lost.
pub fn powers_are_a_step()
    ensures plain { (told told_then : Option Trail) (k k_then : Service) (powers : MetaType)
        (h : History) (lo : ℕ) → Ran told told_then (PowersInEvent k k_then h lo)
        → Ran told told_then (PowersFrom powers k k_then h lo) }
    ensures ends { (told told_then : Option Trail) (k k_then : Service) (h : History) (lo : ℕ)
        → gone_out k.meta.out ≡ None
        → ((d : ℕ) → k.meta.gear ≤ d → d < rising_to k.meta.phase → 1 ≤ slice_index k.meta.spins d)
        → k_then.slots ≡ k.slots → Ran told told_then (PowersFrom k.meta k k_then h lo)
        → Ran told told_then (StepsInEvent k k_then h lo 0) }
    ensures loses { (told told_then : Option Trail)
        (k : Service) (h : History) (lo : ℕ) (two : TwoType) → gone_out k.meta.out ≡ None
        → ((d : ℕ) → k.meta.gear ≤ d → d < rising_to k.meta.phase → 1 ≤ slice_index k.meta.spins d)
        → Ran told told_then (λ s cs. LosesPowered k h lo s cs × TellsTwo k two s cs)
        → Ran told told_then (LosesInSteps k h lo 0 two) }
{}
