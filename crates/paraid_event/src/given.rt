//! That the clauses of a core give what is told of its calls in an event.
ghost use Rattle.std.specs.Prelude.{◌≡◌, ℕ, ◌<◌, ◌⊎◌, false, Option, Some};
ghost use Rattle.paraid_base.specs.declared.fault.Two.{Two as TwoType};
ghost use Rattle.paraid_base.specs.History.{History};
ghost use Rattle.paraid_base.specs.States.{gone_out, named_out};
ghost use Rattle.paraid_rack.specs.Disks.{is_present};
ghost use Rattle.paraid_rack.specs.Slots.{Agrees, Slot};
ghost use Rattle.paraid_rack.specs.Told.{CrashTriple, Ran, Through};
ghost use Rattle.paraid_rack.specs.Trail.{Trail, now};
ghost use Rattle.paraid_record.specs.declared.meta.Meta.{Meta as MetaType};
ghost use Rattle.paraid_record.specs.declared.meta.Setup.{Setup as SetupType};
ghost use Rattle.paraid_core.specs.Calls.{IsDataCall, IsTransferCall};
ghost use Rattle.paraid_core.specs.CoreInvariant.{IsHeldWithOneMissing};
ghost use Rattle.paraid_core.specs.Lost.{MarksLost};
ghost use Rattle.paraid_session.specs.Turn.{Point};
ghost use Rattle.paraid_txn.specs.Commit.{IsOldOrNew};
ghost use Rattle.paraid_txn.specs.Uses.{EachCall};
ghost use Rattle.paraid_event.specs.Marks.{IsMarkedBy};
ghost use Rattle.paraid_event.specs.Lost.{TellsTwo};
ghost use Rattle.paraid_event.specs.Parts.{LosesInEvent, ServesEvent, committed_meta};
ghost use Rattle.paraid_event.specs.Service.{Service};
ghost use Rattle.paraid_event.specs.Stands.{ServiceStandsFor, StandsAt};

/// What a core says of its calls, of what is held at each moment, of its mark of a lost disk and of
/// a commit is what is told of its calls in an event.
pub fn a_core_serves_an_event()
    ensures between { (told told_then : Option Trail)
        (k k_then : Service) (h h_then : History) (lo lo_then : ℕ) (out : Option ℕ)
        → ((d : ℕ) → out ≡ Some d → (k.named ≡ Some d) ⊎ (named_out k.meta.out ≡ Some d))
        → Ran told told_then
        (EachCall (IsDataCall k.meta.setup.geometry.disks (gone_out k.meta.out)))
        → Ran told told_then (CrashTriple (IsHeldWithOneMissing k.slots k.meta.setup.geometry.disks
        out h lo) (ServiceStandsFor k h lo) (ServiceStandsFor k_then h_then lo_then))
        → ((t : Trail) → told_then ≡ Some t → IsMarkedBy (now t).power k.meta k_then.meta)
        → Ran told told_then (ServesEvent k k_then h lo h_then lo_then) }
    ensures commit { (told told_then : Option Trail)
        (k k_then : Service) (h h_then : History) (lo lo_then : ℕ) (out : Option ℕ)
        → ((d : ℕ) → out ≡ Some d → (k.named ≡ Some d) ⊎ (named_out k.meta.out ≡ Some d))
        → Ran told told_then
        (EachCall (IsTransferCall k.meta.setup.geometry.disks (gone_out k.meta.out)))
        → Ran told told_then (CrashTriple (IsHeldWithOneMissing k.slots k.meta.setup.geometry.disks
        out h lo) (ServiceStandsFor k h lo) (ServiceStandsFor k_then h_then lo_then))
        → Ran told told_then (λ s cs. (z : ServiceStandsFor k h lo s)
        → Through (IsOldOrNew s z.base (committed_meta k) k.batch) s cs)
        → ((t : Trail) → told_then ≡ Some t → IsMarkedBy (now t).power k.meta k_then.meta)
        → Ran told told_then (ServesEvent k k_then h lo h_then lo_then) }
{}

/// So it is where a second disk is lost.
pub fn a_core_loses_in_an_event()
    ensures between { (told told_then : Option Trail)
        (k : Service) (two : TwoType) (h : History) (lo : ℕ) (out : Option ℕ)
        → ((d : ℕ) → out ≡ Some d → (k.named ≡ Some d) ⊎ (named_out k.meta.out ≡ Some d))
        → Ran told told_then
        (EachCall (IsDataCall k.meta.setup.geometry.disks (gone_out k.meta.out)))
        → Ran told told_then (CrashTriple
        (IsHeldWithOneMissing k.slots k.meta.setup.geometry.disks out h lo) (ServiceStandsFor
        k h lo) (IsHeldWithOneMissing k.slots k.meta.setup.geometry.disks out h lo))
        → Ran told told_then (TellsTwo k two)
        → Ran told told_then (λ s cs. LosesInEvent k h lo s cs × TellsTwo k two s cs) }
    ensures commit { (told told_then : Option Trail)
        (k : Service) (two : TwoType) (h : History) (lo : ℕ) (out : Option ℕ)
        → ((d : ℕ) → out ≡ Some d → (k.named ≡ Some d) ⊎ (named_out k.meta.out ≡ Some d))
        → Ran told told_then
        (EachCall (IsTransferCall k.meta.setup.geometry.disks (gone_out k.meta.out)))
        → Ran told told_then (CrashTriple
        (IsHeldWithOneMissing k.slots k.meta.setup.geometry.disks out h lo) (ServiceStandsFor
        k h lo) (IsHeldWithOneMissing k.slots k.meta.setup.geometry.disks out h lo))
        → Ran told told_then (λ s cs. (z : ServiceStandsFor k h lo s)
        → Through (IsOldOrNew s z.base (committed_meta k) k.batch) s cs)
        → Ran told told_then (TellsTwo k two)
        → Ran told told_then (λ s cs. LosesInEvent k h lo s cs × TellsTwo k two s cs) }
{}

/// The mark of a disk that a core has lost is that of the disks that its rack tells.
pub fn a_core_marks_what_is_told()
    ensures { (told told_then : Option Trail) (k : Service) (m_then : MetaType) (setup : SetupType)
        (p : Point) (slot slot_then : ℕ → Slot) → StandsAt told k setup p → Ran told told_then
        (EachCall (IsTransferCall k.meta.setup.geometry.disks (gone_out k.meta.out)))
        → ((t : Trail) → told ≡ Some t → Agrees (now t) slot)
        → ((t : Trail) → told_then ≡ Some t → Agrees (now t) slot_then)
        → MarksLost slot slot_then k.meta m_then → ((d : ℕ) → d < k.meta.setup.geometry.disks
        → is_present (slot_then d).power ≡ false → named_out m_then.out ≡ Some d)
        → (t : Trail) → told_then ≡ Some t → IsMarkedBy (now t).power k.meta m_then }
{}
