//! That the clauses of a core give what is told of its calls from where the disks show its meta.
ghost use Rattle.std.specs.Prelude.{◌≡◌, ℕ, ◌<◌, ◌⊎◌, false, [], Option, Some};
ghost use Rattle.paraid_base.specs.declared.fault.Two.{Two as TwoType};
ghost use Rattle.paraid_base.specs.declared.state.Out.TheVariants.{Fresh};
ghost use Rattle.paraid_base.specs.History.{History};
ghost use Rattle.paraid_base.specs.States.{gone_out, named_out};
ghost use Rattle.paraid_rack.specs.Disks.{is_present};
ghost use Rattle.paraid_rack.specs.Slots.{Agrees, Slot};
ghost use Rattle.paraid_rack.specs.Told.{CrashTriple, Ran, Through};
ghost use Rattle.paraid_rack.specs.Trail.{Trail, now};
ghost use Rattle.paraid_record.specs.declared.meta.Meta.{Meta as MetaType};
ghost use Rattle.paraid_image.specs.Power.{power_by_gear};
ghost use Rattle.paraid_core.specs.Calls.{IsDataCall, IsTransferCall};
ghost use Rattle.paraid_core.specs.CellCopies.{KeepsCellCopies};
ghost use Rattle.paraid_core.specs.CoreInvariant.{IsHeldWithOneMissing};
ghost use Rattle.paraid_core.specs.Lost.{MarksLost};
ghost use Rattle.paraid_txn.specs.Commit.{IsOldOrNew};
ghost use Rattle.paraid_txn.specs.Uses.{EachCall};
ghost use Rattle.paraid_event.specs.Lost.{TellsTwo};
ghost use Rattle.paraid_event.specs.Parts.{committed_meta};
ghost use Rattle.paraid_event.specs.Powering.{ArePowerCalls, ServiceRests};
ghost use Rattle.paraid_event.specs.Service.{Service};
ghost use Rattle.paraid_event.specs.Stands.{ServiceStandsFor};
ghost use Rattle.paraid_event.specs.Steps.{LosesPowered, LosesShown, PowersFrom, ServesMarked, ServesShown};

/// What a core says of its calls, of what is held at each moment from where it rests in a shift on,
/// and of the slots after a loss, is what is told of its calls from where the disks show its meta;
/// so it is in a commit, also in one that brings marks.
pub fn a_core_serves_where_its_meta_is_shown()
    ensures shift { (told told_then : Option Trail) (k k_then : Service)
        (h : History) (lo lo_then : ℕ) (out : Option ℕ) (slot slot_then : ℕ → Slot)
        → ((d : ℕ) → out ≡ Some d → (k.named ≡ Some d) ⊎ (named_out k.meta.out ≡ Some d))
        → ((t : Trail) → told ≡ Some t → Agrees (now t) slot)
        → ((t : Trail) → told_then ≡ Some t → Agrees (now t) slot_then)
        → MarksLost slot slot_then k.meta k_then.meta
        → ((d : ℕ) → d < k.meta.setup.geometry.disks → is_present (slot_then d).power ≡ false
        → named_out k_then.meta.out ≡ Some d) → Ran told told_then
        (EachCall (IsDataCall k.meta.setup.geometry.disks (gone_out k.meta.out)))
        → Ran told told_then
        (CrashTriple (IsHeldWithOneMissing k.slots k.meta.setup.geometry.disks out h lo)
        (KeepsCellCopies k.slots k.named k.meta k.table k.batch k.copied h lo (λ r d. false))
        (ServiceStandsFor k_then h lo_then))
        → Ran told told_then (ServesShown k k_then h lo lo_then) }
    ensures rests { (told told_then : Option Trail) (k k_then : Service)
        (h : History) (lo lo_then : ℕ) (out : Option ℕ) (slot slot_then : ℕ → Slot)
        → ((d : ℕ) → out ≡ Some d → (k.named ≡ Some d) ⊎ (named_out k.meta.out ≡ Some d))
        → ((t : Trail) → told ≡ Some t → Agrees (now t) slot)
        → ((t : Trail) → told_then ≡ Some t → Agrees (now t) slot_then)
        → MarksLost slot slot_then k.meta k_then.meta
        → ((d : ℕ) → d < k.meta.setup.geometry.disks → is_present (slot_then d).power ≡ false
        → named_out k_then.meta.out ≡ Some d) → k.batch ≡ [] → Ran told told_then
        (EachCall (IsDataCall k.meta.setup.geometry.disks (gone_out k.meta.out)))
        → Ran told told_then (CrashTriple (IsHeldWithOneMissing k.slots k.meta.setup.geometry.disks
        out h lo) (ServiceRests k h lo) (ServiceStandsFor k_then h lo_then))
        → Ran told told_then (ServesShown k k_then h lo lo_then) }
    ensures commit { (told told_then : Option Trail) (k k_then : Service)
        (h : History) (lo lo_then : ℕ) (out : Option ℕ) (slot slot_then : ℕ → Slot)
        → ((d : ℕ) → out ≡ Some d → (k.named ≡ Some d) ⊎ (named_out k.meta.out ≡ Some d))
        → ((t : Trail) → told ≡ Some t → Agrees (now t) slot)
        → ((t : Trail) → told_then ≡ Some t → Agrees (now t) slot_then)
        → MarksLost slot slot_then k.meta k_then.meta
        → ((d : ℕ) → d < k.meta.setup.geometry.disks → is_present (slot_then d).power ≡ false
        → named_out k_then.meta.out ≡ Some d) → Ran told told_then
        (EachCall (IsTransferCall k.meta.setup.geometry.disks (gone_out k.meta.out)))
        → Ran told told_then (CrashTriple (IsHeldWithOneMissing k.slots k.meta.setup.geometry.disks
        out h lo) (ServiceStandsFor k h lo) (ServiceStandsFor k_then h lo_then))
        → Ran told told_then (λ s cs. (z : ServiceStandsFor k h lo s)
        → Through (IsOldOrNew s z.base (committed_meta k) k.batch) s cs)
        → Ran told told_then (ServesShown k k_then h lo lo_then) }
    ensures marked { (told told_then : Option Trail) (k k_then : Service)
        (h : History) (lo lo_then : ℕ) (out : Option ℕ) (slot slot_then : ℕ → Slot)
        → ((d : ℕ) → out ≡ Some d → (k.named ≡ Some d) ⊎ (named_out k.meta.out ≡ Some d))
        → ((t : Trail) → told ≡ Some t → Agrees (now t) slot)
        → ((t : Trail) → told_then ≡ Some t → Agrees (now t) slot_then)
        → MarksLost slot slot_then k.meta k_then.meta
        → ((d : ℕ) → d < k.meta.setup.geometry.disks → is_present (slot_then d).power ≡ false
        → named_out k_then.meta.out ≡ Some d) → Ran told told_then
        (EachCall (IsTransferCall k.meta.setup.geometry.disks (gone_out k.meta.out)))
        → Ran told told_then (CrashTriple (IsHeldWithOneMissing k.slots k.meta.setup.geometry.disks
        out h lo) (ServiceStandsFor k h lo) (ServiceStandsFor k_then h lo_then))
        → Ran told told_then (λ s cs. (z : ServiceStandsFor k h lo s)
        → Through (IsOldOrNew s z.base (committed_meta k) k.batch) s cs)
        → Ran told told_then (ServesMarked k k_then h lo lo_then) }
{}

/// What it says of disks that are spun up or parked, from where it rests with nothing staged, and
/// of their powers, is what is told of them from where the disks show its meta: each is as the meta
/// after it says, or as it was where that is the same.
pub fn a_core_powers_where_its_meta_is_shown()
    ensures ends { (told told_then : Option Trail) (k k_then : Service)
        (powers : MetaType) (h : History) (lo : ℕ) (out : Option ℕ) (slot slot_then : ℕ → Slot)
        → ((d : ℕ) → out ≡ Some d → (k.named ≡ Some d) ⊎ (named_out k.meta.out ≡ Some d))
        → ((t : Trail) → told ≡ Some t → Agrees (now t) slot)
        → ((t : Trail) → told_then ≡ Some t → Agrees (now t) slot_then)
        → MarksLost slot slot_then k.meta k_then.meta
        → ((d : ℕ) → d < k.meta.setup.geometry.disks → is_present (slot_then d).power ≡ false
        → named_out k_then.meta.out ≡ Some d) → ((d rebuilt : ℕ) → k.meta.out ≡ Fresh d rebuilt → ⊥)
        → ((d : ℕ) → d < k.meta.setup.geometry.disks → (named_out k_then.meta.out ≡ Some d → ⊥)
        → ((slot_then d).power ≡ power_by_gear k_then.meta.gear k_then.meta.phase d)
        ⊎ (((slot_then d).power ≡ (slot d).power) × (power_by_gear powers.gear powers.phase d
        ≡ power_by_gear k_then.meta.gear k_then.meta.phase d)))
        → k.batch ≡ [] → k_then.batch ≡ [] → Ran told told_then (ArePowerCalls k.meta)
        → Ran told told_then (CrashTriple (IsHeldWithOneMissing k.slots
        k.meta.setup.geometry.disks out h lo) (ServiceRests k h lo) (ServiceRests k_then h lo))
        → Ran told told_then (PowersFrom powers k k_then h lo) }
    ensures loses { (told told_then : Option Trail)
        (k : Service) (two : TwoType) (h : History) (lo : ℕ) (out : Option ℕ)
        → ((d : ℕ) → out ≡ Some d → (k.named ≡ Some d) ⊎ (named_out k.meta.out ≡ Some d))
        → k.batch ≡ [] → Ran told told_then (ArePowerCalls k.meta) → Ran told told_then
        (CrashTriple (IsHeldWithOneMissing k.slots k.meta.setup.geometry.disks out h lo)
        (ServiceRests k h lo) (IsHeldWithOneMissing k.slots k.meta.setup.geometry.disks out h lo))
        → Ran told told_then (TellsTwo k two)
        → Ran told told_then (λ s cs. LosesPowered k h lo s cs × TellsTwo k two s cs) }
{}

/// So it is where a second disk is lost between two commits.
pub fn a_core_loses_where_its_meta_is_shown()
    ensures shift { (told told_then : Option Trail)
        (k : Service) (two : TwoType) (h : History) (lo : ℕ) (out : Option ℕ)
        → ((d : ℕ) → out ≡ Some d → (k.named ≡ Some d) ⊎ (named_out k.meta.out ≡ Some d))
        → Ran told told_then
        (EachCall (IsDataCall k.meta.setup.geometry.disks (gone_out k.meta.out)))
        → Ran told told_then
        (CrashTriple (IsHeldWithOneMissing k.slots k.meta.setup.geometry.disks out h lo)
        (KeepsCellCopies k.slots k.named k.meta k.table k.batch k.copied h lo (λ r d. false))
        (IsHeldWithOneMissing k.slots k.meta.setup.geometry.disks out h lo))
        → Ran told told_then (TellsTwo k two)
        → Ran told told_then (λ s cs. LosesShown k h lo s cs × TellsTwo k two s cs) }
    ensures rests { (told told_then : Option Trail)
        (k : Service) (two : TwoType) (h : History) (lo : ℕ) (out : Option ℕ)
        → ((d : ℕ) → out ≡ Some d → (k.named ≡ Some d) ⊎ (named_out k.meta.out ≡ Some d))
        → k.batch ≡ [] → Ran told told_then
        (EachCall (IsDataCall k.meta.setup.geometry.disks (gone_out k.meta.out)))
        → Ran told told_then
        (CrashTriple (IsHeldWithOneMissing k.slots k.meta.setup.geometry.disks out h lo)
        (ServiceRests k h lo) (IsHeldWithOneMissing k.slots k.meta.setup.geometry.disks out h lo))
        → Ran told told_then (TellsTwo k two)
        → Ran told told_then (λ s cs. LosesShown k h lo s cs × TellsTwo k two s cs) }
{}
