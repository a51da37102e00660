//! That the parts of a mount go together.
ghost use Rattle.std.specs.Prelude.{◌≡◌, ◌≢◌, ℕ, ◌<◌, ◌≤◌, true, false, Option, Some};
ghost use Rattle.paraid_base.specs.History.{History};
ghost use Rattle.paraid_rack.specs.declared.call.Call.TheVariants.{Park};
ghost use Rattle.paraid_rack.specs.declared.call.Power.TheVariants.{Spinning};
ghost use Rattle.paraid_rack.specs.Disks.{Disks, IsImage, is_present, step};
ghost use Rattle.paraid_recover.specs.HeardSides.{AmongOne};
ghost use Rattle.paraid_txn.specs.Resume.{IsResumable, StandsWhileResumed, EndsResumed};
ghost use Rattle.paraid_image.specs.Standing.{Stands};
ghost use Rattle.paraid_record.specs.declared.meta.Meta.{Meta as MetaType};
ghost use Rattle.paraid_image.specs.HeldAt.{IsHeld};
ghost use Rattle.paraid_image.specs.Out.{IsWeak, named_out};
ghost use Rattle.paraid_image.specs.Spot.{rising_to};
ghost use Rattle.paraid_base.specs.declared.state.Out.TheVariants.{Fresh};
ghost use Rattle.paraid_rack.specs.Trail.{Trail, now};
ghost use Rattle.paraid_recover.specs.HeldMoments.{EndsHeld, IsOutAtEnd, KeepsHeld, Recovers, RecoversHeld, RestsBeside};
ghost use Rattle.paraid_recover.specs.Quiet.{IsReadOrSync};
ghost use Rattle.paraid_recover.specs.Still.{IsLeftWhole, IsUpToDate};
ghost use Rattle.paraid_recover.specs.Powers.{IsPowerCall};
ghost use Rattle.paraid_rack.specs.Told.{CrashTriple, Extends, Ran};
ghost use Rattle.paraid_txn.specs.Uses.{EachCall};
ghost use Rattle.paraid_image.specs.Rest.{AreSynced, IsAtRest};
ghost use Rattle.paraid_image.specs.Sides.{LogState};

/// What is held stays held while an interrupted commit is ended, in the reads and syncs after it,
/// and while then an absent disk is marked.
pub fn a_recovery_leaves_what_is_held()
    ensures refused { (slots x : ℕ) (said : LogState) (old new : Option Trail)
        → StandsWhileResumed old new x said → RecoversHeld slots x said old new }
    ensures resumed { (slots x : ℕ) (said : LogState) (old new : Option Trail)
        → StandsWhileResumed old new x said
        → EndsResumed old new x said → Recovers slots x said old new }
    ensures calls { (slots x : ℕ) (said : LogState) (old mid new : Option Trail)
        → Ran mid new (EachCall (IsReadOrSync said.meta.setup.geometry.disks))
        → Recovers slots x said old mid → Recovers slots x said old new }
    ensures marked { (slots x : ℕ) (said : LogState) (old mid new : Option Trail)
        (d : ℕ) → d < said.meta.setup.geometry.disks
        → ((e : ℕ) → named_out said.meta.out ≡ Some e → e ≡ d)
        → ((t : Trail) → mid ≡ Some t → is_present ((now t).power d) ≡ false)
        → Extends mid new → Recovers slots x said old mid
        → KeepsHeld (λ s. IsAtRest s said.meta) slots said.meta.setup.geometry.disks mid new
        → RecoversHeld slots x said old new }
{}

/// At rest a disk that the meta does not ask to spin can be parked.
pub fn a_disk_can_be_parked_at_rest()
    ensures { (slots : ℕ) (s : Disks) (m : MetaType) (d : ℕ) (h : History) (lo : ℕ)
        (down : Option ℕ) → IsAtRest s m → IsHeld slots s h lo down → s.power d ≡ Spinning
        → 2 ≤ d → m.gear ≤ d → rising_to m.phase ≤ d
        → ((rebuilt : ℕ) → m.out ≢ Fresh d rebuilt)
        → IsHeld slots (step (Park d true) s) h lo down }
{}

/// Spin-ups of recorded disks and parks of disks that need not spin leave what is held: at each
/// moment the disks are at rest. So they do after a recovery, whatever of them fails.
pub fn power_calls_keep_a_rest()
    ensures rests { (slots : ℕ) (m : MetaType) (h : History) (lo : ℕ) (old new : Option Trail)
        → Ran old new (EachCall (IsPowerCall m))
        → Ran old new (CrashTriple (RestsBeside slots m h lo) (RestsBeside slots m h lo)
        (RestsBeside slots m h lo)) }
    ensures recovers { (slots x : ℕ) (said : LogState) (m : MetaType) (old mid new : Option Trail)
        → m.setup.geometry.disks ≡ said.meta.setup.geometry.disks → IsOutAtEnd said m mid
        → Ran mid new (EachCall (IsPowerCall m)) → RecoversHeld slots x said old mid
        → EndsHeld slots x said m old mid → RecoversHeld slots x said old new }
    ensures ends { (slots x : ℕ) (said : LogState) (m : MetaType) (old mid new : Option Trail)
        → m.setup.geometry.disks ≡ said.meta.setup.geometry.disks → IsOutAtEnd said m mid
        → Ran mid new (EachCall (IsPowerCall m)) → RecoversHeld slots x said old mid
        → EndsHeld slots x said m old mid → EndsHeld slots x said m old new }
{}

/// What was held before the log disks were read is held after it, where one disk at most is absent
/// or was weak, and the commit that stands then can be ended. A slot that is absent has no block.
pub fn reads_leave_what_can_be_recovered()
    ensures { (slots x : ℕ) (said : LogState) (s t : Disks) (h : History) (lo : ℕ)
        (was down : Option ℕ) → AreSynced s
        → ((d : ℕ) → is_present (s.power d) ≡ false → s.size d ≡ 0)
        → ((i : Disks) (w : ℕ) → IsImage s i → IsWeak i w → down ≡ Some w)
        → IsHeld slots s h lo was → AmongOne s t
        → ((d : ℕ) → d < 2 → is_present (t.power d) ≡ false → down ≡ Some d)
        → Stands t x said → IsResumable t x said × IsHeld slots t h lo down
        × ((w : ℕ) → IsWeak t w → down ≡ Some w) }
{}

/// An array at rest, whose meta asks a mount to bring nothing up to date, was left whole.
pub fn an_array_at_rest_was_left_whole()
    ensures { (s : Disks) (m : MetaType) (x : ℕ) (said : LogState)
        → IsAtRest s m → IsUpToDate m s → Stands s x said → IsLeftWhole said s }
{}
