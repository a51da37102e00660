//! That the parts of a mount give what a session asks of it.
ghost use Rattle.std.specs.Prelude.{◌≡◌, ℕ, ◌<◌, ◌≤◌, ◌++◌, List, drop, length, take, true, false, Option, Some, None};
ghost use Rattle.paraid_base.specs.declared.state.Out.TheVariants.{Gone};
ghost use Rattle.paraid_base.specs.History.{History};
ghost use Rattle.paraid_base.specs.States.{gone_out};
ghost use Rattle.paraid_rack.specs.declared.call.Call.{Call as CallType};
ghost use Rattle.paraid_rack.specs.Atoms.{IsSure};
ghost use Rattle.paraid_rack.specs.Disks.{Disks, IsImage, IsPresent, is_present, lose};
ghost use Rattle.paraid_rack.specs.Slots.{Agrees, Slot};
ghost use Rattle.paraid_rack.specs.Told.{Ran, Through};
ghost use Rattle.paraid_rack.specs.Trail.{Trail, disks, extend, moments, now, run};
ghost use Rattle.paraid_rack.specs.Calls.{IsTransfer};
ghost use Rattle.paraid_record.specs.declared.meta.Meta.{Meta as MetaType};
ghost use Rattle.paraid_image.specs.HeldAt.{IsHeld, MayLose};
ghost use Rattle.paraid_image.specs.Looked.{IsLooked};
ghost use Rattle.paraid_image.specs.Out.{IsWeak, named_out, out_disk};
ghost use Rattle.paraid_image.specs.Power.{initial_state, out_state};
ghost use Rattle.paraid_image.specs.Rest.{IsAtRest};
ghost use Rattle.paraid_image.specs.RunStart.{IsRunStart};
ghost use Rattle.paraid_image.specs.Sides.{Batch, LogState, Says, closed_over, is_open};
ghost use Rattle.paraid_recover.specs.Bearing.{IsNamedLog};
ghost use Rattle.paraid_image.specs.Standing.{Stands, other_log};
ghost use Rattle.paraid_recover.specs.HeldMoments.{IsAbsentSince, RestsBeside};
ghost use Rattle.paraid_recover.specs.Mounted.{IsServable, with_loss};
ghost use Rattle.paraid_recover.specs.RecoveryMark.{to_mark, with_mark};
ghost use Rattle.paraid_recover.specs.Powers.{IsPowerCall};
ghost use Rattle.paraid_session.specs.Mount.{BeginsSession, IsAllowedInMount, IsBase, IsMountRefused, IsMounted, IsRefusedFromEach, Refusal, down_after_mount, mount_bounds, start_watch};
ghost use Rattle.paraid_session.specs.Turn.{IsMark};
ghost use Rattle.paraid_session.specs.Watch.{Bounds, Each, IsAmongDown, IsHeldWhileServing, IsServing, Watch, fails_on, first_lost, watch_all};
ghost use Rattle.paraid_recover.specs.HeardSides.{ReadsLogs};
ghost use Rattle.paraid_recover.specs.MountCalls.{IsMountCall};
ghost use Rattle.paraid_recover.specs.StartCalls.{IsSpinUpRecorded, MakesMountCall};
ghost use Rattle.paraid_recover.specs.FirstPoint.{first_point};
ghost use Rattle.paraid_recover.specs.StartHeld.{HoldsAfter};
ghost use Rattle.paraid_recover.specs.StandingMetas.{StandsForeseen};
ghost use Rattle.paraid_recover.specs.StartParts.{AreMountCalls, EndsRefused, EndsServed};
ghost use Rattle.paraid_recover.specs.RecordedSpins.{AreSpinUpsRecorded, HasRecord, IsWithinBoundsAt, OnlyStands, StaysWithin, StaysWithinAt};
ghost use Rattle.paraid_txn.specs.Resume.{IsResumable};
ghost use Rattle.paraid_txn.specs.Uses.{EachCall, Uses, UsesInCommit, UsesSync};

/// The calls of each part of a mount are such as a mount may make; and they are all that a session
/// allows, where each spin-up is recorded.
pub fn calls_of_a_mount_are_allowed()
    ensures reads { (n : ℕ) (gone : Option ℕ) (c : CallType) → 3 ≤ n → ReadsLogs c
        → IsMountCall n gone c }
    ensures resumes { (m : MetaType) (batch : Batch) (c : CallType) → Uses m batch c
        → IsMountCall m.setup.geometry.disks (gone_out m.out) c }
    ensures syncs { (n : ℕ) (gone : Option ℕ) (c : CallType) → UsesSync n gone c
        → IsMountCall n gone c }
    ensures marks { (m : MetaType) (batch : Batch) (c : CallType) → UsesInCommit m batch c
        → IsMountCall m.setup.geometry.disks None c }
    ensures powers { (m : MetaType) (c : CallType) → IsPowerCall m c
        → IsMountCall m.setup.geometry.disks (gone_out m.out) c }
    ensures allowed { (said : LogState) (s : Disks) (down : Option ℕ) (base : ℕ → ℕ)
        (cs : List CallType)
        → Each (λ w. Unit {0}) (MakesMountCall said.meta.setup.geometry.disks
        (gone_out said.meta.out)) (start_watch s down base) cs
        → Each (λ w. Unit {0}) IsSpinUpRecorded (start_watch s down base) cs
        → Each (λ w. Unit {0}) (IsAllowedInMount said) (start_watch s down base) cs }
{}

/// What the steps of a mount say by the disks that are absent, a session says by the calls that
/// failed: at each moment what is held is held beside the one disk that is down.
pub fn failed_calls_bring_down_what_is_absent()
    ensures { (slots : ℕ) (s : Disks) (h : History)
        (lo : ℕ) (down : Option ℕ) (x : ℕ) (said : LogState) (base : ℕ → ℕ) (cs : List CallType)
        → IsRunStart slots s h lo down → Stands s x said → ((k : ℕ)
        → k ≤ length cs → IsServing (watch_all (take k cs) (start_watch s down base)).down
        → HoldsAfter slots said.meta.setup.geometry.disks s h lo cs k)
        → Each (λ w. IsHeldWhileServing slots w.disks h lo w.down) (λ w c.
        Unit {0}) (start_watch s down base) cs }
{}

/// What was held as a mount began is held at each of its moments, where it is so from the reads of
/// the log disks on.
pub fn reads_hold_what_was_held()
    ensures { (slots n side : ℕ) (said : LogState) (from read t : Trail) (rs ls : List CallType)
        → read ≡ extend from rs → t ≡ extend read ls → EachCall ReadsLogs (now from) rs
        → Stands (now read) side said
        → ((h : History) (lo m : ℕ) (was down : Option ℕ) → IsResumable (now read) side said
        → IsHeld slots (now read) h lo was → moments read ≤ m → m ≤ moments t
        → IsAbsentSince said.meta.setup.geometry.disks t (moments read) m down
        → ((w : ℕ) → IsWeak (now read) w → down ≡ Some w) → IsHeld slots (disks t m) h lo down)
        → (h : History) (lo : ℕ) (down : Option ℕ) → IsRunStart slots (now from) h lo down
        → (k : ℕ) → 3 ≤ n → k ≤ length (rs ++ ls)
        → (length rs < k → n ≡ said.meta.setup.geometry.disks)
        → HoldsAfter slots n (now from) h lo (rs ++ ls) k }
{}

/// While one disk at most is down, what stands after the reads of the log disks has the setup of
/// what stood before; and it is the same where the log disk that stood is still there.
pub fn reads_keep_the_setup()
    ensures { (slots : ℕ) (s : Disks) (h : History) (lo : ℕ) (down : Option ℕ) (base : ℕ → ℕ)
        (rs : List CallType) (x side : ℕ) (said after : LogState) → IsRunStart slots s h lo down
        → EachCall ReadsLogs s rs → Stands s x said → Stands (run s rs) side after
        → (IsServing (watch_all rs (start_watch s down base)).down
        → after.meta.setup ≡ said.meta.setup) × (IsPresent (run s rs) x → after ≡ said) }
{}

/// At the end of a mount the disks rest, are powered and show the state as between two events.
pub fn a_mount_ends_at_a_mark()
    ensures { (slots : ℕ) (s : Disks) (count last array rows : ℕ) (slot : ℕ → Slot)
        (named : Option ℕ) (standing : MetaType) (h : History) (spun : ℕ → ℕ) → Agrees s slot
        → IsServable count slot last array named
        (with_loss standing (to_mark s.power standing)) rows → IsAtRest s standing
        → IsHeld slots s (take standing.writes h) standing.writes (out_disk s.power standing)
        → ((x : ℕ) → IsNamedLog (named_out standing.out) x → IsSure s 2 x (λ b. is_open b ≡ true))
        → IsMark slots standing.setup (first_point s standing h spun) }
{}

/// While the disks are powered by the gear, all that may stand has recorded each spin-up, and what
/// stands is within the bounds.
pub fn powers_keep_to_what_is_recorded()
    ensures { (m : MetaType) (b : Bounds) (w : Watch) (cs : List CallType) → m.setup ≡ b.setup
        → m.epoch ≤ b.epoch → m.ticks ≤ b.ticks → EachCall (IsPowerCall m) w.disks cs
        → Each (OnlyStands m) (HasRecord m) w cs → AreSpinUpsRecorded m w
        → Each (StaysWithin b) IsSpinUpRecorded w cs }
{}

/// A mount whose steps say this is what a session asks of a mount, served or refused.
pub fn a_mount_is_what_a_session_asks()
    ensures mounted { (slots : ℕ) (s : Disks) (x : ℕ) (said : LogState) (h : History) (lo : ℕ) (down
        : Option ℕ) (calls : List CallType) (standing : MetaType) → IsRunStart slots s h lo down
        → Stands s x said → (parts : AreMountCalls slots s x said h lo down calls)
        → (IsServing (down_after_mount s down parts.base calls)
        → EndsServed slots s said h calls standing)
        → IsMounted slots s x said h lo down calls (λ p. p ≡ first_point
        (run s calls) standing h (watch_all calls (start_watch s down parts.base)).spun) }
    ensures refused { (slots : ℕ) (s : Disks) (x : ℕ) (said : LogState) (h : History) (lo : ℕ)
        (down : Option ℕ) (calls : List CallType) (why : Refusal)
        → IsRunStart slots s h lo down → Stands s x said
        → (parts : AreMountCalls slots s x said h lo down calls)
        → EndsRefused s down parts.base calls why
        → IsMountRefused slots s x said h lo down calls why }
{}

/// Where a run begins there is a number of spin-ups with which it does, and of ticks.
pub fn a_run_begins_with_a_base()
    ensures { (slots : ℕ) (s : Disks) (h : History) (lo : ℕ) (down : Option ℕ) (x : ℕ)
        (said : LogState) → IsRunStart slots s h lo down → Stands s x said
        → (base : ℕ → ℕ) × (ticks : ℕ) × IsBase s x said base ticks }
{}

/// At rest one meta alone stands in all that is looked at, and has recorded each spin-up that a
/// shift up needs: so it is while the disks are powered.
pub fn one_meta_stands_at_rest()
    ensures rest { (t : Disks) (m : MetaType) (z : ℕ) (i : Disks) (o : LogState) → IsAtRest t m
        → IsLooked t i → Stands i z o → o.meta ≡ m }
    ensures powers { (slots : ℕ) (m : MetaType) (h : History) (lo : ℕ) (w : Watch)
        (cs : List CallType) → ((d : ℕ) → named_out m.out ≡ Some d → IsAmongDown w.down d)
        → ((d : ℕ) → d < m.setup.geometry.disks → is_present (w.disks.power d) ≡ false
        → IsAmongDown w.down d) → Through (RestsBeside slots m h lo) w.disks cs
        → EachCall (IsPowerCall m) w.disks cs → Each (OnlyStands m) (HasRecord m) w cs }
{}

/// Where no call of a mount failed, the session begins with the state that the entry shows, also
/// where an absent disk was marked.
pub fn a_quiet_mount_begins_with_the_state_shown()
    ensures { (s : Disks) (said : LogState) (calls : List CallType) (n : ℕ) (skip : Option ℕ)
        (standing : MetaType) → EachCall (IsMountCall n skip) s calls → first_lost calls ≡ None
        → standing ≡ with_mark said.meta (to_mark s.power said.meta)
        → ((r d : ℕ) → r < said.meta.setup.geometry.rows
        → (initial_state (run s calls) (closed_over standing)).dirty r d
        ≡ (initial_state s said).dirty r d)
        → BeginsSession s said calls standing.writes
        (initial_state (run s calls) (closed_over standing)) }
{}

/// Where a disk failed, the session begins with the state that the entry shows, after this loss.
pub fn a_mount_with_a_loss_begins_with_the_state_after_it()
    ensures { (s : Disks) (said : LogState) (calls : List CallType) (d : ℕ) (standing : MetaType)
        (mark : Option ℕ) → first_lost calls ≡ Some d → standing ≡ with_mark said.meta mark
        → out_state (run s calls).power standing ≡ Gone d
        → ((r e : ℕ) → r < said.meta.setup.geometry.rows
        → (initial_state (run s calls) (closed_over standing)).dirty r e
        ≡ (initial_state s said).dirty r e)
        → BeginsSession s said calls standing.writes
        (initial_state (run s calls) (closed_over standing)) }
{}

/// Before the disks are powered their powers and the spin-ups stay, and with them the bounds.
pub fn a_recovery_spins_no_disk_up()
    ensures { (b : Bounds) (s : Disks) (w : Watch) (cs : List CallType)
        → ((d : ℕ) → IsPresent w.disks d → w.disks.power d ≡ s.power d)
        → EachCall IsTransfer w.disks cs
        → Each (StaysWithinAt b w.spun s) (λ v c. Unit {0}) w cs
        → Each (StaysWithin b) IsSpinUpRecorded w cs }
{}

/// What may stand after the reads of the log disks, while one disk at most is down, is within the
/// bounds of a mount.
pub fn what_is_foreseen_is_within_bounds()
    ensures { (slots : ℕ) (s : Disks) (h : History) (lo : ℕ) (down : Option ℕ) (x side : ℕ)
        (said after : LogState) (base : ℕ → ℕ) (ticks : ℕ) (rs : List CallType) (i : Disks)
        (m : MetaType) → IsRunStart slots s h lo down → Stands s x said
        → IsBase s x said base ticks → EachCall ReadsLogs s rs
        → IsServing (watch_all rs (start_watch s down base)).down
        → IsResumable (run s rs) side after → StandsForeseen (run s rs) side after i m
        → IsWithinBoundsAt (mount_bounds said ticks) base s i m }
{}

/// What is told of the calls of a mount from one record to the next holds of those from the moment
/// on at which it began: such as, from each rack on which a run begins, that it is what a session
/// asks.
pub fn a_mount_is_told_from_where_it_began()
    ensures calls { (n began : ℕ) (skip : Option ℕ) (old new : Option Trail) (t : Trail)
        → ((u : Trail) → old ≡ Some u → began ≡ moments u)
        → Ran old new (EachCall (IsMountCall n skip)) → new ≡ Some t
        → EachCall (IsMountCall n skip) (disks t began) (drop began t.calls) }
    ensures refused { (slots began : ℕ) (old new : Option Trail) (why : Refusal)
        → ((u : Trail) → old ≡ Some u → began ≡ moments u)
        → Ran old new (λ s calls. (h : History) (lo : ℕ) (down : Option ℕ) (x : ℕ)
        (said : LogState) → IsRunStart slots s h lo down → Stands s x said
        → (parts : AreMountCalls slots s x said h lo down calls)
        × EndsRefused s down parts.base calls why)
        → IsRefusedFromEach slots began new why }
{}

/// Where the log disk that stood failed in the reads, the session begins with the state that is
/// shown without it; and where just one disk failed, the disks that are there are those without it.
pub fn a_mount_without_a_log_disk_begins_with_the_state_left()
    ensures begins { (s : Disks) (said : LogState) (calls : List CallType) (d y : ℕ)
        (other : LogState) (standing : MetaType) → first_lost calls ≡ Some d
        → Stands (lose d s) y other → ((e : ℕ) → is_present ((run s calls).power e)
        ≡ is_present ((lose d s).power e))
        → standing ≡ with_mark other.meta (to_mark (lose d s).power other.meta)
        → ((r e : ℕ) → r < said.meta.setup.geometry.rows
        → (initial_state (run s calls) (closed_over standing)).dirty r e
        ≡ (initial_state (lose d s) other).dirty r e)
        → BeginsSession s said calls standing.writes
        (initial_state (run s calls) (closed_over standing)) }
    ensures left { (s : Disks) (calls : List CallType) (n : ℕ) (skip : Option ℕ) (d e : ℕ)
        → EachCall (IsMountCall n skip) s calls
        → ((f : ℕ) → fails_on f calls ≡ true → f ≡ d)
        → is_present ((run s calls).power d) ≡ false
        → is_present ((run s calls).power e) ≡ is_present ((lose d s).power e) }
{}

/// While an interrupted commit is ended and one disk at most is down, the log disk that stood could
/// be lost at the start, where the meta of the other one stands without it.
pub fn a_fallback_was_foreseen()
    ensures { (slots n : ℕ) (skip : Option ℕ) (h : History) (lo x z : ℕ)
        (said o p : LogState) (w : Watch) (cs : List CallType) (beside : Option ℕ) (i : Disks)
        → Stands w.disks x said → ((v : ℕ) → IsWeak w.disks v → IsAmongDown w.down v)
        → EachCall (IsMountCall n skip) w.disks cs → IsServing (watch_all cs w).down
        → IsHeld slots (run w.disks cs) h lo beside → ((j : Disks) → IsImage (run w.disks cs) j
        → IsPresent j x → (y : ℕ) (k : LogState) → Stands j y k → k.meta ≡ said.meta)
        → IsLooked (run w.disks cs) i → is_present (i.power x) ≡ false
        → Stands i z o → Says w.disks (other_log x) p → o.meta ≡ p.meta → MayLose w.disks x }
{}
