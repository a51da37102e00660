//! That the definitions fit together. Each law is the contract of a function that does nothing.
ghost use Rattle.std.specs.Prelude.{◌≡◌, ◌≢◌, ℕ, ◌^◌, ◌<◌, ◌≤◌, ◌⊎◌, ◌↔◌, ◌++◌, [], true, false, Option, Some, None, take};
ghost use Rattle.paraid_base.specs.declared.block.Block.{Block as BlockType};
ghost use Rattle.paraid_base.specs.declared.state.Out.TheVariants.{Gone};
ghost use Rattle.paraid_base.specs.History.{History};
ghost use Rattle.paraid_rack.specs.declared.call.Call.{Call as CallType};
ghost use Rattle.paraid_rack.specs.declared.call.Call.TheVariants.{Attach, Park, Read, SpinUp, Sync, Write};
ghost use Rattle.paraid_rack.specs.declared.call.Power.{Power as PowerType};
ghost use Rattle.paraid_rack.specs.declared.call.Power.TheVariants.{Parked, Spinning};
ghost use Rattle.paraid_rack.specs.Alike.{IsAlike};
ghost use Rattle.paraid_rack.specs.Disks.{Disks, IsImage, IsPresent, is_present, lose, step};
ghost use Rattle.paraid_rack.specs.Trail.{Trail, disks, initial};
ghost use Rattle.paraid_record.specs.declared.meta.Meta.{Meta as MetaType};
ghost use Rattle.paraid_image.specs.Close.{IsLaidBelow};
ghost use Rattle.paraid_image.specs.Rest.{IsAtRest};
ghost use Rattle.paraid_image.specs.Content.{view_by, view_of};
ghost use Rattle.paraid_image.specs.Mark.{marked_gone};
ghost use Rattle.paraid_record.specs.Range.{IsInRange};
ghost use Rattle.paraid_image.specs.Calls.{disk_of, is_done};
ghost use Rattle.paraid_image.specs.Formatted.{IsFormatted};
ghost use Rattle.paraid_image.specs.Free.{IsFree, IsUnseen};
ghost use Rattle.paraid_image.specs.Gate.{MayToggleGate};
ghost use Rattle.paraid_image.specs.RunStart.{IsRunStart};
ghost use Rattle.paraid_image.specs.Looked.{IsHeldLooked, IsLooked};
ghost use Rattle.paraid_image.specs.HeldAt.{IsHeldAt, IsHeld, MayLose};
ghost use Rattle.paraid_image.specs.LostDisk.{IsLoss};
ghost use Rattle.paraid_image.specs.Neutral.{IsNeutral, overwrite};
ghost use Rattle.paraid_image.specs.Open.{CanOpen, IsLoggedNext};
ghost use Rattle.paraid_image.specs.Out.{IsAtMostOneMissing, IsDouble, IsWeak, is_out, out_disk};
ghost use Rattle.paraid_image.specs.Sides.{Batch, IsSide, LogState, Says, Side, is_open};
ghost use Rattle.paraid_image.specs.Sound.{ContentOk, IsSoundAt};
ghost use Rattle.paraid_image.specs.Spot.{View, spot_of};
ghost use Rattle.paraid_image.specs.Standing.{Contents, Stands, contents as contents_of, other_log, standing};
ghost use Rattle.paraid_image.specs.Parking.{MayPark};
ghost use Rattle.paraid_image.specs.Value.{value};

/// A log disk says one thing, one log disk stands, and it is the one that the sides in short give.
pub fn one_log_disk_stands()
    ensures says { (i : Disks) (x : ℕ) (a b : LogState) → Says i x a → Says i x b → a ≡ b }
    ensures disk { (i : Disks) (x y : ℕ) (a b : LogState) → Stands i x a → Stands i y b → x ≡ y }
    ensures said { (i : Disks) (x y : ℕ) (a b : LogState) → Stands i x a → Stands i y b → a ≡ b }
    ensures by_sides { (i : Disks) (a b : Side) (x : ℕ) → IsSide i 0 a → IsSide i 1 b
        → standing a b ≡ Some x → (said : LogState) × Stands i x said }
{}

/// An image has at most one weak disk.
pub fn one_disk_is_weak()
    ensures { (i : Disks) (w v : ℕ) → IsWeak i w → IsWeak i v → w ≡ v }
{}

/// An image holds first parts of histories of one length only.
pub fn one_length_is_held()
    ensures { (slots : ℕ) (i : Disks) (h g : History) (k j : ℕ) → IsSoundAt slots i h k
        → IsSoundAt slots i g j → k ≡ j }
{}

/// What is held is held for each longer history, and with each smaller bound.
pub fn what_is_held_stays_held()
    ensures { (slots : ℕ) (s : Disks) (h more : History) (lo less : ℕ) (down : Option ℕ)
        → less ≤ lo → IsHeld slots s h lo down → IsHeld slots s (h ++ more) less down }
{}

/// Where nothing is loose, a stop leaves the disks as they are and nothing else.
pub fn synced_disks_are_their_image()
    ensures is { (s : Disks) → ((d p : ℕ) → s.loose d p ≡ false) → IsImage s s }
    ensures only { (s i : Disks) → ((d p : ℕ) → s.loose d p ≡ false) → IsImage s i → i ≡ s }
{}

/// What a stop leaves of what is held is a start at which the same is held, with its own weak disk
/// as the one that is down. So nothing more needs to be said of chains of stops.
pub fn an_image_of_what_is_held_is_held()
    ensures image { (slots : ℕ) (s i : Disks) (h : History) (lo : ℕ) (down : Option ℕ)
        → IsImage s i → IsHeld slots s h lo down → IsHeld slots i h lo down }
    ensures weak { (slots : ℕ) (s i : Disks) (h : History) (lo : ℕ) (down : Option ℕ) (w : ℕ)
        → IsImage s i → IsWeak i w → IsHeld slots s h lo down → IsHeld slots i h lo (Some w) }
    ensures strong { (slots : ℕ) (s i : Disks) (h : History) (lo : ℕ) (down : Option ℕ)
        → IsImage s i → ((w : ℕ) → IsWeak i w → ⊥) → IsHeld slots s h lo down
        → IsHeld slots i h lo None }
    ensures start { (slots : ℕ) (t u : Trail) (m : ℕ) (h : History) (lo : ℕ) (down : Option ℕ)
        → IsImage (disks t m) (initial u.start)
        → IsHeldAt slots t m h lo down → IsHeldAt slots u 0 h lo down }
{}

/// What is held is what is said of each image that is looked at.
pub fn what_is_held_is_of_images_looked_at()
    ensures { (slots : ℕ) (s : Disks) (h : History) (lo : ℕ) (down : Option ℕ)
        → IsHeld slots s h lo down ↔ IsHeldLooked slots s h lo down }
{}

/// Each image that is looked at, also one with a disk lost, is a run start for what was held, with
/// its own weak disk as the one that is down; nothing is loose in it. So is a rack that begins
/// alike.
pub fn an_image_looked_at_is_a_run_start()
    ensures synced { (s j : Disks) → IsLooked s j → (d p : ℕ) → j.loose d p ≡ false }
    ensures entry { (slots : ℕ) (s j : Disks) (h : History) (lo : ℕ) (down : Option ℕ)
        → IsLooked s j → IsHeld slots s h lo down
        → (own : Option ℕ) × IsRunStart slots j h lo own }
    ensures weak { (slots : ℕ) (s j : Disks) (h : History) (lo : ℕ) (down : Option ℕ) (w : ℕ)
        → IsLooked s j → IsWeak j w → IsHeld slots s h lo down → IsRunStart slots j h lo (Some w) }
    ensures strong { (slots : ℕ) (s j : Disks) (h : History) (lo : ℕ) (down : Option ℕ)
        → IsLooked s j → ((w : ℕ) → IsWeak j w → ⊥) → IsHeld slots s h lo down
        → IsRunStart slots j h lo None }
    ensures start { (slots : ℕ) (t u : Trail) (m : ℕ) (j : Disks) (h : History) (lo : ℕ)
        (down : Option ℕ) → IsLooked (disks t m) j → IsAlike j (initial u.start)
        → IsHeldAt slots t m h lo down
        → (own : Option ℕ) × IsRunStart slots (initial u.start) h lo own }
{}

/// Any bytes in a neutral place leave the log disk that stands, what it says, the weak disk and
/// what the image holds as they are.
pub fn neutral_places_do_not_matter()
    ensures stands { (i : Disks) (d p : ℕ) (b : BlockType) (x : ℕ) (said : LogState)
        → IsNeutral i d p → Stands i x said → Stands (overwrite i d p b) x said }
    ensures stood { (i : Disks) (d p : ℕ) (b : BlockType) (x : ℕ) (said : LogState)
        → IsNeutral i d p → Stands (overwrite i d p b) x said → Stands i x said }
    ensures contents { (i : Disks) (d p : ℕ) (b : BlockType) (x : ℕ) (said : LogState)
        → IsNeutral i d p → Stands i x said
        → contents_of (overwrite i d p b) said.batch ≡ contents_of i said.batch }
    ensures weak { (i : Disks) (d p : ℕ) (b : BlockType) (w : ℕ) → IsNeutral i d p
        → IsWeak i w → IsWeak (overwrite i d p b) w }
    ensures was_weak { (i : Disks) (d p : ℕ) (b : BlockType) (w : ℕ) → IsNeutral i d p
        → IsWeak (overwrite i d p b) w → IsWeak i w }
    ensures sound { (slots : ℕ) (i : Disks) (d p : ℕ) (b : BlockType) (h : History) (k : ℕ)
        → IsNeutral i d p → IsSoundAt slots i h k → IsSoundAt slots (overwrite i d p b) h k }
{}

/// Any bytes in a free place leave what the image holds as it is.
pub fn free_places_do_not_matter()
    ensures { (slots : ℕ) (i : Disks) (d p : ℕ) (b : BlockType) (h : History) (k x : ℕ)
        (said : LogState) → Stands i x said → IsFree (view_of i said) d p → IsSoundAt slots i h k
        → IsSoundAt slots (overwrite i d p b) h k }
{}

/// A read or a sync that is done, and a write of a place that is not seen in any image, leave what
/// is held.
pub fn unseen_calls_leave_what_is_held()
    ensures fewer { (slots : ℕ) (s t : Disks) (h : History) (lo : ℕ) (down : Option ℕ)
        → ((i : Disks) → IsImage t i → IsImage s i) → IsHeld slots s h lo down
        → IsHeld slots t h lo down }
    ensures read { (slots : ℕ) (s : Disks) (h : History) (lo : ℕ) (down : Option ℕ) (d p : ℕ)
        → IsHeld slots s h lo down → IsHeld slots (step (Read d p true) s) h lo down }
    ensures sync { (slots : ℕ) (s : Disks) (h : History) (lo : ℕ) (down : Option ℕ) (d : ℕ)
        → IsHeld slots s h lo down → IsHeld slots (step (Sync d true) s) h lo down }
    ensures write { (slots : ℕ) (s : Disks) (h : History) (lo : ℕ) (down : Option ℕ) (d p : ℕ)
        (b : BlockType) → ((i : Disks) → IsImage s i → IsUnseen i d p)
        → IsHeld slots s h lo down → IsHeld slots (step (Write d p b true) s) h lo down }
{}

/// Any bytes may be written into the place of the witness against the log disk that is out.
pub fn a_witness_can_be_borne()
    ensures { (slots : ℕ) (s : Disks) (h : History) (lo : ℕ) (down : Option ℕ) (x : ℕ)
        (b : BlockType) → x < 2
        → ((i : Disks) (y : ℕ) (said : LogState) → IsImage s i → Stands i y said
        → out_disk i.power said.meta ≡ Some x)
        → IsHeld slots s h lo down → IsHeld slots (step (Write 2 x b true) s) h lo down }
{}

/// A failed call loses its disk and changes nothing else. Where no other disk is weak, what is
/// held is held with this disk down.
pub fn a_lost_disk_leaves_what_is_held()
    ensures failed { (s : Disks) (c : CallType) → is_done c ≡ false
        → IsLoss s (step c s) (disk_of c) }
    ensures held { (slots : ℕ) (s t : Disks) (h : History) (lo : ℕ) (down : Option ℕ) (d : ℕ)
        → IsLoss s t d → IsPresent s d
        → ((i : Disks) (x : ℕ) (said : LogState) → IsImage s i → x < 2 → Says i x said
        → d < said.meta.setup.geometry.disks)
        → ((i : Disks) (w : ℕ) → IsImage s i → IsWeak i w → w ≡ d)
        → IsHeld slots s h lo down → IsHeld slots t h lo (Some d) }
{}

/// An image holds what it holds also with one more disk lost: the weak one where there is one, and
/// not the log disk that stands unless the other one says the same.
pub fn one_disk_can_be_lost()
    ensures { (slots : ℕ) (i : Disks) (h : History) (k d x : ℕ) (said : LogState)
        → IsSoundAt slots i h k → Stands i x said → (d ≢ x) ⊎ Says i (other_log x) said
        → MayLose i d → IsSoundAt slots (lose d i) h k }
{}

/// A formatted array holds the history without a write.
pub fn a_formatted_array_holds_nothing()
    ensures { (slots : ℕ) (s : Disks) (m : MetaType) → IsFormatted slots s m
        → IsHeld slots s [] 0 None }
{}

/// A formatted array is at rest, so a commit can begin there.
pub fn a_formatted_array_is_at_rest()
    ensures { (slots : ℕ) (s : Disks) (m : MetaType) → IsFormatted slots s m → IsAtRest s m }
{}

/// A disk that is spun up, or parked where nothing that stands, also with a disk lost, asks that it
/// spins, leaves what is held.
pub fn power_calls_leave_what_is_held()
    ensures spin_up { (slots : ℕ) (s : Disks) (h : History) (lo : ℕ) (down : Option ℕ) (d : ℕ)
        → s.power d ≡ Parked → IsHeld slots s h lo down
        → IsHeld slots (step (SpinUp d true) s) h lo down }
    ensures park { (slots : ℕ) (s : Disks) (h : History) (lo : ℕ) (down : Option ℕ) (d : ℕ)
        → s.power d ≡ Spinning
        → ((i : Disks) (x : ℕ) (said : LogState) → IsImage s i → Stands i x said → MayPark said d)
        → ((i : Disks) (e x : ℕ) (said : LogState) → IsImage s i → MayLose i e
        → Stands (lose e i) x said → MayPark said d)
        → IsHeld slots s h lo down → IsHeld slots (step (Park d true) s) h lo down }
{}

/// Where all that stands, also with a disk lost, says that so many writes are held, so many are.
pub fn what_stands_bounds_what_is_held()
    ensures { (slots : ℕ) (s : Disks) (h : History) (lo high : ℕ) (down : Option ℕ)
        → ((i : Disks) (x : ℕ) (said : LogState) → IsImage s i → Stands i x said
        → high ≤ said.meta.writes)
        → ((i : Disks) (d x : ℕ) (said : LogState) → IsImage s i → MayLose i d
        → Stands (lose d i) x said → high ≤ said.meta.writes)
        → IsHeld slots s h lo down → IsHeld slots s h high down }
{}

/// Closing a gate whose batch has been laid in place leaves what the image holds, and what is held
/// where that is so in each image, as it is and with a disk lost.
pub fn a_gate_can_be_closed()
    ensures sound { (slots : ℕ)
        (i : Disks) (h : History) (k x : ℕ) (said : LogState) (b : BlockType) → IsLaidBelow i x said
        → is_open b ≡ false → IsSoundAt slots i h k → IsSoundAt slots (overwrite i x 0 b) h k }
    ensures held { (slots : ℕ) (s : Disks) (h : History) (lo : ℕ) (down : Option ℕ) (x : ℕ)
        (b : BlockType) (said : LogState) → ((i : Disks) → IsImage s i → IsLaidBelow i x said)
        → ((i : Disks) (e : ℕ) → IsImage s i → MayLose i e → e ≢ x
        → IsLaidBelow (lose e i) x said)
        → IsHeld slots s h lo down → IsHeld slots (step (Write x 0 b true) s) h lo down }
{}

/// Opening a gate over the next batch makes the image hold what the batch brings, and leaves what
/// is held where that is so in each image.
pub fn a_gate_can_be_opened()
    ensures sound { (slots : ℕ) (i : Disks) (h : History) (k x : ℕ) (new : LogState) (b : BlockType)
        → IsLoggedNext slots i x new h k → is_open b ≡ true
        → IsSoundAt slots (overwrite i x 0 b) h k }
    ensures held { (slots : ℕ) (s : Disks) (h : History) (k lo : ℕ) (down : Option ℕ) (x : ℕ)
        (b : BlockType) (new : LogState)
        → ((i : Disks) → IsImage s i → CanOpen slots i x new h k lo down)
        → IsHeld slots s h lo down → IsHeld slots (step (Write x 0 b true) s) h lo down }
{}

/// What a stop may leave after a write is what it may leave before it, with any bytes in that
/// place.
pub fn a_write_leaves_any_bytes()
    ensures before { (s : Disks) (d p : ℕ) (b : BlockType) (j : Disks)
        → IsImage (step (Write d p b true) s) j → IsImage s (overwrite j d p (s.block d p)) }
    ensures after { (j : Disks) (d p : ℕ) (b : BlockType)
        → overwrite (overwrite j d p b) d p (j.block d p) ≡ j }
{}

/// A gate is only open or closed: a write of one leaves what is held, if in each image the bytes
/// that turn it do.
pub fn a_gate_is_open_or_closed()
    ensures { (slots : ℕ) (s : Disks) (h : History) (lo : ℕ) (down : Option ℕ) (x : ℕ)
        (b : BlockType) → ((i : Disks) → IsImage s i → MayToggleGate slots i x h lo down)
        → IsHeld slots s h lo down → IsHeld slots (step (Write x 0 b true) s) h lo down }
{}

/// A cell's value is the block at its spot, where this is not on the out disk.
pub fn values_live_at_their_spots()
    ensures { (v : View) (r d : ℕ) → is_out v.out (spot_of v r d).disk ≡ false
        → value v r d ≡ v.block (spot_of v r d).disk (spot_of v r d).place }
{}

/// An image is double exactly where two disks of the array are missing.
pub fn double_is_two_missing()
    ensures single { (power : ℕ → PowerType) (m : MetaType)
        → IsAtMostOneMissing power m → IsDouble power m → ⊥ }
    ensures double { (power : ℕ → PowerType) (m : MetaType) → (IsDouble power m → ⊥)
        → IsAtMostOneMissing power m }
{}

/// A disk that is attached in the place of one that is gone by all that stands leaves what is held.
pub fn an_attach_leaves_what_is_held()
    ensures { (slots : ℕ) (s : Disks) (h : History) (lo : ℕ) (down : Option ℕ) (d size : ℕ)
        → ((i : Disks) (x : ℕ) (said : LogState) → IsImage s i → Stands i x said
        → said.meta.out ≡ Gone d)
        → IsHeld slots s h lo down → IsHeld slots (step (Attach d size true) s) h lo down }
{}

/// Blocks that do not exist do not matter: disks that agree in all that exists stand for the same
/// and hold the same. So a rack that begins alike to an image holds what the image holds.
pub fn blocks_that_do_not_exist_do_not_matter()
    ensures stands { (i j : Disks) (x : ℕ) (said : LogState) → IsAlike i j → Stands i x said
        → Stands j x said }
    ensures contents { (i j : Disks) (batch : Batch) → IsAlike i j
        → contents_of j batch ≡ contents_of i batch }
    ensures weak { (i j : Disks) (w : ℕ) → IsAlike i j → IsWeak i w → IsWeak j w }
    ensures sound { (slots : ℕ) (i j : Disks) (h : History) (k : ℕ) → IsAlike i j
        → IsSoundAt slots i h k → IsSoundAt slots j h k }
    ensures held { (slots : ℕ) (i j : Disks) (h : History) (lo : ℕ) (down : Option ℕ)
        → IsAlike i j → IsHeld slots i h lo down → IsHeld slots j h lo down }
    ensures start { (slots : ℕ) (t u : Trail) (m : ℕ) (i : Disks) (h : History) (lo : ℕ)
        (down : Option ℕ) → IsImage (disks t m) i → IsAlike i (initial u.start)
        → IsHeldAt slots t m h lo down → IsHeldAt slots u 0 h lo down }
{}

/// Where at most one disk is missing and it is absent, the blocks stand for the same when a meta
/// marks it gone: a shift down and what it filled are forgotten, a shift up goes on.
pub fn an_absent_disk_can_be_marked()
    ensures range { (m : MetaType) (d epoch : ℕ) → IsInRange m → d < m.setup.geometry.disks
        → 1 ≤ epoch → epoch < 2 ^ 64 → IsInRange (marked_gone m d epoch) }
    ensures content { (slots : ℕ) (power : ℕ → PowerType) (size : ℕ → ℕ) (m : MetaType)
        (d epoch : ℕ) (block : Contents) (h : History) (k : ℕ) → IsInRange m
        → IsAtMostOneMissing power m → d < m.setup.geometry.disks → is_present (power d) ≡ false
        → ContentOk slots power size (view_by m power block) h k
        → ContentOk slots power size (view_by (marked_gone m d epoch) power block) h k }
{}

/// Where all that stands, also with a disk lost, says that exactly so many writes are held, the
/// first so many writes are held, and none of them can be lost.
pub fn what_stands_is_held()
    ensures { (slots : ℕ) (s : Disks) (h : History) (lo k : ℕ) (down : Option ℕ)
        → ((i : Disks) (x : ℕ) (said : LogState) → IsImage s i → Stands i x said
        → said.meta.writes ≡ k)
        → ((i : Disks) (d x : ℕ) (said : LogState) → IsImage s i → MayLose i d
        → Stands (lose d i) x said → said.meta.writes ≡ k)
        → IsHeld slots s h lo down → IsHeld slots s (take k h) k down }
{}
