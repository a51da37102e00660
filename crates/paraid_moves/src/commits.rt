//! What commits the marks of moves may be brought by, and that the history is held in them.
//!
//! `IsNext`, of `paraid_txn`, says which meta the next commit may bring, and `IsWholeOrAbsent` what
//! a commit promises of each moment.
ghost use Rattle.std.specs.Prelude.{◌≡◌, ℕ, ◌+◌, ◌<◌, ◌≤◌, false, [], Option, Some, None};
ghost use Rattle.paraid_base.specs.declared.state.Out.TheVariants.{No, Gone, Fresh};
ghost use Rattle.paraid_base.specs.History.{History};
ghost use Rattle.paraid_rack.specs.Disks.{Disks};
ghost use Rattle.paraid_rack.specs.Trail.{Trail, disks, moments, now};
ghost use Rattle.paraid_record.specs.declared.meta.Meta.{Meta as MetaType};
ghost use Rattle.paraid_image.specs.Content.{view_by};
ghost use Rattle.paraid_image.specs.HeldAt.{IsHeldAt};
ghost use Rattle.paraid_image.specs.Out.{named_out, out_disk};
ghost use Rattle.paraid_image.specs.Rest.{IsAtRest, AreSynced};
ghost use Rattle.paraid_image.specs.Sides.{Batch, is_open, stored_block};
ghost use Rattle.paraid_image.specs.Standing.{Contents, contents};
ghost use Rattle.paraid_moves.specs.Copying.{HoldsWithCopies};
ghost use Rattle.paraid_moves.specs.Groups.{IsOneDown};
ghost use Rattle.paraid_moves.specs.MoveMetas.{AreStripesCopied, HoldUnder, IsAs, filled_to};
ghost use Rattle.paraid_txn.specs.Commit.{IsNext, IsWholeOrAbsent};

/// Which metas the next commit may bring: one with the same disk out, as for writes and shifts;
/// one that marks the missing disk as gone; one for the disk that is rebuilt; one by which it
/// joins.
pub fn a_commit_may_follow()
    ensures same { (s : Disks) (m t : MetaType) → IsAtRest s m → t.epoch ≡ m.epoch + 1
        → t.setup ≡ m.setup → t.out ≡ m.out → IsNext s m t }
    ensures gone { (s : Disks) (m t : MetaType) (d : ℕ) → IsAtRest s m → t.epoch ≡ m.epoch + 1
        → t.setup ≡ m.setup → t.out ≡ Gone d
        → ((e : ℕ) → named_out m.out ≡ Some e → e ≡ d) → IsNext s m t }
    ensures fresh { (s : Disks) (m t : MetaType) (d units : ℕ) → IsAtRest s m
        → t.epoch ≡ m.epoch + 1 → t.setup ≡ m.setup → t.out ≡ Fresh d units
        → named_out m.out ≡ Some d → (d < 2 → is_open (stored_block s d 0) ≡ false) → IsNext s m t }
    ensures joined { (s : Disks) (m t : MetaType) (d units : ℕ) → IsAtRest s m
        → t.epoch ≡ m.epoch + 1 → t.setup ≡ m.setup → t.out ≡ No → m.out ≡ Fresh d units
        → IsNext s m t }
{}

/// At each moment of the commit that marks what was copied and synced, the history is held: by any
/// marks that fit what is stored, and by those of a group of stripes.
pub fn a_commit_of_marks_holds_the_history()
    ensures marks { (slots : ℕ) (m t : MetaType) (f : Contents) (h : History) (lo : ℕ)
        (batch : Batch) (old new : Option Trail) (first last : Trail) → old ≡ Some first
        → new ≡ Some last → HoldsWithCopies slots m f h lo (now first) → AreSynced (now first)
        → t.writes ≡ m.writes → IsWholeOrAbsent old new m t batch → IsNext (now first) m t
        → HoldUnder slots (now first).power (now first).size h m.writes t
        (contents (now first) batch)
        → (k : ℕ) (down : Option ℕ) → moments first ≤ k → k ≤ moments last
        → IsOneDown (disks last k) m t down → IsHeldAt slots last k h lo down }
    ensures stripes { (slots : ℕ) (m t : MetaType) (f : Contents) (h : History) (lo end : ℕ)
        (old new : Option Trail) (first last : Trail) → old ≡ Some first → new ≡ Some last
        → HoldsWithCopies slots m f h lo (now first) → AreSynced (now first)
        → out_disk (now first).power m ≡ None
        → AreStripesCopied (view_by m (now first).power (contents (now first) [])) end
        → IsAs (filled_to m end) t → t.epoch ≡ m.epoch + 1 → t.writes ≡ m.writes
        → IsWholeOrAbsent old new m t []
        → (k : ℕ) (down : Option ℕ) → moments first ≤ k → k ≤ moments last
        → IsOneDown (disks last k) m t down → IsHeldAt slots last k h lo down }
{}
