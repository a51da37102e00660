//! That the definitions fit together. Each law is the contract of a function that does nothing.
ghost use Rattle.std.specs.Prelude.{◌≡◌, ℕ, ◌<◌, ◌⊎◌, [], false, Option, Some};
ghost use Rattle.paraid_base.specs.History.{History};
ghost use Rattle.paraid_rack.specs.Disks.{Disks, is_present};
ghost use Rattle.paraid_rack.specs.Trail.{disks};
ghost use Rattle.paraid_record.specs.declared.meta.Meta.{Meta as MetaType};
ghost use Rattle.paraid_image.specs.Rest.{AreSynced};
ghost use Rattle.paraid_txn.specs.Commit.{IsEachImage, IsEitherMissing, IsOldOrNew, ImageStandsForEither};
ghost use Rattle.paraid_txn.specs.Resume.{IsResumable, ImageStandsForResumed};
ghost use Rattle.paraid_image.specs.HeldAt.{IsHeld};
ghost use Rattle.paraid_image.specs.FirstWrites.{HoldsFirstWrites};
ghost use Rattle.paraid_image.specs.Out.{IsWeak, out_disk};
ghost use Rattle.paraid_image.specs.Sides.{Batch, LogState};
ghost use Rattle.paraid_image.specs.Sound.{AreWitnessesTrue};

/// What a stop in a commit leaves can be resumed, also where a log disk comes in again by it.
pub fn a_stop_in_a_commit_can_be_resumed()
    ensures { (start i : Disks) (before after : MetaType) (batch : Batch)
        → ImageStandsForEither start before after batch i → AreSynced i
        → (x : ℕ) × (said : LogState) × IsResumable i x said
        × ((said.meta ≡ before) ⊎ (said.meta ≡ after)) }
{}

/// The end of an interrupted commit leaves what is held, where each disk that is absent or was weak
/// is the one that is down.
pub fn an_ended_commit_leaves_what_is_held()
    ensures { (slots : ℕ) (s t : Disks) (x : ℕ)
        (said : LogState) (h : History) (lo : ℕ) (was down : Option ℕ) → IsResumable s x said
        → IsHeld slots s h lo was → ((d : ℕ) → d < said.meta.setup.geometry.disks
        → is_present (t.power d) ≡ false → down ≡ Some d) → ((w : ℕ) → IsWeak s w → down ≡ Some w)
        → IsEachImage said.meta said.meta (ImageStandsForResumed s x said) t
        → IsHeld slots t h lo down }
{}

/// A commit leaves what is held, where what the batch brings holds a first part of the history too,
/// the witnesses were true, and each disk that is absent or named out by one of the two metas is
/// the one that is down.
pub fn a_commit_leaves_what_is_held()
    ensures { (slots : ℕ) (s t : Disks) (before after : MetaType) (batch : Batch)
        (h : History) (lo : ℕ) (down : Option ℕ) → HoldsFirstWrites slots s before [] h lo
        → HoldsFirstWrites slots s after batch h lo → AreWitnessesTrue s (out_disk s.power before)
        → ((d : ℕ) → IsEitherMissing t.power before after d → down ≡ Some d)
        → IsOldOrNew s before after batch t → IsHeld slots t h lo down }
{}
