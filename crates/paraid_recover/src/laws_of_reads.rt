//! That the reads of a mount lose nothing.
ghost use Rattle.std.specs.Prelude.{◌≡◌, ℕ, ◌<◌, Option, Some};
ghost use Rattle.paraid_base.specs.History.{History};
ghost use Rattle.paraid_rack.specs.Disks.{Disks, IsImage, IsPresent, lose};
ghost use Rattle.paraid_rack.specs.Atoms.{IsLeftByStop};
ghost use Rattle.paraid_recover.specs.HeardSides.{AmongOne, AmongTwo};
ghost use Rattle.paraid_image.specs.HeldAt.{IsHeld};
ghost use Rattle.paraid_image.specs.Out.{IsWeak};

/// At each moment of reads of which at most one log disk is lost, what was held is held, where
/// the one that is lost was there and it and each weak disk is the one that is down.
pub fn reads_leave_what_is_held()
    ensures { (slots : ℕ) (s t : Disks) (h : History) (lo : ℕ) (was down : Option ℕ)
        → AmongOne s t
        → ((d : ℕ) → d < 2 → t ≡ lose d s → IsPresent s d × (down ≡ Some d))
        → ((i : Disks) (w : ℕ) → IsImage s i → IsWeak i w → down ≡ Some w)
        → IsHeld slots s h lo was → IsHeld slots t h lo down }
{}

/// What a stop leaves after reads, a stop could leave before them, with the log disks lost that
/// failed.
pub fn reads_leave_the_images()
    ensures { (s t i : Disks) → AmongTwo s t → IsImage t i → IsLeftByStop s i }
{}
