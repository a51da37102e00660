//! That a mount is refused exactly where a cause is there.
ghost use Rattle.std.specs.Prelude.{◌≡◌, ℕ, Option, Some};
ghost use Rattle.paraid_base.specs.History.{History};
ghost use Rattle.paraid_image.specs.HeldAt.{IsHeld};
ghost use Rattle.paraid_image.specs.Rest.{AreSynced};
ghost use Rattle.paraid_image.specs.Sides.{LogState};
ghost use Rattle.paraid_recover.specs.declared.mount_fault.MountFault.{MountFault as MountFaultType};
ghost use Rattle.paraid_recover.specs.declared.mount_fault.MountFault.TheVariants.{Worn};
ghost use Rattle.paraid_recover.specs.Examined.{IsExamined, IsRefused};
ghost use Rattle.paraid_rack.specs.Slots.{Agrees, Slot};
ghost use Rattle.paraid_rack.specs.Trail.{Trail, now};

/// Where the rack tells its calls, a mount that is refused by a cause cannot go on, and one that
/// goes on is refused by none.
pub fn a_mount_is_refused_or_goes_on()
    ensures { (count : ℕ) (old new : ℕ → Slot) (told : Option Trail) (t : Trail) → told ≡ Some t
        → (fault : MountFaultType) (x : ℕ) (said : LogState) → IsRefused count old new told fault
        → IsExamined count old new told x said → ⊥ }
{}

/// Where the rack tells its calls, there is one cause by which a mount is refused.
pub fn a_mount_is_refused_by_one_cause()
    ensures { (count : ℕ) (old new : ℕ → Slot) (told : Option Trail) (t : Trail) → told ≡ Some t
        → (first second : MountFaultType) → IsRefused count old new told first
        → IsRefused count old new told second → first ≡ second }
{}

/// Where a rack holds a history and nothing is loose, the one cause by which a mount is refused is
/// that the array took as many commits or writes as it can.
pub fn what_is_held_is_refused_for_wear()
    ensures { (count : ℕ) (old new : ℕ → Slot) (told : Option Trail) (t : Trail)
        (fault : MountFaultType) (h : History) (lo : ℕ) (down : Option ℕ) → told ≡ Some t
        → Agrees (now t) new → AreSynced (now t) → IsHeld count (now t) h lo down
        → IsRefused count old new told fault → (k : ℕ) × (fault ≡ Worn k) }
{}
