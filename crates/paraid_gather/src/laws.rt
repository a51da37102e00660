//! That the definitions fit together. A law is the contract of a function that does nothing.
ghost use Rattle.std.specs.Prelude.{◌≡◌, ◌≤◌, ◌+◌, ℕ, false, List, [], ◌∷◌, ◌++◌, length, Option};
ghost use Rattle.paraid_rack.specs.Disks.{Disks, IsImage, IsPresent};
ghost use Rattle.paraid_rack.specs.Slots.{Slot};
ghost use Rattle.paraid_rack.specs.Trail.{Trail, disks, moments, now};
ghost use Rattle.paraid_gather.specs.Above.{IsAbove, LeavesImageOf, slot_above};
ghost use Rattle.paraid_gather.specs.Finish.{EndsGathered, WritesSlotOut};
ghost use Rattle.paraid_gather.specs.Gathering.{CallGroup, IsGathered, LeavesImage, calls_above, calls_below};
ghost use Rattle.paraid_gather.specs.PowerCalls.{power_calls};
ghost use Rattle.paraid_gather.specs.Waiting.{Waiting};

/// What a stop leaves of the disks below is an image of the rack above.
pub fn a_stop_leaves_an_image()
    ensures { (below : Disks) (w : ℕ → Waiting) (s i : Disks)
        → IsAbove below w s → IsImage below i → IsImage s i }
{}

/// Whatever a stop leaves of the rack below at any moment of its record, a stop of the rack above
/// may leave at a moment of the record above.
pub fn a_stop_of_a_gathered_rack_is_a_stop_above()
    ensures { (below above : Trail) → IsGathered below above
        → (m : ℕ) → m ≤ moments below → (i : Disks) → IsImage (disks below m) i
        → (k : ℕ) × (k ≤ moments above) × IsImage (disks above k) i }
{}

/// That moment is the one before the call above for which the call below is made, or the one after
/// it.
pub fn a_stop_within_a_group()
    ensures { (below above : Trail) (it : IsGathered below above)
        → (before : List CallGroup) (g : CallGroup) (after : List CallGroup)
        → it.groups ≡ before ++ g ∷ after → (m : ℕ) → m ≤ length g.below
        → LeavesImageOf (disks above (moments it.start + length (calls_above before)))
        (disks above (moments it.start + length (calls_above (before ++ g ∷ []))))
        (disks below (moments it.start + length (calls_below before) + m)) }
{}

/// Once a call above has returned, a stop leaves an image of the disks after it.
pub fn a_stop_between_groups()
    ensures { (below above : Trail) (it : IsGathered below above)
        → (before after : List CallGroup) → it.groups ≡ before ++ after
        → LeavesImage (disks above (moments it.start + length (calls_above before)))
        (disks below (moments it.start + length (calls_below before))) }
{}

/// The rack below parks, spins up and attaches what the rack above does, in the same order.
pub fn a_gathered_rack_powers_as_above()
    ensures { (below above : Trail)
        → IsGathered below above → power_calls below.calls ≡ power_calls above.calls }
{}

/// Where all is written out, a disk of which each block is synced is left as the rack above had it.
pub fn finish_keeps_a_synced_disk()
    ensures { (before after : Slot) (w : Waiting) → WritesSlotOut before w after
        → (slot_above before w).unsynced ≡ false → after ≡ slot_above before w }
{}

/// Where all is written out and each block is synced, no disk is lost, and no call is noted.
pub fn finish_of_synced_disks_notes_nothing()
    ensures { (before : Option Trail) (below noted : Trail) (it : EndsGathered before below noted)
        → ((d p : ℕ) → IsPresent (now it.above) d → (now it.above).loose d p ≡ false)
        → (it.lost ≡ []) × (noted ≡ it.above) }
{}
