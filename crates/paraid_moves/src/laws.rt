//! What the marks of shifts and rebuilds leave of what blocks hold.
//!
//! Each law is said of the blocks `f` under a meta: that they hold the first `k` writes of `h`
//! (`HoldUnder`). The premises are what the copies before the marks have stored.
ghost use Rattle.paraid_image.specs.Mark.{meta_after_loss};
ghost use Rattle.std.specs.Prelude.{◌≡◌, ◌≢◌, ℕ, ◌+◌, ◌*◌, ◌<◌, ◌≤◌, ◌⊎◌, Bool, true, false, List, Some, None, length, slice_index};
ghost use Rattle.paraid_base.specs.History.{History};
ghost use Rattle.paraid_base.specs.declared.state.Out.TheVariants.{No, Gone, Fresh};
ghost use Rattle.paraid_base.specs.declared.state.Phase.TheVariants.{Steady, Down, Up};
ghost use Rattle.paraid_base.specs.Log.{map_block_place, map_start};
ghost use Rattle.paraid_base.specs.Regions.{disk_size, map_count};
ghost use Rattle.paraid_base.specs.Soft.{stripe_count};
ghost use Rattle.paraid_rack.specs.declared.call.Power.{Power as PowerType};
ghost use Rattle.paraid_rack.specs.declared.call.Power.TheVariants.{Spinning, Parked};
ghost use Rattle.paraid_rack.specs.Disks.{is_present};
ghost use Rattle.paraid_record.specs.declared.meta.Meta.{Meta as MetaType};
ghost use Rattle.paraid_record.specs.Codes.{phase_to};
ghost use Rattle.paraid_record.specs.Range.{AreCountersInRange, AreNextGears, IsInRange, IsVersionInRange, allowed_spins, fill_limit, has_out, rebuild_units};
ghost use Rattle.paraid_image.specs.Content.{view_by};
ghost use Rattle.paraid_image.specs.Out.{out_disk};
ghost use Rattle.paraid_image.specs.Spot.{map_bit, rising_to};
ghost use Rattle.paraid_image.specs.Sound.{AreRebuilt};
ghost use Rattle.paraid_image.specs.Standing.{Contents};
ghost use Rattle.paraid_moves.specs.MoveMetas.{AreCellsCopied, AreStripesCopied, HoldUnder, IsAs, meta_after_begin, filled_to, meta_flipped_to, meta_with_out};

/// A shift begins. For a shift up the spin-ups of the disks that are parked yet are recorded.
pub fn a_shift_can_begin()
    ensures down { (slots : ℕ) (power : ℕ → PowerType) (size : ℕ → ℕ) (h : History) (k : ℕ)
        (m : MetaType) (f : Contents) → out_disk power m ≡ None → HoldUnder slots power size h k m f
        → (to : ℕ) → m.phase ≡ Steady
        → HoldUnder slots power size h k (meta_after_begin m (Down to) m.spins) f }
    ensures up { (slots : ℕ) (power : ℕ → PowerType) (size : ℕ → ℕ) (h : History) (k : ℕ)
        (m : MetaType) (f : Contents) → out_disk power m ≡ None → HoldUnder slots power size h k m f
        → (to : ℕ) (spins : List ℕ) → m.phase ≡ Steady
        → ((d : ℕ) → m.gear ≤ d → d < to → power d ≡ Parked → 1 ≤ slice_index spins d)
        → HoldUnder slots power size h k (meta_after_begin m (Up to) spins) f }
{}

/// Stripes that are copied can be marked as filled.
pub fn copied_stripes_can_be_marked()
    ensures { (slots : ℕ) (power : ℕ → PowerType) (size : ℕ → ℕ) (h : History) (k : ℕ)
        (m : MetaType) (f : Contents) → out_disk power m ≡ None → HoldUnder slots power size h k m f
        → (end : ℕ) → AreStripesCopied (view_by m power f) end
        → HoldUnder slots power size h k (filled_to m end) f }
{}

/// A shift with no unit left can end.
pub fn a_shift_can_end()
    ensures { (slots : ℕ) (power : ℕ → PowerType) (size : ℕ → ℕ) (h : History) (k : ℕ)
        (m : MetaType) (f : Contents) → out_disk power m ≡ None → HoldUnder slots power size h k m f
        → (to : ℕ) → 2 ≤ to → to ≤ m.setup.geometry.disks → phase_to m.phase ≡ to
        → m.fill ≡ stripe_count m.setup.geometry.disks m.setup.geometry.rows to
        → ((r d : ℕ) → r < m.setup.geometry.rows → m.gear ≤ d → d < to
        → (view_by m power f).dirty r d ≡ false)
        → (m.gear < to → rising_to m.phase ≡ to) → ((d : ℕ) → d < to → power d ≡ Spinning)
        → HoldUnder slots power size h k (meta_flipped_to m to) f }
{}

/// Cells that are copied can be marked as clean.
pub fn copied_cells_can_be_marked()
    ensures { (slots : ℕ) (power : ℕ → PowerType)
        (size : ℕ → ℕ) (h : History) (k : ℕ) (m : MetaType) (f : Contents) → out_disk power m ≡ None
        → HoldUnder slots power size h k m f → (cells : ℕ → ℕ → Bool) (after : Contents)
        → AreCellsCopied (view_by m power f) cells → ((x q : ℕ)
        → map_start m.setup.geometry + map_count m.setup.geometry ≤ q → after x q ≡ f x q)
        → ((j : ℕ) → j < map_count m.setup.geometry → after 0 (map_block_place m.setup.geometry j)
        ≡ after 1 (map_block_place m.setup.geometry j))
        → ((r d : ℕ) → r < 512 * map_count m.setup.geometry
        → map_bit m.setup.geometry (after 0) r d ≡ true → (view_by m power f).dirty r d ≡ true)
        → ((r d : ℕ) → r < m.setup.geometry.rows → d < m.setup.geometry.disks
        → (view_by m power f).dirty r d ≡ true → map_bit m.setup.geometry (after 0) r d ≡ false
        → cells r d ≡ true) → HoldUnder slots power size h k m after }
{}

/// The disk that is out can be marked as gone, and a disk can be failed.
pub fn a_disk_can_be_marked_out()
    ensures out { (slots : ℕ) (power : ℕ → PowerType) (size : ℕ → ℕ) (h : History) (k : ℕ)
        (m : MetaType) (f : Contents) (d : ℕ) (spins : List ℕ) → out_disk power m ≡ Some d
        → ((e : ℕ) → e ≢ d → slice_index spins e ≡ slice_index m.spins e)
        → HoldUnder slots power size h k m f
        → HoldUnder slots power size h k (record (meta_after_loss m d) { spins = spins }) f }
    ensures failed { (slots : ℕ) (power : ℕ → PowerType) (size : ℕ → ℕ) (h : History) (k : ℕ)
        (m : MetaType) (f : Contents) (d : ℕ) (spins : List ℕ) → IsInRange m
        → out_disk power m ≡ None
        → ((e : ℕ) → e ≢ d → slice_index spins e ≡ slice_index m.spins e)
        → HoldUnder slots power size h k m f
        → HoldUnder slots power size h k (record (meta_after_loss m d) { spins = spins }) f }
{}

/// Units that are copied can be marked as rebuilt; a disk that is whole again joins.
pub fn a_disk_can_be_rebuilt()
    ensures fresh { (slots : ℕ)
        (power : ℕ → PowerType) (size : ℕ → ℕ) (h : History) (k : ℕ) (m : MetaType) (f : Contents)
        (d : ℕ) → d < m.setup.geometry.disks → m.out ≡ Gone d → power d ≡ Spinning
        → disk_size m.setup.geometry ≤ size d → HoldUnder slots power size h k m f
        → HoldUnder slots power size h k (meta_with_out m (Fresh d 0)) f }
    ensures units { (slots : ℕ) (power : ℕ → PowerType) (size : ℕ → ℕ) (h : History) (k : ℕ)
        (m : MetaType) (f : Contents) (d units : ℕ) → d < m.setup.geometry.disks
        → out_disk power m ≡ Some d
        → (is_present (power d) ≡ true → AreRebuilt (view_by m power f) d units)
        → (is_present (power d) ≡ true → disk_size m.setup.geometry ≤ size d)
        → (is_present (power d) ≡ true → power d ≡ Spinning)
        → HoldUnder slots power size h k m f
        → HoldUnder slots power size h k (meta_with_out m (Fresh d units)) f }
    ensures joins { (slots : ℕ) (power : ℕ → PowerType)
        (size : ℕ → ℕ) (h : History) (k : ℕ) (m : MetaType) (f : Contents) (d units : ℕ)
        → IsInRange m → d < m.setup.geometry.disks
        → m.out ≡ Fresh d units → units ≡ rebuild_units m.setup.geometry m.gear d
        → m.fill ≡ 0 → ((e : ℕ) → e < m.setup.geometry.disks → is_present (power e) ≡ true)
        → HoldUnder slots power size h k m f
        → HoldUnder slots power size h k (meta_with_out m No) f }
{}

/// The metas that the moves bring are in range; so is one with more ticks.
pub fn the_marks_of_moves_are_in_range()
    ensures down { (m : MetaType) (to : ℕ) → IsInRange m → m.out ≡ No → m.phase ≡ Steady
        → AreNextGears m.setup.geometry to m.gear
        → ((d : ℕ) → to ≤ d → d < m.gear → slice_index m.spins d < allowed_spins m)
        → IsInRange (meta_after_begin m (Down to) m.spins) }
    ensures up { (m : MetaType) (to : ℕ) (spins : List ℕ) → IsInRange m → m.out ≡ No
        → m.phase ≡ Steady → AreNextGears m.setup.geometry m.gear to → length spins ≡ 8
        → ((d : ℕ) → m.gear ≤ d → d < to → slice_index spins d ≡ slice_index m.spins d + 1)
        → ((d : ℕ) → (d < m.gear) ⊎ (to ≤ d) → slice_index spins d ≡ slice_index m.spins d)
        → IsInRange (meta_after_begin m (Up to) spins) }
    ensures filled { (m : MetaType) (end : ℕ) → IsInRange m → m.out ≡ No
        → end ≤ fill_limit m.setup.geometry m.phase → IsInRange (filled_to m end) }
    ensures flip { (m : MetaType) (to : ℕ) → IsInRange m → m.out ≡ No → m.phase ≢ Steady
        → phase_to m.phase ≡ to → IsInRange (meta_flipped_to m to) }
    ensures out { (m : MetaType) (d : ℕ) (spins : List ℕ) → IsInRange m
        → d < m.setup.geometry.disks → length spins ≡ 8
        → ((e : ℕ) → slice_index spins e ≤ slice_index m.spins e)
        → IsInRange (record (meta_after_loss m d) { spins = spins }) }
    ensures units { (m : MetaType) (d units : ℕ) → IsInRange m → has_out m.out ≡ true
        → d < m.setup.geometry.disks → units ≤ rebuild_units m.setup.geometry m.gear d
        → IsInRange (meta_with_out m (Fresh d units)) }
    ensures joins { (m : MetaType) → IsInRange m → IsInRange (meta_with_out m No) }
    ensures later { (m t : MetaType) → IsInRange m → IsAs m t
        → IsVersionInRange t.version t.setup → AreCountersInRange t.epoch t.writes t.ticks
        → m.ticks ≤ t.ticks → IsInRange t }
{}
