//! What lies between two commits: copies into free places, and the calls that leave them.
//!
//! `HoldsWithCopies slots m f h lo s` says that meta `m` stands by closed gates, and that the
//! blocks past the log are `f` but for free places, so that they hold the history.
ghost use Rattle.std.specs.Prelude.{◌≡◌, ◌≢◌, ℕ, ◌+◌, ◌<◌, ◌≤◌, ◌⊎◌, Bool, true, false, [], Some, None};
ghost use Rattle.paraid_base.specs.declared.block.Block.{Block as BlockType};
ghost use Rattle.paraid_base.specs.declared.state.Out.TheVariants.{Gone, Fresh};
ghost use Rattle.paraid_base.specs.History.{History};
ghost use Rattle.paraid_base.specs.Log.{map_block_place};
ghost use Rattle.paraid_base.specs.Regions.{disk_size, hard_place_of, map_count, soft_place_of};
ghost use Rattle.paraid_rack.specs.declared.call.Call.{Call as CallType};
ghost use Rattle.paraid_rack.specs.declared.call.Call.TheVariants.{Attach, Park, Read, SpinUp, Sync, Write};
ghost use Rattle.paraid_rack.specs.Disks.{Disks, IsPresent, step};
ghost use Rattle.paraid_record.specs.declared.meta.Meta.{Meta as MetaType};
ghost use Rattle.paraid_record.specs.Range.{IsInRange};
ghost use Rattle.paraid_image.specs.Calls.{disk_of, is_done};
ghost use Rattle.paraid_image.specs.Content.{view_by};
ghost use Rattle.paraid_image.specs.HeldAt.{IsHeld};
ghost use Rattle.paraid_image.specs.FirstWrites.{HoldsFirstWrites};
ghost use Rattle.paraid_image.specs.Out.{out_disk};
ghost use Rattle.paraid_image.specs.Rest.{IsAtRest, AreSynced};
ghost use Rattle.paraid_image.specs.Sides.{has_place};
ghost use Rattle.paraid_image.specs.Sound.{AreRebuilt, AreRowsZero, AreStripesZero, AreWitnessesTrue, stripes_on};
ghost use Rattle.paraid_image.specs.Spot.{rising_to};
ghost use Rattle.paraid_image.specs.Standing.{Contents, contents, other_log};
ghost use Rattle.paraid_image.specs.Value.{stripe_rest, value};
ghost use Rattle.paraid_moves.specs.Copying.{CanCopy, CanLose, HoldsWithCopies, without_disk};
ghost use Rattle.paraid_moves.specs.MoveMetas.{AreCellsCopied, view_with_out};

/// Between two commits, before any copy, the disks hold what their blocks past the log are, where
/// the witnesses are true.
pub fn copies_begin_at_a_rest()
    ensures { (slots : ℕ) (m : MetaType) (h : History) (lo : ℕ) (s : Disks) → IsAtRest s m
        → AreWitnessesTrue s (out_disk s.power m)
        → HoldsFirstWrites slots s m [] h lo → HoldsWithCopies slots m (contents s []) h lo s }
{}

/// While copies are made, each stop leaves the history. Where they are synced, a commit can begin
/// over what the blocks are then.
pub fn copies_leave_what_is_held()
    ensures held { (slots : ℕ) (m : MetaType) (f : Contents) (h : History) (lo : ℕ) (s : Disks)
        → HoldsWithCopies slots m f h lo s → IsHeld slots s h lo (out_disk s.power m) }
    ensures holds { (slots : ℕ) (m : MetaType) (f : Contents) (h : History) (lo : ℕ) (s : Disks)
        → HoldsWithCopies slots m f h lo s → HoldsFirstWrites slots s m [] h lo }
    ensures rest { (slots : ℕ) (m : MetaType) (f : Contents) (h : History) (lo : ℕ) (s : Disks)
        → HoldsWithCopies slots m f h lo s → AreSynced s → IsAtRest s m }
{}

/// The calls that are made between two commits leave the copies, and what is held with them: done
/// ones, and a failed one where no other disk is missing.
pub fn calls_between_commits_leave_copies()
    ensures read { (slots : ℕ) (m : MetaType) (f : Contents)
        (h : History) (lo : ℕ) (s : Disks) (d p : ℕ) → HoldsWithCopies slots m f h lo s
        → HoldsWithCopies slots m f h lo (step (Read d p true) s) }
    ensures sync { (slots : ℕ)
        (m : MetaType) (f : Contents) (h : History) (lo : ℕ) (s : Disks) (d : ℕ)
        → HoldsWithCopies slots m f h lo s → HoldsWithCopies slots m f h lo (step (Sync d true) s) }
    ensures write { (slots : ℕ) (m : MetaType) (f : Contents) (h : History) (lo : ℕ) (s : Disks)
        (d p : ℕ) (b : BlockType) → CanCopy slots m f h lo d p s
        → HoldsWithCopies slots m f h lo (step (Write d p b true) s) }
    ensures park { (slots : ℕ) (m : MetaType) (f : Contents) (h : History) (lo : ℕ) (s : Disks)
        (d : ℕ) → IsPresent s d → 2 ≤ d → m.gear ≤ d → rising_to m.phase ≤ d
        → ((units : ℕ) → m.out ≢ Fresh d units) → HoldsWithCopies slots m f h lo s
        → HoldsWithCopies slots m f h lo (step (Park d true) s) }
    ensures spin_up { (slots : ℕ) (m : MetaType) (f : Contents) (h : History) (lo : ℕ) (s : Disks)
        (d : ℕ) → IsPresent s d → HoldsWithCopies slots m f h lo s
        → HoldsWithCopies slots m f h lo (step (SpinUp d true) s) }
    ensures attach { (slots : ℕ) (m : MetaType) (f : Contents) (h : History) (lo : ℕ) (s : Disks)
        (d size : ℕ) → IsInRange m → m.out ≡ Gone d → disk_size m.setup.geometry ≤ size
        → CanLose slots m f h lo d s
        → HoldsWithCopies slots m (without_disk f d) h lo (step (Attach d size true) s) }
    ensures failed { (slots : ℕ) (m : MetaType) (f : Contents) (h : History) (lo : ℕ) (s : Disks)
        (call : CallType) → is_done call ≡ false → IsInRange m
        → CanLose slots m f h lo (disk_of call) s
        → HoldsWithCopies slots m (without_disk f (disk_of call)) h lo (step call s) }
{}

/// The value of a dirty cell that is written to its hard place is copied there, and the cells that
/// were copied stay so.
pub fn a_cell_is_copied()
    ensures { (s : Disks) (d p q : ℕ) (m : MetaType) (cells after : ℕ → ℕ → Bool) → IsInRange m
        → out_disk s.power m ≡ None → q < m.setup.geometry.rows → m.gear ≤ d
        → (view_by m s.power (contents s [])).dirty q d ≡ true
        → p ≡ hard_place_of m.setup.geometry q → has_place s d p ≡ true
        → ((r x : ℕ) → after r x ≡ true → (cells r x ≡ true) ⊎ ((r ≡ q) × (x ≡ d)))
        → AreCellsCopied (view_by m s.power (contents s [])) cells
        → let t = step (Write d p (value (view_by m s.power (contents s [])) q d) true) s in
        AreCellsCopied (view_by m t.power (contents t [])) after }
{}

/// One unit more of the disk `d` that is out is rebuilt by one block more: a row by its value, a
/// stripe by the XOR of its other blocks, and a block of the map by the other log disk's. A dirty
/// cell of a parked disk is passed over.
pub fn a_unit_is_rebuilt()
    ensures passed { (m : MetaType) (d row : ℕ) (f : Contents)
        → IsInRange m → d < m.setup.geometry.disks
        → row < m.setup.geometry.rows → m.gear ≤ d → (view_with_out m (Some d) f).dirty row d ≡ true
        → AreRebuilt (view_with_out m (Some d) f) d row
        → AreRebuilt (view_with_out m (Some d) f) d (row + 1) }
    ensures row { (m : MetaType) (d p row : ℕ) (f after : Contents) → IsInRange m
        → d < m.setup.geometry.disks → ((x q : ℕ) → (x ≡ d → q ≢ p) → after x q ≡ f x q)
        → AreRowsZero (view_with_out m (Some d) f) → AreStripesZero (view_with_out m (Some d) f)
        → row < m.setup.geometry.rows → p ≡ hard_place_of m.setup.geometry row
        → after d p ≡ value (view_with_out m (Some d) f) row d
        → AreRebuilt (view_with_out m (Some d) f) d row
        → AreRebuilt (view_with_out m (Some d) after) d (row + 1) }
    ensures stripe { (m : MetaType) (d p s : ℕ) (f after : Contents) → IsInRange m
        → d < m.setup.geometry.disks → ((x q : ℕ) → (x ≡ d → q ≢ p) → after x q ≡ f x q)
        → AreRowsZero (view_with_out m (Some d) f) → AreStripesZero (view_with_out m (Some d) f)
        → s < stripes_on (view_with_out m (Some d) f) d
        → p ≡ soft_place_of m.setup.geometry m.gear s
        → after d p ≡ stripe_rest m.setup.geometry f m.gear s d
        → AreRebuilt (view_with_out m (Some d) f) d (m.setup.geometry.rows + s)
        → AreRebuilt (view_with_out m (Some d) after) d (m.setup.geometry.rows + s + 1) }
    ensures map_block { (m : MetaType) (d p j : ℕ) (f after : Contents) → IsInRange m
        → d < m.setup.geometry.disks → ((x q : ℕ) → (x ≡ d → q ≢ p) → after x q ≡ f x q)
        → AreRowsZero (view_with_out m (Some d) f) → AreStripesZero (view_with_out m (Some d) f)
        → d < 2 → j < map_count m.setup.geometry → p ≡ map_block_place m.setup.geometry j
        → after d p ≡ f (other_log d) (map_block_place m.setup.geometry j)
        → AreRebuilt (view_with_out m (Some d) f) d
        (m.setup.geometry.rows + stripes_on (view_with_out m (Some d) f) d + j)
        → AreRebuilt (view_with_out m (Some d) after) d
        (m.setup.geometry.rows + stripes_on (view_with_out m (Some d) f) d + j + 1) }
{}
