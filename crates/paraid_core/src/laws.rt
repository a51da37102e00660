//! What planned writes leave of what a core stands for, and what its calls leave of what stands.
ghost use Rattle.std.specs.Prelude.{◌≡◌, ℕ, Bool, List, Option, false, [], length};
ghost use Rattle.paraid_base.specs.declared.state.Out.TheVariants.{Gone};
ghost use Rattle.paraid_base.specs.History.{History};
ghost use Rattle.paraid_core.specs.Begin.{IsPoweredBy};
ghost use Rattle.paraid_core.specs.Calls.{IsPastLog};
ghost use Rattle.paraid_core.specs.CoreInvariant.{AreSlotsReady, CanServe, HoldsBetweenCalls};
ghost use Rattle.paraid_core.specs.Replaced.{KeepsCommitted};
ghost use Rattle.paraid_core.specs.Stood.{CanFail, StoodBeside, StoodIn};
ghost use Rattle.paraid_core.specs.Writes.{RestKeeps, TakenWriteKeeps};
ghost use Rattle.paraid_image.specs.HeldAt.{IsHeld};
ghost use Rattle.paraid_image.specs.Looked.{IsLooked};
ghost use Rattle.paraid_image.specs.Sides.{Batch, LogState};
ghost use Rattle.paraid_image.specs.Standing.{Stands};
ghost use Rattle.paraid_rack.specs.Calls.{disk_of, is_done};
ghost use Rattle.paraid_rack.specs.Disks.{Disks, step};
ghost use Rattle.paraid_rack.specs.Slots.{Slot};
ghost use Rattle.paraid_rack.specs.declared.call.Call.{Call as CallType};
ghost use Rattle.paraid_rack.specs.declared.call.Call.TheVariants.{Attach, Park, SpinUp};
ghost use Rattle.paraid_rack.specs.declared.call.Power.TheVariants.{Parked, Spinning};
ghost use Rattle.paraid_record.specs.declared.meta.Meta.{Meta as MetaType};

/// A write of several blocks that was planned over a core, and taken into its batch and table, adds
/// one entry to the writes that it stands for.
pub fn a_taken_write_is_accepted()
    ensures { TakenWriteKeeps }
{}

/// A core that begins at a rest with nothing staged stands for what its disks hold, where each
/// witness is true and one against a log disk that is named out is borne.
pub fn a_rest_is_stood_for()
    ensures { RestKeeps }
{}

/// Where nothing is staged, the last commit has brought all writes that a core stands for: no stop
/// takes one away.
pub fn an_empty_batch_keeps_all()
    ensures { (slots : ℕ) (named : Option ℕ) (m : MetaType) (table : List (List Bool))
        (batch : Batch) (copied : List Bool) (h : History) (lo : ℕ) (s : Disks)
        → length batch ≡ 0 → (z : HoldsBetweenCalls slots named m table batch copied h lo s)
        → (y : HoldsBetweenCalls slots named m table batch copied h (length h) s)
        × (y.base ≡ z.base) }
{}

/// What stands after a call that writes no block of the log, in an image that is looked at, stood
/// so before it. So no call between two commits brings a meta.
pub fn what_stands_stood_before()
    ensures past_log { (slots : ℕ) (s : Disks) (c : CallType)
        (h : History) (lo : ℕ) (down : Option ℕ) → IsPastLog c → IsHeld slots s h lo down
        → (is_done c ≡ false → CanFail s (disk_of c)) → (j : Disks) (x : ℕ) (said : LogState)
        → IsLooked (step c s) j → Stands j x said → StoodIn s (λ d. ⊥) j x said }
    ensures park { (slots : ℕ) (s : Disks) (d : ℕ) (done : Bool)
        (h : History) (lo : ℕ) (down : Option ℕ) → s.power d ≡ Spinning → IsHeld slots s h lo down
        → (done ≡ false → CanFail s d) → (j : Disks) (x : ℕ) (said : LogState)
        → IsLooked (step (Park d done) s) j → Stands j x said → StoodIn s (λ e. e ≡ d) j x said }
    ensures spin_up { (slots : ℕ) (s : Disks) (d : ℕ) (done : Bool)
        (h : History) (lo : ℕ) (down : Option ℕ) → s.power d ≡ Parked → IsHeld slots s h lo down
        → (done ≡ false → CanFail s d) → (j : Disks) (x : ℕ) (said : LogState)
        → IsLooked (step (SpinUp d done) s) j → Stands j x said → StoodIn s (λ e. e ≡ d) j x said }
{}

/// What stands after an attach in the place of the disk that is gone by the last commit, done or
/// failed, in an image that is looked at, stood so before it; and the last commit is the same. So
/// an attach brings no meta.
pub fn an_attach_brings_no_meta()
    ensures stood { (slots : ℕ) (named : Option ℕ) (m : MetaType) (table : List (List Bool))
        (copied : List Bool) (h : History) (lo : ℕ) (s : Disks) (d size : ℕ) (done : Bool)
        → KeepsCommitted slots named m table copied h lo (Gone d) s
        → (j : Disks) (x : ℕ) (said : LogState)
        → IsLooked (step (Attach d size done) s) j → Stands j x said → StoodBeside s d j x said }
    ensures last { (slots : ℕ) (named : Option ℕ) (m : MetaType)
        (table : List (List Bool)) (copied : List Bool) (h : History) (lo : ℕ) (s : Disks)
        (d size : ℕ) (done : Bool) (kc : KeepsCommitted slots named m table copied h lo (Gone d) s)
        (slots_then : ℕ) (named_then : Option ℕ) (m_then : MetaType) (table_then : List (List Bool))
        (batch_then : Batch) (copied_then : List Bool) (h_then : History)
        (lo_then : ℕ) (z : HoldsBetweenCalls slots_then named_then m_then table_then batch_then
        copied_then h_then lo_then (step (Attach d size done) s)) → z.base ≡ kc.filled.keeps.base }
{}

/// Where the disks are powered by the gear, or out, a core can begin over them with nothing staged,
/// and cells can be read and written.
pub fn a_powered_array_can_begin()
    ensures ready { (count : ℕ)
        (slot : ℕ → Slot) (last array : ℕ) (named : Option ℕ) (m : MetaType) (rows : ℕ)
        → IsPoweredBy count slot named m → m.setup.geometry.disks ≡ array → m.epoch ≡ last
        → rows ≡ m.setup.geometry.rows → AreSlotsReady count slot last array named m rows [] }
    ensures serves { (count : ℕ) (slot : ℕ → Slot) (named : Option ℕ) (m : MetaType)
        → IsPoweredBy count slot named m → CanServe slot named m }
{}
