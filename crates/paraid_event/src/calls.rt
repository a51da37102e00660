//! That the calls of a core in an event hold what a session asks at each moment, whichever of them
//! fail.
ghost use Rattle.std.specs.Prelude.{◌≡◌, ℕ, ◌+◌, ◌<◌, ◌≤◌, ◌++◌, List, Option, Some};
ghost use Rattle.paraid_base.specs.History.{History};
ghost use Rattle.paraid_base.specs.States.{gone_out};
ghost use Rattle.paraid_rack.specs.declared.call.Call.{Call as CallType};
ghost use Rattle.paraid_rack.specs.Told.{Through};
ghost use Rattle.paraid_record.specs.declared.meta.Meta.{Meta as MetaType};
ghost use Rattle.paraid_record.specs.declared.meta.Setup.{Setup as SetupType};
ghost use Rattle.paraid_core.specs.Calls.{IsDataCall, IsTransferCall};
ghost use Rattle.paraid_core.specs.CoreInvariant.{IsHeldWithOneMissing};
ghost use Rattle.paraid_session.specs.Watch.{Bounds, Each, HoldsWhileServing, IsAllowed, IsAmongDown, Watch, watch_all};
ghost use Rattle.paraid_txn.specs.Commit.{IsOldOrNew};
ghost use Rattle.paraid_txn.specs.Uses.{EachCall};
ghost use Rattle.paraid_event.specs.Parts.{committed_meta};
ghost use Rattle.paraid_event.specs.Service.{Service};
ghost use Rattle.paraid_event.specs.Stands.{StandsIn};

/// What holds at each moment of two parts of an event holds at each moment of both.
pub fn parts_of_an_event_follow_each_other()
    ensures { (slots : ℕ) (h : History) (lo : ℕ) (b : Bounds) (setup : SetupType)
        (asked : Option ℕ) (w : Watch) (cs ds : List CallType)
        → Each (HoldsWhileServing slots h lo b) (IsAllowed setup asked) w cs
        → Each (HoldsWhileServing slots h lo b) (IsAllowed setup asked) (watch_all cs w) ds
        → Each (HoldsWhileServing slots h lo b) (IsAllowed setup asked) w (cs ++ ds) }
{}

/// From where a core stands, its calls are allowed and hold what a session asks: between two
/// commits the meta of the last one stands, and in a commit that one or the next.
pub fn calls_of_a_core_keep_a_session()
    ensures between { (k : Service) (h g : History) (lo low : ℕ) (base : MetaType) (w : Watch)
        (b : Bounds) (asked out : Option ℕ) (cs : List CallType) → StandsIn k h lo base w
        → k.meta.setup ≡ b.setup → k.meta.ticks ≤ b.ticks → base.epoch ≤ b.epoch
        → ((d : ℕ) → out ≡ Some d → (d < k.meta.setup.geometry.disks) × IsAmongDown w.down d)
        → EachCall (IsDataCall k.meta.setup.geometry.disks (gone_out k.meta.out)) w.disks cs
        → Through (IsHeldWithOneMissing k.slots k.meta.setup.geometry.disks out g low) w.disks cs
        → Each (HoldsWhileServing k.slots g low b) (IsAllowed b.setup asked) w cs }
    ensures commit { (k : Service) (h g : History) (lo low : ℕ) (base : MetaType) (w : Watch)
        (b : Bounds) (asked out : Option ℕ) (cs : List CallType) → StandsIn k h lo base w
        → k.meta.setup ≡ b.setup → k.meta.ticks ≤ b.ticks → base.epoch + 1 ≤ b.epoch
        → ((d : ℕ) → out ≡ Some d → (d < k.meta.setup.geometry.disks) × IsAmongDown w.down d)
        → EachCall (IsTransferCall k.meta.setup.geometry.disks (gone_out k.meta.out)) w.disks cs
        → Through (IsHeldWithOneMissing k.slots k.meta.setup.geometry.disks out g low) w.disks cs
        → Through (IsOldOrNew w.disks base (committed_meta k) k.batch) w.disks cs
        → Each (HoldsWhileServing k.slots g low b) (IsAllowed b.setup asked) w cs }
{}
