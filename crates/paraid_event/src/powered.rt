//! That disks are spun up and parked in an event as a session asks.
ghost use Rattle.std.specs.Prelude.{◌≡◌, ℕ, ◌<◌, ◌≤◌, ◌⊎◌, [], List, Option, Some, slice_index};
ghost use Rattle.paraid_base.specs.declared.fault.Two.{Two as TwoType};
ghost use Rattle.paraid_base.specs.History.{History};
ghost use Rattle.paraid_base.specs.States.{named_out, rising_to};
ghost use Rattle.paraid_rack.specs.declared.call.Call.{Call as CallType};
ghost use Rattle.paraid_rack.specs.Told.{CrashTriple, Ran};
ghost use Rattle.paraid_rack.specs.Trail.{Trail, now};
ghost use Rattle.paraid_record.specs.declared.meta.Meta.{Meta as MetaType};
ghost use Rattle.paraid_core.specs.CoreInvariant.{IsHeldWithOneMissing};
ghost use Rattle.paraid_session.specs.Watch.{Bounds, Each, HoldsWhileServing, IsAllowed, IsServing, Watch, watch_all};
ghost use Rattle.paraid_event.specs.Lost.{TellsTwo};
ghost use Rattle.paraid_event.specs.Marks.{ArePoweredByGear, IsMarkedBy, ShowsMeta};
ghost use Rattle.paraid_event.specs.Powering.{AreDisksPowered, ArePowerCalls, EndsPowered, PowersInEvent, ServiceRests};
ghost use Rattle.paraid_event.specs.Service.{Service};
ghost use Rattle.paraid_event.specs.Stands.{IsMidway, ServiceStandsFor};
ghost use Rattle.paraid_event.specs.Steps.{IsOnly};

/// Where the meta that stands has recorded a spin-up of each disk that comes up, calls by which
/// disks are spun up or parked are allowed and hold what a session asks, whichever of them fail;
/// and the core stands after them, by the same meta.
pub fn powered_disks_keep_a_session()
    ensures each { (k : Service) (h : History) (lo : ℕ) (base : MetaType) (w : Watch) (b : Bounds)
        (asked : Option ℕ) (cs : List CallType) → IsMidway k h lo base w
        → IsOnly (named_out k.meta.out) w.down
        → ShowsMeta w.disks.power base k.meta → ((d : ℕ) → w.awaited ≡ Some d → ⊥)
        → ((d : ℕ) → base.gear ≤ d → d < rising_to base.phase → 1 ≤ slice_index base.spins d)
        → k.meta.setup ≡ b.setup → base.ticks ≤ b.ticks → base.epoch ≤ b.epoch
        → AreDisksPowered k h lo w.disks cs
        → Each (HoldsWhileServing k.slots h lo b) (IsAllowed b.setup asked) w cs }
    ensures stands { (k k_then : Service) (h : History) (lo : ℕ) (base : MetaType) (w : Watch)
        (cs : List CallType) → IsMidway k h lo base w
        → ShowsMeta w.disks.power base k.meta → ((d : ℕ) → w.awaited ≡ Some d → ⊥)
        → ((d : ℕ) → base.gear ≤ d → d < rising_to base.phase → 1 ≤ slice_index base.spins d)
        → AreDisksPowered k h lo w.disks cs → EndsPowered k k_then h lo w.disks cs
        → IsServing (watch_all cs w).down → IsMidway k_then h lo base (watch_all cs w) }
{}

/// What a core says of its calls, of what is held at each moment, of its mark of a lost disk and of
/// the powers is what is told of disks that are powered in an event; so it is where a second disk
/// is lost.
pub fn a_core_powers_disks_in_an_event()
    ensures ends { (told told_then : Option Trail)
        (k k_then : Service) (h : History) (lo : ℕ) (out : Option ℕ)
        → ((d : ℕ) → out ≡ Some d → (k.named ≡ Some d) ⊎ (named_out k.meta.out ≡ Some d))
        → ((t : Trail)
        → told ≡ Some t → ServiceStandsFor k h lo (now t) → ServiceRests k h lo (now t))
        → k_then.batch ≡ [] → Ran told told_then (ArePowerCalls k.meta)
        → Ran told told_then (CrashTriple (IsHeldWithOneMissing k.slots
        k.meta.setup.geometry.disks out h lo) (ServiceRests k h lo) (ServiceRests k_then h lo))
        → ((t : Trail) → told_then ≡ Some t → IsMarkedBy (now t).power k.meta k_then.meta)
        → ((t : Trail) → told_then ≡ Some t → ArePoweredByGear (now t).power k_then.meta)
        → Ran told told_then (PowersInEvent k k_then h lo) }
    ensures loses { (told told_then : Option Trail)
        (k : Service) (two : TwoType) (h : History) (lo : ℕ) (out : Option ℕ)
        → ((d : ℕ) → out ≡ Some d → (k.named ≡ Some d) ⊎ (named_out k.meta.out ≡ Some d))
        → ((t : Trail)
        → told ≡ Some t → ServiceStandsFor k h lo (now t) → ServiceRests k h lo (now t))
        → Ran told told_then (ArePowerCalls k.meta) → Ran told told_then
        (CrashTriple (IsHeldWithOneMissing k.slots k.meta.setup.geometry.disks out h lo)
        (ServiceRests k h lo) (IsHeldWithOneMissing k.slots k.meta.setup.geometry.disks out h lo))
        → Ran told told_then (TellsTwo k two) → Ran told told_then (λ s cs.
        (ServiceStandsFor k h lo s → AreDisksPowered k h lo s cs) × TellsTwo k two s cs) }
{}
