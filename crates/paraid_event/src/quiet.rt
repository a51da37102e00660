//! That refusals make no call and leave an array as it is.
ghost use Rattle.std.specs.Prelude.{◌≡◌, ◌≢◌, ℕ, ◌<◌, ◌≤◌, true, None, Option, Some};
ghost use Rattle.paraid_base.specs.declared.event.Answer.TheVariants.{Halted, Lowest, NoBlock, NoDisk, NotOut, Out as IsOut, Ration as RationUsed, Shifting, Top};
ghost use Rattle.paraid_base.specs.declared.event.Event.{Event as EventType};
ghost use Rattle.paraid_base.specs.declared.event.Event.TheVariants.{Bad as BadEvent, Down as AskDown, Fail as FailEvent, Read as ReadEvent, Replace as ReplaceEvent, Up as AskUp, Write as WriteEvent};
ghost use Rattle.paraid_base.specs.declared.fault.Halt.TheVariants.{Worn};
ghost use Rattle.paraid_base.specs.declared.pairs.Pairs.{Pairs as PairsType};
ghost use Rattle.paraid_base.specs.declared.state.Out.TheVariants.{No};
ghost use Rattle.paraid_base.specs.declared.state.Phase.TheVariants.{Steady};
ghost use Rattle.paraid_base.specs.Gears.{next_higher, next_lower};
ghost use Rattle.paraid_base.specs.Log.{worn_at};
ghost use Rattle.paraid_base.specs.Pairs.{pairs_of};
ghost use Rattle.paraid_base.specs.States.{named_out, phase_to};
ghost use Rattle.paraid_rack.specs.Told.{Ran};
ghost use Rattle.paraid_rack.specs.Trail.{Trail};
ghost use Rattle.paraid_record.specs.declared.meta.Setup.{Setup as SetupType};
ghost use Rattle.paraid_machine.specs.Machine.{block_count, blocks_named, first_missing};
ghost use Rattle.paraid_machine.specs.Moves.{first_used_up};
ghost use Rattle.paraid_session.specs.Turn.{GoesOn, Point, may_halt, point_wear, with_halt};
ghost use Rattle.paraid_event.specs.Service.{Service};
ghost use Rattle.paraid_event.specs.Stands.{StandsAt};

/// A request for a block that there is not is refused.
pub fn a_missing_block_is_refused()
    ensures read { (told : Option Trail) (k : Service) (setup : SetupType) (p : Point) (block : ℕ)
        → StandsAt told k setup p
        → point_wear p < worn_at → block_count setup ≤ block → Ran told told
        (GoesOn k.slots setup p (ReadEvent block) (NoBlock block) (StandsAt told k setup)) }
    ensures write { (told : Option Trail) (k : Service) (setup : SetupType) (p : Point)
        (pairs : PairsType) (block : ℕ) → StandsAt told k setup p → point_wear p < worn_at
        → first_missing (block_count setup) (blocks_named (pairs_of pairs)) ≡ Some block
        → Ran told told
        (GoesOn k.slots setup p (WriteEvent pairs) (NoBlock block) (StandsAt told k setup)) }
{}

/// A shift is refused in the highest and the lowest gear, while one is under way, where a disk is
/// out, and where the spin-ups of a disk are used up.
pub fn a_shift_is_refused()
    ensures top { (told : Option Trail) (k : Service) (setup : SetupType) (p : Point)
        → StandsAt told k setup p → point_wear p < worn_at
        → next_higher setup.geometry p.state.gear ≡ None
        → Ran told told (GoesOn k.slots setup p AskUp Top (StandsAt told k setup)) }
    ensures lowest { (told : Option Trail) (k : Service) (setup : SetupType) (p : Point)
        → StandsAt told k setup p → point_wear p < worn_at
        → next_lower setup.geometry p.state.gear ≡ None
        → Ran told told (GoesOn k.slots setup p AskDown Lowest (StandsAt told k setup)) }
    ensures up_shifting { (told : Option Trail) (k : Service)
        (setup : SetupType) (p : Point) (to : ℕ) → StandsAt told k setup p → point_wear p < worn_at
        → next_higher setup.geometry p.state.gear ≡ Some to → p.state.phase ≢ Steady → Ran told told
        (GoesOn k.slots setup p AskUp (Shifting (phase_to p.state.phase)) (StandsAt told k setup)) }
    ensures down_shifting { (told : Option Trail)
        (k : Service) (setup : SetupType) (p : Point) (to : ℕ) → StandsAt told k setup p
        → point_wear p < worn_at → next_lower setup.geometry p.state.gear ≡ Some to
        → p.state.phase ≢ Steady → Ran told told (GoesOn k.slots setup p AskDown
        (Shifting (phase_to p.state.phase)) (StandsAt told k setup)) }
    ensures up_out { (told : Option Trail)
        (k : Service) (setup : SetupType) (p : Point) (to disk : ℕ) → StandsAt told k setup p
        → point_wear p < worn_at → next_higher setup.geometry p.state.gear ≡ Some to
        → p.state.phase ≡ Steady → named_out p.state.out ≡ Some disk
        → Ran told told (GoesOn k.slots setup p AskUp (IsOut disk) (StandsAt told k setup)) }
    ensures down_out { (told : Option Trail)
        (k : Service) (setup : SetupType) (p : Point) (to disk : ℕ) → StandsAt told k setup p
        → point_wear p < worn_at → next_lower setup.geometry p.state.gear ≡ Some to
        → p.state.phase ≡ Steady → named_out p.state.out ≡ Some disk
        → Ran told told (GoesOn k.slots setup p AskDown (IsOut disk) (StandsAt told k setup)) }
    ensures ration { (told : Option Trail)
        (k : Service) (setup : SetupType) (p : Point) (to disk : ℕ) → StandsAt told k setup p
        → point_wear p < worn_at → next_lower setup.geometry p.state.gear ≡ Some to
        → p.state.phase ≡ Steady → p.state.out ≡ No → first_used_up setup p.state to ≡ Some disk
        → Ran told told (GoesOn k.slots setup p AskDown (RationUsed disk) (StandsAt told k setup)) }
{}

/// A disk that is not of the array is neither taken out nor replaced; none is taken out beside
/// another, and none replaced that is not out.
pub fn a_disk_is_refused()
    ensures fail_no_disk { (told : Option Trail)
        (k : Service) (setup : SetupType) (p : Point) (disk : ℕ) → StandsAt told k setup p
        → point_wear p < worn_at → setup.geometry.disks ≤ disk → Ran told told
        (GoesOn k.slots setup p (FailEvent disk) (NoDisk disk) (StandsAt told k setup)) }
    ensures fail_out { (told : Option Trail) (k : Service) (setup : SetupType)
        (p : Point) (disk other : ℕ) → StandsAt told k setup p → point_wear p < worn_at
        → disk < setup.geometry.disks → named_out p.state.out ≡ Some other → Ran told told
        (GoesOn k.slots setup p (FailEvent disk) (IsOut other) (StandsAt told k setup)) }
    ensures replace_no_disk { (told : Option Trail)
        (k : Service) (setup : SetupType) (p : Point) (disk : ℕ) → StandsAt told k setup p
        → point_wear p < worn_at → setup.geometry.disks ≤ disk → Ran told told
        (GoesOn k.slots setup p (ReplaceEvent disk) (NoDisk disk) (StandsAt told k setup)) }
    ensures replace_not_out { (told : Option Trail) (k : Service) (setup : SetupType)
        (p : Point) (disk : ℕ) → StandsAt told k setup p → point_wear p < worn_at
        → disk < setup.geometry.disks → named_out p.state.out ≢ Some disk → Ran told told
        (GoesOn k.slots setup p (ReplaceEvent disk) (NotOut disk) (StandsAt told k setup)) }
{}

/// An array that has made so many commits or writes takes no more.
pub fn a_worn_array_takes_no_more()
    ensures { (told : Option Trail) (k : Service) (setup : SetupType) (p : Point)
        (event : EventType) → StandsAt told k setup p → event ≢ BadEvent → may_halt event ≡ true
        → worn_at ≤ point_wear p → Ran told told (GoesOn k.slots setup p event
        (Halted (Worn (point_wear p))) (λ q. q ≡ with_halt p (Worn (point_wear p)))) }
{}
