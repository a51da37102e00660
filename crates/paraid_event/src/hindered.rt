//! That a disk that is lost with what was staged stands in the way of an event.
ghost use Rattle.std.specs.Prelude.{◌≡◌, ◌≢◌, ℕ, ◌<◌, ◌≤◌, None, Option, Some};
ghost use Rattle.paraid_base.specs.declared.event.Answer.TheVariants.{Out as IsOut};
ghost use Rattle.paraid_base.specs.declared.event.Event.TheVariants.{Down as AskDown, Fail as FailEvent, Up as AskUp};
ghost use Rattle.paraid_base.specs.declared.state.Out.TheVariants.{No};
ghost use Rattle.paraid_base.specs.declared.state.Phase.TheVariants.{Steady};
ghost use Rattle.paraid_base.specs.Gears.{next_higher, next_lower};
ghost use Rattle.paraid_base.specs.Log.{worn_at};
ghost use Rattle.paraid_base.specs.States.{named_out};
ghost use Rattle.paraid_rack.specs.Told.{Ran};
ghost use Rattle.paraid_rack.specs.Trail.{Trail};
ghost use Rattle.paraid_record.specs.declared.meta.Setup.{Setup as SetupType};
ghost use Rattle.paraid_machine.specs.Moves.{first_used_up};
ghost use Rattle.paraid_session.specs.Turn.{GoesOn, Point, point_wear};
ghost use Rattle.paraid_event.specs.Counts.{CountsFlushed};
ghost use Rattle.paraid_event.specs.Parts.{ServesEvent};
ghost use Rattle.paraid_event.specs.Service.{Service};
ghost use Rattle.paraid_event.specs.Stands.{StandsAt};

/// What is staged is committed first. A disk that is lost there is out: then no other disk is taken
/// out, and no shift begins.
pub fn a_lost_disk_hinders_an_event()
    ensures fail { (told told_then : Option Trail) (k k_then : Service) (setup : SetupType)
        (p : Point) (disk other lo_then : ℕ) → StandsAt told k setup p → point_wear p < worn_at
        → disk < setup.geometry.disks → p.state.out ≡ No → named_out k_then.meta.out ≡ Some other
        → disk ≢ other → CountsFlushed k k_then → p.low ≤ lo_then
        → Ran told told_then (ServesEvent k k_then p.history p.low p.history lo_then)
        → Ran told told_then
        (GoesOn k.slots setup p (FailEvent disk) (IsOut other) (StandsAt told_then k_then setup)) }
    ensures up { (told told_then : Option Trail) (k k_then : Service)
        (setup : SetupType) (p : Point) (to other lo_then : ℕ) → StandsAt told k setup p
        → point_wear p < worn_at → next_higher setup.geometry p.state.gear ≡ Some to
        → p.state.phase ≡ Steady → p.state.out ≡ No
        → named_out k_then.meta.out ≡ Some other → CountsFlushed k k_then → p.low ≤ lo_then
        → Ran told told_then (ServesEvent k k_then p.history p.low p.history lo_then)
        → Ran told told_then
        (GoesOn k.slots setup p AskUp (IsOut other) (StandsAt told_then k_then setup)) }
    ensures down { (told told_then : Option Trail) (k k_then : Service)
        (setup : SetupType) (p : Point) (to other lo_then : ℕ) → StandsAt told k setup p
        → point_wear p < worn_at → next_lower setup.geometry p.state.gear ≡ Some to
        → p.state.phase ≡ Steady → p.state.out ≡ No → first_used_up setup p.state to ≡ None
        → named_out k_then.meta.out ≡ Some other → CountsFlushed k k_then → p.low ≤ lo_then
        → Ran told told_then (ServesEvent k k_then p.history p.low p.history lo_then)
        → Ran told told_then
        (GoesOn k.slots setup p AskDown (IsOut other) (StandsAt told_then k_then setup)) }
{}
