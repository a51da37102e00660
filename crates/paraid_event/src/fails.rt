//! That a disk that is taken out is an event of a session.
ghost use Rattle.std.specs.Prelude.{◌≡◌, ℕ, ◌<◌, ◌≤◌, Option, Some};
ghost use Rattle.paraid_base.specs.declared.event.Answer.TheVariants.{Failed};
ghost use Rattle.paraid_base.specs.declared.event.Event.TheVariants.{Fail as FailEvent};
ghost use Rattle.paraid_base.specs.declared.state.Out.TheVariants.{No};
ghost use Rattle.paraid_base.specs.Log.{worn_at};
ghost use Rattle.paraid_rack.specs.Told.{Ran};
ghost use Rattle.paraid_rack.specs.Trail.{Trail, now};
ghost use Rattle.paraid_record.specs.declared.meta.Setup.{Setup as SetupType};
ghost use Rattle.paraid_session.specs.Turn.{GoesOn, Point, point_wear};
ghost use Rattle.paraid_event.specs.Fails.{TakesOut};
ghost use Rattle.paraid_event.specs.Parts.{ServesEvent};
ghost use Rattle.paraid_event.specs.Service.{Service};
ghost use Rattle.paraid_event.specs.Stands.{ServiceStandsFor, StandsAt};

/// A disk is taken out by a commit of what is staged, the mark that it is gone, and a commit of
/// that; it may itself be lost in them.
pub fn a_disk_is_taken_out()
    ensures { (told mid told_then : Option Trail) (k committed marked k_then : Service)
        (setup : SetupType) (p : Point) (disk lo lo_then : ℕ) → StandsAt told k setup p
        → point_wear p < worn_at → TakesOut k committed marked k_then disk
        → disk < setup.geometry.disks → p.state.out ≡ No → p.low ≤ lo → p.low ≤ lo_then
        → Ran told mid (ServesEvent k committed p.history p.low p.history lo)
        → ((t : Trail) → mid ≡ Some t → ServiceStandsFor committed p.history p.low (now t)
        → ServiceStandsFor marked p.history p.low (now t))
        → Ran mid told_then (ServesEvent marked k_then p.history p.low p.history lo_then)
        → Ran told told_then (GoesOn k.slots setup p (FailEvent disk) (Failed disk)
        (StandsAt told_then k_then setup)) }
{}
