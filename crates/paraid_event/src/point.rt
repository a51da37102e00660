//! That an array stands at a mark of a session between two events.
ghost use Rattle.std.specs.Prelude.{Option};
ghost use Rattle.paraid_rack.specs.Trail.{Trail};
ghost use Rattle.paraid_record.specs.declared.meta.Setup.{Setup as SetupType};
ghost use Rattle.paraid_session.specs.Turn.{IsMark, Point};
ghost use Rattle.paraid_session.specs.Resting.{IsResting};
ghost use Rattle.paraid_event.specs.Service.{Service};
ghost use Rattle.paraid_event.specs.Stands.{StandsAt};

/// Where an array stands between two events is a mark of a session, at which it rests.
pub fn a_core_stands_at_a_mark()
    ensures mark { (told : Option Trail) (k : Service) (setup : SetupType) (p : Point)
        → StandsAt told k setup p → IsMark k.slots setup p }
    ensures rests { (told : Option Trail) (k : Service) (setup : SetupType) (p : Point)
        → StandsAt told k setup p → IsResting k.slots setup p }
{}
