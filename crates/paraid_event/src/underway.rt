//! That an event is underway from a point at which an array stands.
ghost use Rattle.std.specs.Prelude.{◌<◌, Option};
ghost use Rattle.paraid_base.specs.Log.{worn_at};
ghost use Rattle.paraid_rack.specs.Trail.{Trail};
ghost use Rattle.paraid_record.specs.declared.meta.Setup.{Setup as SetupType};
ghost use Rattle.paraid_session.specs.Resting.{watch_at};
ghost use Rattle.paraid_session.specs.Turn.{Point, point_wear};
ghost use Rattle.paraid_event.specs.Service.{IsStateOf, Service};
ghost use Rattle.paraid_event.specs.Stands.{StandsAt};
ghost use Rattle.paraid_event.specs.Steps.{IsUnderway};
ghost use Rattle.paraid_event.specs.Ticks.{CountsTick};
ghost use Rattle.paraid_machine.specs.Moves.{state_with_tick};

/// From where an array stands an event is underway, also once a tick has counted itself; then the
/// service has the state with that tick.
pub fn an_event_is_underway()
    ensures event { (told : Option Trail) (k : Service) (setup : SetupType) (p : Point)
        → StandsAt told k setup p → IsUnderway k p.history p.low p.meta (watch_at p) }
    ensures tick { (told : Option Trail) (k counted : Service) (setup : SetupType) (p : Point)
        → StandsAt told k setup p → point_wear p < worn_at → CountsTick k counted
        → IsUnderway counted p.history p.low p.meta (watch_at p) }
    ensures state { (told : Option Trail) (k counted : Service) (setup : SetupType) (p : Point)
        → StandsAt told k setup p → point_wear p < worn_at → CountsTick k counted
        → IsStateOf counted (state_with_tick p.state) }
{}
