//! That the commits of a tick of a shift are within those that an event may make.
ghost use Rattle.std.specs.Prelude.{◌≡◌, ◌+◌, ◌≤◌};
ghost use Rattle.paraid_base.specs.declared.state.Phase.TheVariants.{Steady};
ghost use Rattle.paraid_record.specs.Range.{IsInRange};
ghost use Rattle.paraid_image.specs.Power.{PowerState};
ghost use Rattle.paraid_machine.specs.Moves.{units_of_tick};
ghost use Rattle.paraid_event.specs.Service.{IsStateOf, Service};
ghost use Rattle.paraid_session.specs.Turn.{event_room};

/// The units that a tick moves are so few that there is room for a commit of each, and for many
/// more.
pub fn the_commits_of_a_tick_fit()
    ensures { (k : Service) (s : PowerState) → IsStateOf k s → IsInRange k.meta
        → (s.phase ≡ Steady → ⊥) → units_of_tick k.meta.setup s + 131072 ≤ event_room }
{}
