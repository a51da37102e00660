//! That a tick in which a shift down begins is an event of a session.
ghost use Rattle.std.specs.Prelude.{◌≡◌, ℕ, ◌<◌, ◌≤◌, None, Option, Some};
ghost use Rattle.paraid_base.specs.declared.event.Answer.TheVariants.{Halted};
ghost use Rattle.paraid_base.specs.declared.event.Event.TheVariants.{Tick as TickEvent};
ghost use Rattle.paraid_base.specs.declared.fault.Halt.TheVariants.{Two as HaltTwo};
ghost use Rattle.paraid_base.specs.declared.fault.Two.{Two as TwoType};
ghost use Rattle.paraid_base.specs.declared.state.Out.TheVariants.{No};
ghost use Rattle.paraid_base.specs.declared.state.Phase.TheVariants.{Down, Steady};
ghost use Rattle.paraid_base.specs.declared.state.TickEvent.TheVariants.{Begun};
ghost use Rattle.paraid_base.specs.Log.{worn_at};
ghost use Rattle.paraid_gear.specs.declared.decision.Decision.TheVariants.{Down as DecideDown};
ghost use Rattle.paraid_gear.specs.Decision.{decision};
ghost use Rattle.paraid_rack.specs.Told.{Ran};
ghost use Rattle.paraid_rack.specs.Trail.{Trail, now};
ghost use Rattle.paraid_record.specs.declared.meta.Setup.{Setup as SetupType};
ghost use Rattle.paraid_machine.specs.Machine.{report};
ghost use Rattle.paraid_machine.specs.Moves.{first_used_up, state_with_tick};
ghost use Rattle.paraid_moves.specs.MoveMetas.{meta_after_begin};
ghost use Rattle.paraid_session.specs.Turn.{GoesOn, Point, point_wear};
ghost use Rattle.paraid_event.specs.Lost.{TellsTwo};
ghost use Rattle.paraid_event.specs.Parts.{LosesInEvent, ServesEvent};
ghost use Rattle.paraid_event.specs.Service.{Service};
ghost use Rattle.paraid_event.specs.Stands.{ServiceStandsFor, StandsAt};
ghost use Rattle.paraid_event.specs.Ticks.{BeginsDownByTick, CountsTick, IsHaltedWith};

/// A tick begins a shift down by one commit, with what was staged, the count of the tick and the
/// mark; a disk may be lost in it.
pub fn a_tick_begins_a_shift_down()
    ensures { (told told_then : Option Trail) (k counted begun k_then : Service)
        (setup : SetupType) (p : Point) (to lo_then : ℕ) → StandsAt told k setup p
        → point_wear p < worn_at → BeginsDownByTick k counted begun k_then to
        → to < p.state.gear → p.state.phase ≡ Steady → p.state.out ≡ No
        → decision setup p.state.gear (state_with_tick p.state).samples ≡ DecideDown to
        → first_used_up setup (state_with_tick p.state) to ≡ None → p.low ≤ lo_then
        → ((t : Trail) → told ≡ Some t → ServiceStandsFor counted p.history p.low (now t)
        → ServiceStandsFor begun p.history p.low (now t))
        → Ran told told_then (ServesEvent begun k_then p.history p.low p.history lo_then)
        → Ran told told_then (GoesOn k.slots setup p TickEvent (report p.state 0 (Begun to)).0
        (StandsAt told_then k_then setup)) }
{}

/// A second disk that is lost in that commit ends the service; the tick's own energy is counted.
pub fn a_second_loss_ends_a_tick_that_begins()
    ensures { (told told_then : Option Trail)
        (k counted begun : Service) (setup : SetupType) (p : Point) (to : ℕ) (two : TwoType)
        → StandsAt told k setup p → point_wear p < worn_at → CountsTick k counted → begun
        ≡ record counted { meta = meta_after_begin counted.meta (Down to) counted.meta.spins }
        → to < p.state.gear → p.state.phase ≡ Steady → p.state.out ≡ No
        → decision setup p.state.gear (state_with_tick p.state).samples ≡ DecideDown to
        → first_used_up setup (state_with_tick p.state) to ≡ None
        → ((t : Trail) → told ≡ Some t → ServiceStandsFor counted p.history p.low (now t)
        → ServiceStandsFor begun p.history p.low (now t))
        → Ran told told_then (λ s cs. LosesInEvent begun p.history p.low s cs
        × TellsTwo begun two s cs) → Ran told told_then (GoesOn k.slots setup p TickEvent
        (Halted (HaltTwo two)) (IsHaltedWith p (HaltTwo two) counted.energy)) }
{}
