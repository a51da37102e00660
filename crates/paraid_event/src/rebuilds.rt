//! That a tick that rebuilds a disk is an event of a session.
ghost use Rattle.std.specs.Prelude.{◌≡◌, ℕ, ◌+◌, ◌<◌, ◌≤◌, false, Option, Some};
ghost use Rattle.paraid_base.specs.declared.event.Answer.TheVariants.{Halted};
ghost use Rattle.paraid_base.specs.declared.event.Event.TheVariants.{Tick as TickEvent};
ghost use Rattle.paraid_base.specs.declared.fault.Halt.TheVariants.{Two as HaltTwo};
ghost use Rattle.paraid_base.specs.declared.fault.Two.{Two as TwoType};
ghost use Rattle.paraid_base.specs.declared.state.Out.TheVariants.{Fresh};
ghost use Rattle.paraid_base.specs.declared.state.TickEvent.TheVariants.{Gone as GoneAgain, Moving};
ghost use Rattle.paraid_base.specs.Log.{worn_at};
ghost use Rattle.paraid_rack.specs.Disks.{is_present};
ghost use Rattle.paraid_rack.specs.Told.{Ran};
ghost use Rattle.paraid_rack.specs.Trail.{Trail, now};
ghost use Rattle.paraid_record.specs.declared.meta.Setup.{Setup as SetupType};
ghost use Rattle.paraid_machine.specs.Machine.{report};
ghost use Rattle.paraid_machine.specs.Moves.{state_with_tick, units_to_rebuild};
ghost use Rattle.paraid_session.specs.Turn.{GoesOn, Point, point_wear, event_room};
ghost use Rattle.paraid_event.specs.RebuildTicks.{CountsRebuild, MarksGoneAgain, MarksRebuilt};
ghost use Rattle.paraid_event.specs.Service.{Service};
ghost use Rattle.paraid_event.specs.Stands.{StandsAt};
ghost use Rattle.paraid_event.specs.Steps.{LosesInSteps, StepsInEvent};
ghost use Rattle.paraid_event.specs.Ticks.{CountsTick, IsHaltedWith};

/// A tick moves as many units of a rebuild as it may and marks them, where more are left; or the
/// disk is lost again. What is staged is committed first.
pub fn a_tick_moves_units_of_a_rebuild()
    ensures moving { (told told_then : Option Trail)
        (k counted k_then : Service) (setup : SetupType) (p : Point) (disk rebuilt most : ℕ)
        → StandsAt told k setup p → point_wear p < worn_at → p.state.out ≡ Fresh disk rebuilt
        → CountsRebuild k counted k_then → MarksRebuilt counted k_then disk (rebuilt + setup.rate)
        → setup.rate < units_to_rebuild setup (state_with_tick p.state) disk rebuilt
        → most ≤ event_room → Ran told told_then (StepsInEvent counted k_then p.history p.low most)
        → Ran told told_then (GoesOn k.slots setup p TickEvent
        (report p.state setup.rate Moving).0 (StandsAt told_then k_then setup)) }
    ensures gone { (told told_then : Option Trail) (k counted k_then : Service) (setup : SetupType)
        (p : Point) (disk rebuilt most : ℕ) → StandsAt told k setup p → point_wear p < worn_at
        → p.state.out ≡ Fresh disk rebuilt → CountsRebuild k counted k_then
        → MarksGoneAgain counted k_then disk → most ≤ event_room
        → ((t : Trail) → told_then ≡ Some t → is_present ((now t).power disk) ≡ false)
        → Ran told told_then (StepsInEvent counted k_then p.history p.low most)
        → Ran told told_then (GoesOn k.slots setup p TickEvent (report p.state 0 (GoneAgain disk)).0
        (StandsAt told_then k_then setup)) }
{}

/// A second disk that is lost in it ends the service; the tick's own energy is counted.
pub fn a_second_loss_ends_a_tick_that_rebuilds()
    ensures { (told told_then : Option Trail) (k counted : Service) (setup : SetupType) (p : Point)
        (disk rebuilt most : ℕ) (two : TwoType) → StandsAt told k setup p → point_wear p < worn_at
        → p.state.out ≡ Fresh disk rebuilt → CountsTick k counted → most ≤ event_room
        → Ran told told_then (LosesInSteps counted p.history p.low most two)
        → Ran told told_then (GoesOn k.slots setup p TickEvent (Halted (HaltTwo two))
        (IsHaltedWith p (HaltTwo two) counted.energy)) }
{}
