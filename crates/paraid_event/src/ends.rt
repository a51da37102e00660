//! That the tick with which a rebuild ends is an event of a session.
ghost use Rattle.std.specs.Prelude.{◌≡◌, ℕ, ◌+◌, ◌<◌, ◌≤◌, None, Option, Some};
ghost use Rattle.paraid_base.specs.declared.event.Answer.TheVariants.{Halted};
ghost use Rattle.paraid_base.specs.declared.event.Event.TheVariants.{Tick as TickEvent};
ghost use Rattle.paraid_base.specs.declared.fault.Halt.TheVariants.{Two as HaltTwo};
ghost use Rattle.paraid_base.specs.declared.fault.Two.{Two as TwoType};
ghost use Rattle.paraid_base.specs.declared.state.Out.TheVariants.{Fresh, Gone, No};
ghost use Rattle.paraid_base.specs.declared.state.TickEvent.TheVariants.{Rebuilt};
ghost use Rattle.paraid_base.specs.History.{History};
ghost use Rattle.paraid_base.specs.Log.{worn_at};
ghost use Rattle.paraid_base.specs.States.{named_out};
ghost use Rattle.paraid_rack.specs.declared.call.Call.TheVariants.{Park};
ghost use Rattle.paraid_rack.specs.Told.{Ran};
ghost use Rattle.paraid_rack.specs.Trail.{Trail};
ghost use Rattle.paraid_record.specs.declared.meta.Setup.{Setup as SetupType};
ghost use Rattle.paraid_image.specs.Lost.{TellsLosses};
ghost use Rattle.paraid_core.specs.Calls.{IsOneCall};
ghost use Rattle.paraid_machine.specs.Machine.{report};
ghost use Rattle.paraid_machine.specs.Moves.{state_with_tick, units_to_rebuild};
ghost use Rattle.paraid_session.specs.Turn.{GoesOn, Point, point_wear, event_room};
ghost use Rattle.paraid_event.specs.RebuildEnds.{FinishesRebuild, LosesFinishing, MarksRejoined, ParksBack};
ghost use Rattle.paraid_event.specs.RebuildTicks.{CountsRebuild};
ghost use Rattle.paraid_event.specs.Service.{Service};
ghost use Rattle.paraid_event.specs.Stands.{StandsAt};
ghost use Rattle.paraid_event.specs.Steps.{StepsInEvent};
ghost use Rattle.paraid_event.specs.Ticks.{CountsTick, IsHaltedWith};

/// A tick that moves the last units of a rebuild brings the disk back by a commit, and parks it
/// where the gear does not need it. What is staged is committed first.
pub fn a_tick_ends_a_rebuild()
    ensures back { (told before mid told_then : Option Trail)
        (k counted j back k_then : Service) (setup : SetupType) (p : Point) (disk rebuilt most : ℕ)
        → StandsAt told k setup p → point_wear p < worn_at → p.state.out ≡ Fresh disk rebuilt
        → CountsRebuild k counted k_then → MarksRejoined counted k_then
        → units_to_rebuild setup (state_with_tick p.state) disk rebuilt ≤ setup.rate
        → most + 1 ≤ event_room → Ran told before (StepsInEvent counted j p.history p.low most)
        → FinishesRebuild before mid j back p.history p.low disk
        → ParksBack mid told_then back k_then p.history p.low disk
        → Ran told told_then (GoesOn k.slots setup p TickEvent
        (report p.state (units_to_rebuild setup (state_with_tick p.state) disk rebuilt)
        (Rebuilt disk)).0 (StandsAt told_then k_then setup)) }
{}

/// A disk that is lost again as its rebuild ends is gone: as units are copied, in the commit, or in
/// the park. These are parts of an event, which goes on.
pub fn a_disk_is_lost_as_its_rebuild_ends()
    ensures finish { (told before told_then : Option Trail)
        (k j k_then : Service) (h : History) (lo most disk : ℕ) → named_out k.meta.out ≡ Some disk
        → k_then.meta.out ≡ Gone disk → Ran told before (StepsInEvent k j h lo most)
        → FinishesRebuild before told_then j k_then h lo disk
        → Ran told told_then (StepsInEvent k k_then h lo (most + 1)) }
    ensures park { (told before mid told_then : Option Trail)
        (k j back k_then : Service) (h : History) (lo most disk : ℕ)
        → named_out k.meta.out ≡ Some disk → back.meta.out ≡ No → k_then.meta.out ≡ Gone disk
        → Ran told before (StepsInEvent k j h lo most) → FinishesRebuild before mid j back h lo disk
        → ParksBack mid told_then back k_then h lo disk
        → Ran told told_then (StepsInEvent k k_then h lo (most + 1)) }
{}

/// A second disk that is lost in it, before the park, ends the service; the tick's own energy is
/// counted. In the park no second one can be lost.
pub fn a_second_loss_ends_the_last_tick_of_a_rebuild()
    ensures finish { (told before told_then : Option Trail) (k counted j : Service)
        (setup : SetupType) (p : Point) (disk rebuilt most : ℕ) (two : TwoType)
        → StandsAt told k setup p → point_wear p < worn_at → p.state.out ≡ Fresh disk rebuilt
        → CountsTick k counted
        → most + 1 ≤ event_room → Ran told before (StepsInEvent counted j p.history p.low most)
        → LosesFinishing before told_then j p.history p.low disk two
        → Ran told told_then (GoesOn k.slots setup p TickEvent
        (Halted (HaltTwo two)) (IsHaltedWith p (HaltTwo two) counted.energy)) }
    ensures park { (mid told_then : Option Trail) (disk : ℕ) (two : TwoType)
        → Ran mid told_then (IsOneCall (λ done. Park disk done))
        → Ran mid told_then (λ s cs. TellsLosses None two cs) → told_then ≡ None }
{}
