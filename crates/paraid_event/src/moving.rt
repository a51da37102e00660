//! That a tick of a shift is an event of a session: one that moves units, one that ends the shift,
//! one in which a disk is lost, and one that begins a shift up.
ghost use Rattle.std.specs.Prelude.{◌≡◌, ◌==◌, ℕ, ◌+◌, ◌<◌, ◌≤◌, ◌⊎◌, true, false, min, None, Option, Some};
ghost use Rattle.paraid_base.specs.declared.event.Answer.TheVariants.{Halted, Ticked};
ghost use Rattle.paraid_base.specs.declared.event.Event.TheVariants.{Tick as TickEvent};
ghost use Rattle.paraid_base.specs.declared.fault.Halt.TheVariants.{Two as HaltTwo};
ghost use Rattle.paraid_base.specs.declared.fault.Two.{Two as TwoType};
ghost use Rattle.paraid_base.specs.declared.state.Out.TheVariants.{No};
ghost use Rattle.paraid_base.specs.declared.state.Phase.TheVariants.{Steady};
ghost use Rattle.paraid_base.specs.declared.state.TickEvent.TheVariants.{Begun, Flipped, Lost, Moving};
ghost use Rattle.paraid_base.specs.Log.{worn_at};
ghost use Rattle.paraid_base.specs.States.{named_out};
ghost use Rattle.paraid_gear.specs.declared.decision.Decision.TheVariants.{Down as DecideDown, Up as DecideUp};
ghost use Rattle.paraid_gear.specs.Decision.{decision};
ghost use Rattle.paraid_rack.specs.Told.{Ran};
ghost use Rattle.paraid_rack.specs.Trail.{Trail};
ghost use Rattle.paraid_record.specs.declared.meta.Setup.{Setup as SetupType};
ghost use Rattle.paraid_core.specs.CoreInvariant.{AreCopiesSynced};
ghost use Rattle.paraid_machine.specs.Energy.{spin_up_energy};
ghost use Rattle.paraid_machine.specs.Moves.{begun_down, first_used_up, state_with_tick, units_left, units_of_tick};
ghost use Rattle.paraid_session.specs.Turn.{GoesOn, Point, point_wear, event_room};
ghost use Rattle.paraid_event.specs.Moving.{EndsShift, GoesToState, MovesUnits, StartsShiftUp};
ghost use Rattle.paraid_event.specs.Service.{Service};
ghost use Rattle.paraid_event.specs.Stands.{StandsAt};
ghost use Rattle.paraid_event.specs.Steps.{LosesInSteps, StepsInEvent};
ghost use Rattle.paraid_event.specs.Ticks.{CountsTick, IsHaltedWith};
ghost use Rattle.paraid_base.specs.Told.{counter_most};

/// A tick that moves the units of a shift that it has to, and more are left, is a turn; so is one
/// in which a disk is lost after some of them, and one with which the shift ends, whether a disk is
/// lost then or not.
pub fn a_tick_moves_a_shift()
    ensures moving { (told told_then : Option Trail)
        (k counted k_then : Service) (setup : SetupType) (p : Point) (most : ℕ)
        → StandsAt told k setup p → point_wear p < worn_at → CountsTick k counted
        → p.state.out ≡ No → (p.state.phase ≡ Steady → ⊥) → k_then.energy ≡ counted.energy
        → AreCopiesSynced k_then.meta.setup.geometry.disks k_then.copied
        → most ≤ event_room
        → MovesUnits counted k_then (units_of_tick setup (state_with_tick p.state))
        → k_then.meta.out ≡ No → (units_of_tick setup
        (state_with_tick p.state) == units_left setup (state_with_tick p.state)) ≡ false
        → Ran told told_then (StepsInEvent counted k_then p.history p.low most)
        → Ran told told_then (GoesOn k.slots setup p TickEvent (Ticked
        (record {
          gear = k_then.meta.gear;
          moved = units_of_tick setup (state_with_tick p.state);
          event = Moving;
        })) (StandsAt told_then k_then setup)) }
    ensures lost { (told told_then : Option Trail)
        (k counted k_then : Service) (setup : SetupType) (p : Point) (most moved disk : ℕ)
        → StandsAt told k setup p → point_wear p < worn_at → CountsTick k counted
        → p.state.out ≡ No → (p.state.phase ≡ Steady → ⊥) → k_then.energy ≡ counted.energy
        → AreCopiesSynced k_then.meta.setup.geometry.disks k_then.copied → most ≤ event_room
        → MovesUnits counted k_then moved → moved ≤ units_of_tick setup (state_with_tick p.state)
        → named_out k_then.meta.out ≡ Some disk
        → Ran told told_then (StepsInEvent counted k_then p.history p.low most)
        → Ran told told_then (GoesOn k.slots setup p TickEvent
        (Ticked (record { gear = k_then.meta.gear; moved = moved; event = Lost disk }))
        (StandsAt told_then k_then setup)) }
    ensures ended { (told told_then : Option Trail)
        (k counted k_then : Service) (setup : SetupType) (p : Point) (most : ℕ)
        → StandsAt told k setup p → point_wear p < worn_at → CountsTick k counted
        → p.state.out ≡ No → (p.state.phase ≡ Steady → ⊥) → k_then.energy ≡ counted.energy
        → AreCopiesSynced k_then.meta.setup.geometry.disks k_then.copied
        → most ≤ event_room
        → EndsShift counted k_then (units_of_tick setup (state_with_tick p.state))
        → (units_of_tick setup
        (state_with_tick p.state) == units_left setup (state_with_tick p.state)) ≡ true
        → Ran told told_then (StepsInEvent counted k_then p.history p.low most)
        → Ran told told_then (GoesOn k.slots setup p TickEvent (Ticked
        (record {
          gear = k_then.meta.gear;
          moved = units_of_tick setup (state_with_tick p.state);
          event = Flipped;
        })) (StandsAt told_then k_then setup)) }
    ensures loses { (told told_then : Option Trail) (k counted : Service) (setup : SetupType)
        (p : Point) (most : ℕ) (two : TwoType) → StandsAt told k setup p → point_wear p < worn_at
        → CountsTick k counted → p.state.out ≡ No → (p.state.phase ≡ Steady → ⊥) → most ≤ event_room
        → Ran told told_then (LosesInSteps counted p.history p.low most two)
        → Ran told told_then (GoesOn k.slots setup p TickEvent (Halted (HaltTwo two))
        (IsHaltedWith p (HaltTwo two) counted.energy)) }
{}

/// A tick that begins a shift up is a turn, whether a disk is lost then or not; and a second loss
/// in it ends the service, before the spin-ups have used their energy or after it.
pub fn a_tick_begins_a_shift_up()
    ensures begun { (told told_then : Option Trail) (k counted k_then : Service)
        (setup : SetupType) (p : Point) (most to : ℕ) → StandsAt told k setup p
        → point_wear p < worn_at → CountsTick k counted → p.state.out ≡ No → p.state.phase ≡ Steady
        → decision setup p.state.gear (state_with_tick p.state).samples ≡ DecideUp to
        → AreCopiesSynced k_then.meta.setup.geometry.disks k_then.copied
        → StartsShiftUp counted k_then to → k_then.energy
        ≡ min (counted.energy + spin_up_energy setup p.state.gear to) counter_most
        → most ≤ event_room → Ran told told_then (StepsInEvent counted k_then p.history p.low most)
        → Ran told told_then (GoesOn k.slots setup p TickEvent
        (Ticked (record { gear = k_then.meta.gear; moved = 0; event = Begun to }))
        (StandsAt told_then k_then setup)) }
    ensures loses { (told told_then : Option Trail) (k counted : Service)
        (setup : SetupType) (p : Point) (most to used : ℕ) (two : TwoType) → StandsAt told k setup p
        → point_wear p < worn_at → CountsTick k counted → p.state.out ≡ No → p.state.phase ≡ Steady
        → decision setup p.state.gear (state_with_tick p.state).samples ≡ DecideUp to
        → (used ≡ counted.energy)
        ⊎ (used ≡ min (counted.energy + spin_up_energy setup p.state.gear to) counter_most)
        → most ≤ event_room → Ran told told_then (LosesInSteps counted p.history p.low most two)
        → Ran told told_then (GoesOn k.slots setup p TickEvent
        (Halted (HaltTwo two)) (IsHaltedWith p (HaltTwo two) used)) }
{}

/// So is a tick that begins a shift down, by the parts of its event.
pub fn a_tick_begins_a_shift_down_in_steps()
    ensures begun { (told told_then : Option Trail) (k counted k_then : Service) (setup : SetupType)
        (p : Point) (most to : ℕ) → StandsAt told k setup p → point_wear p < worn_at
        → CountsTick k counted → p.state.out ≡ No → p.state.phase ≡ Steady → to < p.state.gear
        → decision setup p.state.gear (state_with_tick p.state).samples ≡ DecideDown to
        → first_used_up setup (state_with_tick p.state) to ≡ None
        → AreCopiesSynced k_then.meta.setup.geometry.disks k_then.copied
        → GoesToState k_then (begun_down to (state_with_tick p.state))
        → k_then.energy ≡ counted.energy
        → most ≤ event_room → Ran told told_then (StepsInEvent counted k_then p.history p.low most)
        → Ran told told_then (GoesOn k.slots setup p TickEvent
        (Ticked (record { gear = k_then.meta.gear; moved = 0; event = Begun to }))
        (StandsAt told_then k_then setup)) }
    ensures loses { (told told_then : Option Trail) (k counted : Service) (setup : SetupType)
        (p : Point) (most to : ℕ) (two : TwoType) → StandsAt told k setup p → point_wear p < worn_at
        → CountsTick k counted → p.state.out ≡ No → p.state.phase ≡ Steady
        → decision setup p.state.gear (state_with_tick p.state).samples ≡ DecideDown to
        → first_used_up setup (state_with_tick p.state) to ≡ None → most ≤ event_room
        → Ran told told_then (LosesInSteps counted p.history p.low most two)
        → Ran told told_then (GoesOn k.slots setup p TickEvent (Halted (HaltTwo two))
        (IsHaltedWith p (HaltTwo two) counted.energy)) }
{}
