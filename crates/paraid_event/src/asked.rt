//! That a shift which is asked for begins, by the parts of its event.
ghost use Rattle.std.specs.Prelude.{◌≡◌, ℕ, ◌+◌, ◌<◌, ◌≤◌, ◌⊎◌, min, None, Option, Some};
ghost use Rattle.paraid_base.specs.declared.event.Answer.TheVariants.{Halted, Out as IsOut, Shift};
ghost use Rattle.paraid_base.specs.declared.event.Event.TheVariants.{Down as AskDown, Up as AskUp};
ghost use Rattle.paraid_base.specs.declared.fault.Halt.TheVariants.{Two as HaltTwo};
ghost use Rattle.paraid_base.specs.declared.fault.Two.{Two as TwoType};
ghost use Rattle.paraid_base.specs.declared.state.Out.TheVariants.{No};
ghost use Rattle.paraid_base.specs.declared.state.Phase.TheVariants.{Steady};
ghost use Rattle.paraid_base.specs.Gears.{next_higher, next_lower};
ghost use Rattle.paraid_base.specs.Log.{worn_at};
ghost use Rattle.paraid_base.specs.States.{named_out};
ghost use Rattle.paraid_rack.specs.Told.{Ran};
ghost use Rattle.paraid_rack.specs.Trail.{Trail};
ghost use Rattle.paraid_record.specs.declared.meta.Setup.{Setup as SetupType};
ghost use Rattle.paraid_core.specs.CoreInvariant.{AreCopiesSynced};
ghost use Rattle.paraid_machine.specs.Energy.{spin_up_energy};
ghost use Rattle.paraid_machine.specs.Moves.{begun_down, begun_up, first_used_up};
ghost use Rattle.paraid_session.specs.Turn.{GoesOn, Point, point_wear, event_room};
ghost use Rattle.paraid_event.specs.Moving.{GoesToState};
ghost use Rattle.paraid_event.specs.Service.{Service};
ghost use Rattle.paraid_event.specs.Stands.{StandsAt};
ghost use Rattle.paraid_event.specs.Steps.{LosesInSteps, StepsInEvent};
ghost use Rattle.paraid_event.specs.Ticks.{IsHaltedWith};
ghost use Rattle.paraid_base.specs.Told.{counter_most};

/// A shift that is asked for, and that nothing refuses, begins by the parts of its event, whether a
/// disk is lost in the later ones or not. A second loss in them ends the service.
pub fn an_asked_shift_begins_in_steps()
    ensures up { (told told_then : Option Trail)
        (k k_then : Service) (setup : SetupType) (p : Point) (to most : ℕ)
        → StandsAt told k setup p → point_wear p < worn_at → p.state.phase ≡ Steady
        → p.state.out ≡ No → next_higher setup.geometry p.state.gear ≡ Some to
        → AreCopiesSynced k_then.meta.setup.geometry.disks k_then.copied
        → GoesToState k_then (begun_up to p.state)
        → k_then.energy ≡ min (k.energy + spin_up_energy setup p.state.gear to) counter_most
        → most ≤ event_room
        → Ran told told_then (StepsInEvent k k_then p.history p.low most) → Ran told told_then
        (GoesOn k.slots setup p AskUp (Shift p.state.gear to) (StandsAt told_then k_then setup)) }
    ensures down { (told told_then : Option Trail)
        (k k_then : Service) (setup : SetupType) (p : Point) (to most : ℕ)
        → StandsAt told k setup p → point_wear p < worn_at → p.state.phase ≡ Steady
        → p.state.out ≡ No → next_lower setup.geometry p.state.gear ≡ Some to
        → to < p.state.gear → first_used_up setup p.state to ≡ None
        → AreCopiesSynced k_then.meta.setup.geometry.disks k_then.copied
        → GoesToState k_then (begun_down to p.state) → k_then.energy ≡ k.energy → most ≤ event_room
        → Ran told told_then (StepsInEvent k k_then p.history p.low most) → Ran told told_then
        (GoesOn k.slots setup p AskDown (Shift p.state.gear to) (StandsAt told_then k_then setup)) }
    ensures up_loses { (told told_then : Option Trail)
        (k : Service) (setup : SetupType) (p : Point) (to most used : ℕ) (two : TwoType)
        → StandsAt told k setup p → point_wear p < worn_at → p.state.phase ≡ Steady
        → p.state.out ≡ No → next_higher setup.geometry p.state.gear ≡ Some to → (used ≡ k.energy)
        ⊎ (used ≡ min (k.energy + spin_up_energy setup p.state.gear to) counter_most)
        → most ≤ event_room
        → Ran told told_then (LosesInSteps k p.history p.low most two) → Ran told told_then
        (GoesOn k.slots setup p AskUp (Halted (HaltTwo two)) (IsHaltedWith p (HaltTwo two) used)) }
    ensures down_loses { (told told_then : Option Trail) (k : Service)
        (setup : SetupType) (p : Point) (to most : ℕ) (two : TwoType) → StandsAt told k setup p
        → point_wear p < worn_at → p.state.phase ≡ Steady → p.state.out ≡ No
        → next_lower setup.geometry p.state.gear ≡ Some to → first_used_up setup p.state to ≡ None
        → most ≤ event_room → Ran told told_then (LosesInSteps k p.history p.low most two)
        → Ran told told_then (GoesOn k.slots setup p AskDown
        (Halted (HaltTwo two)) (IsHaltedWith p (HaltTwo two) k.energy)) }
{}

/// A disk that is lost with what was staged stands in the way of a shift, by the parts of its
/// event.
pub fn a_lost_disk_hinders_an_asked_shift()
    ensures up { (told told_then : Option Trail)
        (k k_then : Service) (setup : SetupType) (p : Point) (to most other : ℕ)
        → StandsAt told k setup p → point_wear p < worn_at → p.state.phase ≡ Steady
        → p.state.out ≡ No → next_higher setup.geometry p.state.gear ≡ Some to
        → AreCopiesSynced k_then.meta.setup.geometry.disks k_then.copied
        → GoesToState k_then p.state
        → named_out k_then.meta.out ≡ Some other → k_then.energy ≡ k.energy → most ≤ event_room
        → Ran told told_then (StepsInEvent k k_then p.history p.low most) → Ran told told_then
        (GoesOn k.slots setup p AskUp (IsOut other) (StandsAt told_then k_then setup)) }
    ensures down { (told told_then : Option Trail) (k k_then : Service)
        (setup : SetupType) (p : Point) (to most other : ℕ) → StandsAt told k setup p
        → point_wear p < worn_at → p.state.phase ≡ Steady → p.state.out ≡ No
        → next_lower setup.geometry p.state.gear ≡ Some to → first_used_up setup p.state to ≡ None
        → AreCopiesSynced k_then.meta.setup.geometry.disks k_then.copied
        → GoesToState k_then p.state
        → named_out k_then.meta.out ≡ Some other → k_then.energy ≡ k.energy → most ≤ event_room
        → Ran told told_then (StepsInEvent k k_then p.history p.low most) → Ran told told_then
        (GoesOn k.slots setup p AskDown (IsOut other) (StandsAt told_then k_then setup)) }
{}
