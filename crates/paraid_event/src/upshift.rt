//! That a shift up which begins is an event of a session.
ghost use Rattle.std.specs.Prelude.{◌≡◌, ℕ, ◌<◌, ◌≤◌, Option, Some};
ghost use Rattle.paraid_base.specs.declared.event.Answer.TheVariants.{Halted, Shift};
ghost use Rattle.paraid_base.specs.declared.event.Event.TheVariants.{Up as AskUp};
ghost use Rattle.paraid_base.specs.declared.fault.Halt.TheVariants.{Two as HaltTwo};
ghost use Rattle.paraid_base.specs.declared.fault.Two.{Two as TwoType};
ghost use Rattle.paraid_base.specs.declared.state.Out.TheVariants.{No};
ghost use Rattle.paraid_base.specs.declared.state.Phase.TheVariants.{Steady};
ghost use Rattle.paraid_base.specs.Gears.{next_higher};
ghost use Rattle.paraid_base.specs.Log.{worn_at};
ghost use Rattle.paraid_rack.specs.Told.{Ran};
ghost use Rattle.paraid_rack.specs.Trail.{Trail, now};
ghost use Rattle.paraid_record.specs.declared.meta.Setup.{Setup as SetupType};
ghost use Rattle.paraid_session.specs.Turn.{GoesOn, Point, point_wear};
ghost use Rattle.paraid_event.specs.Lost.{IsHaltedFrom, TellsTwo};
ghost use Rattle.paraid_event.specs.Parts.{LosesInEvent, ServesEvent};
ghost use Rattle.paraid_event.specs.Powering.{AreDisksPowered, PowersInEvent};
ghost use Rattle.paraid_event.specs.Service.{Service};
ghost use Rattle.paraid_event.specs.Stands.{ServiceStandsFor, StandsAt};
ghost use Rattle.paraid_event.specs.Upshift.{BeginsUp, MarksShiftUp, OpensShiftUp};

/// A shift up begins by a commit of what is staged, its mark with the spin-ups, a commit of that,
/// and the spin-ups; a disk may be lost in the last commit or among the spin-ups.
pub fn a_shift_up_begins()
    ensures { (told mid opened_told told_then : Option Trail)
        (k committed begun opened k_then : Service) (setup : SetupType) (p : Point)
        (to lo lo_opened : ℕ) → StandsAt told k setup p → point_wear p < worn_at
        → BeginsUp k committed begun opened k_then to
        → next_higher setup.geometry p.state.gear ≡ Some to
        → p.state.phase ≡ Steady → p.state.out ≡ No → p.low ≤ lo → p.low ≤ lo_opened
        → Ran told mid (ServesEvent k committed p.history p.low p.history lo)
        → ((t : Trail) → mid ≡ Some t → ServiceStandsFor committed p.history p.low (now t)
        → ServiceStandsFor begun p.history p.low (now t))
        → Ran mid opened_told (ServesEvent begun opened p.history p.low p.history lo_opened)
        → Ran opened_told told_then (PowersInEvent opened k_then p.history p.low)
        → Ran told told_then (GoesOn k.slots setup p AskUp (Shift p.state.gear to)
        (StandsAt told_then k_then setup)) }
{}

/// A second disk that is lost in the commit of the mark, or among the spin-ups, ends the service.
/// The first may be lost in that commit and the second among the spin-ups.
pub fn a_second_loss_ends_a_shift_up()
    ensures marked { (told mid told_then : Option Trail)
        (k committed begun : Service) (setup : SetupType) (p : Point) (to lo : ℕ) (two : TwoType)
        → StandsAt told k setup p → point_wear p < worn_at
        → MarksShiftUp k committed begun to → next_higher setup.geometry p.state.gear ≡ Some to
        → p.state.phase ≡ Steady → p.state.out ≡ No
        → p.low ≤ lo → Ran told mid (ServesEvent k committed p.history p.low p.history lo)
        → ((t : Trail) → mid ≡ Some t → ServiceStandsFor committed p.history p.low (now t)
        → ServiceStandsFor begun p.history p.low (now t)) → Ran mid told_then (λ s cs.
        LosesInEvent begun p.history p.low s cs × TellsTwo begun two s cs) → Ran told told_then
        (GoesOn k.slots setup p AskUp (Halted (HaltTwo two)) (IsHaltedFrom p (HaltTwo two))) }
    ensures raised { (told mid opened_told told_then : Option Trail)
        (k committed begun opened : Service) (setup : SetupType) (p : Point)
        (to lo lo_opened : ℕ) (two : TwoType) → StandsAt told k setup p
        → point_wear p < worn_at → MarksShiftUp k committed begun to → OpensShiftUp k begun opened
        → next_higher setup.geometry p.state.gear ≡ Some to
        → p.state.phase ≡ Steady → p.state.out ≡ No → p.low ≤ lo → p.low ≤ lo_opened
        → Ran told mid (ServesEvent k committed p.history p.low p.history lo)
        → ((t : Trail) → mid ≡ Some t → ServiceStandsFor committed p.history p.low (now t)
        → ServiceStandsFor begun p.history p.low (now t))
        → Ran mid opened_told (ServesEvent begun opened p.history p.low p.history lo_opened)
        → Ran opened_told told_then (λ s cs. (ServiceStandsFor opened p.history p.low s
        → AreDisksPowered opened p.history p.low s cs) × TellsTwo opened two s cs)
        → Ran told told_then (GoesOn k.slots setup p AskUp (Halted (HaltTwo two))
        (IsHaltedFrom p (HaltTwo two))) }
{}
