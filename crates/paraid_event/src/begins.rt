//! That a shift down which begins is an event of a session.
ghost use Rattle.std.specs.Prelude.{◌≡◌, ℕ, ◌<◌, ◌≤◌, None, Option, Some};
ghost use Rattle.paraid_base.specs.declared.event.Answer.TheVariants.{Halted, Shift};
ghost use Rattle.paraid_base.specs.declared.event.Event.TheVariants.{Down as AskDown, Up as AskUp};
ghost use Rattle.paraid_base.specs.declared.fault.Halt.TheVariants.{Two as HaltTwo};
ghost use Rattle.paraid_base.specs.declared.fault.Two.{Two as TwoType};
ghost use Rattle.paraid_base.specs.declared.state.Out.TheVariants.{No};
ghost use Rattle.paraid_base.specs.declared.state.Phase.TheVariants.{Steady};
ghost use Rattle.paraid_base.specs.Gears.{next_higher, next_lower};
ghost use Rattle.paraid_base.specs.Log.{worn_at};
ghost use Rattle.paraid_rack.specs.Told.{Ran};
ghost use Rattle.paraid_rack.specs.Trail.{Trail, now};
ghost use Rattle.paraid_record.specs.declared.meta.Setup.{Setup as SetupType};
ghost use Rattle.paraid_machine.specs.Moves.{first_used_up};
ghost use Rattle.paraid_session.specs.Turn.{GoesOn, Point, point_wear};
ghost use Rattle.paraid_event.specs.Begins.{BeginsDown, MarksShiftDown};
ghost use Rattle.paraid_event.specs.Lost.{IsHaltedFrom, TellsTwo};
ghost use Rattle.paraid_event.specs.Parts.{LosesInEvent, ServesEvent};
ghost use Rattle.paraid_event.specs.Service.{Service};
ghost use Rattle.paraid_event.specs.Stands.{ServiceStandsFor, StandsAt};

/// A shift down begins by a commit of what is staged, its mark, and a commit of that, in which a
/// disk may be lost.
pub fn a_shift_down_begins()
    ensures { (told mid told_then : Option Trail) (k committed begun k_then : Service)
        (setup : SetupType) (p : Point) (to lo lo_then : ℕ) → StandsAt told k setup p
        → point_wear p < worn_at → BeginsDown k committed begun k_then to
        → next_lower setup.geometry p.state.gear ≡ Some to → to < p.state.gear
        → p.state.phase ≡ Steady → p.state.out ≡ No → first_used_up setup p.state to ≡ None
        → p.low ≤ lo → p.low ≤ lo_then
        → Ran told mid (ServesEvent k committed p.history p.low p.history lo)
        → ((t : Trail) → mid ≡ Some t → ServiceStandsFor committed p.history p.low (now t)
        → ServiceStandsFor begun p.history p.low (now t))
        → Ran mid told_then (ServesEvent begun k_then p.history p.low p.history lo_then)
        → Ran told told_then (GoesOn k.slots setup p AskDown (Shift p.state.gear to)
        (StandsAt told_then k_then setup)) }
{}

/// A second disk that is lost as a shift begins ends the service: with what was staged, or with the
/// mark.
pub fn a_second_loss_ends_a_shift()
    ensures up { (told told_then : Option Trail) (k : Service)
        (setup : SetupType) (p : Point) (to : ℕ) (two : TwoType) → StandsAt told k setup p
        → point_wear p < worn_at → next_higher setup.geometry p.state.gear ≡ Some to
        → p.state.phase ≡ Steady → p.state.out ≡ No
        → Ran told told_then (λ s cs. LosesInEvent k p.history p.low s cs × TellsTwo k two s cs)
        → Ran told told_then
        (GoesOn k.slots setup p AskUp (Halted (HaltTwo two)) (IsHaltedFrom p (HaltTwo two))) }
    ensures down { (told told_then : Option Trail) (k : Service)
        (setup : SetupType) (p : Point) (to : ℕ) (two : TwoType) → StandsAt told k setup p
        → point_wear p < worn_at → next_lower setup.geometry p.state.gear ≡ Some to
        → p.state.phase ≡ Steady → p.state.out ≡ No → first_used_up setup p.state to ≡ None
        → Ran told told_then (λ s cs. LosesInEvent k p.history p.low s cs × TellsTwo k two s cs)
        → Ran told told_then
        (GoesOn k.slots setup p AskDown (Halted (HaltTwo two)) (IsHaltedFrom p (HaltTwo two))) }
    ensures down_marked { (told mid told_then : Option Trail)
        (k committed begun : Service) (setup : SetupType) (p : Point) (to lo : ℕ) (two : TwoType)
        → StandsAt told k setup p → point_wear p < worn_at
        → MarksShiftDown k committed begun to → next_lower setup.geometry p.state.gear ≡ Some to
        → p.state.phase ≡ Steady → p.state.out ≡ No → first_used_up setup p.state to ≡ None
        → p.low ≤ lo → Ran told mid (ServesEvent k committed p.history p.low p.history lo)
        → ((t : Trail) → mid ≡ Some t → ServiceStandsFor committed p.history p.low (now t)
        → ServiceStandsFor begun p.history p.low (now t)) → Ran mid told_then (λ s cs.
        LosesInEvent begun p.history p.low s cs × TellsTwo begun two s cs) → Ran told told_then
        (GoesOn k.slots setup p AskDown (Halted (HaltTwo two)) (IsHaltedFrom p (HaltTwo two))) }
{}
