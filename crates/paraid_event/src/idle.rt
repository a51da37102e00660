//! That a tick with nothing to do makes no call, and that after a halt there are no other answers.
ghost use Rattle.std.specs.Prelude.{◌≡◌, ◌≢◌, ℕ, ◌<◌, Option, Some};
ghost use Rattle.paraid_base.specs.declared.event.Answer.TheVariants.{Bad as IsBad, Halted};
ghost use Rattle.paraid_base.specs.declared.event.Event.{Event as EventType};
ghost use Rattle.paraid_base.specs.declared.event.Event.TheVariants.{Bad as BadEvent, Tick as TickEvent};
ghost use Rattle.paraid_base.specs.declared.fault.Halt.{Halt as HaltType};
ghost use Rattle.paraid_base.specs.declared.state.Out.TheVariants.{Gone, No};
ghost use Rattle.paraid_base.specs.declared.state.Phase.TheVariants.{Steady as PhaseSteady};
ghost use Rattle.paraid_base.specs.declared.state.TickEvent.TheVariants.{Ration, Steady, Waiting};
ghost use Rattle.paraid_base.specs.Log.{worn_at};
ghost use Rattle.paraid_gear.specs.declared.decision.Decision.TheVariants.{Down as DecideDown, Stay};
ghost use Rattle.paraid_gear.specs.Decision.{decision};
ghost use Rattle.paraid_rack.specs.Told.{Ran};
ghost use Rattle.paraid_rack.specs.Trail.{Trail};
ghost use Rattle.paraid_record.specs.declared.meta.Setup.{Setup as SetupType};
ghost use Rattle.paraid_machine.specs.Machine.{report};
ghost use Rattle.paraid_machine.specs.Moves.{first_used_up, state_with_tick};
ghost use Rattle.paraid_session.specs.Turn.{GoesOn, Point, point_wear};
ghost use Rattle.paraid_event.specs.Service.{Service};
ghost use Rattle.paraid_event.specs.Stands.{StandsAt};
ghost use Rattle.paraid_event.specs.Ticks.{CountsTick};

/// A tick counts itself and does nothing more where the samples ask for no other gear, where a disk
/// is gone, and where a shift down is asked for and the spin-ups of a disk are used up.
pub fn a_tick_has_nothing_to_do()
    ensures steady { (told : Option Trail) (k k_then : Service) (setup : SetupType) (p : Point)
        → StandsAt told k setup p → point_wear p < worn_at → CountsTick k k_then
        → p.state.out ≡ No → p.state.phase ≡ PhaseSteady
        → decision setup p.state.gear (state_with_tick p.state).samples ≡ Stay
        → Ran told told (GoesOn k.slots setup p TickEvent (report p.state 0 Steady).0
        (StandsAt told k_then setup)) }
    ensures waiting { (told : Option Trail) (k k_then : Service) (setup : SetupType) (p : Point)
        (disk : ℕ) → StandsAt told k setup p → point_wear p < worn_at → CountsTick k k_then
        → p.state.out ≡ Gone disk
        → Ran told told (GoesOn k.slots setup p TickEvent (report p.state 0 Waiting).0
        (StandsAt told k_then setup)) }
    ensures ration { (told : Option Trail) (k k_then : Service) (setup : SetupType) (p : Point)
        (to disk : ℕ) → StandsAt told k setup p → point_wear p < worn_at → CountsTick k k_then
        → p.state.out ≡ No → p.state.phase ≡ PhaseSteady
        → decision setup p.state.gear (state_with_tick p.state).samples ≡ DecideDown to
        → first_used_up setup (state_with_tick p.state) to ≡ Some disk
        → Ran told told (GoesOn k.slots setup p TickEvent (report p.state 0 (Ration disk)).0
        (StandsAt told k_then setup)) }
{}

/// After a halt each event has the same answer, but for a line that is no event, which has its own
/// as before it. Nothing changes.
pub fn a_halt_is_the_last_answer()
    ensures again { (told : Option Trail) (slots : ℕ) (setup : SetupType) (p : Point)
        (event : EventType) (halt : HaltType) → p.halt ≡ Some halt → event ≢ BadEvent
        → Ran told told (GoesOn slots setup p event (Halted halt) (λ q. q ≡ p)) }
    ensures bad { (told : Option Trail) (slots : ℕ) (setup : SetupType) (p : Point)
        → Ran told told (GoesOn slots setup p BadEvent IsBad (λ q. q ≡ p)) }
{}
