//! That a shift is refused, or begins, as the machine says.
ghost use Rattle.std.specs.Prelude.{◌≡◌, ℕ, ◌∷◌, [], None};
ghost use Rattle.paraid_base.specs.declared.event.Answer.TheVariants.{Shift};
ghost use Rattle.paraid_base.specs.Gears.{next_higher, next_lower};
ghost use Rattle.paraid_image.specs.Power.{PowerState};
ghost use Rattle.paraid_machine.specs.Machine.{go_down, go_up};
ghost use Rattle.paraid_machine.specs.Moves.{begun_down, begun_up};
ghost use Rattle.paraid_record.specs.declared.meta.Setup.{Setup as SetupType};
ghost use Rattle.paraid_upkeep.specs.declared.fault.ShiftFault.{ShiftFault as ShiftFaultType};
ghost use Rattle.paraid_upkeep.specs.Refusals.{IsDownRefused, IsUpRefused, MayGoDown, MayGoUp, fault_answer};

/// Where no disk is lost in it, a shift that is asked for begins or is refused as the machine says.
pub fn a_shift_is_answered_by_the_machine()
    ensures down { (setup : SetupType) (s : PowerState) (to : ℕ)
        → MayGoDown setup s to → go_down setup None s (next_lower setup.geometry s.gear)
        ≡ (Shift s.gear to, begun_down to s) ∷ [] }
    ensures down_refused { (setup : SetupType) (s : PowerState) (fault : ShiftFaultType)
        → IsDownRefused setup s fault
        → go_down setup None s (next_lower setup.geometry s.gear) ≡ (fault_answer fault, s) ∷ [] }
    ensures up { (setup : SetupType) (s : PowerState) (to : ℕ)
        → MayGoUp setup s to → go_up setup None s (next_higher setup.geometry s.gear)
        ≡ (Shift s.gear to, begun_up to s) ∷ [] }
    ensures up_refused { (setup : SetupType) (s : PowerState) (fault : ShiftFaultType)
        → IsUpRefused setup s fault
        → go_up setup None s (next_higher setup.geometry s.gear) ≡ (fault_answer fault, s) ∷ [] }
{}
