//! The machine of an array: what it answers to each event, and the state after it.
#![tactic(auto)]

ghost use Rattle.std.specs.Prelude.{ℕ, None};
ghost use Rattle.paraid_record.specs.declared.meta.Setup.{Setup as SetupType};
ghost use Rattle.paraid_base.specs.History.{History};
ghost use Rattle.paraid_base.specs.declared.event.Answer.TheVariants.{Bad as IsBad};
ghost use Rattle.paraid_base.specs.declared.event.Event.TheVariants.{Bad as BadEvent};
ghost use Rattle.paraid_image.specs.Power.{PowerState};
ghost use Rattle.paraid_machine.specs.Machine.{IsEventStep};

/// A line that is no event changes nothing.
#[tactic(auto, unfolding(crate::specs::Machine::outcomes))]
pub fn bad_changes_nothing()
    ensures { (setup : SetupType) (h : History) (used : ℕ) (s : PowerState)
        → IsEventStep setup h used s BadEvent None IsBad s }
{}
