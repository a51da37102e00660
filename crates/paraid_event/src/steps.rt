//! That parts of an event follow each other: copies, marks, commits, and disks that are powered.
ghost use Rattle.std.specs.Prelude.{◌≡◌, ℕ, ◌+◌, ◌≤◌, Option};
ghost use Rattle.paraid_base.specs.declared.fault.Two.{Two as TwoType};
ghost use Rattle.paraid_base.specs.History.{History};
ghost use Rattle.paraid_base.specs.States.{gone_out};
ghost use Rattle.paraid_rack.specs.Told.{Ran};
ghost use Rattle.paraid_rack.specs.Trail.{Trail};
ghost use Rattle.paraid_core.specs.Calls.{IsDataCall};
ghost use Rattle.paraid_txn.specs.Uses.{EachCall};
ghost use Rattle.paraid_event.specs.Lost.{TellsTwo};
ghost use Rattle.paraid_event.specs.Parts.{LosesInEvent};
ghost use Rattle.paraid_event.specs.Service.{Service};
ghost use Rattle.paraid_event.specs.Steps.{LosesInSteps, LosesShown, ServesShown, StepsInEvent};

/// A call of a core that ends is a part of an event with at most one commit; one that writes no
/// block of the log is a part with none. One in which a second disk is lost is so too.
pub fn one_part_is_a_step()
    ensures commit { (told told_then : Option Trail)
        (k k_then : Service) (h : History) (lo lo_then : ℕ) → lo ≤ lo_then
        → k_then.slots ≡ k.slots → Ran told told_then (ServesShown k k_then h lo lo_then)
        → Ran told told_then (StepsInEvent k k_then h lo 1) }
    ensures between { (told told_then : Option Trail)
        (k k_then : Service) (h : History) (lo lo_then : ℕ) → lo ≤ lo_then → k_then.slots ≡ k.slots
        → Ran told told_then (ServesShown k k_then h lo lo_then) → Ran told told_then
        (EachCall (IsDataCall k.meta.setup.geometry.disks (gone_out k.meta.out)))
        → Ran told told_then (StepsInEvent k k_then h lo 0) }
    ensures loses { (told told_then : Option Trail) (k : Service) (h : History) (lo : ℕ)
        (two : TwoType)
        → Ran told told_then (λ s cs. LosesInEvent k h lo s cs × TellsTwo k two s cs)
        → Ran told told_then (LosesInSteps k h lo 1 two) }
    ensures loses_shown { (told told_then : Option Trail) (k : Service) (h : History) (lo : ℕ)
        (two : TwoType) → Ran told told_then (λ s cs. LosesShown k h lo s cs × TellsTwo k two s cs)
        → Ran told told_then (LosesInSteps k h lo 1 two) }
{}

/// Parts that follow each other are one, with the commits of both; so they are where a second disk
/// is lost in the later one.
pub fn steps_follow_each_other()
    ensures none { (told : Option Trail) (k : Service) (h : History) (lo : ℕ)
        → Ran told told (StepsInEvent k k h lo 0) }
    ensures both { (told mid told_then : Option Trail) (k j k_then : Service)
        (h : History) (lo most more : ℕ) → Ran told mid (StepsInEvent k j h lo most)
        → Ran mid told_then (StepsInEvent j k_then h lo more)
        → Ran told told_then (StepsInEvent k k_then h lo (most + more)) }
    ensures loses { (told mid told_then : Option Trail) (k j : Service)
        (h : History) (lo most more : ℕ) (two : TwoType) → Ran told mid (StepsInEvent k j h lo most)
        → Ran mid told_then (LosesInSteps j h lo more two)
        → Ran told told_then (LosesInSteps k h lo (most + more) two) }
    ensures within { (told told_then : Option Trail) (k k_then : Service) (h : History)
        (lo most bound : ℕ) → most ≤ bound → Ran told told_then (StepsInEvent k k_then h lo most)
        → Ran told told_then (StepsInEvent k k_then h lo bound) }
    ensures loses_within { (told told_then : Option Trail)
        (k : Service) (h : History) (lo most bound : ℕ) (two : TwoType)
        → most ≤ bound → Ran told told_then (LosesInSteps k h lo most two)
        → Ran told told_then (LosesInSteps k h lo bound two) }
{}
