//! That the numbers of the slots are no less than the spin-ups.
ghost use Rattle.std.specs.Prelude.{◌<◌, ◌≤◌, ℕ, List, min};
ghost use Rattle.paraid_base.specs.declared.event.Event.{Event as EventType};
ghost use Rattle.paraid_record.specs.declared.meta.Setup.{Setup};
ghost use Rattle.paraid_serve.specs.Stretch.{Turn, turn_calls};
ghost use Rattle.paraid_session.specs.Turn.{Point};
ghost use Rattle.paraid_spare.specs.Pools.{slot_spin_ups};
ghost use Rattle.paraid_sparing.specs.Session.{fresh_stock};
ghost use Rattle.paraid_sparing.specs.Sparing.{AnswersTrace, Stock};
ghost use Rattle.paraid_sparing.specs.Spinning.{AreBesideOne};
ghost use Rattle.paraid_base.specs.Told.{counter_most};

/// While at most one disk is down no slot was spun up more often than the number that is told of
/// it.
pub fn slots_count_their_spin_ups()
    ensures { (slots wait left : ℕ) (setup : Setup)
        (p q : Point) (events : List EventType) (turns : List Turn) (text : List ℕ) (stock : Stock)
        → AnswersTrace slots setup wait p (fresh_stock left) events turns text q stock
        → AreBesideOne turns
        → (d : ℕ) → d < 8 → min (slot_spin_ups (turn_calls turns) d) counter_most ≤ stock.spins d }
{}
