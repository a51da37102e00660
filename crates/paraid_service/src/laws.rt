//! Laws of the definitions that a session of volumes cites.
ghost use Rattle.std.specs.Prelude.{◌≡◌, ℕ, ◌≤◌, List, None, length};
ghost use Rattle.paraid_base.specs.declared.event.Answer.TheVariants.{Flushed};
ghost use Rattle.paraid_base.specs.declared.event.Event.TheVariants.{Flush};
ghost use Rattle.paraid_base.specs.History.{History};
ghost use Rattle.paraid_device.specs.Devices.{answers_in};
ghost use Rattle.paraid_record.specs.declared.meta.Setup.{Setup};
ghost use Rattle.paraid_serve.specs.Stretch.{Turn, TurnsLead};
ghost use Rattle.paraid_session.specs.Turn.{Point};
ghost use Rattle.paraid_volume.specs.Lives.{VolLog};
ghost use Rattle.paraid_service.specs.VolumeSessions.{HasEvent, LeavesFlushed, LeavesVolumes};

/// A stop that leaves at least the writes that each stop keeps leaves the volumes after a first
/// part of the calls, with each call before the last flush that was told.
pub fn a_stop_leaves_each_call_before_a_flush()
    ensures { (count start low : ℕ) (written : History) (log : VolLog)
        → LeavesVolumes count start low written log → (k : ℕ)
        → start ≤ k → low ≤ k → k ≤ length written → LeavesFlushed count start written k log }
{}

/// After a flush that was answered with a number each stop keeps so many writes, at each later
/// point of a session that has not halted there.
pub fn a_flush_is_kept_at_each_later_point()
    ensures { (slots : ℕ) (setup : Setup) (p q : Point) (turns : List Turn)
        → TurnsLead slots setup p turns q → q.halt ≡ None
        → (number : ℕ) → HasEvent (answers_in turns) (Flush, Flushed number) → number ≤ q.low }
{}
