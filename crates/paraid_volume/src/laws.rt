//! Laws of the definitions that the calls of volumes cite.
ghost use Rattle.std.specs.Prelude.{ℕ, ◌≡◌, ◌<◌, ◌≤◌, length};
ghost use Rattle.paraid_base.specs.History.{History};
ghost use Rattle.paraid_base.specs.Xor.{zero_block};
ghost use Rattle.paraid_volume.specs.States.{VolumeState};
ghost use Rattle.paraid_volume.specs.Lives.{Life, IsLeftByLife, VolumeStep, VolAnswer, VolCall, VolLog, create, made, read, value};
ghost use Rattle.paraid_volume.specs.Isolation.{AllLeave, IsElsewhere, IsSameVolume, VolumeRun, calls_in_log, own_calls};

/// A stop leaves the state after a first part of the calls, with each call before a flush that it
/// left.
pub fn a_stop_leaves_a_first_part_of_the_calls()
    ensures { (count start : ℕ) (h : History) (s : VolumeState) (log : VolLog)
        → Life count start h s log
        → (k : ℕ) → start ≤ k → k ≤ length h → IsLeftByLife count start h k log }
{}

/// Calls on other volumes leave a volume: its name, its size and its blocks.
pub fn calls_on_other_volumes_leave_a_volume()
    ensures { (count id : ℕ) (s t : VolumeState) (call : VolCall) (answer : VolAnswer)
        → VolumeStep count s call answer t → IsElsewhere id call answer → IsSameVolume id s t }
{}

/// A volume answers by its own calls: where two runs begin with it the same, neither makes nor
/// removes it, and its own reads and writes are the same calls, their answers are the same,
/// whatever calls on other volumes come between.
pub fn a_volume_answers_by_its_own_calls()
    ensures { (count id : ℕ) (s t s_end t_end : VolumeState) (one other : VolLog)
        → IsSameVolume id s t
        → VolumeRun count s one s_end → VolumeRun count t other t_end → AllLeave id one
        → AllLeave id other → calls_in_log (own_calls id one) ≡ calls_in_log (own_calls id other)
        → own_calls id one ≡ own_calls id other }
{}

/// Each block of a volume that was made reads as zeros.
pub fn a_created_volume_reads_zeros()
    ensures { (count id v extents : ℕ) (text : ℕ → ℕ) (s t m : VolumeState) (answer : VolAnswer)
        → VolumeStep count s (create text extents) (made id) t → v < t.size id
        → VolumeStep count t (read id v) answer m → answer ≡ value zero_block }
{}
