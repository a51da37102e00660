//! That the definitions fit together. Each law is the contract of a function that does nothing.
ghost use Rattle.std.specs.Prelude.{◌≢◌, ℕ, ◌+◌, ◌<◌, ◌≤◌, ◌++◌, List, Option, Some};
ghost use Rattle.paraid_base.specs.declared.block.Block.{Block as BlockType};
ghost use Rattle.paraid_base.specs.declared.event.Answer.{Answer as AnswerType};
ghost use Rattle.paraid_base.specs.declared.event.Answer.TheVariants.{Halted};
ghost use Rattle.paraid_base.specs.declared.event.Event.{Event as EventType};
ghost use Rattle.paraid_base.specs.declared.fault.Halt.TheVariants.{Two as HaltTwo};
ghost use Rattle.paraid_base.specs.declared.fault.Two.{Two as TwoType};
ghost use Rattle.paraid_base.specs.History.{History};
ghost use Rattle.paraid_base.specs.Log.{worn_at};
ghost use Rattle.paraid_rack.specs.declared.call.Call.{Call as CallType};
ghost use Rattle.paraid_rack.specs.Disks.{Disks, IsPresent};
ghost use Rattle.paraid_rack.specs.Trail.{run};
ghost use Rattle.paraid_record.specs.declared.meta.Meta.{Meta as MetaType};
ghost use Rattle.paraid_record.specs.declared.meta.Setup.{Setup as SetupType};
ghost use Rattle.paraid_image.specs.RunStart.{IsRunStart};
ghost use Rattle.paraid_image.specs.Formatted.{IsFormatted};
ghost use Rattle.paraid_image.specs.Looked.{IsLooked};
ghost use Rattle.paraid_image.specs.Out.{named_out};
ghost use Rattle.paraid_image.specs.Sides.{LogState};
ghost use Rattle.paraid_image.specs.Standing.{Stands};
ghost use Rattle.paraid_session.specs.Course.{AreCommitBlocks, IsCourse};
ghost use Rattle.paraid_session.specs.Mount.{IsBase, IsMounting, start_watch};
ghost use Rattle.paraid_session.specs.Turn.{IsAnswered, IsMark, LosesSecondDisk, Point, watch_of};
ghost use Rattle.paraid_session.specs.Watch.{Bounds, HoldsWhileServing, IsServing, Watch, watch_all};

/// While at most one disk was ever down, each image that is looked at, at each moment of an event
/// or of a mount, served or refused, is a start of the next run for the history of that moment and
/// the writes that were kept before it.
pub fn a_stop_leaves_a_run_start()
    ensures moment { (slots : ℕ) (h : History) (lo : ℕ) (b : Bounds) (w : Watch) (i : Disks)
        → HoldsWhileServing slots h lo b w → IsServing w.down → IsLooked w.disks i
        → (own : Option ℕ) × IsRunStart slots i h lo own }
    ensures event { (slots : ℕ) (setup : SetupType) (p q : Point)
        (event : EventType) (answer : AnswerType) (done rest : List CallType) (i : Disks)
        → IsAnswered slots setup p event answer (done ++ rest) q
        → IsServing (watch_all done (watch_of p event answer)).down → IsLooked (run p.disks done) i
        → (own : Option ℕ) × IsRunStart slots i q.history p.low own }
    ensures two { (slots : ℕ) (setup : SetupType)
        (p q : Point) (event : EventType) (two : TwoType) (done rest : List CallType) (i : Disks)
        → LosesSecondDisk slots setup p event two (done ++ rest) q
        → IsServing (watch_all done (watch_of p event (Halted (HaltTwo two)))).down
        → IsLooked (run p.disks done) i
        → (own : Option ℕ) × IsRunStart slots i p.history p.low own }
    ensures mount { (slots : ℕ) (s i : Disks) (x : ℕ) (said : LogState) (h : History) (lo : ℕ)
        (down : Option ℕ) (done rest : List CallType)
        (m : IsMounting slots s x said h lo down (done ++ rest))
        → IsServing (watch_all done (start_watch s down m.base)).down
        → IsLooked (run s done) i → (own : Option ℕ) × IsRunStart slots i h lo own }
{}

/// Between two events the disks are a run start, with the disk that is out as the one that is down.
pub fn a_mark_is_a_run_start()
    ensures { (slots : ℕ) (setup : SetupType) (p : Point) → IsMark slots setup p
        → IsRunStart slots p.disks p.history p.low (named_out p.state.out) }
{}

/// The spin-ups with which the next run begins are never below those that were made. A log disk is
/// never parked, and so never spun up.
pub fn the_next_run_counts_no_fewer_spin_ups()
    ensures { (slots : ℕ) (h : History) (lo : ℕ)
        (b : Bounds) (w : Watch) (i : Disks) (x : ℕ) (said : LogState) (base : ℕ → ℕ) (ticks d : ℕ)
        → HoldsWhileServing slots h lo b w → IsServing w.down → IsLooked w.disks i
        → Stands i x said → IsBase i x said base ticks → 2 ≤ d → d < b.setup.geometry.disks
        → IsPresent i d → named_out said.meta.out ≢ Some d → w.spun d ≤ base d }
{}

/// There are sessions: on each formatted array a mount, a write, its flush, a write in which a disk
/// is lost, a stop and the next mount meet what is asked of them.
pub fn a_course_meets_what_is_asked()
    ensures { (slots : ℕ) (s : Disks) (m : MetaType) (meta list opening closing : BlockType)
        → IsFormatted slots s m → m.epoch + 1 < worn_at
        → AreCommitBlocks m meta list opening closing → IsCourse slots s m }
{}
