//! A check of an array: all writes are kept, and then what is false is counted.
ghost use Rattle.std.specs.Prelude.{◌≡◌, ◌≢◌, ◌<◌, [], length, None, Some, OnOk, IfErr, IfOk, IsSome};
ghost use Rattle.paraid_base.specs.declared.event.Answer.TheVariants.{Flushed, Halted};
ghost use Rattle.paraid_base.specs.declared.event.Event.TheVariants.{Flush as FlushEvent};
ghost use Rattle.paraid_base.specs.Log.{worn_at};
ghost use Rattle.paraid_core.specs.Cores.{batch_of, meta_of};
ghost use Rattle.paraid_rack.specs.Told.{Extends, Ran};
ghost use Rattle.paraid_recover.specs.Calls.{OnlyReads};
ghost use Rattle.paraid_scrub.specs.Counts.{AreWithinMembers, answer_to_check, no_faults};
ghost use Rattle.paraid_serve.specs.Causes.{HasCause};
ghost use Rattle.paraid_session.specs.Turn.{GoesOn, Point};

use crate::Array;
use crate::counting::commit_and_count;
use crate::ended::HaltedAt;
use paraid_base::Halt;
use paraid_rack::Rack;
use paraid_scrub::{CheckReport, check};

impl<R: Rack> Array<R> {
    ghost use Rattle.paraid_array.specs.Checked.{CountsCommitted, CountsDisks};
    ghost use Rattle.paraid_array.specs.Arrays.{AnswersEvent, ArrayStandsAt, core_of_array, end_of_array, halt_of_array, setup_of_array, shown_of_array, slots_of_array, told_of_array};

    // Commits all that is staged, and counts what is false.
    fn commit_and_check(&mut self) -> Result<CheckReport, Halt>
        requires going { end_of_array self.old ≡ None }
        requires some { batch_of (core_of_array self.old) ≢ [] }
        requires epoch { (meta_of (core_of_array self.old)).epoch < worn_at }
        requires writes { (meta_of (core_of_array self.old)).writes < worn_at }
        ensures answers { AnswersEvent R.slot_count R.slot R.told self.old self.new FlushEvent
            (answer_to_check (meta_of (core_of_array self.old)).writes result) }
        ensures sound { IfOk result (λ report. IsSome (told_of_array R.told self.new) → (p : Point)
            → ArrayStandsAt R.slot_count R.told self.old p → report ≡ no_faults) }
        ensures counts { IfOk result
            (CountsCommitted R.slot R.told (core_of_array self.old) (core_of_array self.new)) }
    {
        let gear = self.core.meta().gear;
        match commit_and_count(&mut self.core) {
            Ok(report) => Ok(report),
            Err(two) => {
                let halt = Halt::Two(two);
                self.ended = Some(HaltedAt { halt, gear });
                Err(halt)
            }
        }
    }

    // Counts what is false where nothing is staged.
    fn check_kept(&mut self) -> Result<CheckReport, Halt>
        requires going { end_of_array self.old ≡ None }
        requires epoch { (meta_of (core_of_array self.old)).epoch < worn_at }
        requires writes { (meta_of (core_of_array self.old)).writes < worn_at }
        requires nothing { batch_of (core_of_array self.old) ≡ [] }
        ensures answers { AnswersEvent R.slot_count R.slot R.told self.old self.new FlushEvent
            (answer_to_check (meta_of (core_of_array self.old)).writes result) }
        ensures sound { IfOk result (λ report. IsSome (told_of_array R.told self.new) → (p : Point)
            → ArrayStandsAt R.slot_count R.told self.old p → report ≡ no_faults) }
        ensures counts { IfOk result
            (CountsDisks R.slot R.told (core_of_array self.old) (core_of_array self.new)) }
        ensures most { IfOk result (AreWithinMembers (meta_of (core_of_array self.old))) }
        ensures reads { OnlyReads (told_of_array R.told self.old) (told_of_array R.told self.new) }
    {
        let gear = self.core.meta().gear;
        match check(&mut self.core) {
            Ok(checked) => Ok(checked.report),
            Err(two) => {
                let halt = Halt::Two(two);
                self.ended = Some(HaltedAt { halt, gear });
                Err(halt)
            }
        }
    }

    // Checks an array that takes more commits.
    fn check_there(&mut self) -> Result<CheckReport, Halt>
        requires going { end_of_array self.old ≡ None }
        requires epoch { (meta_of (core_of_array self.old)).epoch < worn_at }
        requires writes { (meta_of (core_of_array self.old)).writes < worn_at }
        ensures answers { AnswersEvent R.slot_count R.slot R.told self.old self.new FlushEvent
            (answer_to_check (meta_of (core_of_array self.old)).writes result) }
        ensures sound { IfOk result (λ report. IsSome (told_of_array R.told self.new) → (p : Point)
            → ArrayStandsAt R.slot_count R.told self.old p → report ≡ no_faults) }
        ensures counts { IfOk result
            (CountsDisks R.slot R.told (core_of_array self.old) (core_of_array self.new)) }
        ensures committed { IfOk result (λ report. batch_of (core_of_array self.old) ≢ []
            → CountsCommitted R.slot R.told
            (core_of_array self.old) (core_of_array self.new) report) }
        ensures most { IfOk result (λ report. batch_of (core_of_array self.old) ≡ []
            → AreWithinMembers (meta_of (core_of_array self.old)) report) }
        ensures reads { batch_of (core_of_array self.old) ≡ []
            → OnlyReads (told_of_array R.told self.old) (told_of_array R.told self.new) }
    {
        if self.is_kept() {
            return self.check_kept();
        }
        self.commit_and_check()
    }

    /// Keeps all writes that were accepted, and then counts what is false on the disks. In a
    /// session it is one flush.
    ///
    /// A disk that is lost ends the count. Then the counts are those of a first part, which may be
    /// empty.
    pub fn check(&mut self) -> Result<CheckReport, Halt>
        requires going { halt_of_array self.old ≡ None }
        ensures turn { OnOk result ((p : Point) → ArrayStandsAt R.slot_count R.told self.old p
            → Ran (told_of_array R.told self.old) (told_of_array R.told self.new)
            (GoesOn (slots_of_array self.old) (setup_of_array self.old) p FlushEvent
            (Flushed (length p.history)) (ArrayStandsAt R.slot_count R.told self.new))) }
        ensures ended { IfErr result (λ halt. (p : Point)
            → ArrayStandsAt R.slot_count R.told self.old p
            → Ran (told_of_array R.told self.old) (told_of_array R.told self.new)
            (GoesOn (slots_of_array self.old) (setup_of_array self.old) p FlushEvent
            (Halted halt) (ArrayStandsAt R.slot_count R.told self.new))) }
        ensures told { Extends (told_of_array R.told self.old) (told_of_array R.told self.new) }
        ensures slots { slots_of_array self.new ≡ slots_of_array self.old }
        // Over every rack it is a flush with its cause.
        ensures cause { HasCause (shown_of_array R.slot self.old) FlushEvent (answer_to_check
            (meta_of (core_of_array self.old)).writes result) (shown_of_array R.slot self.new) }
        // An array that stands at a point of a session has nothing false.
        ensures sound { IfOk result (λ report. IsSome (told_of_array R.told self.new) → (p : Point)
            → ArrayStandsAt R.slot_count R.told self.old p → report ≡ no_faults) }
        // With nothing staged the counts are those of the disks, whatever these hold.
        ensures counts { IfOk result
            (CountsDisks R.slot R.told (core_of_array self.old) (core_of_array self.new)) }
        // Over every rack no more is counted then than there is.
        ensures most { IfOk result (λ report. batch_of (core_of_array self.old) ≡ []
            → AreWithinMembers (meta_of (core_of_array self.old)) report) }
        // And the disks are only read.
        ensures reads { batch_of (core_of_array self.old) ≡ []
            → OnlyReads (told_of_array R.told self.old) (told_of_array R.told self.new) }
        // Else they are those after its commit.
        ensures committed { IfOk result (λ report. batch_of (core_of_array self.old) ≢ []
            → CountsCommitted R.slot R.told
            (core_of_array self.old) (core_of_array self.new) report) }
    {
        if let Some(count) = self.worn() {
            let halt = self.wear_out(count);
            return Err(halt);
        }
        self.check_there()
    }
}
