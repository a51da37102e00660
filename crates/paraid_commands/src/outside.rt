//! What the commands need of an array: how it is made of a rack, checked, and made a rack again.
ghost use Rattle.std.specs.Prelude.{◌≡◌, ℕ, length, None, IfErr, IfOk, IsSome, OnOk};
ghost use Rattle.paraid_base.specs.declared.event.Answer.TheVariants.{Flushed, Halted};
ghost use Rattle.paraid_base.specs.declared.event.Event.TheVariants.{Flush as FlushEvent};
ghost use Rattle.paraid_rack.specs.Told.{Extends, Ran};
ghost use Rattle.paraid_recover.specs.Calls.{OnlyReads};
ghost use Rattle.paraid_scrub.specs.Counts.{AreWithinMembers, answer_to_check, no_faults};
ghost use Rattle.paraid_serve.specs.Causes.{HasCause};
ghost use Rattle.paraid_session.specs.Faults.{HaveNotFallen};
ghost use Rattle.paraid_session.specs.Mount.{IsMountedFromEach};
ghost use Rattle.paraid_session.specs.Turn.{GoesOn, Point};
ghost use Rattle.paraid_commands.specs.Showing.{BeganAt, IsServedBy};
ghost use Rattle.paraid_commands.specs.Ends.{CountsArray, HandsBack, ServedArray, shown_served};
ghost use Rattle.paraid_commands.specs.Racks.{rack_use};

use paraid_base::Halt;
use paraid_rack::Rack;
use paraid_recover::MountRefused;
use paraid_scrub::CheckReport;
use paraid_serve::Serves;

/// How a call of the program ended: the status, and the rack with its list of calls extended.
pub struct ProgramEnd<R> {
    pub status: u8,
    pub rack: R,
}

/// What makes an array of a rack, counts what is false in it, and makes a rack of it again.
pub trait Outside<R: Rack, A: Serves> {
    /// What an array serves, and that nothing is staged.
    ghost served: { A → ServedArray };

    ghost nothing: { A → Type 0 };

    fn mount(&self, rack: R) -> Result<A, MountRefused<R>>
        ensures going { IfOk result (λ a. A.halted a ≡ None) }
        ensures slots { IfOk result (λ a. A.slots a ≡ R.slot_count rack) }
        ensures grows { IfOk result (λ a. Extends (R.told rack) (A.told a)) }
        // No count of faults falls in a mount.
        ensures later { IfOk result (λ a. HaveNotFallen (R.slot rack) (A.slot a)) }
        ensures refused_slots { IfErr result (λ r. R.slot_count r.rack ≡ R.slot_count rack) }
        ensures refused { IfErr result (λ r.
            HandsBack (rack_use R.slot_count R.slot R.told rack r.rack) r.fault) }
        ensures mounted { IfOk result (λ a. (began : ℕ) → BeganAt (R.told rack) began
            → IsMountedFromEach (A.slots a) (A.setup a) began (A.told a) (A.stands a)) }
        // Held or not, it serves what stood on the disks, and nothing is staged.
        ensures served { IfOk result (λ a. IsServedBy (record {
          slots = R.slot_count rack;
          old = R.slot rack;
          new = (served a).slot;
          before = R.told rack;
          after = A.told a;
        }) (served a).meta (served a).dirty) }
        ensures setup { IfOk result (λ a. A.setup a ≡ (served a).meta.setup) }
        ensures shown { IfOk result (λ a. A.shown a ≡ shown_served (served a)) }
        ensures nothing { IfOk result nothing };

    /// Keeps all writes, and counts what is false. It is one flush of a session.
    fn check(&self, array: &mut A) -> Result<CheckReport, Halt>
        requires going { A.halted array.old ≡ None }
        ensures turn { OnOk result ((p : Point) → A.stands array.old p
            → Ran (A.told array.old) (A.told array.new) (GoesOn (A.slots array.old)
            (A.setup array.old) p FlushEvent (Flushed (length p.history)) (A.stands array.new))) }
        ensures ended { IfErr result (λ halt. (p : Point) → A.stands array.old p
            → Ran (A.told array.old) (A.told array.new) (GoesOn (A.slots array.old)
            (A.setup array.old) p FlushEvent (Halted halt) (A.stands array.new))) }
        ensures told { Extends (A.told array.old) (A.told array.new) }
        ensures slots { A.slots array.new ≡ A.slots array.old }
        // Over every rack it is a flush with its cause.
        ensures cause { HasCause (A.shown array.old) FlushEvent
            (answer_to_check (A.shown array.old).meta.writes result) (A.shown array.new) }
        // From where it stood there is nothing to count.
        ensures sound { IfOk result (λ report. IsSome (A.told array.new) → (p : Point)
            → A.stands array.old p → report ≡ no_faults) }
        // With nothing staged no more is counted than there is, over every rack.
        ensures most { IfOk result (λ report. nothing array.old
            → AreWithinMembers (A.shown array.old).meta report) }
        // Wherever it stood, with nothing staged the disks are only read,
        ensures reads { nothing array.old → OnlyReads (A.told array.old) (A.told array.new) }
        // and the counts are those of its disks.
        ensures counts { IfOk result (λ report. nothing array.old
            → CountsArray (served array.old) (A.slot array.new) (A.told array.old)
            (A.told array.new) report) };

    /// Makes no call; what is staged is dropped.
    fn unmount(&self, array: A) -> R
        ensures told { R.told result ≡ A.told array }
        ensures slot { R.slot result ≡ A.slot array }
        // Also after a halt it has as many slots as the one that was mounted.
        ensures slots { R.slot_count result ≡ A.slots array };
}
