//! A flush of an array.
ghost use Rattle.std.specs.Prelude.{◌≡◌, ◌≢◌, ◌<◌, true, [], None, Some};
ghost use Rattle.paraid_base.specs.BlockAnswers.{answer_to_flush};
ghost use Rattle.paraid_base.specs.Log.{worn_at};
ghost use Rattle.paraid_base.specs.declared.event.Event.TheVariants.{Flush as FlushEvent};
ghost use Rattle.paraid_core.specs.Cores.{batch_of, meta_of};

use crate::Array;
use crate::ended::HaltedAt;
use paraid_base::Halt;
use paraid_rack::Rack;

impl<R: Rack> Array<R> {
    ghost use Rattle.paraid_array.specs.Arrays.{AnswersEvent, core_of_array, end_of_array, halt_of_array};

    // Whether nothing is staged: then the last commit has brought all writes to the disks.
    pub(crate) fn is_kept(&self) -> bool
        ensures nothing { result ≡ true → batch_of (core_of_array self.now) ≡ [] }
        ensures kept { batch_of (core_of_array self.now) ≡ [] → result ≡ true }
    {
        self.core.staged() == 0
    }

    // Commits all that is staged.
    fn commit_all(&mut self) -> Result<u64, Halt>
        requires going { end_of_array self.old ≡ None }
        requires some { batch_of (core_of_array self.old) ≢ [] }
        requires epoch { (meta_of (core_of_array self.old)).epoch < worn_at }
        requires writes { (meta_of (core_of_array self.old)).writes < worn_at }
        ensures answers { AnswersEvent R.slot_count R.slot R.told self.old self.new FlushEvent
            (answer_to_flush result) }
    {
        let gear = self.core.meta().gear;
        let writes = self.core.meta().writes;
        match self.core.commit() {
            Ok(()) => Ok(writes),
            Err(two) => {
                let halt = Halt::Two(two);
                self.ended = Some(HaltedAt { halt, gear });
                Err(halt)
            }
        }
    }

    /// Keeps all writes that were accepted, and gives their number. Where nothing is staged it
    /// makes no call.
    pub fn flush(&mut self) -> Result<u64, Halt>
        requires going { halt_of_array self.old ≡ None }
        ensures idle { batch_of (core_of_array self.old) ≡ []
            → core_of_array self.new ≡ core_of_array self.old }
        ensures answers { AnswersEvent R.slot_count R.slot R.told self.old self.new FlushEvent
            (answer_to_flush result) }
    {
        if let Some(count) = self.worn() {
            let halt = self.wear_out(count);
            return Err(halt);
        }
        if self.is_kept() {
            return Ok(self.core.meta().writes);
        }
        self.commit_all()
    }
}
