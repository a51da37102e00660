//! An array answers each event of a session.
ghost use Rattle.std.specs.Prelude.{◌≡◌, ◌≢◌, None};
ghost use Rattle.paraid_base.specs.declared.event.Event.TheVariants.{Bad as BadEvent, Flush as FlushEvent};
ghost use Rattle.paraid_trace.specs.Answered.{answer_of, answer_with};
ghost use Rattle.paraid_trace.specs.Asked.{event_with};

use crate::Array;
use paraid_base::{Halt, Pairs, Status};
use paraid_rack::Rack;
use paraid_serve::Serves;
use paraid_trace::{Answered, Asked, Beside, Brief};
use paraid_upkeep::Direction;

impl<R: Rack> Array<R> {
    ghost use Rattle.paraid_array.specs.Arrays.{AnswersEvent, halt_of_array};

    // The answer to a flush.
    fn flush_told(&mut self) -> Brief
        requires going { halt_of_array self.old ≡ None }
        ensures answers { AnswersEvent R.slot_count R.slot R.told self.old self.new FlushEvent
            (answer_of result) }
    {
        match self.flush() {
            Ok(writes) => Brief::Flushed { writes },
            Err(halt) => Brief::Halted(halt),
        }
    }

    // The state after a halt: dirty cells are not counted.
    fn status_halted(&self, halt: Halt) -> Status {
        let meta = self.core.meta();
        Status {
            writes: meta.writes,
            ticks: meta.ticks,
            gear: meta.gear,
            phase: meta.phase,
            dirty: 0,
            fill: meta.fill,
            out: meta.out,
            spins: meta.spins,
            halt: Some(halt),
        }
    }

    /// Answers what is asked for, with the pairs of a write. What stands beside the answer becomes
    /// `beside`.
    pub fn answer(&mut self, asked: Asked, pairs: &Pairs, beside: &mut Beside) -> Answered
        requires going { halt_of_array self.old ≡ None }
        requires event { event_with asked pairs.now ≢ BadEvent }
        ensures answers { AnswersEvent R.slot_count R.slot R.told self.old self.new
            (event_with asked pairs.now) (answer_with result beside.new) }
    {
        match asked {
            Asked::Read { block } => self.read(block, beside),
            Asked::Write => Answered::Brief(self.write(pairs)),
            Asked::Flush => Answered::Brief(self.flush_told()),
            Asked::Tick => Answered::Brief(self.tick()),
            Asked::Up => Answered::Brief(self.ask(Direction::Up)),
            Asked::Down => Answered::Brief(self.ask(Direction::Down)),
            Asked::Fail { disk } => Answered::Brief(self.fail(disk)),
            Asked::Replace { disk } => Answered::Brief(self.replace(disk)),
            Asked::State => self.tell_state(beside),
            Asked::Energy => Answered::Brief(self.tell_energy()),
            Asked::Bad => Answered::Brief(Brief::Bad),
        }
    }
}

impl<R: Rack> Serves for Array<R> {
    ghost use Rattle.paraid_array.specs.Arrays.{ArrayStandsAt, halt_of_array, setup_of_array, shown_of_array, slot_of_array, slots_of_array, told_of_array};
    ghost use Rattle.paraid_array.specs.Laws.{absent_out, all_synced, going_end, halt_at, not_double, shown_as};
    ghost use Rattle.paraid_gear.specs.ThreeWindows.{lengths_of};

    ghost told = { told_of_array R.told };

    ghost slots = { slots_of_array };

    ghost setup = { setup_of_array };

    ghost slot = { slot_of_array R.slot };

    ghost halted = { halt_of_array };

    ghost shown = { shown_of_array R.slot };

    ghost stands = { ArrayStandsAt R.slot_count R.told };

    ghost serves = { λ array going.
        not_double R.slot_count R.slot array.core (lengths_of array.windows) array.setup array.slots
        (array.serving (going_end array.ended going)) };

    ghost absent = { λ array going.
        absent_out R.slot_count R.slot array.core (lengths_of array.windows) array.setup array.slots
        (array.serving (going_end array.ended going)) };

    ghost worn = { λ array count is. (array.worn count is).0 };

    ghost shows = { λ array. shown_as R.slot array (λ going.
        (array.serving (going_end array.ended going)).fits) (λ going. all_synced R.slot array.core
        (array.serving (going_end array.ended going)).serving.copies_synced
        (array.serving (going_end array.ended going)).serving.unsynced) };

    ghost agrees = { λ array p at. halt_at R.slot_count R.told array p at };

    fn serve(&mut self, asked: Asked, pairs: &Pairs, beside: &mut Beside) -> Answered {
        self.answer(asked, pairs, beside)
    }

    fn flush(&mut self) -> Result<u64, Halt> {
        Array::flush(self)
    }

    fn writes(&self) -> u64 {
        Array::writes(self)
    }

    fn gear(&self) -> u8 {
        Array::gear(self)
    }

    fn blocks(&self) -> u32 {
        Array::blocks(self)
    }

    fn status(&self) -> Status {
        match self.halt() {
            None => Array::status(self),
            Some(halt) => self.status_halted(halt),
        }
    }

    fn disks(&self) -> u8 {
        Array::disks(self)
    }

    fn energy(&self) -> u64 {
        Array::energy(self)
    }
}
