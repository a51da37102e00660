//! Reads and writes of an array.
ghost use Rattle.std.specs.Prelude.{◌≡◌, ℕ, ◌+◌, ◌<◌, All, None, Some};
ghost use Rattle.paraid_base.specs.declared.block.Block.{Block as BlockType};
ghost use Rattle.paraid_base.specs.declared.event.Event.TheVariants.{Read as ReadEvent, Write as WriteEvent};
ghost use Rattle.paraid_base.specs.Log.{worn_at};
ghost use Rattle.paraid_base.specs.Pairs.{pairs_of};
ghost use Rattle.paraid_core.specs.Cores.{meta_of};
ghost use Rattle.paraid_gear.specs.ThreeWindows.{sample_of};
ghost use Rattle.paraid_machine.specs.Machine.{block_count};
ghost use Rattle.paraid_trace.specs.Answered.{answer_of, answer_with};

use crate::Array;
use crate::ended::HaltedAt;
use paraid_base::{BlockNo, Halt, Pairs};
use paraid_gear::GREATEST_SAMPLE;
use paraid_rack::Rack;
use paraid_trace::{Answered, Beside, Brief};

// One request more, of which no more are counted than a sample may have.
fn one_more(served: u32) -> u32
    ensures more { (n : ℕ) → served ≡ sample_of n → result ≡ sample_of (n + 1) }
    ensures cut { sample_of result ≡ sample_of (sample_of served + 1) }
{
    if served < GREATEST_SAMPLE {
        served + 1
    } else {
        served
    }
}

impl<R: Rack> Array<R> {
    ghost use Rattle.paraid_array.specs.Arrays.{AnswersEvent, core_of_array, end_of_array, halt_of_array, setup_of_array};

    // Reads a block that there is.
    fn read_there(&mut self, block: BlockNo, beside: &mut Beside) -> Answered
        requires going { end_of_array self.old ≡ None }
        requires epoch { (meta_of (core_of_array self.old)).epoch < worn_at }
        requires writes { (meta_of (core_of_array self.old)).writes < worn_at }
        requires block { block < block_count (setup_of_array self.old) }
        ensures answers { AnswersEvent R.slot_count R.slot R.told self.old self.new
            (ReadEvent block) (answer_with result beside.new) }
    {
        let gear = self.core.meta().gear;
        match self.core.read(block, &mut beside.bytes) {
            Ok(()) => {
                self.served = one_more(self.served);
                Answered::Value { block }
            }
            Err(two) => {
                let halt = Halt::Two(two);
                self.ended = Some(HaltedAt { halt, gear });
                Answered::Brief(Brief::Halted(halt))
            }
        }
    }

    // Writes blocks that there are.
    fn write_there(&mut self, pairs: &Pairs) -> Brief
        requires going { end_of_array self.old ≡ None }
        requires epoch { (meta_of (core_of_array self.old)).epoch < worn_at }
        requires writes { (meta_of (core_of_array self.old)).writes < worn_at }
        requires blocks { All (λ (pair : ℕ × BlockType).
            pair.0 < block_count (setup_of_array self.old)) (pairs_of pairs.now) }
        ensures answers { AnswersEvent R.slot_count R.slot R.told self.old self.new
            (WriteEvent pairs.now) (answer_of result) }
    {
        let gear = self.core.meta().gear;
        let writes = self.core.meta().writes;
        match self.core.write_many(pairs) {
            Ok(()) => {
                self.served = one_more(self.served);
                Brief::Wrote { number: writes + 1 }
            }
            Err(two) => {
                let halt = Halt::Two(two);
                self.ended = Some(HaltedAt { halt, gear });
                Brief::Halted(halt)
            }
        }
    }

    /// Answers a read, whose bytes stand beside the answer.
    pub fn read(&mut self, block: BlockNo, beside: &mut Beside) -> Answered
        requires going { halt_of_array self.old ≡ None }
        ensures answers { AnswersEvent R.slot_count R.slot R.told self.old self.new
            (ReadEvent block) (answer_with result beside.new) }
    {
        if let Some(count) = self.worn() {
            return Answered::Brief(Brief::Halted(self.wear_out(count)));
        }
        if block >= self.blocks() {
            return Answered::Brief(Brief::NoBlock { block });
        }
        self.read_there(block, beside)
    }

    /// Answers a write.
    pub fn write(&mut self, pairs: &Pairs) -> Brief
        requires going { halt_of_array self.old ≡ None }
        ensures answers { AnswersEvent R.slot_count R.slot R.told self.old self.new
            (WriteEvent pairs.now) (answer_of result) }
    {
        if let Some(count) = self.worn() {
            return Brief::Halted(self.wear_out(count));
        }
        if let Some(block) = pairs.missing(self.blocks()) {
            return Brief::NoBlock { block };
        }
        self.write_there(pairs)
    }
}
