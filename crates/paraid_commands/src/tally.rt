//! What is counted of generated lines and their answers.
ghost use Rattle.std.specs.Prelude.{◌≡◌, ◌<◌, ◌+◌, ◌*◌, slice_index};
ghost use Rattle.paraid_commands.specs.Tally.{HasRoomForLine, empty_tally, tally_with_answer, tally_with_event};

use paraid_base::{Answer, Block, Event, TickEvent};

/// What is counted of generated lines and their answers.
#[derive(Clone, Copy)]
pub struct Tally {
    pub reads: u32,
    pub writes: u32,
    pub flushes: u32,
    pub ticks: u32,
    pub shifts: u32,
    pub sum: u64,
}

// The first two bytes of a block as a number.
fn first_two(block: &Block) -> u64
    ensures value { result ≡ 256 * slice_index block.now.bytes 0 + slice_index block.now.bytes 1 }
    ensures below { result < 65536 }
{
    let bytes = block.as_slice();
    256 * u64::from(bytes[0]) + u64::from(bytes[1])
}

impl Tally {
    /// Nothing was counted.
    pub fn new() -> Self
        ensures { result ≡ empty_tally }
    {
        Tally {
            reads: 0,
            writes: 0,
            flushes: 0,
            ticks: 0,
            shifts: 0,
            sum: 0,
        }
    }

    /// Counts an event by its kind.
    pub fn count_event(&mut self, event: &Event)
        requires room { HasRoomForLine self.old }
        ensures { self.new ≡ tally_with_event self.old event.now }
    {
        match event {
            Event::Read { .. } => self.reads += 1,
            Event::Write { .. } => self.writes += 1,
            Event::Flush => self.flushes += 1,
            Event::Tick => self.ticks += 1,
            _ => {}
        }
    }

    /// Counts a block that was read, and a tick that flipped.
    pub fn count_answer(&mut self, answer: &Answer)
        requires room { HasRoomForLine self.old }
        ensures { self.new ≡ tally_with_answer self.old answer.now }
    {
        match answer {
            Answer::Value { bytes, .. } => self.sum += first_two(bytes),
            Answer::Ticked(report) => self.count_tick(&report.event),
            _ => {}
        }
    }

    ghost use Rattle.paraid_commands.specs.Tally.{tally_with_tick};

    fn count_tick(&mut self, event: &TickEvent)
        requires room { HasRoomForLine self.old }
        ensures { self.new ≡ tally_with_tick self.old event.now }
    {
        match event {
            TickEvent::Flipped => self.shifts += 1,
            _ => {}
        }
    }
}
