//! Ticks of an array.
ghost use Rattle.std.specs.Prelude.{◌≡◌, ◌<◌, None};
ghost use Rattle.paraid_base.specs.declared.event.Event.TheVariants.{Tick as TickEvent};
ghost use Rattle.paraid_base.specs.Log.{worn_at};
ghost use Rattle.paraid_core.specs.Cores.{meta_of};
ghost use Rattle.paraid_trace.specs.Answered.{answer_of};

use crate::Array;
use crate::ended::HaltedAt;
use crate::energy::{count_disks, spin_ups_begun};
use paraid_base::{GearReport, Halt};
use paraid_rack::Rack;
use paraid_trace::Brief;
use paraid_upkeep::advance;

impl<R: Rack> Array<R> {
    ghost use Rattle.paraid_array.specs.Arrays.{AnswersEvent, core_of_array, end_of_array, halt_of_array};

    // Counts a tick, with its sample and what the disks used since the last one, and does what is
    // due.
    fn tick_there(&mut self) -> Brief
        requires going { end_of_array self.old ≡ None }
        requires epoch { (meta_of (core_of_array self.old)).epoch < worn_at }
        requires writes { (meta_of (core_of_array self.old)).writes < worn_at }
        ensures answers { AnswersEvent R.slot_count R.slot R.told self.old self.new TickEvent
            (answer_of result) }
    {
        let gear = self.core.meta().gear;
        count_disks(&mut self.ledger, self.core.meta());
        self.core.count_tick();
        self.windows.push(self.served);
        self.served = 0;
        match advance(&mut self.core, &self.windows) {
            Ok((moved, event)) => {
                self.ledger.spin_up(spin_ups_begun(gear, event));
                Brief::Ticked(GearReport {
                    gear: self.core.meta().gear,
                    moved,
                    event,
                })
            }
            Err(two) => {
                let halt = Halt::Two(two);
                self.ended = Some(HaltedAt { halt, gear });
                Brief::Halted(halt)
            }
        }
    }

    /// Answers a tick.
    pub fn tick(&mut self) -> Brief
        requires going { halt_of_array self.old ≡ None }
        ensures answers { AnswersEvent R.slot_count R.slot R.told self.old self.new TickEvent
            (answer_of result) }
    {
        if let Some(count) = self.worn() {
            return Brief::Halted(self.wear_out(count));
        }
        self.tick_there()
    }
}
