//! Questions, and events that are refused with no call of the rack.
ghost use Rattle.std.specs.Prelude.{◌≡◌, ◌<◌, ◌≤◌, max, true, length, None, Some, IfNone, IfSome};
ghost use Rattle.paraid_base.specs.declared.event.Answer.TheVariants.{Halted};
ghost use Rattle.paraid_base.specs.declared.event.Event.{Event as EventType};
ghost use Rattle.paraid_base.specs.declared.event.Event.TheVariants.{Energy as AskEnergy, State as AskState};
ghost use Rattle.paraid_base.specs.declared.fault.Halt.TheVariants.{Worn};
ghost use Rattle.paraid_base.specs.Log.{worn_at};
ghost use Rattle.paraid_machine.specs.Machine.{block_count, state_status};
ghost use Rattle.paraid_session.specs.Turn.{Point, may_halt};
ghost use Rattle.paraid_trace.specs.Answered.{answer_of, answer_with};
ghost use Rattle.paraid_core.specs.Cores.{meta_of};

use crate::Array;
use crate::ended::HaltedAt;
use paraid_base::{Halt, Status, WORN_AT};
use paraid_rack::Rack;
use paraid_trace::{Answered, Beside, Brief};

impl<R: Rack> Array<R> {
    ghost use Rattle.paraid_array.specs.Lasting.{TellsItsWear};
    ghost use Rattle.paraid_array.specs.Arrays.{AnswersEvent, ArrayStandsAt, core_of_array, halt_of_array, setup_of_array, shown_of_array};
    ghost use Rattle.paraid_serve.specs.Causes.{state_shown};

    /// The halt that each event gives from now on, if it has halted.
    pub fn halt(&self) -> Option<Halt>
        ensures value { result ≡ halt_of_array self.now }
        ensures worn { TellsItsWear (meta_of (core_of_array self.now)) result }
    {
        match self.ended {
            Some(ended) => Some(ended.halt),
            None => None,
        }
    }

    /// Its gear, after a halt that before it.
    pub fn gear(&self) -> u8
        ensures point { (p : Point)
            → ArrayStandsAt R.slot_count R.told self.now p → result ≡ p.state.gear }
        // Over every rack it is what is seen.
        ensures shown { result ≡ (shown_of_array R.slot self.now).gear }
    {
        match self.ended {
            Some(ended) => ended.gear,
            None => self.core.meta().gear,
        }
    }

    /// The number of its blocks.
    pub fn blocks(&self) -> u32
        ensures value { result ≡ block_count (setup_of_array self.now) }
        ensures some { 0 < result }
    {
        self.setup.geometry.blocks()
    }

    /// The number of its disks.
    pub fn disks(&self) -> u8
        ensures value { result ≡ (setup_of_array self.now).geometry.disks }
        ensures few { result ≤ 8 }
    {
        self.setup.geometry.disks()
    }

    /// Its state.
    pub fn status(&self) -> Status
        requires going { halt_of_array self.now ≡ None }
        ensures point { (p : Point) → ArrayStandsAt R.slot_count R.told self.now p
            → result ≡ state_status (setup_of_array self.now) (length p.history) p.state }
        // Over every rack it is that of the meta and the dirty cells.
        ensures shown { result
            ≡ state_status (setup_of_array self.now) (meta_of (core_of_array self.now)).writes
            (state_shown (shown_of_array R.slot self.now)) }
    {
        let meta = self.core.meta();
        Status {
            writes: meta.writes,
            ticks: meta.ticks,
            gear: meta.gear,
            phase: meta.phase,
            dirty: self
                .core
                .dirty()
                .count(meta.gear, self.setup.geometry.disks()),
            fill: meta.fill,
            out: meta.out,
            spins: meta.spins,
            halt: None,
        }
    }

    /// Tells the state.
    pub(crate) fn tell_state(&self, beside: &mut Beside) -> Answered
        requires going { halt_of_array self.now ≡ None }
        ensures answers { AnswersEvent R.slot_count R.slot R.told self.now self.now AskState
            (answer_with result beside.new) }
    {
        beside.status = self.status();
        Answered::State {
            disks: self.disks(),
        }
    }

    /// Tells the energy since the mount.
    pub(crate) fn tell_energy(&self) -> Brief
        requires going { halt_of_array self.now ≡ None }
        ensures answers { AnswersEvent R.slot_count R.slot R.told self.now self.now AskEnergy
            (answer_of result) }
    {
        Brief::Energy {
            total: self.energy(),
        }
    }

    // How many commits or writes were made, the greater of the two, where it takes no more.
    pub(crate) fn worn(&self) -> Option<u64>
        ensures worn { IfSome result (λ count. (worn_at ≤ count) × (count ≡ max
            (meta_of (core_of_array self.now)).epoch (meta_of (core_of_array self.now)).writes)) }
        ensures fit { IfNone result (((meta_of (core_of_array self.now)).epoch < worn_at)
            × ((meta_of (core_of_array self.now)).writes < worn_at)) }
    {
        let meta = self.core.meta();
        let count = meta.epoch.max(meta.writes);
        if count >= WORN_AT { Some(count) } else { None }
    }

    // Ends the service of an array that takes no more.
    pub(crate) fn wear_out(&mut self, count: u64) -> Halt
        requires going { halt_of_array self.old ≡ None }
        requires many { worn_at ≤ count }
        requires is { count ≡ max
            (meta_of (core_of_array self.old)).epoch (meta_of (core_of_array self.old)).writes }
        ensures core { core_of_array self.new ≡ core_of_array self.old }
        ensures answers { (event : EventType) → may_halt event ≡ true
            → AnswersEvent R.slot_count R.slot R.told self.old self.new event (Halted result) }
    {
        let gear = self.core.meta().gear;
        let halt = Halt::Worn { count };
        self.ended = Some(HaltedAt { halt, gear });
        halt
    }
}
