//! Disks of an array that are taken out and replaced.
ghost use Rattle.std.specs.Prelude.{◌≡◌, ◌<◌, None};
ghost use Rattle.paraid_upkeep.specs.Turns.{fail_answer, replace_answer};
ghost use Rattle.paraid_base.specs.declared.event.Event.TheVariants.{Fail as FailEvent, Replace as ReplaceEvent};
ghost use Rattle.paraid_base.specs.Log.{worn_at};
ghost use Rattle.paraid_core.specs.Cores.{meta_of};
ghost use Rattle.paraid_trace.specs.Answered.{answer_of};

use crate::Array;
use crate::ended::HaltedAt;
use paraid_base::{DiskNo, Halt};
use paraid_rack::Rack;
use paraid_trace::Brief;
use paraid_upkeep::{FailFault, ReplaceFault, replace, take_out};

// What is told of a disk that was taken out, or why it was not.
fn fail_told(disk: DiskNo, refusal: Option<FailFault>) -> Brief
    ensures { answer_of result ≡ fail_answer disk refusal }
{
    match refusal {
        None => Brief::Failed { disk },
        Some(FailFault::NoDisk { disk }) => Brief::NoDisk { disk: disk as u32 },
        Some(FailFault::Out { disk }) => Brief::Out { disk },
    }
}

// What is told of a disk that was replaced, or why it was not.
fn replace_told(disk: DiskNo, refusal: Option<ReplaceFault>) -> Brief
    ensures { answer_of result ≡ replace_answer disk refusal }
{
    match refusal {
        None => Brief::Replaced { disk },
        Some(ReplaceFault::NoDisk { disk }) => Brief::NoDisk { disk: disk as u32 },
        Some(ReplaceFault::NotOut { disk }) => Brief::NotOut { disk },
        Some(ReplaceFault::NoFresh { disk }) => Brief::NoFresh { disk },
    }
}

impl<R: Rack> Array<R> {
    ghost use Rattle.paraid_array.specs.Arrays.{AnswersEvent, core_of_array, end_of_array, halt_of_array};

    // Takes out a disk of the array.
    fn fail_there(&mut self, disk: DiskNo) -> Brief
        requires going { end_of_array self.old ≡ None }
        requires epoch { (meta_of (core_of_array self.old)).epoch < worn_at }
        requires writes { (meta_of (core_of_array self.old)).writes < worn_at }
        ensures answers { AnswersEvent R.slot_count R.slot R.told self.old self.new
            (FailEvent disk) (answer_of result) }
    {
        let gear = self.core.meta().gear;
        match take_out(&mut self.core, disk) {
            Ok(refusal) => fail_told(disk, refusal),
            Err(two) => {
                let halt = Halt::Two(two);
                self.ended = Some(HaltedAt { halt, gear });
                Brief::Halted(halt)
            }
        }
    }

    // Replaces a disk of the array.
    fn replace_there(&mut self, disk: DiskNo) -> Brief
        requires going { end_of_array self.old ≡ None }
        requires epoch { (meta_of (core_of_array self.old)).epoch < worn_at }
        requires writes { (meta_of (core_of_array self.old)).writes < worn_at }
        ensures answers { AnswersEvent R.slot_count R.slot R.told self.old self.new
            (ReplaceEvent disk) (answer_of result) }
    {
        let gear = self.core.meta().gear;
        match replace(&mut self.core, disk) {
            Ok(refusal) => replace_told(disk, refusal),
            Err(two) => {
                let halt = Halt::Two(two);
                self.ended = Some(HaltedAt { halt, gear });
                Brief::Halted(halt)
            }
        }
    }

    /// Answers that a disk is to be taken out.
    pub fn fail(&mut self, disk: u32) -> Brief
        requires going { halt_of_array self.old ≡ None }
        ensures answers { AnswersEvent R.slot_count R.slot R.told self.old self.new
            (FailEvent disk) (answer_of result) }
    {
        if let Some(count) = self.worn() {
            return Brief::Halted(self.wear_out(count));
        }
        if disk >= self.disks() as u32 {
            return Brief::NoDisk { disk };
        }
        self.fail_there(disk as u8)
    }

    /// Answers that a disk is to be replaced.
    pub fn replace(&mut self, disk: u32) -> Brief
        requires going { halt_of_array self.old ≡ None }
        ensures answers { AnswersEvent R.slot_count R.slot R.told self.old self.new
            (ReplaceEvent disk) (answer_of result) }
    {
        if let Some(count) = self.worn() {
            return Brief::Halted(self.wear_out(count));
        }
        if disk >= self.disks() as u32 {
            return Brief::NoDisk { disk };
        }
        self.replace_there(disk as u8)
    }
}
