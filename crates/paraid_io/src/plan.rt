//! Which calls of a source or a sink in memory fail, by their numbers.
ghost use Rattle.std.specs.Prelude.{◌≡◌, ◌↔◌, ◌+◌, ◌≤◌, IsTrue, IsErr, OnOk, OnErr, Contains, min};
ghost use Rattle.paraid_base.specs.Told.{HasRisen, counter_most};

use paraid_base::Failed;

// Which calls fail by their numbers, from 0, how many were made, and how many have failed. Both
// counts stay at the end of their type.
#[derive(Drop)]
pub(crate) struct FaultPlan {
    pub(crate) fails: Vec<u32>,
    pub(crate) calls: u64,
    pub(crate) faults: u64,
}

impl FaultPlan {
    pub(crate) fn new(fails: Vec<u32>) -> FaultPlan
        ensures fails { result.fails.items ≡ fails.items }
        ensures calls { result.calls ≡ 0 }
        ensures faults { result.faults ≡ 0 }
    {
        FaultPlan {
            fails,
            calls: 0,
            faults: 0,
        }
    }

    // Counts a call, which fails where its number was given.
    pub(crate) fn call(&mut self) -> Result<(), Failed>
        ensures named { IsErr result ↔ Contains self.old.fails.items self.old.calls }
        ensures calls { self.new.calls ≡ min (self.old.calls + 1) counter_most }
        ensures fails { self.new.fails ≡ self.old.fails }
        ensures ok { OnOk result (self.new.faults ≡ self.old.faults) }
        ensures later { self.old.faults ≤ self.new.faults }
        ensures err { OnErr result (HasRisen self.old.faults self.new.faults) }
    {
        let fails = is_named(&self.fails, self.calls);
        self.calls = self.calls.saturating_add(1);
        if fails {
            return Err(self.fail());
        }
        Ok(())
    }

    // Counts a fault.
    pub(crate) fn fail(&mut self) -> Failed
        ensures rose { HasRisen self.old.faults self.new.faults }
        ensures later { self.old.faults ≤ self.new.faults }
        ensures calls { self.new.calls ≡ self.old.calls }
        ensures fails { self.new.fails ≡ self.old.fails }
    {
        self.faults = self.faults.saturating_add(1);
        Failed
    }
}

// Whether the call of this number is to fail.
fn is_named(fails: &[u32], call: u64) -> bool
    ensures { IsTrue result ↔ Contains fails.now call }
{
    fails.iter().any(|number| u64::from(*number) == call)
}
