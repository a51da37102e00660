//! The ledger: what disks and spin-ups have used, in a sum that stays at its greatest value.
ghost use Rattle.std.specs.Prelude.{◌≡◌, ◌*◌, ◌<◌, ◌^◌};
ghost use Rattle.paraid_energy.specs.Account.{Account, new_account, after_spin_ups, after_tick, with_used};

use paraid_record::Setup;
use std::marker::Model;

/// The energy used since the ledger was made.
#[derive(Drop)]
pub struct Ledger {
    spinning_mj: u32,
    parked_mj: u32,
    spinup_mj: u32,
    total: u64,
}

impl Model for Ledger {
    ghost Value = { Account };

    ghost view = { λ l. record {
      spinning_mj = l.spinning_mj;
      parked_mj = l.parked_mj;
      spinup_mj = l.spinup_mj;
      total = l.total;
    } };
}

impl Ledger {
    /// A ledger with the figures of a setup, and nothing used.
    pub fn new(setup: &Setup) -> Self
        ensures { result ≡ new_account setup.now }
    {
        Ledger {
            spinning_mj: setup.spinning_mj,
            parked_mj: setup.parked_mj,
            spinup_mj: setup.spinup_mj,
            total: 0,
        }
    }

    /// Counts what so many spinning and so many parked disks use between two ticks.
    pub fn tick(&mut self, spinning: u8, parked: u8)
        ensures { self.new ≡ after_tick self.old spinning parked }
    {
        let used = energy(self.spinning_mj, spinning) + energy(self.parked_mj, parked);
        self.add(used);
    }

    /// Counts the spin-ups of so many disks.
    pub fn spin_up(&mut self, disks: u8)
        ensures { self.new ≡ after_spin_ups self.old disks }
    {
        let used = energy(self.spinup_mj, disks);
        self.add(used);
    }

    fn add(&mut self, used: u64)
        ensures { self.new ≡ with_used self.old used }
    {
        self.total = self.total.saturating_add(used);
    }

    /// The sum in millijoules, at most the greatest u64.
    pub fn total(&self) -> u64
        ensures { result ≡ self.now.total }
    {
        self.total
    }
}

/// What so many disks use, each so many millijoules.
fn energy(each: u32, disks: u8) -> u64
    ensures value { result ≡ each * disks }
    ensures small { result < 2 ^ 40 }
{
    each as u64 * disks as u64
}
