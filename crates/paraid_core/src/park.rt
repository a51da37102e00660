//! Disks are parked and spun up while nothing is staged.
ghost use Rattle.std.specs.Prelude.{◌≡◌, ◌<◌, ◌≤◌, true, false, Ok, OnOk};
ghost use Rattle.paraid_base.specs.States.{rising_to};
ghost use Rattle.paraid_core.specs.Replaced.{HaveComeUpBut};
ghost use Rattle.paraid_rack.specs.declared.call.Power.TheVariants.{Parked, Spinning};
ghost use Rattle.paraid_core.specs.Calls.{MakesOneCall};
ghost use Rattle.paraid_rack.specs.declared.call.Call.TheVariants.{Park, SpinUp};
ghost use Rattle.paraid_core.specs.PowerCalls.{AnswersPowerCall, CanChangePower, StandsPowered, PowersDisk};

use crate::staged::{Core, put_out};
use paraid_base::{DiskNo, Two};
use paraid_rack::Rack;

impl<R: Rack> Core<R> {
    ghost use Rattle.paraid_core.specs.Cores.{CanCoreServe, core_rack, meta_of};

    /// Parks a disk that the gear does not need, while nothing is staged. True once it is parked.
    /// False where it was lost: it is out from then on.
    pub fn park(&mut self, disk: DiskNo) -> Result<bool, Two>
        requires turn { CanChangePower self.old disk }
        requires past_logs { 2 ≤ disk }
        requires past_rise { rising_to (meta_of self.old).phase ≤ disk }
        requires spinning { (R.slot (core_rack self.old) disk).power ≡ Spinning }
        requires synced { (R.slot (core_rack self.old) disk).unsynced ≡ false }
        ensures turns { PowersDisk disk self.old self.new result }
        ensures parked { result ≡ Ok true → (R.slot (core_rack self.new) disk).power ≡ Parked }
        ensures answers { AnswersPowerCall disk self.old self.new result }
        ensures serves { OnOk result (CanCoreServe R.slot self.old → CanCoreServe R.slot self.new) }
        ensures calls { MakesOneCall R.told (λ done. Park disk done) self.old self.new }
        ensures held { StandsPowered self.old self.new result }
    {
        let Err(_) = self.store.park(disk) else {
            return Ok(true);
        };
        put_out(&mut self.meta, disk)
    }

    /// Spins up a disk of the gear that a shift up goes to, while nothing is staged. True once it
    /// spins. False where it was lost: it is out from then on.
    pub fn spin_up(&mut self, disk: DiskNo) -> Result<bool, Two>
        requires turn { CanChangePower self.old disk }
        requires rises { disk < rising_to (meta_of self.old).phase }
        requires parked { (R.slot (core_rack self.old) disk).power ≡ Parked }
        ensures turns { PowersDisk disk self.old self.new result }
        ensures spins { result ≡ Ok true → (R.slot (core_rack self.new) disk).power ≡ Spinning }
        ensures size { result ≡ Ok true
            → (R.slot (core_rack self.new) disk).size ≡ (R.slot (core_rack self.old) disk).size }
        ensures answers { AnswersPowerCall disk self.old self.new result }
        // Once all disks of the gear that the shift goes to have come up, cells can be read and
        // written.
        ensures serves { OnOk result (HaveComeUpBut
            (R.slot (core_rack self.old)) (meta_of self.old) disk → CanCoreServe R.slot self.new) }
        ensures calls { MakesOneCall R.told (λ done. SpinUp disk done) self.old self.new }
        ensures held { StandsPowered self.old self.new result }
    {
        let Err(_) = self.store.spin_up(disk) else {
            return Ok(true);
        };
        put_out(&mut self.meta, disk)
    }
}
