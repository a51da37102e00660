//! A new array of the disks of a rack.
ghost use Rattle.paraid_rack.specs.Slots.{AreSameSlots};
ghost use Rattle.std.specs.Prelude.{◌≡◌, ◌<◌, ◌≤◌, ℕ, true, false, [], OnOk, IfErr};
ghost use Rattle.paraid_base.specs.Regions.{disk_size};
ghost use Rattle.paraid_base.specs.Told.{HasRisen};
ghost use Rattle.paraid_rack.specs.Told.{Ran};
ghost use Rattle.paraid_record.specs.Range.{IsInRange, IsSetupInRange};
ghost use Rattle.paraid_recover.specs.Attached.{BecomesFormatted, fresh_slot};
ghost use Rattle.paraid_recover.specs.Calls.{AreFormatCalls, AreHeadReads, AreMakingCalls, OnlyReadsAndKeeps};
ghost use Rattle.paraid_recover.specs.First.{first_meta as first_meta_of};
ghost use Rattle.paraid_recover.specs.Found.{IsUnclaimed};
ghost use Rattle.paraid_recover.specs.Between.{RanBetween};
ghost use Rattle.paraid_recover.specs.FormatRefusals.{IsFormatRefusal};

use crate::attach::attach_all;
use crate::format_fault::FormatFault;
use crate::found::greatest_epoch;
use crate::log::write_first_meta;
use paraid_base::{Block, DiskNo, Out, Phase};
use paraid_rack::Rack;
use paraid_record::{Meta, Setup, write_meta};

/// The meta of an array that holds no write: version 2, epoch 1, in the highest gear.
pub fn first_meta(setup: &Setup) -> Meta
    requires { IsSetupInRange setup.now }
    ensures value { result ≡ first_meta_of setup.now }
    ensures range { IsInRange result }
{
    Meta {
        setup: *setup,
        version: 2,
        epoch: 1,
        writes: 0,
        ticks: 0,
        gear: setup.geometry.disks(),
        phase: Phase::Steady,
        fill: 0,
        out: Out::No,
        spins: [0; 8],
    }
}

// The array itself: fresh disks, and the first meta on both log disks. A disk that failed is named.
fn make<R: Rack>(setup: &Setup, rack: &mut R) -> Result<(), DiskNo>
    requires range { IsSetupInRange setup.now }
    requires room { setup.now.geometry.disks ≤ R.slot_count rack.old }
    ensures slots { R.slot_count rack.new ≡ R.slot_count rack.old }
    ensures fresh { OnOk result ((d : ℕ) → d < setup.now.geometry.disks → R.slot rack.new d
        ≡ fresh_slot (disk_size setup.now.geometry) (R.slot rack.old d)) }
    ensures others { (d : ℕ) → setup.now.geometry.disks ≤ d
        → R.slot rack.new d ≡ R.slot rack.old d }
    ensures formatted { OnOk result (RanBetween (R.told rack.old) (R.told rack.new)
        (BecomesFormatted (R.slot_count rack.old) (first_meta_of setup.now))) }
    ensures calls { Ran (R.told rack.old) (R.told rack.new) (λ start calls.
        AreMakingCalls setup.now.geometry.disks (disk_size setup.now.geometry) calls) }
    ensures low { IfErr result (λ d. d < setup.now.geometry.disks) }
    ensures risen { IfErr result (λ d. HasRisen (R.slot rack.old d).faults
        (R.slot rack.new d).faults) }
{
    let mut block = Block::zero();
    write_meta(&first_meta(setup), &mut block);
    attach_all(rack, setup.geometry.disks(), setup.geometry.size())?;
    let Ok(()) = write_first_meta(rack, 0, &block) else {
        return Err(0);
    };
    let Ok(()) = write_first_meta(rack, 1, &block) else {
        return Err(1);
    };
    Ok(())
}

// Refuses a rack that belongs to an array, unless that does not matter.
fn refuse_claimed<R: Rack>(force: bool, rack: &mut R) -> Result<(), FormatFault>
    ensures slots { R.slot_count rack.new ≡ R.slot_count rack.old }
    ensures same { OnOk result (AreSameSlots (R.slot rack.old) (R.slot rack.new)) }
    ensures others { (d : ℕ) → 2 ≤ d → R.slot rack.new d ≡ R.slot rack.old d }
    ensures reads { Ran (R.told rack.old) (R.told rack.new) (λ start calls.
        AreHeadReads calls × (force ≡ true → calls ≡ [])) }
    ensures quiet { OnOk result (OnlyReadsAndKeeps (R.told rack.old) (R.told rack.new)) }
    ensures free { OnOk result (force ≡ false → RanBetween (R.told rack.old) (R.told rack.new)
        (λ start s. IsUnclaimed start)) }
    ensures refused { IfErr result (λ fault. (count slots : ℕ) → IsFormatRefusal force count slots
        (R.slot rack.old) (R.slot rack.new) (R.told rack.old) (R.told rack.new) fault) }
{
    if force {
        return Ok(());
    }
    match greatest_epoch(rack) {
        Ok(None) => Ok(()),
        Ok(Some(epoch)) => Err(FormatFault::AlreadyFormatted { epoch }),
        Err(disk) => Err(FormatFault::Disk { disk }),
    }
}

/// Makes an array of the first slots of a rack, in the order: the test, unless `force` is given, of
/// whether a log disk belongs to an array; a fresh disk in each slot; the first meta on disk 0 and
/// then on disk 1, each synced.
///
/// After Ok each stop leaves the disks of an array of this setup that holds no write, whatever is
/// loose in the slots past them. Where nothing is, the disks are so as they are.
pub fn format<R: Rack>(setup: &Setup, force: bool, rack: &mut R) -> Result<(), FormatFault>
    requires { IsSetupInRange setup.now }
    ensures slots { R.slot_count rack.new ≡ R.slot_count rack.old }
    ensures fresh { OnOk result ((d : ℕ) → d < setup.now.geometry.disks → R.slot rack.new d
        ≡ fresh_slot (disk_size setup.now.geometry) (R.slot rack.old d)) }
    ensures others { (d : ℕ) → setup.now.geometry.disks ≤ d
        → R.slot rack.new d ≡ R.slot rack.old d }
    ensures formatted { OnOk result (RanBetween (R.told rack.old) (R.told rack.new)
        (BecomesFormatted (R.slot_count rack.old) (first_meta_of setup.now))) }
    ensures free { OnOk result (force ≡ false → RanBetween (R.told rack.old) (R.told rack.new)
        (λ start s. IsUnclaimed start)) }
    ensures calls { Ran (R.told rack.old) (R.told rack.new) (λ start calls. AreFormatCalls force
        setup.now.geometry.disks (disk_size setup.now.geometry) start calls) }
    ensures refused { IfErr result (IsFormatRefusal force setup.now.geometry.disks
        (R.slot_count rack.old) (R.slot rack.old) (R.slot rack.new) (R.told rack.old)
        (R.told rack.new)) }
{
    match refuse_claimed(force, rack) {
        Ok(()) => {}
        Err(fault) => return Err(fault),
    }
    let slots = rack.slots();
    if setup.geometry.disks() > slots {
        return Err(FormatFault::Disk { disk: slots });
    }
    match make(setup, rack) {
        Ok(()) => Ok(()),
        Err(disk) => Err(FormatFault::Disk { disk }),
    }
}
