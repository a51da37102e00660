//! What the disks of an array use, as its ledger counts it.
ghost use Rattle.std.specs.Prelude.{◌≡◌, ◌≤◌};
ghost use Rattle.paraid_energy.specs.Account.{after_tick};
ghost use Rattle.paraid_rack.specs.declared.call.Power.TheVariants.{Parked, Spinning};
ghost use Rattle.paraid_array.specs.Used.{begun_spin_ups, disks_with as count_with, one_with as count_one, power_by};

use paraid_base::{DiskNo, TickEvent};
use paraid_energy::Ledger;
use paraid_rack::Power;
use paraid_record::Meta;

// How a disk is powered by this meta, unless it is gone.
fn disk_power(meta: &Meta, disk: DiskNo) -> Option<Power>
    ensures { result ≡ power_by meta.now disk }
{
    if meta.out.is_gone(disk) {
        return None;
    }
    if meta.out.is_fresh(disk) || disk < meta.gear || disk < meta.phase.rising_to() {
        return Some(Power::Spinning);
    }
    Some(Power::Parked)
}

// 1 for a disk that is powered so, and 0 for another.
fn one_with(power: Power, is: Option<Power>) -> u8
    ensures value { result ≡ count_one power is }
    ensures few { result ≤ 1 }
{
    if is == Some(power) { 1 } else { 0 }
}

// How many disks are powered so.
fn disks_with(meta: &Meta, power: Power) -> u8
    ensures { result ≡ count_with meta.now power }
{
    let mut count = 0;
    for disk in 0..meta.setup.geometry.disks() {
        count += one_with(power, disk_power(meta, disk));
    }
    count
}

/// Counts what all disks use between two ticks.
pub(crate) fn count_disks(ledger: &mut Ledger, meta: &Meta)
    ensures { ledger.new
        ≡ after_tick ledger.old (count_with meta.now Spinning) (count_with meta.now Parked) }
{
    let spinning = disks_with(meta, Power::Spinning);
    let parked = disks_with(meta, Power::Parked);
    ledger.tick(spinning, parked);
}

/// How many disks a tick spins up, by what it did in this gear.
pub(crate) fn spin_ups_begun(gear: u8, event: TickEvent) -> u8
    ensures { result ≡ begun_spin_ups gear event }
{
    match event {
        TickEvent::Begun { to } => to.saturating_sub(gear),
        _ => 0,
    }
}
