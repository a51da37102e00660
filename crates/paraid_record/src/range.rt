//! Tells whether a setup and a meta are in range.

ghost use Rattle.std.specs.Prelude.{◌≡◌, ℕ, ◌<◌, ◌≤◌, ◌↔◌, IsTrue, true, false};
ghost use Rattle.paraid_base.specs.Regions.{IsGear};
ghost use Rattle.paraid_record.specs.Range.{AreCountersInRange, AreNextGears, AreWindows, IsInRange, IsOutInRange, IsPhaseInRange, IsSetupInRange, IsSpinCount, IsShiftInRange, IsVersionInRange, Within, allowed_spins, fill_limit as limit_of_fill, first_parked as parked_from, rebuild_units as units_of_rebuild};

use crate::{Meta, Setup};
use paraid_base::{DiskNo, Geometry, Out, Phase};
use paraid_ration::allowance;

/// How many units a rebuild of a disk has at a gear: its rows, the stripes of the gear's region
/// where the disk is below the gear, and the blocks of the dirty map on disks 0 and 1.
pub fn rebuild_units(geometry: &Geometry, gear: u8, disk: DiskNo) -> u32
    requires { IsGear geometry.now gear }
    ensures { result ≡ units_of_rebuild geometry.now gear disk }
{
    let stripes = if disk < gear {
        geometry.stripes(gear)
    } else {
        0
    };
    let map = if disk < 2 { geometry.map_blocks() } else { 0 };
    geometry.rows + stripes + map
}

impl Setup {
    /// Whether every value of the setup is in its range.
    pub fn is_in_range(&self) -> bool
        ensures { IsTrue result ↔ IsSetupInRange self.now }
    {
        is_within(1, self.rate, 65536)
            && is_within(1, self.service, 1048576)
            && is_within(1, self.up as u32, 100)
            && is_within(1, self.down as u32, 100)
            && are_windows(&self.windows)
            && is_growth_in_range(self.ration, self.burst, self.period)
            && self.spinning_mj <= 1048576
            && self.parked_mj <= 1048576
            && self.spinup_mj <= 1048576
    }
}

impl Meta {
    /// Whether every value of the meta is in its range, and the values fit together.
    pub fn is_in_range(&self) -> bool
        ensures { IsTrue result ↔ IsInRange self.now }
    {
        let meta = *self;
        let geometry = &meta.setup.geometry;
        if !meta.setup.is_in_range()
            || !is_version_in_range(meta.version, &meta.setup)
            || !are_counters_in_range(meta.epoch, meta.writes, meta.ticks)
            || !geometry.is_gear(meta.gear)
        {
            return false;
        }
        if !is_phase_in_range(geometry, meta.gear, meta.phase) {
            return false;
        }
        if !is_out_in_range(geometry, meta.gear, meta.out) {
            return false;
        }
        meta.is_shift_in_range() && meta.are_spins_in_range()
    }

    // Whether the fill mark, the phase and the disk that is out fit together.
    fn is_shift_in_range(&self) -> bool
        requires { IsPhaseInRange self.now.setup.geometry self.now.gear self.now.phase }
        ensures { IsTrue result ↔ IsShiftInRange self.now }
    {
        let out = self.out.is_any();
        self.fill <= fill_limit(&self.setup.geometry, self.gear, self.phase)
            && !(self.phase.is_down() && out)
            && !(out && self.fill > 0)
    }

    fn are_spins_in_range(&self) -> bool
        requires { 1 ≤ self.now.setup.period }
        ensures { IsTrue result ↔ ((disk : ℕ) → disk < 8 → IsSpinCount self.now disk) }
    {
        let setup = &self.setup;
        let allowed = allowance(setup.ration, setup.burst, setup.period, self.ticks);
        for disk in 0..8 {
            if !self.is_spin_count(disk, allowed) {
                return false;
            }
        }
        true
    }

    fn is_spin_count(&self, disk: DiskNo, allowed: u16) -> bool
        requires disk { disk < 8 }
        requires allowed { allowed ≡ allowed_spins self.now }
        ensures { IsTrue result ↔ IsSpinCount self.now disk }
    {
        let spins = self.spins[disk as usize];
        if disk >= self.setup.geometry.disks {
            spins == 0
        } else if disk >= first_parked(self.gear, self.phase) {
            spins < allowed
        } else {
            spins <= allowed
        }
    }
}

// Whether a ration is one, and the burst and the period fit it.
fn is_growth_in_range(ration: u16, burst: u16, period: u32) -> bool
    ensures { IsTrue result ↔ (Within 1 65535 ration × (Within 1 ration burst
        × Within 1 4294967295 period)) }
{
    ration >= 1 && burst >= 1 && burst <= ration && period >= 1
}

// Whether the version is known, and a setup of version 1 allows the whole ration at once.
fn is_version_in_range(version: u8, setup: &Setup) -> bool
    ensures { IsTrue result ↔ IsVersionInRange version setup.now }
{
    match version {
        1 => setup.burst == setup.ration && setup.period == 1,
        2 => true,
        _ => false,
    }
}

// Whether the epoch is one that a commit has. The other counters are any numbers of 64 bits.
fn are_counters_in_range(epoch: u64, _writes: u64, _ticks: u64) -> bool
    ensures { IsTrue result ↔ AreCountersInRange epoch _writes _ticks }
{
    // (the statement bounds the others as their types do)
    epoch >= 1
}

fn is_within(low: u32, x: u32, high: u32) -> bool
    ensures { IsTrue result ↔ Within low high x }
{
    low <= x && x <= high
}

fn are_windows(windows: &[u16; 3]) -> bool
    ensures { IsTrue result ↔ AreWindows windows.now }
{
    let [first, second, third] = *windows;
    first >= 1 && first <= 1024 && second <= 1024 && third <= 1024 && (second > 0 || third == 0)
}

// The first disk that the shift under way, or the gear, leaves parked.
fn first_parked(gear: u8, phase: Phase) -> DiskNo
    ensures { result ≡ parked_from gear phase }
{
    match phase {
        Phase::Steady => gear,
        Phase::Down { to } | Phase::Up { to } => to,
    }
}

fn is_phase_in_range(geometry: &Geometry, gear: u8, phase: Phase) -> bool
    requires { IsGear geometry.now gear }
    ensures { IsTrue result ↔ IsPhaseInRange geometry.now gear phase }
{
    match phase {
        Phase::Steady => true,
        Phase::Down { to } => are_next_gears(geometry, to, gear),
        Phase::Up { to } => are_next_gears(geometry, gear, to),
    }
}

// Whether these are two gears with none between them.
fn are_next_gears(geometry: &Geometry, lower: u8, higher: u8) -> bool
    ensures { IsTrue result ↔ AreNextGears geometry.now lower higher }
{
    if !geometry.is_gear(lower) || !geometry.is_gear(higher) {
        return false;
    }
    geometry.lower(higher) == Some(lower)
}

fn is_out_in_range(geometry: &Geometry, gear: u8, out: Out) -> bool
    requires { IsGear geometry.now gear }
    ensures { IsTrue result ↔ IsOutInRange geometry.now gear out }
{
    match out {
        Out::No => true,
        Out::Gone { disk } => disk < geometry.disks,
        Out::Fresh { disk, rebuilt } => {
            disk < geometry.disks && rebuilt <= rebuild_units(geometry, gear, disk)
        }
    }
}

// How many stripes of the region of the new gear can be filled.
fn fill_limit(geometry: &Geometry, gear: u8, phase: Phase) -> u32
    requires { IsPhaseInRange geometry.now gear phase }
    ensures { result ≡ limit_of_fill geometry.now phase }
{
    match phase {
        Phase::Steady => 0,
        Phase::Down { to } | Phase::Up { to } => geometry.stripes(to),
    }
}
