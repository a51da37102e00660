//! The setup and the state that the log disks keep.

use paraid_base::{Geometry, Out, Phase};

/// How a shift up brings back what was written meanwhile.
#[derive(Clone, Copy)]
pub enum Mode {
    /// One tick of a shift up moves all units that are left, whatever the rate. A read changes
    /// nothing.
    Whole,
    /// A tick of a shift up moves as many units as the rate says. A read of a dirty cell of a disk
    /// that comes up makes it clean, where no disk is out.
    Access,
}

/// What an array is configured to be. It never changes once the array is formatted.
#[derive(Clone, Copy)]
pub struct Setup {
    pub geometry: Geometry,
    pub mode: Mode,
    /// The most units that a tick moves, 1 to 65,536. In mode `Whole` it does not bound a shift up.
    pub rate: u32,
    /// How many reads and writes a powered disk serves between two ticks, 1 to 1,048,576.
    pub service: u32,
    /// A shift up is due from this mean load of the present gear on, in percent, 1 to 100.
    pub up: u8,
    /// A shift down is due up to this load of the next lower gear, mean and deviation together, in
    /// percent, 1 to 100.
    pub down: u8,
    /// The lengths of the windows in samples, 1 to 1,024. An unused window is 0.
    pub windows: [u16; 3],
    /// The most spin-ups of a disk, 1 to 65,535.
    pub ration: u16,
    /// The spin-ups that a disk may have at once, 1 to the ration.
    pub burst: u16,
    /// After how many ticks a disk may have one spin-up more, 1 to 4,294,967,295.
    pub period: u32,
    /// The energy of a spinning disk between two ticks, in millijoules, 0 to 1,048,576.
    pub spinning_mj: u32,
    /// The energy of a parked disk between two ticks, in millijoules, 0 to 1,048,576.
    pub parked_mj: u32,
    /// The energy of a spin-up, in millijoules, 0 to 1,048,576.
    pub spinup_mj: u32,
}

/// The setup and the state of an array, as its log disks keep them.
#[derive(Clone, Copy)]
pub struct Meta {
    pub setup: Setup,
    /// How it is spelled: version 2 spells the burst and the period, and version 1 does not.
    pub version: u8,
    /// The number of the commit that wrote it, from 1.
    pub epoch: u64,
    /// The number of writes that were accepted.
    pub writes: u64,
    /// The number of ticks that were counted.
    pub ticks: u64,
    /// The number of disks that are powered when no shift is under way, one of the gears.
    pub gear: u8,
    pub phase: Phase,
    /// How many stripes of the region of the new gear are filled.
    pub fill: u32,
    pub out: Out,
    /// The recorded spin-ups of each disk since its last attach, 0 past the last disk.
    pub spins: [u16; 8],
}
