//! Whether two blocks, or what two log disks say, are the same.
ghost use Rattle.std.specs.Prelude.{◌≡◌, ◌↔◌, IsTrue};
ghost use Rattle.paraid_record.specs.Range.{IsInRange};

use paraid_base::{Block, Geometry};
use paraid_record::{Meta, Mode, Setup, write_meta};

pub(crate) fn is_same_block(a: &Block, b: &Block) -> bool
    ensures { IsTrue result ↔ (a.now ≡ b.now) }
{
    a.as_slice() == b.as_slice()
}

/// By their spellings: a meta in range has one.
pub(crate) fn is_same_meta(a: &Meta, b: &Meta) -> bool
    requires first { IsInRange a.now }
    requires second { IsInRange b.now }
    ensures { IsTrue result ↔ (a.now ≡ b.now) }
{
    let mut first = Block::zero();
    write_meta(a, &mut first);
    let mut second = Block::zero();
    write_meta(b, &mut second);
    is_same_block(&first, &second)
}

pub(crate) fn is_same_setup(a: &Setup, b: &Setup) -> bool
    ensures { IsTrue result ↔ (a.now ≡ b.now) }
{
    is_same_geometry(&a.geometry, &b.geometry)
        && is_same_policy(a, b)
        && is_same_allowance(a, b)
        && is_same_energy(a, b)
        && is_same_mode(a.mode, b.mode)
        && are_same_windows(&a.windows, &b.windows)
}

fn is_same_policy(a: &Setup, b: &Setup) -> bool
    ensures { IsTrue result ↔ ((a.now.rate ≡ b.now.rate) × (a.now.service ≡ b.now.service)
        × (a.now.up ≡ b.now.up) × (a.now.down ≡ b.now.down)) }
{
    a.rate == b.rate && a.service == b.service && a.up == b.up && a.down == b.down
}

fn is_same_allowance(a: &Setup, b: &Setup) -> bool
    ensures { IsTrue result ↔ ((a.now.ration ≡ b.now.ration) × (a.now.burst ≡ b.now.burst)
        × (a.now.period ≡ b.now.period)) }
{
    a.ration == b.ration && a.burst == b.burst && a.period == b.period
}

fn is_same_energy(a: &Setup, b: &Setup) -> bool
    ensures { IsTrue result ↔ ((a.now.spinning_mj ≡ b.now.spinning_mj)
        × (a.now.parked_mj ≡ b.now.parked_mj) × (a.now.spinup_mj ≡ b.now.spinup_mj)) }
{
    a.spinning_mj == b.spinning_mj && a.parked_mj == b.parked_mj && a.spinup_mj == b.spinup_mj
}

fn is_same_mode(a: Mode, b: Mode) -> bool
    ensures { IsTrue result ↔ (a ≡ b) }
{
    a == b
}

fn are_same_windows(a: &[u16], b: &[u16]) -> bool
    ensures { IsTrue result ↔ (a.now ≡ b.now) }
{
    a == b
}

fn is_same_geometry(a: &Geometry, b: &Geometry) -> bool
    ensures { IsTrue result ↔ (a.now ≡ b.now) }
{
    a.disks == b.disks && a.rows == b.rows && are_same_flags(&a.gears, &b.gears)
}

fn are_same_flags(a: &[bool], b: &[bool]) -> bool
    ensures { IsTrue result ↔ (a.now ≡ b.now) }
{
    a == b
}
