//! Writes a meta: each field once, in the order of the block.

ghost use Rattle.std.specs.Prelude.{◌≡◌, ◌+◌, ◌*◌, ◌≤◌, ◌++◌, length};
ghost use Rattle.paraid_record.specs.Meta.{clock_bytes, count_bytes, energy_bytes, geometry_bytes, growth_bytes, heading_bytes, meta_bytes, policy_bytes, state_bytes};
ghost use Rattle.paraid_record.specs.Range.{IsInRange};
ghost use Rattle.paraid_record.specs.Spelling.{shorts};

use crate::codes::{
    burst_code, fresh_code, gear_list, mode_code, out_code, period_code, phase_code, window_count,
};
use crate::pen::Pen;
use crate::{Meta, Setup};
use paraid_base::{Block, Geometry};

/// The first bytes of a meta.
pub const MAGIC: [u8; 8] = *b"PARAIDAR";

/// The bytes between the flag of a fresh disk and the fill mark, which say nothing.
pub const GAP: [u8; 3] = [0; 3];

/// Writes the one spelling of a meta, 512 bytes.
pub fn write_meta(meta: &Meta, into: &mut Block)
    requires { IsInRange meta.now }
    ensures { into.new.bytes ≡ meta_bytes meta.now }
{
    let mut pen = Pen::new();
    put_heading(&mut pen, meta.version);
    put_geometry(&mut pen, &meta.setup.geometry);
    put_policy(&mut pen, &meta.setup);
    put_clocks(&mut pen, meta);
    put_state(&mut pen, meta);
    put_counts(&mut pen, meta);
    put_energy(&mut pen, &meta.setup);
    put_growth(&mut pen, meta.version, &meta.setup);
    pen.finish(into);
}

fn put_heading(pen: &mut Pen, version: u8)
    requires { length pen.old + 10 ≤ 512 }
    ensures value { pen.new ≡ pen.old ++ heading_bytes version }
    ensures length { length pen.new ≡ length pen.old + 10 }
{
    pen.put_bytes(&MAGIC);
    pen.put_u16(version as u16);
}

fn put_geometry(pen: &mut Pen, geometry: &Geometry)
    requires { length pen.old + 14 ≤ 512 }
    ensures value { pen.new ≡ pen.old ++ geometry_bytes geometry.now }
    ensures length { length pen.new ≡ length pen.old + 14 }
{
    let (gears, count) = gear_list(geometry);
    pen.put_u8(geometry.disks);
    pen.put_u8(count);
    pen.put_bytes(&gears);
    pen.put_u32(geometry.rows);
}

fn put_policy(pen: &mut Pen, setup: &Setup)
    requires { length pen.old + 20 ≤ 512 }
    ensures value { pen.new ≡ pen.old ++ policy_bytes setup.now }
    ensures length { length pen.new ≡ length pen.old + 20 }
{
    pen.put_u32(setup.rate);
    pen.put_u32(setup.service);
    pen.put_u8(setup.up);
    pen.put_u8(setup.down);
    pen.put_u8(mode_code(setup.mode));
    pen.put_u8(window_count(&setup.windows));
    put_shorts(pen, &setup.windows);
    pen.put_u16(setup.ration);
}

fn put_clocks(pen: &mut Pen, meta: &Meta)
    requires { length pen.old + 24 ≤ 512 }
    ensures value { pen.new ≡ pen.old ++ clock_bytes meta.now }
    ensures length { length pen.new ≡ length pen.old + 24 }
{
    pen.put_u64(meta.epoch);
    pen.put_u64(meta.writes);
    pen.put_u64(meta.ticks);
}

fn put_state(pen: &mut Pen, meta: &Meta)
    requires { length pen.old + 8 ≤ 512 }
    ensures value { pen.new ≡ pen.old ++ state_bytes meta.now }
    ensures length { length pen.new ≡ length pen.old + 8 }
{
    pen.put_u8(meta.gear);
    pen.put_u8(phase_code(meta.phase));
    pen.put_u8(meta.phase.to());
    pen.put_u8(out_code(meta.out));
    pen.put_u8(fresh_code(meta.out));
    pen.put_bytes(&GAP);
}

fn put_counts(pen: &mut Pen, meta: &Meta)
    requires { length pen.old + 24 ≤ 512 }
    ensures value { pen.new ≡ pen.old ++ count_bytes meta.now }
    ensures length { length pen.new ≡ length pen.old + 24 }
{
    pen.put_u32(meta.fill);
    pen.put_u32(meta.out.rebuilt());
    put_shorts(pen, &meta.spins);
}

fn put_energy(pen: &mut Pen, setup: &Setup)
    requires { length pen.old + 12 ≤ 512 }
    ensures value { pen.new ≡ pen.old ++ energy_bytes setup.now }
    ensures length { length pen.new ≡ length pen.old + 12 }
{
    pen.put_u32(setup.spinning_mj);
    pen.put_u32(setup.parked_mj);
    pen.put_u32(setup.spinup_mj);
}

fn put_growth(pen: &mut Pen, version: u8, setup: &Setup)
    requires { length pen.old + 6 ≤ 512 }
    ensures value { pen.new ≡ pen.old ++ growth_bytes version setup.now }
    ensures length { length pen.new ≡ length pen.old + 6 }
{
    pen.put_u16(burst_code(version, setup));
    pen.put_u32(period_code(version, setup));
}

fn put_shorts(pen: &mut Pen, values: &[u16])
    requires { length pen.old + 2 * length values.now ≤ 512 }
    ensures value { pen.new ≡ pen.old ++ shorts values.now }
    ensures length { length pen.new ≡ length pen.old + 2 * length values.now }
{
    for value in values {
        pen.put_u16(*value);
    }
}
