//! Reads a meta: each field once, in the order of the block.
//!
//! What was read is spelled again and compared with the block, so that a block is read only if it
//! is the spelling of a meta in range.

ghost use Rattle.std.specs.Prelude.{◌≡◌, ◌≢◌, ℕ, ◌+◌, ◌≤◌, ◌<◌, ◌↔◌, ◌++◌, List, length, Some, None, IfSome, IfNone, IsTrue};
ghost use Rattle.paraid_base.specs.declared.geometry.Geometry.{Geometry as GeometryType};
ghost use Rattle.paraid_record.specs.declared.meta.Meta.{Meta as MetaType};
ghost use Rattle.paraid_record.specs.declared.meta.Setup.{Setup as SetupType};
ghost use Rattle.paraid_record.specs.Codes.{burst_code, period_code};
ghost use Rattle.paraid_record.specs.Spelling.{big_endian};
ghost use Rattle.paraid_record.specs.Meta.{clock_bytes, count_bytes, energy_bytes, geometry_bytes, growth_bytes, heading_bytes, meta_bytes, policy_bytes, state_bytes};
ghost use Rattle.paraid_record.specs.Range.{IsInRange, IsSetupInRange, IsVersionInRange, Within};

use crate::codes::{mode_of, out_of, phase_of};
use crate::reader::Reader;
use crate::write::{GAP, MAGIC, write_meta};
use crate::{Meta, Setup};
use paraid_base::{Block, Geometry};

/// The meta in range that a block spells, if it spells one.
pub fn read_meta(block: &Block) -> Option<Meta>
    ensures some { IfSome result (λ m. IsInRange m × (block.now.bytes ≡ meta_bytes m)) }
    ensures value { (m : MetaType) → IsInRange m → block.now.bytes ≡ meta_bytes m
        → result ≡ Some m }
    ensures none { IfNone result ((m : MetaType) → IsInRange m → block.now.bytes ≢ meta_bytes m) }
{
    let meta = take_meta(&mut Reader::new(block.as_slice()))?;
    if meta.is_in_range() && is_spelling(&meta, block) {
        Some(meta)
    } else {
        None
    }
}

fn is_spelling(meta: &Meta, block: &Block) -> bool
    requires { IsInRange meta.now }
    ensures { IsTrue result ↔ (block.now.bytes ≡ meta_bytes meta.now) }
{
    let mut spelling = Block::zero();
    write_meta(meta, &mut spelling);
    block.as_slice() == spelling.as_slice()
}

fn take_meta(reader: &mut Reader) -> Option<Meta>
    requires { 118 ≤ length reader.old }
    ensures { (m : MetaType) (rest : List ℕ) → IsInRange m
        → reader.old ≡ heading_bytes m.version ++ (geometry_bytes m.setup.geometry
        ++ (policy_bytes m.setup ++ (clock_bytes m ++ (state_bytes m ++ (count_bytes m
        ++ (energy_bytes m.setup ++ (growth_bytes m.version m.setup ++ rest)))))))
        → result ≡ Some m }
{
    let version = take_heading(reader)?;
    let geometry = take_geometry(reader)?;
    let setup = take_policy(reader, geometry)?;
    let mut meta = take_state(reader, version, setup)?;
    meta.setup.spinning_mj = reader.take_u32();
    meta.setup.parked_mj = reader.take_u32();
    meta.setup.spinup_mj = reader.take_u32();
    meta.setup.burst = take_burst(reader, version, meta.setup.ration);
    meta.setup.period = take_period(reader, version);
    Some(meta)
}

// Passes over the text, which is compared with the whole spelling, and takes the version.
fn take_heading(reader: &mut Reader) -> Option<u8>
    requires { 10 ≤ length reader.old }
    ensures reads { (version : ℕ) (rest : List ℕ) → Within 1 2 version
        → reader.old ≡ heading_bytes version ++ rest
        → (result ≡ Some version) × (reader.new ≡ rest) }
    ensures length { length reader.new + 10 ≡ length reader.old }
{
    reader.skip(MAGIC.len());
    let version = reader.take_u16();
    if version > 2 {
        return None;
    }
    Some(version as u8)
}

// Takes the burst, which is the ration in version 1.
fn take_burst(reader: &mut Reader, version: u8, ration: u16) -> u16
    requires { 2 ≤ length reader.old }
    ensures reads { (s : SetupType) (rest : List ℕ) → IsVersionInRange version s
        → s.burst < 65536 → s.ration ≡ ration
        → reader.old ≡ big_endian 2 (burst_code version s) ++ rest
        → (result ≡ s.burst) × (reader.new ≡ rest) }
    ensures length { length reader.new + 2 ≡ length reader.old }
{
    let burst = reader.take_u16();
    if version > 1 { burst } else { ration }
}

// Takes the period, which is 1 in version 1.
fn take_period(reader: &mut Reader, version: u8) -> u32
    requires { 4 ≤ length reader.old }
    ensures reads { (s : SetupType) (rest : List ℕ) → IsVersionInRange version s
        → s.period < 4294967296
        → reader.old ≡ big_endian 4 (period_code version s) ++ rest
        → (result ≡ s.period) × (reader.new ≡ rest) }
    ensures length { length reader.new + 4 ≡ length reader.old }
{
    let period = reader.take_u32();
    if version > 1 { period } else { 1 }
}

fn take_geometry(reader: &mut Reader) -> Option<Geometry>
    requires { 14 ≤ length reader.old }
    ensures reads { (g : GeometryType) (rest : List ℕ) → reader.old ≡ geometry_bytes g ++ rest
        → (result ≡ Some g) × (reader.new ≡ rest) }
    ensures length { length reader.new + 14 ≡ length reader.old }
{
    let disks = reader.take_u8();
    let count = reader.take_u8() as usize;
    let gears = reader.take_eight();
    let rows = reader.take_u32();
    if count > 8 {
        return None;
    }
    Geometry::new(disks, rows, &gears[..count]).ok()
}

// Takes what a setup says but its energy figures, the burst and the period, which stand further
// on.
fn take_policy(reader: &mut Reader, geometry: Geometry) -> Option<Setup>
    requires { 20 ≤ length reader.old }
    ensures reads { (s : SetupType) (rest : List ℕ)
        → IsSetupInRange s → s.geometry ≡ geometry → reader.old ≡ policy_bytes s ++ rest → (result
        ≡ Some (record s { burst = 0; period = 0; spinning_mj = 0; parked_mj = 0; spinup_mj = 0 }))
        × (reader.new ≡ rest) }
    ensures length { length reader.new + 20 ≡ length reader.old }
{
    let rate = reader.take_u32();
    let service = reader.take_u32();
    let up = reader.take_u8();
    let down = reader.take_u8();
    let mode = reader.take_u8();
    // (the windows tell it again, and the whole block is spelled anew and compared)
    let _count = reader.take_u8();
    let mut windows = [0; 3];
    reader.take_shorts(&mut windows);
    let ration = reader.take_u16();
    Some(Setup {
        geometry,
        mode: mode_of(mode)?,
        rate,
        service,
        up,
        down,
        windows,
        ration,
        burst: 0,
        period: 0,
        spinning_mj: 0,
        parked_mj: 0,
        spinup_mj: 0,
    })
}

// Takes the state of an array with this setup, in this version.
fn take_state(reader: &mut Reader, version: u8, setup: Setup) -> Option<Meta>
    requires { 56 ≤ length reader.old }
    ensures reads { (m : MetaType) (rest : List ℕ) → IsInRange m
        → reader.old ≡ clock_bytes m ++ (state_bytes m ++ (count_bytes m ++ rest))
        → (result ≡ Some (record m { setup = setup; version = version })) × (reader.new ≡ rest) }
    ensures length { length reader.new + 56 ≡ length reader.old }
{
    let epoch = reader.take_u64();
    let writes = reader.take_u64();
    let ticks = reader.take_u64();
    let gear = reader.take_u8();
    let code = reader.take_u8();
    let to = reader.take_u8();
    let disk = reader.take_u8();
    let fresh = reader.take_u8();
    reader.skip(GAP.len());
    let fill = reader.take_u32();
    let rebuilt = reader.take_u32();
    let mut spins = [0; 8];
    reader.take_shorts(&mut spins);
    Some(Meta {
        setup,
        version,
        epoch,
        writes,
        ticks,
        gear,
        phase: phase_of(code, to)?,
        fill,
        out: out_of(disk, fresh, rebuilt),
        spins,
    })
}
