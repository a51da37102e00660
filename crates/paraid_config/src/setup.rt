//! The setup that a table says.

ghost use Rattle.std.specs.Prelude.{◌≡◌, None, IfOk, IfErr, OnOk};
ghost use Rattle.toml.specs.View.{table_view};
ghost use Rattle.paraid_record.specs.Range.{IsSetupInRange};
ghost use Rattle.paraid_config.specs.Config.{document_fault, IsDocumentFault, IsSetupOf};
ghost use Rattle.paraid_config.specs.Parts.{shape_faults, pace_faults, wear_faults, energy_faults, IsFirstFault, IsShapeOf, IsPaceOf, IsWearOf, AreEnergiesOf};

use crate::list::{gears, windows};
use crate::number::{burst, mode, number, period};
use crate::unknown::first_unknown;
use crate::{ConfigFault, Key};
use paraid_base::Geometry;
use paraid_record::{Mode, Setup};
use std::alloc::Global;
use toml::Table;

/// What an array is made of.
#[derive(Drop)]
struct Shape {
    disks: u8,
    rows: u32,
    gears: Vec<u8>,
}

/// How it reads, moves and is loaded.
#[derive(Clone, Copy)]
struct Pace {
    mode: Mode,
    rate: u32,
    service: u32,
    up: u8,
    down: u8,
}

/// What it goes by and may use up.
#[derive(Clone, Copy)]
struct Wear {
    windows: [u16; 3],
    ration: u16,
    burst: u16,
    period: u32,
}

/// What a disk uses.
#[derive(Clone, Copy)]
struct Energies {
    spinning_mj: u32,
    parked_mj: u32,
    spinup_mj: u32,
}

fn shape_of(alloc: Global, table: &Table) -> Result<Shape, ConfigFault>
    ensures ok { IfOk result (IsShapeOf (table_view table.now)) }
    ensures err { IfErr result (IsFirstFault (shape_faults (table_view table.now))) }
{
    let disks = number(table, Key::Disks)? as u8;
    let rows = number(table, Key::Rows)?;
    let gears = gears(alloc, table)?;
    Ok(Shape { disks, rows, gears })
}

fn pace_of(table: &Table) -> Result<Pace, ConfigFault>
    ensures ok { IfOk result (IsPaceOf (table_view table.now)) }
    ensures err { IfErr result (IsFirstFault (pace_faults (table_view table.now))) }
{
    let mode = mode(table)?;
    let rate = number(table, Key::Rate)?;
    let service = number(table, Key::Service)?;
    let up = number(table, Key::Up)? as u8;
    let down = number(table, Key::Down)? as u8;
    Ok(Pace {
        mode,
        rate,
        service,
        up,
        down,
    })
}

fn wear_of(alloc: Global, table: &Table) -> Result<Wear, ConfigFault>
    ensures ok { IfOk result (IsWearOf (table_view table.now)) }
    ensures err { IfErr result (IsFirstFault (wear_faults (table_view table.now))) }
{
    let windows = windows(alloc, table)?;
    let ration = number(table, Key::Ration)? as u16;
    let burst = burst(table, ration)?;
    let period = period(table)?;
    Ok(Wear {
        windows,
        ration,
        burst,
        period,
    })
}

fn energies_of(table: &Table) -> Result<Energies, ConfigFault>
    ensures ok { IfOk result (AreEnergiesOf (table_view table.now)) }
    ensures err { IfErr result (IsFirstFault (energy_faults (table_view table.now))) }
{
    let spinning_mj = number(table, Key::SpinningMj)?;
    let parked_mj = number(table, Key::ParkedMj)?;
    let spinup_mj = number(table, Key::SpinupMj)?;
    Ok(Energies {
        spinning_mj,
        parked_mj,
        spinup_mj,
    })
}

/// The setup that a table says.
///
/// It is refused by the first cause in this order: a key that is not known, then for each key in
/// the order of `Key` a missing value, one of another kind or one out of range, and last the
/// geometry. Want of memory may come at any list.
pub fn setup_of(alloc: Global, table: &Table) -> Result<Setup, ConfigFault>
    ensures ok { IfOk result (IsSetupOf (table_view table.now)) }
    ensures range { IfOk result IsSetupInRange }
    ensures accepted { OnOk result (document_fault (table_view table.now) ≡ None) }
    ensures err { IfErr result (IsDocumentFault (table_view table.now)) }
{
    if let Some(at) = first_unknown(table) {
        return Err(ConfigFault::Unknown { at });
    }
    let Shape { disks, rows, gears } = shape_of(alloc, table)?;
    let pace = pace_of(table)?;
    let wear = wear_of(alloc, table)?;
    let energies = energies_of(table)?;
    let windows = wear.windows;
    match Geometry::new(disks, rows, &gears) {
        Ok(geometry) => Ok(Setup {
            geometry,
            mode: pace.mode,
            rate: pace.rate,
            service: pace.service,
            up: pace.up,
            down: pace.down,
            windows,
            ration: wear.ration,
            burst: wear.burst,
            period: wear.period,
            spinning_mj: energies.spinning_mj,
            parked_mj: energies.parked_mj,
            spinup_mj: energies.spinup_mj,
        }),
        Err(fault) => Err(ConfigFault::Geometry(fault)),
    }
}
