//! Whether a unit that a rebuild has brought back is false.
ghost use Rattle.std.specs.Prelude.{◌≡◌, ◌≢◌, ◌<◌, ◌≤◌, ◌↔◌, ℕ, IfOk, IfErr, IsTrue, true, false, if◌then◌else◌, nat_lt};
ghost use Rattle.paraid_base.specs.declared.state.Out.TheVariants.{Fresh};
ghost use Rattle.paraid_base.specs.Regions.{IsGear, hard_place_of};
ghost use Rattle.paraid_base.specs.Soft.{stripe_count};
ghost use Rattle.paraid_base.specs.States.{rebuilt_count};
ghost use Rattle.paraid_image.specs.Spot.{View};
ghost use Rattle.paraid_image.specs.Value.{stripe, stripe_rest, value};
ghost use Rattle.paraid_scrub.specs.Counts.{IsUnitRight};
ghost use Rattle.paraid_scrub.specs.Looks.{IsReadable, KeepsView};

use crate::ending::Ending;
use crate::member::{differs, is_map_off, is_stripe_off};
use crate::stored::Stored;
use crate::value::read_value;
use paraid_base::{Block, DiskNo, Row};
use paraid_layout::hard_place;
use paraid_record::Meta;

// Whether a cell is a dirty one of a parked disk, which is stored nowhere but in its copy.
fn is_copy_alone<C: Stored>(core: &C, disk: DiskNo, row: Row) -> bool
    requires usable { C.usable core.now }
    requires row { row < (C.meta core.now).setup.geometry.rows }
    requires disk { disk < (C.meta core.now).setup.geometry.disks }
    ensures alone { result ≡ true → (v : View) → C.shows core.now v
        → ((C.meta core.now).gear ≤ disk) × (v.dirty row disk ≡ true) }
    ensures stored { result ≡ false → (v : View) → C.shows core.now v
        → (C.meta core.now).gear ≤ disk → v.dirty row disk ≡ false }
{
    if disk < core.meta().gear {
        return false;
    }
    core.is_dirty(row, disk)
}

// Whether the block of a row on the disk that is rebuilt is not the cell's value.
fn is_rebuilt_row_off<C: Stored>(core: &mut C, disk: DiskNo, row: Row) -> Result<bool, Ending>
    requires usable { C.usable core.old }
    requires row { row < (C.meta core.old).setup.geometry.rows }
    requires disk { disk < (C.meta core.old).setup.geometry.disks }
    requires readable { IsReadable (C.meta core.old) disk }
    ensures shown { IfOk result (λ off.
        KeepsView C.meta C.usable C.tells C.shows C.leads core.old core.new (λ v. IsTrue off
        ↔ ((((C.meta core.old).gear ≤ disk → v.dirty row disk ≡ false) → v.block disk
        (hard_place_of (C.meta core.old).setup.geometry row) ≡ value v row disk) → ⊥))) }
    ensures lost { IfErr result (C.loses core.old core.new) }
{
    if is_copy_alone(core, disk, row) {
        return Ok(false);
    }
    let place = hard_place(&core.meta().setup.geometry, row);
    let mut stored = Block::zero();
    let mut value = Block::zero();
    core.read_stored(disk, place, &mut stored)?;
    read_value(core, row, disk, &mut value)?;
    Ok(differs(&mut stored, &value))
}

// Whether the block of a stripe on the disk that is rebuilt is not the sum of the stripe's other
// blocks.
fn is_rebuilt_stripe_off<C: Stored>(core: &mut C, disk: DiskNo, at: u32) -> Result<bool, Ending>
    requires usable { C.usable core.old }
    requires below { disk < (C.meta core.old).gear }
    requires at { at < stripe_count (C.meta core.old).setup.geometry.disks
        (C.meta core.old).setup.geometry.rows (C.meta core.old).gear }
    requires readable { (d : ℕ) → d < (C.meta core.old).gear → IsReadable (C.meta core.old) d }
    ensures shown { IfOk result (λ off.
        KeepsView C.meta C.usable C.tells C.shows C.leads core.old core.new (λ v. IsTrue off
        ↔ (stripe (C.meta core.old).setup.geometry v.block (C.meta core.old).gear at disk
        ≢ stripe_rest (C.meta core.old).setup.geometry v.block (C.meta core.old).gear at disk))) }
    ensures lost { IfErr result (C.loses core.old core.new) }
{
    let gear = core.meta().gear;
    is_stripe_off(core, gear, at)
}

// How many stripes a disk has to get back.
fn stripes_of(meta: &Meta, disk: DiskNo) -> u32
    requires { IsGear meta.now.setup.geometry meta.now.gear }
    ensures { result ≡ (if nat_lt disk meta.now.gear then stripe_count
        meta.now.setup.geometry.disks meta.now.setup.geometry.rows meta.now.gear else 0) }
{
    if disk < meta.gear {
        return meta.setup.geometry.stripes(meta.gear);
    }
    0
}

/// Whether unit `at` of the disk that is rebuilt does not store what the rest gives: a row, then a
/// stripe, then a block of the map.
pub(crate) fn is_unit_off<C: Stored>(core: &mut C, disk: DiskNo, at: u32) -> Result<bool, Ending>
    requires usable { C.usable core.old }
    requires fresh { (C.meta core.old).out ≡ Fresh disk (rebuilt_count (C.meta core.old).out) }
    requires at { at < rebuilt_count (C.meta core.old).out }
    ensures shown { IfOk result (λ off. KeepsView C.meta C.usable
        C.tells C.shows C.leads core.old core.new (λ v. IsTrue off ↔ (IsUnitRight v disk at → ⊥))) }
    ensures lost { IfErr result (C.loses core.old core.new) }
{
    let meta = core.meta();
    let rows = meta.setup.geometry.rows();
    if at < rows {
        return is_rebuilt_row_off(core, disk, at);
    }
    let stripes = stripes_of(&meta, disk);
    let past = at - rows;
    if past < stripes {
        return is_rebuilt_stripe_off(core, disk, past);
    }
    is_map_off(core, disk, past - stripes)
}
