//! The value of a cell, by the blocks that are stored.
ghost use Rattle.std.specs.Prelude.{◌≡◌, ◌≢◌, ◌<◌, ◌≤◌, ◌⊎◌, ℕ, OnOk, IfErr, Some, true, false};
ghost use Rattle.paraid_base.specs.Regions.{IsGear};
ghost use Rattle.paraid_base.specs.Soft.{stripe_count};
ghost use Rattle.paraid_base.specs.Sums.{without, xor_upto};
ghost use Rattle.paraid_base.specs.Xor.{xor};
ghost use Rattle.paraid_image.specs.Out.{named_out};
ghost use Rattle.paraid_image.specs.Spot.{View, is_hard as hard_in, rising_to};
ghost use Rattle.paraid_image.specs.Value.{reconstructed_value, soft_value, stored_value, stripe, value as value_of};
ghost use Rattle.paraid_scrub.specs.Looks.{IsReadable, KeepsView};

use crate::ending::Ending;
use crate::stored::Stored;
use paraid_base::{Block, DiskNo, Row};
use paraid_layout::{hard_place, soft_of, soft_place};
use paraid_parity::xor_into;

// Whether the value of a cell lives on its hard place.
fn is_hard<C: Stored>(core: &C, row: Row, disk: DiskNo) -> bool
    requires usable { C.usable core.now }
    requires row { row < (C.meta core.now).setup.geometry.rows }
    requires disk { disk < (C.meta core.now).setup.geometry.disks }
    ensures value { (v : View) → C.shows core.now v → result ≡ hard_in v row disk }
    ensures parked { result ≡ false → (C.meta core.now).gear ≤ disk }
    ensures powered { result ≡ true → (disk < (C.meta core.now).gear)
        ⊎ (disk < rising_to (C.meta core.now).phase) }
{
    let meta = core.meta();
    if disk < meta.gear {
        return true;
    }
    if disk >= meta.phase.rising_to() {
        return false;
    }
    !core.is_dirty(row, disk)
}

// Adds the block of a stripe that a disk stores to a sum, unless it is left out.
fn add_member<C: Stored>(
    core: &mut C,
    gear: u8,
    at: u32,
    skipped: DiskNo,
    disk: DiskNo,
    sum: &mut Block,
) -> Result<(), Ending>
    requires usable { C.usable core.old }
    requires gear { IsGear (C.meta core.old).setup.geometry gear }
    requires region { gear < (C.meta core.old).setup.geometry.disks }
    requires at { at < stripe_count (C.meta core.old).setup.geometry.disks
        (C.meta core.old).setup.geometry.rows gear }
    requires readable { disk ≢ skipped → IsReadable (C.meta core.old) disk }
    ensures shown { OnOk result (KeepsView C.meta C.usable C.tells C.shows C.leads core.old core.new
        (λ v. sum.new ≡ xor sum.old
        (without (stripe (C.meta core.old).setup.geometry v.block gear at) skipped disk))) }
    ensures lost { IfErr result (C.loses core.old core.new) }
{
    if disk == skipped {
        return Ok(());
    }
    let place = soft_place(&core.meta().setup.geometry, gear, at);
    let mut block = Block::zero();
    core.read_stored(disk, place, &mut block)?;
    xor_into(sum, &block);
    Ok(())
}

// The sum of the blocks of a stripe as they are stored, but for one that is left out.
pub(crate) fn sum_stripe<C: Stored>(
    core: &mut C,
    gear: u8,
    at: u32,
    skipped: DiskNo,
    into: &mut Block,
) -> Result<(), Ending>
    requires usable { C.usable core.old }
    requires gear { IsGear (C.meta core.old).setup.geometry gear }
    requires region { gear < (C.meta core.old).setup.geometry.disks }
    requires at { at < stripe_count (C.meta core.old).setup.geometry.disks
        (C.meta core.old).setup.geometry.rows gear }
    requires readable { (d : ℕ) → d < gear → d ≢ skipped → IsReadable (C.meta core.old) d }
    ensures shown { OnOk result (KeepsView C.meta C.usable C.tells C.shows C.leads core.old core.new
        (λ v. into.new ≡ xor_upto
        (without (stripe (C.meta core.old).setup.geometry v.block gear at) skipped) gear)) }
    ensures lost { IfErr result (C.loses core.old core.new) }
{
    *into = Block::zero();
    for disk in 0..gear {
        add_member(core, gear, at, skipped, disk, into)?;
    }
    Ok(())
}

// The copy of a cell, or where it is on the out disk the sum of the rest of its stripe.
fn read_soft<C: Stored>(
    core: &mut C,
    row: Row,
    disk: DiskNo,
    into: &mut Block,
) -> Result<(), Ending>
    requires usable { C.usable core.old }
    requires row { row < (C.meta core.old).setup.geometry.rows }
    requires disk { disk < (C.meta core.old).setup.geometry.disks }
    requires parked { (C.meta core.old).gear ≤ disk }
    ensures shown { OnOk result (KeepsView C.meta C.usable C.tells C.shows C.leads core.old core.new
        (λ v. into.new ≡ soft_value v row disk)) }
    ensures lost { IfErr result (C.loses core.old core.new) }
{
    let meta = core.meta();
    let (stripe, copy) = soft_of(&meta.setup.geometry, meta.gear, row, disk);
    if meta.out.names(copy) {
        return sum_stripe(core, meta.gear, stripe, copy, into);
    }
    let place = soft_place(&meta.setup.geometry, meta.gear, stripe);
    core.read_stored(copy, place, into)
}

// The value of a cell of a disk that is not out.
fn read_near<C: Stored>(
    core: &mut C,
    row: Row,
    disk: DiskNo,
    into: &mut Block,
) -> Result<(), Ending>
    requires usable { C.usable core.old }
    requires row { row < (C.meta core.old).setup.geometry.rows }
    requires disk { disk < (C.meta core.old).setup.geometry.disks }
    requires there { named_out (C.meta core.old).out ≢ Some disk }
    ensures shown { OnOk result (KeepsView C.meta C.usable C.tells C.shows C.leads core.old core.new
        (λ v. into.new ≡ stored_value v row disk)) }
    ensures lost { IfErr result (C.loses core.old core.new) }
{
    if !is_hard(core, row, disk) {
        return read_soft(core, row, disk, into);
    }
    let place = hard_place(&core.meta().setup.geometry, row);
    core.read_stored(disk, place, into)
}

// Adds the value of a cell to a sum, unless it is of the disk that is out.
fn add_near<C: Stored>(
    core: &mut C,
    row: Row,
    out: DiskNo,
    disk: DiskNo,
    sum: &mut Block,
) -> Result<(), Ending>
    requires usable { C.usable core.old }
    requires row { row < (C.meta core.old).setup.geometry.rows }
    requires disk { disk < (C.meta core.old).setup.geometry.disks }
    requires out { named_out (C.meta core.old).out ≡ Some out }
    ensures shown { OnOk result (KeepsView C.meta C.usable C.tells C.shows C.leads core.old core.new
        (λ v. sum.new ≡ xor sum.old (without (stored_value v row) out disk))) }
    ensures lost { IfErr result (C.loses core.old core.new) }
{
    if disk == out {
        return Ok(());
    }
    let mut block = Block::zero();
    read_near(core, row, disk, &mut block)?;
    xor_into(sum, &block);
    Ok(())
}

// The sum of the values of a row, but for that of the disk that is out.
fn read_far<C: Stored>(core: &mut C, row: Row, out: DiskNo, into: &mut Block) -> Result<(), Ending>
    requires usable { C.usable core.old }
    requires row { row < (C.meta core.old).setup.geometry.rows }
    requires out { named_out (C.meta core.old).out ≡ Some out }
    ensures shown { OnOk result (KeepsView C.meta C.usable C.tells C.shows C.leads core.old core.new
        (λ v. into.new ≡ reconstructed_value v row out)) }
    ensures lost { IfErr result (C.loses core.old core.new) }
{
    *into = Block::zero();
    let disks = core.meta().setup.geometry.disks();
    for disk in 0..disks {
        add_near(core, row, out, disk, into)?;
    }
    Ok(())
}

/// Reads the value of a cell, whichever disk is out.
pub(crate) fn read_value<C: Stored>(
    core: &mut C,
    row: Row,
    disk: DiskNo,
    into: &mut Block,
) -> Result<(), Ending>
    requires usable { C.usable core.old }
    requires row { row < (C.meta core.old).setup.geometry.rows }
    requires disk { disk < (C.meta core.old).setup.geometry.disks }
    ensures shown { OnOk result (KeepsView C.meta C.usable C.tells C.shows C.leads core.old core.new
        (λ v. into.new ≡ value_of v row disk)) }
    ensures lost { IfErr result (C.loses core.old core.new) }
{
    if !core.meta().out.names(disk) {
        return read_near(core, row, disk, into);
    }
    if is_hard(core, row, disk) {
        return read_far(core, row, disk, into);
    }
    read_soft(core, row, disk, into)
}
