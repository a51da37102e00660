//! Whether a row, a stripe or a block of the map is false.
ghost use Rattle.std.specs.Prelude.{◌≡◌, ◌≢◌, ◌<◌, ◌↔◌, ◌-◌, ℕ, IfOk, IfErr, OnOk, IsTrue};
ghost use Rattle.paraid_base.specs.Log.{map_block_place};
ghost use Rattle.paraid_base.specs.Regions.{IsGear, map_count};
ghost use Rattle.paraid_base.specs.Soft.{stripe_count};
ghost use Rattle.paraid_base.specs.Sums.{xor_upto};
ghost use Rattle.paraid_base.specs.Xor.{zero_block};
ghost use Rattle.paraid_image.specs.Standing.{other_log};
ghost use Rattle.paraid_image.specs.Value.{stripe, value};
ghost use Rattle.paraid_scrub.specs.Looks.{IsReadable, KeepsView};

use crate::ending::Ending;
use crate::stored::Stored;
use crate::value::{read_value, sum_stripe};
use paraid_base::{Block, DiskNo, MAP_START, Row};
use paraid_parity::{is_zero, xor_into};

// Whether two blocks differ.
pub(crate) fn differs(a: &mut Block, b: &Block) -> bool
    ensures { IsTrue result ↔ (a.old ≢ b.now) }
{
    xor_into(a, b);
    !is_zero(a)
}

// The sum of the values of a row.
fn sum_row<C: Stored>(core: &mut C, row: Row, into: &mut Block) -> Result<(), Ending>
    requires usable { C.usable core.old }
    requires row { row < (C.meta core.old).setup.geometry.rows }
    ensures shown { OnOk result (KeepsView C.meta C.usable C.tells C.shows C.leads core.old core.new
        (λ v. into.new ≡ xor_upto (value v row) (C.meta core.old).setup.geometry.disks)) }
    ensures lost { IfErr result (C.loses core.old core.new) }
{
    let disks = core.meta().setup.geometry.disks();
    *into = Block::zero();
    let mut block = Block::zero();
    for disk in 0..disks {
        read_value(core, row, disk, &mut block)?;
        xor_into(into, &block);
    }
    Ok(())
}

/// Whether the values of a row do not sum to zero.
pub(crate) fn is_row_off<C: Stored>(core: &mut C, row: Row) -> Result<bool, Ending>
    requires usable { C.usable core.old }
    requires row { row < (C.meta core.old).setup.geometry.rows }
    ensures shown { IfOk result (λ off.
        KeepsView C.meta C.usable C.tells C.shows C.leads core.old core.new (λ v. IsTrue off
        ↔ (xor_upto (value v row) (C.meta core.old).setup.geometry.disks ≢ zero_block))) }
    ensures lost { IfErr result (C.loses core.old core.new) }
{
    let mut sum = Block::zero();
    sum_row(core, row, &mut sum)?;
    Ok(!is_zero(&sum))
}

/// Whether the blocks of a stripe of this gear do not sum to zero.
pub(crate) fn is_stripe_off<C: Stored>(core: &mut C, gear: u8, at: u32) -> Result<bool, Ending>
    requires usable { C.usable core.old }
    requires gear { IsGear (C.meta core.old).setup.geometry gear }
    requires region { gear < (C.meta core.old).setup.geometry.disks }
    requires at { at < stripe_count (C.meta core.old).setup.geometry.disks
        (C.meta core.old).setup.geometry.rows gear }
    requires readable { (d : ℕ) → d < gear → IsReadable (C.meta core.old) d }
    ensures shown { IfOk result (λ off.
        KeepsView C.meta C.usable C.tells C.shows C.leads core.old core.new (λ v. IsTrue off
        ↔ (xor_upto (stripe (C.meta core.old).setup.geometry v.block gear at) gear ≢ zero_block))) }
    ensures lost { IfErr result (C.loses core.old core.new) }
{
    let mut sum = Block::zero();
    // no disk is left out
    sum_stripe(core, gear, at, gear, &mut sum)?;
    Ok(!is_zero(&sum))
}

/// Whether a log disk and the other one have different blocks of the map.
pub(crate) fn is_map_off<C: Stored>(core: &mut C, disk: DiskNo, at: u32) -> Result<bool, Ending>
    requires usable { C.usable core.old }
    requires disk { disk < 2 }
    requires readable { IsReadable (C.meta core.old) disk }
    requires other { IsReadable (C.meta core.old) (1 - disk) }
    requires at { at < map_count (C.meta core.old).setup.geometry }
    ensures shown { IfOk result (λ off. KeepsView C.meta C.usable C.tells C.shows C.leads core.old
        core.new (λ v. IsTrue off ↔ (v.block disk (map_block_place v.meta.setup.geometry at)
        ≢ v.block (other_log disk) (map_block_place v.meta.setup.geometry at)))) }
    ensures lost { IfErr result (C.loses core.old core.new) }
{
    let mut first = Block::zero();
    let mut second = Block::zero();
    core.read_stored(disk, MAP_START + at, &mut first)?;
    core.read_stored(1 - disk, MAP_START + at, &mut second)?;
    Ok(differs(&mut first, &second))
}
