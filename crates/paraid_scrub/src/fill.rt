//! Whether a stripe that a shift has filled is false.
ghost use Rattle.std.specs.Prelude.{◌≡◌, ◌<◌, ◌↔◌, ◌⊎◌, ℕ, IfOk, IfErr, IsTrue};
ghost use Rattle.paraid_base.specs.Regions.{IsGear};
ghost use Rattle.paraid_base.specs.Soft.{stripe_count};
ghost use Rattle.paraid_base.specs.Xor.{xor};
ghost use Rattle.paraid_image.specs.Value.{stripe};
ghost use Rattle.paraid_scrub.specs.Counts.{IsCopyRight, IsFillRight};
ghost use Rattle.paraid_scrub.specs.Looks.{IsReadable, KeepsView};

use crate::ending::Ending;
use crate::member::differs;
use crate::stored::Stored;
use crate::value::read_value;
use paraid_base::{Block, DiskNo};
use paraid_layout::{cell_at, index_among, soft_parity, soft_place};
use paraid_parity::{is_zero, xor_into};

fn either(a: bool, b: bool) -> bool
    ensures { IsTrue result ↔ (IsTrue a ⊎ IsTrue b) }
{
    a || b
}

// Whether the block that a disk stores of a stripe of this gear is not the value of the cell whose
// copy it is.
fn is_copy_off<C: Stored>(
    core: &mut C,
    gear: u8,
    at: u32,
    disk: DiskNo,
    stored: &Block,
) -> Result<bool, Ending>
    requires usable { C.usable core.old }
    requires gear { IsGear (C.meta core.old).setup.geometry gear }
    requires region { gear < (C.meta core.old).setup.geometry.disks }
    requires at { at < stripe_count (C.meta core.old).setup.geometry.disks
        (C.meta core.old).setup.geometry.rows gear }
    requires disk { disk < gear }
    ensures shown { IfOk result (λ off. KeepsView C.meta C.usable C.tells C.shows C.leads core.old
        core.new (λ v. stored.now ≡ stripe (C.meta core.old).setup.geometry v.block gear at disk
        → (IsTrue off ↔ (IsCopyRight v gear at disk → ⊥)))) }
    ensures lost { IfErr result (C.loses core.old core.new) }
{
    let g = core.meta().setup.geometry;
    let parity = soft_parity(&g, gear, at);
    if disk == parity {
        return Ok(false);
    }
    let Some((row, home)) = cell_at(&g, gear, at, index_among(parity, disk, gear)) else {
        return Ok(false);
    };
    let mut value = Block::zero();
    read_value(core, row, home, &mut value)?;
    Ok(differs(&mut value, stored))
}

// Looks at the block that a disk stores of a stripe of this gear, and adds it to a sum.
fn look_at_copy<C: Stored>(
    core: &mut C,
    gear: u8,
    at: u32,
    disk: DiskNo,
    sum: &mut Block,
) -> Result<bool, Ending>
    requires usable { C.usable core.old }
    requires gear { IsGear (C.meta core.old).setup.geometry gear }
    requires region { gear < (C.meta core.old).setup.geometry.disks }
    requires at { at < stripe_count (C.meta core.old).setup.geometry.disks
        (C.meta core.old).setup.geometry.rows gear }
    requires disk { disk < gear }
    requires readable { IsReadable (C.meta core.old) disk }
    ensures shown { IfOk result (λ off.
        KeepsView C.meta C.usable C.tells C.shows C.leads core.old core.new (λ v.
        (sum.new ≡ xor sum.old (stripe (C.meta core.old).setup.geometry v.block gear at disk))
        × (IsTrue off ↔ (IsCopyRight v gear at disk → ⊥)))) }
    ensures lost { IfErr result (C.loses core.old core.new) }
{
    let place = soft_place(&core.meta().setup.geometry, gear, at);
    let mut stored = Block::zero();
    core.read_stored(disk, place, &mut stored)?;
    xor_into(sum, &stored);
    is_copy_off(core, gear, at, disk, &stored)
}

/// Whether a stripe of the region of this gear does not store the values of its cells, or does not
/// sum to zero.
pub(crate) fn is_fill_off<C: Stored>(core: &mut C, gear: u8, at: u32) -> Result<bool, Ending>
    requires usable { C.usable core.old }
    requires gear { IsGear (C.meta core.old).setup.geometry gear }
    requires region { gear < (C.meta core.old).setup.geometry.disks }
    requires at { at < stripe_count (C.meta core.old).setup.geometry.disks
        (C.meta core.old).setup.geometry.rows gear }
    requires readable { (d : ℕ) → d < gear → IsReadable (C.meta core.old) d }
    ensures shown { IfOk result (λ off. KeepsView C.meta C.usable
        C.tells C.shows C.leads core.old core.new (λ v. IsTrue off ↔ (IsFillRight v gear at → ⊥))) }
    ensures lost { IfErr result (C.loses core.old core.new) }
{
    let mut sum = Block::zero();
    let mut off = false;
    for disk in 0..gear {
        off = either(off, look_at_copy(core, gear, at, disk, &mut sum)?);
    }
    Ok(either(off, !is_zero(&sum)))
}
