//! What one log disk says: its gate, its meta, and the batch that is on its way.
ghost use Rattle.std.specs.Prelude.{◌≡◌, ◌≢◌, ◌<◌, ◌≤◌, true, false, [], length, Some, OnOk, IfOk, AllPairs, get_or, is_ok, ◌+◌};
ghost use Rattle.paraid_base.specs.Log.{batch_room, body_place};
ghost use Rattle.paraid_base.specs.Xor.{zero_block};
ghost use Rattle.paraid_rack.specs.declared.call.Power.TheVariants.{Spinning};
ghost use Rattle.paraid_rack.specs.Trail.{Trail, now};
ghost use Rattle.paraid_record.specs.Targets.{no_target, targets_of};
ghost use Rattle.paraid_recover.specs.HeardSides.{HasReadLog, IsHeard, IsInForm};
ghost use Rattle.paraid_image.specs.Sides.{AreBlocksLogged, is_open, stored_block, targets};

use crate::reads::read_place;
use paraid_base::{BATCH_META, Block, DiskNo, FIRST_BODY, FIRST_LIST, Failed, GATE, META};
use paraid_rack::Rack;
use paraid_record::{Meta, Target, Targets, read_meta, read_targets};
use paraid_txn::{Batch, opens};

/// What a log disk says, with its batch beside it.
#[derive(Clone, Copy)]
pub enum Heard {
    /// A closed gate over zeros.
    Blank,
    /// It is not well formed.
    Bad { gate_open: bool },
    Formed { gate_open: bool, meta: Meta },
}

// Whether a block is zeros.
fn is_zero(block: &Block) -> bool
    ensures yes { result ≡ true → block.now.bytes ≡ zero_block.bytes }
    ensures no { result ≡ false → block.now.bytes ≢ zero_block.bytes }
{
    block.as_slice() == Block::zero().as_slice()
}

// Under a closed gate.
fn hear_closed<R: Rack>(rack: &mut R, disk: DiskNo) -> Result<Heard, Failed>
    requires exists { disk < R.slot_count rack.old }
    requires spinning { (R.slot rack.old disk).power ≡ Spinning }
    requires shut { (t : Trail)
        → R.told rack.old ≡ Some t → is_open (stored_block (now t) disk 0) ≡ false }
    ensures reads { HasReadLog R.Rack disk 1 rack.old rack.new (is_ok result) }
    ensures heard { IfOk result (λ heard. (t : Trail) → R.told rack.new ≡ Some t
        → IsHeard (now t) disk heard []) }
    ensures form { IfOk result (λ heard. IsInForm (Some heard) []) }
{
    let mut block = Block::zero();
    read_place(rack, disk, META, &mut block)?;
    if let Some(meta) = read_meta(&block) {
        return Ok(Heard::Formed {
            gate_open: false,
            meta,
        });
    }
    if is_zero(&block) {
        return Ok(Heard::Blank);
    }
    Ok(Heard::Bad { gate_open: false })
}

// The target that stands there in the order.
fn target_at(places: &Targets, at: u8) -> Target
    requires low { at < places.now.count }
    requires few { places.now.count ≤ batch_room }
    ensures value { result ≡ get_or (targets_of places.now) at no_target }
    ensures list { places.now.count ≤ length places.now.list }
{
    places.list[at as usize]
}

// The blocks of the targets.
fn hear_body<R: Rack>(
    rack: &mut R,
    disk: DiskNo,
    places: &Targets,
    batch: &mut Batch,
) -> Result<(), Failed>
    requires exists { disk < R.slot_count rack.old }
    requires spinning { (R.slot rack.old disk).power ≡ Spinning }
    requires empty { batch.old ≡ [] }
    requires few { places.now.count ≤ batch_room }
    requires distinct { AllPairs (λ a b. a ≢ b) (targets_of places.now) }
    ensures reads { HasReadLog R.Rack disk batch_room rack.old rack.new (is_ok result) }
    ensures named { OnOk result (targets batch.new ≡ targets_of places.now) }
    ensures logged { OnOk result ((t : Trail) → R.told rack.new ≡ Some t
        → AreBlocksLogged (stored_block (now t) disk) (body_place 0) batch.new) }
{
    let mut block = Block::zero();
    for at in 0..places.count {
        read_place(rack, disk, FIRST_BODY + u32::from(at), &mut block)?;
        let target = target_at(places, at);
        if let Err(_full) = batch.add(target.disk, target.place, &block) {
            return Err(Failed); // never, as there is room
        }
    }
    Ok(())
}

// Under an open gate.
fn hear_open<R: Rack>(rack: &mut R, disk: DiskNo, batch: &mut Batch) -> Result<Heard, Failed>
    requires exists { disk < R.slot_count rack.old }
    requires spinning { (R.slot rack.old disk).power ≡ Spinning }
    requires empty { batch.old ≡ [] }
    requires opened { (t : Trail)
        → R.told rack.old ≡ Some t → is_open (stored_block (now t) disk 0) ≡ true }
    ensures reads { HasReadLog R.Rack disk (batch_room + 2) rack.old rack.new (is_ok result) }
    ensures heard { IfOk result (λ heard. (t : Trail) → R.told rack.new ≡ Some t
        → IsHeard (now t) disk heard batch.new) }
    ensures form { IfOk result (λ heard. IsInForm (Some heard) batch.new) }
{
    let mut block = Block::zero();
    let mut list = Block::zero();
    read_place(rack, disk, BATCH_META, &mut block)?;
    read_place(rack, disk, FIRST_LIST, &mut list)?;
    let Some(meta) = read_meta(&block) else {
        return Ok(Heard::Bad { gate_open: true });
    };
    let Some(targets) = read_targets(&list, &meta.setup.geometry) else {
        return Ok(Heard::Bad { gate_open: true });
    };
    hear_body(rack, disk, &targets, batch)?;
    Ok(Heard::Formed {
        gate_open: true,
        meta,
    })
}

/// Reads what a log disk says, its batch into an empty one. After a failure the batch holds
/// anything.
pub fn hear<R: Rack>(rack: &mut R, disk: DiskNo, batch: &mut Batch) -> Result<Heard, Failed>
    requires exists { disk < R.slot_count rack.old }
    requires spinning { (R.slot rack.old disk).power ≡ Spinning }
    requires empty { batch.old ≡ [] }
    ensures reads { HasReadLog R.Rack disk (batch_room + 3) rack.old rack.new (is_ok result) }
    ensures heard { IfOk result (λ heard. (t : Trail) → R.told rack.new ≡ Some t
        → IsHeard (now t) disk heard batch.new) }
    ensures form { IfOk result (λ heard. IsInForm (Some heard) batch.new) }
{
    let mut gate = Block::zero();
    read_place(rack, disk, GATE, &mut gate)?;
    if opens(&gate) {
        return hear_open(rack, disk, batch);
    }
    hear_closed(rack, disk)
}
