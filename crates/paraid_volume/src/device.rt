//! Reading a table from a device.
ghost use Rattle.std.specs.Prelude.{◌≡◌, ◌≢◌, ℕ, ◌<◌, ◌≤◌, ◌+◌, ◌-◌, ◌*◌, ◌^◌, ◌++◌, ◌∷◌, [], ◌==◌, None, All, IsTrue, IfErr, OnOk, if◌then◌else◌};
ghost use Rattle.std.specs.List.{range_with_len};
ghost use Rattle.paraid_base.specs.declared.event.Answer.TheVariants.{Value, Wrote, Halted};
ghost use Rattle.paraid_base.specs.declared.event.Event.TheVariants.{Read, Write};
ghost use Rattle.paraid_base.specs.BlockAnswers.{Answers};
ghost use Rattle.paraid_base.specs.declared.block.Block.{Block as BlockType};
ghost use Rattle.paraid_base.specs.Pairs.{pairs_of};
ghost use Rattle.paraid_base.specs.History.{History, after_all};
ghost use Rattle.paraid_volume.specs.Device.{DeviceGoesOn, DeviceHolds, SinceHistory, KeepsHistories, KeepsMore, IsReadEvent, IsWriteEvent, Clears, Between, InExtent, OfExtent, halt_in};
ghost use Rattle.paraid_volume.specs.Laid.{MakesTable};
ghost use Rattle.paraid_volume.specs.TableBlocks.{in_table};
ghost use Rattle.paraid_volume.specs.TableCalls.{AreHaltedReads, AreOfCreate, AreZerosTo, KeepsThen, owned_blocks, table_reads};
ghost use Rattle.paraid_volume.specs.Tables.{IsSameTable, owner_in};

use crate::table::Table;
use paraid_base::{Block, BlockFault, Halt, Pairs};
use paraid_blocks::Blocks;

// Reads one block of a table.
fn read_block<B: Blocks>(device: &mut B, table: &mut Table, at: u32) -> Result<(), Halt>
    requires at { at < 6 }
    requires size { 7 ≤ B.block_count device.old }
    ensures went { DeviceGoesOn B.block_count B.halts B.halted B.tells device.old device.new }
    ensures grown { KeepsMore B.kept B.tells IsReadEvent device.old device.new }
    ensures halt { B.halted device.new ≡ halt_in result }
    ensures keeps { OnOk result ((from : SinceHistory B)
        → KeepsHistories (DeviceHolds B.stands B.kept from) B.tells device.old device.new) }
    ensures read { OnOk result ((h : History) → B.stands device.old h
        → IsTrue (B.tells device.new) → in_table table.new at ≡ after_all h at) }
    ensures rest { (k : ℕ) → k ≢ at → in_table table.new k ≡ in_table table.old k }
    ensures event { OnOk result ((first : B) (events : Answers) → B.kept first device.old events
        → B.kept first device.new (events ++ (Read at, Value at (in_table table.new at)) ∷ [])) }
    ensures halted { IfErr result (λ halt. (first : B) (events : Answers)
        → B.kept first device.old events
        → B.kept first device.new (events ++ (Read at, Halted halt) ∷ [])) }
{
    let mut bytes = Block::zero();
    match device.read(at, &mut bytes) {
        Ok(()) => {
            table.put(at, &bytes);
            Ok(())
        }
        Err(BlockFault::Halt(halt)) => Err(halt),
        Err(BlockFault::NoBlock { .. }) => unreachable!(),
    }
}

/// Reads the first six blocks of a device.
pub(crate) fn read_table<B: Blocks>(device: &mut B, table: &mut Table) -> Result<(), Halt>
    requires { 7 ≤ B.block_count device.old }
    ensures went { DeviceGoesOn B.block_count B.halts B.halted B.tells device.old device.new }
    ensures grown { KeepsMore B.kept B.tells IsReadEvent device.old device.new }
    ensures halt { B.halted device.new ≡ halt_in result }
    ensures keeps { OnOk result ((from : SinceHistory B)
        → KeepsHistories (DeviceHolds B.stands B.kept from) B.tells device.old device.new) }
    ensures read { OnOk result ((h : History) → B.stands device.old h
        → IsTrue (B.tells device.new) → IsSameTable (in_table table.new) (after_all h)) }
    ensures reads { OnOk result ((first : B) (events : Answers) → B.kept first device.old events
        → B.kept first device.new (events ++ table_reads (in_table table.new) 6)) }
    ensures halted { IfErr result (λ halt.
        KeepsThen B.kept (AreHaltedReads halt) device.old device.new) }
{
    for at in 0..6 {
        read_block(device, table, at)?;
    }
    Ok(())
}

/// Writes blocks of a table.
pub(crate) fn write_table<B: Blocks>(device: &mut B, pairs: &Pairs) -> Result<(), Halt>
    requires size { 7 ≤ B.block_count device.old }
    requires below { All (λ (pair : ℕ × BlockType). pair.0 < 6) (pairs_of pairs.now) }
    ensures went { DeviceGoesOn B.block_count B.halts B.halted B.tells device.old device.new }
    ensures grown { KeepsMore B.kept B.tells IsWriteEvent device.old device.new }
    ensures halt { B.halted device.new ≡ halt_in result }
    ensures adds { OnOk result ((from : SinceHistory B) (h : History)
        → DeviceHolds B.stands B.kept from device.old h → IsTrue (B.tells device.new)
        → DeviceHolds B.stands B.kept from device.new (h ++ pairs_of pairs.now ∷ [])) }
    ensures event { OnOk result (KeepsThen B.kept (λ made. (number : ℕ)
        × (made ≡ (Write pairs.now, Wrote number) ∷ [])) device.old device.new) }
{
    match device.write_many(pairs) {
        Ok(_) => Ok(()),
        Err(BlockFault::Halt(halt)) => Err(halt),
        Err(BlockFault::NoBlock { .. }) => unreachable!(),
    }
}

// Writes zeros to one block.
fn clear_block<B: Blocks>(device: &mut B, at: u32) -> Result<(), Halt>
    requires at { at < B.block_count device.old }
    ensures went { DeviceGoesOn B.block_count B.halts B.halted B.tells device.old device.new }
    ensures grown { KeepsMore B.kept B.tells IsWriteEvent device.old device.new }
    ensures halt { B.halted device.new ≡ halt_in result }
    ensures clears { OnOk result ((from : SinceHistory B) → Clears
        (DeviceHolds B.stands B.kept from) B.tells device.old device.new (Between at (at + 1))) }
    ensures event { OnOk result (KeepsThen B.kept (AreZerosTo (at ∷ [])) device.old device.new) }
{
    match device.write(at, &Block::zero()) {
        Ok(_) => Ok(()),
        Err(BlockFault::Halt(halt)) => Err(halt),
        Err(BlockFault::NoBlock { .. }) => unreachable!(),
    }
}

/// Writes zeros to the blocks from `start` to `end - 1`.
pub(crate) fn clear_blocks<B: Blocks>(device: &mut B, start: u32, end: u32) -> Result<(), Halt>
    requires order { start < end }
    requires end { end ≤ B.block_count device.old }
    ensures went { DeviceGoesOn B.block_count B.halts B.halted B.tells device.old device.new }
    ensures grown { KeepsMore B.kept B.tells IsWriteEvent device.old device.new }
    ensures halt { B.halted device.new ≡ halt_in result }
    ensures clears { OnOk result ((from : SinceHistory B) → Clears
        (DeviceHolds B.stands B.kept from) B.tells device.old device.new (Between start end)) }
    ensures events { OnOk result (KeepsThen B.kept (AreZerosTo (range_with_len start (end - start)))
        device.old device.new) }
{
    for at in start..end {
        clear_block(device, at)?;
    }
    Ok(())
}

// Writes zeros to an extent, if it is of this owner.
fn clear_extent<B: Blocks>(
    device: &mut B,
    table: &Table,
    id: u8,
    size: u32,
    extent: u32,
) -> Result<(), Halt>
    requires none { B.halted device.old ≡ None }
    requires size { 1 ≤ size }
    requires few { extent < 2048 }
    requires fits { 6 + extent * size + size ≤ B.block_count device.old }
    requires small { B.block_count device.old < 2 ^ 32 }
    ensures went { DeviceGoesOn B.block_count B.halts B.halted B.tells device.old device.new }
    ensures grown { KeepsMore B.kept B.tells IsWriteEvent device.old device.new }
    ensures halt { B.halted device.new ≡ halt_in result }
    ensures clears { OnOk result ((from : SinceHistory B)
        → Clears (DeviceHolds B.stands B.kept from) B.tells device.old device.new
        (OfExtent (owner_in (in_table table.now)) id size extent)) }
    ensures events { OnOk result (KeepsThen B.kept
        (AreZerosTo (if owner_in (in_table table.now) extent == id
        then range_with_len (6 + extent * size) size else [])) device.old device.new) }
{
    if table.owner(extent) != id {
        return Ok(());
    }
    let start = 6 + extent * size;
    clear_blocks(device, start, start + size)
}

/// Writes zeros to the extents of an owner.
pub(crate) fn clear_extents<B: Blocks>(
    device: &mut B,
    table: &Table,
    id: u8,
    size: u32,
    extents: u32,
) -> Result<(), Halt>
    requires none { B.halted device.old ≡ None }
    requires size { 1 ≤ size }
    requires few { extents ≤ 2048 }
    requires fits { 6 + size * extents ≤ B.block_count device.old }
    requires small { B.block_count device.old < 2 ^ 32 }
    ensures went { DeviceGoesOn B.block_count B.halts B.halted B.tells device.old device.new }
    ensures grown { KeepsMore B.kept B.tells IsWriteEvent device.old device.new }
    ensures halt { B.halted device.new ≡ halt_in result }
    ensures clears { OnOk result ((from : SinceHistory B)
        → Clears (DeviceHolds B.stands B.kept from) B.tells device.old device.new
        (InExtent (owner_in (in_table table.now)) id size extents)) }
    ensures events { OnOk result (KeepsThen B.kept
        (AreZerosTo (owned_blocks (owner_in (in_table table.now)) id size extents))
        device.old device.new) }
{
    for extent in 0..extents {
        clear_extent(device, table, id, size, extent)?;
    }
    Ok(())
}

/// Writes zeros to the extents of a new volume, and then the table that says so.
pub(crate) fn make<B: Blocks>(
    device: &mut B,
    old: &Table,
    next: &Table,
    id: u8,
    size: u32,
    extents: u32,
) -> Result<(), Halt>
    requires none { B.halted device.old ≡ None }
    requires large { 7 ≤ B.block_count device.old }
    requires size { 1 ≤ size }
    requires few { extents ≤ 2048 }
    requires fits { 6 + size * extents ≤ B.block_count device.old }
    requires small { B.block_count device.old < 2 ^ 32 }
    requires head { in_table old.now 0 ≡ in_table next.now 0 }
    ensures went { DeviceGoesOn B.block_count B.halts B.halted B.tells device.old device.new }
    ensures grown { KeepsMore B.kept B.tells IsWriteEvent device.old device.new }
    ensures halt { B.halted device.new ≡ halt_in result }
    ensures makes { OnOk result ((from : SinceHistory B) (h : History)
        → DeviceHolds B.stands B.kept from device.old h → IsTrue (B.tells device.new)
        → MakesTable (DeviceHolds B.stands B.kept from device.new) h
        (InExtent (owner_in (in_table next.now)) id size extents) (in_table old.now)
        (in_table next.now)) }
    ensures events { OnOk result (KeepsThen B.kept (AreOfCreate id size extents
        (in_table old.now) (in_table next.now)) device.old device.new) }
{
    clear_extents(device, next, id, size, extents)?;
    write_table(device, &old.changes(next))
}
