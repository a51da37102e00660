//! The bytes of a block device, read and written at any place.
ghost use Rattle.std.specs.Prelude.{◌≡◌, ◌*◌, ◌+◌, ◌-◌, ◌/◌, ◌%◌, ◌^◌, ◌<◌, ◌≤◌, ℕ, length, min, slice_index, OnOk, OnErr, IsTrue};
ghost use Rattle.paraid_base.specs.History.{History};
ghost use Rattle.paraid_base.specs.declared.event.Event.TheVariants.{Read, Write};
ghost use Rattle.paraid_base.specs.Pairs.{single_pair};
ghost use Rattle.paraid_nbd.specs.Asked.{KeepsBy, IsOneRead, IsOneWrite, IsRestRead, IsPartWritten, AreBytesRead, ArePartsWritten, KeepsHalted, HaltsAtOnce, IsRestHalted, IsPartHalted, IsReadHalted, IsWriteHalted};
ghost use Rattle.paraid_nbd.specs.Export.{ForEachState, KeepsOn, HaltsHere, blocks_joined, export_bytes, HasRead, HasBytes, HasRest, HasBlock, HasPart, HasWritten, Stops};

use paraid_base::{BLOCK_SIZE, Block, BlockFault, BlockNo, Halt};
use paraid_blocks::Blocks;

// The part of one block that is read or written next.
#[derive(Clone, Copy)]
struct Part {
    block: BlockNo,
    start: usize,
    length: usize,
}

impl Part {
    // The part from this place on, at most so many bytes.
    fn at(place: u64, most: usize) -> Self
        requires { place < 2 ^ 41 }
        ensures block { result.block ≡ place / 512 }
        ensures start { result.start ≡ place % 512 }
        ensures length { result.length ≡ min most (512 - place % 512) }
    {
        let start = (place % 512) as usize;
        Part {
            block: (place / 512) as u32,
            start,
            length: most.min(BLOCK_SIZE - start),
        }
    }
}

// Reads a block that the device has.
fn read_block<B: Blocks>(blocks: &mut B, block: BlockNo, into: &mut Block) -> Result<(), Halt>
    requires { block < B.block_count blocks.old }
    ensures size { B.block_count blocks.new ≡ B.block_count blocks.old }
    ensures told { IsTrue (B.tells blocks.new) → IsTrue (B.tells blocks.old) }
    ensures keeps { KeepsOn B.kept blocks.old blocks.new }
    ensures serves { OnOk result (KeepsBy B.kept blocks.old blocks.new
        (IsOneRead block into.new)) }
    ensures halts { OnErr result (KeepsHalted B.kept blocks.old blocks.new
        (HaltsAtOnce (Read block))) }
    ensures read { OnOk result ((first : B)
        → ForEachState (B.stands blocks.old) (B.halted blocks.old)
        (B.kept first blocks.old) (B.tells blocks.new) (λ s events. HasRead (B.stands blocks.new)
        (B.halted blocks.new) (B.kept first blocks.new) s events block into.new)) }
    ensures stops { OnErr result ((first : B) → ForEachState (B.stands blocks.old)
        (B.halted blocks.old) (B.kept first blocks.old) (B.tells blocks.new) (λ s events.
        HaltsHere (B.stands blocks.new) (B.halted blocks.new) (B.kept first blocks.new) s events)) }
{
    match blocks.read(block, into) {
        Ok(()) => Ok(()),
        Err(BlockFault::Halt(halt)) => Err(halt),
        Err(BlockFault::NoBlock { block: _missing }) => unreachable!(),
    }
}

// Writes a block that the device has.
fn write_block<B: Blocks>(blocks: &mut B, block: BlockNo, bytes: &Block) -> Result<(), Halt>
    requires { block < B.block_count blocks.old }
    ensures size { B.block_count blocks.new ≡ B.block_count blocks.old }
    ensures told { IsTrue (B.tells blocks.new) → IsTrue (B.tells blocks.old) }
    ensures keeps { KeepsOn B.kept blocks.old blocks.new }
    ensures serves { OnOk result (KeepsBy B.kept blocks.old blocks.new
        (IsOneWrite block bytes.now)) }
    ensures halts { OnErr result (KeepsHalted B.kept blocks.old blocks.new
        (HaltsAtOnce (Write (single_pair block bytes.now)))) }
    ensures written { OnOk result ((first : B)
        → ForEachState (B.stands blocks.old) (B.halted blocks.old)
        (B.kept first blocks.old) (B.tells blocks.new) (λ s events. HasBlock (B.stands blocks.new)
        (B.halted blocks.new) (B.kept first blocks.new) s events block bytes.now)) }
    ensures stops { OnErr result ((first : B) → ForEachState (B.stands blocks.old)
        (B.halted blocks.old) (B.kept first blocks.old) (B.tells blocks.new) (λ s events.
        HaltsHere (B.stands blocks.new) (B.halted blocks.new) (B.kept first blocks.new) s events)) }
{
    match blocks.write(block, bytes) {
        Ok(_number) => Ok(()),
        Err(BlockFault::Halt(halt)) => Err(halt),
        Err(BlockFault::NoBlock { block: _missing }) => unreachable!(),
    }
}

/// The bytes of a device are those of its blocks, joined.
pub fn export_is_the_blocks_joined()
    ensures { (h : History) (count : ℕ) → export_bytes count h ≡ blocks_joined h 0 count }
{}

/// Reads the bytes of the device from a place on.
pub(crate) fn read_bytes<B: Blocks>(
    blocks: &mut B,
    offset: u64,
    into: &mut [u8],
) -> Result<(), Halt>
    requires within { offset + length into.old ≤ 512 * B.block_count blocks.old }
    requires few { B.block_count blocks.old < 2 ^ 32 }
    ensures size { B.block_count blocks.new ≡ B.block_count blocks.old }
    ensures told { IsTrue (B.tells blocks.new) → IsTrue (B.tells blocks.old) }
    ensures keeps { KeepsOn B.kept blocks.old blocks.new }
    ensures serves { OnOk result (KeepsBy B.kept blocks.old blocks.new
        (AreBytesRead offset into.new)) }
    ensures halts { OnErr result (KeepsHalted B.kept blocks.old blocks.new
        (IsReadHalted offset (length into.old))) }
    ensures read { OnOk result ((first : B)
        → ForEachState (B.stands blocks.old) (B.halted blocks.old)
        (B.kept first blocks.old) (B.tells blocks.new) (λ s events. HasBytes (B.stands blocks.new)
        (B.halted blocks.new) (B.kept first blocks.new) s events offset into.new)) }
    ensures stops { OnErr result ((first : B) → ForEachState (B.stands blocks.old)
        (B.halted blocks.old) (B.kept first blocks.old) (B.tells blocks.new) (λ s events.
        HaltsHere (B.stands blocks.new) (B.halted blocks.new) (B.kept first blocks.new) s events)) }
    ensures some { OnErr result (0 < length into.old) }
{
    let mut block = Block::zero();
    let mut done = 0;
    while done < into.len() {
        let part = Part::at(offset + done as u64, into.len() - done);
        read_block(blocks, part.block, &mut block)?;
        let bytes = &block.as_slice()[part.start..part.start + part.length];
        into[done..done + part.length].copy_from_slice(bytes);
        done += part.length;
    }
    Ok(())
}

/// Writes these bytes to the device from a place on.
pub(crate) fn write_bytes<B: Blocks>(blocks: &mut B, offset: u64, from: &[u8]) -> Result<(), Halt>
    requires within { offset + length from.now ≤ 512 * B.block_count blocks.old }
    requires few { B.block_count blocks.old < 2 ^ 32 }
    ensures size { B.block_count blocks.new ≡ B.block_count blocks.old }
    ensures told { IsTrue (B.tells blocks.new) → IsTrue (B.tells blocks.old) }
    ensures keeps { KeepsOn B.kept blocks.old blocks.new }
    ensures serves { OnOk result (KeepsBy B.kept blocks.old blocks.new
        (ArePartsWritten offset from.now)) }
    ensures halts { OnErr result (KeepsHalted B.kept blocks.old blocks.new
        (IsWriteHalted offset from.now)) }
    ensures written { OnOk result ((first : B)
        → ForEachState (B.stands blocks.old) (B.halted blocks.old)
        (B.kept first blocks.old) (B.tells blocks.new) (λ s events. HasWritten (B.stands blocks.new)
        (B.halted blocks.new) (B.kept first blocks.new) s events offset from.now)) }
    ensures stops { OnErr result ((first : B)
        → ForEachState (B.stands blocks.old) (B.halted blocks.old)
        (B.kept first blocks.old) (B.tells blocks.new) (λ s events. Stops (B.stands blocks.new)
        (B.halted blocks.new) (B.kept first blocks.new) s events offset from.now)) }
{
    let mut done = 0;
    while done < from.len() {
        let part = Part::at(offset + done as u64, from.len() - done);
        write_part(blocks, part, &from[done..done + part.length])?;
        done += part.length;
    }
    Ok(())
}

// Writes a part of a block, whose other bytes stay.
fn write_part<B: Blocks>(blocks: &mut B, part: Part, bytes: &[u8]) -> Result<(), Halt>
    requires block { part.block < B.block_count blocks.old }
    requires within { part.start + length bytes.now ≤ 512 }
    requires length { length bytes.now ≡ part.length }
    ensures size { B.block_count blocks.new ≡ B.block_count blocks.old }
    ensures told { IsTrue (B.tells blocks.new) → IsTrue (B.tells blocks.old) }
    ensures keeps { KeepsOn B.kept blocks.old blocks.new }
    ensures serves { OnOk result (KeepsBy B.kept blocks.old blocks.new
        (IsPartWritten part.block part.start bytes.now)) }
    ensures halts { OnErr result (KeepsHalted B.kept blocks.old blocks.new
        (IsPartHalted part.block part.start bytes.now)) }
    ensures written { OnOk result ((first : B)
        → ForEachState (B.stands blocks.old) (B.halted blocks.old)
        (B.kept first blocks.old) (B.tells blocks.new) (λ s events. HasPart (B.stands blocks.new)
        (B.halted blocks.new) (B.kept first blocks.new) s events part.block part.start bytes.now)) }
    ensures stops { OnErr result ((first : B) → ForEachState (B.stands blocks.old)
        (B.halted blocks.old) (B.kept first blocks.old) (B.tells blocks.new) (λ s events.
        HaltsHere (B.stands blocks.new) (B.halted blocks.new) (B.kept first blocks.new) s events)) }
{
    let mut block = Block::zero();
    read_rest(blocks, part, &mut block)?;
    let new = replaced(&block, part.start, bytes);
    write_block(blocks, part.block, &new)
}

// Reads the block of a part, unless the part is all of it.
fn read_rest<B: Blocks>(blocks: &mut B, part: Part, into: &mut Block) -> Result<(), Halt>
    requires block { part.block < B.block_count blocks.old }
    requires within { part.start + part.length ≤ 512 }
    ensures size { B.block_count blocks.new ≡ B.block_count blocks.old }
    ensures told { IsTrue (B.tells blocks.new) → IsTrue (B.tells blocks.old) }
    ensures keeps { KeepsOn B.kept blocks.old blocks.new }
    ensures serves { OnOk result (KeepsBy B.kept blocks.old blocks.new
        (IsRestRead part.length part.block into.new)) }
    ensures halts { OnErr result (KeepsHalted B.kept blocks.old blocks.new
        (IsRestHalted part.length part.block)) }
    ensures read { OnOk result ((first : B)
        → ForEachState (B.stands blocks.old) (B.halted blocks.old)
        (B.kept first blocks.old) (B.tells blocks.new) (λ s events. HasRest (B.stands blocks.new)
        (B.halted blocks.new) (B.kept first blocks.new) s events part.block part.length into.new)) }
    ensures stops { OnErr result ((first : B) → ForEachState (B.stands blocks.old)
        (B.halted blocks.old) (B.kept first blocks.old) (B.tells blocks.new) (λ s events.
        HaltsHere (B.stands blocks.new) (B.halted blocks.new) (B.kept first blocks.new) s events)) }
{
    if part.length == BLOCK_SIZE {
        return Ok(());
    }
    read_block(blocks, part.block, into)
}

// The block with these bytes from a place on.
fn replaced(block: &Block, start: usize, bytes: &[u8]) -> Block
    requires { start + length bytes.now ≤ 512 }
    ensures inside { (k : ℕ)
        → k < length bytes.now → slice_index result.bytes (start + k) ≡ slice_index bytes.now k }
    ensures outside { (k : ℕ) → (start ≤ k → k < start + length bytes.now → ⊥)
        → slice_index result.bytes k ≡ slice_index block.now.bytes k }
{
    let mut new = block.bytes;
    new[start..start + bytes.len()].copy_from_slice(bytes);
    Block::from_array(new)
}
