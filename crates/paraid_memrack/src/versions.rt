//! A block as it was written last and as it was kept last, and what a stop leaves of it.
ghost use Rattle.std.specs.Prelude.{◌≡◌, ◌++◌, take, drop, map, replicate, IfOk};
ghost use Rattle.paraid_base.specs.declared.block.Block.{Block as BlockType};
ghost use Rattle.paraid_base.specs.Xor.{zero_block};
ghost use Rattle.paraid_memrack.specs.Versions.{synced_block, left_bytes};

use crate::stop::Pick;
use paraid_base::{Block, NoMemory};
use std::alloc::Global;

/// A block as it was written last, and as its disk kept it last; they may differ where it is loose.
#[derive(Drop)]
pub struct Versions {
    pub written: Block,
    pub kept: Block,
    pub loose: bool,
}

impl Versions {
    /// The block after a stop.
    pub fn left(&self, pick: Pick) -> Block
        ensures { result.bytes ≡ left_bytes pick self.now }
    {
        if !self.loose {
            return self.written.copy();
        }
        match pick {
            Pick::Old => self.kept.copy(),
            Pick::New => self.written.copy(),
            Pick::Filled(byte) => Block::from_array([byte; 512]),
            Pick::Mixed => halves(&self.written, &self.kept),
        }
    }
}

// The first half of one block and the second half of another.
fn halves(first: &Block, second: &Block) -> Block
    ensures { result.bytes ≡ take 256 first.now.bytes ++ drop 256 second.now.bytes }
{
    let mut bytes = second.bytes;
    bytes[..256].copy_from_slice(&first.bytes[..256]);
    Block::from_array(bytes)
}

/// These blocks, none of them loose.
pub fn firm_versions(alloc: Global, blocks: &Vec<Block>) -> Result<Vec<Versions>, NoMemory>
    ensures { IfOk result (λ versions. versions.items ≡ map synced_block blocks.now.items) }
{
    let Ok(mut versions) = Vec::with_capacity(alloc, blocks.len()) else {
        return Err(NoMemory);
    };
    for block in blocks.iter() {
        versions.push_reserved(Versions {
            written: block.copy(),
            kept: block.copy(),
            loose: false,
        });
    }
    Ok(versions)
}

/// So many blocks of zeros, none of them loose.
pub fn fresh_versions(alloc: Global, size: u32) -> Result<Vec<Versions>, NoMemory>
    ensures { IfOk result (λ versions. versions.items ≡ replicate size (synced_block zero_block)) }
{
    let Ok(mut versions) = Vec::with_capacity(alloc, size as usize) else {
        return Err(NoMemory);
    };
    for _i in 0..size {
        versions.push_reserved(Versions {
            written: Block::zero(),
            kept: Block::zero(),
            loose: false,
        });
    }
    Ok(versions)
}

/// The blocks after a stop.
pub fn left_blocks(
    alloc: Global,
    versions: &Vec<Versions>,
    pick: Pick,
) -> Result<Vec<Block>, NoMemory>
    ensures { IfOk result (λ blocks. map (λ (b : BlockType). b.bytes) blocks.items
        ≡ map (left_bytes pick) versions.now.items) }
{
    let Ok(mut blocks) = Vec::with_capacity(alloc, versions.len()) else {
        return Err(NoMemory);
    };
    for version in versions.iter() {
        blocks.push_reserved(version.left(pick));
    }
    Ok(blocks)
}
