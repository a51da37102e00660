//! One block of a disk: 512 bytes.
ghost use Rattle.std.specs.Prelude.{◌≡◌, ℕ, ◌<◌, length, replicate, slice_index, slice_set, IfOk};

use crate::NoMemory;
use std::alloc::Global;

/// The number of bytes in a block.
pub const BLOCK_SIZE: usize = 512;

/// One block of a disk: 512 bytes.
#[derive(Drop)]
pub struct Block {
    pub bytes: [u8; 512],
    pub ghost whole: { length bytes ≡ 512 },
    pub ghost small: { (k : ℕ) → slice_index bytes k < 256 },
}

impl Block {
    ghost use Rattle.paraid_base.specs.Xor.{zero_block};

    /// A block of zeros.
    pub fn zero() -> Self
        ensures { result ≡ zero_block }
    {
        Block { bytes: [0; 512] }
    }

    /// So many blocks of zeros.
    pub fn zeros(alloc: Global, count: u32) -> Result<Vec<Block>, NoMemory>
        ensures { IfOk result (λ blocks. blocks.items ≡ replicate count zero_block) }
    {
        let Ok(mut blocks) = Vec::with_capacity(alloc, count as usize) else {
            return Err(NoMemory);
        };
        for _i in 0..count {
            blocks.push_reserved(Block::zero());
        }
        Ok(blocks)
    }

    /// A block of these bytes.
    pub fn from_array(bytes: [u8; 512]) -> Self
        ensures { result.bytes ≡ bytes }
    {
        Block { bytes }
    }

    /// The same block again.
    pub fn copy(&self) -> Block
        ensures { result ≡ self.now }
    {
        Block { bytes: self.bytes }
    }

    /// Its 512 bytes.
    pub fn as_slice(&self) -> &[u8]
        ensures value { result.now ≡ self.now.bytes }
        ensures length { length result.now ≡ 512 }
    {
        &self.bytes
    }

    /// Changes the byte at `at`, which is from 0 to 511.
    pub fn set(&mut self, at: usize, byte: u8)
        requires { at < 512 }
        ensures { self.new.bytes ≡ slice_set self.old.bytes at byte }
    {
        self.bytes[at] = byte;
    }

    /// Becomes the same block as `other`.
    pub fn copy_from(&mut self, other: &Block)
        ensures { self.new ≡ other.now }
    {
        self.bytes = other.bytes;
    }
}
