//! One of eight blocks, and the blocks that are kept for some of eight disks.
ghost use Rattle.std.specs.Prelude.{◌≡◌, ◌≢◌, ℕ, ◌<◌, true, length, get_or};
ghost use Rattle.paraid_base.specs.declared.block.Block.{Block as BlockType};
ghost use Rattle.paraid_base.specs.Xor.{zero_block};
ghost use Rattle.paraid_plan.specs.RowWrites.{IsOldOf};

use paraid_base::{Block, DiskNo};

/// One of the blocks.
pub(crate) fn block_of(blocks: &[Block; 8], at: usize) -> &Block
    requires { at < 8 }
    ensures { result.now ≡ get_or blocks.now at zero_block }
{
    &blocks[at]
}

/// No block is kept yet.
pub(crate) fn none_kept() -> [Option<Block>; 8]
    ensures { length result ≡ 8 }
{
    [None, None, None, None, None, None, None, None]
}

/// The block that is kept for a disk, or else another one.
pub(crate) fn kept_or<'a>(kept: &'a [Option<Block>], at: DiskNo, other: &'a Block) -> &'a Block
    ensures { (b : BlockType) → IsOldOf kept.now at b → result.now ≡ b }
{
    let at = at as usize;
    if kept.len() <= at {
        return other;
    }
    let Some(block) = &kept[at] else {
        return other;
    };
    block
}

/// Keeps a block, where it is needed.
pub(crate) fn keep_if(needed: bool, kept: &mut [Option<Block>], at: DiskNo, block: &Block)
    requires { needed ≡ true → at < length kept.old }
    ensures length { length kept.new ≡ length kept.old }
    ensures here { needed ≡ true → IsOldOf kept.new at block.now }
    ensures others { (x : ℕ) (b : BlockType)
        → x ≢ at → IsOldOf kept.old x b → IsOldOf kept.new x b }
{
    if needed {
        kept[at as usize] = Some(block.copy());
    }
}
