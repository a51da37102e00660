//! The blocks of the array hold what the first writes of a history leave.
ghost use Rattle.std.specs.Prelude.{◌≡◌, ℕ, ◌<◌, ◌↔◌, IsTrue, map};
ghost use Rattle.paraid_base.specs.History.{after, joined_entries, last_of as last_in};
ghost use Rattle.paraid_base.specs.Pairs.{pairs_of};
ghost use Rattle.paraid_base.specs.Xor.{zero_block};
ghost use Rattle.paraid_image.specs.Content.{blocks_of};
ghost use Rattle.paraid_plain.specs.Views.{view_at};
ghost use Rattle.paraid_base.specs.Regions.{array_blocks};

use crate::image::Image;
use crate::same::is_same_block;
use crate::statement::Statement;
use crate::value::home_value;
use paraid_base::{Block, BlockNo, Pairs};

pub(crate) fn are_blocks_held(
    image: &Image,
    says: &Statement,
    history: &[Pairs],
    writes: u64,
) -> bool
    ensures { IsTrue result ↔ ((b : ℕ)
        → b < array_blocks says.now.meta.setup.geometry
        → blocks_of (view_at image.now says.now) b ≡ after (map pairs_of history.now) writes b) }
{
    for block in 0..says.meta.setup.geometry.blocks() {
        let held = home_value(image, says, block);
        if !is_same_block(&held, &block_after(history, writes, block)) {
            return false;
        }
    }
    true
}

/// A block after the first writes of a history: the bytes of the last that names it, or zeros.
#[tactic(auto, unfolding(paraid_base::specs::History::after))]
pub fn block_after(history: &[Pairs], writes: u64, block: BlockNo) -> Block
    ensures { result ≡ after (map pairs_of history.now) writes block }
{
    let count = history.len();
    if writes < count as u64 {
        last_of(&history[..writes as usize], block)
    } else {
        last_of(history, block)
    }
}

fn last_of(history: &[Pairs], block: BlockNo) -> Block
    ensures { result ≡ last_in block zero_block (joined_entries (map pairs_of history.now)) }
{
    let mut bytes = Block::zero();
    for write in history {
        lay(write, block, &mut bytes);
    }
    bytes
}

/// Lays the pairs of a write that name the block over its bytes.
#[tactic(auto, unfolding(paraid_base::specs::Pairs::pairs_of))]
fn lay(write: &Pairs, block: BlockNo, bytes: &mut Block)
    ensures { bytes.new ≡ last_in block bytes.old (pairs_of write.now) }
{
    for at in 0..write.count as usize {
        if write.blocks[at] == block {
            bytes.copy_from(&write.bytes[at]);
        }
    }
}
