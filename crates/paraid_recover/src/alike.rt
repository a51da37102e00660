//! Whether two log disks say the same.
ghost use Rattle.std.specs.Prelude.{◌≡◌, ◌≢◌, ◌<◌, true, false, length, get_or};
ghost use Rattle.paraid_base.specs.Xor.{zero_block};
ghost use Rattle.paraid_image.specs.Sides.{targets};
ghost use Rattle.paraid_record.specs.Range.{IsInRange};
ghost use Rattle.paraid_record.specs.Targets.{no_target};
ghost use Rattle.paraid_image.specs.Batches.{batch_blocks};

use paraid_base::Block;
use paraid_record::{Meta, write_meta};
use paraid_txn::Batch;

// Whether two blocks are the same.
fn is_same_block(a: &Block, b: &Block) -> bool
    ensures yes { result ≡ true → a.now.bytes ≡ b.now.bytes }
    ensures no { result ≡ false → a.now.bytes ≢ b.now.bytes }
{
    a.as_slice() == b.as_slice()
}

/// Whether two metas are the same, by their spellings.
pub fn is_same_meta(a: &Meta, b: &Meta) -> bool
    requires first { IsInRange a.now }
    requires second { IsInRange b.now }
    ensures yes { result ≡ true → a.now ≡ b.now }
    ensures no { result ≡ false → a.now ≢ b.now }
{
    let mut first = Block::zero();
    let mut second = Block::zero();
    write_meta(a, &mut first);
    write_meta(b, &mut second);
    is_same_block(&first, &second)
}

// Whether two batches have the same target with the same block there in the order.
fn is_same_at(a: &Batch, b: &Batch, at: u8) -> bool
    requires first { at < length a.now }
    requires second { at < length b.now }
    ensures target { result ≡ true
        → get_or (targets a.now) at no_target ≡ get_or (targets b.now) at no_target }
    ensures block { result ≡ true
        → get_or (batch_blocks a.now) at zero_block ≡ get_or (batch_blocks b.now) at zero_block }
    ensures no { result ≡ false → a.now ≢ b.now }
{
    if a.target(at as usize) != b.target(at as usize) {
        return false;
    }
    is_same_block(a.block(at as usize), b.block(at as usize))
}

/// Whether two batches have the same targets with the same blocks, in the same order.
pub fn is_same_batch(a: &Batch, b: &Batch) -> bool
    ensures yes { result ≡ true → a.now ≡ b.now }
    ensures no { result ≡ false → a.now ≢ b.now }
{
    if a.count() != b.count() {
        return false;
    }
    for at in 0..a.count() {
        if !is_same_at(a, b, at) {
            return false;
        }
    }
    true
}
