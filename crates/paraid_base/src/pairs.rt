//! One to eight writes that a stop leaves together or not at all.
ghost use Rattle.std.specs.Prelude.{◌≡◌, ℕ, ◌≤◌, ◌<◌, ◌+◌, ◌++◌, ◌∷◌, [], length, get_or, set, All, IfSome, IfNone, IsTrue, ◌↔◌};
ghost use Rattle.paraid_base.specs.declared.block.Block.{Block as BlockType};
ghost use Rattle.paraid_base.specs.Xor.{zero_block};

use crate::{Block, BlockNo};

/// One to eight writes of blocks, of which a stop leaves all or none: the first `count` members.
/// The others are block 0 and zeros, so values with the same pairs are equal.
#[derive(Drop)]
pub struct Pairs {
    /// How many pairs there are, 1 to 8.
    pub count: u8,
    /// The block that each pair writes, 0 past the count.
    pub blocks: [BlockNo; 8],
    /// What it writes there, zeros past the count.
    pub bytes: [Block; 8],
    pub ghost some: { 1 ≤ count },
    pub ghost few: { count ≤ 8 },
    pub ghost blocks_whole: { length blocks ≡ 8 },
    pub ghost bytes_whole: { length bytes ≡ 8 },
    pub ghost blocks_rest: { (k : ℕ) → count ≤ k → get_or blocks k 0 ≡ 0 },
    pub ghost bytes_rest: { (k : ℕ) → count ≤ k → get_or bytes k zero_block ≡ zero_block },
}

// Changes one of the blocks.
fn put(blocks: &mut [Block; 8], at: usize, bytes: &Block)
    requires { at < 8 }
    ensures { blocks.new ≡ set blocks.old at bytes.now }
{
    blocks[at].copy_from(bytes);
}

impl Pairs {
    ghost use Rattle.paraid_base.specs.Pairs.{single_pair as one_pair, pairs_of};
    ghost use Rattle.paraid_base.specs.BlockAnswers.{IsFirstMissing};

    /// One pair.
    pub fn one(block: BlockNo, bytes: &Block) -> Pairs
        ensures value { result ≡ one_pair block bytes.now }
        ensures pairs { pairs_of result ≡ (block, bytes.now) ∷ [] }
        ensures count { result.count ≡ 1 }
    {
        let mut first = Block::zero();
        first.copy_from(bytes);
        Pairs {
            count: 1,
            blocks: [block, 0, 0, 0, 0, 0, 0, 0],
            bytes: [
                first,
                Block::zero(),
                Block::zero(),
                Block::zero(),
                Block::zero(),
                Block::zero(),
                Block::zero(),
                Block::zero(),
            ],
        }
    }

    /// Becomes one pair, of this block and of the bytes that its first pair has.
    pub fn keep_first(&mut self, block: BlockNo)
        ensures pairs { pairs_of self.new ≡ (block, get_or self.old.bytes 0 zero_block) ∷ [] }
        ensures count { self.new.count ≡ 1 }
    {
        while self.count > 1 {
            self.drop_last();
        }
        self.blocks[0] = block;
    }

    // Takes the last pair away.
    fn drop_last(&mut self)
        requires { 1 < self.old.count }
        ensures count { self.new.count + 1 ≡ self.old.count }
        ensures first { get_or self.new.bytes 0 zero_block ≡ get_or self.old.bytes 0 zero_block }
    {
        let last = self.count as usize - 1;
        self.blocks[last] = 0;
        put(&mut self.bytes, last, &Block::zero());
        self.count -= 1;
    }

    /// Whether there is room for no further pair.
    pub fn is_full(&self) -> bool
        ensures { IsTrue result ↔ self.now.count ≡ 8 }
    {
        self.count == 8
    }

    /// Adds a pair after the others.
    pub fn add(&mut self, block: BlockNo, bytes: &Block)
        requires { self.old.count < 8 }
        ensures pairs { pairs_of self.new ≡ pairs_of self.old ++ (block, bytes.now) ∷ [] }
        ensures count { self.new.count ≡ self.old.count + 1 }
    {
        let at = self.count as usize;
        self.count += 1;
        self.blocks[at] = block;
        put(&mut self.bytes, at, bytes);
    }

    /// The first block of the pairs that a device of so many blocks lacks.
    pub fn missing(&self, count: u32) -> Option<BlockNo>
        ensures some { IfSome result (IsFirstMissing count (pairs_of self.now)) }
        ensures none { IfNone result
            (All (λ (pair : ℕ × BlockType). pair.0 < count) (pairs_of self.now)) }
    {
        for at in 0..self.count as usize {
            if self.blocks[at] >= count {
                return Some(self.blocks[at]);
            }
        }
        None
    }
}
