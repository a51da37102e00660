//! Blocks of one disk that follow one another, gathered until they are written by one call.
ghost use Rattle.std.specs.Prelude.{◌≡◌, vec_capacity};

use paraid_base::{BLOCK_SIZE, Block, NoMemory, Place};
use std::alloc::Global;

/// The number of blocks at most.
const LONGEST: usize = 128;

/// Blocks that are still to be written, each next to the one before it.
#[derive(Drop)]
pub(crate) struct Run {
    /// The place of the first block, 0 where there is none.
    first: Place,
    blocks: Vec<[u8; BLOCK_SIZE]>,
    pub ghost room: { vec_capacity blocks ≡ 128 },
}

impl Run {
    ghost use Rattle.std.specs.Prelude.{ℕ, ◌<◌, ◌↔◌, if◌then◌else◌, ◌==◌, Some, true, not, option_copied, IfOk, IsTrue};
    ghost use Rattle.paraid_gather.specs.Waiting.{IsWithin, Joins, waiting, waits, run_of, none_waits};

    /// No blocks, with room for as many as it may ever hold.
    pub(crate) fn new(alloc: Global) -> Result<Run, NoMemory>
        ensures { IfOk result (λ run. run_of run ≡ none_waits) }
    {
        let Ok(blocks) = Vec::with_capacity(alloc, LONGEST) else {
            return Err(NoMemory);
        };
        Ok(Run { first: 0, blocks })
    }

    pub(crate) fn is_empty(&self) -> bool
        ensures { result ≡ not (waits (run_of self.now)) }
    {
        self.blocks.is_empty()
    }

    /// Whether a block at this place can be put: it takes the place of one, or follows the last.
    pub(crate) fn joins(&self, place: Place) -> bool
        ensures { IsTrue result ↔ Joins (run_of self.now) place }
    {
        let count = self.blocks.len();
        if count == 0 {
            return true;
        }
        if place < self.first {
            return false;
        }
        let at = (place - self.first) as usize;
        at < count || at == count && count < LONGEST
    }

    /// From now on this block waits at its place.
    #[tactic(auto, unfolding(crate::specs::Waiting::waiting))]
    pub(crate) fn put(&mut self, place: Place, block: &Block)
        requires { Joins (run_of self.old) place }
        ensures waiting { (p : ℕ) → waiting (run_of self.new) p
            ≡ (if p == place then Some block.now.bytes else waiting (run_of self.old) p) }
        ensures any { waits (run_of self.new) ≡ true }
        // It stays within what it was within, if the place is.
        ensures within { (n : ℕ) → place < n → IsWithin (run_of self.old) n
            → IsWithin (run_of self.new) n }
    {
        if self.blocks.is_empty() {
            self.first = place;
        }
        let at = (place - self.first) as usize;
        if at < self.blocks.len() {
            self.blocks[at] = block.bytes;
        } else {
            self.blocks.push_reserved(block.bytes);
        }
    }

    /// The block that waits at a place, if one does.
    #[tactic(auto, unfolding(crate::specs::Waiting::waiting))]
    pub(crate) fn get(&self, place: Place) -> Option<&[u8; BLOCK_SIZE]>
        ensures { option_copied result ≡ waiting (run_of self.now) place }
    {
        if place < self.first {
            return None;
        }
        self.blocks.get((place - self.first) as usize)
    }

    /// The place of the first block, where there is one.
    pub(crate) fn first(&self) -> Place
        ensures { result ≡ (run_of self.now).first }
    {
        self.first
    }

    /// The blocks, one after another.
    pub(crate) fn blocks(&self) -> &[[u8; BLOCK_SIZE]]
        ensures { result.now ≡ (run_of self.now).blocks }
    {
        &self.blocks
    }

    /// No block waits any more.
    pub(crate) fn clear(&mut self)
        ensures { run_of self.new ≡ none_waits }
    {
        self.first = 0;
        self.blocks.clear();
    }
}
