//! The blocks of a plan that is not yet taken: they are seen by its reads, and dropped where it is
//! not completed.
ghost use Rattle.std.specs.Prelude.{◌≡◌, ◌≢◌, ℕ, ◌<◌, ◌≤◌, ◌∷◌, ◌++◌, [], length, get_or, IfOk, MatchOption};
ghost use Rattle.paraid_base.specs.declared.block.Block.{Block as BlockType};
ghost use Rattle.paraid_base.specs.Xor.{zero_block};
ghost use Rattle.paraid_image.specs.Sides.{targets};
ghost use Rattle.paraid_image.specs.Standing.{overlaid_block};
ghost use Rattle.paraid_record.specs.Targets.{no_target};
ghost use Rattle.paraid_image.specs.Batches.{batch_blocks};
ghost use Rattle.paraid_base.specs.Log.{draft_room};

use paraid_base::{Block, DiskNo, NoMemory, Place};
use paraid_record::Target;
use std::alloc::Global;
use std::marker::Model;

/// The most targets of a draft: ten for each of eight blocks.
pub const DRAFT_ROOM: usize = 80;

#[derive(Drop)]
struct Drafted {
    block: Block,
    target: Target,
}

/// Up to 80 blocks in the order in which they were drafted, each with its target.
///
/// It is seen as the list of its targets with their blocks. A target may stand in it more than
/// once, and its last block counts.
#[derive(Drop)]
pub struct Draft {
    drafted: Vec<Drafted>,
}

impl Model for Draft {
    ghost use Rattle.std.specs.Prelude.{List, map, length, ◌≤◌, vec_capacity};
    ghost use Rattle.paraid_base.specs.Log.{draft_room};
    ghost use Rattle.paraid_base.specs.declared.block.Block.{Block as BlockType};
    ghost use Rattle.paraid_record.specs.declared.targets.Target.{Target as TargetType};

    ghost Value = { List (TargetType × BlockType) };

    ghost view = { λ d. map (λ s. (s.target, s.block)) d.drafted.items };

    ghost invariant = { λ d. (length d.drafted.items ≤ draft_room)
        × (draft_room ≤ vec_capacity d.drafted) };
}

impl Draft {
    /// An empty draft, with the memory for all that it may hold.
    pub fn new(alloc: Global) -> Result<Draft, NoMemory>
        ensures { IfOk result (λ draft. draft ≡ []) }
    {
        let Ok(drafted) = Vec::with_capacity(alloc, DRAFT_ROOM) else {
            return Err(NoMemory);
        };
        Ok(Draft { drafted })
    }

    /// The number of blocks, at most 80.
    pub fn count(&self) -> u8
        ensures value { result ≡ length self.now }
        ensures few { result ≤ draft_room }
    {
        self.drafted.len() as u8
    }

    /// Drafts one block more.
    pub fn push(&mut self, disk: DiskNo, place: Place, block: &Block)
        requires { length self.old < draft_room }
        ensures { self.new ≡ self.old ++ (record { disk = disk; place = place }, block.now) ∷ [] }
    {
        self.drafted.push_reserved(Drafted {
            target: Target { disk, place },
            block: Block::from_array(block.bytes),
        });
    }

    /// The last block for this target: what is read there with the draft laid over.
    pub fn get(&self, disk: DiskNo, place: Place) -> Option<&Block>
        ensures { MatchOption result ((any : BlockType)
            → overlaid_block self.now disk place any ≡ any) (λ block. (any : BlockType)
            → overlaid_block self.now disk place any ≡ block.now) }
    {
        let Some(at) = self.find(Target { disk, place }) else {
            return None;
        };
        Some(&self.drafted[at].block)
    }

    // The last place of a target in the order.
    fn find(&self, target: Target) -> Option<usize>
        ensures { MatchOption result
            ((k : ℕ) → k < length self.now → get_or (targets self.now) k no_target ≢ target)
            (λ at. (at < length self.now) × (get_or (targets self.now) at no_target ≡ target)
            × ((k : ℕ) → at < k → k < length self.now
            → get_or (targets self.now) k no_target ≢ target)) }
    {
        let mut at = self.drafted.len();
        while at > 0 {
            at -= 1;
            if self.drafted[at].target == target {
                return Some(at);
            }
        }
        None
    }

    /// The target that stands there in the order.
    pub fn target(&self, at: usize) -> Target
        requires { at < length self.now }
        ensures { result ≡ get_or (targets self.now) at no_target }
    {
        self.drafted[at].target
    }

    /// The block of the target that stands there in the order.
    pub fn block(&self, at: usize) -> &Block
        requires { at < length self.now }
        ensures { result.now ≡ get_or (batch_blocks self.now) at zero_block }
    {
        &self.drafted[at].block
    }

    /// Drops all of it.
    pub fn clear(&mut self)
        ensures { self.new ≡ [] }
    {
        self.drafted.clear();
    }
}
