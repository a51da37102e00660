//! Blocks that are written together, each with the place where it belongs.
ghost use Rattle.std.specs.Prelude.{◌≡◌, ◌≢◌, ◌+◌, ◌*◌, ◌<◌, ◌≤◌, ◌⊎◌, true, false, [], length, get_or, vec_capacity, map, AllPairs, IfOk, IfErr, OnOk, MatchOption, ◌==◌};
ghost use Rattle.std.specs.List.{list_any};
ghost use Rattle.paraid_base.specs.declared.block.Block.{Block as BlockType};
ghost use Rattle.paraid_base.specs.Log.{batch_room};
ghost use Rattle.paraid_base.specs.Xor.{zero_block};
ghost use Rattle.paraid_record.specs.Targets.{no_target, targets_of};
ghost use Rattle.paraid_image.specs.Neutral.{names_place};
ghost use Rattle.paraid_image.specs.Sides.{targets};
ghost use Rattle.paraid_image.specs.Batches.{batch_blocks, names_disk, with_target};
ghost use Rattle.paraid_image.specs.Standing.{overlaid_block};

use paraid_base::{BATCH_ROOM, Block, DiskNo, NoMemory, Place};
use paraid_record::{Target, Targets};
use std::alloc::Global;
use std::marker::Model;

/// A batch holds its 96 targets, and this one is new.
#[derive(Clone, Copy)]
pub struct Full {
    pub count: u8,
}

#[derive(Drop)]
struct Staged {
    block: Block,
    target: Target,
}

/// Up to 96 blocks, each with its target: the disk and the place where it belongs.
///
/// It is seen as the list of its targets with their blocks, in the order in which they were
/// first added. No target stands in it twice.
#[derive(Drop)]
pub struct Batch {
    staged: Vec<Staged>,
}

impl Model for Batch {
    ghost use Rattle.std.specs.Prelude.{List, map, length, ◌≤◌, ◌≢◌, AllPairs, vec_capacity};
    ghost use Rattle.paraid_base.specs.declared.block.Block.{Block as BlockType};
    ghost use Rattle.paraid_record.specs.declared.targets.Target.{Target as TargetType};
    ghost use Rattle.paraid_base.specs.Log.{batch_room};
    ghost use Rattle.paraid_image.specs.Sides.{targets};

    ghost Value = { List (TargetType × BlockType) };

    ghost view = { λ b. map (λ s. (s.target, s.block)) b.staged.items };

    ghost invariant = { λ b. (length b.staged.items ≤ batch_room)
        × (batch_room ≤ vec_capacity b.staged)
        × AllPairs (λ s t. s.target ≢ t.target) b.staged.items };
}

impl Batch {
    /// An empty batch, with the memory for all that it may hold.
    pub fn new(alloc: Global) -> Result<Batch, NoMemory>
        ensures { IfOk result (λ batch. batch ≡ []) }
    {
        let Ok(staged) = Vec::with_capacity(alloc, BATCH_ROOM) else {
            return Err(NoMemory);
        };
        Ok(Batch { staged })
    }

    /// The number of targets, at most 96.
    pub fn count(&self) -> u8
        ensures value { result ≡ length self.now }
        ensures few { result ≤ batch_room }
    {
        self.staged.len() as u8
    }

    /// Holds this block for this target, in place of the one that it had.
    ///
    /// It refuses a new target exactly where it holds 96, and is then as before.
    pub fn add(&mut self, disk: DiskNo, place: Place, block: &Block) -> Result<(), Full>
        ensures ok { OnOk result (self.new
            ≡ with_target self.old (record { disk = disk; place = place }) block.now) }
        ensures full { IfErr result (λ full. (full.count ≡ batch_room)
            × (length self.old ≡ batch_room) × (names_place self.old disk place ≡ false)
            × (self.new ≡ self.old)) }
        ensures room { OnOk result
            ((names_place self.old disk place ≡ true) ⊎ (length self.old < batch_room)) }
    {
        let target = Target { disk, place };
        if let Some(at) = self.find(target) {
            self.staged[at].block.copy_from(block);
            return Ok(());
        }
        if self.staged.len() == BATCH_ROOM {
            return Err(Full {
                count: BATCH_ROOM as u8,
            });
        }
        self.staged.push_reserved(Staged {
            target,
            block: Block::from_array(block.bytes),
        });
        Ok(())
    }

    /// The block that is held for this target.
    pub fn get(&self, disk: DiskNo, place: Place) -> Option<&Block>
        ensures { MatchOption result (names_place self.now disk place ≡ false)
            (λ block. (any : BlockType) → overlaid_block self.now disk place any ≡ block.now) }
    {
        let at = self.find(Target { disk, place })?;
        Some(&self.staged[at].block)
    }

    /// Holds nothing any more.
    pub fn clear(&mut self)
        ensures { self.new ≡ [] }
    {
        self.staged.clear();
    }

    // The place of a target in the order.
    fn find(&self, target: Target) -> Option<usize>
        ensures { MatchOption result (names_place self.now target.disk target.place ≡ false)
            (λ at. (at < length self.now)
            × (get_or (targets self.now) at no_target ≡ target)) }
    {
        for at in 0..self.staged.len() {
            if is_same(self.staged[at].target, target) {
                return Some(at);
            }
        }
        None
    }

    /// The target that stands there in the order.
    pub fn target(&self, at: usize) -> Target
        requires { at < length self.now }
        ensures { result ≡ get_or (targets self.now) at no_target }
    {
        self.staged[at].target
    }

    /// The block of the target that stands there in the order.
    pub fn block(&self, at: usize) -> &Block
        requires { at < length self.now }
        ensures { result.now ≡ get_or (batch_blocks self.now) at zero_block }
    {
        &self.staged[at].block
    }

    /// The list of its targets.
    pub fn targets(&self) -> Targets
        ensures value { targets_of result ≡ targets self.now }
        ensures few { result.count ≤ batch_room }
        ensures count { result.count ≡ length self.now }
        ensures distinct { AllPairs (λ s t. s ≢ t) (targets self.now) }
    {
        let mut targets = Targets {
            count: self.staged.len() as u8,
            list: [Target { disk: 0, place: 0 }; BATCH_ROOM],
        };
        for at in 0..self.staged.len() {
            targets.list[at] = self.staged[at].target;
        }
        targets
    }

    /// Whether a target is on this disk.
    pub fn has_disk(&self, disk: DiskNo) -> bool
        ensures { result ≡ names_disk self.now disk }
    {
        is_one_on(&self.staged, disk)
    }
}

// A target as one number, so that a search compares two by one test.
fn key(target: Target) -> u64
    ensures { result ≡ 256 * target.place + target.disk }
{
    256 * u64::from(target.place) + u64::from(target.disk)
}

// Whether two targets are the same.
fn is_same(one: Target, other: Target) -> bool
    ensures same { result ≡ true → one ≡ other }
    ensures other { result ≡ false → one ≢ other }
{
    key(one) == key(other)
}

// Whether one of these is on this disk.
fn is_one_on(staged: &[Staged], disk: DiskNo) -> bool
    ensures { result ≡ list_any (λ s. s.target.disk == disk) staged.now }
{
    staged.iter().any(|one| one.target.disk == disk)
}
