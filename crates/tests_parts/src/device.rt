//! A block device for tests, which keeps its history in memory.
ghost use Rattle.std.specs.Prelude.{⊤, ◌≡◌, ◌<◌, ◌^◌, is_some, false, if◌then◌else◌};

use paraid_base::{Block, BlockFault, BlockNo, Halt, Pairs};
use paraid_blocks::Blocks;
use std::alloc::Global;

// A device that keeps its history, and shows what the first `seen` of its writes leave. It is worn
// after so many writes.
#[derive(Drop)]
pub struct Kept {
    pub count: u32,
    pub history: Vec<Pairs>,
    pub seen: usize,
    pub worn: usize,
    pub halt: Option<Halt>,
    ghost few: { count < 2 ^ 32 },
}

impl Kept {
    pub fn new(alloc: Global, count: u32, worn: usize) -> Kept {
        Kept {
            count,
            history: Vec::new(alloc),
            seen: usize::MAX,
            worn,
            halt: None,
        }
    }

    // The bytes of the last pair that names a block, among the writes that are seen.
    fn copy(&self, block: BlockNo, into: &mut Block) {
        into.copy_from(&Block::zero());
        for (at, pairs) in self.history.iter().enumerate() {
            if at < self.seen {
                copy_last(pairs, block, into);
            }
        }
    }

    // Adds the pairs to the history, if the device is not worn.
    fn keep(&mut self, pairs: &Pairs) -> bool
        ensures size { self.new.count ≡ self.old.count }
        ensures halt { self.new.halt ≡ self.old.halt }
    {
        self.history.len() < self.worn && self.history.push(copied(pairs)).is_ok()
    }
}

fn copy_last(pairs: &Pairs, block: BlockNo, into: &mut Block) {
    for at in 0..pairs.count as usize {
        if pairs.blocks[at] == block {
            into.copy_from(&pairs.bytes[at]);
        }
    }
}

fn copied(pairs: &Pairs) -> Pairs {
    let mut copy = Pairs::one(pairs.blocks[0], &pairs.bytes[0]);
    for at in 1..pairs.count as usize {
        if copy.count < 8 {
            copy.add(pairs.blocks[at], &pairs.bytes[at]);
        }
    }
    copy
}

impl Blocks for Kept {
    ghost block_count = { λ device. device.count };

    ghost halts = { λ device. if is_some device.halt then 1 else 0 };

    ghost halted = { λ device. device.halt };

    ghost tells = { λ device. false };

    ghost stands = { λ device h. ⊤ };

    ghost kept = { λ first device events. ⊤ };

    ghost begins = { λ device. tt };

    ghost small = { λ device. device.few };

    fn blocks(&self) -> u32 {
        self.count
    }

    fn read(&mut self, block: BlockNo, into: &mut Block) -> Result<(), BlockFault> {
        if let Some(halt) = self.halt {
            return Err(BlockFault::Halt(halt));
        }
        if block >= self.count {
            return Err(BlockFault::NoBlock { block });
        }
        self.copy(block, into);
        Ok(())
    }

    fn write_many(&mut self, pairs: &Pairs) -> Result<u64, BlockFault> {
        if let Some(halt) = self.halt {
            return Err(BlockFault::Halt(halt));
        }
        if let Some(block) = pairs.missing(self.count) {
            return Err(BlockFault::NoBlock { block });
        }
        if self.keep(pairs) {
            return Ok(self.history.len() as u64);
        }
        let halt = Halt::Worn {
            count: self.history.len() as u64,
        };
        self.halt = Some(halt);
        Err(BlockFault::Halt(halt))
    }

    fn flush(&mut self) -> Result<u64, Halt> {
        match self.halt {
            Some(halt) => Err(halt),
            None => Ok(self.history.len() as u64),
        }
    }
}
