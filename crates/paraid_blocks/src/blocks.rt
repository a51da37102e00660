//! The interface of a block device: what each call answers, and what is then known of its writes.
ghost use Rattle.std.specs.Prelude.{◌≡◌, ℕ, ◌≤◌, ◌<◌, ◌^◌, [], ◌∷◌, ◌++◌, Bool, IsTrue, Option, IsSome, IsNone, OnOk};
ghost use Rattle.paraid_base.specs.declared.fault.Halt.{Halt};
ghost use Rattle.paraid_base.specs.declared.event.Event.TheVariants.{Read, Write, Flush};
ghost use Rattle.paraid_base.specs.BlockAnswers.{Answers, answer_to_read, answer_to_write, answer_to_flush, halt_of, flush_halt_of, RefusesMissing, RefusesMany, AfterRead, AfterWrite, AfterFlush};
ghost use Rattle.paraid_base.specs.History.{History, after_all};
ghost use Rattle.paraid_base.specs.Pairs.{pairs_of, single_pair};
ghost use Rattle.paraid_base.specs.Told.{HasRisen};

use paraid_base::{Block, BlockFault, BlockNo, Halt, Pairs};

/// A block device: blocks of zeros that are read and written by number.
///
/// The writes that it accepted are its history, the first one first. It keeps no such list
/// itself: it stands for each history that its blocks and its number of writes agree with. It
/// tells what it stands for only while that is known of the disks below it.
///
/// A halt ends its service: every later call gives the same halt.
pub trait Blocks {
    /// The number of blocks. It never changes.
    ghost block_count: { Self → ℕ };

    /// How often it has halted. A count that has come to the end of its type stays there.
    ghost halts: { Self → ℕ };

    /// The halt that its calls give from now on, if it has halted.
    ghost halted: { Self → Option Halt };

    /// Whether it tells what it stands for and what it kept.
    ghost tells: { Self → Bool };

    /// It holds what is left by these writes.
    ghost stands: { Self → History → Type 0 };

    /// Since it was as the first is, it kept these events and their answers.
    ghost kept: { Self → Self → Answers → Type 0 };

    /// The number of blocks.
    fn blocks(&self) -> u32
        ensures { result ≡ block_count self.now };

    /// Reads a block: the bytes last written to it, or zeros. After a refusal `into` holds any
    /// bytes.
    fn read(&mut self, block: BlockNo, into: &mut Block) -> Result<(), BlockFault>
        ensures size { block_count self.new ≡ block_count self.old }
        ensures missing { RefusesMissing (block_count self.old) block result }

        ensures halt { halted self.new ≡ halt_of result }
        ensures again { IsSome (halted self.old) → halted self.new ≡ halted self.old }
        ensures later { halts self.old ≤ halts self.new }
        ensures cause { IsNone (halted self.old) → IsSome (halted self.new)
            → HasRisen (halts self.old) (halts self.new) }

        ensures told { IsTrue (tells self.new) → IsTrue (tells self.old) }
        ensures value { OnOk result ((h : History) → stands self.old h → IsTrue (tells self.new)
            → into.new ≡ after_all h block) }
        ensures history { (h : History) → stands self.old h → IsTrue (tells self.new)
            → AfterRead (stands self.new) h result }
        ensures events { (first : Self) (events : Answers)
            → kept first self.old events → kept first self.new
            (events ++ (Read block, answer_to_read block into.new result) ∷ []) };

    /// Writes one to eight blocks, all or none of them. Ok gives the number of this write, from 1:
    /// the length of the history with it. Of blocks that do not exist the first is named. After
    /// a halt in this call the write is not accepted.
    fn write_many(&mut self, pairs: &Pairs) -> Result<u64, BlockFault>
        ensures size { block_count self.new ≡ block_count self.old }
        ensures missing { RefusesMany (block_count self.old) (pairs_of pairs.now) result }

        ensures halt { halted self.new ≡ halt_of result }
        ensures again { IsSome (halted self.old) → halted self.new ≡ halted self.old }
        ensures later { halts self.old ≤ halts self.new }
        ensures cause { IsNone (halted self.old) → IsSome (halted self.new)
            → HasRisen (halts self.old) (halts self.new) }

        ensures told { IsTrue (tells self.new) → IsTrue (tells self.old) }
        ensures history { (h : History) → stands self.old h → IsTrue (tells self.new)
            → AfterWrite (stands self.new) h (pairs_of pairs.now) result }
        ensures events { (first : Self) (events : Answers) → kept first self.old events
            → kept first self.new (events ++ (Write pairs.now, answer_to_write result) ∷ []) };

    /// Writes a block, as a write of one pair.
    fn write(&mut self, block: BlockNo, bytes: &Block) -> Result<u64, BlockFault>
        ensures size { block_count self.new ≡ block_count self.old }
        ensures missing { RefusesMissing (block_count self.old) block result }

        ensures halt { halted self.new ≡ halt_of result }
        ensures again { IsSome (halted self.old) → halted self.new ≡ halted self.old }
        ensures later { halts self.old ≤ halts self.new }
        ensures cause { IsNone (halted self.old) → IsSome (halted self.new)
            → HasRisen (halts self.old) (halts self.new) }

        ensures told { IsTrue (tells self.new) → IsTrue (tells self.old) }
        ensures history { (h : History) → stands self.old h → IsTrue (tells self.new)
            → AfterWrite (stands self.new) h ((block, bytes.now) ∷ []) result }
        ensures events { (first : Self) (events : Answers)
            → kept first self.old events → kept first self.new
            (events ++ (Write (single_pair block bytes.now), answer_to_write result) ∷ []) }
    {
        self.write_many(&Pairs::one(block, bytes))
    }

    /// Asks that all writes which were accepted be kept. Ok gives their number. What a stop may
    /// still take away once this is answered is for `kept` of each device to say.
    fn flush(&mut self) -> Result<u64, Halt>
        ensures size { block_count self.new ≡ block_count self.old }

        ensures halt { halted self.new ≡ flush_halt_of result }
        ensures again { IsSome (halted self.old) → halted self.new ≡ halted self.old }
        ensures later { halts self.old ≤ halts self.new }
        ensures cause { IsNone (halted self.old) → IsSome (halted self.new)
            → HasRisen (halts self.old) (halts self.new) }

        ensures told { IsTrue (tells self.new) → IsTrue (tells self.old) }
        ensures history { (h : History) → stands self.old h → IsTrue (tells self.new)
            → AfterFlush (stands self.new) h result }
        ensures events { (first : Self) (events : Answers) → kept first self.old events
            → kept first self.new (events ++ (Flush, answer_to_flush result) ∷ []) };

    /// Since now it kept none.
    ghost begins: { (device : Self) → kept device device [] };

    /// A device has fewer than 2^32 blocks.
    ghost small: { (device : Self) → block_count device < 2 ^ 32 };
}
