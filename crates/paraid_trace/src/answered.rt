//! An answer, without the block or the state that stands beside it.
use paraid_base::{Answer, Block, BlockNo, DiskNo, GearReport, Halt, Out, Phase, Status};

/// An answer that takes few bytes.
#[derive(Clone, Copy)]
pub enum Brief {
    /// The array has no such block.
    NoBlock { block: BlockNo },
    /// The number of the write that was accepted, from 1.
    Wrote { number: u64 },
    /// The number of writes that a stop no longer takes away.
    Flushed { writes: u64 },
    /// What a tick did.
    Ticked(GearReport),
    /// A shift from `gear` to `to` began.
    Shift { gear: u8, to: u8 },
    /// There is no higher gear.
    Top,
    /// There is no lower gear.
    Lowest,
    /// A shift to `to` is under way.
    Shifting { to: u8 },
    /// This disk was taken out.
    Failed { disk: DiskNo },
    /// This disk was replaced.
    Replaced { disk: DiskNo },
    /// The array has no such disk.
    NoDisk { disk: u32 },
    /// This disk is out.
    Out { disk: DiskNo },
    /// This disk is not out.
    NotOut { disk: DiskNo },
    /// No fresh disk could be had in this slot.
    NoFresh { disk: DiskNo },
    /// No shift down: it would park this disk, which has used up its allowance of spin-ups.
    Ration { disk: DiskNo },
    /// The energy since the mount, in millijoules.
    Energy { total: u64 },
    /// The line is no event.
    Bad,
    /// The array has halted.
    Halted(Halt),
}

/// An answer. The bytes of a block that was read, and the state of an array of so many disks, stand
/// beside it, where they stay, since they take more than all else that is answered.
#[derive(Clone, Copy)]
pub enum Answered {
    Value { block: BlockNo },
    State { disks: u8 },
    Brief(Brief),
}

/// What stands beside an answer. Where the answer does not tell it, it may be any.
#[derive(Drop)]
pub struct Beside {
    pub bytes: Block,
    pub status: Status,
}

impl Beside {
    /// Nothing was answered yet.
    pub fn new() -> Self {
        Beside {
            bytes: Block::zero(),
            status: Status {
                writes: 0,
                ticks: 0,
                gear: 0,
                phase: Phase::Steady,
                dirty: 0,
                fill: 0,
                out: Out::No,
                spins: [0; 8],
                halt: None,
            },
        }
    }
}

impl Brief {
    ghost use Rattle.std.specs.Prelude.{◌≡◌};
    ghost use Rattle.paraid_trace.specs.Answered.{answer_of};

    /// The answer that it is.
    pub fn answer(self) -> Answer
        ensures { result ≡ answer_of self }
    {
        match self {
            Brief::NoBlock { block } => Answer::NoBlock { block },
            Brief::Wrote { number } => Answer::Wrote { number },
            Brief::Flushed { writes } => Answer::Flushed { writes },
            Brief::Ticked(report) => Answer::Ticked(report),
            Brief::Shift { gear, to } => Answer::Shift { gear, to },
            Brief::Top => Answer::Top,
            Brief::Lowest => Answer::Lowest,
            Brief::Shifting { to } => Answer::Shifting { to },
            Brief::Failed { disk } => Answer::Failed { disk },
            Brief::Replaced { disk } => Answer::Replaced { disk },
            Brief::NoDisk { disk } => Answer::NoDisk { disk },
            Brief::Out { disk } => Answer::Out { disk },
            Brief::NotOut { disk } => Answer::NotOut { disk },
            Brief::NoFresh { disk } => Answer::NoFresh { disk },
            Brief::Ration { disk } => Answer::Ration { disk },
            Brief::Energy { total } => Answer::Energy { total },
            Brief::Bad => Answer::Bad,
            Brief::Halted(halt) => Answer::Halted(halt),
        }
    }
}

impl Answered {
    ghost use Rattle.std.specs.Prelude.{◌≡◌};
    ghost use Rattle.paraid_trace.specs.Answered.{answer_with};

    /// The answer that it is with this beside it.
    pub fn answer(self, beside: Beside) -> Answer
        ensures { result ≡ answer_with self beside }
    {
        let Beside { bytes, status } = beside;
        match self {
            Answered::Value { block } => Answer::Value { block, bytes },
            Answered::State { disks } => Answer::State { status, disks },
            Answered::Brief(brief) => brief.answer(),
        }
    }
}
