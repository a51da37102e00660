//! What a line asks for, without the pairs of a write.
use paraid_base::BlockNo;

/// What a line asks for. The pairs of a write stand beside it, where they stay, since they take
/// four kilobytes.
#[derive(Clone, Copy)]
pub enum Asked {
    Read { block: BlockNo },
    Write,
    Flush,
    Tick,
    Up,
    Down,
    Fail { disk: u32 },
    Replace { disk: u32 },
    State,
    Energy,
    Bad,
}
