//! What a line asks for.
use paraid_base::BlockNo;
use paraid_volume::Name;

/// What a line asks for. The bytes of a write stand beside it, where they stay.
#[derive(Drop)]
pub enum VolAsked {
    Init,
    Create { name: Name, extents: u32 },
    Delete { name: Name },
    Read { name: Name, block: BlockNo },
    Write { name: Name, block: BlockNo },
    Flush,
    List,
    Bad,
}
