//! The first block of a table.
ghost use Rattle.std.specs.Prelude.{◌≡◌};
ghost use Rattle.paraid_volume.specs.Tables.{head_bytes};

use paraid_base::Block;

/// Says how many blocks an extent has and how many extents there are.
#[tactic(auto, unfolding(crate::specs::Tables::head_bytes))]
pub(crate) fn head(size: u32, extents: u32) -> Block
    ensures { result.bytes ≡ head_bytes size extents }
{
    let mut bytes = [0; 512];
    bytes[..10].copy_from_slice(b"PARAIDVT\0\x01");
    bytes[10..14].copy_from_slice(&size.to_be_bytes());
    bytes[14..18].copy_from_slice(&extents.to_be_bytes());
    Block::from_array(bytes)
}
