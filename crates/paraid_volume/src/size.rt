//! How a device is cut into extents.
ghost use Rattle.std.specs.Prelude.{◌≡◌, ◌≤◌};
ghost use Rattle.paraid_volume.specs.Tables.{extent_size as size_of, extent_count as count_of};

/// How many blocks an extent has.
pub fn extent_size(blocks: u32) -> u32
    requires { 7 ≤ blocks }
    ensures value { result ≡ size_of blocks }
    ensures some { 1 ≤ result }
{
    (blocks - 7) / 2048 + 1
}

/// How many extents there are, at most 2,048.
pub fn extent_count(blocks: u32) -> u32
    requires { 7 ≤ blocks }
    ensures value { result ≡ count_of blocks }
    ensures some { 1 ≤ result }
    ensures few { result ≤ 2048 }
{
    (blocks - 6) / extent_size(blocks)
}
