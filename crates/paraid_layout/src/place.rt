//! The place on its disk of each hard block and of each copy.
//!
//! A disk begins with the gate, the metas and the log at places 0 to 99. Then come the dirty
//! map, the blocks of the rows and the regions of the gears in ascending order.
ghost use Rattle.std.specs.Prelude.{◌≡◌, ◌+◌, ◌<◌, ◌≤◌};
ghost use Rattle.paraid_base.specs.Log.{map_start};
ghost use Rattle.paraid_base.specs.Regions.{IsGear, disk_size, hard_place_of, map_count, soft_place_of};
ghost use Rattle.paraid_base.specs.Soft.{stripe_count};

use paraid_base::{Geometry, Place, Row};

/// The place of row `r`'s cell on each disk.
pub fn hard_place(g: &Geometry, r: Row) -> Place
    requires { r < g.now.rows }
    ensures value { result ≡ hard_place_of g.now r }
    ensures after_map { map_start g.now + map_count g.now ≤ result }
    ensures before_regions { result < map_start g.now + map_count g.now + g.now.rows }
{
    g.map_start() + g.map_blocks() + r
}

/// The place of stripe `s` of gear `a` on each disk below `a`.
pub fn soft_place(g: &Geometry, a: u8, s: u32) -> Place
    requires gear { IsGear g.now a }
    requires region { a < g.now.disks }
    requires stripe_in { s < stripe_count g.now.disks g.now.rows a }
    ensures value { result ≡ soft_place_of g.now a s }
    ensures after_hard { map_start g.now + map_count g.now + g.now.rows ≤ result }
    ensures in_size { result < disk_size g.now }
{
    g.soft_start(a) + s
}
