//! What a plan has drafted is added to the batch.
ghost use Rattle.std.specs.Prelude.{◌≡◌, ℕ, ◌<◌, ◌⊎◌, ◌∷◌, [], length, true, IsTrue};
ghost use Rattle.paraid_base.specs.Log.{batch_room};
ghost use Rattle.paraid_base.specs.Regions.{disk_size};
ghost use Rattle.paraid_core.specs.Taken.{AreApart, HasRoomFor, IsTakenIn};
ghost use Rattle.paraid_image.specs.Neutral.{names_place};
ghost use Rattle.paraid_plan.specs.Placed.{IsPlaced};
ghost use Rattle.paraid_record.specs.Targets.{IsTargetInRange};

use paraid_base::{Block, DiskNo, Geometry, MAP_START, Place};
use paraid_record::{Meta, Target};
use paraid_txn::Batch;
use paraid_view::Draft;

// Whether a disk of the array has this place. The regions of the gears are counted only past the
// rows.
fn is_on_disk(g: &Geometry, place: Place) -> bool
    ensures is { IsTrue result → place < disk_size g.now }
    ensures of { place < disk_size g.now → IsTrue result }
{
    place < g.map_start() + g.map_blocks() + g.rows || place < g.size()
}

// Whether a target is past the log, on a disk of the array, and on disk 0 or 1 where it is of the
// map.
fn is_in_range(g: &Geometry, target: Target) -> bool
    ensures is { IsTrue result → IsTargetInRange g.now target }
    ensures of { IsTargetInRange g.now target → IsTrue result }
{
    target.disk < g.disks
        && target.place >= MAP_START
        && is_on_disk(g, target.place)
        && (target.disk < 2 || target.place >= MAP_START + g.map_blocks())
}

// Whether a commit can take a target.
fn is_placed(m: &Meta, target: Target) -> bool
    ensures is { IsTrue result → IsPlaced m.now target }
    ensures of { IsPlaced m.now target → IsTrue result }
{
    is_in_range(&m.setup.geometry, target)
        && (target.disk < m.gear || target.disk < m.phase.rising_to())
        && m.out.gone() != Some(target.disk)
}

// Adds a block, unless a commit could not take its target.
fn take_one(batch: &mut Batch, m: &Meta, target: Target, block: &Block)
    requires room { (length batch.old < batch_room)
        ⊎ (names_place batch.old target.disk target.place ≡ true) }
    requires apart { AreApart batch.old }
    ensures taken { IsTakenIn m.now batch.old ((target, block.now) ∷ []) batch.new }
    ensures names { (d p : ℕ)
        → names_place batch.old d p ≡ true → names_place batch.new d p ≡ true }
{
    if !is_placed(m, target) {
        return;
    }
    let _added = batch.add(target.disk, target.place, block);
}

/// Adds all that is drafted, for which there is room, or which stands in the batch already. What a
/// plan has drafted can be committed; a target that could not be is left out.
pub(crate) fn take(batch: &mut Batch, m: &Meta, draft: &Draft)
    requires room { HasRoomFor batch.old draft.now }
    requires apart { AreApart batch.old }
    ensures { IsTakenIn m.now batch.old draft.now batch.new }
{
    for at in 0..draft.count() as usize {
        take_one(batch, m, draft.target(at), draft.block(at));
    }
}
