//! What a plan reads and stages.
ghost use Rattle.std.specs.Prelude.{◌≡◌, ◌≢◌, ℕ, ◌+◌, ◌<◌, ◌≤◌, ◌⊎◌, true, length, OnOk, IfErr, Some};
ghost use Rattle.paraid_base.specs.Log.{log_least, draft_room, change_room};
ghost use Rattle.paraid_base.specs.Regions.{disk_size};
ghost use Rattle.paraid_plan.specs.Desk.{Desk, with_targets, desk_with_bit, sees};
ghost use Rattle.paraid_plan.specs.WriteTargets.{soft_count, stripe_block_now, target_if};
ghost use Rattle.paraid_dirty.specs.Bits.{bit_of};
ghost use Rattle.paraid_dirty.specs.Table.{ShowsBits};
ghost use Rattle.paraid_record.specs.Range.{IsInRange};
ghost use Rattle.paraid_image.specs.Out.{named_out as named_out_of};
ghost use Rattle.paraid_image.specs.Spot.{rising_to as rising_to_of};
ghost use Rattle.paraid_image.specs.Value.{value as value_of};
ghost use Rattle.paraid_record.specs.declared.meta.Meta.{Meta as MetaType};

use paraid_base::{Block, DiskNo, Place, Row};
use paraid_record::Meta;

/// A disk was lost while the plan was made, and what is staged in it is to be dropped.
#[derive(Clone, Copy)]
pub struct PlanLost;

/// A plan of at most 80 targets, over blocks that are read with all that is staged laid over.
pub trait WritePlan {
    /// What is in view, and what is staged.
    ghost desk: { Self → Desk };

    /// Whether what is in view is known: the record of the disks is told.
    ghost tells: { Self → Type 0 };

    /// How many dirty bits it has set.
    ghost changes: { Self → ℕ };

    /// Whether cells can be read under this meta.
    ghost serves: { Self → MetaType → Type 0 };

    /// Whether a read has failed.
    ghost fails: { Self → Type 0 };

    /// The second comes from the first by reads and by what is staged, also where a read failed.
    ghost leads: { Self → Self → Type 0 };

    /// Reads the value of a cell.
    fn value(&mut self, m: &Meta, r: Row, d: DiskNo, into: &mut Block) -> Result<(), PlanLost>
        requires serves { serves self.old m.now }
        requires in_range { IsInRange m.now }
        requires row { r < m.now.setup.geometry.rows }
        requires disk { d < m.now.setup.geometry.disks }
        ensures ok { OnOk result (tells self.new
            → into.new ≡ value_of (sees m.now (desk self.old)) r d) }
        ensures same { OnOk result (tells self.new → desk self.new ≡ desk self.old) }
        ensures bits { OnOk result ((desk self.new).dirty ≡ (desk self.old).dirty) }
        ensures staged { OnOk result
            (length (desk self.new).staged ≡ length (desk self.old).staged) }
        ensures changes { OnOk result (changes self.new ≡ changes self.old) }
        ensures goes_on { OnOk result (serves self.new m.now) }
        ensures fails { IfErr result (λ lost. fails self.new) }
        ensures leads { leads self.old self.new };

    /// Reads a block of a stripe of the current region, or makes it from the others.
    fn stripe(&mut self, m: &Meta, s: u32, e: DiskNo, into: &mut Block) -> Result<(), PlanLost>
        requires serves { serves self.old m.now }
        requires in_range { IsInRange m.now }
        requires stripe { s < soft_count m.now }
        requires disk { e < m.now.gear }
        ensures ok { OnOk result (tells self.new
            → into.new ≡ stripe_block_now (sees m.now (desk self.old)) s e) }
        ensures same { OnOk result (tells self.new → desk self.new ≡ desk self.old) }
        ensures bits { OnOk result ((desk self.new).dirty ≡ (desk self.old).dirty) }
        ensures staged { OnOk result
            (length (desk self.new).staged ≡ length (desk self.old).staged) }
        ensures changes { OnOk result (changes self.new ≡ changes self.old) }
        ensures goes_on { OnOk result (serves self.new m.now) }
        ensures fails { IfErr result (λ lost. fails self.new) }
        ensures leads { leads self.old self.new };

    /// Reads a block past the log, of a disk that is powered and not out.
    fn stored(
        &mut self,
        m: &Meta,
        disk: DiskNo,
        place: Place,
        into: &mut Block,
    ) -> Result<(), PlanLost>
        requires serves { serves self.old m.now }
        requires in_range { IsInRange m.now }
        requires disk { disk < m.now.setup.geometry.disks }
        requires place { place < disk_size m.now.setup.geometry }
        requires powered { (disk < m.now.gear) ⊎ (disk < rising_to_of m.now.phase) }
        requires not_out { named_out_of m.now.out ≢ Some disk }
        requires past_log { log_least ≤ place }
        ensures ok { OnOk result (tells self.new → into.new ≡ (desk self.old).block disk place) }
        ensures same { OnOk result (tells self.new → desk self.new ≡ desk self.old) }
        ensures bits { OnOk result ((desk self.new).dirty ≡ (desk self.old).dirty) }
        ensures staged { OnOk result
            (length (desk self.new).staged ≡ length (desk self.old).staged) }
        ensures changes { OnOk result (changes self.new ≡ changes self.old) }
        ensures goes_on { OnOk result (serves self.new m.now) }
        ensures fails { IfErr result (λ lost. fails self.new) }
        ensures leads { leads self.old self.new };

    /// Whether a block is staged, so that no disk is asked for it. Nothing is promised of it: only
    /// the number of reads depends on it.
    fn is_staged(&self, disk: DiskNo, place: Place) -> bool;

    /// For each disk whether its block at this place is staged. Nothing is promised of it either.
    fn staged_at(&self, place: Place) -> [bool; 8];

    /// Whether a cell is dirty.
    fn is_dirty(&self, m: &Meta, r: Row, d: DiskNo) -> bool
        requires serves { serves self.now m.now }
        requires row { r < m.now.setup.geometry.rows }
        requires disk { d < m.now.setup.geometry.disks }
        ensures { result ≡ (desk self.now).dirty r d };

    /// The dirty bits of a row, the lowest for disk 0.
    fn dirty_row(&self, m: &Meta, r: Row) -> u8
        requires serves { serves self.now m.now }
        requires row { r < m.now.setup.geometry.rows }
        ensures { (d : ℕ) → bit_of result d ≡ (desk self.now).dirty r d };

    /// Stages a block.
    fn stage(&mut self, disk: DiskNo, place: Place, block: &Block)
        requires room { length (desk self.old).staged < draft_room }
        ensures desk { desk self.new
            ≡ with_targets (desk self.old) (target_if true disk place block.now) }
        ensures changes { changes self.new ≡ changes self.old }
        ensures goes_on { (m : MetaType) → serves self.old m → serves self.new m }
        ensures leads { leads self.old self.new };

    /// Sets a dirty bit, of at most sixteen in a plan.
    fn set_dirty(&mut self, m: &Meta, r: Row, d: DiskNo, bit: bool)
        requires serves { serves self.old m.now }
        requires row { r < m.now.setup.geometry.rows }
        requires disk { d < m.now.setup.geometry.disks }
        requires few { changes self.old < change_room }
        ensures desk { desk self.new ≡ desk_with_bit (desk self.old) r d bit }
        ensures changes { changes self.new ≡ changes self.old + 1 }
        ensures goes_on { serves self.new m.now }
        ensures leads { leads self.old self.new };

    /// The block of the map with the bits of 512 rows.
    fn map_block(&mut self, j: u32, into: &mut Block)
        ensures shows { ShowsBits into.new j (desk self.old).dirty }
        ensures same { desk self.new ≡ desk self.old }
        ensures changes { changes self.new ≡ changes self.old }
        ensures goes_on { (m : MetaType) → serves self.old m → serves self.new m }
        ensures leads { leads self.old self.new };

    /// A plan leads to itself.
    ghost stays: { (a : Self) → leads a a };

    /// What leads from one plan to a second, and from there to a third, leads to the third.
    ghost then: { (a b c : Self) → leads a b → leads b c → leads a c };

    /// If the record of the disks is told at the end, it was told at the start.
    ghost told: { (a b : Self) → leads a b → tells b → tells a };
}
