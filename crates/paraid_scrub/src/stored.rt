//! What a check needs of an array: its meta, its dirty cells, and its blocks as they are stored.
ghost use Rattle.std.specs.Prelude.{◌≡◌, ◌<◌, ◌≤◌, OnOk, IfErr};
ghost use Rattle.paraid_base.specs.Log.{log_least};
ghost use Rattle.paraid_base.specs.Regions.{disk_size};
ghost use Rattle.paraid_record.specs.declared.meta.Meta.{Meta as MetaType};
ghost use Rattle.paraid_record.specs.Range.{IsInRange};
ghost use Rattle.paraid_image.specs.Out.{named_out};
ghost use Rattle.paraid_image.specs.Spot.{View};
ghost use Rattle.paraid_scrub.specs.Looks.{IsReadable, KeepsView};
ghost use Rattle.paraid_scrub.specs.declared.ending.Ending.{Ending as EndingType};

use crate::ending::Ending;
use paraid_base::{Block, DiskNo, Place, Row};
use paraid_record::Meta;

/// What is stored, with nothing staged. A lost disk is named out from then on.
pub trait Stored {
    /// What stands, with the marks of a lost disk.
    ghost meta: { Self → MetaType };

    /// It can be read, with nothing staged.
    ghost usable: { Self → Type 0 };

    /// What is stored is told.
    ghost tells: { Self → Type 0 };

    /// What is stored has this view.
    ghost shows: { Self → View → Type 0 };

    /// The second comes from the first by reads in which no disk was lost.
    ghost leads: { Self → Self → Type 0 };

    /// The second comes from the first by reads of which the last one ended so.
    ghost loses: { Self → Self → EndingType → Type 0 };

    fn meta(&self) -> Meta
        requires usable { usable self.now }
        ensures value { result ≡ meta self.now }
        ensures in_range { IsInRange result };

    /// Whether a cell is dirty.
    fn is_dirty(&self, row: Row, disk: DiskNo) -> bool
        requires usable { usable self.now }
        requires row { row < (meta self.now).setup.geometry.rows }
        requires disk { disk < (meta self.now).setup.geometry.disks }
        ensures { (v : View) → shows self.now v → result ≡ v.dirty row disk };

    /// Reads the block that is stored at a place past the log.
    fn read_stored(&mut self, disk: DiskNo, place: Place, into: &mut Block) -> Result<(), Ending>
        requires usable { usable self.old }
        requires readable { IsReadable (meta self.old) disk }
        requires past_log { log_least ≤ place }
        requires within { place < disk_size (meta self.old).setup.geometry }
        ensures shown { OnOk result (KeepsView meta usable tells shows leads self.old self.new
            (λ v. into.new ≡ v.block disk place)) }
        ensures lost { IfErr result (loses self.old self.new) };

    ghost stays: { (a : Self) → usable a → leads a a };

    ghost then: { (a b c : Self) → leads a b → leads b c → leads a c };

    ghost then_lost: { (a b c : Self) (ending : EndingType)
        → leads a b → loses b c ending → loses a c ending };

    // What is told after some reads was told before them.
    ghost told: { (a b : Self) → leads a b → tells b → tells a };

    ghost told_lost: { (a b : Self) (ending : EndingType) → loses a b ending → tells b → tells a };

    /// What is shown is by the meta, under which the out disk is named.
    ghost agrees: { (x : Self) (v : View) → shows x v
        → (v.meta ≡ meta x) × (v.out ≡ named_out (meta x).out) };
}
