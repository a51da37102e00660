//! A check of a core.
ghost use Rattle.std.specs.Prelude.{◌≡◌, ℕ, OnOk, IfOk, Some, IsSome, IsTrue, true, false};
ghost use Rattle.paraid_base.specs.History.{History};
ghost use Rattle.paraid_rack.specs.Trail.{Trail, now};
ghost use Rattle.paraid_record.specs.declared.meta.Meta.{Meta as MetaType};
ghost use Rattle.paraid_image.specs.Content.{view_by};
ghost use Rattle.paraid_image.specs.Sound.{ContentOk};
ghost use Rattle.paraid_image.specs.Standing.{Contents};
ghost use Rattle.paraid_rack.specs.declared.call.Power.{Power as PowerType};
ghost use Rattle.paraid_rack.specs.Disks.{is_present};
ghost use Rattle.paraid_base.specs.declared.state.Out.TheVariants.{Fresh};
ghost use Rattle.paraid_txn.specs.Losses.{IsGoneSince};
ghost use Rattle.paraid_core.specs.Cores.{CoreStandsFor, core_rack, meta_of};
ghost use Rattle.paraid_core.specs.Lost.{CoreLosesDisk};
ghost use Rattle.paraid_scrub.specs.Counts.{AreCounts, AreWithinMembers, all_members, no_faults};
ghost use Rattle.paraid_scrub.specs.declared.kind.CheckReport.{CheckReport as ReportType};
ghost use Rattle.paraid_scrub.specs.Cores.{CanBeChecked, HasMapBits, LeavesChecked, ServesChecked, core_view, table_view};

use crate::ending::Ending;
use crate::five::{Checked, count_all};
use crate::stored::Stored;
use paraid_base::{Block, DiskNo, Place, Row, Two};
use paraid_core::Core;
use paraid_rack::Rack;
use paraid_record::Meta;

impl<R: Rack> Stored for Core<R> {
    ghost use Rattle.std.specs.Prelude.{IsSome};
    ghost use Rattle.paraid_core.specs.Cores.{core_rack, meta_of};
    ghost use Rattle.paraid_scrub.specs.Chains.{looks_none, looks_then, looks_till_then, looks_till_told, looks_told, view_agrees};
    ghost use Rattle.paraid_scrub.specs.Cores.{CanBeChecked, LooksOn, LooksTill, ShowsView};

    ghost meta = { λ core. meta_of core };

    ghost usable = { λ core. CanBeChecked R.slot_count R.slot core };

    ghost tells = { λ core. IsSome (R.told (core_rack core)) };

    ghost shows = { λ core v. ShowsView R.told core v };

    ghost leads = { λ a b. LooksOn R.slot_count R.slot R.told a b };

    ghost loses = { λ a b ending. LooksTill R.slot_count R.slot R.told a b ending };

    fn meta(&self) -> Meta {
        *self.meta()
    }

    fn is_dirty(&self, row: Row, disk: DiskNo) -> bool {
        self.dirty().has(row, disk)
    }

    fn read_stored(&mut self, disk: DiskNo, place: Place, into: &mut Block) -> Result<(), Ending> {
        let done = match self.read_stored(disk, place, into) {
            Ok(done) => done,
            Err(two) => return Err(Ending::Two(two)),
        };
        if done {
            return Ok(());
        }
        Err(Ending::Lost)
    }

    ghost stays = { λ a can. looks_none R.slot_count R.slot R.told a can };

    ghost then = { λ a b c p q. looks_then R.slot_count R.slot R.told a b c p q };

    ghost then_lost = { λ a b c ending p q.
        looks_till_then R.slot_count R.slot R.told a b c p R.agrees ending q };

    ghost told = { λ a b p some. looks_told R.slot_count R.slot R.told a b p some };

    ghost told_lost = { λ a b ending p some.
        looks_till_told R.slot_count R.slot R.told a b ending p some };

    ghost agrees = { λ core v shows. view_agrees R.told core v shows };
}

/// Counts what is false in an array whose writes are all committed: the rows, then the stripes, the
/// filled stripes, the rebuilt units and the blocks of the map, each in ascending order. Only reads
/// follow. A disk that is lost inside ends it with the counts of a first part, which may be empty.
pub fn check<R: Rack>(core: &mut Core<R>) -> Result<Checked, Two>
    requires can { CanBeChecked R.slot_count R.slot core.old }
    ensures leaves { LeavesChecked core.old core.new result }
    ensures serves { OnOk result (ServesChecked core.old core.new) }
    // The counts by the view of the core as the counting begins, with the dirty cells of its table.
    // No history is asked for: an array changed by hand is counted too.
    ensures by_table { IfOk result (λ checked. (t : Trail) → R.told (core_rack core.old) ≡ Some t
        → IsSome (R.told (core_rack core.new))
        → (seen : ℕ) × AreCounts (table_view core.old (now t)) seen checked.report
        × (IsTrue checked.whole → seen ≡ all_members (table_view core.old (now t)))) }
    // They are also those with the dirty cells of the map, where its table has these.
    ensures counts { IfOk result (λ checked. (t : Trail) → R.told (core_rack core.old) ≡ Some t
        → IsSome (R.told (core_rack core.new)) → HasMapBits core.old (core_view core.old (now t))
        → (seen : ℕ) × AreCounts (core_view core.old (now t)) seen checked.report
        × (IsTrue checked.whole → seen ≡ all_members (core_view core.old (now t)))) }
    // Over every rack no more is counted than there is.
    ensures most { IfOk result (λ checked. AreWithinMembers (meta_of core.old) checked.report) }
    ensures zeros { IfOk result (λ checked. (h : History) (lo : ℕ) (t : Trail)
        → R.told (core_rack core.old) ≡ Some t → CoreStandsFor R.slot_count core.old h lo (now t)
        → IsSome (R.told (core_rack core.new)) → checked.report ≡ no_faults) }
    // Not all were counted only where a disk was lost: it was there, has failed in the call and is
    // absent, and the meta names it as gone.
    ensures ended { IfOk result (λ checked. checked.whole ≡ false
        → (loses : CoreLosesDisk R.slot core.old core.new)
        × IsGoneSince (R.slot (core_rack core.old)) (R.slot (core_rack core.new)) loses.disk) }
    ensures same { IfOk result (λ checked. IsTrue checked.whole
        → meta_of core.new ≡ meta_of core.old) }
{
    let checked = count_all(core)?;
    Ok(checked)
}

/// What is kept well has nothing false, if the disk that is being rebuilt is there.
pub fn a_sound_array_counts_nothing()
    ensures { (slots : ℕ)
        (power : ℕ → PowerType) (size : ℕ → ℕ) (m : MetaType) (f : Contents) (h : History) (k : ℕ)
        → ContentOk slots power size (view_by m power f) h k
        → ((d u : ℕ) → m.out ≡ Fresh d u → is_present (power d) ≡ true)
        → (seen : ℕ) (report : ReportType)
        → AreCounts (view_by m power f) seen report → report ≡ no_faults }
{}
