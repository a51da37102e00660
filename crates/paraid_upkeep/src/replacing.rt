//! A disk that is out is replaced by a fresh one.
ghost use Rattle.std.specs.Prelude.{◌≡◌, ◌<◌, ◌⊎◌, None, Ok, Some, OnOk, IfErr, IfOk, IfSome};
ghost use Rattle.paraid_base.specs.declared.event.Event.TheVariants.{Replace as ReplaceEvent};
ghost use Rattle.paraid_base.specs.declared.state.Out.TheVariants.{Fresh, Gone};
ghost use Rattle.paraid_base.specs.Log.{worn_at};
ghost use Rattle.paraid_core.specs.Cores.{core_rack, core_table, meta_of};
ghost use Rattle.paraid_upkeep.specs.declared.fault.ReplaceFault.TheVariants.{NoFresh};
ghost use Rattle.paraid_upkeep.specs.Turns.{CoreGoesOn, CoreHalts, replace_answer};
ghost use Rattle.paraid_image.specs.Out.{named_out};
ghost use Rattle.paraid_rebuild.specs.Replacing.{IsReplacedFrom, LeavesArrayBut};
ghost use Rattle.paraid_rebuild.specs.Rebuilds.{KeepsCounts, LacksFreshDisk};
ghost use Rattle.paraid_upkeep.specs.Events.{RefusesReplace, ServesKnown};
ghost use Rattle.paraid_rack.specs.Told.{Extends};
ghost use Rattle.paraid_event.specs.CoreServing.{KeepsFit};

use crate::fault::ReplaceFault;
use paraid_base::{DiskNo, Two};
use paraid_core::Core;
use paraid_rack::Rack;
use paraid_rebuild::begin;

// Brings a fresh disk. The refusal where the slot has failed.
fn bring<R: Rack>(core: &mut Core<R>, disk: DiskNo) -> Result<Option<ReplaceFault>, Two>
    requires service { ServesKnown core.old }
    requires out { named_out (meta_of core.old).out ≡ Some disk }
    requires disk { disk < (meta_of core.old).setup.geometry.disks }
    requires epoch { (meta_of core.old).epoch < worn_at }
    ensures service { OnOk result (ServesKnown core.new) }
    ensures fits { OnOk result (KeepsFit R.slot core.old core.new) }
    ensures leaves { OnOk result (LeavesArrayBut R.slot_count R.slot core.old core.new disk) }
    ensures fresh { result ≡ Ok None
        → IsReplacedFrom (meta_of core.old) (meta_of core.new) disk 2 (Fresh disk 0) }
    ensures lacks { result ≡ Ok (Some (NoFresh disk)) → LacksFreshDisk core.old core.new disk
        (IsReplacedFrom (meta_of core.old) (meta_of core.new) disk 1 (Gone disk)
        ⊎ IsReplacedFrom (meta_of core.old) (meta_of core.new) disk 2 (Gone disk)) }
    ensures refused { IfOk result (λ refusal. IfSome refusal (λ fault. fault ≡ NoFresh disk)) }
    ensures table { OnOk result (core_table core.new ≡ core_table core.old) }
    // It is an event of a session.
    ensures turn { IfOk result (λ refusal. CoreGoesOn R.slot_count R.told core.old core.new
        (ReplaceEvent disk) (replace_answer disk refusal)) }
    ensures halts { IfErr result (λ two.
        CoreHalts R.slot_count R.told core.old core.new (ReplaceEvent disk) two) }
    ensures keeps { KeepsCounts core.old core.new result }
    ensures told { Extends (R.told (core_rack core.old)) (R.told (core_rack core.new)) }
{
    let there = begin(core, disk)?;
    if there {
        return Ok(None);
    }
    Ok(Some(ReplaceFault::NoFresh { disk }))
}

/// Replaces a disk that is out, also one that is being rebuilt, unless it is refused: where there
/// is no such disk, or it is not out. It gives the refusal; where no fresh disk came the disk is
/// gone, with no spin-up counted.
pub fn replace<R: Rack>(core: &mut Core<R>, disk: DiskNo) -> Result<Option<ReplaceFault>, Two>
    requires service { ServesKnown core.old }
    requires epoch { (meta_of core.old).epoch < worn_at }
    ensures service { OnOk result (ServesKnown core.new) }
    ensures fits { OnOk result (KeepsFit R.slot core.old core.new) }
    ensures setup { OnOk result ((meta_of core.new).setup ≡ (meta_of core.old).setup) }
    ensures writes { OnOk result ((meta_of core.new).writes ≡ (meta_of core.old).writes) }
    ensures fresh { result ≡ Ok None
        → IsReplacedFrom (meta_of core.old) (meta_of core.new) disk 2 (Fresh disk 0) }
    // The disk is gone, and its slot has failed.
    ensures lacks { result ≡ Ok (Some (NoFresh disk)) → LacksFreshDisk core.old core.new disk
        (IsReplacedFrom (meta_of core.old) (meta_of core.new) disk 1 (Gone disk)
        ⊎ IsReplacedFrom (meta_of core.old) (meta_of core.new) disk 2 (Gone disk)) }
    // Where there is no such disk, or it is not out, that is the answer, and nothing changes.
    ensures refuses { RefusesReplace core.old core.new disk result }
    ensures replaced { result ≡ Ok None → (disk < (meta_of core.old).setup.geometry.disks)
        × (named_out (meta_of core.old).out ≡ Some disk) }
    ensures table { OnOk result (core_table core.new ≡ core_table core.old) }
    // It is an event of a session.
    ensures turn { IfOk result (λ refusal. CoreGoesOn R.slot_count R.told core.old core.new
        (ReplaceEvent disk) (replace_answer disk refusal)) }
    ensures halts { IfErr result (λ two.
        CoreHalts R.slot_count R.told core.old core.new (ReplaceEvent disk) two) }
    ensures keeps { KeepsCounts core.old core.new result }
    ensures told { Extends (R.told (core_rack core.old)) (R.told (core_rack core.new)) }
{
    if disk >= core.meta().setup.geometry.disks {
        return Ok(Some(ReplaceFault::NoDisk { disk }));
    }
    if !core.out().names(disk) {
        return Ok(Some(ReplaceFault::NotOut { disk }));
    }
    bring(core, disk)
}
