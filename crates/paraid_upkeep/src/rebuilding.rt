//! A disk that is out is replaced, and the ticks of its rebuild.
ghost use Rattle.std.specs.Prelude.{◌≡◌, ℕ, ◌+◌, ◌<◌, ◌≤◌, true, false, List, [], None, Ok, Some, OnOk, IfOk, IfErr, if◌then◌else◌};
ghost use Rattle.paraid_base.specs.declared.state.Out.TheVariants.{Fresh, Gone, No};
ghost use Rattle.paraid_base.specs.declared.state.TickEvent.TheVariants.{Gone as GoneInTick, Moving, Rebuilt};
ghost use Rattle.paraid_base.specs.History.{History};
ghost use Rattle.paraid_base.specs.Log.{worn_at, epoch_limit};
ghost use Rattle.paraid_base.specs.States.{rebuilt_count};
ghost use Rattle.paraid_base.specs.Told.{HasRisen};
ghost use Rattle.paraid_core.specs.Cores.{batch_of, core_down, core_rack, core_table, meta_of, store_of};
ghost use Rattle.paraid_core.specs.PowerCalls.{AnswersPowerCall};
ghost use Rattle.paraid_upkeep.specs.Events.{CommitsAtMost};
ghost use Rattle.paraid_upkeep.specs.Service.{IsOutKnown, LeavesInService, MakesCalls};
ghost use Rattle.paraid_upkeep.specs.TickAnswers.{TellsRebuild, units_unbuilt};
ghost use Rattle.paraid_upkeep.specs.TickTurns.{CoreComesBack, CoreLosesComing, CoreParksBack};
ghost use Rattle.paraid_upkeep.specs.Turns.{CoreTickHalts, CoreTicks};
ghost use Rattle.paraid_event.specs.Service.{service_of};
ghost use Rattle.paraid_event.specs.Steps.{StepsInEvent};
ghost use Rattle.paraid_gear.specs.declared.three_windows.Windows.{Windows as WindowsType};
ghost use Rattle.paraid_image.specs.Mark.{meta_after_loss};
ghost use Rattle.paraid_moves.specs.MoveMetas.{meta_with_out};
ghost use Rattle.paraid_rack.specs.declared.call.Power.TheVariants.{Spinning};
ghost use Rattle.paraid_rack.specs.Told.{Ran};
ghost use Rattle.paraid_record.specs.Range.{rebuild_units as units_of_rebuild};
ghost use Rattle.paraid_session.specs.Powers.{FitsSlots};
ghost use Rattle.paraid_event.specs.CoreServing.{IsCoreServing};
ghost use Rattle.paraid_txn.specs.Losses.{AreTwoDown, IsLostNow};
ghost use Rattle.paraid_rebuild.specs.Rebuilds.{CanRebuild};
ghost use Rattle.paraid_txn.specs.Stores.{named_of};

use paraid_base::{DiskNo, TickEvent, Two};
use paraid_core::Core;
use paraid_rack::Rack;
use paraid_rebuild::{commit_lost, commit_staged, finish, step};
use paraid_record::rebuild_units;

// Parks the disk that has come back, unless the array needs it. False where it was lost in that.
fn park_back<R: Rack>(core: &mut Core<R>, disk: DiskNo) -> Result<bool, Two>
    requires serving { IsCoreServing R.slot_count R.slot core.old }
    requires nothing { batch_of core.old ≡ [] }
    requires whole { (meta_of core.old).out ≡ No }
    requires named { named_of (store_of core.old) ≡ None }
    requires disk { disk < (meta_of core.old).setup.geometry.disks }
    requires spins { (R.slot (core_rack core.old) disk).power ≡ Spinning }
    ensures serves { OnOk result (LeavesInService R.slot_count R.slot core.old core.new) }
    // With it each disk is powered by the gear, where the others are.
    ensures fits { OnOk result
        (FitsSlots (R.slot (core_rack core.old)) (meta_with_out (meta_of core.old) (Gone disk))
        → FitsSlots (R.slot (core_rack core.new)) (meta_of core.new)) }
    ensures answers { AnswersPowerCall disk core.old core.new result }
    ensures marked { result ≡ Ok false
        → meta_of core.new ≡ meta_after_loss (meta_of core.old) disk }
    ensures table { core_table core.new ≡ core_table core.old }
    // In the event of a tick it is the park with which a rebuild ends; no second disk is lost in
    // one call.
    ensures parks { OnOk result (CoreParksBack R.slot_count R.told core.old core.new disk) }
    ensures alone { IfErr result (λ two. R.told (core_rack core.new) ≡ None) }
    ensures calls { MakesCalls R.slot_count R.slot R.told core.old core.new }
{
    if disk < core.meta().gear {
        return Ok(true);
    }
    if disk < core.meta().phase.rising_to() {
        return Ok(true);
    }
    core.park(disk)
}

// Copies the units that are left, and takes the disk into the array again. False where it was lost
// in that.
fn come_back<R: Rack>(core: &mut Core<R>, disk: DiskNo) -> Result<bool, Two>
    requires can { CanRebuild core.old disk }
    requires nothing { batch_of core.old ≡ [] }
    requires disk { disk < (meta_of core.old).setup.geometry.disks }
    requires epoch { (meta_of core.old).epoch < epoch_limit }
    ensures serves { OnOk result (LeavesInService R.slot_count R.slot core.old core.new) }
    ensures commits { OnOk result (CommitsAtMost core.old core.new 1) }
    ensures lost { result ≡ Ok false
        → IsLostNow (R.slot (core_rack core.old)) (R.slot (core_rack core.new)) disk }
    ensures rejoined { result ≡ Ok true → meta_of core.new ≡ record (meta_of core.old)
        { epoch = (meta_of core.new).epoch; out = No } }
    ensures marked { result ≡ Ok false → meta_of core.new
        ≡ record (meta_after_loss (meta_of core.old) disk) { epoch = (meta_of core.new).epoch } }
    ensures table { OnOk result (core_table core.new ≡ core_table core.old) }
    // In the event of a tick these are the calls with which a rebuild ends.
    ensures comes { IfOk result (λ back.
        CoreComesBack R.slot_count R.told core.old core.new disk back) }
    ensures loses { IfErr result (λ two.
        CoreLosesComing R.slot_count R.told core.old core.new disk two) }
    ensures calls { MakesCalls R.slot_count R.slot R.told core.old core.new }
    ensures two { IfErr result (AreTwoDown (core_down core.old)
        (R.slot (core_rack core.old)) (R.slot (core_rack core.new))) }
{
    let copied = finish(core, disk)?;
    if !copied {
        return Ok(false);
    }
    park_back(core, disk)
}

// Commits what is staged, copies the units that are left, and takes the disk into the array again.
// False where it was lost in that: it is gone, which no commit has brought to the disks yet.
fn rejoin_disk<R: Rack>(core: &mut Core<R>, disk: DiskNo) -> Result<bool, Two>
    requires can { CanRebuild core.old disk }
    requires disk { disk < (meta_of core.old).setup.geometry.disks }
    requires epoch { (meta_of core.old).epoch + 1 < epoch_limit }
    ensures serves { OnOk result (LeavesInService R.slot_count R.slot core.old core.new) }
    ensures commits { OnOk result (CommitsAtMost core.old core.new 2) }
    ensures rejoined { result ≡ Ok true → meta_of core.new ≡ record (meta_of core.old)
        { epoch = (meta_of core.new).epoch; out = No } }
    ensures marked { result ≡ Ok false → meta_of core.new
        ≡ record (meta_after_loss (meta_of core.old) disk) { epoch = (meta_of core.new).epoch } }
    ensures lost { result ≡ Ok false
        → IsLostNow (R.slot (core_rack core.old)) (R.slot (core_rack core.new)) disk }
    ensures table { OnOk result (core_table core.new ≡ core_table core.old) }
    // Where it is back, that is a tick of a session, with so many units as were left.
    ensures turn { result ≡ Ok true
        → (rebuilt : ℕ) (windows : WindowsType) → (meta_of core.old).out ≡ Fresh disk rebuilt
        → units_unbuilt (meta_of core.old) disk rebuilt ≤ (meta_of core.old).setup.rate
        → CoreTicks R.slot_count R.told windows core.old core.new
        (record {
          gear = (meta_of core.new).gear;
          moved = units_unbuilt (meta_of core.old) disk rebuilt;
          event = Rebuilt disk;
        }) }
    // Where it was lost, these are parts of the tick with at most two commits.
    ensures event { result ≡ Ok false
        → (samples : List ℕ) (served energy : ℕ) (h : History) (lo : ℕ)
        → Ran (R.told (core_rack core.old)) (R.told (core_rack core.new))
        (StepsInEvent (service_of R.slot_count core.old samples served energy)
        (service_of R.slot_count core.new samples served energy) h lo 2) }
    ensures halts { IfErr result (λ two. (rebuilt : ℕ) (windows : WindowsType)
        → (meta_of core.old).out ≡ Fresh disk rebuilt
        → CoreTickHalts R.slot_count R.told windows core.old core.new two) }
    ensures calls { MakesCalls R.slot_count R.slot R.told core.old core.new }
    ensures two { IfErr result (AreTwoDown (core_down core.old)
        (R.slot (core_rack core.old)) (R.slot (core_rack core.new))) }
{
    let there = commit_staged(core, disk)?;
    if !there {
        return Ok(false);
    }
    come_back(core, disk)
}

// The last tick of a rebuild: what is staged is committed first. False where the disk was lost in
// it: that it is gone is committed.
fn end_rebuild<R: Rack>(core: &mut Core<R>, disk: DiskNo) -> Result<bool, Two>
    requires can { CanRebuild core.old disk }
    requires disk { disk < (meta_of core.old).setup.geometry.disks }
    requires epoch { (meta_of core.old).epoch + 2 < epoch_limit }
    ensures serves { OnOk result (LeavesInService R.slot_count R.slot core.old core.new) }
    ensures commits { OnOk result (CommitsAtMost core.old core.new 3) }
    ensures rejoined { result ≡ Ok true → meta_of core.new ≡ record (meta_of core.old)
        { epoch = (meta_of core.new).epoch; out = No } }
    ensures marked { result ≡ Ok false → meta_of core.new
        ≡ record (meta_after_loss (meta_of core.old) disk) { epoch = (meta_of core.new).epoch } }
    ensures committed { result ≡ Ok false → named_of (store_of core.new) ≡ Some disk }
    ensures failed { result ≡ Ok false → HasRisen
        (R.slot (core_rack core.old) disk).faults (R.slot (core_rack core.new) disk).faults }
    ensures table { OnOk result (core_table core.new ≡ core_table core.old) }
    // It is a tick of a session, with so many units as were left.
    ensures turn { IfOk result (λ back. (rebuilt : ℕ) (windows : WindowsType)
        → (meta_of core.old).out ≡ Fresh disk rebuilt
        → units_unbuilt (meta_of core.old) disk rebuilt ≤ (meta_of core.old).setup.rate → CoreTicks
        R.slot_count R.told windows core.old core.new (record {
          gear = (meta_of core.new).gear;
          moved = if back then units_unbuilt (meta_of core.old) disk rebuilt else 0;
          event = if back then Rebuilt disk else GoneInTick disk;
        })) }
    ensures halts { IfErr result (λ two. (rebuilt : ℕ) (windows : WindowsType)
        → (meta_of core.old).out ≡ Fresh disk rebuilt
        → CoreTickHalts R.slot_count R.told windows core.old core.new two) }
    ensures calls { MakesCalls R.slot_count R.slot R.told core.old core.new }
    ensures two { IfErr result (AreTwoDown (core_down core.old)
        (R.slot (core_rack core.old)) (R.slot (core_rack core.new))) }
{
    let back = rejoin_disk(core, disk)?;
    if back {
        return Ok(true);
    }
    commit_lost(core, disk)?;
    Ok(false)
}

// Another tick of it: the units below `end` are moved. False where the disk was lost in that.
fn move_units<R: Rack>(core: &mut Core<R>, disk: DiskNo, end: u32) -> Result<bool, Two>
    requires can { CanRebuild core.old disk }
    requires from { rebuilt_count (meta_of core.old).out ≤ end }
    requires limit { end
        ≤ units_of_rebuild (meta_of core.old).setup.geometry (meta_of core.old).gear disk }
    requires epoch { (meta_of core.old).epoch + 2 < epoch_limit }
    ensures serves { OnOk result (LeavesInService R.slot_count R.slot core.old core.new) }
    ensures commits { OnOk result (CommitsAtMost core.old core.new 3) }
    ensures moved { result ≡ Ok true → meta_of core.new ≡ record (meta_of core.old)
        { epoch = (meta_of core.new).epoch; out = Fresh disk end } }
    ensures marked { result ≡ Ok false → meta_of core.new
        ≡ record (meta_after_loss (meta_of core.old) disk) { epoch = (meta_of core.new).epoch } }
    ensures committed { result ≡ Ok false → named_of (store_of core.new) ≡ Some disk }
    ensures failed { result ≡ Ok false → HasRisen
        (R.slot (core_rack core.old) disk).faults (R.slot (core_rack core.new) disk).faults }
    ensures table { OnOk result (core_table core.new ≡ core_table core.old) }
    // It is a tick of a session, where the rate leaves some units.
    ensures turn { IfOk result (λ moved. (rebuilt : ℕ) (windows : WindowsType)
        → (meta_of core.old).out ≡ Fresh disk rebuilt
        → (meta_of core.old).setup.rate < units_unbuilt (meta_of core.old) disk rebuilt
        → end ≡ rebuilt + (meta_of core.old).setup.rate → CoreTicks R.slot_count R.told windows
        core.old core.new (record {
          gear = (meta_of core.new).gear;
          moved = if moved then (meta_of
              core.old).setup.rate else 0;
          event = if moved then Moving else GoneInTick disk;
        })) }
    ensures halts { IfErr result (λ two. (rebuilt : ℕ) (windows : WindowsType)
        → (meta_of core.old).out ≡ Fresh disk rebuilt
        → CoreTickHalts R.slot_count R.told windows core.old core.new two) }
    ensures calls { MakesCalls R.slot_count R.slot R.told core.old core.new }
    ensures two { IfErr result (AreTwoDown (core_down core.old)
        (R.slot (core_rack core.old)) (R.slot (core_rack core.new))) }
{
    step(core, disk, end)
}

// The tick of a rebuild: it moves units, and ends the rebuild with the last of them.
pub(crate) fn rebuild<R: Rack>(
    core: &mut Core<R>,
    disk: DiskNo,
    first: u32,
) -> Result<(u32, TickEvent), Two>
    requires serving { IsCoreServing R.slot_count R.slot core.old }
    requires fresh { (meta_of core.old).out ≡ Fresh disk first }
    requires known { IsOutKnown R.slot core.old }
    requires epoch { (meta_of core.old).epoch < worn_at }
    ensures serves { OnOk result (LeavesInService R.slot_count R.slot core.old core.new) }
    ensures commits { OnOk result (CommitsAtMost core.old core.new 3) }
    ensures tells { IfOk result (λ done.
        TellsRebuild (meta_of core.old) (meta_of core.new) disk first done.0 done.1) }
    // A disk that is told as gone has failed in the tick, and is named out by its last commit.
    ensures committed { IfOk result (λ done. done.1 ≡ GoneInTick disk
        → named_of (store_of core.new) ≡ Some disk) }
    ensures failed { IfOk result (λ done. done.1 ≡ GoneInTick disk → HasRisen
        (R.slot (core_rack core.old) disk).faults (R.slot (core_rack core.new) disk).faults) }
    ensures table { OnOk result (core_table core.new ≡ core_table core.old) }
    // It is a tick of a session.
    ensures turn { IfOk result (λ done. (windows : WindowsType)
        → CoreTicks R.slot_count R.told windows core.old core.new
        (record { gear = (meta_of core.new).gear; moved = done.0; event = done.1 })) }
    ensures halts { IfErr result (λ two. (windows : WindowsType)
        → CoreTickHalts R.slot_count R.told windows core.old core.new two) }
    ensures calls { MakesCalls R.slot_count R.slot R.told core.old core.new }
    ensures two { IfErr result (AreTwoDown (core_down core.old)
        (R.slot (core_rack core.old)) (R.slot (core_rack core.new))) }
{
    let setup = &core.meta().setup;
    let rate = setup.rate;
    let left = rebuild_units(&setup.geometry, core.meta().gear, disk) - first;
    if rate < left {
        let moved = move_units(core, disk, first + rate)?;
        if moved {
            return Ok((rate, TickEvent::Moving));
        }
        return Ok((0, TickEvent::Gone { disk }));
    }
    let back = end_rebuild(core, disk)?;
    if back {
        return Ok((left, TickEvent::Rebuilt { disk }));
    }
    Ok((0, TickEvent::Gone { disk }))
}
