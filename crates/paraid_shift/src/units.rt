//! The units of a shift that are left: dirty cells of the disks that come up, and stripes of the
//! region of the new gear.
ghost use Rattle.std.specs.Prelude.{◌≡◌, ℕ, ◌-◌, ◌<◌, ◌≤◌, true, false, List, IfNone, IfSome};
ghost use Rattle.paraid_base.specs.Soft.{stripe_count};
ghost use Rattle.paraid_base.specs.States.{phase_to, rising_to};
ghost use Rattle.paraid_core.specs.Cores.{IsCoreReady, core_table, meta_of};
ghost use Rattle.paraid_dirty.specs.Table.{IsClean, IsCleanFrom, IsFirstDirty, IsFirstFrom, dirty_count, is_dirty};
ghost use Rattle.paraid_event.specs.Service.{service_of};
ghost use Rattle.paraid_shift.specs.Units.{AreUnitsDone, TellsDone};

use paraid_base::{DiskNo, Row};
use paraid_core::Core;
use paraid_rack::Rack;

/// How many stripes of the region of the new gear are not filled yet.
pub fn stripes_left<R: Rack>(core: &Core<R>) -> u32
    requires ready { IsCoreReady R.slot_count R.slot core.now }
    requires shifts { 0 < phase_to (meta_of core.now).phase }
    ensures left { result ≡ stripe_count (meta_of core.now).setup.geometry.disks
        (meta_of core.now).setup.geometry.rows (phase_to (meta_of core.now).phase)
        - (meta_of core.now).fill }
    ensures within { (meta_of core.now).fill ≤ stripe_count (meta_of core.now).setup.geometry.disks
        (meta_of core.now).setup.geometry.rows (phase_to (meta_of core.now).phase) }
{
    let meta = core.meta();
    meta.setup.geometry.stripes(meta.phase.to()) - meta.fill
}

/// The first dirty cell of the disks that come up.
pub fn first_cell<R: Rack>(core: &Core<R>) -> Option<(Row, DiskNo)>
    requires ready { IsCoreReady R.slot_count R.slot core.now }
    ensures none { IfNone result (IsClean (is_dirty (core_table core.now))
        (meta_of core.now).gear (rising_to (meta_of core.now).phase)) }
    ensures first { IfSome result (λ cell. IsFirstDirty (is_dirty (core_table core.now))
        (meta_of core.now).gear (rising_to (meta_of core.now).phase) cell.0 cell.1) }
    ensures row { IfSome result (λ cell. cell.0 < (meta_of core.now).setup.geometry.rows) }
{
    let meta = core.meta();
    let rises = meta.phase.rising_to();
    if rises <= meta.gear {
        return None;
    }
    core.dirty().next(meta.gear, rises)
}

// From the cell of row `r` and disk `d` on, the first dirty one of the disks that come up.
pub(crate) fn next_cell<R: Rack>(core: &Core<R>, r: Row, d: DiskNo) -> Option<(Row, DiskNo)>
    requires ready { IsCoreReady R.slot_count R.slot core.now }
    requires disk { d ≤ 8 }
    ensures none { IfNone result (IsCleanFrom (is_dirty (core_table core.now)) r d
        (meta_of core.now).gear (rising_to (meta_of core.now).phase)) }
    ensures first { IfSome result (λ cell. IsFirstFrom (is_dirty (core_table core.now)) r d
        (meta_of core.now).gear (rising_to (meta_of core.now).phase) cell.0 cell.1) }
    ensures row { IfSome result (λ cell. cell.0 < (meta_of core.now).setup.geometry.rows) }
    ensures disk { IfSome result (λ cell. cell.1 < 8) }
{
    let meta = core.meta();
    let rises = meta.phase.rising_to();
    if rises <= meta.gear {
        return None;
    }
    core.dirty().next_from(r, d, meta.gear, rises)
}

/// How many dirty cells there are of the disks that come up.
pub fn cells_left<R: Rack>(core: &Core<R>) -> u32
    requires ready { IsCoreReady R.slot_count R.slot core.now }
    ensures some { (meta_of core.now).gear < rising_to (meta_of core.now).phase → result
        ≡ dirty_count (is_dirty (core_table core.now)) (meta_of core.now).setup.geometry.rows
        (meta_of core.now).gear (rising_to (meta_of core.now).phase) }
    ensures none { rising_to (meta_of core.now).phase ≤ (meta_of core.now).gear → result ≡ 0 }
{
    let meta = core.meta();
    let rises = meta.phase.rising_to();
    if rises <= meta.gear {
        return 0;
    }
    core.dirty().count(meta.gear, rises)
}

/// Whether no unit of a shift is left.
pub fn is_done<R: Rack>(core: &Core<R>) -> bool
    requires ready { IsCoreReady R.slot_count R.slot core.now }
    requires shifts { 0 < phase_to (meta_of core.now).phase }
    ensures filled { result ≡ true
        → (meta_of core.now).fill ≡ stripe_count (meta_of core.now).setup.geometry.disks
        (meta_of core.now).setup.geometry.rows (phase_to (meta_of core.now).phase) }
    ensures clean { result ≡ true
        → (r d : ℕ) → r < (meta_of core.now).setup.geometry.rows → (meta_of core.now).gear ≤ d
        → d < phase_to (meta_of core.now).phase → is_dirty (core_table core.now) r d ≡ false }
    ensures done { result ≡ true → AreUnitsDone (meta_of core.now) (core_table core.now) }
    ensures units { (samples : List ℕ) (served energy : ℕ)
        → TellsDone (service_of R.slot_count core.now samples served energy) result }
{
    if stripes_left(core) != 0 {
        return false;
    }
    match first_cell(core) {
        Some(_) => false,
        None => true,
    }
}
