//! The planner: bounds period by period from the last one back, and then the steps that meet them.

ghost use Rattle.std.specs.Prelude.{◌≡◌, ◌↔◌, ◌⊎◌, ℕ, ◌+◌, ◌^◌, ◌<◌, ◌≤◌, min, IsTrue, IfOk, IfErr, OnOk, MatchOption, length, slice_index};
ghost use Rattle.paraid_base.specs.Regions.{IsGear};
ghost use Rattle.paraid_record.specs.Range.{AreNextGears};
ghost use Rattle.paraid_schedule.specs.Schedule.{IsDemand, IsSchedule, IsGearStep, GearServes, rise};
ghost use Rattle.paraid_schedule.specs.Cost.{period_cost as price_of_period, step_cost as price_of_step, schedule_cost, spin_ups};
ghost use Rattle.paraid_schedule.specs.Bounds.{no_bound, row_start, bound_count, rank, bound, HasRow, AreRight};
ghost use Rattle.paraid_schedule.specs.Solved.{AreLoweredBy, IsMetBy, IsSolvedAt, AreSolvedFrom, DifferInRow, AreSameIn};
ghost use Rattle.paraid_schedule.specs.Plan.{AreLowest, IsCertified, IsLeastCost, IsPlanFault};

use crate::{GearPlan, PlanFault};
use paraid_base::{Geometry, NoMemory};
use paraid_record::Setup;
use std::alloc::Global;

/// The most reads and writes of a period.
pub const MOST_REQUESTS: u32 = 1_048_576;

/// The bound that stands for none.
const NONE: u64 = 1 << 62;

/// The cheapest schedule for a demand with at most `ups` steps up, and the bounds that show it.
pub fn plan_gears(
    alloc: Global,
    setup: &Setup,
    demand: &[u32],
    ups: u16,
) -> Result<GearPlan, PlanFault>
    requires few { ups ≤ 256 }
    requires ration { ups ≤ setup.now.ration }
    ensures certified { IfOk result (λ plan. IsCertified setup.now demand.now ups plan) }
    ensures least { IfOk result (λ plan. IsLeastCost setup.now demand.now ups plan.cost) }
    ensures lowest { IfOk result (λ plan. AreLowest setup.now demand.now ups plan.gears) }
    ensures spins { IfOk result (λ plan. (d : ℕ) → spin_ups plan.gears d ≤ ups) }
    ensures ration { IfOk result (λ plan. (d : ℕ) → spin_ups plan.gears d ≤ setup.now.ration) }
    ensures demand { IfOk result (λ plan. IsDemand demand.now) }
    ensures err { IfErr result (IsPlanFault demand.now) }
{
    test_demand(demand)?;
    let Ok(bounds) = solve(alloc, setup, demand, ups) else {
        return Err(PlanFault::NoMemory);
    };
    let Ok(gears) = follow(alloc, setup, demand, ups, &bounds) else {
        return Err(PlanFault::NoMemory);
    };
    let cost = bounds[place(&setup.geometry, ups, 0, setup.geometry.disks) + ups as usize];
    Ok(GearPlan::from_parts(gears, cost, bounds))
}

/// Whether a demand has 1 to 1,024 periods with at most 1,048,576 each.
fn test_demand(demand: &[u32]) -> Result<(), PlanFault>
    ensures ok { OnOk result (IsDemand demand.now) }
    ensures err { IfErr result (IsPlanFault demand.now) }
{
    if demand.len() < 1 || demand.len() > 1024 {
        return Err(PlanFault::Length {
            length: demand.len().min(u32::MAX as usize) as u32,
        });
    }
    for at in 0..demand.len() {
        if demand[at] > MOST_REQUESTS {
            return Err(PlanFault::Demand { at: at as u32 });
        }
    }
    Ok(())
}

/// Whether a gear serves so much.
fn serves(setup: &Setup, demanded: u32, gear: u8) -> bool
    ensures { IsTrue result ↔ GearServes setup.now demanded gear }
{
    gear == setup.geometry.disks
        || 100 * (demanded as u64) < setup.up as u64 * setup.service as u64 * gear as u64
}

/// What a period in this gear costs.
fn period_cost(setup: &Setup, gear: u8) -> u64
    requires { gear ≤ setup.now.geometry.disks }
    ensures value { result ≡ price_of_period setup.now gear }
    ensures small { result < 2 ^ 40 }
{
    let parked = setup.geometry.disks - gear;
    gear as u64 * setup.spinning_mj as u64 + parked as u64 * setup.parked_mj as u64
}

/// What a step up to gear `to` costs.
fn rise_cost(setup: &Setup, from: u8, to: u8) -> u64
    requires { from ≤ to }
    ensures value { result ≡ price_of_step setup.now from to }
    ensures small { result < 2 ^ 40 }
{
    (to - from) as u64 * setup.spinup_mj as u64
}

/// The number of gears below `a`.
fn gears_below(geometry: &Geometry, a: u8) -> usize
    requires { a ≤ 9 }
    ensures value { result ≡ rank geometry.now a }
    ensures few { result ≤ a }
{
    let mut below = 0;
    for e in 0..a {
        if geometry.is_gear(e) {
            below += 1;
        }
    }
    below
}

/// Where the bounds of period `t` and gear `a` begin.
fn place(geometry: &Geometry, ups: u16, t: usize, a: u8) -> usize
    requires ups { ups ≤ 256 }
    requires period { t ≤ 1024 }
    requires gear { a ≤ 9 }
    ensures value { result ≡ row_start geometry.now ups t a }
    ensures small { result < 2 ^ 32 }
{
    let gears = gears_below(geometry, geometry.disks + 1);
    (t * gears + gears_below(geometry, a)) * (ups as usize + 1)
}

/// Sets so many bounds from `at` on to none.
fn clear(bounds: &mut [u64], at: usize, count: usize)
    requires within { at + count ≤ length bounds.old }
    requires most { (k : ℕ) → slice_index bounds.old k ≤ no_bound }
    ensures cleared { (j : ℕ) → j < count → slice_index bounds.new (at + j) ≡ no_bound }
    ensures same { (k : ℕ)
        → (k < at) ⊎ (at + count ≤ k) → slice_index bounds.new k ≡ slice_index bounds.old k }
    ensures most { (k : ℕ) → slice_index bounds.new k ≤ no_bound }
{
    for j in 0..count {
        bounds[at + j] = NONE;
    }
}

/// Lowers each of so many bounds from `at` on to `cost` and the one as far from `next` on.
fn relax(bounds: &mut [u64], at: usize, next: usize, cost: u64, count: usize)
    requires apart { at + count ≤ next }
    requires within { next + count ≤ length bounds.old }
    requires most { (k : ℕ) → slice_index bounds.old k ≤ no_bound }
    requires cost { cost ≤ no_bound }
    ensures relaxed { (j : ℕ) → j < count → slice_index bounds.new (at + j)
        ≡ min (slice_index bounds.old (at + j)) (cost + slice_index bounds.old (next + j)) }
    ensures same { (k : ℕ)
        → (k < at) ⊎ (at + count ≤ k) → slice_index bounds.new k ≡ slice_index bounds.old k }
    ensures most { (k : ℕ) → slice_index bounds.new k ≤ no_bound }
{
    for j in 0..count {
        bounds[at + j] = bounds[at + j].min(cost + bounds[next + j]);
    }
}

/// Lowers the bounds of a period and gear to what a step costs to gear `b`, which is not above it.
fn relax_to(setup: &Setup, ups: u16, bounds: &mut [u64], t: usize, a: u8, b: u8)
    requires row { HasRow setup.now.geometry ups bounds.old t a }
    requires gear { IsGear setup.now.geometry b }
    requires low { b ≤ a }
    ensures { AreLoweredBy (λ e. e ≡ b) setup.now ups t a bounds.old bounds.new }
{
    let at = place(&setup.geometry, ups, t, a);
    let next = place(&setup.geometry, ups, t + 1, b);
    relax(bounds, at, next, period_cost(setup, a), ups as usize + 1);
}

/// Lowers them to what a step to the next lower gear costs.
fn relax_by_fall(setup: &Setup, ups: u16, bounds: &mut [u64], t: usize, a: u8)
    requires { HasRow setup.now.geometry ups bounds.old t a }
    ensures { AreLoweredBy (λ b.
        AreNextGears setup.now.geometry b a) setup.now ups t a bounds.old bounds.new }
{
    if let Some(b) = setup.geometry.lower(a) {
        relax_to(setup, ups, bounds, t, a, b);
    }
}

/// Lowers them to what a step to the next higher gear costs, where one is left.
fn relax_by_rise(setup: &Setup, ups: u16, bounds: &mut [u64], t: usize, a: u8)
    requires { HasRow setup.now.geometry ups bounds.old t a }
    ensures { AreLoweredBy (λ b.
        AreNextGears setup.now.geometry a b) setup.now ups t a bounds.old bounds.new }
{
    if let Some(b) = setup.geometry.higher(a) {
        let at = place(&setup.geometry, ups, t, a);
        let next = place(&setup.geometry, ups, t + 1, b);
        let cost = period_cost(setup, a) + rise_cost(setup, a, b);
        relax(bounds, at + 1, next, cost, ups as usize);
    }
}

/// Works out the bounds of a period and gear from those of the next period.
fn solve_gear(setup: &Setup, demanded: u32, ups: u16, bounds: &mut [u64], t: usize, a: u8)
    requires { HasRow setup.now.geometry ups bounds.old t a }
    ensures solved { IsSolvedAt setup.now demanded ups bounds.new t a }
    ensures same { DifferInRow setup.now.geometry ups t a bounds.old bounds.new }
    ensures most { (k : ℕ) → slice_index bounds.new k ≤ no_bound }
{
    clear(bounds, place(&setup.geometry, ups, t, a), ups as usize + 1);
    if !serves(setup, demanded, a) {
        return;
    }
    relax_to(setup, ups, bounds, t, a, a);
    relax_by_fall(setup, ups, bounds, t, a);
    relax_by_rise(setup, ups, bounds, t, a);
}

/// Works out the bounds of a period from those of the next one.
fn solve_period(setup: &Setup, demanded: u32, ups: u16, bounds: &mut [u64], t: usize)
    requires ups { ups ≤ 256 }
    requires period { t < 1024 }
    requires room { bound_count setup.now.geometry ups (t + 1) ≤ length bounds.old }
    requires most { (k : ℕ) → slice_index bounds.old k ≤ no_bound }
    ensures solved { (a : ℕ)
        → IsGear setup.now.geometry a → IsSolvedAt setup.now demanded ups bounds.new t a }
    ensures same { (u : ℕ) → t < u → AreSameIn setup.now.geometry ups u bounds.old bounds.new }
    ensures most { (k : ℕ) → slice_index bounds.new k ≤ no_bound }
{
    for a in 3..setup.geometry.disks + 1 {
        if setup.geometry.is_gear(a) {
            solve_gear(setup, demanded, ups, bounds, t, a);
        }
    }
}

/// Works out the bounds of all periods, of which those past the last one are 0.
fn solve_periods(setup: &Setup, demand: &[u32], ups: u16, bounds: &mut [u64])
    requires ups { ups ≤ 256 }
    requires periods { length demand.now ≤ 1024 }
    requires count { length bounds.old ≡ bound_count setup.now.geometry ups (length demand.now) }
    requires zero { (k : ℕ) → slice_index bounds.old k ≡ 0 }
    ensures count { length bounds.new ≡ bound_count setup.now.geometry ups (length demand.now) }
    ensures most { (k : ℕ) → slice_index bounds.new k ≤ no_bound }
    ensures end { (a left : ℕ) → IsGear setup.now.geometry a → left ≤ ups
        → bound setup.now.geometry ups bounds.new (length demand.now) a left ≡ 0 }
    ensures solved { AreSolvedFrom 0 setup.now demand.now ups bounds.new }
{
    for t in (0..demand.len()).rev() {
        solve_period(setup, demand[t], ups, bounds, t);
    }
}

/// The bounds for a demand.
fn solve(alloc: Global, setup: &Setup, demand: &[u32], ups: u16) -> Result<Vec<u64>, NoMemory>
    requires ups { ups ≤ 256 }
    requires periods { length demand.now ≤ 1024 }
    ensures right { IfOk result (λ bounds. AreRight setup.now demand.now ups bounds.items) }
    ensures solved { IfOk result (λ bounds. AreSolvedFrom 0 setup.now demand.now ups bounds.items) }
{
    let gears = gears_below(&setup.geometry, setup.geometry.disks + 1);
    let count = (demand.len() + 1) * gears * (ups as usize + 1);
    let Ok(mut bounds) = vec![in alloc; 0u64; count] else {
        return Err(NoMemory);
    };
    solve_periods(setup, demand, ups, &mut bounds);
    Ok(bounds)
}

/// The next lower gear, if a step to it costs no more than the bound allows.
fn meeting_fall(setup: &Setup, ups: u16, bounds: &[u64], t: usize, a: u8, left: u16) -> Option<u8>
    requires row { HasRow setup.now.geometry ups bounds.now t a }
    requires left { left ≤ ups }
    ensures { MatchOption result ((b : ℕ) → AreNextGears setup.now.geometry b a
        → ¬ IsMetBy setup.now ups bounds.now t a left b) (λ b. AreNextGears setup.now.geometry b a
        × IsMetBy setup.now ups bounds.now t a left b) }
{
    let aim = bounds[place(&setup.geometry, ups, t, a) + left as usize];
    match setup.geometry.lower(a) {
        None => None,
        Some(b) => {
            let next = bounds[place(&setup.geometry, ups, t + 1, b) + left as usize];
            if period_cost(setup, a) + next == aim {
                Some(b)
            } else {
                None
            }
        }
    }
}

/// Whether staying in the gear costs no more than the bound allows.
fn stay_meets(setup: &Setup, ups: u16, bounds: &[u64], t: usize, a: u8, left: u16) -> bool
    requires row { HasRow setup.now.geometry ups bounds.now t a }
    requires left { left ≤ ups }
    ensures { IsTrue result ↔ IsMetBy setup.now ups bounds.now t a left a }
{
    let aim = bounds[place(&setup.geometry, ups, t, a) + left as usize];
    let next = bounds[place(&setup.geometry, ups, t + 1, a) + left as usize];
    period_cost(setup, a) + next == aim
}

/// The next gear by a step that meets the bound; the lowest one where several do.
fn next_gear(
    setup: &Setup,
    demanded: u32,
    ups: u16,
    bounds: &[u64],
    t: usize,
    a: u8,
    left: u16,
) -> u8
    requires row { HasRow setup.now.geometry ups bounds.now t a }
    requires left { left ≤ ups }
    requires solved { IsSolvedAt setup.now demanded ups bounds.now t a }
    requires some { bound setup.now.geometry ups bounds.now t a left < no_bound }
    ensures step { IsGearStep setup.now.geometry a result }
    ensures permitted { rise a result ≤ left }
    ensures met { IsMetBy setup.now ups bounds.now t a left result }
    ensures lowest { (b : ℕ) → IsGearStep setup.now.geometry a b → rise a b ≤ left
        → IsMetBy setup.now ups bounds.now t a left b → result ≤ b }
{
    if let Some(b) = meeting_fall(setup, ups, bounds, t, a, left) {
        return b;
    }
    if stay_meets(setup, ups, bounds, t, a, left) {
        return a;
    }
    match setup.geometry.higher(a) {
        Some(b) => b,
        None => a,
    }
}

/// The gears from the start by steps that meet the bounds.
fn follow(
    alloc: Global,
    setup: &Setup,
    demand: &[u32],
    ups: u16,
    bounds: &[u64],
) -> Result<Vec<u8>, NoMemory>
    requires demand { IsDemand demand.now }
    requires ups { ups ≤ 256 }
    requires right { AreRight setup.now demand.now ups bounds.now }
    requires solved { AreSolvedFrom 0 setup.now demand.now ups bounds.now }
    ensures schedule { IfOk result (λ gears. IsSchedule setup.now demand.now ups gears.items) }
    ensures cost { IfOk result (λ gears. schedule_cost setup.now gears.items
        ≡ bound setup.now.geometry ups bounds.now 0 setup.now.geometry.disks ups) }
    ensures lowest { IfOk result (λ gears. AreLowest setup.now demand.now ups gears.items) }
{
    // (the proof has the bound of a number that is read)
    let _spinning = setup.spinning_mj;
    let mut gears = Vec::new(alloc);
    let mut gear = setup.geometry.disks;
    let mut left = ups;
    let Ok(()) = gears.push(gear) else {
        return Err(NoMemory);
    };
    for t in 1..demand.len() {
        let next = next_gear(setup, demand[t - 1], ups, bounds, t - 1, gear, left);
        if next > gear {
            left -= 1;
        }
        gear = next;
        let Ok(()) = gears.push(gear) else {
            return Err(NoMemory);
        };
    }
    Ok(gears)
}
