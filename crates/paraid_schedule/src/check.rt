//! The check of a plan, which shares no code with the planner: it tests what the plan claims.

ghost use Rattle.std.specs.Prelude.{◌≡◌, ◌↔◌, ℕ, ◌+◌, ◌^◌, ◌<◌, ◌≤◌, IsTrue, length, slice_index};
ghost use Rattle.paraid_base.specs.Regions.{IsGear};
ghost use Rattle.paraid_record.specs.Range.{AreNextGears};
ghost use Rattle.paraid_schedule.specs.Schedule.{IsDemand, IsSchedule, IsGearStep, GearServes, rise, rises};
ghost use Rattle.paraid_schedule.specs.Cost.{period_cost, step_cost, schedule_cost};
ghost use Rattle.paraid_schedule.specs.Bounds.{no_bound, row_start as row_of, bound_count, rank as rank_of, bound, onward, HasRow, AreRight, IsRightAt};
ghost use Rattle.paraid_schedule.specs.Plan.{IsCertified, IsLeastCost};
ghost use Rattle.paraid_energy.specs.Account.{HasFigures};

use crate::GearPlan;
use paraid_base::Geometry;
use paraid_energy::Ledger;
use paraid_record::Setup;

/// The bound that stands for none.
const NONE: u64 = 1 << 62;

/// Whether a plan's gears are a schedule, its cost is theirs, its bounds are right, and the bound
/// of the start is the cost. Then no schedule costs less.
pub fn check_plan(setup: &Setup, demand: &[u32], ups: u16, plan: &GearPlan) -> bool
    requires demand { IsDemand demand.now }
    requires few { ups ≤ 256 }
    requires ration { ups ≤ setup.now.ration }
    ensures exact { IsTrue result ↔ IsCertified setup.now demand.now ups plan.now }
    ensures least { IsTrue result → IsLeastCost setup.now demand.now ups plan.now.cost }
{
    let gears = plan.gears();
    let bounds = plan.bounds();
    if !is_schedule(setup, demand, ups, gears) {
        return false;
    }
    if !are_right(setup, demand, ups, bounds) {
        return false;
    }
    cost_of(setup, gears) == plan.cost() && start_of(setup, ups, bounds) == plan.cost()
}

/// Whether there is one gear for each period, and the gears are a schedule.
fn is_schedule(setup: &Setup, demand: &[u32], ups: u16, gears: &[u8]) -> bool
    requires { IsDemand demand.now }
    ensures { IsTrue result ↔ IsSchedule setup.now demand.now ups gears.now }
{
    gears.len() == demand.len()
        && gears[0] == setup.geometry.disks
        && are_served(setup, demand, gears)
        && are_steps(&setup.geometry, gears)
        && count_rises(gears) <= ups
}

/// Whether a gear serves so much.
fn is_served(setup: &Setup, demanded: u32, gear: u8) -> bool
    ensures { IsTrue result ↔ GearServes setup.now demanded gear }
{
    gear == setup.geometry.disks
        || 100 * (demanded as u64) < setup.up as u64 * setup.service as u64 * gear as u64
}

/// Whether each gear serves the demand of its period.
fn are_served(setup: &Setup, demand: &[u32], gears: &[u8]) -> bool
    requires { length gears.now ≡ length demand.now }
    ensures { IsTrue result ↔ ((t : ℕ) → t < length gears.now
        → GearServes setup.now (slice_index demand.now t) (slice_index gears.now t)) }
{
    for t in 0..gears.len() {
        if !is_served(setup, demand[t], gears[t]) {
            return false;
        }
    }
    true
}

/// Whether these are two gears with none between them.
fn are_next_gears(geometry: &Geometry, lower: u8, higher: u8) -> bool
    ensures { IsTrue result ↔ AreNextGears geometry.now lower higher }
{
    if !geometry.is_gear(lower) {
        return false;
    }
    match geometry.higher(lower) {
        Some(next) => next == higher,
        None => false,
    }
}

/// Whether the gear stays, or goes to the next one in either direction.
fn is_step(geometry: &Geometry, from: u8, to: u8) -> bool
    ensures { IsTrue result ↔ IsGearStep geometry.now from to }
{
    to == from || are_next_gears(geometry, to, from) || are_next_gears(geometry, from, to)
}

/// Whether the gears go by steps.
fn are_steps(geometry: &Geometry, gears: &[u8]) -> bool
    requires { length gears.now ≤ 1024 }
    ensures { IsTrue result ↔ ((t : ℕ) → t + 1 < length gears.now
        → IsGearStep geometry.now (slice_index gears.now t) (slice_index gears.now (t + 1))) }
{
    for t in 1..gears.len() {
        if !is_step(geometry, gears[t - 1], gears[t]) {
            return false;
        }
    }
    true
}

/// How many steps lead to a higher gear.
fn count_rises(gears: &[u8]) -> u16
    requires some { 1 ≤ length gears.now }
    requires few { length gears.now ≤ 1024 }
    ensures { result ≡ rises gears.now }
{
    let mut count = 0;
    for t in 1..gears.len() {
        if gears[t] > gears[t - 1] {
            count += 1;
        }
    }
    count
}

/// What the gears cost, as the ledger of energy counts it.
fn cost_of(setup: &Setup, gears: &[u8]) -> u64
    requires some { 1 ≤ length gears.now }
    requires few { length gears.now ≤ 1024 }
    requires gears { (t : ℕ)
        → t < length gears.now → slice_index gears.now t ≤ setup.now.geometry.disks }
    ensures { result ≡ schedule_cost setup.now gears.now }
{
    let mut ledger = Ledger::new(setup);
    for t in 1..gears.len() {
        count_period(setup, &mut ledger, gears[t - 1]);
        count_step(setup, &mut ledger, gears[t - 1], gears[t]);
    }
    count_period(setup, &mut ledger, gears[gears.len() - 1]);
    ledger.total()
}

/// Counts what a period in this gear uses.
fn count_period(setup: &Setup, ledger: &mut Ledger, gear: u8)
    requires gear { gear ≤ setup.now.geometry.disks }
    requires figures { HasFigures setup.now ledger.old }
    requires room { ledger.old.total < 2 ^ 60 }
    ensures figures { HasFigures setup.now ledger.new }
    ensures total { ledger.new.total ≡ ledger.old.total + period_cost setup.now gear }
    ensures small { ledger.new.total ≤ ledger.old.total + 2 ^ 40 }
{
    // (the proof has the bounds of numbers that are read)
    let _spinning = setup.spinning_mj;
    let _parked = setup.parked_mj;
    ledger.tick(gear, setup.geometry.disks - gear);
}

/// Counts the disks that spin up at this step.
fn count_step(setup: &Setup, ledger: &mut Ledger, from: u8, to: u8)
    requires figures { HasFigures setup.now ledger.old }
    requires room { ledger.old.total < 2 ^ 60 }
    ensures figures { HasFigures setup.now ledger.new }
    ensures total { ledger.new.total ≡ ledger.old.total + step_cost setup.now from to }
    ensures small { ledger.new.total ≤ ledger.old.total + 2 ^ 40 }
{
    // (its bound, as above)
    let _spinup = setup.spinup_mj;
    ledger.spin_up(to.saturating_sub(from));
}

/// How many gears are below `a`.
fn rank(geometry: &Geometry, a: u8) -> usize
    requires { a ≤ 9 }
    ensures value { result ≡ rank_of geometry.now a }
    ensures few { result ≤ a }
{
    let mut count = 0;
    for e in 0..a {
        if geometry.is_gear(e) {
            count += 1;
        }
    }
    count
}

/// Where the bounds of period `t` and gear `a` begin.
fn row(geometry: &Geometry, ups: u16, t: usize, a: u8) -> usize
    requires ups { ups ≤ 256 }
    requires period { t ≤ 1024 }
    requires gear { a ≤ 9 }
    ensures value { result ≡ row_of geometry.now ups t a }
    ensures small { result < 2 ^ 32 }
{
    (t * rank(geometry, geometry.disks + 1) + rank(geometry, a)) * (ups as usize + 1)
}

/// Whether so many bounds from `at` on are this one.
fn are_all(bounds: &[u64], at: usize, count: usize, bound: u64) -> bool
    requires { at + count ≤ length bounds.now }
    ensures { IsTrue result ↔ ((j : ℕ) → j < count → slice_index bounds.now (at + j) ≡ bound) }
{
    for j in 0..count {
        if bounds[at + j] != bound {
            return false;
        }
    }
    true
}

/// Whether each of so many bounds from `at` on is at most `cost` and the one as far from `next` on.
fn are_within(bounds: &[u64], at: usize, next: usize, cost: u64, count: usize) -> bool
    requires at { at + count ≤ length bounds.now }
    requires next { next + count ≤ length bounds.now }
    requires most { (k : ℕ) → slice_index bounds.now k ≤ no_bound }
    requires cost { cost ≤ no_bound }
    ensures { IsTrue result ↔ ((j : ℕ) → j < count
        → slice_index bounds.now (at + j) ≤ cost + slice_index bounds.now (next + j)) }
{
    for j in 0..count {
        if bounds[at + j] > cost + bounds[next + j] {
            return false;
        }
    }
    true
}

/// Whether no bound is above that for none.
fn are_low(bounds: &[u64]) -> bool
    ensures { IsTrue result ↔ ((k : ℕ) → slice_index bounds.now k ≤ no_bound) }
{
    for k in 0..bounds.len() {
        if bounds[k] > NONE {
            return false;
        }
    }
    true
}

/// What a period in gear `a` costs.
fn period_of(setup: &Setup, a: u8) -> u64
    requires { a ≤ setup.now.geometry.disks }
    ensures value { result ≡ period_cost setup.now a }
    ensures small { result < 2 ^ 40 }
{
    a as u64 * setup.spinning_mj as u64 + (setup.geometry.disks - a) as u64 * setup.parked_mj as u64
}

/// What a step from gear `a` up to gear `b` costs.
fn step_of(setup: &Setup, a: u8, b: u8) -> u64
    requires { a ≤ b }
    ensures value { result ≡ step_cost setup.now a b }
    ensures small { result < 2 ^ 40 }
{
    (b - a) as u64 * setup.spinup_mj as u64
}

/// Whether the bounds of a period and gear allow for a step to the next lower gear.
fn allow_a_fall(setup: &Setup, ups: u16, bounds: &[u64], t: usize, a: u8) -> bool
    requires { HasRow setup.now.geometry ups bounds.now t a }
    ensures { IsTrue result ↔ ((left b : ℕ) → left ≤ ups
        → AreNextGears setup.now.geometry b a → bound setup.now.geometry ups bounds.now t a left
        ≤ onward setup.now ups bounds.now t a left b) }
{
    let geometry = &setup.geometry;
    match geometry.lower(a) {
        None => true,
        Some(b) => {
            let at = row(geometry, ups, t, a);
            let next = row(geometry, ups, t + 1, b);
            are_within(bounds, at, next, period_of(setup, a), ups as usize + 1)
        }
    }
}

/// Whether they allow for staying in the gear.
fn allow_a_stay(setup: &Setup, ups: u16, bounds: &[u64], t: usize, a: u8) -> bool
    requires { HasRow setup.now.geometry ups bounds.now t a }
    ensures { IsTrue result
        ↔ ((left : ℕ) → left ≤ ups → bound setup.now.geometry ups bounds.now t a left
        ≤ onward setup.now ups bounds.now t a left a) }
{
    let geometry = &setup.geometry;
    let at = row(geometry, ups, t, a);
    let next = row(geometry, ups, t + 1, a);
    are_within(bounds, at, next, period_of(setup, a), ups as usize + 1)
}

/// Whether they allow for a step to the next higher gear, where one is left.
fn allow_a_rise(setup: &Setup, ups: u16, bounds: &[u64], t: usize, a: u8) -> bool
    requires { HasRow setup.now.geometry ups bounds.now t a }
    ensures { IsTrue result ↔ ((left b : ℕ) → left ≤ ups → AreNextGears setup.now.geometry a b
        → rise a b ≤ left → bound setup.now.geometry ups bounds.now t a left
        ≤ onward setup.now ups bounds.now t a left b) }
{
    let geometry = &setup.geometry;
    match geometry.higher(a) {
        None => true,
        Some(b) => {
            let at = row(geometry, ups, t, a);
            let next = row(geometry, ups, t + 1, b);
            let cost = period_of(setup, a) + step_of(setup, a, b);
            are_within(bounds, at + 1, next, cost, ups as usize)
        }
    }
}

/// Whether the bounds of a period and gear are right.
fn is_right_at(setup: &Setup, demanded: u32, ups: u16, bounds: &[u64], t: usize, a: u8) -> bool
    requires { HasRow setup.now.geometry ups bounds.now t a }
    ensures { IsTrue result ↔ IsRightAt setup.now demanded ups bounds.now t a }
{
    if !is_served(setup, demanded, a) {
        let at = row(&setup.geometry, ups, t, a);
        return are_all(bounds, at, ups as usize + 1, NONE);
    }
    allow_a_stay(setup, ups, bounds, t, a)
        && allow_a_fall(setup, ups, bounds, t, a)
        && allow_a_rise(setup, ups, bounds, t, a)
}

/// Whether the bounds of a period are right.
fn is_right_in(setup: &Setup, demanded: u32, ups: u16, bounds: &[u64], t: usize) -> bool
    requires ups { ups ≤ 256 }
    requires period { t < 1024 }
    requires room { bound_count setup.now.geometry ups (t + 1) ≤ length bounds.now }
    requires most { (k : ℕ) → slice_index bounds.now k ≤ no_bound }
    ensures { IsTrue result ↔ ((a : ℕ)
        → IsGear setup.now.geometry a → IsRightAt setup.now demanded ups bounds.now t a) }
{
    for a in 3..setup.geometry.disks + 1 {
        if setup.geometry.is_gear(a) && !is_right_at(setup, demanded, ups, bounds, t, a) {
            return false;
        }
    }
    true
}

/// Whether the bounds past the last period are 0.
fn end_at_zero(geometry: &Geometry, ups: u16, bounds: &[u64], periods: usize) -> bool
    requires ups { ups ≤ 256 }
    requires periods { periods ≤ 1024 }
    requires room { bound_count geometry.now ups periods ≤ length bounds.now }
    ensures { IsTrue result ↔ ((a left : ℕ) → IsGear geometry.now a → left ≤ ups
        → bound geometry.now ups bounds.now periods a left ≡ 0) }
{
    for a in 3..geometry.disks + 1 {
        if geometry.is_gear(a)
            && !are_all(bounds, row(geometry, ups, periods, a), ups as usize + 1, 0)
        {
            return false;
        }
    }
    true
}

/// How many bounds there are for so many periods.
fn count_bounds(geometry: &Geometry, ups: u16, periods: usize) -> usize
    requires ups { ups ≤ 256 }
    requires periods { periods ≤ 1024 }
    ensures { result ≡ bound_count geometry.now ups periods }
{
    (periods + 1) * rank(geometry, geometry.disks + 1) * (ups as usize + 1)
}

/// Whether the bounds of each period are right.
fn are_right_in_each(setup: &Setup, demand: &[u32], ups: u16, bounds: &[u64]) -> bool
    requires ups { ups ≤ 256 }
    requires periods { length demand.now ≤ 1024 }
    requires count { length bounds.now ≡ bound_count setup.now.geometry ups (length demand.now) }
    requires most { (k : ℕ) → slice_index bounds.now k ≤ no_bound }
    ensures { IsTrue result ↔ ((t a : ℕ) → t < length demand.now → IsGear setup.now.geometry a
        → IsRightAt setup.now (slice_index demand.now t) ups bounds.now t a) }
{
    for t in 0..demand.len() {
        if !is_right_in(setup, demand[t], ups, bounds, t) {
            return false;
        }
    }
    true
}

/// Whether the bounds are right.
fn are_right(setup: &Setup, demand: &[u32], ups: u16, bounds: &[u64]) -> bool
    requires ups { ups ≤ 256 }
    requires demand { IsDemand demand.now }
    ensures { IsTrue result ↔ AreRight setup.now demand.now ups bounds.now }
{
    let geometry = &setup.geometry;
    bounds.len() == count_bounds(geometry, ups, demand.len())
        && are_low(bounds)
        && end_at_zero(geometry, ups, bounds, demand.len())
        && are_right_in_each(setup, demand, ups, bounds)
}

/// The bound of the start: the first period, the last gear and all steps up left.
fn start_of(setup: &Setup, ups: u16, bounds: &[u64]) -> u64
    requires ups { ups ≤ 256 }
    requires room { bound_count setup.now.geometry ups 0 ≤ length bounds.now }
    ensures { result ≡ bound setup.now.geometry ups bounds.now 0 setup.now.geometry.disks ups }
{
    bounds[row(&setup.geometry, ups, 0, setup.geometry.disks) + ups as usize]
}
