//! Gear plans for days of demand.
ghost use Rattle.std.specs.Prelude.{◌≡◌, IfSome};

use paraid_base::Geometry;
use paraid_record::{Mode, Setup};
use paraid_schedule::{GearPlan, PlanFault, check_plan, plan_gears};
use std::alloc::Global;

// Five disks with gears 4 and 5, where gear 4 serves less than 320.
fn five_disks() -> Option<Setup>
    ensures { IfSome result (λ setup. setup.ration ≡ 100) }
{
    Some(Setup {
        geometry: Geometry::new(5, 5, &[4, 5]).ok()?,
        mode: Mode::Whole,
        rate: 1,
        service: 100,
        up: 80,
        down: 60,
        windows: [1000, 0, 0],
        ration: 100,
        burst: 100,
        period: 1,
        spinning_mj: 9000,
        parked_mj: 900,
        spinup_mj: 60000,
    })
}

// The cheapest plan for a demand, or what it is refused by.
fn plan_of(alloc: Global, demand: &[u32], ups: u16) -> Option<Result<GearPlan, PlanFault>> {
    let setup = five_disks()?;
    if ups > 100 {
        return None;
    }
    Some(plan_gears(alloc, &setup, demand, ups))
}

// Whether that plan has this cost and these gears.
fn is_plan(alloc: Global, demand: &[u32], ups: u16, cost: u64, gears: &[u8]) -> bool {
    match plan_of(alloc, demand, ups) {
        Some(Ok(plan)) => plan.cost() == cost && plan.gears() == gears,
        _ => false,
    }
}

const BUSY: [u32; 11] = [0, 0, 0, 0, 0, 0, 0, 0, 0, 0, 400];

// A demand, how many spin-ups there may be, and the cost and the gears of the plan.
const PLANS: [(&[u32], u16, u64, &[u8]); 3] = [
    (&[0, 0, 0], 0, 118800, &[5, 4, 4]),
    (&BUSY, 1, 482100, &[5, 4, 4, 4, 4, 4, 4, 4, 4, 4, 5]),
    (&BUSY, 0, 495000, &[5, 5, 5, 5, 5, 5, 5, 5, 5, 5, 5]),
];

#[test]
fn a_spin_up_is_bought_only_where_it_pays_and_may_be(rt: HostRuntime) {
    for &(demand, ups, cost, gears) in &PLANS {
        assert!(rt;
            is_plan(rt.alloc(), demand, ups, cost, gears),
            "cost {cost}"
        );
    }
}

fn fault_of(alloc: Global, demand: &[u32]) -> Option<PlanFault> {
    plan_of(alloc, demand, 0)?.err()
}

const REFUSED: [(&[u32], PlanFault); 4] = [
    (&[], PlanFault::Length { length: 0 }),
    (&[0; 1025], PlanFault::Length { length: 1025 }),
    (&[1048577], PlanFault::Demand { at: 0 }),
    (&[0, 1048576, 1048577, 2000000], PlanFault::Demand { at: 2 }),
];

// Whether the plan for a demand is certified, and the same plan with a cost that is too low.
fn are_certified(alloc: Global, demand: &[u32], cost: u64) -> Option<[bool; 2]> {
    let setup = five_disks()?;
    let Ok(plan) = plan_gears(alloc, &setup, demand, 0) else {
        return None;
    };
    let gears = Vec::from_slice(alloc, plan.gears()).ok()?;
    let bounds = Vec::from_slice(alloc, plan.bounds()).ok()?;
    let lower = GearPlan::from_parts(gears, cost, bounds);
    let is_certified = check_plan(&setup, demand, 0, &plan);
    Some([is_certified, check_plan(&setup, demand, 0, &lower)])
}

#[test]
fn a_demand_that_is_none_and_a_cost_that_is_too_low_are_refused(rt: HostRuntime) {
    for (row, &(demand, fault)) in REFUSED.iter().enumerate() {
        assert!(rt; fault_of(rt.alloc(), demand) == Some(fault), "row {row}");
    }
    let certified = are_certified(rt.alloc(), &BUSY, 494999);
    assert!(rt; certified == Some([true, false]));
}
