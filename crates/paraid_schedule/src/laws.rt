//! What bounds prove, and that there are no two plans. Each law is the contract of a function that
//! does nothing.

ghost use Rattle.std.specs.Prelude.{◌≡◌, ℕ, List, ◌≤◌};
ghost use Rattle.paraid_schedule.specs.Schedule.{IsDemand, IsSchedule};
ghost use Rattle.paraid_schedule.specs.Cost.{schedule_cost, spin_ups};
ghost use Rattle.paraid_schedule.specs.Bounds.{bound, AreRight};
ghost use Rattle.paraid_schedule.specs.Plan.{AreLowest, Claim, IsCertified, IsLeastCost};

use paraid_record::Setup;

/// Where bounds are right, no schedule costs less than the bound of the start. So the cost of a
/// certified claim is the least.
pub fn right_bounds_certify_a_cost(setup: &Setup)
    ensures bound { (demand bounds : List ℕ) (ups : ℕ)
        → IsDemand demand → AreRight setup.now demand ups bounds → IsLeastCost setup.now demand ups
        (bound setup.now.geometry ups bounds 0 setup.now.geometry.disks ups) }
    ensures claim { (demand : List ℕ) (ups : ℕ) (claim : Claim) → IsDemand demand
        → IsCertified setup.now demand ups claim → IsLeastCost setup.now demand ups claim.cost }
{}

/// No disk is spun up more often than the schedule has steps up.
pub fn a_schedule_spins_no_disk_up_too_often(setup: &Setup)
    ensures { (demand gears : List ℕ) (ups d : ℕ) → IsSchedule setup.now demand ups gears
        → spin_ups gears d ≤ ups }
{}

/// Two schedules that cost least, and have the lowest gears of those that do, are the same. So the
/// demand, the setup and `ups` determine the gears of a plan.
pub fn no_two_schedules_are_least_and_lowest(setup: &Setup)
    ensures { (demand gears others : List ℕ) (ups : ℕ)
        → IsSchedule setup.now demand ups gears → IsSchedule setup.now demand ups others
        → IsLeastCost setup.now demand ups (schedule_cost setup.now gears)
        → IsLeastCost setup.now demand ups (schedule_cost setup.now others)
        → AreLowest setup.now demand ups gears
        → AreLowest setup.now demand ups others → gears ≡ others }
{}
