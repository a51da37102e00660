//! The cheapest schedule of gears for a demand that is known beforehand, with its certificate.
//!
//! A plan carries bounds, one for each period, gear and number of steps up that are left: what no
//! way on from there goes below. Whoever has the plan can check it, by a function that shares no
//! code with the planner, and then knows that no schedule costs less.
#![tactic(auto)]

mod check;
pub mod laws;
mod plan;
mod planner;

pub use check::check_plan;
pub use plan::{GearPlan, PlanFault};
pub use planner::{MOST_REQUESTS, plan_gears};
