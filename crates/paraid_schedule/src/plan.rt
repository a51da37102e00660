//! A plan: gears, their cost, and bounds that certify it.

ghost use Rattle.std.specs.Prelude.{◌≡◌};
ghost use Rattle.paraid_schedule.specs.Plan.{Claim};

use std::marker::Model;

/// Why there is no plan. They are tested in this order, but that want of memory comes last.
#[derive(Clone, Copy, PartialEq, Eq)]
pub enum PlanFault {
    /// There is no memory for it.
    NoMemory,
    /// The demand has not 1 to 1,024 periods.
    Length { length: u32 },
    /// The first period with a demand above 1,048,576.
    Demand { at: u32 },
}

/// A schedule of gears, what it costs in millijoules, and the bounds that show that none costs
/// less. What it claims is for `check_plan` to check.
#[derive(Drop)]
pub struct GearPlan {
    gears: Vec<u8>,
    cost: u64,
    bounds: Vec<u64>,
}

impl Model for GearPlan {
    ghost use Rattle.paraid_schedule.specs.Plan.{Claim};

    ghost Value = { Claim };

    ghost view = { λ p. record { gears = p.gears.items; cost = p.cost; bounds = p.bounds.items } };
}

impl GearPlan {
    /// The plan that claims this.
    pub fn from_parts(gears: Vec<u8>, cost: u64, bounds: Vec<u64>) -> GearPlan
        ensures { result ≡ record { gears = gears.items; cost = cost; bounds = bounds.items } }
    {
        GearPlan {
            gears,
            cost,
            bounds,
        }
    }

    /// The gear of each period.
    pub fn gears(&self) -> &[u8]
        ensures { result.now ≡ self.now.gears }
    {
        &self.gears
    }

    /// What the gears cost, in millijoules.
    pub fn cost(&self) -> u64
        ensures { result ≡ self.now.cost }
    {
        self.cost
    }

    /// The bounds by period, then by gear, then by the steps up that are left.
    pub fn bounds(&self) -> &[u64]
        ensures { result.now ≡ self.now.bounds }
    {
        &self.bounds
    }
}
