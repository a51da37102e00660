//! A demand is read, and its plan is made.
ghost use Rattle.std.specs.Prelude.{◌≡◌, ◌≢◌, ◌≤◌, IfOk, IfErr};
ghost use Rattle.paraid_planning.specs.Demand.{ReadsDemand, IsUnplanned};
ghost use Rattle.paraid_planning.specs.Planned.{IsPlanned};

use crate::Unplanned;
use crate::hear::{Spoken, hear};
use crate::text::plan_text;
use paraid_io::{LineFault, LineReader, Source};
use paraid_record::Setup;
use paraid_schedule::plan_gears;
use std::alloc::Global;

/// The most periods of a demand.
const MOST_PERIODS: usize = 1024;

/// The demand that a source gives, a number a line, up to its end; or the first line that is none.
pub fn read_demand<S: Source>(alloc: Global, source: &mut S) -> Result<Vec<u32>, Unplanned>
    ensures read { IfOk result (λ demand.
        ReadsDemand (S.left source.old) (S.left source.new) demand.items) }
    ensures unread { IfErr result (IsUnplanned (S.left source.old) (S.left source.new)
        (S.faults source.old) (S.faults source.new)) }
    ensures later { S.faults source.old ≤ S.faults source.new }
    ensures still { result ≢ Err Unplanned.Source → S.faults source.new ≡ S.faults source.old }
{
    let mut demand = Vec::new(alloc);
    let mut reader = LineReader::new();
    'lines: loop {
        let number = match hear(&mut reader, source) {
            Ok(Spoken::Number { number }) => number,
            Ok(Spoken::Other) => {
                return Err(Unplanned::Demand {
                    at: demand.len() as u32,
                });
            }
            Ok(Spoken::End) => break,
            Err(LineFault::Source) => return Err(Unplanned::Source),
            Err(LineFault::TooLong { .. }) => return Err(Unplanned::TooLong),
        };
        if demand.len() >= MOST_PERIODS {
            return Err(Unplanned::Demand {
                at: MOST_PERIODS as u32,
            });
        }
        let Ok(()) = demand.push(number) else {
            return Err(Unplanned::NoMemory);
        };
    }
    if demand.is_empty() {
        return Err(Unplanned::Demand { at: 0 });
    }
    Ok(demand)
}

/// The lines of the schedule that costs least for the demand that a source gives, with at most
/// `ups` steps up and no more than the ration.
pub fn plan_demand<S: Source>(
    alloc: Global,
    source: &mut S,
    setup: &Setup,
    ups: u16,
) -> Result<Vec<u8>, Unplanned>
    requires { ups ≤ 256 }
    ensures planned { IfOk result (λ text.
        IsPlanned (S.left source.old) (S.left source.new) setup.now ups text.items) }
    ensures unplanned { IfErr result (IsUnplanned (S.left source.old) (S.left source.new)
        (S.faults source.old) (S.faults source.new)) }
    ensures later { S.faults source.old ≤ S.faults source.new }
    ensures still { result ≢ Err Unplanned.Source → S.faults source.new ≡ S.faults source.old }
{
    let demand = match read_demand(alloc, source) {
        Ok(demand) => demand,
        Err(cause) => return Err(cause),
    };
    let Ok(plan) = plan_gears(alloc, setup, &demand, ups.min(setup.ration)) else {
        return Err(Unplanned::NoMemory);
    };
    match plan_text(alloc, &plan) {
        Ok(text) => Ok(text),
        Err(_) => Err(Unplanned::NoMemory),
    }
}
