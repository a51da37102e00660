//! The next line of a demand.
ghost use Rattle.std.specs.Prelude.{◌≡◌, ◌≢◌, ◌≤◌, ℕ, None, OnOk, IsErrOf, IfSome, IfNone, decimal};
ghost use Rattle.paraid_base.specs.Told.{HasRisen, stream_most};
ghost use Rattle.paraid_planning.specs.Demand.{IsNoNumber};
ghost use Rattle.paraid_planning.specs.Heard.{HearsNumber};
ghost use Rattle.paraid_schedule.specs.Schedule.{demand_most};

use paraid_io::{Line, LineFault, LineReader, Source};
use paraid_schedule::MOST_REQUESTS;
use paraid_trace::number;

/// What a line of a demand says.
#[derive(Clone, Copy)]
pub enum Spoken {
    /// So many reads and writes.
    Number { number: u32 },
    /// No number of a demand.
    Other,
    /// There is no further line.
    End,
}

// The number that a line says, if it may stand in a demand.
fn small_number(line: &[u8]) -> Option<u32>
    ensures some { IfSome result (λ n. (n ≤ demand_most) × (line.now ≡ decimal n)) }
    ensures none { IfNone result (IsNoNumber line.now) }
{
    match number(line) {
        Some(number) if number <= MOST_REQUESTS => Some(number),
        _ => None,
    }
}

// What the next line says.
pub(crate) fn hear<S: Source>(reader: &mut LineReader, source: &mut S) -> Result<Spoken, LineFault>
    requires { reader.old.fault ≡ None }
    ensures heard { HearsNumber
        (S.left source.old) (S.left source.new) reader.old reader.new result }
    ensures goes_on { OnOk result (reader.new.fault ≡ None) }
    ensures later { S.faults source.old ≤ S.faults source.new }
    ensures still { result ≢ Err LineFault.Source → S.faults source.new ≡ S.faults source.old }
    ensures cause { IsErrOf result LineFault.Source
        → HasRisen (S.faults source.old) (S.faults source.new) }
    ensures too_long { (n : ℕ) → IsErrOf result (LineFault.TooLong n)
        → reader.new.taken ≡ stream_most }
{
    match reader.next(source) {
        Ok(Line::Whole { .. }) => match small_number(reader.line()) {
            Some(number) => Ok(Spoken::Number { number }),
            None => Ok(Spoken::Other),
        },
        Ok(Line::Long { .. }) => Ok(Spoken::Other),
        Ok(Line::End) => Ok(Spoken::End),
        Err(fault) => Err(fault),
    }
}
