//! The next line of a trace, as what it asks for.
ghost use Rattle.std.specs.Prelude.{◌≡◌, ◌≢◌, ℕ, ◌≤◌, Option, None, OnOk, IsErrOf};
ghost use Rattle.paraid_base.specs.Told.{HasRisen, stream_most};
ghost use Rattle.paraid_serve.specs.Heard.{HearsLine, heard_event};

use paraid_base::Pairs;
use paraid_io::{Line, LineFault, LineReader, Source};
use paraid_trace::{Asked, read_line};

/// What the next line asks for, with the pairs of a write kept in `pairs`, or nothing at the end.
pub fn hear<S: Source>(
    reader: &mut LineReader,
    source: &mut S,
    pairs: &mut Pairs,
) -> Result<Option<Asked>, LineFault>
    requires { reader.old.fault ≡ None }
    ensures heard { HearsLine (S.left source.old) (S.left source.new) reader.old reader.new
        (heard_event result pairs.new) }
    ensures goes_on { OnOk result (reader.new.fault ≡ None) }
    ensures later { S.faults source.old ≤ S.faults source.new }
    ensures still { result ≢ Err LineFault.Source → S.faults source.new ≡ S.faults source.old }
    ensures cause { IsErrOf result LineFault.Source
        → HasRisen (S.faults source.old) (S.faults source.new) }
    ensures too_long { (n : ℕ) → IsErrOf result (LineFault.TooLong n)
        → reader.new.taken ≡ stream_most }
{
    match reader.next(source) {
        Ok(Line::Whole { .. }) => Ok(Some(read_line(reader.line(), pairs))),
        Ok(Line::Long { .. }) => Ok(Some(Asked::Bad)),
        Ok(Line::End) => Ok(None),
        Err(fault) => Err(fault),
    }
}
