//! The next line of a session of volumes, as what it asks for.
ghost use Rattle.std.specs.Prelude.{◌≡◌, ◌≢◌, ℕ, ◌≤◌, None, OnOk, IsErrOf};
ghost use Rattle.paraid_base.specs.Told.{HasRisen, stream_most};
ghost use Rattle.paraid_service.specs.LineEnds.{HearsVolumes};

use paraid_base::Block;
use paraid_io::{Line, LineFault, LineReader, Source};
use paraid_volume_lines::{VolAsked, parse_volume_line};

/// What the next line asks for, with the bytes of a write kept in `bytes`, or nothing at the end.
pub(crate) fn hear_volumes<S: Source>(
    reader: &mut LineReader,
    source: &mut S,
    bytes: &mut Block,
) -> Result<Option<VolAsked>, LineFault>
    requires { reader.old.fault ≡ None }
    ensures heard { HearsVolumes
        (S.left source.old) (S.left source.new) reader.old reader.new bytes.new result }
    ensures goes_on { OnOk result (reader.new.fault ≡ None) }
    ensures later { S.faults source.old ≤ S.faults source.new }
    ensures still { result ≢ Err LineFault.Source → S.faults source.new ≡ S.faults source.old }
    ensures cause { IsErrOf result LineFault.Source
        → HasRisen (S.faults source.old) (S.faults source.new) }
    ensures too_long { (n : ℕ) → IsErrOf result (LineFault.TooLong n)
        → reader.new.taken ≡ stream_most }
{
    match reader.next(source) {
        Ok(Line::Whole { .. }) => Ok(Some(parse_volume_line(reader.line(), bytes))),
        Ok(Line::Long { .. }) => Ok(Some(VolAsked::Bad)),
        Ok(Line::End) => Ok(None),
        Err(fault) => Err(fault),
    }
}
