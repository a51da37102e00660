//! The configuration is taken from a source: all of it, or more bytes than one may have.
ghost use Rattle.std.specs.Prelude.{◌≡◌, ◌≢◌, ◌≤◌, length, IfOk, IfErr, OnOk};
ghost use Rattle.paraid_base.specs.Told.{AtEnd, Gives};
ghost use Rattle.paraid_record.specs.Range.{IsSetupInRange};
ghost use Rattle.paraid_commands.specs.Reading.{IsConfigured, IsUnread, most_config};
ghost use Rattle.paraid_serve.specs.Streams.{source_use};

use crate::Refusal;
use paraid_config::{ConfigFault, read_config};
use paraid_io::Source;
use paraid_record::Setup;
use std::alloc::Global;

/// The most bytes of a configuration.
const LONGEST: usize = 65536;

/// So many bytes are asked for at a time.
const PIECE: usize = 4096;

/// Takes all bytes of a source, which are at most 65,536. Where there are more, that is known
/// before they are kept.
pub fn read_all<S: Source>(alloc: Global, source: &mut S) -> Result<Vec<u8>, Refusal>
    ensures all { IfOk result (λ bytes. Gives (S.left source.old) (S.left source.new)
        bytes.items) }
    ensures end { OnOk result (AtEnd (S.left source.new)) }
    ensures short { IfOk result (λ bytes. length bytes.items ≤ most_config) }
    ensures unread { IfErr result (IsUnread
        (source_use S.left S.faults source.old source.new)) }
    ensures later { S.faults source.old ≤ S.faults source.new }
    ensures still { result ≢ Err Refusal.Source → S.faults source.new ≡ S.faults source.old }
{
    let mut bytes = Vec::new(alloc);
    let mut piece = [0; PIECE];
    loop {
        let Ok(count) = source.read_some(&mut piece) else {
            return Err(Refusal::Source);
        };
        if count == 0 {
            return Ok(bytes);
        }
        if count > LONGEST - bytes.len() {
            return Err(Refusal::Config(ConfigFault::Long));
        }
        let Ok(()) = bytes.extend_from_slice(&piece[..count]) else {
            return Err(Refusal::Config(ConfigFault::NoMemory));
        };
    }
}

/// The setup that the bytes of a source say.
pub fn read_setup<S: Source>(alloc: Global, source: &mut S) -> Result<Setup, Refusal>
    ensures configured { IfOk result
        (IsConfigured (source_use S.left S.faults source.old source.new)) }
    ensures range { IfOk result IsSetupInRange }
    ensures unread { IfErr result (IsUnread
        (source_use S.left S.faults source.old source.new)) }
    ensures later { S.faults source.old ≤ S.faults source.new }
    ensures still { result ≢ Err Refusal.Source → S.faults source.new ≡ S.faults source.old }
{
    match read_all(alloc, source) {
        Ok(bytes) => match read_config(alloc, &bytes) {
            Ok(setup) => Ok(setup),
            Err(fault) => Err(Refusal::Config(fault)),
        },
        Err(refusal) => Err(refusal),
    }
}
