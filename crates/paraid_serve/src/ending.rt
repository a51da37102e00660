//! The first and the last line of a command, and the statuses of its ends.
ghost use Rattle.std.specs.Prelude.{◌≡◌, ◌≢◌, ◌≤◌, [], ◌++◌, codes, decimal};
ghost use Rattle.paraid_base.specs.Told.{HasRisen};
ghost use Rattle.paraid_serve.specs.Ending.{EndsWithLine, end_line, mount_line, status_of_halt};
ghost use Rattle.paraid_serve.specs.Statuses.{status_sink};

use crate::status;
use paraid_base::{DiskNo, Halt};
use paraid_io::{Sink, write_all};
use paraid_trace::Text;

/// Writes the last line. A fault of the sink has a status of its own.
pub fn last<K: Sink>(sink: &mut K, line: &[u8], status: u8) -> u8
    ensures ends { EndsWithLine (K.written sink.old) (K.written sink.new) line.now status result }
    ensures cause { result ≢ status
        → (result ≡ status_sink) × HasRisen (K.faults sink.old) (K.faults sink.new) }
    ensures later { K.faults sink.old ≤ K.faults sink.new }
    ensures still { result ≢ status_sink → K.faults sink.new ≡ K.faults sink.old }
{
    match write_all(sink, line) {
        Ok(()) => status,
        Err(_) => status::SINK,
    }
}

/// The line of an array that was mounted.
pub fn mount_text(text: &mut Text, writes: u64, gear: u8)
    requires { text.old ≡ [] }
    ensures { text.new ≡ mount_line writes gear }
{
    text.push(b"mounted ");
    text.push_number(writes);
    text.push(b" gear ");
    text.push_number(u64::from(gear));
    text.push(b"\n");
}

/// The line of an end at which all was kept.
pub fn end_text(text: &mut Text, writes: u64)
    requires { text.old ≡ [] }
    ensures { text.new ≡ end_line writes }
{
    text.push(b"end ");
    text.push_number(writes);
    text.push(b"\n");
}

/// The line of a disk that is too small.
pub fn size_text(text: &mut Text, disk: DiskNo, found: u32, needed: u32)
    requires { text.old ≡ [] }
    ensures { text.new ≡ codes "size " ++ decimal disk ++ codes " " ++ decimal found
        ++ codes " " ++ decimal needed ++ codes "\n" }
{
    text.push(b"size ");
    text.push_number(u64::from(disk));
    text.push(b" ");
    text.push_number(u64::from(found));
    text.push(b" ");
    text.push_number(u64::from(needed));
    text.push(b"\n");
}

/// The status of a halt.
pub fn halt_status(halt: Halt) -> u8
    ensures { result ≡ status_of_halt halt }
{
    match halt {
        Halt::Two(_) => status::TWO,
        Halt::Worn { .. } => status::WORN,
    }
}
