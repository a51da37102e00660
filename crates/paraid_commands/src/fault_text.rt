//! Why an array was not mounted: the last line, and its status.
ghost use Rattle.std.specs.Prelude.{◌≡◌, ◌≢◌, ◌≤◌, [], ◌++◌, length, codes, decimal};
ghost use Rattle.paraid_base.specs.Told.{HasRisen};
ghost use Rattle.paraid_serve.specs.Ending.{EndsWithLine};
ghost use Rattle.paraid_serve.specs.Statuses.{status_sink};
ghost use Rattle.paraid_commands.specs.MountFaults.{mount_fault_line, mount_fault_status as mount_fault_status_of};

use paraid_base::Two;
use paraid_io::Sink;
use paraid_recover::MountFault;
use paraid_serve::ending::{last, size_text};
use paraid_serve::status;
use paraid_trace::Text;

/// Some words and a number.
pub(crate) fn numbered(text: &mut Text, words: &[u8], number: u64)
    requires empty { text.old ≡ [] }
    requires short { length words.now ≤ 600 }
    ensures { text.new ≡ words.now ++ decimal number ++ codes "\n" }
{
    text.push(words);
    text.push_number(number);
    text.push(b"\n");
}

fn two_text(text: &mut Text, two: Two)
    requires { text.old ≡ [] }
    ensures { text.new ≡ codes "two " ++ decimal two.first ++ codes " " ++ decimal two.second
        ++ codes "\n" }
{
    text.push(b"two ");
    text.push_number(u64::from(two.first));
    text.push(b" ");
    text.push_number(u64::from(two.second));
    text.push(b"\n");
}

/// Why an array was not mounted.
pub fn mount_fault_text(text: &mut Text, fault: MountFault)
    requires { text.old ≡ [] }
    ensures { text.new ≡ mount_fault_line fault }
{
    match fault {
        MountFault::NotFormatted => text.push(b"notformatted\n"),
        MountFault::BadLog { disk } => numbered(text, b"badlog ", u64::from(disk)),
        MountFault::BadMeta { disk } => numbered(text, b"badmeta ", u64::from(disk)),
        MountFault::Size {
            disk,
            found,
            needed,
        } => size_text(text, disk, found, needed),
        MountFault::Power { disk } => numbered(text, b"power ", u64::from(disk)),
        MountFault::Two(two) => two_text(text, two),
        MountFault::Worn { count } => numbered(text, b"worn ", count),
        MountFault::NoMemory => text.push(b"nomemory\n"),
    }
}

/// The status of a mount that was refused.
pub fn mount_fault_status(fault: MountFault) -> u8
    ensures { result ≡ mount_fault_status_of fault }
{
    match fault {
        MountFault::Two(_) => status::TWO,
        MountFault::Worn { .. } => status::WORN,
        MountFault::NoMemory => status::NO_MEMORY,
        MountFault::NotFormatted => status::NOT_AN_ARRAY,
        MountFault::BadLog { .. } => status::NOT_AN_ARRAY,
        MountFault::BadMeta { .. } => status::NOT_AN_ARRAY,
        MountFault::Size { .. } => status::NOT_AN_ARRAY,
        MountFault::Power { .. } => status::NOT_AN_ARRAY,
    }
}

/// Tells why nothing was mounted, and gives the status.
pub(crate) fn tell_refusal<K: Sink>(sink: &mut K, fault: MountFault) -> u8
    ensures tells { EndsWithLine (K.written sink.old) (K.written sink.new) (mount_fault_line fault)
        (mount_fault_status_of fault) result }
    ensures sink { result ≡ status_sink → HasRisen (K.faults sink.old) (K.faults sink.new) }
    ensures still { result ≢ status_sink → K.faults sink.new ≡ K.faults sink.old }
{
    let mut text = Text::new();
    mount_fault_text(&mut text, fault);
    last(sink, text.as_slice(), mount_fault_status(fault))
}
