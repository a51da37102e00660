//! The line that tells why no array was made, and its status.
ghost use Rattle.std.specs.Prelude.{◌≡◌, ◌≤◌, [], ◌++◌, length, codes};
ghost use Rattle.std.specs.Fmt.{signed_decimal};
ghost use Rattle.paraid_config.specs.Keys.{key_name};
ghost use Rattle.paraid_commands.specs.Lines.{config_line, formatted_line, geometry_line, refusal_line, refusal_status as refusal_status_of};

use crate::Refusal;
use crate::fault_text::numbered;
use itoa::Buffer;
use paraid_base::GeoFault;
use paraid_config::{ConfigFault, Key};
use paraid_record::Setup;
use paraid_recover::FormatFault;
use paraid_serve::status;
use paraid_trace::Text;

// Some words and a key.
fn named(text: &mut Text, words: &[u8], key: Key)
    requires empty { text.old ≡ [] }
    requires short { length words.now ≤ 600 }
    ensures { text.new ≡ words.now ++ key_name key ++ codes "\n" }
{
    text.push(words);
    text.push(key.name().as_bytes());
    text.push(b"\n");
}

// A key and a value that is out of its range.
fn out_of_range(text: &mut Text, key: Key, value: i64)
    requires { text.old ≡ [] }
    ensures { text.new ≡ codes "config range " ++ key_name key ++ codes " "
        ++ signed_decimal value ++ codes "\n" }
{
    let mut buffer = Buffer::new();
    text.push(b"config range ");
    text.push(key.name().as_bytes());
    text.push(b" ");
    text.push(buffer.format(value).as_bytes());
    text.push(b"\n");
}

// A geometry that no array has.
fn geometry_text(text: &mut Text, fault: GeoFault)
    requires { text.old ≡ [] }
    ensures { text.new ≡ geometry_line fault }
{
    match fault {
        GeoFault::Disks { value } => numbered(text, b"config disks ", u64::from(value)),
        GeoFault::Rows { value } => numbered(text, b"config rows ", u64::from(value)),
        GeoFault::Gears { at } => numbered(text, b"config gears ", u64::from(at)),
    }
}

/// Why a configuration is refused.
pub fn config_text(text: &mut Text, fault: ConfigFault)
    requires { text.old ≡ [] }
    ensures { text.new ≡ config_line fault }
{
    match fault {
        ConfigFault::Long => text.push(b"config long\n"),
        ConfigFault::NotToml => text.push(b"config nottoml\n"),
        ConfigFault::Unknown { at } => numbered(text, b"config unknown ", u64::from(at)),
        ConfigFault::Missing { key } => named(text, b"config missing ", key),
        ConfigFault::Kind { key } => named(text, b"config kind ", key),
        ConfigFault::Range { key, value } => out_of_range(text, key, value),
        ConfigFault::Geometry(fault) => geometry_text(text, fault),
        ConfigFault::NoMemory => text.push(b"nomemory\n"),
    }
}

/// Why no array was made.
pub fn refusal_text(text: &mut Text, refusal: Refusal)
    requires { text.old ≡ [] }
    ensures { text.new ≡ refusal_line refusal }
{
    match refusal {
        Refusal::Source => text.push(b"source\n"),
        Refusal::Config(fault) => config_text(text, fault),
        Refusal::Format(FormatFault::AlreadyFormatted { epoch }) => {
            numbered(text, b"already ", epoch)
        }
        Refusal::Format(FormatFault::Disk { disk }) => { numbered(text, b"disk ", u64::from(disk)) }
    }
}

/// The status of a refusal.
pub fn refusal_status(refusal: Refusal) -> u8
    ensures { result ≡ refusal_status_of refusal }
{
    match refusal {
        Refusal::Source => status::SOURCE,
        Refusal::Config(ConfigFault::NoMemory) => status::NO_MEMORY,
        Refusal::Config(_) => status::CONFIG,
        Refusal::Format(FormatFault::AlreadyFormatted { .. }) => status::ALREADY_FORMATTED,
        Refusal::Format(FormatFault::Disk { .. }) => status::DISK,
    }
}

/// How many blocks the array has that was made.
pub(crate) fn formatted_text(text: &mut Text, setup: &Setup)
    requires { text.old ≡ [] }
    ensures { text.new ≡ formatted_line setup.now }
{
    numbered(text, b"formatted ", u64::from(setup.geometry.blocks()));
}
