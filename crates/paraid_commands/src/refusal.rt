//! Why a format may make no array.

use paraid_config::ConfigFault;
use paraid_recover::FormatFault;

/// Why no array was made.
#[derive(Clone, Copy)]
pub enum Refusal {
    /// The source has failed.
    Source,
    /// The configuration is refused, or there was no memory for it.
    Config(ConfigFault),
    /// The disks belong to an array, or a disk has failed or is missing.
    Format(FormatFault),
}
