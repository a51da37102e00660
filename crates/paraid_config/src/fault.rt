//! Why a configuration is refused, in the order of the tests.
use crate::Key;
use paraid_base::GeoFault;

/// Why a configuration is refused. The causes are tested in this order, `Missing`, `Kind` and
/// `Range` key by key, in the order of the keys.
#[derive(Clone, Copy)]
pub enum ConfigFault {
    /// The text has more than 65,536 bytes.
    Long,
    /// The text is no TOML. An integer that 64 bits do not hold is none either.
    NotToml,
    /// The least place, from 0 and in the byte order of all keys, of a key that is none of these.
    Unknown { at: u32 },
    /// The key is not there.
    Missing { key: Key },
    /// The value is of another kind: an integer, a list of integers or the name of a mode.
    Kind { key: Key },
    /// A number is out of range: the value, the number of members of a list with too few or too
    /// many, or else the first member out of range.
    Range { key: Key, value: i64 },
    /// There is no array of so many disks and rows with these gears.
    Geometry(GeoFault),
    /// There is no memory for it. This may come wherever the text is not too long.
    NoMemory,
}
