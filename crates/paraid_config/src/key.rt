//! The keys of a configuration: their names, their order and their ranges.
ghost use Rattle.std.specs.Prelude.{◌≡◌};
ghost use Rattle.paraid_config.specs.Keys.{key_name, low_of, high_of, is_known as is_known_name};

/// A key of a configuration. The values of the keys are tested in this order.
#[derive(Clone, Copy)]
pub enum Key {
    Disks,
    Rows,
    Gears,
    Mode,
    Rate,
    Service,
    Up,
    Down,
    Windows,
    Ration,
    Burst,
    Period,
    SpinningMj,
    ParkedMj,
    SpinupMj,
}

/// Every key.
const KEYS: [Key; 15] = [
    Key::Disks,
    Key::Rows,
    Key::Gears,
    Key::Mode,
    Key::Rate,
    Key::Service,
    Key::Up,
    Key::Down,
    Key::Windows,
    Key::Ration,
    Key::Burst,
    Key::Period,
    Key::SpinningMj,
    Key::ParkedMj,
    Key::SpinupMj,
];

impl Key {
    /// The key as it stands in a configuration.
    pub fn name(self) -> &'static str
        ensures { result.now ≡ key_name self }
    {
        match self {
            Key::Disks => "disks",
            Key::Rows => "rows",
            Key::Gears => "gears",
            Key::Mode => "mode",
            Key::Rate => "rate",
            Key::Service => "service",
            Key::Up => "up",
            Key::Down => "down",
            Key::Windows => "windows",
            Key::Ration => "ration",
            Key::Burst => "burst",
            Key::Period => "period",
            Key::SpinningMj => "spinning_mj",
            Key::ParkedMj => "parked_mj",
            Key::SpinupMj => "spinup_mj",
        }
    }

    /// The least and the greatest number at the key, or in its list. A mode has none, and a burst
    /// is at most the ration besides.
    pub(crate) fn limits(self) -> (u32, u32)
        ensures low { result.0 ≡ low_of self }
        ensures high { result.1 ≡ high_of self }
    {
        match self {
            Key::Disks | Key::Gears => (0, 255),
            Key::Rows => (0, 4294967295),
            Key::Mode => (0, 0),
            Key::Rate => (1, 65536),
            Key::Service => (1, 1048576),
            Key::Up | Key::Down => (1, 100),
            Key::Windows => (1, 1024),
            Key::Ration | Key::Burst => (1, 65535),
            Key::Period => (1, 4294967295),
            Key::SpinningMj | Key::ParkedMj | Key::SpinupMj => (0, 1048576),
        }
    }
}

/// Whether a name is that of a key.
#[tactic(auto, unfolding(crate::specs::Keys::is_known))]
pub(crate) fn is_known(name: &str) -> bool
    ensures { result ≡ is_known_name name.now }
{
    KEYS.iter().any(|key| name == key.name())
}
