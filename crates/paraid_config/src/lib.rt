//! The configuration of an array: a table in TOML that gives each value of a setup.
//!
//! A text is read to the setup that it says, with every value in its range, or is refused by the
//! first cause in a fixed order: too long, no TOML, a key that is not known, then key by key a
//! missing value, one of another kind or one out of range, and last a geometry that no array has.
#![tactic(auto)]

mod fault;
mod key;
mod laws;
mod list;
mod number;
mod read;
mod setup;
mod unknown;
mod value;

pub use fault::ConfigFault;
pub use key::Key;
pub use laws::a_configuration_is_not_refused;
pub use read::read_config;
pub use setup::setup_of;
