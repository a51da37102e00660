//! The first key that no configuration has.

ghost use Rattle.std.specs.Prelude.{◌≡◌, not, position, string_bytes};
ghost use Rattle.std.specs.BTreeMap.{keys};
ghost use Rattle.toml.specs.View.{table_view};
ghost use Rattle.paraid_config.specs.Keys.{is_known as is_known_name};
ghost use Rattle.paraid_config.specs.Config.{first_unknown as first_unknown_of};

use crate::key::is_known;
use toml::Table;

/// The place of the first key of the table that no configuration has.
fn unknown_place(table: &Table) -> Option<usize>
    ensures { result ≡ position (λ key. not (is_known_name (string_bytes key))) (keys table.now) }
{
    table.keys().position(|key| !is_known(key.as_str()))
}

/// The place of the first key of the table that no configuration has. There are at most 15 keys
/// before it, as no two keys are the same.
pub fn first_unknown(table: &Table) -> Option<u32>
    ensures { result ≡ first_unknown_of (table_view table.now) }
{
    // (the proof has the order of the keys of a table that is used)
    let _ordered = table.len();
    match unknown_place(table) {
        Some(at) => Some(at as u32),
        None => None,
    }
}
