//! The value at a key of a table, by its kind.

ghost use Rattle.std.specs.Prelude.{◌≡◌, ℕ, Some, IfOk, IfErr, option_map};
ghost use Rattle.toml.specs.Data.{integer, string, array};
ghost use Rattle.toml.specs.View.{view, table_view, array_view};
ghost use Rattle.paraid_config.specs.declared.key.Key.TheVariants as key_of;
ghost use Rattle.paraid_config.specs.Values.{value_at as value_of, optional_fault_in, number_fault, list_fault, mode_fault};

use crate::{ConfigFault, Key};
use toml::value::Array;
use toml::{Table, Value};

/// The value at a key.
fn value_at<'a>(table: &'a Table, key: Key) -> Option<&'a Value>
    ensures { option_map (λ v. view v.now) result ≡ value_of (table_view table.now) key }
{
    table.get(key.name())
}

/// The integer at a key.
pub fn integer_at(table: &Table, key: Key) -> Result<i64, ConfigFault>
    ensures value { IfOk result (λ z. value_of (table_view table.now) key ≡ Some (integer z)) }
    ensures err { IfErr result (λ fault. number_fault (table_view table.now) key ≡ Some fault) }
{
    let Some(value) = value_at(table, key) else {
        return Err(ConfigFault::Missing { key });
    };
    match value.as_integer() {
        Some(number) => Ok(number),
        None => Err(ConfigFault::Kind { key }),
    }
}

/// The integer at a key, if something is there.
pub fn optional_at(table: &Table, key: Key) -> Result<Option<i64>, ConfigFault>
    ensures value { IfOk result (λ found.
        value_of (table_view table.now) key ≡ option_map (λ z. integer z) found) }
    ensures err { IfErr result (λ fault. (high : ℕ)
        → optional_fault_in key high (value_of (table_view table.now) key) ≡ Some fault) }
{
    let Some(value) = value_at(table, key) else {
        return Ok(None);
    };
    match value.as_integer() {
        Some(number) => Ok(Some(number)),
        None => Err(ConfigFault::Kind { key }),
    }
}

/// The list at a key, of whatever members.
pub fn list_at<'a>(table: &'a Table, key: Key) -> Result<&'a Array, ConfigFault>
    ensures value { IfOk result (λ items.
        value_of (table_view table.now) key ≡ Some (array (array_view items.now))) }
    ensures err { IfErr result (λ fault. (few many : ℕ)
        → list_fault (table_view table.now) key few many ≡ Some fault) }
{
    let Some(value) = value_at(table, key) else {
        return Err(ConfigFault::Missing { key });
    };
    match value.as_array() {
        Some(items) => Ok(items),
        None => Err(ConfigFault::Kind { key }),
    }
}

/// The word at the key of the mode.
pub fn word_at<'a>(table: &'a Table) -> Result<&'a str, ConfigFault>
    ensures value { IfOk result (λ word.
        value_of (table_view table.now) key_of.Mode ≡ Some (string word.now)) }
    ensures err { IfErr result (λ fault. mode_fault (table_view table.now) ≡ Some fault) }
{
    let key = Key::Mode;
    let Some(value) = value_at(table, key) else {
        return Err(ConfigFault::Missing { key });
    };
    match value.as_str() {
        Some(word) => Ok(word),
        None => Err(ConfigFault::Kind { key }),
    }
}
