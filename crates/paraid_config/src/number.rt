//! The values that are one number or one word.

ghost use Rattle.std.specs.Prelude.{◌≡◌, ◌≤◌, pos, Some, None, IfOk, IfErr, OnOk, MatchOption};
ghost use Rattle.toml.specs.Data.{string};
ghost use Rattle.toml.specs.View.{table_view};
ghost use Rattle.paraid_config.specs.declared.key.Key.TheVariants as key;
ghost use Rattle.paraid_config.specs.Keys.{low_of, high_of};
ghost use Rattle.paraid_config.specs.Values.{bounds_fault, range_fault, optional_fault_in, burst_fault, period_fault, number_fault, mode_fault, mode_fault_in, mode_name, value_at, IsNumberAt, IsNumberOr};

use crate::value::{integer_at, optional_at, word_at};
use crate::{ConfigFault, Key};
use paraid_record::Mode;
use toml::Table;

/// The number, if it is within these bounds.
fn within(key: Key, low: u32, high: u32, value: i64) -> Result<u32, ConfigFault>
    ensures value { IfOk result (λ n. value ≡ pos n) }
    ensures low { IfOk result (λ n. low ≤ n) }
    ensures high { IfOk result (λ n. n ≤ high) }
    ensures accepted { OnOk result (bounds_fault key low high value ≡ None) }
    ensures err { IfErr result (λ fault. bounds_fault key low high value ≡ Some fault) }
{
    if value < low as i64 || value > high as i64 {
        return Err(ConfigFault::Range { key, value });
    }
    Ok(value as u32)
}

/// The number, if it is in the range of the key.
pub fn in_range(key: Key, value: i64) -> Result<u32, ConfigFault>
    ensures value { IfOk result (λ n. value ≡ pos n) }
    ensures low { IfOk result (λ n. low_of key ≤ n) }
    ensures high { IfOk result (λ n. n ≤ high_of key) }
    ensures accepted { OnOk result (range_fault key value ≡ None) }
    ensures err { IfErr result (λ fault. range_fault key value ≡ Some fault) }
{
    let (low, high) = key.limits();
    within(key, low, high, value)
}

/// The number at a key.
pub fn number(table: &Table, key: Key) -> Result<u32, ConfigFault>
    ensures value { IfOk result (λ n. IsNumberAt (table_view table.now) key n) }
    ensures low { IfOk result (λ n. low_of key ≤ n) }
    ensures high { IfOk result (λ n. n ≤ high_of key) }
    ensures accepted { OnOk result (number_fault (table_view table.now) key ≡ None) }
    ensures err { IfErr result (λ fault. number_fault (table_view table.now) key ≡ Some fault) }
{
    match integer_at(table, key) {
        Ok(value) => in_range(key, value),
        Err(fault) => Err(fault),
    }
}

/// The number at a key that may be absent, at most `high`; where nothing is there it is `absent`.
fn number_or(table: &Table, key: Key, high: u32, absent: u32) -> Result<u32, ConfigFault>
    requires low { low_of key ≤ absent }
    requires high { absent ≤ high }
    ensures value { IfOk result (IsNumberOr (table_view table.now) key absent) }
    ensures low { IfOk result (λ n. low_of key ≤ n) }
    ensures high { IfOk result (λ n. n ≤ high) }
    ensures accepted { OnOk result
        (optional_fault_in key high (value_at (table_view table.now) key) ≡ None) }
    ensures err { IfErr result (λ fault.
        optional_fault_in key high (value_at (table_view table.now) key) ≡ Some fault) }
{
    let (low, _high) = key.limits();
    match optional_at(table, key) {
        Ok(Some(value)) => within(key, low, high, value),
        Ok(None) => Ok(absent),
        Err(fault) => Err(fault),
    }
}

/// The burst at its key, which is the whole ration where nothing is there.
pub fn burst(table: &Table, ration: u16) -> Result<u16, ConfigFault>
    requires low { 1 ≤ ration }
    requires ration { IsNumberAt (table_view table.now) key.Ration ration }
    ensures value { IfOk result (IsNumberOr (table_view table.now) key.Burst ration) }
    ensures low { IfOk result (λ n. 1 ≤ n) }
    ensures high { IfOk result (λ n. n ≤ ration) }
    ensures accepted { OnOk result (burst_fault (table_view table.now) ≡ None) }
    ensures err { IfErr result (λ fault. burst_fault (table_view table.now) ≡ Some fault) }
{
    match number_or(table, Key::Burst, ration as u32, ration as u32) {
        Ok(burst) => Ok(burst as u16),
        Err(fault) => Err(fault),
    }
}

/// The period at its key, which is 1 where nothing is there.
pub fn period(table: &Table) -> Result<u32, ConfigFault>
    ensures value { IfOk result (IsNumberOr (table_view table.now) key.Period 1) }
    ensures low { IfOk result (λ n. 1 ≤ n) }
    ensures accepted { OnOk result (period_fault (table_view table.now) ≡ None) }
    ensures err { IfErr result (λ fault. period_fault (table_view table.now) ≡ Some fault) }
{
    number_or(table, Key::Period, u32::MAX, 1)
}

/// The mode that a word names.
fn mode_named(word: &str) -> Option<Mode>
    ensures { MatchOption result
        (mode_fault_in (Some (string word.now)) ≡ Some (ConfigFault.Kind key.Mode))
        (λ mode. (word.now ≡ mode_name mode) × (mode_fault_in (Some (string word.now)) ≡ None)) }
{
    if word == "whole" {
        Some(Mode::Whole)
    } else if word == "access" {
        Some(Mode::Access)
    } else {
        None
    }
}

/// The mode at its key.
pub fn mode(table: &Table) -> Result<Mode, ConfigFault>
    ensures value { IfOk result (λ mode.
        value_at (table_view table.now) key.Mode ≡ Some (string (mode_name mode))) }
    ensures accepted { OnOk result (mode_fault (table_view table.now) ≡ None) }
    ensures err { IfErr result (λ fault. mode_fault (table_view table.now) ≡ Some fault) }
{
    match word_at(table) {
        Ok(word) => match mode_named(word) {
            Some(mode) => Ok(mode),
            None => Err(ConfigFault::Kind { key: Key::Mode }),
        },
        Err(fault) => Err(fault),
    }
}
