//! The values that are a list of numbers.

ghost use Rattle.std.specs.Prelude.{◌≡◌, ℕ, ◌≤◌, ◌<◌, All, Some, None, IfOk, IfErr, OnOk, length, map, pos, slice_index_or};
ghost use Rattle.toml.specs.View.{table_view, items_view};
ghost use Rattle.paraid_config.specs.declared.key.Key.TheVariants as key_of;
ghost use Rattle.paraid_config.specs.Keys.{high_of};
ghost use Rattle.paraid_config.specs.Values.{integers_of, member_fault, members_fault, list_fault, IsListAt, IsFaultOf};
ghost use Rattle.paraid_config.specs.Config.{AreWindowsOf};
ghost use Rattle.paraid_record.specs.Range.{AreWindows};

use crate::number::in_range;
use crate::value::list_at;
use crate::{ConfigFault, Key};
use std::alloc::Global;
use toml::{Table, Value};

/// The members of a list of integers.
fn integers(alloc: Global, key: Key, items: &[Value]) -> Result<Vec<i64>, ConfigFault>
    ensures value { IfOk result (λ members.
        integers_of (items_view items.now) ≡ Some members.items) }
    ensures err { IfErr result (λ fault. (few many : ℕ)
        → IsFaultOf (members_fault key few many (integers_of (items_view items.now))) fault) }
{
    let mut members = Vec::new(alloc);
    for item in items {
        let Some(member) = item.as_integer() else {
            return Err(ConfigFault::Kind { key });
        };
        let Ok(()) = members.push(member) else {
            return Err(ConfigFault::NoMemory);
        };
    }
    Ok(members)
}

/// The members, if each is in the range of the key.
fn members_in_range(alloc: Global, key: Key, members: &[i64]) -> Result<Vec<u16>, ConfigFault>
    requires { high_of key < 65536 }
    ensures value { IfOk result (λ numbers. members.now ≡ map pos numbers.items) }
    ensures high { IfOk result (λ numbers. All (λ n. n ≤ high_of key) numbers.items) }
    ensures accepted { OnOk result (member_fault key members.now ≡ None) }
    ensures err { IfErr result (IsFaultOf (member_fault key members.now)) }
{
    let mut numbers = Vec::new(alloc);
    for member in members {
        let value = *member;
        let number = match in_range(key, value) {
            Ok(number) => number,
            Err(fault) => return Err(fault),
        };
        let Ok(()) = numbers.push(number as u16) else {
            return Err(ConfigFault::NoMemory);
        };
    }
    Ok(numbers)
}

/// The members, if they are from `few` to `many` and each is in the range of the key.
fn checked(
    alloc: Global,
    key: Key,
    few: usize,
    many: usize,
    members: &[i64],
) -> Result<Vec<u16>, ConfigFault>
    requires { high_of key < 65536 }
    ensures value { IfOk result (λ numbers. members.now ≡ map pos numbers.items) }
    ensures high { IfOk result (λ numbers. All (λ n. n ≤ high_of key) numbers.items) }
    ensures low_count { IfOk result (λ numbers. few ≤ length numbers.items) }
    ensures high_count { IfOk result (λ numbers. length numbers.items ≤ many) }
    ensures accepted { OnOk result (members_fault key few many (Some members.now) ≡ None) }
    ensures err { IfErr result (IsFaultOf (members_fault key few many (Some members.now))) }
{
    let count = members.len();
    if count < few || count > many {
        let value = count as i64;
        return Err(ConfigFault::Range { key, value });
    }
    members_in_range(alloc, key, members)
}

/// The numbers in the list at a key, which has from `few` to `many` members.
fn numbers(
    alloc: Global,
    table: &Table,
    key: Key,
    few: usize,
    many: usize,
) -> Result<Vec<u16>, ConfigFault>
    requires { high_of key < 65536 }
    ensures value { IfOk result (λ numbers. IsListAt (table_view table.now) key numbers.items) }
    ensures high { IfOk result (λ numbers. All (λ n. n ≤ high_of key) numbers.items) }
    ensures low_count { IfOk result (λ numbers. few ≤ length numbers.items) }
    ensures high_count { IfOk result (λ numbers. length numbers.items ≤ many) }
    ensures accepted { OnOk result (list_fault (table_view table.now) key few many ≡ None) }
    ensures err { IfErr result (IsFaultOf (list_fault (table_view table.now) key few many)) }
{
    let items = match list_at(table, key) {
        Ok(items) => items,
        Err(fault) => return Err(fault),
    };
    match integers(alloc, key, items) {
        Ok(members) => checked(alloc, key, few, many, &members),
        Err(fault) => Err(fault),
    }
}

/// Numbers below 256 as bytes.
fn bytes_of(alloc: Global, numbers: &[u16]) -> Result<Vec<u8>, ConfigFault>
    requires { All (λ n. n ≤ 255) numbers.now }
    ensures value { IfOk result (λ bytes. bytes.items ≡ numbers.now) }
    ensures err { IfErr result (λ fault. fault ≡ ConfigFault.NoMemory) }
{
    let mut bytes = Vec::new(alloc);
    for number in numbers {
        let Ok(()) = bytes.push(*number as u8) else {
            return Err(ConfigFault::NoMemory);
        };
    }
    Ok(bytes)
}

/// The gears at their key: at most eight numbers.
pub fn gears(alloc: Global, table: &Table) -> Result<Vec<u8>, ConfigFault>
    ensures value { IfOk result (λ gears.
        IsListAt (table_view table.now) key_of.Gears gears.items) }
    ensures count { IfOk result (λ gears. length gears.items ≤ 8) }
    ensures accepted { OnOk result (list_fault (table_view table.now) key_of.Gears 0 8 ≡ None) }
    ensures err { IfErr result (IsFaultOf (list_fault (table_view table.now) key_of.Gears 0 8)) }
{
    match numbers(alloc, table, Key::Gears, 0, 8) {
        Ok(numbers) => bytes_of(alloc, &numbers),
        Err(fault) => Err(fault),
    }
}

/// The window at a place, 0 where there is none.
fn window(lengths: &[u16], at: usize) -> u16
    ensures { result ≡ slice_index_or lengths.now at 0 }
{
    if at < lengths.len() { lengths[at] } else { 0 }
}

/// The lengths of the windows at their key, one to three, and 0 for each window that is not used.
pub fn windows(alloc: Global, table: &Table) -> Result<[u16; 3], ConfigFault>
    ensures value { IfOk result (AreWindowsOf (table_view table.now)) }
    ensures accepted { OnOk result (list_fault (table_view table.now) key_of.Windows 1 3 ≡ None) }
    ensures err { IfErr result (IsFaultOf (list_fault (table_view table.now) key_of.Windows 1 3)) }
    ensures range { IfOk result AreWindows }
{
    match numbers(alloc, table, Key::Windows, 1, 3) {
        Ok(used) => Ok([window(&used, 0), window(&used, 1), window(&used, 2)]),
        Err(fault) => Err(fault),
    }
}
