//! Values of a script: numbers, lists of executions, and keys.

ghost use Rattle.std.specs.Prelude.{◌≡◌, ◌≤◌, map, option_map, IfOk, IfSome, IsTrue};
ghost use Rattle.std.specs.List.{list_any};
ghost use Rattle.std.specs.Str.{bytes_eq};
ghost use Rattle.toml.specs.Data.{get_member};
ghost use Rattle.toml.specs.View.{view, array_view, table_view};
ghost use Rattle.fault_script.specs.Rows.{AreApart, IsList};
ghost use Rattle.fault_script.specs.Scripts as scripts;

use crate::error::ScriptError;
use crate::lists::has;
use std::alloc::Global;
use toml::Value;
use toml::value::{Array, Table};

/// The number that a value is, if it is an integer in the range.
pub(crate) fn number_in(value: &Value, least: u32, most: u32) -> Option<u32>
    ensures number { result ≡ scripts.number_in least most (view value.now) }
    ensures least { IfSome result (λ n. least ≤ n) }
    ensures most { IfSome result (λ n. n ≤ most) }
{
    match u32::try_from(value.as_integer()?) {
        Ok(number) if least <= number && number <= most => Some(number),
        _ => None,
    }
}

/// The value under a key.
pub(crate) fn value_under<'a>(table: &'a Table, key: &str) -> Option<&'a Value>
    ensures { option_map (λ value. view value.now) result ≡ get_member key.now (table_view table.now) }
{
    table.get(key)
}

/// The numbers that the items of an array are, each an integer from 1 on.
fn numbers_in(alloc: Global, values: &Array) -> Result<Vec<u32>, ScriptError>
    ensures { scripts.Reads (λ numbers. numbers.items) result (scripts.each_in (scripts.number_in 1 4294967295) (array_view values.now)) }
{
    let mut numbers = Vec::new(alloc);
    for value in values {
        match number_in(value, 1, u32::MAX) {
            Some(number) => numbers.push(number)?,
            None => return Err(ScriptError::Refused),
        }
    }
    Ok(numbers)
}

/// Whether each number is above the one before it, and the first is at least 1.
fn are_ascending(numbers: &[u32]) -> bool
    ensures { result ≡ scripts.ascend_above 0 numbers.now }
{
    let mut low = 0;
    for number in numbers {
        if *number <= low {
            return false;
        }
        low = *number;
    }
    true
}

/// The executions that a value lists.
fn executions_in(alloc: Global, value: &Value) -> Result<Vec<u32>, ScriptError>
    ensures executions { scripts.Reads (λ numbers. numbers.items) result (scripts.executions_in (view value.now)) }
    ensures list { IfOk result (λ numbers. IsList numbers.items) }
{
    let Some(values) = value.as_array() else {
        return Err(ScriptError::Refused);
    };
    let numbers = numbers_in(alloc, values)?;
    if numbers.len() <= 1024 && are_ascending(numbers.as_slice()) {
        Ok(numbers)
    } else {
        Err(ScriptError::Refused)
    }
}

/// The executions that the value under a key lists; without the key there are none.
pub(crate) fn executions_under(
    alloc: Global,
    table: &Table,
    key: &str,
) -> Result<Vec<u32>, ScriptError>
    ensures executions { scripts.Reads (λ numbers. numbers.items) result (scripts.executions_under key.now (table_view table.now)) }
    ensures list { IfOk result (λ numbers. IsList numbers.items) }
{
    match value_under(table, key) {
        Some(value) => executions_in(alloc, value),
        None => Ok(Vec::new(alloc)),
    }
}

/// Whether no number is in both lists.
pub(crate) fn are_apart(some: &[u32], others: &[u32]) -> bool
    ensures value { result ≡ scripts.are_apart some.now others.now }
    ensures apart { IsTrue result → AreApart some.now others.now }
{
    for number in some {
        if has(others, u64::from(*number)) {
            return false;
        }
    }
    true
}

/// Whether the name is among these.
fn is_among(names: &[&str], name: &str) -> bool
    ensures { result ≡ list_any (λ known. bytes_eq known name.now) (map (λ known. known.now) names.now) }
{
    for known in names {
        if *known == name {
            return true;
        }
    }
    false
}

/// Whether the table has no other keys than these.
pub(crate) fn has_only(table: &Table, names: &[&str]) -> bool
    ensures { result ≡ scripts.has_only (map (λ known. known.now) names.now) (table_view table.now) }
{
    for (key, _value) in table.iter() {
        if !is_among(names, key.as_str()) {
            return false;
        }
    }
    true
}
