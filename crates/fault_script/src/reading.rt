//! Scripts, as bytes.

ghost use Rattle.std.specs.Prelude.{◌≡◌, ◌<◌, ◌≤◌, None, Some, Err, map, IfOk, IfSome};
ghost use Rattle.std.specs.List.{AllByRecursion};
ghost use Rattle.toml.specs.View.{view, array_view, table_view};
ghost use Rattle.fault_script.specs.Rows.{AreNumbers, has};
ghost use Rattle.fault_script.specs.Scripts as scripts;
ghost use Rattle.fault_script.specs.declared.error.ScriptError.TheVariants.{Refused};

use crate::error::ScriptError;
use crate::row::ScriptRow;
use crate::script::Script;
use crate::values::{are_apart, executions_under, has_only, number_in, value_under};
use std::alloc::Global;
use toml::Value;
use toml::value::{Array, Table};

/// The number of a row's worker.
fn number_under(table: &Table) -> Result<u8, ScriptError>
    ensures number { scripts.Reads (λ n. n) result (scripts.number_under (table_view table.now)) }
    ensures worker { IfOk result (λ n. n < 32) }
{
    let Some(value) = value_under(table, "number") else {
        return Err(ScriptError::Refused);
    };
    match number_in(value, 0, 31) {
        Some(number) => Ok(number as u8),
        None => Err(ScriptError::Refused),
    }
}

/// At which claim a row's worker stops, if the row says it.
fn stop_under(table: &Table) -> Result<Option<u32>, ScriptError>
    ensures stop { scripts.Reads (λ stop_at. stop_at) result (scripts.stop_under (table_view table.now)) }
    ensures from_one { IfOk result (λ stop_at. IfSome stop_at (λ at. 1 ≤ at)) }
{
    let Some(value) = value_under(table, "stop_at") else {
        return Ok(None);
    };
    match number_in(value, 1, u32::MAX) {
        Some(number) => Ok(Some(number)),
        None => Err(ScriptError::Refused),
    }
}

/// The row that a table with a row's keys is.
#[tactic(auto, unfolding(crate::specs::Scripts::row_with))]
fn row_with(alloc: Global, table: &Table) -> Result<ScriptRow, ScriptError>
    ensures row { scripts.Reads (λ row. row) result (scripts.row_with (table_view table.now)) }
    ensures worker { IfOk result (λ row. row.number < 32) }
{
    let number = number_under(table)?;
    let stop_at = stop_under(table)?;
    let lose = executions_under(alloc, table, "lose")?;
    let repeat = executions_under(alloc, table, "repeat")?;
    let hold = executions_under(alloc, table, "hold")?;
    if are_apart(lose.as_slice(), repeat.as_slice())
        && are_apart(lose.as_slice(), hold.as_slice())
        && are_apart(repeat.as_slice(), hold.as_slice())
    {
        Ok(ScriptRow {
            number,
            stop_at,
            lose,
            repeat,
            hold,
        })
    } else {
        Err(ScriptError::Refused)
    }
}

/// The row that a value is.
fn row_in(alloc: Global, value: &Value) -> Result<ScriptRow, ScriptError>
    ensures row { scripts.Reads (λ row. row) result (scripts.row_in (view value.now)) }
    ensures worker { IfOk result (λ row. row.number < 32) }
{
    match value.as_table() {
        Some(table) if has_only(table, &["number", "stop_at", "lose", "repeat", "hold"]) => {
            row_with(alloc, table)
        }
        _ => Err(ScriptError::Refused),
    }
}

/// The rows that the items of an array are.
fn rows_of(alloc: Global, values: &Array) -> Result<Vec<ScriptRow>, ScriptError>
    ensures rows { scripts.Reads (λ rows. rows.items) result (scripts.each_in scripts.row_in (array_view values.now)) }
    ensures workers { IfOk result (λ rows. AllByRecursion (λ row. row.number < 32) rows.items) }
{
    let mut rows = Vec::new(alloc);
    for value in values {
        rows.push(row_in(alloc, value)?)?;
    }
    Ok(rows)
}

/// Whether a row has this number.
fn has_number(rows: &[ScriptRow], number: u8) -> bool
    ensures { result ≡ has (map (λ row. row.number) rows.now) number }
{
    for row in rows {
        if row.number == number {
            return true;
        }
    }
    false
}

/// Whether no two rows have one number.
fn are_different(rows: &[ScriptRow]) -> bool
    ensures { result ≡ scripts.are_different (map (λ row. row.number) rows.now) }
{
    for place in 0..rows.len() {
        let row = &rows[place];
        if has_number(&rows[place + 1..], row.number) {
            return false;
        }
    }
    true
}

/// The script whose rows a value lists.
fn script_in(alloc: Global, value: &Value) -> Result<Script, ScriptError>
    ensures { scripts.Reads (λ script. script) result (scripts.rows_in (view value.now)) }
{
    let Some(values) = value.as_array() else {
        return Err(ScriptError::Refused);
    };
    let rows = rows_of(alloc, values)?;
    if are_different(rows.as_slice()) {
        Ok(Script::of(rows))
    } else {
        Err(ScriptError::Refused)
    }
}

/// The script that a table is.
fn script_with(alloc: Global, table: &Table) -> Result<Script, ScriptError>
    ensures { scripts.Reads (λ script. script) result (scripts.script_with (table_view table.now)) }
{
    if !has_only(table, &["worker"]) {
        return Err(ScriptError::Refused);
    }
    match value_under(table, "worker") {
        Some(value) => script_in(alloc, value),
        None => Ok(Script::none(alloc)),
    }
}

/// The table that bytes are read as.
fn table_in(alloc: Global, bytes: &[u8]) -> Result<Table, ScriptError>
    ensures { scripts.Reads table_view result (scripts.table_in bytes.now) }
{
    match toml::table_from_slice(alloc, bytes) {
        Ok(table) => Ok(table),
        Err(error) if error.is_memory() => Err(ScriptError::NoMemory),
        Err(_) => Err(ScriptError::Refused),
    }
}

/// The script that the bytes are: TOML whose only key, if any, is `worker`, an array of tables. Each has a `number` of its own, 0 to 31,
/// and may have `stop_at`, and lists of executions under `lose`, `repeat` and `hold`.
pub fn read_script(alloc: Global, bytes: &[u8]) -> Result<Script, ScriptError>
    ensures script { IfOk result (λ script. scripts.script_of bytes.now ≡ Some script) }
    ensures refused { result ≡ Err Refused → scripts.script_of bytes.now ≡ None }
{
    let table = table_in(alloc, bytes)?;
    script_with(alloc, &table)
}
