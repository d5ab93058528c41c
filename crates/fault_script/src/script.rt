//! A whole script.

ghost use Rattle.std.specs.Prelude.{◌≡◌, ◌≤◌, [], map, IfOk};
ghost use Rattle.fault_script.specs.Rows.{row_of, AreNumbers};

use crate::row::ScriptRow;
use cal_base::NoMemory;
use std::alloc::Global;
use std::marker::Model;

/// What is said of the workers of a run: at most one row for each. A row whose number is not below the number of workers has no effect.
#[derive(Debug, Drop)]
pub struct Script {
    rows: Vec<ScriptRow>,
}

impl Model for Script {
    ghost use Rattle.std.specs.Prelude.{List, map};
    ghost use Rattle.fault_script.specs.Rows.{Row, AreNumbers};

    ghost Value = { List Row };

    ghost view = { λ s. s.rows.items };

    ghost invariant = { λ s. AreNumbers (map (λ row. row.number) s.rows.items) };
}

impl Script {
    /// A script that says nothing. It takes no memory.
    pub fn none(alloc: Global) -> Script
        ensures { result ≡ [] }
    {
        Script {
            rows: Vec::new(alloc),
        }
    }

    /// A script of these rows. It takes no memory.
    pub fn of(rows: Vec<ScriptRow>) -> Script
        requires { AreNumbers (map (λ row. row.number) rows.items) }
        ensures { result ≡ rows.items }
    {
        Script { rows }
    }

    /// A copy of the row of this number, else a row by which the worker only delivers.
    pub fn row(&self, alloc: Global, who: u8) -> Result<ScriptRow, NoMemory>
        requires { who ≤ 32 }
        ensures { IfOk result (λ row. row ≡ row_of self.now who) }
    {
        copied(alloc, self.rows.as_slice(), who)
    }
}

/// A copy of the row of this number, else a plain one.
fn copied(alloc: Global, rows: &[ScriptRow], who: u8) -> Result<ScriptRow, NoMemory>
    requires { who ≤ 32 }
    ensures { IfOk result (λ row. row ≡ row_of rows.now who) }
{
    for row in rows {
        if row.number == who {
            return row.copy(alloc);
        }
    }
    Ok(ScriptRow::plain(alloc, who))
}
