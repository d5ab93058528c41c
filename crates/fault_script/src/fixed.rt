//! A script that is always the same.

ghost use Rattle.std.specs.Prelude.{◌≡◌, IfOk};
ghost use Rattle.fault_script.specs.Fixed.{first_eight, selfrun_rows};
ghost use Rattle.fault_script.specs.Rows.{plain_row};

use crate::row::ScriptRow;
use crate::script::Script;
use cal_base::NoMemory;
use std::alloc::Global;

/// The numbers of the first eight executions. It takes memory for them.
fn first_eight(alloc: Global) -> Result<Vec<u32>, NoMemory>
    ensures { IfOk result (λ numbers. numbers.items ≡ first_eight) }
{
    Ok(Vec::from_slice(alloc, &[1, 2, 3, 4, 5, 6, 7, 8])?)
}

/// The script by which a generated program is run: worker 0 stops, worker 1 delivers twice, and worker 2 loses what it did. It takes memory
/// for the rows and their lists.
pub fn selfrun_script(alloc: Global) -> Result<Script, NoMemory>
    ensures { IfOk result (λ script. script ≡ selfrun_rows) }
{
    let stops = ScriptRow {
        number: 0,
        stop_at: Some(10),
        lose: Vec::new(alloc),
        repeat: Vec::new(alloc),
        hold: Vec::new(alloc),
    };
    let repeats = ScriptRow {
        number: 1,
        stop_at: None,
        lose: Vec::new(alloc),
        repeat: first_eight(alloc)?,
        hold: Vec::new(alloc),
    };
    let loses = ScriptRow {
        number: 2,
        stop_at: None,
        lose: first_eight(alloc)?,
        repeat: Vec::new(alloc),
        hold: Vec::new(alloc),
    };
    let mut rows = Vec::new(alloc);
    rows.push(stops)?;
    rows.push(repeats)?;
    rows.push(loses)?;
    Ok(Script::of(rows))
}
