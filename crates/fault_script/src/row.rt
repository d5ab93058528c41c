//! A row of a script.

ghost use Rattle.std.specs.Prelude.{◌≡◌, ◌≤◌, IfOk};
ghost use Rattle.fault_script.specs.Rows.{plain_row, has_stopped, IsRow};
ghost use Rattle.fault_script.specs.Acts.{act_of};

use crate::act::Act;
use crate::lists::has;
use cal_base::NoMemory;
use std::alloc::Global;
use std::marker::Model;

/// What a script says of one worker. Executions are counted from 1, over the whole run.
#[derive(Debug, Drop)]
pub struct ScriptRow {
    /// The worker's number, 0 to 31, or the caller's, 32.
    pub number: u8,
    /// At which claim the worker stops, from 1 on.
    pub stop_at: Option<u32>,
    /// The executions that it never delivers, ascending.
    pub lose: Vec<u32>,
    /// The executions that it delivers twice, ascending.
    pub repeat: Vec<u32>,
    /// The executions that it delivers in a later step, ascending.
    pub hold: Vec<u32>,
}

impl Model for ScriptRow {
    ghost use Rattle.fault_script.specs.Rows.{Row, IsRow, row_from};

    ghost Value = { Row };

    ghost view = { λ r. row_from r.number r.stop_at r.lose.items r.repeat.items r.hold.items };

    ghost invariant = { λ r. IsRow (row_from r.number r.stop_at r.lose.items r.repeat.items r.hold.items) };
}

impl ScriptRow {
    /// The row of a worker of which nothing is said. It takes no memory.
    pub fn plain(alloc: Global, who: u8) -> ScriptRow
        requires { who ≤ 32 }
        ensures { result ≡ plain_row who }
    {
        ScriptRow {
            number: who,
            stop_at: None,
            lose: Vec::new(alloc),
            repeat: Vec::new(alloc),
            hold: Vec::new(alloc),
        }
    }

    /// A copy of the row. It takes memory for the lists.
    pub fn copy(&self, alloc: Global) -> Result<ScriptRow, NoMemory>
        ensures { IfOk result (λ row. row ≡ self.now) }
    {
        let lose = Vec::from_slice(alloc, self.lose.as_slice())?;
        let repeat = Vec::from_slice(alloc, self.repeat.as_slice())?;
        let hold = Vec::from_slice(alloc, self.hold.as_slice())?;
        Ok(ScriptRow {
            number: self.number,
            stop_at: self.stop_at,
            lose,
            repeat,
            hold,
        })
    }

    /// What becomes of the worker's execution of this number, counted from 1.
    pub fn act(&self, i: u64) -> Act
        ensures act { result ≡ act_of self.now i }
        ensures row { IsRow self.now }
    {
        if has(self.lose.as_slice(), i) {
            Act::Lose
        } else if has(self.repeat.as_slice(), i) {
            Act::Repeat
        } else if has(self.hold.as_slice(), i) {
            Act::Hold
        } else {
            Act::Deliver
        }
    }

    /// Whether the worker has stopped after so many claims.
    pub fn has_stopped(&self, claims: u64) -> bool
        ensures { result ≡ has_stopped self.now claims }
    {
        let at_row = match self.stop_at {
            Some(at) => u64::from(at) <= claims,
            None => false,
        };
        at_row || claims == u64::MAX
    }
}
