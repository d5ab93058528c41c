//! A worker's tally under its row.

ghost use Rattle.std.specs.Prelude.{◌≡◌, ◌+◌, ◌<◌, ◌^◌, false, Some, IfSome};
ghost use Rattle.fault_script.specs.Rows.{IsTallyOf};
ghost use Rattle.fault_script.specs.Acts.{act_of, first_tally, counted_as};

use crate::act::Act;
use crate::row::ScriptRow;
use cal_base::WorkerTally;

/// The tally of a worker that has done nothing yet.
pub fn first_tally(row: &ScriptRow) -> WorkerTally
    ensures first { result ≡ first_tally row.now.number }
    ensures follows { IsTallyOf row.now result }
{
    WorkerTally {
        who: row.number,
        claims: 0,
        executed: 0,
        lost: 0,
        repeated: 0,
        held: 0,
        stopped: false,
        pages: 0,
    }
}

/// Counts a claim that is executed, and what is done with its answer.
fn count_executed(tally: &mut WorkerTally, act: Act)
    requires claims { tally.old.claims + 1 < 2 ^ 64 }
    requires executed { tally.old.executed + 1 < 2 ^ 64 }
    requires lost { tally.old.lost + 1 < 2 ^ 64 }
    requires repeated { tally.old.repeated + 1 < 2 ^ 64 }
    requires held { tally.old.held + 1 < 2 ^ 64 }
    ensures { tally.new ≡ counted_as tally.old (Some act) }
{
    tally.claims += 1;
    tally.executed += 1;
    match act {
        Act::Deliver => {}
        Act::Lose => tally.lost += 1,
        Act::Repeat => tally.repeated += 1,
        Act::Hold => tally.held += 1,
    }
}

/// Counts a claim that was answered by work, and says what the worker does with its answer, or `None` where it stops before it executes.
pub fn count_claim(row: &ScriptRow, tally: &mut WorkerTally) -> Option<Act>
    requires follows { IsTallyOf row.now tally.old }
    requires goes_on { tally.old.stopped ≡ false }
    ensures follows { IsTallyOf row.now tally.new }
    ensures counted { tally.new ≡ counted_as tally.old result }
    ensures act { IfSome result (λ act. act ≡ act_of row.now tally.new.claims) }
{
    let claims = tally.claims + 1;
    if row.has_stopped(claims) {
        tally.claims = claims;
        tally.stopped = true;
        return None;
    }
    let act = row.act(claims);
    count_executed(tally, act);
    Some(act)
}
