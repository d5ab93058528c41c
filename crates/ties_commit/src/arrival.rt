//! The arrival rule.

ghost use Rattle.std.specs.Prelude.{◌≡◌, ◌<◌, ◌≤◌, true, length, slice_set};
ghost use Rattle.cal_base.specs.Claims.{is_full};
ghost use Rattle.step_merge.specs.Staged.{size_of, IsFree, LaysAt};
ghost use Rattle.ties_commit.specs.Committed.{DoAgree, StillAgree, Commits, CutsAtLeast, answer_in, judged, current_verdict, verdict_in};

use cal_base::{CALLER, Cause, UpdateWords, Verdict, arrival_bound};
use progress_table::ProgressTable;
use step_merge::Stage;

/// What a routine answers, as it is delivered: its update, or why it failed.
#[derive(Drop)]
pub enum Delivery<'a, U> {
    /// It came to its end, and wrote this.
    Update(&'a U),
    /// It failed, and nothing that it wrote counts.
    Fault(Cause),
}

/// Whether the deliverer is a worker, and as many deliveries of workers arrived as a step of n routines takes.
fn is_full_for(who: u8, worker_arrivals: u32, n: u32) -> bool
    requires { n ≤ 65536 }
    ensures { result ≡ is_full who worker_arrivals n }
{
    who < CALLER && arrival_bound(n) <= worker_arrivals
}

/// Judges a delivery of whatever routine, of a step, where step `now` is open and has n routines, 65,536 at most: it is `Full` where
/// a worker delivers and as many deliveries of workers arrived as the step takes, and else `Stale` where it is of an older step. It
/// gives none of the two where the delivery may count. `worker_arrivals` says how many deliveries of workers arrived so far.
pub fn judge(who: u8, worker_arrivals: u32, n: u32, step: u64, now: u64) -> Option<Verdict>
    requires { n ≤ 65536 }
    ensures { result ≡ judged who worker_arrivals n step now }
{
    if is_full_for(who, worker_arrivals, n) {
        return Some(Verdict::Full);
    }
    if step < now {
        return Some(Verdict::Stale);
    }
    None
}

/// Lays the answer of routine k.
fn lay<U: UpdateWords>(stage: &mut Stage, k: u32, what: Delivery<U>)
    requires in_range { k < size_of stage.old }
    requires free { IsFree stage.old k }
    ensures { LaysAt stage.old stage.new k (answer_in U.update what.entry) }
{
    match what {
        Delivery::Update(update) => stage.lay(k, update),
        Delivery::Fault(cause) => stage.lay_fault(k, cause),
    }
}

/// Notes the first answer of routine k, and leaves no number above a faulty one wanted.
fn note_first(table: &mut ProgressTable, stage: &Stage, k: u32)
    requires in_table { k < length table.old.claims }
    requires same_size { size_of stage.now ≡ length table.old.claims }
    ensures claims { table.new.claims ≡ table.old.claims }
    ensures done { table.new.done ≡ slice_set table.old.done k true }
    ensures bound { CutsAtLeast stage.now table.old.bound table.new.bound }
{
    table.note_done(k);
    match stage.least_fault() {
        Some(fault) => table.cut_above(fault),
        None => {}
    }
}

/// Judges the delivery of the answer of routine k of a step, where step `now` is open, and commits it where it is the first.
/// `worker_arrivals` says how many deliveries of workers arrived so far.
pub fn commit<U: UpdateWords>(
    table: &mut ProgressTable,
    stage: &mut Stage,
    who: u8,
    worker_arrivals: u32,
    step: u64,
    now: u64,
    k: u32,
    what: Delivery<U>,
) -> Verdict
    requires agree { DoAgree table.old stage.old }
    requires step { step ≤ now }
    requires number { step ≡ now → k < length table.old.claims }
    ensures verdict { result ≡ verdict_in table.old who worker_arrivals step now k }
    ensures commits { Commits result table.old stage.old k (answer_in U.update what.entry) table.new stage.new }
    ensures agree { StillAgree result table.old stage.old k (answer_in U.update what.entry) table.new stage.new }
{
    match judge(who, worker_arrivals, table.len(), step, now) {
        Some(verdict) => verdict,
        None => commit_current(table, stage, k, what),
    }
}

/// The same for a delivery of the open step that is not full.
fn commit_current<U: UpdateWords>(
    table: &mut ProgressTable,
    stage: &mut Stage,
    k: u32,
    what: Delivery<U>,
) -> Verdict
    requires agree { DoAgree table.old stage.old }
    requires number { k < length table.old.claims }
    ensures verdict { result ≡ current_verdict table.old k }
    ensures commits { Commits result table.old stage.old k (answer_in U.update what.entry) table.new stage.new }
    ensures agree { StillAgree result table.old stage.old k (answer_in U.update what.entry) table.new stage.new }
{
    if table.claims(k) == 0 {
        return Verdict::Unasked;
    }
    if table.is_done(k) {
        return Verdict::Again;
    }
    lay(stage, k, what);
    note_first(table, stage, k);
    Verdict::First
}
