//! The caller's part in a step.

ghost use Rattle.std.specs.Prelude.{◌≡◌, ◌+◌, ◌<◌, ◌≤◌, ◌^◌, if◌then◌else◌};
ghost use Rattle.cal_base.specs.History.{claims_by, arrivals_by, is_caller};
ghost use Rattle.cal_base.specs.Claims.{size_of, verdict_on, IsComplete};
ghost use Rattle.step_laws.specs.Caller.{completed};
ghost use Rattle.step_laws.specs.Caller.{NoCaller};
ghost use Rattle.step_laws.specs.Turns.{after_arrival};
ghost use Rattle.worker_gate.specs.Working.{MayWork, Executes, TookTurn, with_claims, with_pages};

use crate::execution::execute;
use crate::worker::Worker;
use cal_base::{CALLER, Claimed, JobName, Verdict};
use routine_executor::Job;
use step_core::Core;

/// The caller executes routine k and delivers its answer.
fn deliver<N: JobName>(worker: &mut Worker, job: &Job<'_, N>, k: u32, core: &mut Core<N>) -> Verdict
    requires number { k < size_of N.job }
    requires may { MayWork worker.old job.now.image.now job.now.code.now }
    requires arrivals { arrivals_by is_caller core.old < size_of N.job }
    ensures verdict { result ≡ verdict_on N.job core.old CALLER N.job.number k }
    ensures history { core.new ≡ after_arrival core.old CALLER N.job.number k result }
    ensures worker { Executes worker.old worker.new job.now.image.now job.now.code.now }
{
    let done = execute(worker, job, k);
    core.arrive(CALLER, &done)
}

/// One turn of the caller: it claims, executes and delivers, or nothing is wanted any more.
fn turn<N: JobName>(worker: &mut Worker, job: &Job<'_, N>, core: &mut Core<N>) -> bool
    requires caller { worker.old.tally.who ≡ CALLER }
    requires may { MayWork worker.old job.now.image.now job.now.code.now }
    requires fits { worker.old.tally.claims + 1 < 2 ^ 64 }
    requires claims { claims_by is_caller core.old < size_of N.job }
    requires arrivals { arrivals_by is_caller core.old < size_of N.job }
    ensures took { TookTurn N.job core.old result core.new }
    ensures tally { worker.new.tally ≡ with_pages (with_claims worker.old.tally (if result then 1 else 0)) worker.new.tally.pages }
    ensures row { worker.new.row ≡ worker.old.row }
    ensures size { worker.new.kept.size ≡ worker.old.kept.size }
    ensures may { MayWork worker.new job.now.image.now job.now.code.now }
{
    let Claimed::Work(k) = core.claim(CALLER) else {
        return false;
    };
    deliver(worker, job, k, core);
    worker.count();
    true
}

/// The caller takes its turns, until nothing is wanted.
fn take_turns<N: JobName>(worker: &mut Worker, job: &Job<'_, N>, core: &mut Core<N>)
    requires caller { worker.old.tally.who ≡ CALLER }
    requires may { MayWork worker.old job.now.image.now job.now.code.now }
    requires fits { worker.old.tally.claims + job.now.n < 2 ^ 64 }
    requires alone { NoCaller core.old }
    ensures complete { IsComplete N.job core.new }
    ensures history { core.new ≡ completed N.job core.old }
    ensures tally { worker.new.tally ≡ with_pages (with_claims worker.old.tally (claims_by is_caller core.new)) worker.new.tally.pages }
    ensures few { claims_by is_caller core.new ≤ size_of N.job }
    ensures row { worker.new.row ≡ worker.old.row }
    ensures size { worker.new.kept.size ≡ worker.old.kept.size }
    ensures may { MayWork worker.new job.now.image.now job.now.code.now }
{
    let _legal = core.history();
    for taken in 0..job.n {
        if !turn(worker, job, core) {
            return;
        }
    }
}

/// The caller completes the step by itself: it claims, executes and delivers, until nothing is wanted. It waits for nobody and takes no
/// memory. Pages that it keeps from earlier steps are not fetched again where they have not changed.
pub fn finish<N: JobName>(worker: &mut Worker, job: &Job<'_, N>, core: &mut Core<N>)
    requires caller { worker.old.tally.who ≡ CALLER }
    requires may { MayWork worker.old job.now.image.now job.now.code.now }
    requires fits { worker.old.tally.claims + job.now.n < 2 ^ 64 }
    requires alone { NoCaller core.old }
    ensures complete { IsComplete N.job core.new }
    ensures history { core.new ≡ completed N.job core.old }
    ensures tally { worker.new.tally ≡ with_pages (with_claims worker.old.tally (claims_by is_caller core.new)) worker.new.tally.pages }
    ensures few { claims_by is_caller core.new ≤ size_of N.job }
    ensures row { worker.new.row ≡ worker.old.row }
    ensures size { worker.new.kept.size ≡ worker.old.kept.size }
    ensures may { MayWork worker.new job.now.image.now job.now.code.now }
{
    worker.begin_step();
    take_turns(worker, job, core);
}
