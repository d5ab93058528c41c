//! What a worker does in a step.

ghost use Rattle.std.specs.Prelude.{◌≡◌, ◌<◌, ◌≤◌, ◌+◌, true, false, None, IfSome};
ghost use Rattle.cal_base.specs.Claims.{size_of};
ghost use Rattle.fault_script.specs.Rows.{IsTallyOf};
ghost use Rattle.worker_gate.specs.Acting.{times_delivered};
ghost use Rattle.worker_gate.specs.Working.{MayWork, Executes};
ghost use Rattle.worker_gate.specs.Worked.{Counts, IsReady, IsLeft, late, ends};

use crate::execution::execute;
use crate::worker::{Held, Worker};
use cal_base::{CALLER, Claimed, Gate, JobName, Point};
use fault_script::Act;
use routine_executor::{BufferView, Job};
use std::sync::ledger::Ledger;
use std::sync::{Mutex, Wait};
use step_board::{Board, WorkerShares};
use step_core::Finished;

/// Delivers an answer once or twice, as the act says, and then calls the gate.
fn deliver<N: JobName, C: Ledger, A: Ledger, H: Ledger, E: Ledger, G: Gate, R: Wait>(
    rt: &R,
    who: u8,
    act: Act,
    done: &Finished<N, BufferView<'_>>,
    shares: &mut WorkerShares<N, C, A, H, E>,
    board: &Mutex<Board<N, C, A, H, E>>,
    gate: &G,
)
    requires { who < CALLER }
    ensures { shares.new ≡ record shares.old { arrivals = shares.old.arrivals + times_delivered act } }
{
    match act {
        Act::Deliver => {
            board.lock(rt).arrive(shares, who, done);
            gate.at(Point::AfterArrive(who));
        }
        Act::Repeat => {
            board.lock(rt).arrive(shares, who, done);
            board.lock(rt).arrive(shares, who, done);
            gate.at(Point::AfterArrive(who));
        }
        Act::Lose => {}
        Act::Hold => {}
    }
}

/// Executes routine k, between two calls of the gate and outside the lock, and delivers the answer.
fn execute_and_deliver<N: JobName, C: Ledger, A: Ledger, H: Ledger, E: Ledger, G: Gate, R: Wait>(
    rt: &R,
    worker: &mut Worker,
    job: &Job<'_, N>,
    k: u32,
    act: Act,
    shares: &mut WorkerShares<N, C, A, H, E>,
    board: &Mutex<Board<N, C, A, H, E>>,
    gate: &G,
)
    requires who { worker.old.tally.who < CALLER }
    requires number { k < size_of N.job }
    requires may { MayWork worker.old job.now.image.now job.now.code.now }
    ensures shares { shares.new ≡ record shares.old { arrivals = shares.old.arrivals + times_delivered act } }
    ensures worker { Executes worker.old worker.new job.now.image.now job.now.code.now }
{
    let who = worker.tally().who;
    gate.at(Point::BeforeExecute(who));
    let done = execute(worker, job, k);
    gate.at(Point::AfterExecute(who));
    deliver(rt, who, act, &done, shares, board, gate);
}

/// One turn of a worker that goes on. False where this was its last turn in the step.
fn turn<N: JobName, C: Ledger, A: Ledger, H: Ledger, E: Ledger, G: Gate, R: Wait>(
    rt: &R,
    worker: &mut Worker,
    job: &Job<'_, N>,
    shares: &mut WorkerShares<N, C, A, H, E>,
    board: &Mutex<Board<N, C, A, H, E>>,
    gate: &G,
) -> bool
    requires who { worker.old.tally.who < CALLER }
    requires goes_on { worker.old.tally.stopped ≡ false }
    requires may { MayWork worker.old job.now.image.now job.now.code.now }
    requires holds { IfSome worker.old.holds (λ s. s ≤ N.job.number) }
    ensures counts { Counts worker.old.tally worker.new.tally shares.old shares.new }
    ensures held { shares.new.held ≡ shares.old.held }
    ensures on { result ≡ true → (worker.new.tally.stopped ≡ false) × (shares.new.ends ≡ shares.old.ends) }
    ensures off { result ≡ false → shares.new.ends ≡ shares.old.ends + ends worker.new }
    ensures left { IsLeft N.job.number job.now.image.now job.now.code.now worker.old worker.new }
{
    let tally = worker.tally();
    let answer = board.lock(rt).claim(shares, tally.who);
    let Claimed::Work(k) = answer else {
        return false;
    };
    let Some(act) = worker.note_claim() else {
        return false;
    };
    execute_and_deliver(rt, worker, job, k, act, shares, board, gate);
    worker.hold_by(act, Held { step: job.step, k });
    true
}

/// Turns until there is no more work, or the worker stops.
#[tactic(auto, using(crate::proofs::Counting::counts_trans, crate::proofs::Counting::left_trans, crate::proofs::Counting::counts_refl, crate::proofs::Counting::left_same))]
fn turns<N: JobName, C: Ledger, A: Ledger, H: Ledger, E: Ledger, G: Gate, R: Wait>(
    rt: &R,
    worker: &mut Worker,
    job: &Job<'_, N>,
    shares: &mut WorkerShares<N, C, A, H, E>,
    board: &Mutex<Board<N, C, A, H, E>>,
    gate: &G,
)
    requires who { worker.old.tally.who < CALLER }
    requires goes_on { worker.old.tally.stopped ≡ false }
    requires may { MayWork worker.old job.now.image.now job.now.code.now }
    requires holds { IfSome worker.old.holds (λ s. s ≤ N.job.number) }
    requires follows { IsTallyOf worker.old.row worker.old.tally }
    ensures counts { Counts worker.old.tally worker.new.tally shares.old shares.new }
    ensures held { shares.new.held ≡ shares.old.held }
    ensures ends { shares.new.ends ≡ shares.old.ends + ends worker.new }
    ensures left { IsLeft N.job.number job.now.image.now job.now.code.now worker.old worker.new }
{
    for _ in rt.forever() {
        if !turn(rt, worker, job, shares, board, gate) {
            return;
        }
    }
    unreachable!()
}

/// The worker begins a step, and lets arrive what it holds back of an older one.
fn begin<N: JobName, C: Ledger, A: Ledger, H: Ledger, E: Ledger, R: Wait>(
    rt: &R,
    worker: &mut Worker,
    shares: &mut WorkerShares<N, C, A, H, E>,
    board: &Mutex<Board<N, C, A, H, E>>,
)
    requires who { worker.old.tally.who < CALLER }
    requires goes_on { worker.old.tally.stopped ≡ false }
    requires holds { IfSome worker.old.holds (λ s. s < N.job.number) }
    ensures shares { shares.new ≡ record shares.old { held = shares.old.held + late worker.old } }
    ensures worker { worker.new ≡ record worker.old { holds = None } }
{
    worker.begin_step();
    let Some(held) = worker.take_held() else {
        return;
    };
    let who = worker.tally().who;
    board.lock(rt).arrive_held(shares, who, held.step, held.k);
}

/// What a worker does in a step: it lets arrive what it holds back, and then claims, executes and delivers by its row, until there is no
/// more work or it stops. A worker that has stopped does nothing. It may wait, and takes no memory.
pub fn work<N: JobName, C: Ledger, A: Ledger, H: Ledger, E: Ledger, G: Gate, R: Wait>(
    rt: &R,
    worker: &mut Worker,
    job: &Job<'_, N>,
    shares: &mut WorkerShares<N, C, A, H, E>,
    board: &Mutex<Board<N, C, A, H, E>>,
    gate: &G,
)
    requires { IsReady N.job.number job.now.image.now job.now.code.now worker.old }
    ensures counts { Counts worker.old.tally worker.new.tally shares.old shares.new }
    ensures held { shares.new.held ≡ shares.old.held + late worker.old }
    ensures ends { shares.new.ends ≡ shares.old.ends + ends worker.new }
    ensures left { IsLeft N.job.number job.now.image.now job.now.code.now worker.old worker.new }
{
    let tally = worker.tally();
    if tally.stopped {
        return;
    }
    begin(rt, worker, shares, board);
    turns(rt, worker, job, shares, board, gate);
}
