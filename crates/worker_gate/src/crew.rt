//! What all workers do in a step, each in a thread of its own.

ghost use Rattle.std.specs.Thread.{IsSync};
ghost use Rattle.std.specs.Prelude.{◌≡◌, ◌<◌, ◌≤◌, ◌+◌, ◌∷◌, ◌++◌, [], All, vec_len, vec_capacity};
ghost use Rattle.worker_gate.specs.Worked.{IsReady, Worked};

use crate::worker::Worker;
use crate::working::work;
use cal_base::{Gate, JobName};
use routine_executor::Job;
use std::sync::ledger::Ledger;
use std::sync::{Mutex, Wait};
use std::thread::{Threads, join};
use step_board::{Board, WorkerShares};

/// A worker that is lent, the job, and the worker's shares.
#[derive(Drop)]
struct One<'a, 'i, 'j, N: JobName, C: Ledger, A: Ledger, H: Ledger, E: Ledger> {
    worker: &'a mut Worker,
    job: &'i Job<'j, N>,
    shares: WorkerShares<N, C, A, H, E>,
}

/// Workers that are lent, the job, and the workers' shares.
#[derive(Drop)]
struct Others<'a, 'i, 'j, N: JobName, C: Ledger, A: Ledger, H: Ledger, E: Ledger> {
    workers: &'a mut Vec<Worker>,
    job: &'i Job<'j, N>,
    shares: WorkerShares<N, C, A, H, E>,
}

/// Calls f on s beside g on t. What is lent in s and t can be given back, and is then known.
fn join_on<
    R: Threads,
    S: Send + Drop,
    T: Send + Drop,
    X: Send,
    Y: Send,
    F: FnOnce(S) -> X + Send + Drop,
    G: FnOnce(T) -> Y + Drop,
>(rt: &R, s: S, f: F, t: T, g: G) -> (X, Y)
    requires { F.pre f s × G.pre g t }
    ensures { F.post f s result.0 × G.post g t result.1 }
{
    join(
        rt,
        move || -> X
            requires { F.pre f s }
            ensures { F.post f s result }
        { f(s) },
        move || -> Y
            requires { G.pre g t }
            ensures { G.post g t result }
        { g(t) },
    )
}

/// Does nothing: by this use what was lent is back.
fn take_back<T>(lent: &mut T)
    ensures { lent.new ≡ lent.old }
{}

/// Takes the last worker.
fn take_last<N: JobName>(workers: &mut Vec<Worker>) -> Worker
    requires { 0 < vec_len workers.old }
    ensures items { workers.old.items ≡ workers.new.items ++ result ∷ [] }
    ensures len { vec_len workers.old ≡ vec_len workers.new + 1 }
    ensures capacity { (vec_capacity workers.new ≡ vec_capacity workers.old) × (vec_len workers.new < vec_capacity workers.new) }
{
    let Some(worker) = workers.pop() else {
        unreachable!()
    };
    worker
}

/// The work of one worker with shares of its own.
fn work_one<
    'a,
    'i,
    'j,
    N: JobName + Send + Sync,
    C: Ledger + Send + Sync,
    A: Ledger + Send + Sync,
    H: Ledger + Send + Sync,
    E: Ledger + Send + Sync,
    G: Gate,
    R: Threads + Wait + Sync,
>(
    rt: &R,
    one: One<'a, 'i, 'j, N, C, A, H, E>,
    board: &Mutex<Board<N, C, A, H, E>>,
    gate: &G,
) -> One<'a, 'i, 'j, N, C, A, H, E>
    requires { IsReady N.job.number one.job.now.image.now one.job.now.code.now one.worker.now }
    ensures same { result.worker.ghost_name ≡ one.entry.worker.ghost_name }
    ensures work { Worked N.job.number one.entry.job.now.image.now one.entry.job.now.code.now (one.entry.worker.now ∷ [])
        (result.worker.now ∷ []) one.entry.shares result.shares }
{
    let One {
        worker,
        job,
        mut shares,
    } = one;
    work(rt, worker, job, &mut shares, board, gate);
    One {
        worker,
        job,
        shares,
    }
}

/// The work of all others with the rest of the shares.
#[cycle(crew)]
fn work_others<
    'a,
    'i,
    'j,
    N: JobName + Send + Sync,
    C: Ledger + Send + Sync,
    A: Ledger + Send + Sync,
    H: Ledger + Send + Sync,
    E: Ledger + Send + Sync,
    G: Gate,
    R: Threads + Wait + Sync,
>(
    rt: &R,
    others: Others<'a, 'i, 'j, N, C, A, H, E>,
    board: &Mutex<Board<N, C, A, H, E>>,
    gate: &G,
) -> Others<'a, 'i, 'j, N, C, A, H, E>
    requires some { 0 < vec_len others.workers.now }
    requires ready { All (IsReady N.job.number others.job.now.image.now others.job.now.code.now) others.workers.now.items }
    requires parts { vec_len others.workers.now ≤ others.shares.parts }
    ensures same { result.workers.ghost_name ≡ others.entry.workers.ghost_name }
    ensures work { Worked N.job.number others.entry.job.now.image.now others.entry.job.now.code.now others.entry.workers.now.items
        result.workers.now.items others.entry.shares result.shares }
    ensures room { (vec_capacity result.workers.now ≡ vec_capacity others.entry.workers.now)
        × (vec_len result.workers.now ≡ vec_len others.entry.workers.now) }
{
    let Others {
        workers,
        job,
        shares,
    } = others;
    let shares = work_all(rt, workers, job, shares, board, gate);
    Others {
        workers,
        job,
        shares,
    }
}

/// One worker beside all others, each with their shares, which come back.
#[cycle(crew)]
fn work_both<
    N: JobName + Send + Sync,
    C: Ledger + Send + Sync,
    A: Ledger + Send + Sync,
    H: Ledger + Send + Sync,
    E: Ledger + Send + Sync,
    G: Gate,
    R: Threads + Wait + Sync,
>(
    rt: &R,
    last: &mut Worker,
    mine: WorkerShares<N, C, A, H, E>,
    workers: &mut Vec<Worker>,
    shares: WorkerShares<N, C, A, H, E>,
    job: &Job<'_, N>,
    board: &Mutex<Board<N, C, A, H, E>>,
    gate: &G,
) -> (WorkerShares<N, C, A, H, E>, WorkerShares<N, C, A, H, E>)
    requires ready { IsReady N.job.number job.now.image.now job.now.code.now last.old }
    requires some { 0 < vec_len workers.old }
    requires others { All (IsReady N.job.number job.now.image.now job.now.code.now) workers.old.items }
    requires parts { vec_len workers.old ≤ shares.parts }
    ensures one { Worked N.job.number job.now.image.now job.now.code.now (last.old ∷ []) (last.new ∷ []) mine result.0 }
    ensures others { Worked N.job.number job.now.image.now job.now.code.now workers.old.items workers.new.items shares result.1 }
    ensures room { (vec_capacity workers.new ≡ vec_capacity workers.old) × (vec_len workers.new ≡ vec_len workers.old) }
{
    let most = workers.len();
    let (one, others) = join_on(
        rt,
        One {
            worker: last,
            job,
            shares: mine,
        },
        move |one: One<N, C, A, H, E>| -> One<N, C, A, H, E>
            requires ready { IsReady N.job.number one.job.now.image.now one.job.now.code.now one.worker.now }
            ensures same { result.worker.ghost_name ≡ one.entry.worker.ghost_name }
            ensures work { Worked N.job.number one.entry.job.now.image.now one.entry.job.now.code.now (one.entry.worker.now ∷ [])
                (result.worker.now ∷ []) one.entry.shares result.shares }
        { work_one(rt, one, board, gate) },
        Others {
            workers,
            job,
            shares,
        },
        move |others: Others<N, C, A, H, E>| -> Others<N, C, A, H, E>
            requires sync { IsSync R.row }
            requires few { vec_len others.workers.now ≤ most }
            requires some { 0 < vec_len others.workers.now }
            requires ready { All (IsReady N.job.number others.job.now.image.now others.job.now.code.now) others.workers.now.items }
            requires parts { vec_len others.workers.now ≤ others.shares.parts }
            ensures same { result.workers.ghost_name ≡ others.entry.workers.ghost_name }
            ensures work { Worked N.job.number others.entry.job.now.image.now others.entry.job.now.code.now others.entry.workers.now.items
                result.workers.now.items others.entry.shares result.shares }
            ensures room { (vec_capacity result.workers.now ≡ vec_capacity others.entry.workers.now)
                × (vec_len result.workers.now ≡ vec_len others.entry.workers.now) }
        {
            prove!(others.workers.len() <= most);
            work_others(rt, others, board, gate)
        },
    );
    let One {
        worker: lent,
        job: _,
        shares: mine,
    } = one;
    take_back(lent);
    let Others {
        workers: lent,
        job: _,
        shares,
    } = others;
    take_back(lent);
    (mine, shares)
}

/// The workers work, the last one beside all the others, and these in the same way. The shares come back. It may wait, and takes no memory.
#[cycle(crew)]
pub fn work_all<
    N: JobName + Send + Sync,
    C: Ledger + Send + Sync,
    A: Ledger + Send + Sync,
    H: Ledger + Send + Sync,
    E: Ledger + Send + Sync,
    G: Gate,
    R: Threads + Wait + Sync,
>(
    rt: &R,
    workers: &mut Vec<Worker>,
    job: &Job<'_, N>,
    shares: WorkerShares<N, C, A, H, E>,
    board: &Mutex<Board<N, C, A, H, E>>,
    gate: &G,
) -> WorkerShares<N, C, A, H, E>
    requires some { 0 < vec_len workers.old }
    requires ready { All (IsReady N.job.number job.now.image.now job.now.code.now) workers.old.items }
    requires parts { vec_len workers.old ≤ shares.parts }
    ensures work { Worked N.job.number job.now.image.now job.now.code.now workers.old.items workers.new.items shares result }
    ensures room { (vec_capacity workers.new ≡ vec_capacity workers.old) × (vec_len workers.new ≡ vec_len workers.old) }
{
    let mut shares = shares;
    let mut last = take_last::<N>(workers);
    if workers.is_empty() {
        work(rt, &mut last, job, &mut shares, board, gate);
        workers.push_reserved(last);
        return shares;
    }
    let mine = shares.split();
    let (mine, mut shares) = work_both(rt, &mut last, mine, workers, shares, job, board, gate);
    shares.join(mine);
    workers.push_reserved(last);
    shares
}
