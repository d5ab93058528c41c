//! The workers' part in a step.

ghost use Rattle.std.specs.Prelude.{◌≡◌, ◌+◌, ◌<◌, ◌≤◌, [], All, length, vec_len};
ghost use Rattle.std.specs.List.{AllByRecursion};
ghost use Rattle.cal_base.specs.Claims.{size_of};
ghost use Rattle.worker_gate.specs.Worked.{IsReady};
ghost use Rattle.calypso_engine.specs.Teams.{IsMember, Gathered};

use crate::options::RunOptions;
use cal_base::{Gate, JobName};
use routine_executor::Job;
use std::sync::ledger::{Blank, Ledger};
use std::sync::{Mutex, Wait};
use std::thread::Threads;
use step_board::Board;
use step_core::Core;
use worker_gate::{Worker, work_all};

/// All workers work in a step that has begun, under one lock, each in a thread of its own. The core comes back when all have returned.
fn gather<
    N: JobName + Send + Sync,
    C: Ledger + Send + Sync,
    A: Ledger + Send + Sync,
    H: Ledger + Send + Sync,
    E: Ledger + Send + Sync,
    G: Gate,
    R: Threads + Wait + Sync,
>(
    rt: &R,
    workers: &mut Vec<Worker>,
    job: &Job<'_, N>,
    core: Core<N>,
    claims: Blank,
    arrivals: Blank,
    held: Blank,
    ends: Blank,
    gate: &G,
) -> Core<N>
    requires empty { core ≡ [] }
    requires some { 0 < vec_len workers.old }
    requires few { length workers.old.items ≤ 32 }
    requires ready { All (IsReady N.job.number job.now.image.now job.now.code.now) workers.old.items }
    requires claims { (claims.name ≡ C.name) × (claims.parts ≡ C.parts) × (claims.parts ≡ 33) }
    requires arrivals { (arrivals.name ≡ A.name) × (arrivals.parts ≡ A.parts) × (arrivals.parts ≡ 33) }
    requires held { (held.name ≡ H.name) × (held.parts ≡ H.parts) × (held.parts ≡ 33) }
    requires ends { (ends.name ≡ E.name) × (ends.parts ≡ E.parts) × (ends.parts ≡ 33) }
    ensures { Gathered N.job job.now.image.now job.now.code.now result workers.old.items workers.new.items }
{
    let (board, shares) = Board::<N, C, A, H, E>::make(core, claims, arrivals, held, ends);
    let board = Mutex::new(board);
    let shares = work_all(rt, workers, job, shares, &board, gate);
    board.into_inner().unwrap(shares)
}

/// The workers' part in a step of n routines, after so many completed steps. Where there are no routines or no workers, none works. It
/// may wait, and takes no memory.
pub fn work_part<
    N: JobName + Send + Sync,
    C: Ledger + Send + Sync,
    A: Ledger + Send + Sync,
    H: Ledger + Send + Sync,
    E: Ledger + Send + Sync,
    G: Gate,
    R: Threads + Wait + Sync,
>(
    rt: &R,
    options: &RunOptions<'_>,
    steps: u64,
    workers: &mut Vec<Worker>,
    job: &Job<'_, N>,
    n: u32,
    core: Core<N>,
    claims: Blank,
    arrivals: Blank,
    held: Blank,
    ends: Blank,
    gate: &G,
) -> Core<N>
    requires empty { core ≡ [] }
    requires number { N.job.number ≡ steps + 1 }
    requires size { n ≡ size_of N.job }
    requires few { length workers.old.items ≤ 32 }
    requires members { AllByRecursion (IsMember options.now.script.now steps job.now.image.now job.now.code.now) workers.old.items }
    requires claims { (claims.name ≡ C.name) × (claims.parts ≡ C.parts) × (claims.parts ≡ 33) }
    requires arrivals { (arrivals.name ≡ A.name) × (arrivals.parts ≡ A.parts) × (arrivals.parts ≡ 33) }
    requires held { (held.name ≡ H.name) × (held.parts ≡ H.parts) × (held.parts ≡ 33) }
    requires ends { (ends.name ≡ E.name) × (ends.parts ≡ E.parts) × (ends.parts ≡ 33) }
    ensures { Gathered N.job job.now.image.now job.now.code.now result workers.old.items workers.new.items }
{
    if n == 0 || workers.is_empty() {
        return core;
    }
    gather::<N, C, A, H, E, G, R>(rt, workers, job, core, claims, arrivals, held, ends, gate)
}
