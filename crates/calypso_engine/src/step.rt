//! A parallel step.

ghost use Rattle.std.specs.Prelude.{◌≡◌, ◌+◌, ◌<◌, ◌≤◌, ◌^◌, length, sum, IfOk};
ghost use Rattle.cal_base.specs.Pages.{IsLater};
ghost use Rattle.engine_laws.specs.Steps.{step_job};
ghost use Rattle.calypso_engine.specs.Steps.{WasClosed};
ghost use Rattle.calypso_engine.specs.Teams.{IsTeam};

use crate::gathering::work_part;
use crate::options::RunOptions;
use crate::team::Team;
use cal_base::{Gate, Image, JobName, NoMemory};
use code_verify::Verified;
use routine_executor::Job;
use std::alloc::Global;
use std::marker::Brand;
use std::sync::Wait;
use std::sync::ledger::{Blank, Ledger};
use std::thread::Threads;
use step_core::{Closed, Core};
use worker_gate::finish;

/// A step under the names of its job and of its four ledgers: the workers work, then the caller completes it, and what it leaves is
/// installed on the image, unless it ends in a fault. All memory is taken before the step begins.
fn named_step<
    N: JobName + Send + Sync,
    C: Ledger + Send + Sync,
    A: Ledger + Send + Sync,
    H: Ledger + Send + Sync,
    E: Ledger + Send + Sync,
    G: Gate,
    R: Threads + Wait + Sync,
>(
    rt: &R,
    alloc: Global,
    options: &RunOptions<'_>,
    steps: u64,
    image: &mut Image,
    code: &Verified,
    first_block: u32,
    widths: &[u32],
    n: u32,
    team: &mut Team,
    claims: Blank,
    arrivals: Blank,
    held: Blank,
    ends: Blank,
    gate: &G,
) -> Result<Closed, NoMemory>
    requires named { N.job ≡ step_job code.now options.now.fuel (steps + 1) image.old.memory first_block widths.now }
    requires there { first_block + length widths.now ≤ length code.now.blocks }
    requires all { sum widths.now ≡ n }
    requires few { n ≤ 65536 }
    requires workers { options.now.workers ≤ 32 }
    requires team { IsTeam options.now.script.now options.now.workers steps image.old code.now team.old }
    requires counted { steps < 2 ^ 32 }
    requires claims { (claims.name ≡ C.name) × (claims.parts ≡ C.parts) × (claims.parts ≡ 33) }
    requires arrivals { (arrivals.name ≡ A.name) × (arrivals.parts ≡ A.parts) × (arrivals.parts ≡ 33) }
    requires held { (held.name ≡ H.name) × (held.parts ≡ H.parts) × (held.parts ≡ 33) }
    requires ends { (ends.name ≡ E.name) × (ends.parts ≡ E.parts) × (ends.parts ≡ 33) }
    ensures closed { IfOk result (λ closed. WasClosed N.job n team.old team.new image.new.memory closed) }
    ensures team { IfOk result (λ _. IsTeam options.now.script.now options.now.workers (steps + 1) image.new code.now team.new) }
    ensures later { IfOk result (λ _. IsLater image.old image.new) }
{
    let step = steps + 1;
    let core: Core<N> = Core::make(alloc, step, image, n)?;
    let job: Job<'_, N> = Job::of(step, image, code, first_block, widths, n, options.fuel);
    let mut core = work_part::<N, C, A, H, E, G, R>(
        rt,
        options,
        steps,
        &mut team.workers,
        &job,
        n,
        core,
        claims,
        arrivals,
        held,
        ends,
        gate,
    );
    finish(&mut team.caller, &job, &mut core);
    Ok(core.close(image))
}

/// A step of main after so many completed ones: of the blocks from the first one on with these widths, n routines in all. It may wait.
pub fn open_step<G: Gate, R: Threads + Wait + Sync>(
    rt: &R,
    alloc: Global,
    options: &RunOptions<'_>,
    steps: u64,
    image: &mut Image,
    code: &Verified,
    first_block: u32,
    widths: &[u32],
    n: u32,
    team: &mut Team,
    gate: &G,
) -> Result<Closed, NoMemory>
    requires there { first_block + length widths.now ≤ length code.now.blocks }
    requires all { sum widths.now ≡ n }
    requires few { n ≤ 65536 }
    requires workers { options.now.workers ≤ 32 }
    requires team { IsTeam options.now.script.now options.now.workers steps image.old code.now team.old }
    requires counted { steps < 2 ^ 32 }
    ensures closed { IfOk result (λ closed. WasClosed (step_job code.now options.now.fuel (steps + 1) image.old.memory first_block
        widths.now) n team.old team.new image.new.memory closed) }
    ensures team { IfOk result (λ _. IsTeam options.now.script.now options.now.workers (steps + 1) image.new code.now team.new) }
    ensures later { IfOk result (λ _. IsLater image.old image.new) }
{
    named_step::<Brand, Brand, Brand, Brand, Brand, G, R>(
        rt,
        alloc,
        options,
        steps,
        image,
        code,
        first_block,
        widths,
        n,
        team,
        Blank::new(33),
        Blank::new(33),
        Blank::new(33),
        Blank::new(33),
        gate,
    )
}
