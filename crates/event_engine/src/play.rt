//! A parallel step of a run over events.

ghost use Rattle.std.specs.Prelude.{◌≡◌, ◌+◌, ◌<◌, ◌≤◌, ◌^◌, ◌++◌, ◌⊎◌, [], List, length, sum, drop, IfOk, OnOk};
ghost use Rattle.std.specs.List.{AllByRecursion};
ghost use Rattle.cal_base.specs.Claims.{size_of, IsComplete};
ghost use Rattle.cal_base.specs.Main.{Main};
ghost use Rattle.cal_base.specs.Memory.{Memory};
ghost use Rattle.cal_base.specs.Pages.{IsLater};
ghost use Rattle.engine_laws.specs.Steps.{step_job};
ghost use Rattle.event_world.specs.Law.{IsOfWorker, Each};
ghost use Rattle.step_laws.specs.Caller.{NoCaller};
ghost use Rattle.worker_gate.specs.Working.{MayWork};
ghost use Rattle.event_engine.specs.Resuming.{resume_in};
ghost use Rattle.event_engine.specs.Scenes.{turn_at, AreAtBelow, Work, IsScene};
ghost use Rattle.event_engine.specs.Simulating.{WasPlayed};
ghost use Rattle.calypso_engine.specs.Teams.{IsTeam};

use crate::delivery::{Delivery, Fresh, keep};
use crate::scene::{Mode, Scene, free};
use crate::turn::turn;
use cal_base::{Image, JobName, NoMemory};
use calypso_engine::options::RunOptions;
use calypso_engine::team::Team;
use code_verify::Verified;
use event_world::Event;
use routine_executor::Job;
use std::alloc::Global;
use std::marker::Brand;
use step_core::{Closed, Core};
use worker_gate::{Worker, finish};

/// Events are applied, from this one on, until the step is complete or none is left. Answers the next one's place. It takes memory.
fn turns<N: JobName>(
    alloc: Global,
    job: &Job<'_, N>,
    events: &[Event],
    from: usize,
    workers: &mut [Worker],
    modes: &mut [Mode; 32],
    older: &[Delivery],
    fresh: &mut Vec<Fresh<N>>,
    core: &mut Core<N>,
) -> Result<usize, NoMemory>
    requires workers { Each IsOfWorker events.now }
    requires from { from ≤ length events.now }
    requires count { length workers.old ≡ 32 }
    requires may { AllByRecursion (λ w. MayWork w job.now.image.now job.now.code.now) workers.old }
    requires below { AreAtBelow (size_of N.job) modes.old }
    requires older { AllByRecursion (λ d. d.step < N.job.number) older.now }
    requires alone { NoCaller core.old }
    ensures goes { IfOk result (λ next. (after : Memory → Main) → resume_in N.job after
        (turn_at core.old modes.old (older.now ++ fresh.old.items)) (drop from events.now) ≡ resume_in N.job after
        (turn_at core.new modes.new (older.now ++ fresh.new.items)) (drop next events.now)) }
    ensures ends { IfOk result (λ next. IsComplete N.job core.new ⊎ (drop next events.now ≡ [])) }
    ensures within { IfOk result (λ next. next ≤ length events.now) }
    ensures work { OnOk result (Work job.now.image.now job.now.code.now workers.old workers.new) }
    ensures alone { OnOk result (NoCaller core.new) }
{
    for next in from..events.len() {
        if core.is_complete() {
            return Ok(next);
        }
        turn(alloc, job, events[next], workers, modes, older, fresh, core)?;
    }
    Ok(events.len())
}

/// The same by a vector of workers.
fn turns_of<N: JobName>(
    alloc: Global,
    job: &Job<'_, N>,
    events: &[Event],
    from: usize,
    workers: &mut Vec<Worker>,
    modes: &mut [Mode; 32],
    older: &[Delivery],
    fresh: &mut Vec<Fresh<N>>,
    core: &mut Core<N>,
) -> Result<usize, NoMemory>
    requires workers { Each IsOfWorker events.now }
    requires from { from ≤ length events.now }
    requires count { length workers.old.items ≡ 32 }
    requires may { AllByRecursion (λ w. MayWork w job.now.image.now job.now.code.now) workers.old.items }
    requires below { AreAtBelow (size_of N.job) modes.old }
    requires older { AllByRecursion (λ d. d.step < N.job.number) older.now }
    requires alone { NoCaller core.old }
    ensures goes { IfOk result (λ next. (after : Memory → Main) → resume_in N.job after
        (turn_at core.old modes.old (older.now ++ fresh.old.items)) (drop from events.now) ≡ resume_in N.job after
        (turn_at core.new modes.new (older.now ++ fresh.new.items)) (drop next events.now)) }
    ensures ends { IfOk result (λ next. IsComplete N.job core.new ⊎ (drop next events.now ≡ [])) }
    ensures within { IfOk result (λ next. next ≤ length events.now) }
    ensures work { OnOk result (Work job.now.image.now job.now.code.now workers.old.items workers.new.items) }
    ensures alone { OnOk result (NoCaller core.new) }
{
    turns(
        alloc,
        job,
        events,
        from,
        workers.as_mut_slice(),
        modes,
        older,
        fresh,
        core,
    )
}

/// A step under the name of its job: events are applied until it is complete or none is left, then the caller completes it, and what it
/// leaves is installed on the image, unless it ends in a fault. It takes memory.
fn named_play<N: JobName>(
    alloc: Global,
    options: &RunOptions<'_>,
    events: &[Event],
    steps: u64,
    image: &mut Image,
    code: &Verified,
    first_block: u32,
    widths: &[u32],
    n: u32,
    scene: &mut Scene,
    team: &mut Team,
) -> Result<Closed, NoMemory>
    requires named { N.job ≡ step_job code.now options.now.fuel (steps + 1) image.old.memory first_block widths.now }
    requires there { first_block + length widths.now ≤ length code.now.blocks }
    requires all { sum widths.now ≡ n }
    requires few { n ≤ 65536 }
    requires count { options.now.workers ≡ 32 }
    requires team { IsTeam options.now.script.now options.now.workers steps image.old code.now team.old }
    requires counted { steps < 2 ^ 32 }
    requires workers { Each IsOfWorker events.now }
    requires scene { IsScene (length events.now) steps scene.old }
    ensures played { IfOk result (λ closed. WasPlayed N.job n events.now scene.old scene.new image.new.memory closed) }
    ensures team { IfOk result (λ _. IsTeam options.now.script.now options.now.workers (steps + 1) image.new code.now team.new) }
    ensures scene { IfOk result (λ _. IsScene (length events.now) (steps + 1) scene.new) }
    ensures later { IfOk result (λ _. IsLater image.old image.new) }
{
    let step = steps + 1;
    let mut core: Core<N> = Core::make(alloc, step, image, n)?;
    let job: Job<'_, N> = Job::of(step, image, code, first_block, widths, n, options.fuel);
    let mut fresh: Vec<Fresh<N>> = Vec::new(alloc);
    let next = turns_of(
        alloc,
        &job,
        events,
        scene.next,
        &mut team.workers,
        &mut scene.modes,
        scene.deliveries.as_slice(),
        &mut fresh,
        &mut core,
    )?;
    scene.next = next;
    keep(&mut scene.deliveries, step, fresh.as_slice())?;
    free(&mut scene.modes);
    finish(&mut team.caller, &job, &mut core);
    Ok(core.close(image))
}

/// A step of main after so many completed ones: of the blocks from the first one on with these widths, n routines in all. Events are applied
/// until it is complete, and the caller completes it where none is left. It takes memory.
pub fn play_step(
    alloc: Global,
    options: &RunOptions<'_>,
    events: &[Event],
    steps: u64,
    image: &mut Image,
    code: &Verified,
    first_block: u32,
    widths: &[u32],
    n: u32,
    scene: &mut Scene,
    team: &mut Team,
) -> Result<Closed, NoMemory>
    requires there { first_block + length widths.now ≤ length code.now.blocks }
    requires all { sum widths.now ≡ n }
    requires few { n ≤ 65536 }
    requires count { options.now.workers ≡ 32 }
    requires team { IsTeam options.now.script.now options.now.workers steps image.old code.now team.old }
    requires counted { steps < 2 ^ 32 }
    requires workers { Each IsOfWorker events.now }
    requires scene { IsScene (length events.now) steps scene.old }
    ensures played { IfOk result (λ closed. WasPlayed (step_job code.now options.now.fuel (steps + 1) image.old.memory first_block
        widths.now) n events.now scene.old scene.new image.new.memory closed) }
    ensures team { IfOk result (λ _. IsTeam options.now.script.now options.now.workers (steps + 1) image.new code.now team.new) }
    ensures scene { IfOk result (λ _. IsScene (length events.now) (steps + 1) scene.new) }
    ensures later { IfOk result (λ _. IsLater image.old image.new) }
{
    named_play::<Brand>(
        alloc,
        options,
        events,
        steps,
        image,
        code,
        first_block,
        widths,
        n,
        scene,
        team,
    )
}
