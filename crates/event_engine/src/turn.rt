//! What one event does in an open step.

ghost use Rattle.std.specs.Prelude.{◌≡◌, ◌<◌, ◌≤◌, ◌++◌, List, IfOk, OnOk, length, slice_get};
ghost use Rattle.std.specs.List.{AllByRecursion};
ghost use Rattle.cal_base.specs.declared.step.TheConstants.{CALLER};
ghost use Rattle.cal_base.specs.History.{History};
ghost use Rattle.cal_base.specs.Claims.{size_of};
ghost use Rattle.event_world.specs.Law.{IsOfWorker};
ghost use Rattle.event_world.specs.World as world;
ghost use Rattle.event_world.specs.declared.event.Event.TheVariants as event;
ghost use Rattle.step_laws.specs.Caller.{NoCaller};
ghost use Rattle.worker_gate.specs.Working.{MayWork, Executes};
ghost use Rattle.event_engine.specs.Scenes.{turn_at, AreAtBelow, Work};
ghost use Rattle.event_engine.specs.declared.scene.Mode.{Mode as AtMode};

use crate::delivery::{Delivery, Fresh};
use crate::scene::Mode;
use cal_base::{CALLER, Claimed, JobName, KeptUpdate, NoMemory};
use event_world::Event;
use routine_executor::Job;
use std::alloc::Global;
use step_core::{Core, Finished};
use worker_gate::{Worker, execute};

/// A worker claims, unless it is busy or has stopped.
fn claim<N: JobName>(modes: &mut [Mode; 32], core: &mut Core<N>, who: u8)
    requires who { who < CALLER }
    requires below { AreAtBelow (size_of N.job) modes.old }
    requires alone { NoCaller core.old }
    ensures turn { (ds : List world.Delivery) → turn_at core.new modes.new ds ≡ world.turn_of N.job (event.Claim who)
        (turn_at core.old modes.old ds) }
    ensures below { AreAtBelow (size_of N.job) modes.new }
    ensures alone { NoCaller core.new }
{
    let place = usize::from(who);
    match modes[place] {
        Mode::Idle => {}
        Mode::Busy(_) | Mode::Stopped => return,
    }
    let Claimed::Work(k) = core.claim(who) else {
        return;
    };
    modes[place] = Mode::Busy(k);
}

/// The answer of routine k, kept. It takes memory.
fn execute_kept<N: JobName>(
    alloc: Global,
    worker: &mut Worker,
    job: &Job<'_, N>,
    k: u32,
) -> Result<Finished<N, KeptUpdate>, NoMemory>
    requires number { k < size_of N.job }
    requires may { MayWork worker.old job.now.image.now job.now.code.now }
    ensures k { IfOk result (λ done. done.k ≡ k) }
    ensures worker { Executes worker.old worker.new job.now.image.now job.now.code.now }
{
    let done = execute(worker, job, k);
    let words = KeptUpdate::copy_of(alloc, &done.words)?;
    Ok(Finished::of(done.k, done.ended, words))
}

/// A busy worker executes its routine, whose answer is the next delivery. It takes memory.
#[tactic(auto, using(crate::proofs::Scenes::work_none))]
fn finish<N: JobName>(
    alloc: Global,
    job: &Job<'_, N>,
    workers: &mut [Worker],
    modes: &mut [Mode; 32],
    fresh: &mut Vec<Fresh<N>>,
    who: u8,
) -> Result<(), NoMemory>
    requires who { who < CALLER }
    requires count { length workers.old ≡ 32 }
    requires may { AllByRecursion (λ w. MayWork w job.now.image.now job.now.code.now) workers.old }
    requires below { AreAtBelow (size_of N.job) modes.old }
    ensures turn { OnOk result ((h : History) (ds : List world.Delivery)
        → turn_at h modes.new (ds ++ fresh.new.items) ≡ world.turn_of N.job (event.Finish who)
        (turn_at h modes.old (ds ++ fresh.old.items))) }
    ensures work { OnOk result (Work job.now.image.now job.now.code.now workers.old workers.new) }
    ensures below { OnOk result (AreAtBelow (size_of N.job) modes.new) }
{
    let place = usize::from(who);
    let k = match modes[place] {
        Mode::Busy(k) => k,
        Mode::Idle | Mode::Stopped => return Ok(()),
    };
    let done = execute_kept(alloc, &mut workers[place], job, k)?;
    fresh.push(Fresh::of(who, done))?;
    modes[place] = Mode::Idle;
    Ok(())
}

/// A worker that has not stopped asks its cache for a page.
#[tactic(auto, using(crate::proofs::Scenes::work_none))]
fn fetch<N: JobName>(
    job: &Job<'_, N>,
    workers: &mut [Worker],
    modes: &[Mode; 32],
    who: u8,
    page: u32,
)
    requires who { who < CALLER }
    requires count { length workers.old ≡ 32 }
    requires may { AllByRecursion (λ w. MayWork w job.now.image.now job.now.code.now) workers.old }
    ensures { Work job.now.image.now job.now.code.now workers.old workers.new }
{
    let place = usize::from(who);
    match modes[place] {
        Mode::Stopped => {}
        Mode::Idle | Mode::Busy(_) => workers[place].fetch(job, page),
    }
}

/// A delivery of the open step arrives, where it is there.
fn arrive_fresh<N: JobName>(fresh: &[Fresh<N>], core: &mut Core<N>, place: usize)
    requires alone { NoCaller core.old }
    ensures turn { (modes : List AtMode) (ds : List world.Delivery)
        → turn_at core.new modes ds ≡ world.arrive_of N.job (slice_get fresh.now place) (turn_at core.old modes ds) }
    ensures alone { NoCaller core.new }
{
    if let Some(one) = fresh.get(place) {
        one.arrive(core);
    }
}

/// The delivery of this number arrives, counted from 1 on, where it is there.
fn arrive<N: JobName>(older: &[Delivery], fresh: &[Fresh<N>], core: &mut Core<N>, number: u32)
    requires older { AllByRecursion (λ d. d.step < N.job.number) older.now }
    requires alone { NoCaller core.old }
    ensures turn { (modes : List AtMode) → turn_at core.new modes (older.now ++ fresh.now) ≡ world.turn_of N.job (event.Arrive number)
        (turn_at core.old modes (older.now ++ fresh.now)) }
    ensures alone { NoCaller core.new }
{
    if number == 0 {
        return;
    }
    let place = (number - 1) as usize;
    match older.get(place) {
        Some(one) => one.arrive(core),
        None => arrive_fresh(fresh, core, place - older.len()),
    }
}

/// One event in an open step. It takes memory.
#[tactic(auto, using(crate::proofs::Scenes::work_none))]
pub fn turn<N: JobName>(
    alloc: Global,
    job: &Job<'_, N>,
    event: Event,
    workers: &mut [Worker],
    modes: &mut [Mode; 32],
    older: &[Delivery],
    fresh: &mut Vec<Fresh<N>>,
    core: &mut Core<N>,
) -> Result<(), NoMemory>
    requires worker { IsOfWorker event }
    requires count { length workers.old ≡ 32 }
    requires may { AllByRecursion (λ w. MayWork w job.now.image.now job.now.code.now) workers.old }
    requires below { AreAtBelow (size_of N.job) modes.old }
    requires older { AllByRecursion (λ d. d.step < N.job.number) older.now }
    requires alone { NoCaller core.old }
    ensures turn { OnOk result (turn_at core.new modes.new (older.now ++ fresh.new.items) ≡ world.turn_of N.job event
        (turn_at core.old modes.old (older.now ++ fresh.old.items))) }
    ensures work { OnOk result (Work job.now.image.now job.now.code.now workers.old workers.new) }
    ensures below { OnOk result (AreAtBelow (size_of N.job) modes.new) }
    ensures alone { OnOk result (NoCaller core.new) }
{
    match event {
        Event::Claim { who } => claim(modes, core, who),
        Event::Fetch { who, page } => fetch(job, workers, modes, who, page),
        Event::Finish { who } => finish(alloc, job, workers, modes, fresh, who)?,
        Event::Arrive { number } => arrive(older, fresh.as_slice(), core, number),
        Event::Stop { who } => modes[usize::from(who)] = Mode::Stopped,
    }
    Ok(())
}
