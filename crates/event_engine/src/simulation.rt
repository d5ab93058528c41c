//! A whole run over a list of events.

ghost use Rattle.std.specs.Prelude.{◌≡◌, ◌<◌, ◌≤◌, false, [], None, Ok, IfOk, IfSome, IsSome, OnErr, IsErrOf, length, option_map};
ghost use Rattle.std.specs.Io.KnownBytes.{Appends};
ghost use Rattle.cal_base.specs.Causes.{Rose};
ghost use Rattle.cal_base.specs.Contents.{AppendsPrefix, StaysTrue, Told};
ghost use Rattle.cal_base.specs.Text.{text_of};
ghost use Rattle.event_world.specs.Law.{IsOfWorker, Each};
ghost use Rattle.event_world.specs.World.{world};
ghost use Rattle.machine_meaning.specs.Meaning.{machine_main, machine_meaning};
ghost use Rattle.machine_meaning.specs.Runs.{most_steps};
ghost use Rattle.routine_vm.specs.Held.{main_state, TellsStep};
ghost use Rattle.run_report.specs.Logs.{log_text};
ghost use Rattle.calypso_engine.specs.Asked.{outside_of};
ghost use Rattle.calypso_engine.specs.Logs.{Logs, LogsFront};
ghost use Rattle.calypso_engine.specs.Running.{rest_of, opening_here, IsReady};
ghost use Rattle.calypso_engine.specs.Traces.{trace_of};
ghost use Rattle.event_engine.specs.Scenes.{IsScene};
ghost use Rattle.event_engine.specs.Simulated.{simulated};
ghost use Rattle.event_engine.specs.Simulating.{resumed, GoesSo, ComesSo};
ghost use Rattle.calypso_engine.specs.Stepping.{MayStep, IsBehind};
ghost use Rattle.calypso_engine.specs.declared.error.RunError.TheVariants as error;

use crate::play::play_step;
use crate::scene::{Mode, Scene};
use cal_base::{Files, RunEnd, Sink};
use calypso_engine::engine::first_standing;
use calypso_engine::error::RunError;
use calypso_engine::event::{Standing, widths_of};
use calypso_engine::line::print;
use calypso_engine::options::RunOptions;
use calypso_engine::team::Team;
use calypso_engine::telling::{keep_words, tell_step};
use code_verify::Verified;
use event_world::Event;
use fault_script::Script;
use routine_vm::MainEvent;
use std::alloc::Global;

/// How many units of fuel main and each routine have in a run over a list of events.
pub const SIM_FUEL: u32 = 1_000_000;

/// Main opens a step, which is played and told. Answers the end of the run where the step ends in a fault.
fn sim_step<F: Files, S: Sink>(
    alloc: Global,
    code: &Verified,
    events: &[Event],
    options: &RunOptions<'_>,
    standing: &mut Standing,
    scene: &mut Scene,
    team: &mut Team,
    files: &mut F,
    out: &mut S,
    first_block: u32,
    blocks: u32,
    total: u32,
) -> Result<Option<RunEnd>, RunError>
    requires told { TellsStep code.now first_block blocks total standing.old.machine }
    requires may { MayStep code.now options.now first_block standing.old team.old }
    requires count { options.now.workers ≡ 32 }
    requires workers { Each IsOfWorker events.now }
    requires scene { IsScene (length events.now) standing.old.steps scene.old }
    requires created { IfSome options.now.log (λ name. F.created files.old name.now) }
    ensures goes { GoesSo options.now (resumed (opening_here code.now options.now.fuel first_block standing.old) scene.old events.now)
        (resumed (rest_of code.now options.now.fuel standing.new) scene.new events.now) (outside_of (S.written out.old) (F.holds files.old))
        (outside_of (S.written out.new) (F.holds files.new)) result }
    ensures behind { result ≡ Ok None → IsBehind code.now options.now standing.old standing.new team.new }
    ensures scene { result ≡ Ok None → IsScene (length events.now) standing.new.steps scene.new }
    ensures created { StaysTrue (F.created files.old) (F.created files.new) }
    ensures files_later { F.faults files.old ≤ F.faults files.new }
    ensures out_later { S.faults out.old ≤ S.faults out.new }
    ensures file_failed { IsErrOf result error.FileFailed → Rose (F.faults files.old) (F.faults files.new) }
    ensures log_failed { IsErrOf result error.FileFailed → IsSome options.now.log }
    ensures out_failed { IsErrOf result error.OutFailed → Rose (S.faults out.old) (S.faults out.new) }
{
    let widths = widths_of(alloc, &standing.machine, blocks)?;
    keep_words(&standing.image, &mut standing.kept);
    let step = standing.steps + 1;
    let closed = play_step(
        alloc,
        options,
        events,
        standing.steps,
        &mut standing.image,
        code,
        first_block,
        widths.as_slice(),
        total,
        scene,
        team,
    )?;
    tell_step(
        options,
        step,
        total,
        &closed,
        &standing.kept,
        &standing.image,
        files,
        out,
    )?;
    match closed.result {
        Ok(()) => {
            standing.steps = step;
            Ok(None)
        }
        Err(fault) => Ok(Some(RunEnd::StepFailed { step, fault })),
    }
}

/// Main goes on to what it does next, which is done: a line is written, or a step is opened and completed. Answers the end of the run where
/// main came to it.
fn sim_event<F: Files, S: Sink>(
    alloc: Global,
    code: &Verified,
    events: &[Event],
    options: &RunOptions<'_>,
    standing: &mut Standing,
    scene: &mut Scene,
    team: &mut Team,
    files: &mut F,
    out: &mut S,
) -> Result<Option<RunEnd>, RunError>
    requires ready { IsReady code.now options.now standing.old team.old }
    requires count { options.now.workers ≡ 32 }
    requires workers { Each IsOfWorker events.now }
    requires scene { IsScene (length events.now) standing.old.steps scene.old }
    requires created { IfSome options.now.log (λ name. F.created files.old name.now) }
    ensures goes { GoesSo options.now (resumed (rest_of code.now options.now.fuel standing.old) scene.old events.now)
        (resumed (rest_of code.now options.now.fuel standing.new) scene.new events.now) (outside_of (S.written out.old) (F.holds files.old))
        (outside_of (S.written out.new) (F.holds files.new)) result }
    ensures ready { result ≡ Ok None → IsReady code.now options.now standing.new team.new }
    ensures scene { result ≡ Ok None → IsScene (length events.now) standing.new.steps scene.new }
    ensures falls { result ≡ Ok None → most_steps code.now (main_state code.now standing.new.machine []) < most_steps code.now
        (main_state code.now standing.old.machine []) }
    ensures created { StaysTrue (F.created files.old) (F.created files.new) }
    ensures files_later { F.faults files.old ≤ F.faults files.new }
    ensures out_later { S.faults out.old ≤ S.faults out.new }
    ensures file_failed { IsErrOf result error.FileFailed → Rose (F.faults files.old) (F.faults files.new) }
    ensures log_failed { IsErrOf result error.FileFailed → IsSome options.now.log }
    ensures out_failed { IsErrOf result error.OutFailed → Rose (S.faults out.old) (S.faults out.new) }
{
    let _verified = code.module();
    match standing.machine.run_main(code, &mut standing.image) {
        MainEvent::Print { items } => {
            print(alloc, code, &standing.machine, items, out)?;
            Ok(None)
        }
        MainEvent::Par {
            first_block,
            blocks,
            total,
        } => sim_step(
            alloc,
            code,
            events,
            options,
            standing,
            scene,
            team,
            files,
            out,
            first_block,
            blocks,
            total,
        ),
        MainEvent::Halt => Ok(Some(RunEnd::Done {
            steps: standing.steps,
        })),
        MainEvent::Fault(cause) => Ok(Some(RunEnd::MainFault {
            after: standing.steps,
            cause,
        })),
    }
}

/// Main goes on to its end.
fn sim_on<F: Files, S: Sink>(
    alloc: Global,
    code: &Verified,
    events: &[Event],
    options: &RunOptions<'_>,
    standing: &mut Standing,
    scene: &mut Scene,
    team: &mut Team,
    files: &mut F,
    out: &mut S,
) -> Result<RunEnd, RunError>
    requires ready { IsReady code.now options.now standing.old team.old }
    requires count { options.now.workers ≡ 32 }
    requires workers { Each IsOfWorker events.now }
    requires scene { IsScene (length events.now) standing.old.steps scene.old }
    requires created { IfSome options.now.log (λ name. F.created files.old name.now) }
    ensures comes { ComesSo options.now (resumed (rest_of code.now options.now.fuel standing.old) scene.old events.now)
        (outside_of (S.written out.old) (F.holds files.old)) (outside_of (S.written out.new) (F.holds files.new)) result }
    ensures created { StaysTrue (F.created files.old) (F.created files.new) }
    ensures files_later { F.faults files.old ≤ F.faults files.new }
    ensures out_later { S.faults out.old ≤ S.faults out.new }
    ensures file_failed { IsErrOf result error.FileFailed → Rose (F.faults files.old) (F.faults files.new) }
    ensures log_failed { IsErrOf result error.FileFailed → IsSome options.now.log }
    ensures out_failed { IsErrOf result error.OutFailed → Rose (S.faults out.old) (S.faults out.new) }
{
    'events: loop {
        match sim_event(
            alloc, code, events, options, standing, scene, team, files, out,
        )? {
            None => {}
            Some(ended) => return Ok(ended),
        }
    }
}

/// The same from the beginning on, with these options.
fn sim_with<F: Files, S: Sink>(
    alloc: Global,
    code: &Verified,
    events: &[Event],
    options: &RunOptions<'_>,
    files: &mut F,
    out: &mut S,
) -> Result<RunEnd, RunError>
    requires count { options.now.workers ≡ 32 }
    requires least { 2 ≤ options.now.frames }
    requires most { options.now.frames ≤ 4096 }
    requires workers { Each IsOfWorker events.now }
    requires created { IfSome options.now.log (λ name. F.created files.old name.now) }
    ensures comes { ComesSo options.now (world (machine_main code.now options.now.fuel) events.now)
        (outside_of (S.written out.old) (F.holds files.old)) (outside_of (S.written out.new) (F.holds files.new)) result }
    ensures created { StaysTrue (F.created files.old) (F.created files.new) }
    ensures files_later { F.faults files.old ≤ F.faults files.new }
    ensures out_later { S.faults out.old ≤ S.faults out.new }
    ensures file_failed { IsErrOf result error.FileFailed → Rose (F.faults files.old) (F.faults files.new) }
    ensures log_failed { IsErrOf result error.FileFailed → IsSome options.now.log }
    ensures out_failed { IsErrOf result error.OutFailed → Rose (S.faults out.old) (S.faults out.new) }
{
    let mut standing = first_standing(alloc, code, options)?;
    let mut scene = Scene {
        next: 0,
        modes: [Mode::Idle; 32],
        deliveries: Vec::new(alloc),
    };
    let mut team = Team::make(alloc, options, &standing.image, code)?;
    let came = sim_on(
        alloc,
        code,
        events,
        options,
        &mut standing,
        &mut scene,
        &mut team,
        files,
        out,
    );
    team.end();
    came
}

/// Runs the code of a verified module over a list of events: 32 workers, with 64 frames for pages each, do in each step what the events
/// say, in their order and in this thread, until the step is complete; where no event is left the caller completes it, as each later one.
/// An event that does not apply changes nothing. Out gets the lines that main shows. The log, where one is named, gets the history of each
/// step as soon as the step is complete. Answers how the run ended; or `OutFailed`, `FileFailed` or `NoMemory`.
pub fn sim<F: Files, S: Sink>(
    alloc: Global,
    code: &Verified,
    events: &[Event],
    log: Option<&str>,
    files: &mut F,
    out: &mut S,
) -> Result<RunEnd, RunError>
    requires workers { Each IsOfWorker events.now }
    requires created { IfSome log (λ name. F.created files.old name.now) }
    ensures end { IfOk result (λ ended. ended ≡ (machine_meaning code.now SIM_FUEL).ending) }
    ensures whole { IfOk result (λ _. Appends (S.written out.old) (S.written out.new)
        (text_of false (machine_meaning code.now SIM_FUEL).events)) }
    ensures told { IfOk result (λ _. Told (F.holds files.old) (F.holds files.new)
        (Logs (option_map (λ name. name.now) log.entry) (log_text (trace_of (simulated code.now events.now).closed)))) }
    ensures prefix { OnErr result (AppendsPrefix (S.written out.old) (S.written out.new)
        (text_of false (machine_meaning code.now SIM_FUEL).events)) }
    ensures front { OnErr result (Told (F.holds files.old) (F.holds files.new)
        (LogsFront (option_map (λ name. name.now) log.entry) (log_text (trace_of (simulated code.now events.now).closed)))) }
    ensures created { StaysTrue (F.created files.old) (F.created files.new) }
    ensures files_later { F.faults files.old ≤ F.faults files.new }
    ensures out_later { S.faults out.old ≤ S.faults out.new }
    ensures file_failed { IsErrOf result error.FileFailed → Rose (F.faults files.old) (F.faults files.new) }
    ensures log_failed { IsErrOf result error.FileFailed → IsSome log.entry }
    ensures out_failed { IsErrOf result error.OutFailed → Rose (S.faults out.old) (S.faults out.new) }
{
    let script = Script::none(alloc);
    let options = RunOptions {
        workers: 32,
        fuel: SIM_FUEL,
        frames: 64,
        script: &script,
        steps: false,
        log,
    };
    sim_with(alloc, code, events, &options, files, out)
}
