//! A whole run.

ghost use Rattle.std.specs.Prelude.{◌≡◌, ◌≤◌, IfOk, IfSome, IsSome, OnErr, IsErrOf};
ghost use Rattle.std.specs.Io.KnownBytes.{Appends};
ghost use Rattle.cal_base.specs.Causes.{Rose};
ghost use Rattle.cal_base.specs.Contents.{AppendsPrefix, StaysTrue};
ghost use Rattle.cal_base.specs.Main.{steps_of};
ghost use Rattle.cal_base.specs.Text.{text_of};
ghost use Rattle.machine_meaning.specs.Meaning.{machine_main, machine_meaning, module_memory};
ghost use Rattle.calypso_engine.specs.Asked.{log_of, outside_of};
ghost use Rattle.calypso_engine.specs.Kept.{HasRoom};
ghost use Rattle.calypso_engine.specs.Logs.{LogsFrontOf};
ghost use Rattle.calypso_engine.specs.Running.{rest_of, IsReady, Comes, StoppedBetween};
ghost use Rattle.calypso_engine.specs.Stepping.{IsFirst};
ghost use Rattle.calypso_engine.specs.Teams.{HasTallies};
ghost use Rattle.calypso_engine.specs.Whole.{TellsRun};
ghost use Rattle.calypso_engine.specs.declared.error.RunError.TheVariants as error;

use crate::error::RunError;
use crate::event::{Standing, event};
use crate::options::RunOptions;
use crate::team::Team;
use cal_base::{Files, Gate, Image, NoMemory, RunEnd, Sink, WorkerTally};
use code_verify::Verified;
use routine_vm::{Machine, first_image};
use sqlite_items::Items;
use std::alloc::Global;
use std::sync::Wait;
use std::thread::Threads;

/// How a run ended, and what each worker did, the caller last.
#[derive(Debug, Drop)]
pub struct RunReport {
    pub ended: RunEnd,
    pub tallies: Items<WorkerTally>,
}

/// Main goes on to its end.
fn run_on<F: Files, S: Sink, G: Gate, R: Threads + Wait + Sync>(
    rt: &R,
    alloc: Global,
    code: &Verified,
    options: &RunOptions<'_>,
    standing: &mut Standing,
    team: &mut Team,
    files: &mut F,
    out: &mut S,
    gate: &G,
) -> Result<RunEnd, RunError>
    requires ready { IsReady code.now options.now standing.old team.old }
    requires created { IfSome options.now.log (λ name. F.created files.old name.now) }
    ensures comes { Comes options.now (rest_of code.now options.now.fuel standing.old) team.old team.new
        (outside_of (S.written out.old) (F.holds files.old)) (outside_of (S.written out.new) (F.holds files.new)) result }
    ensures tallies { IfOk result (λ _. HasTallies options.now.script.now options.now.workers team.new) }
    ensures created { StaysTrue (F.created files.old) (F.created files.new) }
    ensures files_later { F.faults files.old ≤ F.faults files.new }
    ensures out_later { S.faults out.old ≤ S.faults out.new }
    ensures file_failed { IsErrOf result error.FileFailed → Rose (F.faults files.old) (F.faults files.new) }
    ensures log_failed { IsErrOf result error.FileFailed → IsSome options.now.log }
    ensures out_failed { IsErrOf result error.OutFailed → Rose (S.faults out.old) (S.faults out.new) }
{
    'events: loop {
        match event(rt, alloc, code, options, standing, team, files, out, gate)? {
            None => {}
            Some(ended) => return Ok(ended),
        }
    }
}

/// Room for the words before a step, where steps are shown.
fn room_for(alloc: Global, code: &Verified, steps: bool) -> Result<Option<Image>, NoMemory>
    ensures { IfOk result (λ kept. HasRoom steps (module_memory code.now) kept) }
{
    if steps {
        Ok(Some(first_image(alloc, code)?))
    } else {
        Ok(None)
    }
}

/// Where a run begins.
pub fn first_standing(
    alloc: Global,
    code: &Verified,
    options: &RunOptions<'_>,
) -> Result<Standing, NoMemory>
    ensures { IfOk result (λ standing. IsFirst code.now options.now standing) }
{
    let image = first_image(alloc, code)?;
    let kept = room_for(alloc, code, options.steps)?;
    let machine = Machine::make(alloc, code, options.fuel)?;
    Ok(Standing {
        machine,
        image,
        kept,
        steps: 0,
    })
}

/// Runs the code of a verified module as asked for: in each step the workers work in threads of their own, and then the caller completes
/// it. Out gets the lines that main shows, and behind each completed step the words that it changed, where that is asked for. The log, where
/// one is named, gets the history of each step at its end, as soon as the step is complete. Answers how the run ended and what each worker
/// did, the caller last; or `OutFailed`, `FileFailed` or `NoMemory`. Memory is wanted only between two events of main. It may wait.
pub fn run<F: Files, S: Sink, G: Gate, R: Threads + Wait + Sync>(
    rt: &R,
    alloc: Global,
    code: &Verified,
    options: &RunOptions<'_>,
    files: &mut F,
    out: &mut S,
    gate: &G,
) -> Result<RunReport, RunError>
    requires few { options.now.workers ≤ 32 }
    requires least { 2 ≤ options.now.frames }
    requires most { options.now.frames ≤ 4096 }
    requires created { IfSome options.now.log (λ name. F.created files.old name.now) }
    ensures end { IfOk result (λ report. report.ended ≡ (machine_meaning code.now options.now.fuel).ending) }
    ensures whole { IfOk result (λ _. Appends (S.written out.old) (S.written out.new)
        (text_of options.now.steps (machine_meaning code.now options.now.fuel).events)) }
    ensures told { IfOk result (λ report. TellsRun (steps_of (machine_main code.now options.now.fuel)) options.now report.tallies
        (F.holds files.old) (F.holds files.new)) }
    ensures prefix { OnErr result (AppendsPrefix (S.written out.old) (S.written out.new)
        (text_of options.now.steps (machine_meaning code.now options.now.fuel).events)) }
    ensures front { OnErr result (LogsFrontOf (steps_of (machine_main code.now options.now.fuel)) (log_of options.now) (F.holds files.old)
        (F.holds files.new)) }
    ensures between { IsErrOf result error.NoMemory → StoppedBetween options.now (machine_main code.now options.now.fuel)
        (outside_of (S.written out.old) (F.holds files.old)) (outside_of (S.written out.new) (F.holds files.new)) }
    ensures created { StaysTrue (F.created files.old) (F.created files.new) }
    ensures files_later { F.faults files.old ≤ F.faults files.new }
    ensures out_later { S.faults out.old ≤ S.faults out.new }
    ensures file_failed { IsErrOf result error.FileFailed → Rose (F.faults files.old) (F.faults files.new) }
    ensures log_failed { IsErrOf result error.FileFailed → IsSome options.now.log }
    ensures out_failed { IsErrOf result error.OutFailed → Rose (S.faults out.old) (S.faults out.new) }
{
    let mut tallies = Vec::with_capacity(alloc, usize::from(options.workers) + 1)?;
    let mut standing = first_standing(alloc, code, options)?;
    let mut team = Team::make(alloc, options, &standing.image, code)?;
    let came = run_on(
        rt,
        alloc,
        code,
        options,
        &mut standing,
        &mut team,
        files,
        out,
        gate,
    );
    match came {
        Err(error) => {
            team.end();
            Err(error)
        }
        Ok(ended) => {
            team.add_tallies(&mut tallies);
            team.end();
            Ok(RunReport {
                ended,
                tallies: Items::from_vec(tallies),
            })
        }
    }
}
