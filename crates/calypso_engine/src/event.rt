//! Main, from one event to the next.

ghost use Rattle.std.specs.Prelude.{◌≡◌, ◌+◌, ◌<◌, ◌≤◌, ◌^◌, [], None, Ok, IfOk, IfSome, IsSome, IsErrOf, length};
ghost use Rattle.cal_base.specs.Causes.{Rose};
ghost use Rattle.cal_base.specs.Contents.{StaysTrue};
ghost use Rattle.machine_meaning.specs.Runs.{most_steps};
ghost use Rattle.routine_vm.specs.Held.{main_state, TellsStep};
ghost use Rattle.calypso_engine.specs.Asked.{outside_of};
ghost use Rattle.calypso_engine.specs.Running.{rest_of, opening_here, IsReady, Goes};
ghost use Rattle.calypso_engine.specs.Stepping.{MayStep, IsBehind};
ghost use Rattle.calypso_engine.specs.Teams.{HasTallies};
ghost use Rattle.calypso_engine.specs.declared.error.RunError.TheVariants as error;

use crate::error::RunError;
use crate::line::print;
use crate::options::RunOptions;
use crate::step::open_step;
use crate::team::Team;
use crate::telling::{keep_words, tell_step};
use cal_base::{Files, Gate, Image, NoMemory, RunEnd, Sink};
use code_verify::Verified;
use routine_vm::{Machine, MainEvent};
use std::alloc::Global;
use std::sync::Wait;
use std::thread::Threads;

/// Where a run stands: main's machine, shared memory, the words before the last step where steps are shown, and how many steps are
/// completed.
#[derive(Drop)]
pub struct Standing {
    pub machine: Machine,
    pub image: Image,
    pub kept: Option<Image>,
    pub steps: u64,
}

/// The widths of the blocks of the step that main opens.
pub fn widths_of(alloc: Global, machine: &Machine, blocks: u32) -> Result<Vec<u32>, NoMemory>
    requires { blocks ≡ length machine.now.widths }
    ensures { IfOk result (λ widths. widths.items ≡ machine.now.widths) }
{
    let mut widths = Vec::new(alloc);
    for i in 0..blocks {
        widths.push(machine.width(i))?;
    }
    Ok(widths)
}

/// Main opens a step, in which the workers work and which the caller completes, and which is told. Answers the end of the run where the step ends in a fault.
fn step<F: Files, S: Sink, G: Gate, R: Threads + Wait + Sync>(
    rt: &R,
    alloc: Global,
    code: &Verified,
    options: &RunOptions<'_>,
    standing: &mut Standing,
    team: &mut Team,
    files: &mut F,
    out: &mut S,
    first_block: u32,
    blocks: u32,
    total: u32,
    gate: &G,
) -> Result<Option<RunEnd>, RunError>
    requires told { TellsStep code.now first_block blocks total standing.old.machine }
    requires may { MayStep code.now options.now first_block standing.old team.old }
    requires created { IfSome options.now.log (λ name. F.created files.old name.now) }
    ensures goes { Goes code.now options.now (opening_here code.now options.now.fuel first_block standing.old) standing.new team.old
        team.new (outside_of (S.written out.old) (F.holds files.old)) (outside_of (S.written out.new) (F.holds files.new)) result }
    ensures behind { result ≡ Ok None → IsBehind code.now options.now standing.old standing.new team.new }
    ensures tallies { IfOk result (λ _. HasTallies options.now.script.now options.now.workers team.new) }
    ensures created { StaysTrue (F.created files.old) (F.created files.new) }
    ensures files_later { F.faults files.old ≤ F.faults files.new }
    ensures out_later { S.faults out.old ≤ S.faults out.new }
    ensures file_failed { IsErrOf result error.FileFailed → Rose (F.faults files.old) (F.faults files.new) }
    ensures log_failed { IsErrOf result error.FileFailed → IsSome options.now.log }
    ensures out_failed { IsErrOf result error.OutFailed → Rose (S.faults out.old) (S.faults out.new) }
{
    let widths = widths_of(alloc, &standing.machine, blocks)?;
    keep_words(&standing.image, &mut standing.kept);
    let step = standing.steps + 1;
    let closed = open_step(
        rt,
        alloc,
        options,
        standing.steps,
        &mut standing.image,
        code,
        first_block,
        widths.as_slice(),
        total,
        team,
        gate,
    )?;
    tell_step(
        options,
        step,
        total,
        &closed,
        &standing.kept,
        &standing.image,
        files,
        out,
    )?;
    match closed.result {
        Ok(()) => {
            standing.steps = step;
            Ok(None)
        }
        Err(fault) => Ok(Some(RunEnd::StepFailed { step, fault })),
    }
}

/// Main goes on to its next event, which is done: a line is written, or a step is opened and completed. Answers the end of the run where
/// main came to it. It may wait.
pub fn event<F: Files, S: Sink, G: Gate, R: Threads + Wait + Sync>(
    rt: &R,
    alloc: Global,
    code: &Verified,
    options: &RunOptions<'_>,
    standing: &mut Standing,
    team: &mut Team,
    files: &mut F,
    out: &mut S,
    gate: &G,
) -> Result<Option<RunEnd>, RunError>
    requires ready { IsReady code.now options.now standing.old team.old }
    requires created { IfSome options.now.log (λ name. F.created files.old name.now) }
    ensures goes { Goes code.now options.now (rest_of code.now options.now.fuel standing.old) standing.new team.old team.new
        (outside_of (S.written out.old) (F.holds files.old)) (outside_of (S.written out.new) (F.holds files.new)) result }
    ensures ready { result ≡ Ok None → IsReady code.now options.now standing.new team.new }
    ensures falls { result ≡ Ok None → most_steps code.now (main_state code.now standing.new.machine []) < most_steps code.now
        (main_state code.now standing.old.machine []) }
    ensures tallies { IfOk result (λ _. HasTallies options.now.script.now options.now.workers team.new) }
    ensures created { StaysTrue (F.created files.old) (F.created files.new) }
    ensures files_later { F.faults files.old ≤ F.faults files.new }
    ensures out_later { S.faults out.old ≤ S.faults out.new }
    ensures file_failed { IsErrOf result error.FileFailed → Rose (F.faults files.old) (F.faults files.new) }
    ensures log_failed { IsErrOf result error.FileFailed → IsSome options.now.log }
    ensures out_failed { IsErrOf result error.OutFailed → Rose (S.faults out.old) (S.faults out.new) }
{
    let _verified = code.module();
    match standing.machine.run_main(code, &mut standing.image) {
        MainEvent::Print { items } => {
            print(alloc, code, &standing.machine, items, out)?;
            Ok(None)
        }
        MainEvent::Par {
            first_block,
            blocks,
            total,
        } => step(
            rt,
            alloc,
            code,
            options,
            standing,
            team,
            files,
            out,
            first_block,
            blocks,
            total,
            gate,
        ),
        MainEvent::Halt => Ok(Some(RunEnd::Done {
            steps: standing.steps,
        })),
        MainEvent::Fault(cause) => Ok(Some(RunEnd::MainFault {
            after: standing.steps,
            cause,
        })),
    }
}
