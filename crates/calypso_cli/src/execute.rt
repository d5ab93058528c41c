//! The run of verified code.

ghost use Rattle.std.specs.Prelude.{◌≡◌, ◌≤◌, ℕ, List, [], Some, if◌then◌else◌};
ghost use Rattle.cal_base.specs.Main.{steps_of};
ghost use Rattle.machine_meaning.specs.Meaning.{machine_main, machine_meaning};
ghost use Rattle.run_report.specs.Reports.{report_text};
ghost use Rattle.calypso_engine.specs.Traces.{IsTraceOf};
ghost use Rattle.command_words.specs.Seen.{flags_seen};
ghost use Rattle.calypso_cli.specs.Commands.{run_of};
ghost use Rattle.calypso_cli.specs.Promise.{objects_of};
ghost use Rattle.calypso_cli.specs.Steps.{EndsRun};
ghost use Rattle.calypso_cli.specs.Seen.{ending_seen, report_seen};

use crate::Ending;
use crate::ending::Ended;
use crate::log::{create_log, given_up, log_name};
use cal_base::{Files, Gate, Sink, WorkerTally};
use calypso_engine::{RunOptions, run};
use code_verify::Verified;
use command_words::Flags;
use fault_script::Script;
use sqlite_items::Items;
use std::alloc::Global;
use std::sync::Wait;
use std::thread::Threads;

/// What is reported of a run: its tallies, where that is asked for.
fn reported(flags: &Flags, tallies: Items<WorkerTally>) -> Option<Items<WorkerTally>>
    ensures { report_seen result ≡ (if flags.now.report then report_text tallies else []) }
{
    if flags.report { Some(tallies) } else { None }
}

/// Runs the code of a verified module as the options and the script say, behind the creation of its log.
pub(crate) fn execute<'a, R: Threads + Wait + Sync, F: Files, S: Sink, G: Gate>(
    rt: &R,
    alloc: Global,
    code: &Verified,
    flags: &'a Flags,
    script: &Script,
    files: &mut F,
    out: &mut S,
    gate: &G,
) -> Ended<'a>
    requires { (name : List ℕ) → (flags_seen flags.now).log ≡ Some name → F.may_write name }
    ensures ends { EndsRun (IsTraceOf (steps_of (machine_main code.now flags.now.fuel)))
        (run_of flags.now.steps (machine_meaning code.now flags.now.fuel)) (flags_seen flags.now) script.now
        (objects_of (F.holds files.old) (S.written out.old) (F.faults files.old) (S.faults out.old))
        (objects_of (F.holds files.new) (S.written out.new) (F.faults files.new) (S.faults out.new))
        (ending_seen result.ending) (report_seen result.report) }
    ensures files_later { F.faults files.old ≤ F.faults files.new }
    ensures out_later { S.faults out.old ≤ S.faults out.new }
{
    let log = log_name(&flags.log);
    if let Err(ending) = create_log(files, log) {
        return Ended::of(ending);
    }
    let options = RunOptions {
        workers: flags.workers,
        fuel: flags.fuel,
        frames: flags.frames,
        script,
        steps: flags.steps,
        log,
    };
    match run(rt, alloc, code, &options, files, out, gate) {
        Ok(report) => Ended {
            ending: Ending::of_run(report.ended),
            report: reported(flags, report.tallies),
        },
        Err(error) => Ended::of(given_up(error, log)),
    }
}
