//! `run`: the run of the program in a file, by the code that it is compiled to.

ghost use Rattle.std.specs.Prelude.{◌≡◌, ◌≤◌, List, ℕ, Some};
ghost use Rattle.cal_base.specs.Main.{steps_of};
ghost use Rattle.csl_meaning.specs.Meaning.{main, meaning};
ghost use Rattle.calypso_engine.specs.Traces.{IsTraceOf};
ghost use Rattle.command_words.specs.Commands.{run};
ghost use Rattle.command_words.specs.Seen.{flags_seen};
ghost use Rattle.calypso_cli.specs.Commands.{IsLoaded, IsWritten, run_of};
ghost use Rattle.calypso_cli.specs.Promise.{objects_of, Works};
ghost use Rattle.calypso_cli.specs.Steps.{EndsRun};
ghost use Rattle.calypso_cli.specs.Seen.{ending_seen, report_seen};

use crate::Ending;
use crate::ending::Ended;
use crate::execute::execute;
use crate::load::{load_program, load_script};
use cal_base::{Files, Gate, Sink};
use command_words::Flags;
use compile_steps::compile;
use fault_script::Script;
use std::alloc::Global;
use std::sync::Wait;
use std::thread::Threads;
use type_check::checked::Checked;

/// Compiles an accepted program, and runs its code as the options say.
fn run_compiled<'a, R: Threads + Wait + Sync, F: Files, S: Sink, G: Gate>(
    rt: &R,
    alloc: Global,
    program: &Checked,
    flags: &'a Flags,
    script: &Script,
    files: &mut F,
    out: &mut S,
    gate: &G,
) -> Ended<'a>
    requires { (name : List ℕ) → (flags_seen flags.now).log ≡ Some name → F.may_write name }
    ensures ends { EndsRun (IsTraceOf (steps_of (main program.now flags.now.fuel)))
        (run_of flags.now.steps (meaning program.now flags.now.fuel)) (flags_seen flags.now) script.now
        (objects_of (F.holds files.old) (S.written out.old) (F.faults files.old) (S.faults out.old))
        (objects_of (F.holds files.new) (S.written out.new) (F.faults files.new) (S.faults out.new))
        (ending_seen result.ending) (report_seen result.report) }
    ensures files_later { F.faults files.old ≤ F.faults files.new }
    ensures out_later { S.faults out.old ≤ S.faults out.new }
{
    match compile(alloc, program) {
        Ok(code) => execute(rt, alloc, &code, flags, script, files, out, gate),
        Err(_) => Ended::of(Ending::NoMemory),
    }
}

/// Runs the program in a file by its code.
pub(crate) fn run_file<'a, R: Threads + Wait + Sync, F: Files, S: Sink, G: Gate>(
    rt: &R,
    alloc: Global,
    file: &'a str,
    flags: &'a Flags,
    files: &mut F,
    out: &mut S,
    gate: &G,
) -> Ended<'a>
    requires load { (name : List ℕ) → IsLoaded (run file.now (flags_seen flags.now)) name → F.may_load name }
    requires write { (name : List ℕ) → IsWritten (run file.now (flags_seen flags.now)) name → F.may_write name }
    ensures works { Works (run file.now (flags_seen flags.now))
        (objects_of (F.holds files.old) (S.written out.old) (F.faults files.old) (S.faults out.old))
        (objects_of (F.holds files.new) (S.written out.new) (F.faults files.new) (S.faults out.new))
        (ending_seen result.ending) (report_seen result.report) }
    ensures files_later { F.faults files.old ≤ F.faults files.new }
    ensures out_later { S.faults out.old ≤ S.faults out.new }
{
    let program = match load_program(alloc, files, file) {
        Ok(program) => program,
        Err(ending) => return Ended::of(ending),
    };
    match load_script(alloc, files, flags) {
        Ok(script) => run_compiled(rt, alloc, &program, flags, &script, files, out, gate),
        Err(ending) => Ended::of(ending),
    }
}
