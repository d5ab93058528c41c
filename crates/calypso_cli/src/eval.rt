//! `eval`: the run of the program in a file, by its tree.

ghost use Rattle.std.specs.Prelude.{◌≤◌, false, []};
ghost use Rattle.csl_meaning.specs.Meaning.{meaning};
ghost use Rattle.command_words.specs.Commands.{eval};
ghost use Rattle.calypso_cli.specs.Commands.{run_of, usual_fuel};
ghost use Rattle.calypso_cli.specs.Promise.{objects_of, Works};
ghost use Rattle.calypso_cli.specs.Steps.{EndsWork};
ghost use Rattle.calypso_cli.specs.Seen.{ending_seen};

use crate::Ending;
use crate::load::load_program;
use cal_base::{Files, Sink};
use std::alloc::Global;
use tree_eval::{EvalError, eval};
use type_check::checked::Checked;

/// The units of fuel of `eval`.
const FUEL: u32 = 1_000_000;

/// Runs an accepted program by its tree.
fn evaluate<'a, S: Sink>(alloc: Global, program: &Checked, out: &mut S) -> Ending<'a>
    ensures ends { EndsWork (run_of false (meaning program.now usual_fuel)) (S.written out.old) (S.written out.new) (S.faults out.old)
        (S.faults out.new) (ending_seen result) }
    ensures later { S.faults out.old ≤ S.faults out.new }
{
    match eval(alloc, program, FUEL, out) {
        Ok(end) => Ending::of_run(end),
        Err(EvalError::OutFailed) => Ending::OutputFailed,
        Err(EvalError::NoMemory) => Ending::NoMemory,
    }
}

/// Runs the program in a file by its tree.
pub(crate) fn eval_file<'a, F: Files, S: Sink>(
    alloc: Global,
    file: &'a str,
    files: &mut F,
    out: &mut S,
) -> Ending<'a>
    requires { F.may_load file.now }
    ensures works { Works (eval file.now)
        (objects_of (F.holds files.old) (S.written out.old) (F.faults files.old) (S.faults out.old))
        (objects_of (F.holds files.new) (S.written out.new) (F.faults files.new) (S.faults out.new))
        (ending_seen result) [] }
    ensures files_later { F.faults files.old ≤ F.faults files.new }
    ensures out_later { S.faults out.old ≤ S.faults out.new }
{
    match load_program(alloc, files, file) {
        Ok(program) => evaluate(alloc, &program, out),
        Err(ending) => ending,
    }
}
