//! `check`: the program in a file in its canonical form.

ghost use Rattle.std.specs.Prelude.{◌≤◌, []};
ghost use Rattle.command_words.specs.Commands.{check};
ghost use Rattle.calypso_cli.specs.Commands.{check_of};
ghost use Rattle.calypso_cli.specs.Promise.{objects_of, Works};
ghost use Rattle.calypso_cli.specs.Steps.{EndsWork};
ghost use Rattle.calypso_cli.specs.Seen.{ending_seen};

use crate::Ending;
use crate::load::load_program;
use cal_base::{Files, Sink, write_all};
use csl_print::print_program;
use std::alloc::Global;
use type_check::checked::Checked;

/// Writes the canonical text of an accepted program.
fn print<'a, S: Sink>(alloc: Global, program: &Checked, out: &mut S) -> Ending<'a>
    ensures ends { EndsWork (check_of program.now) (S.written out.old) (S.written out.new) (S.faults out.old) (S.faults out.new)
        (ending_seen result) }
    ensures later { S.faults out.old ≤ S.faults out.new }
{
    let Ok(text) = print_program(alloc, program.program()) else {
        return Ending::NoMemory;
    };
    match write_all(out, &text) {
        Ok(()) => Ending::Done,
        Err(_) => Ending::OutputFailed,
    }
}

/// Writes the canonical text of the program in a file.
pub(crate) fn check_file<'a, F: Files, S: Sink>(
    alloc: Global,
    file: &'a str,
    files: &mut F,
    out: &mut S,
) -> Ending<'a>
    requires { F.may_load file.now }
    ensures works { Works (check file.now)
        (objects_of (F.holds files.old) (S.written out.old) (F.faults files.old) (S.faults out.old))
        (objects_of (F.holds files.new) (S.written out.new) (F.faults files.new) (S.faults out.new))
        (ending_seen result) [] }
    ensures files_later { F.faults files.old ≤ F.faults files.new }
    ensures out_later { S.faults out.old ≤ S.faults out.new }
{
    match load_program(alloc, files, file) {
        Ok(program) => print(alloc, &program, out),
        Err(ending) => ending,
    }
}
