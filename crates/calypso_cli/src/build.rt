//! `build`: the module of the program in a file.

ghost use Rattle.std.specs.Prelude.{◌≤◌, ℕ, List, [], IfOk};
ghost use Rattle.std.specs.declared.option.Option.{Option};
ghost use Rattle.command_words.specs.Commands.{build};
ghost use Rattle.calypso_cli.specs.Commands.{IsBuiltOf};
ghost use Rattle.calypso_cli.specs.Promise.{objects_of, Works};
ghost use Rattle.calypso_cli.specs.Steps.{EndsFile, EndsBuild};
ghost use Rattle.calypso_cli.specs.Seen.{ending_seen};

use crate::Ending;
use crate::load::load_program;
use bytecode::encode;
use cal_base::{Files, NoMemory, append_all};
use compile_steps::compile;
use std::alloc::Global;
use type_check::checked::Checked;

/// Writes a file anew.
fn write_file<'a, F: Files>(files: &mut F, into: &'a str, bytes: &[u8]) -> Ending<'a>
    requires { F.may_write into.now }
    ensures ends { EndsFile into.now bytes.now (F.holds files.old) (F.holds files.new) (F.faults files.old) (F.faults files.new)
        (ending_seen result) }
    ensures later { F.faults files.old ≤ F.faults files.new }
{
    match files.create(into) {
        Ok(()) => match append_all(files, into, bytes) {
            Ok(()) => Ending::Done,
            Err(_) => Ending::CannotWrite(into),
        },
        Err(_) => Ending::CannotWrite(into),
    }
}

/// The spelling of the module that an accepted program is compiled to.
fn module_text(alloc: Global, program: &Checked) -> Result<Vec<u8>, NoMemory>
    ensures { IfOk result (λ bytes. IsBuiltOf program.now bytes.items) }
{
    let code = compile(alloc, program)?;
    encode(alloc, code.module())
}

/// Compiles an accepted program, and writes its module.
fn write_module<'a, F: Files>(
    alloc: Global,
    program: &Checked,
    into: &'a str,
    files: &mut F,
) -> Ending<'a>
    requires { F.may_write into.now }
    ensures ends { EndsBuild program.now into.now (F.holds files.old) (F.holds files.new) (F.faults files.old) (F.faults files.new)
        (ending_seen result) }
    ensures later { F.faults files.old ≤ F.faults files.new }
{
    match module_text(alloc, program) {
        Ok(bytes) => write_file(files, into, &bytes),
        Err(_) => Ending::NoMemory,
    }
}

/// Writes the module of the program in a file. It is not handed the output, which is as before.
pub(crate) fn build_file<'a, F: Files>(
    alloc: Global,
    file: &'a str,
    into: &'a str,
    files: &mut F,
) -> Ending<'a>
    requires may_load { F.may_load file.now }
    requires may_write { F.may_write into.now }
    ensures works { (out : Option (List ℕ)) (out_faults : ℕ) → Works (build file.now into.now)
        (objects_of (F.holds files.old) out (F.faults files.old) out_faults)
        (objects_of (F.holds files.new) out (F.faults files.new) out_faults)
        (ending_seen result) [] }
    ensures later { F.faults files.old ≤ F.faults files.new }
{
    match load_program(alloc, files, file) {
        Ok(program) => write_module(alloc, &program, into, files),
        Err(ending) => ending,
    }
}
