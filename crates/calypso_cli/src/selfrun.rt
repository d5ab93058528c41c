//! `selfrun`: the run of a generated program by eight workers, some of which stop, repeat and lose their results.

ghost use Rattle.std.specs.Prelude.{◌≡◌, ◌⊎◌, ◌≤◌, false, [], IfOk, IfErr};
ghost use Rattle.cal_base.specs.Contents.{Told, SameFiles};
ghost use Rattle.csl_meaning.specs.Meaning.{meaning};
ghost use Rattle.csl_reader.specs.Readings as reading;
ghost use Rattle.csl_reader.specs.Readings.{IsRead};
ghost use Rattle.program_gen.specs.Generated as program;
ghost use Rattle.command_words.specs.Commands.{selfrun};
ghost use Rattle.calypso_cli.specs.Commands.{IsRefusedText, usual_fuel, run_of};
ghost use Rattle.calypso_cli.specs.Endings.{no_memory};
ghost use Rattle.calypso_cli.specs.Promise.{objects_of, Works};
ghost use Rattle.calypso_cli.specs.Steps.{EndsWork};
ghost use Rattle.calypso_cli.specs.Seen.{ending_seen};

use crate::Ending;
use cal_base::{Files, Gate, Sink};
use calypso_engine::{RunError, RunOptions, run};
use command_words::Generated;
use compile_steps::compile;
use csl_reader::{ReadError, read_program};
use fault_script::selfrun_script;
use program_gen::generate;
use std::alloc::Global;
use std::sync::Wait;
use std::thread::Threads;
use type_check::checked::Checked;

/// How many workers there are.
const WORKERS: u8 = 8;

/// How many units of fuel main has, and each execution of a routine.
const FUEL: u32 = 1_000_000;

/// How many pages a worker keeps at most.
const FRAMES: u32 = 64;

/// The generated program as a tree, or how the call ends.
fn read_generated<'a>(alloc: Global, which: &Generated) -> Result<Checked, Ending<'a>>
    ensures read { IfOk result (λ p. IsRead (program.generated which.now.number which.now.size) (reading.accepted p)) }
    ensures turned { IfErr result (λ ending. (ending_seen ending ≡ no_memory)
        ⊎ IsRefusedText (program.generated which.now.number which.now.size) (ending_seen ending)) }
{
    let Ok(text) = generate(alloc, which.number, which.size) else {
        return Err(Ending::NoMemory);
    };
    match read_program(alloc, &text) {
        Ok(program) => Ok(program),
        Err(ReadError::Refused { at, why }) => Err(Ending::Refused { at, why }),
        Err(ReadError::NoMemory) => Err(Ending::NoMemory),
    }
}

/// Compiles an accepted program, and runs it by the workers of `selfrun`. No file is touched.
fn run_by_eight<'a, R: Threads + Wait + Sync, F: Files, S: Sink, G: Gate>(
    rt: &R,
    alloc: Global,
    program: &Checked,
    files: &mut F,
    out: &mut S,
    gate: &G,
) -> Ending<'a>
    ensures ends { EndsWork (run_of false (meaning program.now usual_fuel)) (S.written out.old) (S.written out.new) (S.faults out.old)
        (S.faults out.new) (ending_seen result) }
    ensures files { Told (F.holds files.old) (F.holds files.new) SameFiles }
    ensures files_later { F.faults files.old ≤ F.faults files.new }
    ensures out_later { S.faults out.old ≤ S.faults out.new }
{
    let Ok(code) = compile(alloc, program) else {
        return Ending::NoMemory;
    };
    let Ok(script) = selfrun_script(alloc) else {
        return Ending::NoMemory;
    };
    let options = RunOptions {
        workers: WORKERS,
        fuel: FUEL,
        frames: FRAMES,
        script: &script,
        steps: false,
        log: None,
    };
    match run(rt, alloc, &code, &options, files, out, gate) {
        Ok(report) => Ending::of_run(report.ended),
        Err(RunError::OutFailed) => Ending::OutputFailed,
        Err(RunError::NoMemory) => Ending::NoMemory,
        Err(RunError::FileFailed) => unreachable!(),
    }
}

/// Runs a generated program.
pub(crate) fn run_generated<'a, R: Threads + Wait + Sync, F: Files, S: Sink, G: Gate>(
    rt: &R,
    alloc: Global,
    which: &Generated,
    files: &mut F,
    out: &mut S,
    gate: &G,
) -> Ending<'a>
    ensures works { Works (selfrun which.now.number which.now.size)
        (objects_of (F.holds files.old) (S.written out.old) (F.faults files.old) (S.faults out.old))
        (objects_of (F.holds files.new) (S.written out.new) (F.faults files.new) (S.faults out.new))
        (ending_seen result) [] }
    ensures files_later { F.faults files.old ≤ F.faults files.new }
    ensures out_later { S.faults out.old ≤ S.faults out.new }
{
    match read_generated(alloc, which) {
        Ok(program) => run_by_eight(rt, alloc, &program, files, out, gate),
        Err(ending) => ending,
    }
}
