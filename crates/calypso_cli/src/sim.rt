//! `sim`: the run of the program in a file where its workers do what a list of events says.

ghost use Rattle.std.specs.Prelude.{◌≤◌, ℕ, List, false, [], IfSome, option_map};
ghost use Rattle.event_world.specs.Law.{Each, IsOfWorker};
ghost use Rattle.csl_meaning.specs.Meaning.{meaning};
ghost use Rattle.command_words.specs.Commands as command;
ghost use Rattle.calypso_cli.specs.Commands.{IsLoaded, IsWritten, IsSimulated, usual_fuel, run_of};
ghost use Rattle.calypso_cli.specs.Promise.{objects_of, Works};
ghost use Rattle.calypso_cli.specs.Steps.{EndsRun, simulation};
ghost use Rattle.calypso_cli.specs.Seen.{ending_seen};

use crate::Ending;
use crate::load::{load_events, load_program};
use crate::log::{create_log, given_up};
use cal_base::{Files, Sink};
use compile_steps::compile;
use event_engine::sim;
use fault_script::Event;
use std::alloc::Global;
use type_check::checked::Checked;

/// Compiles an accepted program, and runs its code over the events, behind the creation of its log.
fn simulate<'a, F: Files, S: Sink>(
    alloc: Global,
    program: &Checked,
    events: &[Event],
    log: Option<&'a str>,
    files: &mut F,
    out: &mut S,
) -> Ending<'a>
    requires workers { Each IsOfWorker events.now }
    requires write { IfSome log (λ name. F.may_write name.now) }
    ensures ends { EndsRun (IsSimulated program.now events.now) (run_of false (meaning program.now usual_fuel))
        (simulation (option_map (λ name. name.now) log.entry)) []
        (objects_of (F.holds files.old) (S.written out.old) (F.faults files.old) (S.faults out.old))
        (objects_of (F.holds files.new) (S.written out.new) (F.faults files.new) (S.faults out.new))
        (ending_seen result) [] }
    ensures files_later { F.faults files.old ≤ F.faults files.new }
    ensures out_later { S.faults out.old ≤ S.faults out.new }
{
    let Ok(code) = compile(alloc, program) else {
        return Ending::NoMemory;
    };
    if let Err(ending) = create_log(files, log) {
        return ending;
    }
    match sim(alloc, &code, events, log, files, out) {
        Ok(end) => Ending::of_run(end),
        Err(error) => given_up(error, log),
    }
}

/// Runs the program in a file over the events that another file lists.
pub(crate) fn sim_file<'a, F: Files, S: Sink>(
    alloc: Global,
    file: &'a str,
    events: &'a str,
    log: Option<&'a str>,
    files: &mut F,
    out: &mut S,
) -> Ending<'a>
    requires program { F.may_load file.now }
    requires events { F.may_load events.now }
    requires write { IfSome log (λ name. F.may_write name.now) }
    ensures works { Works (command.sim file.now events.now (option_map (λ name. name.now) log.entry))
        (objects_of (F.holds files.old) (S.written out.old) (F.faults files.old) (S.faults out.old))
        (objects_of (F.holds files.new) (S.written out.new) (F.faults files.new) (S.faults out.new))
        (ending_seen result) [] }
    ensures files_later { F.faults files.old ≤ F.faults files.new }
    ensures out_later { S.faults out.old ≤ S.faults out.new }
{
    let program = match load_program(alloc, files, file) {
        Ok(program) => program,
        Err(ending) => return ending,
    };
    match load_events(alloc, files, events) {
        Ok(list) => simulate(alloc, &program, &list, log, files, out),
        Err(ending) => ending,
    }
}
