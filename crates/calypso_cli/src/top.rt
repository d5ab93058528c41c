//! The top call: all that the program does.

ghost use Rattle.std.specs.Prelude.{◌≡◌, ◌≤◌, [], map, string_bytes, Some};
ghost use Rattle.command_words.specs.Words.{command_of};
ghost use Rattle.command_words.specs.Seen.{command_seen};
ghost use Rattle.calypso_cli.specs.Commands.{WaitsForNobody};
ghost use Rattle.calypso_cli.specs.Promise.{objects_of, Gets, MayUse, MayDo, Works, KeepsPromise};
ghost use Rattle.calypso_cli.specs.Seen.{ending_seen, report_seen};
ghost use Rattle.calypso_cli.specs.Endings.{no_memory, status_of, err_text};

use crate::Ending;
use crate::ending::{Ended, conclude, conclude_run};
use crate::exec::exec_file;
use crate::no_threads::plain;
use crate::run::run_file;
use crate::selfrun::run_generated;
use cal_base::{Files, Gate, Sink};
use command_words::{Command, WordsError, read_words};
use std::alloc::Global;
use std::sync::Wait;
use std::thread::Threads;

/// Tells that memory was wanted even for the words of the command line, and answers the status for that.
pub fn out_of_memory<E: Sink>(err: &mut E) -> u8
    ensures status { result ≡ status_of no_memory }
    ensures line { Gets (E.written err.old) (E.written err.new) (E.faults err.old) (E.faults err.new) (err_text no_memory) }
    ensures later { E.faults err.old ≤ E.faults err.new }
{
    conclude(Ending::NoMemory, err)
}

/// Does what a command asks for that is to run worker threads.
fn carry_out<'a, R: Threads + Wait + Sync, F: Files, S: Sink, G: Gate>(
    rt: &R,
    alloc: Global,
    command: &'a Command,
    files: &mut F,
    out: &mut S,
    gate: &G,
) -> Ended<'a>
    requires waits { WaitsForNobody (command_seen command.now) → ⊥ }
    requires may_use { MayUse F.may_load F.may_write (command_seen command.now) }
    ensures works { Works (command_seen command.now)
        (objects_of (F.holds files.old) (S.written out.old) (F.faults files.old) (S.faults out.old))
        (objects_of (F.holds files.new) (S.written out.new) (F.faults files.new) (S.faults out.new))
        (ending_seen result.ending) (report_seen result.report) }
    ensures files_later { F.faults files.old ≤ F.faults files.new }
    ensures out_later { S.faults out.old ≤ S.faults out.new }
{
    match command {
        Command::Run { file, flags } => {
            run_file(rt, alloc, file.as_str(), flags, files, out, gate)
        }
        Command::Exec { module, flags } => {
            exec_file(rt, alloc, module.as_str(), flags, files, out, gate)
        }
        Command::Selfrun(which) => Ended::of(run_generated(rt, alloc, which, files, out, gate)),
        _ => unreachable!(),
    }
}

/// Does what a command asks for that runs worker threads, so is `run`, `exec` or `selfrun`, and answers the status of the process.
fn with_threads<R: Threads + Wait + Sync, F: Files, S: Sink, E: Sink, G: Gate>(
    rt: &R,
    alloc: Global,
    command: &Command,
    files: &mut F,
    out: &mut S,
    err: &mut E,
    gate: &G,
) -> u8
    requires waits { WaitsForNobody (command_seen command.now) → ⊥ }
    requires may_use { MayDo F.may_load F.may_write (Some (command_seen command.now)) }
    ensures { KeepsPromise (Some (command_seen command.now))
        (record {
          objects = objects_of (F.holds files.old) (S.written out.old) (F.faults files.old) (S.faults out.old);
          err = E.written err.old;
          err_faults = E.faults err.old;
        })
        (record {
          objects = objects_of (F.holds files.new) (S.written out.new) (F.faults files.new) (S.faults out.new);
          err = E.written err.new;
          err_faults = E.faults err.new;
        })
        result }
{
    let ended = carry_out(rt, alloc, command, files, out, gate);
    conclude_run(ended, err)
}

/// Does what a command asks for, and answers the status of the process.
fn does_command<R: Threads + Wait + Sync, F: Files, S: Sink, E: Sink, G: Gate>(
    rt: &R,
    alloc: Global,
    command: &Command,
    files: &mut F,
    out: &mut S,
    err: &mut E,
    gate: &G,
) -> u8
    requires { MayDo F.may_load F.may_write (Some (command_seen command.now)) }
    ensures { KeepsPromise (Some (command_seen command.now))
        (record {
          objects = objects_of (F.holds files.old) (S.written out.old) (F.faults files.old) (S.faults out.old);
          err = E.written err.old;
          err_faults = E.faults err.old;
        })
        (record {
          objects = objects_of (F.holds files.new) (S.written out.new) (F.faults files.new) (S.faults out.new);
          err = E.written err.new;
          err_faults = E.faults err.new;
        })
        result }
{
    match command {
        Command::Check { .. }
        | Command::Eval { .. }
        | Command::Sim { .. }
        | Command::Build { .. }
        | Command::Gen(_) => plain(alloc, command, files, out, err),
        Command::Run { .. } | Command::Exec { .. } | Command::Selfrun(_) => {
            with_threads(rt, alloc, command, files, out, err, gate)
        }
    }
}

/// Does what the words of the command line ask for, and answers the status of the process.
///
/// The words come without the program's own name. The commands are told in `docs/RUNTIME.md`, and what is promised of each in
/// `docs/PROMISES.md`.
pub fn calypso<R: Threads + Wait + Sync, F: Files, S: Sink, E: Sink, G: Gate>(
    rt: &R,
    alloc: Global,
    words: &[String],
    files: &mut F,
    out: &mut S,
    err: &mut E,
    gate: &G,
) -> u8
    requires { MayDo F.may_load F.may_write (command_of (map string_bytes words.now)) }
    ensures { KeepsPromise (command_of (map string_bytes words.now))
        (record {
          objects = objects_of (F.holds files.old) (S.written out.old) (F.faults files.old) (S.faults out.old);
          err = E.written err.old;
          err_faults = E.faults err.old;
        })
        (record {
          objects = objects_of (F.holds files.new) (S.written out.new) (F.faults files.new) (S.faults out.new);
          err = E.written err.new;
          err_faults = E.faults err.new;
        })
        result }
{
    match read_words(alloc, words) {
        Ok(command) => does_command(rt, alloc, &command, files, out, err, gate),
        Err(WordsError::NoCommand) => conclude(Ending::NoCommand, err),
        Err(WordsError::NoMemory) => conclude(Ending::NoMemory, err),
    }
}
