//! The commands that run no worker threads.

ghost use Rattle.std.specs.Prelude.{◌≤◌, [], Some};
ghost use Rattle.command_words.specs.Seen.{command_seen};
ghost use Rattle.calypso_cli.specs.Commands.{WaitsForNobody};
ghost use Rattle.calypso_cli.specs.Promise.{objects_of, MayUse, MayDo, Works, KeepsPromise};
ghost use Rattle.calypso_cli.specs.Seen.{ending_seen};

use crate::Ending;
use crate::build::build_file;
use crate::check::check_file;
use crate::ending::conclude;
use crate::eval::eval_file;
use crate::generated::write_generated;
use crate::log::log_name;
use crate::sim::sim_file;
use cal_base::{Files, Sink};
use command_words::Command;
use std::alloc::Global;

/// Does what a command asks for that runs no worker threads.
fn carry_out<'a, F: Files, S: Sink>(
    alloc: Global,
    command: &'a Command,
    files: &mut F,
    out: &mut S,
) -> Ending<'a>
    requires waits { WaitsForNobody (command_seen command.now) }
    requires may_use { MayUse F.may_load F.may_write (command_seen command.now) }
    ensures works { Works (command_seen command.now)
        (objects_of (F.holds files.old) (S.written out.old) (F.faults files.old) (S.faults out.old))
        (objects_of (F.holds files.new) (S.written out.new) (F.faults files.new) (S.faults out.new))
        (ending_seen result) [] }
    ensures files_later { F.faults files.old ≤ F.faults files.new }
    ensures out_later { S.faults out.old ≤ S.faults out.new }
{
    match command {
        Command::Check { file } => check_file(alloc, file.as_str(), files, out),
        Command::Eval { file } => eval_file(alloc, file.as_str(), files, out),
        Command::Sim { file, events, log } => {
            sim_file(
                alloc,
                file.as_str(),
                events.as_str(),
                log_name(log),
                files,
                out,
            )
        }
        Command::Build { file, module } => {
            build_file(alloc, file.as_str(), module.as_str(), files)
        }
        Command::Gen(program) => write_generated(alloc, program.number, program.size, out),
        _ => unreachable!(),
    }
}

/// Does what a command asks for that runs no worker threads, so is none of `run`, `exec` and `selfrun`, and answers the status of the
/// process. It waits for nobody, and returns.
pub fn plain<F: Files, S: Sink, E: Sink>(
    alloc: Global,
    command: &Command,
    files: &mut F,
    out: &mut S,
    err: &mut E,
) -> u8
    requires waits { WaitsForNobody (command_seen command.now) }
    requires may_use { MayDo F.may_load F.may_write (Some (command_seen command.now)) }
    ensures { KeepsPromise (Some (command_seen command.now))
        (record {
          objects = objects_of (F.holds files.old) (S.written out.old) (F.faults files.old) (S.faults out.old);
          err = E.written err.old;
          err_faults = E.faults err.old;
        })
        (record {
          objects = objects_of (F.holds files.new) (S.written out.new) (F.faults files.new) (S.faults out.new);
          err = E.written err.new;
          err_faults = E.faults err.new;
        })
        result }
{
    let ending = carry_out(alloc, command, files, out);
    conclude(ending, err)
}
