//! `exec`: the run of the module in a file.

ghost use Rattle.std.specs.Prelude.{◌≤◌, ℕ, List};
ghost use Rattle.command_words.specs.Commands.{exec};
ghost use Rattle.command_words.specs.Seen.{flags_seen};
ghost use Rattle.calypso_cli.specs.Commands.{IsLoaded, IsWritten};
ghost use Rattle.calypso_cli.specs.Promise.{objects_of, Works};
ghost use Rattle.calypso_cli.specs.Seen.{ending_seen, report_seen};

use crate::ending::Ended;
use crate::execute::execute;
use crate::load::{load_module, load_script};
use cal_base::{Files, Gate, Sink};
use command_words::Flags;
use std::alloc::Global;
use std::sync::Wait;
use std::thread::Threads;

/// Runs the module in a file.
pub(crate) fn exec_file<'a, R: Threads + Wait + Sync, F: Files, S: Sink, G: Gate>(
    rt: &R,
    alloc: Global,
    file: &'a str,
    flags: &'a Flags,
    files: &mut F,
    out: &mut S,
    gate: &G,
) -> Ended<'a>
    requires load { (name : List ℕ) → IsLoaded (exec file.now (flags_seen flags.now)) name → F.may_load name }
    requires write { (name : List ℕ) → IsWritten (exec file.now (flags_seen flags.now)) name → F.may_write name }
    ensures works { Works (exec file.now (flags_seen flags.now))
        (objects_of (F.holds files.old) (S.written out.old) (F.faults files.old) (S.faults out.old))
        (objects_of (F.holds files.new) (S.written out.new) (F.faults files.new) (S.faults out.new))
        (ending_seen result.ending) (report_seen result.report) }
    ensures files_later { F.faults files.old ≤ F.faults files.new }
    ensures out_later { S.faults out.old ≤ S.faults out.new }
{
    let code = match load_module(alloc, files, file) {
        Ok(code) => code,
        Err(ending) => return Ended::of(ending),
    };
    match load_script(alloc, files, flags) {
        Ok(script) => execute(rt, alloc, &code, flags, &script, files, out, gate),
        Err(ending) => Ended::of(ending),
    }
}
