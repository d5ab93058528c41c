//! The report of a run.

ghost use Rattle.std.specs.Prelude.{◌≡◌, ◌≤◌, ◌+◌, OnOk, OnErr};
ghost use Rattle.std.specs.Io.KnownBytes.{Appends};
ghost use Rattle.arrayvec.specs.ArrayString.{array_string_len};
ghost use Rattle.cal_base.specs.Causes.{HasCause};
ghost use Rattle.cal_base.specs.Contents.{AppendsPrefix};
ghost use Rattle.run_report.specs.Reports.{yes_or_no, worker_line, caller_line, tally_line, report_text};
ghost use Rattle.run_report.specs.Lines.{Adds};

use crate::lines::{LINE, ROOM, make_room, push_count};
use arrayvec::ArrayString;
use cal_base::{CALLER, Failed, Sink, WorkerTally, write_all};

/// Whether something is so, as a word.
fn yes_word(yes: bool) -> &'static str
    ensures { result.now ≡ yes_or_no yes }
{
    if yes { "yes" } else { "no" }
}

/// Adds the line of a worker.
fn push_worker(lines: &mut ArrayString<ROOM>, tally: &WorkerTally)
    requires { array_string_len lines.old + LINE ≤ ROOM }
    ensures { Adds LINE lines.old lines.new (worker_line tally.now) }
{
    push_count(lines, "worker ", u64::from(tally.who));
    push_count(lines, ": claims ", tally.claims);
    push_count(lines, " executed ", tally.executed);
    push_count(lines, " lost ", tally.lost);
    push_count(lines, " repeated ", tally.repeated);
    push_count(lines, " held ", tally.held);
    lines.push_str(" stopped ");
    lines.push_str(yes_word(tally.stopped));
    push_count(lines, " pages ", tally.pages);
    lines.push_str("\n");
}

/// Adds the line of the caller.
fn push_caller(lines: &mut ArrayString<ROOM>, tally: &WorkerTally)
    requires { array_string_len lines.old + LINE ≤ ROOM }
    ensures { Adds LINE lines.old lines.new (caller_line tally.now) }
{
    push_count(lines, "caller: claims ", tally.claims);
    push_count(lines, " executed ", tally.executed);
    push_count(lines, " pages ", tally.pages);
    lines.push_str("\n");
}

/// Adds the line of a tally.
fn push_tally(lines: &mut ArrayString<ROOM>, tally: &WorkerTally)
    requires { array_string_len lines.old + LINE ≤ ROOM }
    ensures { Adds LINE lines.old lines.new (tally_line tally.now) }
{
    if tally.who == CALLER {
        push_caller(lines, tally);
    } else {
        push_worker(lines, tally);
    }
}

/// Writes the report: a line for each tally, in their order, workers first and the caller last. Where the stream fails, a front of
/// it was written.
pub fn report_lines<E: Sink>(err: &mut E, tallies: &[WorkerTally]) -> Result<(), Failed>
    ensures ok { OnOk result (Appends (E.written err.old) (E.written err.new) (report_text tallies.now)) }
    ensures err { OnErr result (AppendsPrefix (E.written err.old) (E.written err.new) (report_text tallies.now)) }
    ensures cause { HasCause (E.faults err.old) (E.faults err.new) result }
{
    let mut lines = ArrayString::<ROOM>::new();
    for tally in tallies {
        make_room(err, &mut lines)?;
        push_tally(&mut lines, tally);
    }
    write_all(err, lines.as_str().as_bytes())
}
