//! How a call ends: its status and the line that tells of it.

ghost use Rattle.std.specs.Prelude.{◌≡◌, ◌≤◌, ◌++◌, [], codes, OnOk, OnErr};
ghost use Rattle.std.specs.Io.KnownBytes.{Appends};
ghost use Rattle.cal_base.specs.Causes.{HasCause};
ghost use Rattle.cal_base.specs.Contents.{AppendsPrefix};
ghost use Rattle.calypso_cli.specs.Commands.{ended};
ghost use Rattle.cal_base.specs.Text.{line};
ghost use Rattle.calypso_cli.specs.Endings.{refused, events_refused, status_of, err_text};
ghost use Rattle.calypso_cli.specs.Promise.{Gets};
ghost use Rattle.calypso_cli.specs.Seen.{ending_seen, report_seen};

use cal_base::{Failed, RunEnd, Sink, WorkerTally, write_all};
use csl_reader::Refusal;
use itoa::Buffer;
use run_report::{fault_line, report_lines, write_pieces};
use sqlite_items::Items;

/// How a call ends. The table of statuses is in `docs/RUNTIME.md`.
#[derive(Clone, Copy, Debug)]
pub enum Ending<'a> {
    /// The run is done, or the text or file is written.
    Done,
    /// The words give no command.
    NoCommand,
    /// The file of this name could not be loaded.
    CannotLoad(&'a str),
    /// The file of this name could not be created or appended to.
    CannotWrite(&'a str),
    /// The program's text is refused, by what stands at this place of it.
    Refused { at: u32, why: Refusal },
    /// The run ends in this fault, which is never `Done`.
    Fault(RunEnd),
    /// Memory was wanted and not there.
    NoMemory,
    /// The output failed.
    OutputFailed,
    /// The bytes are no script.
    ScriptRefused,
    /// This line, counted from 1, is the first that is no event.
    EventsRefused(u32),
    /// The file of this name is longer than its limit.
    TooLong(&'a str),
    /// The bytes are no verified module.
    ModuleRefused,
}

/// Writes the line of a refused text.
fn write_refusal<E: Sink>(err: &mut E, at: u32, why: Refusal) -> Result<(), Failed>
    ensures ok { OnOk result (Appends (E.written err.old) (E.written err.new) (err_text (refused at why))) }
    ensures err { OnErr result (AppendsPrefix (E.written err.old) (E.written err.new) (err_text (refused at why))) }
    ensures cause { HasCause (E.faults err.old) (E.faults err.new) result }
{
    let mut place = Buffer::new();
    let pieces: [&[u8]; 5] = [
        b"refused: at ",
        place.format(at).as_bytes(),
        b": ",
        why.words().as_bytes(),
        b"\n",
    ];
    write_pieces(err, &pieces)
}

/// Writes the line of refused events.
fn write_events_line<E: Sink>(err: &mut E, number: u32) -> Result<(), Failed>
    ensures ok { OnOk result (Appends (E.written err.old) (E.written err.new) (err_text (events_refused number))) }
    ensures err { OnErr result (AppendsPrefix (E.written err.old) (E.written err.new) (err_text (events_refused number))) }
    ensures cause { HasCause (E.faults err.old) (E.faults err.new) result }
{
    let mut place = Buffer::new();
    let pieces: [&[u8]; 3] = [
        b"events refused: line ",
        place.format(number).as_bytes(),
        b"\n",
    ];
    write_pieces(err, &pieces)
}

/// Writes a line about a file.
fn write_file_line<E: Sink>(err: &mut E, name: &str, what: &[u8]) -> Result<(), Failed>
    ensures ok { OnOk result (Appends (E.written err.old) (E.written err.new) (line (codes "file " ++ name.now ++ what.now))) }
    ensures err { OnErr result (AppendsPrefix (E.written err.old) (E.written err.new) (line (codes "file " ++ name.now ++ what.now))) }
    ensures cause { HasCause (E.faults err.old) (E.faults err.new) result }
{
    let pieces: [&[u8]; 4] = [b"file ", name.as_bytes(), what, b"\n"];
    write_pieces(err, &pieces)
}

impl<'a> Ending<'a> {
    /// How a call ends with the run of a program.
    pub(crate) fn of_run(end: RunEnd) -> Ending<'a>
        ensures { ending_seen result ≡ ended end }
    {
        match end {
            RunEnd::Done { .. } => Ending::Done,
            RunEnd::MainFault { .. } | RunEnd::StepFailed { .. } => Ending::Fault(end),
        }
    }

    /// The status of the process.
    pub fn status(&self) -> u8
        ensures { result ≡ status_of (ending_seen self.now) }
    {
        match self {
            Ending::Done => 0,
            Ending::NoCommand => 2,
            Ending::CannotLoad(_) | Ending::CannotWrite(_) => 3,
            Ending::Refused { .. } => 4,
            Ending::Fault(_) => 5,
            Ending::NoMemory => 6,
            Ending::OutputFailed => 7,
            Ending::ScriptRefused | Ending::EventsRefused(_) => 8,
            Ending::TooLong(_) => 9,
            Ending::ModuleRefused => 10,
        }
    }

    /// Writes the line that tells of it.
    pub fn write<E: Sink>(&self, err: &mut E) -> Result<(), Failed>
        ensures ok { OnOk result (Appends (E.written err.old) (E.written err.new) (err_text (ending_seen self.now))) }
        ensures err { OnErr result (AppendsPrefix (E.written err.old) (E.written err.new) (err_text (ending_seen self.now))) }
        ensures cause { HasCause (E.faults err.old) (E.faults err.new) result }
    {
        match self {
            Ending::Done => Ok(()),
            Ending::NoCommand => write_all(err, b"no command\n"),
            Ending::CannotLoad(name) | Ending::CannotWrite(name) => {
                write_file_line(err, name, b": cannot be used")
            }
            Ending::Refused { at, why } => write_refusal(err, *at, *why),
            Ending::Fault(end) => fault_line(err, *end),
            Ending::NoMemory => write_all(err, b"out of memory\n"),
            Ending::OutputFailed => write_all(err, b"output failed\n"),
            Ending::ScriptRefused => write_all(err, b"script refused\n"),
            Ending::EventsRefused(line) => write_events_line(err, *line),
            Ending::TooLong(name) => write_file_line(err, name, b": too long"),
            Ending::ModuleRefused => write_all(err, b"module refused\n"),
        }
    }
}

/// How a call ends that ran a program, and what its workers and the caller did, where that is to be reported.
#[derive(Drop)]
pub(crate) struct Ended<'a> {
    pub ending: Ending<'a>,
    pub report: Option<Items<WorkerTally>>,
}

impl<'a> Ended<'a> {
    /// An ending with no report.
    pub(crate) fn of(ending: Ending<'a>) -> Ended<'a>
        ensures ending { result.ending ≡ ending.entry }
        ensures report { report_seen result.report ≡ [] }
    {
        Ended {
            ending,
            report: None,
        }
    }

    /// Writes the line that tells of the ending, and the report behind it.
    fn write<E: Sink>(&self, err: &mut E) -> Result<(), Failed>
        ensures ok { OnOk result (Appends (E.written err.old) (E.written err.new)
            (err_text (ending_seen self.now.ending) ++ report_seen self.now.report)) }
        ensures err { OnErr result (AppendsPrefix (E.written err.old) (E.written err.new)
            (err_text (ending_seen self.now.ending) ++ report_seen self.now.report)) }
        ensures cause { HasCause (E.faults err.old) (E.faults err.new) result }
    {
        self.ending.write(err)?;
        match &self.report {
            None => Ok(()),
            Some(tallies) => report_lines(err, tallies.as_slice()),
        }
    }
}

/// Tells of the ending and what is reported, and answers the ending's status.
pub(crate) fn conclude_run<E: Sink>(ended: Ended<'_>, err: &mut E) -> u8
    ensures status { result ≡ status_of (ending_seen ended.entry.ending) }
    ensures line { Gets (E.written err.old) (E.written err.new) (E.faults err.old) (E.faults err.new)
        (err_text (ending_seen ended.entry.ending) ++ report_seen ended.entry.report) }
    ensures later { E.faults err.old ≤ E.faults err.new }
{
    let _ = ended.write(err);
    ended.ending.status()
}

/// Tells of the ending, and answers its status.
pub(crate) fn conclude<E: Sink>(ending: Ending<'_>, err: &mut E) -> u8
    ensures status { result ≡ status_of (ending_seen ending.entry) }
    ensures line { Gets (E.written err.old) (E.written err.new) (E.faults err.old) (E.faults err.new) (err_text (ending_seen ending.entry)) }
    ensures later { E.faults err.old ≤ E.faults err.new }
{
    let _ = ending.write(err);
    ending.status()
}
