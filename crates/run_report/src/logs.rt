//! The log of a step.

ghost use Rattle.std.specs.Prelude.{◌≡◌, ◌≤◌, ◌+◌, OnOk, OnErr};
ghost use Rattle.arrayvec.specs.ArrayString.{array_string_len};
ghost use Rattle.cal_base.specs.Causes.{HasCause};
ghost use Rattle.cal_base.specs.Contents.{Told, AppendsTo, AppendsPrefixTo, StaysTrue};
ghost use Rattle.run_report.specs.Logs.{entry_line, head_line, step_log, verdict_text};
ghost use Rattle.cal_base.specs.declared.step.Entry.TheVariants.{Claim, Arrive};
ghost use Rattle.run_report.specs.Lines.{Adds};

use crate::lines::{LINE, ROOM, make_room_for_file, push_number, push_who};
use arrayvec::ArrayString;
use cal_base::{Entry, Failed, Files, Verdict, append_all};

/// The word for a verdict.
fn verdict_word(verdict: Verdict) -> &'static str
    ensures { result.now ≡ verdict_text verdict }
{
    match verdict {
        Verdict::First => "first",
        Verdict::Again => "again",
        Verdict::Stale => "stale",
        Verdict::Unasked => "unasked",
        Verdict::Full => "full",
    }
}

/// Adds the line before a step's entries.
fn push_head(lines: &mut ArrayString<ROOM>, step: u64, n: u32)
    requires { array_string_len lines.old + LINE ≤ ROOM }
    ensures { Adds LINE lines.old lines.new (head_line step n) }
{
    lines.push_str("step ");
    push_number(lines, step);
    lines.push_str(" of ");
    push_number(lines, u64::from(n));
    lines.push_str("\n");
}

/// Adds the line of a claim.
fn push_claim(lines: &mut ArrayString<ROOM>, who: u8, k: u32)
    requires { array_string_len lines.old + LINE ≤ ROOM }
    ensures { Adds LINE lines.old lines.new (entry_line (Claim who k)) }
{
    lines.push_str("claim ");
    push_who(lines, who);
    lines.push_str(" ");
    push_number(lines, u64::from(k));
    lines.push_str("\n");
}

/// Adds the line of an arrival.
fn push_arrival(lines: &mut ArrayString<ROOM>, who: u8, step: u64, k: u32, verdict: Verdict)
    requires { array_string_len lines.old + LINE ≤ ROOM }
    ensures { Adds LINE lines.old lines.new (entry_line (Arrive who step k verdict)) }
{
    lines.push_str("arrive ");
    push_who(lines, who);
    lines.push_str(" ");
    push_number(lines, step);
    lines.push_str(" ");
    push_number(lines, u64::from(k));
    lines.push_str(" ");
    lines.push_str(verdict_word(verdict));
    lines.push_str("\n");
}

/// Adds the line of an entry.
fn push_entry(lines: &mut ArrayString<ROOM>, entry: &Entry)
    requires { array_string_len lines.old + LINE ≤ ROOM }
    ensures { Adds LINE lines.old lines.new (entry_line entry.now) }
{
    match *entry {
        Entry::Claim { who, k } => push_claim(lines, who, k),
        Entry::Arrive {
            who,
            step,
            k,
            verdict,
        } => push_arrival(lines, who, step, k, verdict),
    }
}

/// Adds the log of a step to the end of a file that was created: a line with the step's number, from 1, and its number of routines,
/// and then a line for each entry of its history (`docs/RUNTIME.md`, "Logs and reports"). Where the file fails, a front of them was added.
pub fn log_lines<F: Files>(
    files: &mut F,
    name: &str,
    step: u64,
    n: u32,
    history: &[Entry],
) -> Result<(), Failed>
    requires { F.created files.old name.now }
    ensures ok { OnOk result (Told (F.holds files.old) (F.holds files.new)
        (AppendsTo name.now (step_log (record { number = step; size = n; history = history.now })))) }
    ensures err { OnErr result (Told (F.holds files.old) (F.holds files.new)
        (AppendsPrefixTo name.now (step_log (record { number = step; size = n; history = history.now })))) }
    ensures created { StaysTrue (F.created files.old) (F.created files.new) }
    ensures cause { HasCause (F.faults files.old) (F.faults files.new) result }
{
    let mut lines = ArrayString::<ROOM>::new();
    push_head(&mut lines, step, n);
    for entry in history {
        make_room_for_file(files, name, &mut lines)?;
        push_entry(&mut lines, entry);
    }
    append_all(files, name, lines.as_str().as_bytes())
}
