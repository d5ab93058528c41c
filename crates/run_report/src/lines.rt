//! Lines that wait to be written together.

ghost use Rattle.std.specs.Prelude.{◌≡◌, ◌≤◌, ◌+◌, ◌++◌, OnOk, OnErr, length};
ghost use Rattle.std.specs.Fmt.{decimal, signed_decimal};
ghost use Rattle.std.specs.Io.KnownBytes.{Appends};
ghost use Rattle.arrayvec.specs.ArrayString.{array_string_len};
ghost use Rattle.cal_base.specs.Causes.{HasCause};
ghost use Rattle.cal_base.specs.Contents.{Told, AppendsTo, AppendsPrefixTo, AppendsPrefix, StaysTrue};
ghost use Rattle.run_report.specs.Logs.{who_text};
ghost use Rattle.run_report.specs.Lines.{Adds, Moves};

use arrayvec::ArrayString;
use cal_base::{CALLER, Failed, Files, Sink, append_all, write_all};
use itoa::Buffer;

/// How many bytes wait at most.
pub(crate) const ROOM: usize = 4096;

/// How many bytes a line may have for which room is made.
pub(crate) const LINE: usize = 512;

/// Adds a number in decimal digits.
pub(crate) fn push_number(lines: &mut ArrayString<ROOM>, n: u64)
    requires { array_string_len lines.old + 40 ≤ ROOM }
    ensures { Adds 40 lines.old lines.new (decimal n) }
{
    let mut buffer = Buffer::new();
    lines.push_str(buffer.format(n));
}

/// Adds a number with a sign in decimal digits.
pub(crate) fn push_signed(lines: &mut ArrayString<ROOM>, n: i64)
    requires { array_string_len lines.old + 40 ≤ ROOM }
    ensures { Adds 40 lines.old lines.new (signed_decimal n) }
{
    let mut buffer = Buffer::new();
    lines.push_str(buffer.format(n));
}

/// Adds some words and a number behind them.
pub(crate) fn push_count(lines: &mut ArrayString<ROOM>, words: &str, n: u64)
    requires room { array_string_len lines.old + 60 ≤ ROOM }
    requires short { length words.now ≤ 20 }
    ensures { Adds 60 lines.old lines.new (words.now ++ decimal n) }
{
    lines.push_str(words);
    push_number(lines, n);
}

/// Adds a worker's number, or the word for the caller.
pub(crate) fn push_who(lines: &mut ArrayString<ROOM>, who: u8)
    requires { array_string_len lines.old + 40 ≤ ROOM }
    ensures { Adds 40 lines.old lines.new (who_text who) }
{
    if who == CALLER {
        lines.push_str("caller");
    } else {
        push_number(lines, u64::from(who));
    }
}

/// Makes room for one more line: where there is too little, what waits goes to the end of the file.
pub(crate) fn make_room_for_file<F: Files>(
    files: &mut F,
    name: &str,
    lines: &mut ArrayString<ROOM>,
) -> Result<(), Failed>
    requires { F.created files.old name.now }
    ensures ok { OnOk result (Moves (λ front. Told (F.holds files.old) (F.holds files.new) (AppendsTo name.now front)) lines.old.bytes
        lines.new.bytes) }
    ensures room { OnOk result (array_string_len lines.new + LINE ≤ ROOM) }
    ensures err { OnErr result (Told (F.holds files.old) (F.holds files.new) (AppendsPrefixTo name.now lines.old.bytes)) }
    ensures created { StaysTrue (F.created files.old) (F.created files.new) }
    ensures cause { HasCause (F.faults files.old) (F.faults files.new) result }
{
    if lines.len() > ROOM - LINE {
        append_all(files, name, lines.as_str().as_bytes())?;
        lines.clear();
    }
    Ok(())
}

/// Makes room for one more line: where there is too little, what waits goes to the stream.
pub(crate) fn make_room<S: Sink>(sink: &mut S, lines: &mut ArrayString<ROOM>) -> Result<(), Failed>
    ensures ok { OnOk result (Moves (Appends (S.written sink.old) (S.written sink.new)) lines.old.bytes lines.new.bytes) }
    ensures room { OnOk result (array_string_len lines.new + LINE ≤ ROOM) }
    ensures err { OnErr result (AppendsPrefix (S.written sink.old) (S.written sink.new) lines.old.bytes) }
    ensures cause { HasCause (S.faults sink.old) (S.faults sink.new) result }
{
    if lines.len() > ROOM - LINE {
        write_all(sink, lines.as_str().as_bytes())?;
        lines.clear();
    }
    Ok(())
}
