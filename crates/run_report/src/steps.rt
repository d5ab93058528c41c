//! The lines of a completed step.

ghost use Rattle.std.specs.Prelude.{◌≡◌, ◌≤◌, ◌<◌, ◌+◌, ℕ, length, codes, OnOk, OnErr, ◌++◌};
ghost use Rattle.std.specs.Fmt.{decimal, signed_decimal};
ghost use Rattle.std.specs.Io.KnownBytes.{Appends};
ghost use Rattle.arrayvec.specs.ArrayString.{array_string_len};
ghost use Rattle.cal_base.specs.Causes.{HasCause};
ghost use Rattle.cal_base.specs.Contents.{AppendsPrefix};
ghost use Rattle.cal_base.specs.Memory.{value_at};
ghost use Rattle.cal_base.specs.Text as text;
ghost use Rattle.run_report.specs.Lines.{Adds, Moves, change_line};

use crate::lines::{LINE, ROOM, make_room, push_number, push_signed};
use arrayvec::ArrayString;
use cal_base::{Failed, Image, Sink, write_all};

/// Adds the line before the words of a step.
fn push_head(lines: &mut ArrayString<ROOM>, step: u64)
    requires { array_string_len lines.old + LINE ≤ ROOM }
    ensures { Adds LINE lines.old lines.new (text.line (codes "step " ++ decimal step)) }
{
    lines.push_str("step ");
    push_number(lines, step);
    lines.push_str("\n");
}

/// Adds the line of a word and its value.
fn push_word(lines: &mut ArrayString<ROOM>, a: u32, value: i64)
    requires { array_string_len lines.old + LINE ≤ ROOM }
    ensures { Adds LINE lines.old lines.new (text.line (codes "word " ++ decimal a ++ codes " = " ++ signed_decimal value)) }
{
    lines.push_str("word ");
    push_number(lines, u64::from(a));
    lines.push_str(" = ");
    push_signed(lines, value);
    lines.push_str("\n");
}

/// Adds the line of a word where its value changed, behind the lines that wait.
fn push_values<S: Sink>(
    out: &mut S,
    lines: &mut ArrayString<ROOM>,
    a: u32,
    before: i64,
    after: i64,
) -> Result<(), Failed>
    ensures ok { OnOk result (Moves (Appends (S.written out.old) (S.written out.new)) (lines.old.bytes ++ change_line a before after)
        lines.new.bytes) }
    ensures err { OnErr result (AppendsPrefix (S.written out.old) (S.written out.new) lines.old.bytes) }
    ensures cause { HasCause (S.faults out.old) (S.faults out.new) result }
{
    if before == after {
        return Ok(());
    }
    make_room(out, lines)?;
    push_word(lines, a, after);
    Ok(())
}

/// The same of the word at an address of both memories.
fn push_change<S: Sink>(
    out: &mut S,
    lines: &mut ArrayString<ROOM>,
    a: u32,
    before: &Image,
    after: &Image,
) -> Result<(), Failed>
    requires before { a < length before.now.memory }
    requires after { a < length after.now.memory }
    ensures ok { OnOk result (Moves (Appends (S.written out.old) (S.written out.new))
        (lines.old.bytes ++ change_line a (value_at before.now.memory a) (value_at after.now.memory a)) lines.new.bytes) }
    ensures err { OnErr result (AppendsPrefix (S.written out.old) (S.written out.new) lines.old.bytes) }
    ensures cause { HasCause (S.faults out.old) (S.faults out.new) result }
{
    let old = before.word(a);
    let new = after.word(a);
    push_values(out, lines, a, old, new)
}

/// Writes the lines of a completed step: its number, from 1, and each word whose value changed, addresses ascending. Where the
/// stream fails, a front of them was written.
pub fn step_lines<S: Sink>(
    out: &mut S,
    step: u64,
    before: &Image,
    after: &Image,
) -> Result<(), Failed>
    requires { length before.now.memory ≡ length after.now.memory }
    ensures ok { OnOk result (Appends (S.written out.old) (S.written out.new) (text.step_lines step before.now.memory after.now.memory)) }
    ensures err { OnErr result (AppendsPrefix (S.written out.old) (S.written out.new)
        (text.step_lines step before.now.memory after.now.memory)) }
    ensures cause { HasCause (S.faults out.old) (S.faults out.new) result }
{
    let mut lines = ArrayString::<ROOM>::new();
    push_head(&mut lines, step);
    for a in 0..before.len() {
        push_change(out, &mut lines, a, before, after)?;
    }
    write_all(out, lines.as_str().as_bytes())
}
