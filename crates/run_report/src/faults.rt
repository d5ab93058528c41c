//! Lines in pieces, and the line of a fault.

ghost use Rattle.std.specs.Prelude.{◌≡◌, map, OnOk, OnErr};
ghost use Rattle.std.specs.List.{concat};
ghost use Rattle.std.specs.Io.KnownBytes.{Appends};
ghost use Rattle.cal_base.specs.Causes.{HasCause};
ghost use Rattle.cal_base.specs.Contents.{AppendsPrefix};
ghost use Rattle.cal_base.specs.Text as text;
ghost use Rattle.cal_base.specs.declared.ends.RunEnd.TheVariants.{MainFault, StepFailed};
ghost use Rattle.cal_base.specs.declared.ends.StepFault.TheVariants.{Trap, Conflict, Total};

use cal_base::{Cause, Failed, RunEnd, Sink, StepFault, write_all};
use itoa::Buffer;

/// Writes the pieces, one after another. Where the sink fails, a front of them was written.
pub fn write_pieces<S: Sink>(sink: &mut S, pieces: &[&[u8]]) -> Result<(), Failed>
    ensures ok { OnOk result (Appends (S.written sink.old) (S.written sink.new) (concat (map (λ piece. piece.now) pieces.now))) }
    ensures err { OnErr result (AppendsPrefix (S.written sink.old) (S.written sink.new) (concat (map (λ piece. piece.now) pieces.now))) }
    ensures cause { HasCause (S.faults sink.old) (S.faults sink.new) result }
{
    for piece in pieces {
        write_all(sink, piece)?;
    }
    Ok(())
}

/// The words for a cause.
fn cause_text(cause: Cause) -> &'static str
    ensures { result.now ≡ text.cause_text cause }
{
    match cause {
        Cause::Overflow => "overflow",
        Cause::DivisionByZero => "division by zero",
        Cause::OutOfRange => "index out of range",
        Cause::Assertion => "assertion failed",
        Cause::TooDeep => "too deep",
        Cause::BadWidth => "bad width",
        Cause::FuelSpent => "fuel spent",
    }
}

/// Writes the line of a trap in a routine.
fn write_trap<S: Sink>(sink: &mut S, step: u64, routine: u32, cause: Cause) -> Result<(), Failed>
    ensures ok { OnOk result (Appends (S.written sink.old) (S.written sink.new) (text.fault_line (StepFailed step (Trap routine cause)))) }
    ensures err { OnErr result (AppendsPrefix (S.written sink.old) (S.written sink.new)
        (text.fault_line (StepFailed step (Trap routine cause)))) }
    ensures cause { HasCause (S.faults sink.old) (S.faults sink.new) result }
{
    let mut step_text = Buffer::new();
    let mut routine_text = Buffer::new();
    let pieces: [&[u8]; 7] = [
        b"fault: step ",
        step_text.format(step).as_bytes(),
        b", routine ",
        routine_text.format(routine).as_bytes(),
        b": ",
        cause_text(cause).as_bytes(),
        b"\n",
    ];
    write_pieces(sink, &pieces)
}

/// Writes the line of a word that two routines wrote.
fn write_conflict<S: Sink>(
    sink: &mut S,
    step: u64,
    routine: u32,
    word: u32,
    other: u32,
) -> Result<(), Failed>
    ensures ok { OnOk result (Appends (S.written sink.old) (S.written sink.new)
        (text.fault_line (StepFailed step (Conflict routine word other)))) }
    ensures err { OnErr result (AppendsPrefix (S.written sink.old) (S.written sink.new)
        (text.fault_line (StepFailed step (Conflict routine word other)))) }
    ensures cause { HasCause (S.faults sink.old) (S.faults sink.new) result }
{
    let mut step_text = Buffer::new();
    let mut routine_text = Buffer::new();
    let mut word_text = Buffer::new();
    let mut other_text = Buffer::new();
    let pieces: [&[u8]; 9] = [
        b"fault: step ",
        step_text.format(step).as_bytes(),
        b", routine ",
        routine_text.format(routine).as_bytes(),
        b": word ",
        word_text.format(word).as_bytes(),
        b" also written by routine ",
        other_text.format(other).as_bytes(),
        b"\n",
    ];
    write_pieces(sink, &pieces)
}

/// Writes the line of a total that does not fit 64 bits.
fn write_total<S: Sink>(sink: &mut S, step: u64, word: u32) -> Result<(), Failed>
    ensures ok { OnOk result (Appends (S.written sink.old) (S.written sink.new) (text.fault_line (StepFailed step (Total word)))) }
    ensures err { OnErr result (AppendsPrefix (S.written sink.old) (S.written sink.new) (text.fault_line (StepFailed step (Total word)))) }
    ensures cause { HasCause (S.faults sink.old) (S.faults sink.new) result }
{
    let mut step_text = Buffer::new();
    let mut word_text = Buffer::new();
    let pieces: [&[u8]; 5] = [
        b"fault: step ",
        step_text.format(step).as_bytes(),
        b": total at word ",
        word_text.format(word).as_bytes(),
        b"\n",
    ];
    write_pieces(sink, &pieces)
}

/// Writes the line of a fault in main.
fn write_main_fault<S: Sink>(sink: &mut S, after: u64, cause: Cause) -> Result<(), Failed>
    ensures ok { OnOk result (Appends (S.written sink.old) (S.written sink.new) (text.fault_line (MainFault after cause))) }
    ensures err { OnErr result (AppendsPrefix (S.written sink.old) (S.written sink.new) (text.fault_line (MainFault after cause))) }
    ensures cause { HasCause (S.faults sink.old) (S.faults sink.new) result }
{
    let mut after_text = Buffer::new();
    let pieces: [&[u8]; 5] = [
        b"fault: after step ",
        after_text.format(after).as_bytes(),
        b": ",
        cause_text(cause).as_bytes(),
        b"\n",
    ];
    write_pieces(sink, &pieces)
}

/// Writes the line of the fault that a run ended in, and nothing where it is done (`docs/MESSAGES.md`). Where the stream fails, a front
/// of it was written.
pub fn fault_line<S: Sink>(sink: &mut S, ending: RunEnd) -> Result<(), Failed>
    ensures ok { OnOk result (Appends (S.written sink.old) (S.written sink.new) (text.fault_line ending)) }
    ensures err { OnErr result (AppendsPrefix (S.written sink.old) (S.written sink.new) (text.fault_line ending)) }
    ensures cause { HasCause (S.faults sink.old) (S.faults sink.new) result }
{
    match ending {
        RunEnd::Done { .. } => Ok(()),
        RunEnd::MainFault { after, cause } => write_main_fault(sink, after, cause),
        RunEnd::StepFailed { step, fault } => match fault {
            StepFault::Trap { routine, cause } => write_trap(sink, step, routine, cause),
            StepFault::Conflict {
                routine,
                word,
                other,
            } => write_conflict(sink, step, routine, word, other),
            StepFault::Total { word } => write_total(sink, step, word),
        },
    }
}
