//! What a run tells of a step that was closed.

ghost use Rattle.std.specs.Prelude.{◌≡◌, ◌≤◌, length, IfSome, IsSome, OnOk, OnErr, IsErrOf};
ghost use Rattle.std.specs.Io.KnownBytes.{Appends};
ghost use Rattle.cal_base.specs.Causes.{HasCause, Rose};
ghost use Rattle.cal_base.specs.Contents.{AppendsPrefix, StaysTrue, Told};
ghost use Rattle.cal_base.specs.Memory.{kinds_of};
ghost use Rattle.run_report.specs.Logs.{step_log};
ghost use Rattle.calypso_engine.specs.Asked.{log_of};
ghost use Rattle.calypso_engine.specs.Logs.{Logs, LogsFront};
ghost use Rattle.calypso_engine.specs.Kept.{KeepsCopy, lines_behind, lines_of_end};
ghost use Rattle.calypso_engine.specs.declared.error.RunError.TheVariants as error;

use crate::error::RunError;
use crate::options::RunOptions;
use cal_base::{Failed, Files, Image, Sink};
use run_report::{log_lines, step_lines};
use step_core::Closed;

/// Copies each word.
fn copy_words(from: &Image, to: &mut Image)
    requires { kinds_of to.old.memory ≡ kinds_of from.now.memory }
    ensures { to.new.memory ≡ from.now.memory }
{
    for a in 0..from.len() {
        to.set(a, from.word(a));
    }
}

/// Keeps the words as they are before a step, where there is room for them. It takes no memory.
pub fn keep_words(image: &Image, kept: &mut Option<Image>)
    requires { IfSome kept.old (λ copy. kinds_of copy.memory ≡ kinds_of image.now.memory) }
    ensures { KeepsCopy image.now.memory kept.old kept.new }
{
    match kept {
        None => {}
        Some(copy) => copy_words(image, copy),
    }
}

/// Adds the history of a step to the log, where one is named.
fn log_step<F: Files>(
    options: &RunOptions<'_>,
    step: u64,
    n: u32,
    closed: &Closed,
    files: &mut F,
) -> Result<(), Failed>
    requires { IfSome options.now.log (λ name. F.created files.old name.now) }
    ensures ok { OnOk result (Told (F.holds files.old) (F.holds files.new)
        (Logs (log_of options.now) (step_log (record { number = step; size = n; history = closed.now.history.items })))) }
    ensures err { OnErr result (Told (F.holds files.old) (F.holds files.new)
        (LogsFront (log_of options.now) (step_log (record { number = step; size = n; history = closed.now.history.items })))) }
    ensures created { StaysTrue (F.created files.old) (F.created files.new) }
    ensures named { OnErr result (IsSome options.now.log) }
    ensures cause { HasCause (F.faults files.old) (F.faults files.new) result }
{
    match options.log {
        None => Ok(()),
        Some(name) => log_lines(files, name, step, n, closed.history.as_slice()),
    }
}

/// Shows the words that a step changed, where those before it were kept.
fn show_step<S: Sink>(
    step: u64,
    kept: &Option<Image>,
    image: &Image,
    out: &mut S,
) -> Result<(), Failed>
    requires { IfSome kept.now (λ copy. length copy.memory ≡ length image.now.memory) }
    ensures ok { OnOk result (Appends (S.written out.old) (S.written out.new) (lines_behind kept.now step image.now.memory)) }
    ensures err { OnErr result (AppendsPrefix (S.written out.old) (S.written out.new) (lines_behind kept.now step image.now.memory)) }
    ensures cause { HasCause (S.faults out.old) (S.faults out.new) result }
{
    match kept {
        None => Ok(()),
        Some(before) => step_lines(out, step, before, image),
    }
}

/// Tells of a step of n routines that was closed: its history goes to the log, and then, unless it ended in a fault, the words that it
/// changed to out. It takes no memory. Where it gives up, a front of each was told.
pub fn tell_step<F: Files, S: Sink>(
    options: &RunOptions<'_>,
    step: u64,
    n: u32,
    closed: &Closed,
    kept: &Option<Image>,
    image: &Image,
    files: &mut F,
    out: &mut S,
) -> Result<(), RunError>
    requires created { IfSome options.now.log (λ name. F.created files.old name.now) }
    requires words { IfSome kept.now (λ copy. length copy.memory ≡ length image.now.memory) }
    ensures log { OnOk result (Told (F.holds files.old) (F.holds files.new)
        (Logs (log_of options.now) (step_log (record { number = step; size = n; history = closed.now.history.items })))) }
    ensures out { OnOk result (Appends (S.written out.old) (S.written out.new)
        (lines_of_end closed.now.result kept.now step image.now.memory)) }
    ensures log_front { OnErr result (Told (F.holds files.old) (F.holds files.new)
        (LogsFront (log_of options.now) (step_log (record { number = step; size = n; history = closed.now.history.items })))) }
    ensures out_front { OnErr result (AppendsPrefix (S.written out.old) (S.written out.new)
        (lines_of_end closed.now.result kept.now step image.now.memory)) }
    ensures no_memory { IsErrOf result error.NoMemory → ⊥ }
    ensures created { StaysTrue (F.created files.old) (F.created files.new) }
    ensures files_later { F.faults files.old ≤ F.faults files.new }
    ensures out_later { S.faults out.old ≤ S.faults out.new }
    ensures file_failed { IsErrOf result error.FileFailed → Rose (F.faults files.old) (F.faults files.new) }
    ensures log_failed { IsErrOf result error.FileFailed → IsSome options.now.log }
    ensures out_failed { IsErrOf result error.OutFailed → Rose (S.faults out.old) (S.faults out.new) }
{
    if log_step(options, step, n, closed, files).is_err() {
        return Err(RunError::FileFailed);
    }
    if closed.result.is_err() {
        return Ok(());
    }
    if show_step(step, kept, image, out).is_err() {
        return Err(RunError::OutFailed);
    }
    Ok(())
}
