//! The log of a run.

ghost use Rattle.std.specs.Prelude.{◌≡◌, ◌≤◌, IfOk, IfErr, IfSome, IsSome, option_map, string_bytes};
ghost use Rattle.cal_base.specs.Contents.{Told};
ghost use Rattle.calypso_engine.specs.declared.error.RunError.TheVariants as engine;
ghost use Rattle.calypso_cli.specs.Steps.{EmptiesLog, NotCreated, GivesUp};
ghost use Rattle.calypso_cli.specs.Seen.{ending_seen};

use crate::Ending;
use cal_base::Files;
use calypso_engine::RunError;

/// The name of the log, where one is asked for.
pub(crate) fn log_name(log: &Option<String>) -> Option<&str>
    ensures { option_map (λ name. name.now) result ≡ option_map string_bytes log.now }
{
    match log {
        Some(name) => Some(name.as_str()),
        None => None,
    }
}

/// Creates the log, where one is named.
pub(crate) fn create_log<'a, F: Files>(
    files: &mut F,
    log: Option<&'a str>,
) -> Result<(), Ending<'a>>
    requires { IfSome log (λ name. F.may_write name.now) }
    ensures ok { IfOk result (λ _. Told (F.holds files.old) (F.holds files.new) (EmptiesLog (option_map (λ name. name.now) log.entry))) }
    ensures created { IfOk result (λ _. IfSome log.entry (λ name. F.created files.new name.now)) }
    ensures err { IfErr result (λ ending. NotCreated (option_map (λ name. name.now) log.entry) (F.holds files.old) (F.holds files.new)
        (F.faults files.old) (F.faults files.new) (ending_seen ending)) }
    ensures later { F.faults files.old ≤ F.faults files.new }
{
    let Some(name) = log else {
        return Ok(());
    };
    match files.create(name) {
        Ok(()) => Ok(()),
        Err(_) => Err(Ending::CannotWrite(name)),
    }
}

/// How the call ends where the run gives up.
pub(crate) fn given_up<'a>(error: RunError, log: Option<&'a str>) -> Ending<'a>
    requires { error ≡ engine.FileFailed → IsSome log }
    ensures { GivesUp error (option_map (λ name. name.now) log.entry) (ending_seen result) }
{
    match error {
        RunError::OutFailed => Ending::OutputFailed,
        RunError::NoMemory => Ending::NoMemory,
        RunError::FileFailed => match log {
            Some(name) => Ending::CannotWrite(name),
            None => unreachable!(),
        },
    }
}
