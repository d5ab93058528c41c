//! The command line of which `clap` reads the words behind a command's name.

ghost use Rattle.std.specs.Prelude.{◌≡◌, IfOk, false, fold};
ghost use Rattle.command_words.specs.declared.name.Verb.TheVariants.{Check, Run, Build};
ghost use Rattle.clap.specs.Walk.{rule_of};
ghost use Rattle.clap.specs.Simple.{app_of, with_rule};
ghost use Rattle.command_words.specs.Line as line;

use crate::name::{Setting, Verb};
use clap::{Arg, ArgAction, Command};
use std::alloc::{AllocError, Global};

/// An operand, which must be there.
fn operand<'a>(alloc: Global, id: &'a str) -> Arg<'a>
    ensures rule { rule_of result ≡ line.operand_rule id.entry.now }
    ensures local { result.global ≡ false }
{
    Arg::new(alloc, id).action(ArgAction::Set).required(true)
}

/// An option or a flag, which may come once.
fn argument(alloc: Global, setting: Setting) -> Arg<'static>
    ensures rule { rule_of result ≡ line.setting_rule setting }
    ensures local { result.global ≡ false }
{
    let name = setting.name();
    let argument = Arg::new(alloc, name).long(name);
    if setting.has_value() {
        argument.action(ArgAction::Set)
    } else {
        argument.action(ArgAction::SetTrue)
    }
}

/// The command line with one more option or flag.
fn with_setting<'a>(
    command: Command<'a>,
    alloc: Global,
    setting: Setting,
) -> Result<Command<'a>, AllocError>
    ensures { IfOk result (λ more. app_of more ≡ with_rule (app_of command.entry) (line.setting_rule setting)) }
{
    command.arg(argument(alloc, setting))
}

/// The command line with the options and flags of a run.
fn with_run_settings<'a>(command: Command<'a>, alloc: Global) -> Result<Command<'a>, AllocError>
    ensures { IfOk result (λ more. app_of more ≡ fold (λ app setting. with_rule app (line.setting_rule setting)) (app_of command.entry)
        (line.settings_of Run)) }
{
    let command = with_setting(command, alloc, Setting::Workers)?;
    let command = with_setting(command, alloc, Setting::Fuel)?;
    let command = with_setting(command, alloc, Setting::Frames)?;
    let command = with_setting(command, alloc, Setting::Script)?;
    let command = with_setting(command, alloc, Setting::Log)?;
    let command = with_setting(command, alloc, Setting::Report)?;
    with_setting(command, alloc, Setting::Steps)
}

/// The command line with one operand and nothing else.
fn with_one<'a>(alloc: Global) -> Result<Command<'a>, AllocError>
    ensures { IfOk result (λ command. app_of command ≡ line.line_of Check) }
{
    Command::new(alloc, "calypso")
        .no_binary_name(true)
        .disable_help_flag(true)
        .arg(operand(alloc, "FIRST"))
}

/// The command line with two operands and nothing else.
fn with_two<'a>(alloc: Global) -> Result<Command<'a>, AllocError>
    ensures { IfOk result (λ command. app_of command ≡ line.line_of Build) }
{
    let command = with_one(alloc)?;
    command.arg(operand(alloc, "SECOND"))
}

/// The command line behind the name of the command.
pub(crate) fn line_of<'a>(alloc: Global, verb: Verb) -> Result<Command<'a>, AllocError>
    ensures { IfOk result (λ command. app_of command ≡ line.line_of verb) }
{
    match verb {
        Verb::Check | Verb::Eval => with_one(alloc),
        Verb::Run | Verb::Exec => {
            let command = with_one(alloc)?;
            with_run_settings(command, alloc)
        }
        Verb::Sim => {
            let command = with_two(alloc)?;
            with_setting(command, alloc, Setting::Log)
        }
        Verb::Build | Verb::Gen | Verb::Selfrun => with_two(alloc),
    }
}
