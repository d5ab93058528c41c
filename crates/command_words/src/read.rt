//! From words to a command.

ghost use Rattle.std.specs.Prelude.{◌≡◌, map, string_bytes, option_map, None, Some, IfOk, IsErrOf};
ghost use Rattle.clap.specs.Matches.{found_of, first_value};
ghost use Rattle.command_words.specs.Words as words;
ghost use Rattle.command_words.specs.Words.{command_of};
ghost use Rattle.command_words.specs.Found as found;
ghost use Rattle.command_words.specs.Seen.{command_seen, flags_seen};
ghost use Rattle.command_words.specs.declared.name.Verb.TheVariants.{Run, Exec, Sim, Build};
ghost use Rattle.command_words.specs.declared.command.WordsError.TheVariants.{NoCommand};

use crate::command::{Command, Flags, Generated, WordsError};
use crate::found::find;
use crate::name::Verb;
use crate::number::number_or;
use clap::ArgMatches;
use decimal_number::number_between;
use std::alloc::{AllocError, Global};

/// The one operand, or the first of two, as a text of its own.
fn first(alloc: Global, matches: &ArgMatches<'_>) -> Result<String, WordsError>
    ensures first { IfOk result (λ first. found.first_found (found_of matches.now) ≡ Some (string_bytes first)) }
    ensures no_command { IsErrOf result NoCommand → found.first_found (found_of matches.now) ≡ None }
{
    match matches.get_str("FIRST") {
        Some(first) => Ok(String::from_str(alloc, first)?),
        None => Err(WordsError::NoCommand),
    }
}

/// Both operands.
fn both<'a>(matches: &ArgMatches<'a>) -> Option<(&'a str, &'a str)>
    ensures { option_map (λ two. (two.0.now, two.1.now)) result ≡ found.both_found (found_of matches.now) }
{
    let one = matches.get_str("FIRST")?;
    let two = matches.get_str("SECOND")?;
    Some((one, two))
}

/// The number and the size of a generated program.
fn numbers(matches: &ArgMatches<'_>) -> Option<Generated>
    ensures { option_map (λ program. (program.number, program.size)) result ≡ words.numbers_in (found.both_found (found_of matches.now)) }
{
    let (number, size) = both(matches)?;
    let number = number_between(number.as_bytes(), 0, 4_294_967_295)?;
    let size = number_between(size.as_bytes(), 1, 4096)?;
    Some(Generated { number, size })
}

/// Whether the flag is there.
fn is_set(matches: &ArgMatches<'_>, name: &str) -> bool
    ensures { result ≡ found.is_true (first_value (found_of matches.now) name.now) }
{
    match matches.get_str(name) {
        Some(text) => text == "true",
        None => false,
    }
}

/// A text of its own, where there is one.
fn owned(alloc: Global, text: Option<&str>) -> Result<Option<String>, AllocError>
    ensures { IfOk result (λ owned. option_map string_bytes owned ≡ option_map (λ t. t.now) text.entry) }
{
    match text {
        None => Ok(None),
        Some(text) => Ok(Some(String::from_str(alloc, text)?)),
    }
}

/// The options of a run.
fn flags(alloc: Global, matches: &ArgMatches<'_>) -> Result<Flags, WordsError>
    ensures flags { IfOk result (λ flags. found.flags_found (found_of matches.now) ≡ Some (flags_seen flags)) }
    ensures no_command { IsErrOf result NoCommand → found.flags_found (found_of matches.now) ≡ None }
{
    let Some(workers) = number_or(matches.get_str("workers"), 4, 0, 32) else {
        return Err(WordsError::NoCommand);
    };
    let Some(fuel) = number_or(matches.get_str("fuel"), 1_000_000, 1, 4_294_967_295) else {
        return Err(WordsError::NoCommand);
    };
    let Some(frames) = number_or(matches.get_str("frames"), 64, 2, 4096) else {
        return Err(WordsError::NoCommand);
    };
    Ok(Flags {
        workers: workers as u8,
        fuel,
        frames,
        script: owned(alloc, matches.get_str("script"))?,
        log: owned(alloc, matches.get_str("log"))?,
        report: is_set(matches, "report"),
        steps: is_set(matches, "steps"),
    })
}

/// The run of a program.
fn run(alloc: Global, matches: &ArgMatches<'_>) -> Result<Command, WordsError>
    ensures command { IfOk result (λ command. found.command_found Run (found_of matches.now) ≡ Some (command_seen command)) }
    ensures no_command { IsErrOf result NoCommand → found.command_found Run (found_of matches.now) ≡ None }
{
    let file = first(alloc, matches)?;
    let flags = flags(alloc, matches)?;
    Ok(Command::Run { file, flags })
}

/// The run of a module.
fn exec(alloc: Global, matches: &ArgMatches<'_>) -> Result<Command, WordsError>
    ensures command { IfOk result (λ command. found.command_found Exec (found_of matches.now) ≡ Some (command_seen command)) }
    ensures no_command { IsErrOf result NoCommand → found.command_found Exec (found_of matches.now) ≡ None }
{
    let module = first(alloc, matches)?;
    let flags = flags(alloc, matches)?;
    Ok(Command::Exec { module, flags })
}

/// The run of a program over a list of events.
fn sim(alloc: Global, matches: &ArgMatches<'_>) -> Result<Command, WordsError>
    ensures command { IfOk result (λ command. found.command_found Sim (found_of matches.now) ≡ Some (command_seen command)) }
    ensures no_command { IsErrOf result NoCommand → found.command_found Sim (found_of matches.now) ≡ None }
{
    let Some((file, events)) = both(matches) else {
        return Err(WordsError::NoCommand);
    };
    Ok(Command::Sim {
        file: String::from_str(alloc, file)?,
        events: String::from_str(alloc, events)?,
        log: owned(alloc, matches.get_str("log"))?,
    })
}

/// The writing of a module.
fn build(alloc: Global, matches: &ArgMatches<'_>) -> Result<Command, WordsError>
    ensures command { IfOk result (λ command. found.command_found Build (found_of matches.now) ≡ Some (command_seen command)) }
    ensures no_command { IsErrOf result NoCommand → found.command_found Build (found_of matches.now) ≡ None }
{
    let Some((file, module)) = both(matches) else {
        return Err(WordsError::NoCommand);
    };
    Ok(Command::Build {
        file: String::from_str(alloc, file)?,
        module: String::from_str(alloc, module)?,
    })
}

/// The command of this name, from what was found behind it.
fn command_found(alloc: Global, verb: Verb, matches: &ArgMatches<'_>) -> Result<Command, WordsError>
    ensures command { IfOk result (λ command. found.command_found verb (found_of matches.now) ≡ Some (command_seen command)) }
    ensures no_command { IsErrOf result NoCommand → found.command_found verb (found_of matches.now) ≡ None }
{
    match verb {
        Verb::Check => Ok(Command::Check {
            file: first(alloc, matches)?,
        }),
        Verb::Eval => Ok(Command::Eval {
            file: first(alloc, matches)?,
        }),
        Verb::Run => run(alloc, matches),
        Verb::Sim => sim(alloc, matches),
        Verb::Build => build(alloc, matches),
        Verb::Exec => exec(alloc, matches),
        Verb::Gen => match numbers(matches) {
            Some(program) => Ok(Command::Gen(program)),
            None => Err(WordsError::NoCommand),
        },
        Verb::Selfrun => match numbers(matches) {
            Some(program) => Ok(Command::Selfrun(program)),
            None => Err(WordsError::NoCommand),
        },
    }
}

/// The command that the words give. They come without the program's own name.
pub fn read_words(alloc: Global, words: &[String]) -> Result<Command, WordsError>
    ensures command { IfOk result (λ command. command_of (map string_bytes words.now) ≡ Some (command_seen command)) }
    ensures no_command { IsErrOf result NoCommand → command_of (map string_bytes words.now) ≡ None }
{
    let [name, rest @ ..] = words else {
        return Err(WordsError::NoCommand);
    };
    let Some(verb) = Verb::named(name.as_str()) else {
        return Err(WordsError::NoCommand);
    };
    let matches = find(alloc, verb, rest)?;
    command_found(alloc, verb, &matches)
}
