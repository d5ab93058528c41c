//! The words behind a command's name, read by `clap`.

ghost use Rattle.std.specs.Prelude.{◌≡◌, map, string_bytes, Some, None, IfOk, IsErrOf};
ghost use Rattle.std.specs.List.{list_all};
ghost use Rattle.clap.specs.Matches.{found_of};
ghost use Rattle.command_words.specs.Words as words;
ghost use Rattle.command_words.specs.Line as line;
ghost use Rattle.command_words.specs.Found.{command_found};
ghost use Rattle.command_words.specs.declared.command.WordsError.TheVariants.{NoCommand};

use crate::command::WordsError;
use crate::line::line_of;
use crate::name::Verb;
use clap::ArgMatches;
use clap::error::ErrorKind;
use std::alloc::Global;

/// Whether the word can be an operand or a value: it is not empty and does not begin with a dash.
fn is_plain(word: &str) -> bool
    ensures { result ≡ words.is_plain word.now }
{
    match word.as_bytes() {
        [] => false,
        [first, ..] => *first != b'-',
    }
}

/// Whether the word begins with two dashes and goes on.
fn is_named(word: &str) -> bool
    ensures { result ≡ line.is_named word.now }
{
    match word.as_bytes() {
        [first, second, _, ..] => *first == b'-' && *second == b'-',
        _ => false,
    }
}

/// Whether the word has no value behind `=` that can't be one.
fn has_plain_value(word: &str) -> bool
    ensures { result ≡ line.has_plain_value word.now }
{
    match word.split_once('=') {
        Some((_, value)) => is_plain(value),
        None => true,
    }
}

/// Whether `clap` may read the word: it would take `-`, `--` and `--log=-l`.
fn is_readable(word: &str) -> bool
    ensures { result ≡ line.is_readable word.now }
{
    is_plain(word) || (is_named(word) && has_plain_value(word))
}

/// Whether `clap` may read each word.
fn are_readable(list: &[String]) -> bool
    ensures { result ≡ list_all line.is_readable (map string_bytes list.now) }
{
    for word in list {
        if !is_readable(word.as_str()) {
            return false;
        }
    }
    true
}

/// Why `clap` read nothing.
fn refusal(kind: ErrorKind) -> WordsError
    ensures { result ≡ NoCommand → kind ≡ ErrorKind.OutOfMemory → ⊥ }
{
    match kind {
        ErrorKind::OutOfMemory => WordsError::NoMemory,
        _ => WordsError::NoCommand,
    }
}

/// What `clap` finds in the words behind the name of the command.
pub(crate) fn find<'a>(
    alloc: Global,
    verb: Verb,
    list: &'a [String],
) -> Result<ArgMatches<'a>, WordsError>
    ensures found { IfOk result (λ matches. words.command_behind (Some verb) (map string_bytes list.entry.now) ≡ command_found verb
        (found_of matches)) }
    ensures no_command { IsErrOf result NoCommand → words.command_behind (Some verb) (map string_bytes list.entry.now) ≡ None }
{
    if !are_readable(list) {
        return Err(WordsError::NoCommand);
    }
    let command = line_of(alloc, verb)?;
    match command.try_get_matches_from(list) {
        Ok(matches) => Ok(matches),
        Err(error) => Err(refusal(error.kind())),
    }
}
