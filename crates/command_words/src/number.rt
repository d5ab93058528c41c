//! Numbers among the words.

ghost use Rattle.std.specs.Prelude.{◌≡◌, ◌≤◌, IfSome, option_map};
ghost use Rattle.command_words.specs.Words as words;

use decimal_number::number_between;

/// The number that an option's value is, or the usual one where the option is not there.
pub(crate) fn number_or(text: Option<&str>, usual: u32, least: u32, most: u32) -> Option<u32>
    requires low { least ≤ usual }
    requires high { usual ≤ most }
    ensures number { result ≡ words.number_or usual least most (option_map (λ t. t.now) text.entry) }
    ensures least { IfSome result (λ n. least ≤ n) }
    ensures most { IfSome result (λ n. n ≤ most) }
{
    match text {
        None => Some(usual),
        Some(text) => number_between(text.as_bytes(), least, most),
    }
}
