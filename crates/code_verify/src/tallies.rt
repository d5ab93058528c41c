//! Tally words among the words.

ghost use Rattle.std.specs.Prelude.{◌≡◌, ◌↔◌, ◌+◌, ◌<◌, ◌≤◌, IsTrue};
ghost use Rattle.bytecode.specs.Spelling.{AreAscending};
ghost use Rattle.code_verify.specs.Rules.{HoldsNoTally, IsTally};
ghost use Rattle.code_verify.specs.Tests.{HoldsTally};

use bytecode::Module;
use sqlite_items::at;

/// Whether the word is among this many words from the first on.
fn is_within(word: u32, first: u32, count: u32) -> bool
    ensures { IsTrue result ↔ ((first ≤ word) × (word < first + count)) }
{
    first <= word && u64::from(word) < u64::from(first) + u64::from(count)
}

/// Whether one of the tally words, which ascend, is among this many words from the first on.
fn holds_tally(tallies: &[u32], first: u32, count: u32) -> bool
    requires { AreAscending tallies.now }
    ensures { IsTrue result ↔ HoldsTally tallies.now first count }
{
    match tallies.binary_search(&first) {
        Ok(_) => count >= 1,
        Err(place) => match at(tallies, place) {
            None => false,
            Some(next) => is_within(*next, first, count),
        },
    }
}

/// Whether none of the module's tally words is among this many words from the first on.
pub fn holds_no_tally(m: &Module, first: u32, count: u32) -> bool
    requires ascending { AreAscending m.now.tallies }
    ensures { IsTrue result ↔ HoldsNoTally m.now first count }
{
    !holds_tally(m.tallies.as_slice(), first, count)
}

/// Whether the word is a tally word of the module.
pub fn is_tally(m: &Module, word: u32) -> bool
    requires ascending { AreAscending m.now.tallies }
    ensures { IsTrue result ↔ IsTally m.now word }
{
    holds_tally(m.tallies.as_slice(), word, 1)
}
