//! The shared words of a module.

ghost use Rattle.std.specs.Prelude.{◌≡◌, ◌+◌, ◌++◌, ◌∷◌, [], if◌then◌else◌, pos, OnOk, IfOk, length};
ghost use Rattle.std.specs.Ordering.{int_eq};
ghost use Rattle.csl_meaning.specs.Layout.{words_in, first_words, first_memory};
ghost use Rattle.compiled_code.specs.Modules.{tallies_from, initial_from};
ghost use Rattle.expression_code.specs.Counts.{IsSmall};

use cal_terms::{NoMemory, WordKind};
use csl_tree::program::Shared;
use expression_code::names::items_in;
use expression_code::writer::{length_of, sum};
use sqlite_items::Items;

/// Appends the addresses of a declaration's words, if they are tally words. Its words begin at `first`.
fn push_tallies(
    tallies: &mut Items<u32>,
    shared: &Shared,
    first: u32,
    count: u32,
) -> Result<(), NoMemory>
    requires count { count ≡ words_in shared.now }
    requires small { IsSmall (first + count) }
    ensures { OnOk result (tallies.new ≡ tallies.old ++ tallies_from first (first_words shared.now)) }
{
    match shared.kind {
        WordKind::Ordinary => {}
        WordKind::Tally => {
            for i in 0..count {
                tallies.push(sum(first, i))?;
            }
        }
    }
    Ok(())
}

/// Appends the word at this address, if it does not begin at 0.
fn push_word(initial: &mut Items<(u32, i64)>, address: u32, value: i64) -> Result<(), NoMemory>
    ensures { OnOk result (initial.new ≡ initial.old ++ (if int_eq value (pos 0) then [] else (address, value) ∷ [])) }
{
    if value != 0 {
        initial.push((address, value))?;
    }
    Ok(())
}

/// Appends the words of a declaration that do not begin at 0. Its words begin at `first`.
fn push_initial(
    initial: &mut Items<(u32, i64)>,
    shared: &Shared,
    first: u32,
    count: u32,
) -> Result<(), NoMemory>
    requires count { count ≡ words_in shared.now }
    requires small { IsSmall (first + count) }
    ensures { OnOk result (initial.new ≡ initial.old ++ initial_from first (first_words shared.now)) }
{
    for (i, value) in shared.values.as_slice().iter().enumerate() {
        if i >= count as usize {
            return Ok(());
        }
        push_word(initial, sum(first, length_of(i)), value.number)?;
    }
    Ok(())
}

/// Appends the tally words of all declarations, and their words that do not begin at 0. Answers how many words there are: fewer than 2^32.
pub fn push_words(
    tallies: &mut Items<u32>,
    initial: &mut Items<(u32, i64)>,
    all: &[Shared],
) -> Result<u32, NoMemory>
    requires { IsSmall (length (first_memory all.now)) }
    ensures tallies { OnOk result (tallies.new ≡ tallies.old ++ tallies_from 0 (first_memory all.now)) }
    ensures initial { OnOk result (initial.new ≡ initial.old ++ initial_from 0 (first_memory all.now)) }
    ensures count { IfOk result (λ n. n ≡ length (first_memory all.now)) }
{
    let mut first = 0u32;
    for shared in all {
        let count = items_in(&shared.size).unwrap_or(1);
        push_tallies(tallies, shared, first, count)?;
        push_initial(initial, shared, first, count)?;
        first = sum(first, count);
    }
    Ok(first)
}
