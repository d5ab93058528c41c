//! The first memory of a program.

ghost use Rattle.std.specs.Prelude.{◌≡◌, ◌≤◌, ◌++◌, IfOk, OnOk};
ghost use Rattle.csl_meaning.specs.Layout as layout;
ghost use Rattle.statement_eval.specs.Fits.{FitsMemory};
ghost use Rattle.tree_eval.specs.Initial.{stated_value};

use cal_base::{NoMemory, Word};
use cal_terms::limits::MOST_WORDS;
use csl_tree::program::{Shared, Valued};
use sqlite_items::Items;
use statement_eval::names::items_in;
use std::alloc::Global;

/// The stated value at this place, and else 0.
fn stated(values: &[Valued], at: u32) -> i64
    ensures { result ≡ stated_value values.now at }
{
    match values.get(at as usize) {
        Some(value) => value.number,
        None => 0,
    }
}

/// How many words a declaration takes, by how many items its array has.
fn word_count(items: Option<u32>) -> u32
    ensures { result ≡ layout.word_count items }
{
    match items {
        None => 1,
        Some(count) => count,
    }
}

/// Appends the first words of one declaration.
fn add_words(shared: &Shared, memory: &mut Items<Word>) -> Result<(), NoMemory>
    requires { layout.words_in shared.now ≤ MOST_WORDS }
    ensures { OnOk result (memory.new ≡ memory.old ++ layout.first_words shared.now) }
{
    let kind = shared.kind;
    let count = word_count(items_in(&shared.size));
    for at in 0..count {
        let value = stated(shared.values.as_slice(), at);
        memory.push(Word { kind, value })?;
    }
    Ok(())
}

/// The words of all declarations in their order, with their stated values, and else 0.
pub fn first_memory(alloc: Global, shared: &[Shared]) -> Result<Items<Word>, NoMemory>
    requires { FitsMemory shared.now }
    ensures { IfOk result (λ memory. memory ≡ layout.first_memory shared.now) }
{
    let mut memory = Items::new(alloc);
    for one in shared {
        add_words(one, &mut memory)?;
    }
    Ok(memory)
}
