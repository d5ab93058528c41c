//! Shared declarations.

ghost use Rattle.std.specs.Prelude.{◌≡◌, ◌≤◌, map, OnOk};
ghost use Rattle.type_check.specs.Words.{AreSized, total_words};
ghost use Rattle.type_check.specs.Faults as faults;
ghost use Rattle.type_check.specs.Noted.{noted};

use crate::fault::CheckKind;
use crate::found::Found;
use crate::names::Declaration;
use crate::table::Table;
use cal_terms::limits::MOST_WORDS;
use cal_terms::{NoMemory, WordKind};
use csl_tree::program::{ArraySize, Shared, Valued};

/// A size, and 0 for one that is negative or too large.
fn good_size(number: i64) -> u32
    ensures value { result ≡ faults.good_size number }
    ensures small { result ≤ faults.most_words }
{
    if 0 <= number && number <= i64::from(MOST_WORDS) {
        number as u32
    } else {
        0
    }
}

/// How many words a declaration takes.
fn words_of(size: &Option<ArraySize>) -> u32
    ensures value { result ≡ faults.words_of size.now }
    ensures small { result ≤ faults.most_words }
{
    match size {
        None => 1,
        Some(size) => good_size(size.number),
    }
}

/// Notes a size that is 0 or too large.
fn note_size(found: &mut Found, size: &Option<ArraySize>)
    ensures { found.new ≡ noted found.old (faults.size_faults size.now) }
{
    match size {
        None => {}
        Some(size) => found.note_if(good_size(size.number) == 0, CheckKind::Limit, size.at),
    }
}

/// Notes an initial value past the size.
fn note_values(found: &mut Found, size: &Option<ArraySize>, values: &[Valued])
    ensures { found.new ≡ noted found.old (faults.value_faults size.now (map (λ v. v.at) values.now)) }
{
    match size {
        None => {}
        Some(size) => {
            let number = if size.number < 0 {
                0
            } else {
                size.number as usize
            };
            match values.get(number) {
                None => {}
                Some(value) => found.note(CheckKind::Limit, value.at),
            }
        }
    }
}

/// What a shared name stands for.
fn stands_for(size: &Option<ArraySize>, kind: WordKind) -> Declaration
    ensures { result ≡ faults.stands_for size.now kind }
{
    match (size, kind) {
        (Some(_), _) => Declaration::Array,
        (None, WordKind::Ordinary) => Declaration::Word,
        (None, WordKind::Tally) => Declaration::Tally,
    }
}

/// Notes the faults of shared declarations, and declares them.
pub fn check_shared(
    found: &mut Found,
    globals: &mut Table,
    shared: &[Shared],
) -> Result<(), NoMemory>
    ensures found { OnOk result (found.new ≡ noted found.old (faults.shared_faults globals.old shared.now)) }
    ensures names { OnOk result (globals.new ≡ faults.with_shared globals.old shared.now) }
{
    for s in shared {
        let taken = globals.get(&s.name).is_some();
        found.note_if(taken, CheckKind::NameTaken, s.name.at);
        note_size(found, &s.size);
        note_values(found, &s.size, s.values.as_slice());
        globals.declare(&s.name, stands_for(&s.size, s.kind))?;
    }
    Ok(())
}

/// Notes the first declaration with which there are too many words.
pub fn check_words(found: &mut Found, shared: &[Shared])
    ensures { found.new ≡ noted found.old (faults.word_faults 0 shared.now) }
{
    let mut total: u32 = 0;
    for s in shared {
        total += words_of(&s.size);
        if total > MOST_WORDS {
            found.note(CheckKind::Limit, s.name.at);
            return;
        }
    }
}

/// How many words shared declarations take in all, where none stands at a limit.
pub(crate) fn count_words(shared: &[Shared]) -> u32
    requires sized { AreSized shared.now }
    requires few { total_words shared.now ≤ faults.most_words }
    ensures { result ≡ total_words shared.now }
{
    let mut total: u32 = 0;
    for s in shared {
        total += words_of(&s.size);
    }
    total
}
