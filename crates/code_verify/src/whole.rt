//! Whether a module keeps all rules.

ghost use Rattle.std.specs.Prelude.{◌≡◌, ◌↔◌, ◌≤◌, IsTrue, IfOk, MatchResult, length};
ghost use Rattle.std.specs.List.{AllByRecursion};
ghost use Rattle.bytecode.specs.Spelling.{AreAscending};
ghost use Rattle.code_verify.specs.Rules.{IsWord, IsVerified};
ghost use Rattle.code_verify.specs.Tests.{Each, IsCode, IsQuietBlock, HasParts};
ghost use Rattle.code_verify.specs.declared.owner.Owner.TheVariants.{Function, Main};
ghost use Rattle.code_verify.specs.declared.verified.VerifyError.TheVariants as error;

use crate::code::{is_code, is_quiet_block};
use crate::owner::Owner;
use crate::uses::uses_of;
use crate::verified::{Verified, VerifyError};
use bytecode::{Module, has_spelling};
use cal_terms::NoMemory;
use cal_terms::limits::MOST_WORDS;
use sqlite_items::Items;
use std::alloc::Global;

const MOST_FUNCTIONS: usize = 256;

/// Whether these are all words of the module.
fn are_words(m: &Module, words: &[u32]) -> bool
    ensures { IsTrue result ↔ AllByRecursion (λ a. IsWord m.now a) words.now }
{
    let mut rest = words;
    while let Some((word, others)) = rest.split_first() {
        if *word >= m.words {
            return false;
        }
        rest = others;
    }
    true
}

/// Whether these values are all of words of the module.
fn are_of_words(m: &Module, entries: &[(u32, i64)]) -> bool
    ensures { IsTrue result ↔ AllByRecursion (λ e. IsWord m.now e.0) entries.now }
{
    let mut rest = entries;
    while let Some((entry, others)) = rest.split_first() {
        if entry.0 >= m.words {
            return false;
        }
        rest = others;
    }
    true
}

/// Whether the parts of the module but its codes keep the rules.
fn has_parts(m: &Module) -> bool
    ensures { IsTrue result ↔ HasParts m.now }
{
    if m.words > MOST_WORDS || m.functions.len() > MOST_FUNCTIONS {
        return false;
    }
    if !are_words(m, m.tallies.as_slice()) {
        return false;
    }
    if !are_of_words(m, m.initial.as_slice()) {
        return false;
    }
    has_spelling(m)
}

/// Whether the code of each function keeps all rules.
fn functions_fit(alloc: Global, m: &Module) -> Result<bool, NoMemory>
    requires few { length m.now.functions ≤ 256 }
    requires ascending { AreAscending m.now.tallies }
    ensures { IfOk result (λ yes. IsTrue yes ↔ Each (λ f c. IsCode m.now (Function f) c) m.now.functions) }
{
    let mut number: u32 = 0;
    while let Some(function) = m.functions.get(number as usize) {
        if !is_code(alloc, m, Owner::Function(number), function)? {
            return Ok(false);
        }
        number += 1;
    }
    Ok(true)
}

/// Whether the code of each block keeps all rules, where the list says which functions read or set a tally word.
fn blocks_fit(alloc: Global, m: &Module, uses: &Items<bool>) -> Result<bool, NoMemory>
    requires ascending { AreAscending m.now.tallies }
    ensures { IfOk result (λ yes. IsTrue yes ↔ Each (λ b c. IsQuietBlock m.now uses.now c) m.now.blocks) }
{
    for block in m.blocks.as_slice() {
        if !is_quiet_block(alloc, m, uses, block)? {
            return Ok(false);
        }
    }
    Ok(true)
}

/// Whether the module keeps all rules.
fn is_verified(alloc: Global, m: &Module) -> Result<bool, NoMemory>
    ensures { IfOk result (λ yes. IsTrue yes ↔ IsVerified m.now) }
{
    if !has_parts(m) {
        return Ok(false);
    }
    if !functions_fit(alloc, m)? {
        return Ok(false);
    }
    if !is_code(alloc, m, Owner::Main, &m.main)? {
        return Ok(false);
    }
    let uses = uses_of(alloc, m)?;
    blocks_fit(alloc, m, &uses)
}

/// The module as a verified one, where it keeps all rules.
pub fn verify(alloc: Global, m: Module) -> Result<Verified, VerifyError>
    ensures kept { IfOk result (λ v. v ≡ m) }
    ensures keeps_rules { IfOk result (λ v. IsVerified m) }
    ensures only { IsVerified m → MatchResult result (λ v. v ≡ m) (λ e. e ≡ error.NoMemory) }
{
    if is_verified(alloc, &m)? {
        Ok(Verified::of(m))
    } else {
        Err(VerifyError::Refused)
    }
}
