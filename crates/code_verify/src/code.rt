//! The rules on one code.

ghost use Rattle.std.specs.Prelude.{◌≡◌, ◌↔◌, IsTrue, IfOk};
ghost use Rattle.bytecode.specs.Spelling.{AreAscending};
ghost use Rattle.code_verify.specs.Tests.{IsCode, BeginsWithInts, IsQuietBlock};

use crate::owner::Owner;
use crate::range::has_shape;
use crate::standing::instructions_fit;
use crate::uses::some_uses;
use crate::walk::kinds_fit;
use bytecode::{Code, Module, Ty};
use cal_terms::NoMemory;
use sqlite_items::Items;
use std::alloc::Global;

/// Whether the code of this owner keeps all rules, tally words aside that a block uses.
pub fn is_code(alloc: Global, m: &Module, owner: Owner, c: &Code) -> Result<bool, NoMemory>
    requires ascending { AreAscending m.now.tallies }
    ensures { IfOk result (λ yes. IsTrue yes ↔ IsCode m.now owner c.now) }
{
    if !has_shape(c) {
        return Ok(false);
    }
    if !instructions_fit(m, owner, c) {
        return Ok(false);
    }
    kinds_fit(alloc, m, c)
}

/// Whether the first two locals of the code are ints.
fn begins_with_ints(c: &Code) -> bool
    ensures { IsTrue result ↔ BeginsWithInts c.now }
{
    match c.locals.as_slice() {
        [Ty::Int, Ty::Int, ..] => true,
        _ => false,
    }
}

/// Whether the code is that of a routine block, where the list says which functions read or set a tally word.
pub fn is_quiet_block(
    alloc: Global,
    m: &Module,
    uses: &Items<bool>,
    c: &Code,
) -> Result<bool, NoMemory>
    requires ascending { AreAscending m.now.tallies }
    ensures { IfOk result (λ yes. IsTrue yes ↔ IsQuietBlock m.now uses.now c.now) }
{
    if !begins_with_ints(c) {
        return Ok(false);
    }
    if some_uses(m, uses, c) {
        return Ok(false);
    }
    is_code(alloc, m, Owner::Block, c)
}
