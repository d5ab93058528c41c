//! Which functions read or set a tally word, themselves or through their calls.

ghost use Rattle.std.specs.Prelude.{◌≡◌, ◌↔◌, ◌≤◌, ◌<◌, ℕ, IsTrue, IfOk, Some, slice_get, length};
ghost use Rattle.bytecode.specs.Spelling.{AreAscending};
ghost use Rattle.bytecode.specs.declared.module.Code.{Code};
ghost use Rattle.code_verify.specs.Tests.{UsesBy, SomeUses, CallBackwards, TellsUses};

use crate::tallies::is_tally;
use bytecode::{Code, Instr, Module};
use cal_terms::NoMemory;
use sqlite_items::Items;
use std::alloc::Global;

/// Whether the instruction reads or sets a tally word, or calls a function that is said to do so.
fn uses_by(m: &Module, uses: &Items<bool>, instr: &Instr) -> bool
    requires ascending { AreAscending m.now.tallies }
    ensures { IsTrue result ↔ UsesBy m.now uses.now instr.now }
{
    match instr {
        Instr::Word(word) => is_tally(m, *word),
        Instr::Put(word) => is_tally(m, *word),
        Instr::Call(function) => match uses.get(*function as usize) {
            Some(used) => *used,
            None => false,
        },
        _ => false,
    }
}

/// Whether an instruction of the code does.
pub fn some_uses(m: &Module, uses: &Items<bool>, c: &Code) -> bool
    requires ascending { AreAscending m.now.tallies }
    ensures { IsTrue result ↔ SomeUses m.now uses.now c.now }
{
    for instr in c.instrs.as_slice() {
        if uses_by(m, uses, instr) {
            return true;
        }
    }
    false
}

/// For each function of the module, whether it reads or sets a tally word itself or through its calls.
pub fn uses_of(alloc: Global, m: &Module) -> Result<Items<bool>, NoMemory>
    requires backwards { CallBackwards m.now }
    requires ascending { AreAscending m.now.tallies }
    ensures { IfOk result (λ uses. TellsUses m.now uses (length m.now.functions)) }
{
    let mut uses = Items::new(alloc);
    while let Some(function) = m.functions.get(uses.len()) {
        let used = some_uses(m, &uses, function);
        uses.push(used)?;
    }
    Ok(uses)
}
