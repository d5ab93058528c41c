//! Where instructions may stand.

ghost use Rattle.std.specs.Prelude.{◌≡◌, ◌↔◌, IsTrue};
ghost use Rattle.bytecode.specs.Spelling.{AreAscending};
ghost use Rattle.code_verify.specs.Rules.{IsPlainArray, IsNotMains, CallsNoLater, MayStandInMain};
ghost use Rattle.code_verify.specs.Tests.{MayStandIn, KeepsRules, Each};

use crate::owner::Owner;
use crate::range::{is_ahead, is_in_range};
use crate::tallies::holds_no_tally;
use bytecode::{Code, Instr, Module};

/// How many items a line has at most, and how many blocks a step has.
const MOST_ITEMS: usize = 64;

const MOST_BLOCKS: u32 = 64;

/// Whether the array of the instruction, if it has one, holds no tally word.
fn is_plain_array(m: &Module, instr: &Instr) -> bool
    requires ascending { AreAscending m.now.tallies }
    ensures { IsTrue result ↔ IsPlainArray m.now instr.now }
{
    match instr {
        Instr::Item(first, count) | Instr::SetItem(first, count) | Instr::AddItem(first, count) =>
            holds_no_tally(m, *first, *count),
        _ => true,
    }
}

/// Whether the instruction may stand elsewhere than in main.
fn is_not_mains(instr: &Instr) -> bool
    ensures { IsTrue result ↔ IsNotMains instr.now }
{
    match instr {
        Instr::Print(_) | Instr::Par(_, _) => false,
        _ => true,
    }
}

/// Whether the instruction, in the function of this number, calls no later one.
fn calls_no_later(number: u32, instr: &Instr) -> bool
    ensures { IsTrue result ↔ CallsNoLater number instr.now }
{
    match instr {
        Instr::Call(called) => *called <= number,
        _ => true,
    }
}

/// Whether the instruction may stand in main.
fn may_stand_in_main(m: &Module, instr: &Instr) -> bool
    ensures { IsTrue result ↔ MayStandInMain m.now instr.now }
{
    match instr {
        Instr::Print(items) => items.len() <= MOST_ITEMS,
        Instr::Par(first, count) => {
            *count >= 1
                && *count <= MOST_BLOCKS
                && u64::from(*first) + u64::from(*count) <= m.blocks.len() as u64
        }
        _ => true,
    }
}

/// Whether the instruction may stand in the code of this owner, tally words aside that a block uses.
fn may_stand_in(m: &Module, owner: Owner, instr: &Instr) -> bool
    ensures { IsTrue result ↔ MayStandIn m.now owner instr.now }
{
    match owner {
        Owner::Function(number) => is_not_mains(instr) && calls_no_later(number, instr),
        Owner::Block => is_not_mains(instr),
        Owner::Main => may_stand_in_main(m, instr),
    }
}

/// Whether the instruction keeps the rules that need no kinds.
fn keeps_rules(m: &Module, owner: Owner, c: &Code, place: usize, instr: &Instr) -> bool
    requires ascending { AreAscending m.now.tallies }
    ensures { IsTrue result ↔ KeepsRules m.now owner c.now place instr.now }
{
    if !is_in_range(m, c, instr) || !is_ahead(place, instr) {
        return false;
    }
    if !is_plain_array(m, instr) {
        return false;
    }
    may_stand_in(m, owner, instr)
}

/// Whether all instructions of the code keep the rules that need no kinds.
pub fn instructions_fit(m: &Module, owner: Owner, c: &Code) -> bool
    requires ascending { AreAscending m.now.tallies }
    ensures { IsTrue result ↔ Each (KeepsRules m.now owner c.now) c.now.instrs }
{
    for (place, instr) in c.instrs.as_slice().iter().enumerate() {
        if !keeps_rules(m, owner, c, place, instr) {
            return false;
        }
    }
    true
}
