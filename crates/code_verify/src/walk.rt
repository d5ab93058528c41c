//! Walks through a code in order and finds the kinds with which each instruction is taken.

ghost use Rattle.std.specs.Prelude.{◌≡◌, ◌+◌, ◌^◌, ◌<◌, ◌↔◌, IsTrue, IsSome, length, IfOk};
ghost use Rattle.code_verify.specs.Walk as spec_walk;
ghost use Rattle.code_verify.specs.Walk.{Changes};

use crate::effect::after;
use crate::kinds::Kinds;
use bytecode::{Code, Instr, Module};
use cal_terms::NoMemory;
use std::alloc::Global;

/// How many operands a code has at most.
const MOST_OPERANDS: u32 = 1024;

/// Whether the kinds that the instruction leaves fit wherever it leads.
fn goes_on(kinds: &mut Kinds, place: usize, instr: &Instr) -> bool
    requires { place + 1 < 2 ^ 64 }
    ensures { Changes result kinds.new.known (spec_walk.goes_on instr.now place kinds.old.hand kinds.old.known) }
{
    match instr {
        Instr::Jump(to) => kinds.expect(*to as usize),
        Instr::Branch(to) => {
            if !kinds.expect(*to as usize) {
                return false;
            }
            kinds.expect(place + 1)
        }
        Instr::Loop(to) => kinds.are_at(*to as usize),
        Instr::Return => kinds.is_empty(),
        _ => kinds.expect(place + 1),
    }
}

/// Whether the instruction finds what it pops, and what it leaves fits.
fn walk_at(
    kinds: &mut Kinds,
    m: &Module,
    c: &Code,
    place: usize,
    instr: &Instr,
) -> Result<bool, NoMemory>
    requires within { place < length kinds.old.known }
    requires next { place + 1 < 2 ^ 64 }
    ensures { IfOk result (λ yes. Changes yes kinds.new.known (spec_walk.walk_at m.now c.now place instr.now kinds.old.known)) }
{
    kinds.open(place);
    if kinds.len() > MOST_OPERANDS {
        return Ok(false);
    }
    if !after(kinds, m, c, instr)? {
        return Ok(false);
    }
    Ok(goes_on(kinds, place, instr))
}

/// Whether each instruction is taken with one list of kinds and finds what it pops.
pub fn kinds_fit(alloc: Global, m: &Module, c: &Code) -> Result<bool, NoMemory>
    ensures { IfOk result (λ yes. IsTrue yes ↔ IsSome (spec_walk.walk m.now c.now 0 c.now.instrs (spec_walk.unknown (length c.now.instrs)))) }
{
    let mut kinds = Kinds::new(alloc, c.instrs.len())?;
    let mut place = 0;
    while let Some(instr) = c.instrs.get(place) {
        if !walk_at(&mut kinds, m, c, place, instr)? {
            return Ok(false);
        }
        place += 1;
    }
    Ok(true)
}
