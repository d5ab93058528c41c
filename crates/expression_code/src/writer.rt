//! Code as it is written.

ghost use Rattle.std.specs.Prelude.{◌≡◌, ◌+◌, ◌<◌, IfOk, get_or, length};
ghost use Rattle.expression_code.specs.Counts.{IsSmall};

use crate::scope::Scope;
use bytecode::Instr;
use cal_terms::NoMemory;
use sqlite_items::Items;

/// The code of a body so far, its locals, and the numbers of the next text and of the next routine block of main.
/// Beside them the sizes that were measured for the body, in the order in which they are asked for, and how many were asked for so far.
#[derive(Drop)]
pub struct Writer {
    pub instrs: Items<Instr>,
    pub scope: Scope,
    pub text: u32,
    pub block: u32,
    pub sizes: Items<u32>,
    pub asked: usize,
}

/// The next of the measured sizes.
pub fn next_size(w: &mut Writer) -> u32
    requires { w.old.asked < length w.old.sizes }
    ensures size { result ≡ get_or w.old.sizes w.old.asked 0 }
    ensures others { w.new ≡ record w.old { asked = w.old.asked + 1 } }
{
    let size = w.sizes.as_slice()[w.asked];
    w.asked += 1;
    size
}

/// A sum that has 32 bits.
pub fn sum(a: u32, b: u32) -> u32
    requires { IsSmall (a + b) }
    ensures { result ≡ a + b }
{
    a + b
}

/// How long a list is that has fewer than 2^32 entries.
pub fn length_of(n: usize) -> u32
    requires { IsSmall n }
    ensures { result ≡ n }
{
    n as u32
}
