//! The operands of a call.

ghost use Rattle.std.specs.Prelude.{◌≡◌, ◌≢◌, ◌≤◌, ◌∷◌, [], length, take, drop, reverse, IfOk, IsSome, Some};
ghost use Rattle.machine_meaning.specs.Machine as machine;

use crate::kept::Kept;
use cal_base::NoMemory;
use std::alloc::Global;
use std::marker::Model;

/// How many operands a body has at most, and room for one more.
const ROOM: usize = 1025;

/// The operands of a call, that on top first. All room is taken when they are made.
#[derive(Drop)]
pub struct Operands {
    values: Vec<Kept>,
}

impl Model for Operands {
    ghost use Rattle.std.specs.Prelude.{List, reverse, ◌≤◌};
    ghost use Rattle.std.specs.Vec.{vec_capacity};
    ghost use Rattle.cal_base.specs.declared.value.Val.{Val};

    ghost Value = { List Val };

    ghost view = { λ s. reverse s.values.items };

    ghost invariant = { λ s. 1025 ≤ vec_capacity s.values };
}

impl Operands {
    pub fn make(alloc: Global) -> Result<Operands, NoMemory>
        ensures { IfOk result (λ s. s ≡ []) }
    {
        let values = Vec::with_capacity(alloc, ROOM)?;
        Ok(Operands { values })
    }

    pub fn clear(&mut self)
        ensures { self.new ≡ [] }
    {
        self.values.clear();
    }

    pub fn push(&mut self, v: Kept)
        requires { length self.old ≤ 1024 }
        ensures { self.new ≡ v ∷ self.old }
    {
        match self.values.push(v) {
            Ok(()) => {}
            Err(_) => unreachable!(),
        }
    }

    /// Takes the operand on top.
    pub fn pop(&mut self) -> Kept
        requires { self.old ≢ [] }
        ensures { self.old ≡ result ∷ self.new }
    {
        match self.values.pop() {
            Some(v) => v,
            None => unreachable!(),
        }
    }

    /// Takes the number on top.
    pub fn number(&mut self) -> i64
        requires { IsSome (machine.number self.old) }
        ensures { machine.number self.old ≡ Some (result, self.new) }
    {
        self.pop().as_int()
    }

    /// Takes the truth on top.
    pub fn truth(&mut self) -> bool
        requires { IsSome (machine.truth self.old) }
        ensures { machine.truth self.old ≡ Some (result, self.new) }
    {
        self.pop().as_truth()
    }

    /// Takes the two numbers on top, of which the second is on top.
    pub fn numbers(&mut self) -> (i64, i64)
        requires { IsSome (machine.numbers self.old) }
        ensures { machine.numbers self.old ≡ Some (result.0, result.1, self.new) }
    {
        let y = self.number();
        let x = self.number();
        (x, y)
    }

    /// Takes the two operands on top, of one kind, and says whether they are equal.
    pub fn equal(&mut self) -> bool
        requires { IsSome (machine.equal self.old) }
        ensures { machine.equal self.old ≡ Some (result, self.new) }
    {
        let y = self.pop();
        let x = self.pop();
        y.equals(&x)
    }

    /// The operands on top, that on top last.
    pub fn last(&self, count: usize) -> &[Kept]
        requires { count ≤ length self.now }
        ensures { result.now ≡ reverse (take count self.now) }
    {
        let from = self.values.len() - count;
        &self.values[from..]
    }

    /// Drops the operands on top.
    pub fn cut(&mut self, count: usize)
        requires { count ≤ length self.old }
        ensures { self.new ≡ drop count self.old }
    {
        let left = self.values.len() - count;
        self.values.truncate(left);
    }
}
