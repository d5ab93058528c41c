//! The locals of a call.

ghost use Rattle.std.specs.Prelude.{◌≡◌, ◌≤◌, ◌<◌, ◌∷◌, ◌++◌, [], length, IfOk, Some, slice_get, slice_set};

use crate::kept::Kept;
use cal_base::NoMemory;
use std::alloc::Global;
use std::marker::Model;

/// How many locals a body has at most.
const ROOM: usize = 64;

/// The locals of a call, by their numbers from 0. All room is taken when they are made.
#[derive(Drop)]
pub struct Locals {
    values: Vec<Kept>,
}

impl Model for Locals {
    ghost use Rattle.std.specs.Prelude.{List, ◌≤◌};
    ghost use Rattle.std.specs.Vec.{vec_capacity};
    ghost use Rattle.cal_base.specs.declared.value.Val.{Val};

    ghost Value = { List Val };

    ghost view = { λ s. s.values.items };

    ghost invariant = { λ s. 64 ≤ vec_capacity s.values };
}

impl Locals {
    pub fn make(alloc: Global) -> Result<Locals, NoMemory>
        ensures { IfOk result (λ s. s ≡ []) }
    {
        let values = Vec::with_capacity(alloc, ROOM)?;
        Ok(Locals { values })
    }

    pub fn clear(&mut self)
        ensures { self.new ≡ [] }
    {
        self.values.clear();
    }

    pub fn push(&mut self, v: Kept)
        requires { length self.old < 64 }
        ensures { self.new ≡ self.old ++ v ∷ [] }
    {
        match self.values.push(v) {
            Ok(()) => {}
            Err(_) => unreachable!(),
        }
    }

    pub fn get(&self, l: usize) -> Kept
        requires { l < length self.now }
        ensures { slice_get self.now l ≡ Some result }
    {
        self.values[l].again()
    }

    pub fn set(&mut self, l: usize, v: Kept)
        requires { l < length self.old }
        ensures { self.new ≡ slice_set self.old l v }
    {
        self.values[l] = v;
    }
}
