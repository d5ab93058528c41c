//! The parts of an event of main.

ghost use Rattle.std.specs.Prelude.{◌≡◌, ◌<◌, ◌∷◌, [], length, IfOk, Some, slice_get};

use cal_base::NoMemory;
use std::alloc::Global;
use std::marker::Model;

/// How many parts an event has at most.
const ROOM: usize = 64;

/// The parts of an event, which are put in from the last to the first. All room is taken when they are made.
#[derive(Drop)]
pub struct Parts<T> {
    values: Vec<T>,
}

impl<T> Model for Parts<T> {
    ghost use Rattle.std.specs.Prelude.{List, reverse, ◌≤◌};
    ghost use Rattle.std.specs.Vec.{vec_capacity};
    ghost use Rattle.std.specs.Coded.{coded_list};

    ghost Value = { List T };

    ghost coded = { coded_list T.code };

    ghost view = { λ s. reverse s.values.items };

    ghost invariant = { λ s. 64 ≤ vec_capacity s.values };
}

impl<T: Copy> Parts<T> {
    pub fn make(alloc: Global) -> Result<Parts<T>, NoMemory>
        ensures { IfOk result (λ s. s ≡ []) }
    {
        let values = Vec::with_capacity(alloc, ROOM)?;
        Ok(Parts { values })
    }

    pub fn clear(&mut self)
        ensures { self.new ≡ [] }
    {
        self.values.clear();
    }

    /// Puts a part in front of the others.
    pub fn put(&mut self, part: T)
        requires { length self.old < 64 }
        ensures { self.new ≡ part ∷ self.old }
    {
        match self.values.push(part) {
            Ok(()) => {}
            Err(_) => unreachable!(),
        }
    }

    pub fn get(&self, i: usize) -> T
        requires { i < length self.now }
        ensures { slice_get self.now i ≡ Some result }
    {
        self.values[self.values.len() - 1 - i]
    }
}
