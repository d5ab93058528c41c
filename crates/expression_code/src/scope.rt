//! The locals of a body.

ghost use Rattle.std.specs.Prelude.{◌≡◌};
ghost use Rattle.compiled_code.specs.Slots.{kind_of as kind_of_type};

use bytecode::Ty;
use cal_terms::NoMemory;
use csl_tree::name::Text;
use csl_tree::program as tree;
use std::alloc::Global;
use std::marker::Model;

/// The kind of a declared type.
pub fn kind_of(ty: tree::Ty) -> Ty
    ensures { result ≡ kind_of_type ty }
{
    match ty {
        tree::Ty::Int => Ty::Int,
        tree::Ty::Bool => Ty::Bool,
    }
}

/// A visible local.
#[derive(Drop)]
pub struct Slot {
    name: Text,
    number: u32,
    kind: Ty,
}

impl Model for Slot {
    ghost use Rattle.compiled_code.specs.Slots.{Slot};

    ghost Value = { Slot };

    ghost view = { λ s. record { name = s.name; number = s.number; kind = s.kind } };
}

impl Slot {
    ghost use Rattle.std.specs.Prelude.{◌≡◌};

    pub fn number(&self) -> u32
        ensures { result ≡ self.now.number }
    {
        self.number
    }

    pub fn kind(&self) -> Ty
        ensures { result ≡ self.now.kind }
    {
        self.kind
    }
}

/// The visible locals of a body, in the order of declaration, and how many locals the body has declared.
#[derive(Drop)]
pub struct Scope {
    alloc: Global,
    slots: Vec<Slot>,
    next: u32,
}

impl Model for Scope {
    ghost use Rattle.expression_code.specs.Scopes.{Scoped};

    ghost Value = { Scoped };

    ghost view = { λ s. record { slots = s.slots.items; next = s.next } };
}

impl Scope {
    ghost use Rattle.expression_code.specs.Counts.{IsSmall};
    ghost use Rattle.std.specs.Prelude.{◌≡◌, ◌+◌, [], length, take, OnOk, OnErr};
    ghost use Rattle.std.specs.Option.{option_copied};
    ghost use Rattle.compiled_code.specs.Slots.{slot_of, with_slot, kind_of};

    /// A scope with no locals.
    pub fn new(alloc: Global) -> Scope
        ensures { result ≡ record { slots = []; next = 0 } }
    {
        Scope {
            alloc,
            slots: Vec::new(alloc),
            next: 0,
        }
    }

    /// How many locals the body has declared.
    pub fn next(&self) -> u32
        ensures { result ≡ self.now.next }
    {
        self.next
    }

    /// The visible local with this name, if there is one.
    pub fn find(&self, name: &Text) -> Option<&Slot>
        ensures { option_copied result ≡ slot_of self.now.slots name.now }
    {
        for slot in self.slots.iter() {
            if slot.name.as_slice() == name.as_slice() {
                return Some(slot);
            }
        }
        None
    }

    /// One more local, in the next slot.
    pub fn declare(&mut self, name: &Text, kind: Ty) -> Result<(), NoMemory>
        requires { IsSmall (self.old.next + 1) }
        ensures { OnOk result (self.new ≡ record { slots = with_slot self.old.slots name.now self.old.next kind; next = self.old.next + 1 }) }
    {
        let name = Text::from_slice(self.alloc, name.as_slice())?;
        let number = self.next;
        self.slots.push(Slot { name, number, kind })?;
        self.next = number + 1;
        Ok(())
    }

    /// How many locals are visible.
    pub fn mark(&self) -> usize
        ensures { result ≡ length self.now.slots }
    {
        self.slots.len()
    }

    /// Keeps the first locals, as at the end of a block. Their slots are not used again.
    pub fn leave(&mut self, mark: usize)
        ensures { self.new ≡ record { slots = take mark self.old.slots; next = self.old.next } }
    {
        self.slots.truncate(mark);
    }

    /// Keeps the first locals, and goes back to this many declared ones.
    pub fn reset(&mut self, mark: usize, next: u32)
        ensures { self.new ≡ record { slots = take mark self.old.slots; next = next } }
    {
        self.slots.truncate(mark);
        self.next = next;
    }
}
