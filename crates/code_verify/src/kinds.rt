//! The kinds of a code's operands, at hand and at its places.

ghost use Rattle.std.specs.Prelude.{◌≡◌, ◌∷◌, [], ◌↔◌, ◌<◌, IsTrue, length, replicate, slice_get, None, IfOk, OnOk, MatchOption};
ghost use Rattle.code_verify.specs.Walk.{Changes, expects, looped, opened, kinds_in, unknown};

use crate::stacks::Stacks;
use bytecode::Ty;
use cal_terms::NoMemory;
use sqlite_items::Items;
use std::alloc::Global;
use std::marker::Model;

/// A table of this many places, of which nothing is known.
fn nothing_known(alloc: Global, count: usize) -> Result<Items<Option<u32>>, NoMemory>
    ensures { IfOk result (λ table. table ≡ replicate count None) }
{
    let places: Vec<Option<u32>> = vec![in alloc; None; count]?;
    Ok(Items::from_vec(places))
}

/// The kinds at hand, and for each place of a code the kinds that wait there, where they are known.
#[derive(Drop)]
pub struct Kinds {
    stacks: Stacks,
    hand: u32,
    places: Items<Option<u32>>,
}

impl Model for Kinds {
    ghost use Rattle.code_verify.specs.Stacks.{Held, stack_at, known_in, AreHeld};

    ghost Value = { Held };

    ghost view = { λ k. record { hand = stack_at k.stacks k.hand; known = known_in k.stacks k.places } };

    ghost invariant = { λ k. AreHeld k.stacks k.hand k.places };
}

impl Kinds {
    /// None at hand, and nothing known of this many places.
    pub fn new(alloc: Global, places: usize) -> Result<Kinds, NoMemory>
        ensures { IfOk result (λ k. (k.hand ≡ []) × (k.known ≡ unknown places)) }
    {
        let stacks = Stacks::new(alloc)?;
        let places = nothing_known(alloc, places)?;
        let hand = stacks.empty();
        Ok(Kinds {
            stacks,
            hand,
            places,
        })
    }

    /// How many kinds are at hand.
    pub fn len(&self) -> u32
        ensures { result ≡ length self.now.hand }
    {
        self.stacks.height(self.hand)
    }

    pub fn is_empty(&self) -> bool
        ensures { IsTrue result ↔ (self.now.hand ≡ []) }
    {
        self.len() == 0
    }

    /// Puts a kind on top of those at hand.
    pub fn push(&mut self, kind: Ty) -> Result<(), NoMemory>
        ensures hand { OnOk result (self.new.hand ≡ kind ∷ self.old.hand) }
        ensures known { self.new.known ≡ self.old.known }
    {
        self.hand = self.stacks.push(self.hand, kind)?;
        Ok(())
    }

    /// Takes the kind on top of those at hand.
    pub fn pop(&mut self) -> Option<Ty>
        ensures hand { MatchOption result ((self.old.hand ≡ []) × (self.new.hand ≡ [])) (λ k. self.old.hand ≡ k ∷ self.new.hand) }
        ensures known { self.new.known ≡ self.old.known }
    {
        match self.stacks.split(self.hand) {
            None => None,
            Some((kind, below)) => {
                self.hand = below;
                Some(kind)
            }
        }
    }

    /// Takes the kinds that wait at the place to hand: those that came to it, or none.
    pub fn open(&mut self, place: usize)
        requires { place < length self.old.known }
        ensures hand { self.new.hand ≡ kinds_in (slice_get self.old.known place) }
        ensures known { self.new.known ≡ opened self.old.known place (slice_get self.old.known place) }
    {
        match self.places.get(place) {
            Some(Some(known)) => self.hand = *known,
            Some(None) => {
                self.hand = self.stacks.empty();
                self.places.set(place, Some(self.hand));
            }
            None => self.hand = self.stacks.empty(),
        }
    }

    /// Whether the kinds at hand can come to a place: nothing is known of it yet, or the same.
    pub fn expect(&mut self, to: usize) -> bool
        ensures known { Changes result self.new.known (expects self.old.known to self.old.hand) }
        ensures hand { self.new.hand ≡ self.old.hand }
    {
        match self.places.get(to) {
            None => return false,
            Some(Some(known)) => return self.stacks.is_same(*known, self.hand),
            Some(None) => {}
        }
        self.places.set(to, Some(self.hand));
        true
    }

    /// Whether just the kinds at hand are known of the place.
    pub fn are_at(&self, place: usize) -> bool
        ensures { Changes result self.now.known (looped self.now.known self.now.hand (slice_get self.now.known place)) }
    {
        match self.places.get(place) {
            Some(Some(known)) => self.stacks.is_same(*known, self.hand),
            Some(None) => false,
            None => false,
        }
    }
}
