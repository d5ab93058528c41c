//! Words of a routine's own, with one entry for each word of the memory on which its step opened.
#![tactic(auto)]

ghost use Rattle.std.specs.Prelude.{◌≡◌, ◌<◌, IfOk, length};
ghost use Rattle.std.specs.FinMap.{empty, get, insert};
ghost use Rattle.cal_base.specs.declared.value.Store.TheVariants.{Routine};
ghost use Rattle.cal_base.specs.Stores.{base_of};

use cal_base::{Image, NoMemory, Overflow, UpdateWords, WordKind, Words};
use std::alloc::Global;
use std::marker::Model;

/// The memory on which a step opened, under what one routine wrote and added. All room is taken when they are made, once for a step: its
/// next routine takes them cleared.
#[derive(Drop)]
pub struct PlainWords<'a> {
    opening: &'a Image,
    own: Vec<Option<i64>>,
}

impl<'a> Model for PlainWords<'a> {
    ghost use Rattle.std.specs.Prelude.{◌≡◌, ◌≤◌, length};
    ghost use Rattle.cal_terms.specs.declared.limits.TheConstants.{MOST_WORDS};
    ghost use Rattle.plain_words.specs.Own.{Own};
    ghost use Rattle.cal_base.specs.Entries.{own_from};

    ghost Value = { Own };

    ghost use Rattle.std.specs.Coded.{codes, coded_ℕ, coded_ℤ};
    ghost use Rattle.std.specs.FinMap.{code as map_code};
    ghost use Rattle.std.specs.Ordering.{nat_cmp};

    ghost coded = { Prim.hlevel (codes, map_code {R = nat_cmp} coded_ℕ coded_ℤ) };

    ghost view = { λ w. record { opening = w.opening.now.memory; written = own_from 0 w.own.items } };

    ghost invariant = { λ w. (length w.own.items ≡ length w.opening.now.memory) × (length w.own.items ≤ MOST_WORDS) };
}

impl<'a> PlainWords<'a> {
    /// Words that open on this memory, with nothing written.
    pub fn make(alloc: Global, image: &'a Image) -> Result<PlainWords<'a>, NoMemory>
        ensures opening { IfOk result (λ words. words.opening ≡ image.now.memory) }
        ensures written { IfOk result (λ words. words.written ≡ empty) }
    {
        let own = vec![in alloc; None; image.len() as usize]?;
        Ok(PlainWords {
            opening: image,
            own,
        })
    }

    /// Forgets all that was written and added. It takes no memory.
    pub fn clear(&mut self)
        ensures { self.new ≡ record self.old { written = empty } }
    {
        self.own.fill(None);
    }

    /// What was written or added to a word.
    fn own(&self, a: u32) -> Option<i64>
        requires { a < length self.now.opening }
        ensures { result ≡ get self.now.written a }
    {
        self.own[a as usize]
    }

    /// Puts an entry at a word.
    fn put(&mut self, a: u32, v: i64)
        requires { a < length self.old.opening }
        ensures { self.new ≡ record self.old { written = insert self.old.written a v } }
    {
        self.own[a as usize] = Some(v);
    }

    /// What an adding starts from.
    fn base(&self, a: u32) -> i64
        requires { a < length self.now.opening }
        ensures { result ≡ base_of (Routine self.now.opening self.now.written) a }
    {
        match self.own(a) {
            Some(v) => v,
            None => match self.opening.kind(a) {
                WordKind::Ordinary => self.opening.word(a),
                WordKind::Tally => 0,
            },
        }
    }
}

impl Words for PlainWords<'_> {
    ghost use Rattle.std.specs.Prelude.{◌≡◌, refl};
    ghost use Rattle.std.proofs.Common.{◌∙◌};

    ghost opening = { λ w. w.opening };

    ghost written = { λ w. w.written };

    ghost keeps = { λ earlier later. later.opening ≡ earlier.opening };

    ghost keeps_itself = { λ words. refl };

    ghost keeps_on = { λ first second third one two. two ∙ one };

    fn read(&mut self, a: u32) -> i64 {
        match self.own(a) {
            Some(v) => v,
            None => self.opening.word(a),
        }
    }

    fn write(&mut self, a: u32, v: i64) {
        self.put(a, v);
    }

    fn add(&mut self, a: u32, v: i64) -> Result<(), Overflow> {
        match self.base(a).checked_add(v) {
            None => Err(Overflow),
            Some(sum) => {
                self.put(a, sum);
                Ok(())
            }
        }
    }
}

impl UpdateWords for PlainWords<'_> {
    ghost update = { λ w. w.written };

    fn next_from(&self, from: u32) -> Option<(u32, i64)> {
        for a in from..self.opening.len() {
            if let Some(v) = self.own(a) {
                return Some((a, v));
            }
        }
        None
    }
}
