//! Which words have an entry.

ghost use Rattle.std.specs.Prelude.{◌≡◌, ◌≢◌, ◌<◌, ◌≤◌, ◌/◌, ℕ, [], false, IfOk, length, replicate};
ghost use Rattle.std.specs.Vec.{vec_capacity};
ghost use Rattle.write_buffer.specs.Bits.{is_marked, with_mark, IsNextMarked};
ghost use Rattle.write_buffer.specs.Marks.{IsMarks, IsListedIn};

use crate::bits;
use cal_base::NoMemory;
use std::alloc::Global;
use std::marker::Model;

/// A mask for each page, with a bit for each of its 64 words. All room is taken when they are made.
#[derive(Drop)]
pub struct Marks {
    masks: Vec<u64>,
    // A bit for each page whose mask is not 0.
    pages: Vec<u64>,
    // Just these pages, in the order in which they were touched first.
    touched: Vec<u32>,
}

impl Model for Marks {
    ghost use Rattle.std.specs.Prelude.{List, ℕ};
    ghost use Rattle.std.specs.Vec.{vec_capacity};
    ghost use Rattle.write_buffer.specs.Marks.{IsMarks};

    ghost Value = { List ℕ };

    ghost view = { λ s. s.masks.items };

    ghost invariant = { λ s. IsMarks s.masks.items s.pages.items s.touched.items (vec_capacity s.touched) };
}

/// Forgets all marks.
fn clear_all(masks: &mut Vec<u64>, pages: &mut Vec<u64>, touched: &mut Vec<u32>)
    requires { IsMarks masks.old.items pages.old.items touched.old.items (vec_capacity touched.old) }
    ensures masks { masks.new.items ≡ replicate (length masks.old.items) 0 }
    ensures pages { (p : ℕ) → is_marked pages.new.items p ≡ false }
    ensures count { length pages.new.items ≡ length pages.old.items }
    ensures touched { touched.new.items ≡ [] }
    ensures capacity { vec_capacity touched.new ≡ vec_capacity touched.old }
{
    while let Some(p) = touched.pop() {
        masks[p as usize] = 0;
        pages[(p / 64) as usize] = 0;
    }
}

impl Marks {
    /// Masks for so many pages, 4,096 at most. No word is marked.
    pub fn make(alloc: Global, pages: u32) -> Result<Marks, NoMemory>
        requires { pages ≤ 4096 }
        ensures { IfOk result (λ marks. marks ≡ replicate pages 0) }
    {
        let masks = vec![in alloc; 0u64; pages as usize]?;
        let touched = Vec::with_capacity(alloc, pages as usize)?;
        Ok(Marks {
            masks,
            pages: vec![in alloc; 0u64; pages.div_ceil(64) as usize]?,
            touched,
        })
    }

    /// Whether the word is marked.
    pub fn is_marked(&self, a: u32) -> bool
        requires { a / 64 < length self.now }
        ensures { result ≡ is_marked self.now a }
    {
        bits::is_set(&self.masks, a)
    }

    /// Marks a word.
    pub fn mark(&mut self, a: u32)
        requires { a / 64 < length self.old }
        ensures { self.new ≡ with_mark self.old a }
    {
        let p = a / 64;
        if self.masks[p as usize] != 0 {
            bits::set(&mut self.masks, a);
            return;
        }
        self.touched.push_reserved(p);
        bits::set(&mut self.pages, p);
        bits::set(&mut self.masks, a);
    }

    /// The first marked word from this one on.
    pub fn next(&self, from: u32) -> Option<u32>
        ensures { IsNextMarked self.now from result }
    {
        let p = from / 64;
        if p as usize >= self.masks.len() {
            return None;
        }
        match bits::next_bit(self.masks[p as usize], from % 64) {
            Some(i) => return Some(64 * p + i),
            None => {}
        }
        match bits::next_set(&self.pages, p + 1) {
            None => None,
            Some(q) => Some(64 * q + bits::lowest(self.masks[q as usize])),
        }
    }

    /// Forgets all marks: it goes to the touched pages alone.
    pub fn clear(&mut self)
        ensures { self.new ≡ replicate (length self.old) 0 }
    {
        clear_all(&mut self.masks, &mut self.pages, &mut self.touched);
    }
}
