//! The table of a step's progress, with the wanted numbers in a ring.

ghost use Rattle.std.specs.Prelude.{◌≡◌, ◌+◌, ◌<◌, ◌≤◌, ◌-◌, ◌^◌, ℕ, false, Some, IfOk, IsTrue, IsFalse, MatchOption, length, replicate};
ghost use Rattle.std.specs.Prelude.{slice_index};
ghost use Rattle.std.specs.List.{sum};
ghost use Rattle.progress_table.specs.Progress.{Progress, NothingIsWanted, IsLeastWanted, claims_in, is_done_in, is_wanted_in};
ghost use Rattle.progress_table.specs.Progress.{least_wanted_in, with_claim, with_done, cut_at};
ghost use Rattle.progress_table.specs.Ring.{IsLast, turned_to, cursor_without};

use cal_base::NoMemory;
use std::alloc::Global;
use std::marker::Model;

/// How often each routine of a step was claimed, which are done, and from where on none is wanted.
#[derive(Drop)]
pub struct ProgressTable {
    claims: Vec<u32>,
    done: Vec<bool>,
    bound: u32,
    /// Behind each wanted number the next one, behind the last the number of routines, and behind that the first.
    next: Vec<u32>,
    /// The same ring, backwards.
    prev: Vec<u32>,
    /// The next to be claimed: the wanted numbers before it have one claim more than those from it on.
    cursor: u32,
}

impl Model for ProgressTable {
    ghost use Rattle.progress_table.specs.Progress.{Progress};
    ghost use Rattle.progress_table.specs.Ring.{IsTable};

    ghost Value = { Progress };

    ghost view = { λ t. record { claims = t.claims.items; done = t.done.items; bound = t.bound } };

    ghost invariant = { λ t. IsTable (record { claims = t.claims.items; done = t.done.items; bound = t.bound }) t.next.items t.prev.items
        t.cursor };
}

/// The seat behind a number, and behind the last the first.
fn turned(n: u32, next: u32, first: u32) -> u32
    ensures { result ≡ turned_to n next first }
{
    if next < n { next } else { first }
}

/// The cursor after number k left the ring.
fn cursor_after(n: u32, cursor: u32, k: u32, next: u32, first: u32) -> u32
    ensures { result ≡ cursor_without n cursor k next first }
{
    if cursor == k {
        turned(n, next, first)
    } else {
        cursor
    }
}

/// Behind each of n numbers the next one, and behind the end the first.
fn forwards(alloc: Global, n: u32) -> Result<Vec<u32>, NoMemory>
    requires { n ≤ 65536 }
    ensures size { IfOk result (λ next. length next.items ≡ n + 1) }
    ensures each { IfOk result (λ next. (i : ℕ) → i < n → slice_index next.items i ≡ i + 1) }
    ensures end { IfOk result (λ next. slice_index next.items n ≡ 0) }
{
    let mut next = vec![in alloc; 0; n as usize + 1]?;
    for i in 0..n {
        next[i as usize] = i + 1;
    }
    Ok(next)
}

/// Before each of n numbers the one below it, and before the first the end.
fn backwards(alloc: Global, n: u32) -> Result<Vec<u32>, NoMemory>
    requires { n ≤ 65536 }
    ensures size { IfOk result (λ prev. length prev.items ≡ n + 1) }
    ensures first { IfOk result (λ prev. slice_index prev.items 0 ≡ n) }
    ensures each { IfOk result (λ prev. (i : ℕ) → i < n → slice_index prev.items (i + 1) ≡ i) }
{
    let mut prev = vec![in alloc; n; n as usize + 1]?;
    for i in 0..n {
        prev[i as usize + 1] = i;
    }
    Ok(prev)
}

impl ProgressTable {
    /// The table of n routines, 65,536 at most, of which none was claimed and none is done. All of them are wanted. All the memory
    /// that it will need is taken here.
    pub fn make(alloc: Global, n: u32) -> Result<ProgressTable, NoMemory>
        requires { n ≤ 65536 }
        ensures { IfOk result (λ table. table ≡ record { claims = replicate n 0; done = replicate n false; bound = n }) }
    {
        let next = forwards(alloc, n)?;
        let prev = backwards(alloc, n)?;
        Ok(ProgressTable {
            claims: vec![in alloc; 0; n as usize]?,
            done: vec![in alloc; false; n as usize]?,
            bound: n,
            next,
            prev,
            cursor: 0,
        })
    }

    /// How many routines the step has.
    pub fn len(&self) -> u32
        ensures size { result ≡ length self.now.claims }
        ensures flags { length self.now.done ≡ length self.now.claims }
        ensures limit { length self.now.claims ≤ 65536 }
        ensures bound { self.now.bound ≤ length self.now.claims }
    {
        self.claims.len() as u32
    }

    /// How often routine k was claimed.
    pub fn claims(&self, k: u32) -> u32
        requires { k < length self.now.claims }
        ensures { result ≡ claims_in self.now k }
    {
        self.claims[k as usize]
    }

    /// Whether routine k is done.
    pub fn is_done(&self, k: u32) -> bool
        requires { k < length self.now.claims }
        ensures { result ≡ is_done_in self.now k }
    {
        self.done[k as usize]
    }

    /// Whether routine k is wanted: it is not done, and is below the bound.
    fn is_wanted(&self, k: u32) -> bool
        requires { k < length self.now.claims }
        ensures { result ≡ is_wanted_in self.now k }
    {
        !self.done[k as usize] && k < self.bound
    }

    /// The wanted routine with the fewest claims, and of several the first.
    pub fn least_wanted(&self) -> Option<u32>
        ensures least { result ≡ least_wanted_in self.now }
        ensures limit { length self.now.claims ≤ 65536 }
        ensures wanted { MatchOption result (NothingIsWanted self.now) (IsLeastWanted self.now) }
    {
        if (self.cursor as usize) < self.claims.len() {
            Some(self.cursor)
        } else {
            None
        }
    }

    /// Counts one more claim of routine k, which is the least wanted one. There is room for 2^32 - 1 claims of all routines together.
    pub fn note_claim(&mut self, k: u32)
        requires least { least_wanted_in self.old ≡ Some k }
        requires room { sum self.old.claims < 2 ^ 32 - 1 }
        ensures { self.new ≡ with_claim self.old k }
    {
        let n = self.claims.len() as u32;
        let cursor = turned(n, self.next[k as usize], self.next[n as usize]);
        self.claims[k as usize] += 1;
        self.cursor = cursor;
    }

    /// Notes that routine k is done, which it stays.
    pub fn note_done(&mut self, k: u32)
        requires { k < length self.old.claims }
        ensures { self.new ≡ with_done self.old k }
    {
        if self.is_wanted(k) {
            self.take_out(k);
        } else {
            self.mark(k);
        }
    }

    /// From now on neither k nor any number above it is wanted.
    pub fn cut_above(&mut self, k: u32)
        requires { k < length self.old.claims }
        ensures { self.new ≡ cut_at self.old k }
    {
        while let Some(last) = self.last_from(k) {
            self.drop_last(last);
        }
        self.lower(k);
    }

    /// Notes that a wanted routine is done.
    fn take_out(&mut self, k: u32)
        requires { IsTrue (is_wanted_in self.old k) }
        ensures { self.new ≡ with_done self.old k }
    {
        let n = self.claims.len() as u32;
        let before = self.prev[k as usize];
        let after = self.next[k as usize];
        self.next[before as usize] = after;
        self.prev[after as usize] = before;
        self.cursor = cursor_after(n, self.cursor, k, after, self.next[n as usize]);
        self.done[k as usize] = true;
    }

    /// Notes that a routine that is not wanted is done.
    fn mark(&mut self, k: u32)
        requires in_range { k < length self.old.claims }
        requires unwanted { IsFalse (is_wanted_in self.old k) }
        ensures { self.new ≡ with_done self.old k }
    {
        self.done[k as usize] = true;
    }

    /// The last wanted routine, or the number of routines where none is wanted.
    fn last(&self) -> u32
        ensures { IsLast self.now result }
    {
        self.prev[self.claims.len()]
    }

    /// The last wanted routine, where it is k or above it.
    fn last_from(&self, k: u32) -> Option<u32>
        ensures { MatchOption result ((j : ℕ) → IsTrue (is_wanted_in self.now j) → j < k)
            (λ last. (k ≤ last) × IsTrue (is_wanted_in self.now last) × IsLast self.now last) }
    {
        let last = self.last();
        if last < k {
            return None;
        }
        if last < self.len() { Some(last) } else { None }
    }

    /// From now on the last wanted routine is not wanted.
    fn drop_last(&mut self, k: u32)
        requires wanted { IsTrue (is_wanted_in self.old k) }
        requires last { IsLast self.old k }
        ensures { self.new ≡ cut_at self.old k }
    {
        let n = self.claims.len() as u32;
        let before = self.prev[k as usize];
        let after = self.next[k as usize];
        self.next[before as usize] = after;
        self.prev[after as usize] = before;
        self.cursor = cursor_after(n, self.cursor, k, after, self.next[n as usize]);
        self.bound = k;
    }

    /// Lowers the bound to k, where nothing from k on is wanted.
    fn lower(&mut self, k: u32)
        requires in_range { k < length self.old.claims }
        requires unwanted { (j : ℕ) → IsTrue (is_wanted_in self.old j) → j < k }
        ensures { self.new ≡ cut_at self.old k }
    {
        self.bound = self.bound.min(k);
    }
}
