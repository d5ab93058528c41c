//! The pages that are kept, in the order in which they were first fetched, and where each of them stands.

ghost use Rattle.std.specs.Prelude.{◌≡◌, ◌≢◌, ◌<◌, ◌≤◌, ◌++◌, ◌∷◌, [], ℕ, IfOk, IsTrue, IsFalse, MatchOption, length, slice_set};
ghost use Rattle.shared_pages.specs.Kept.{kept_at, page_at, version_at, frame_at, IsAbsent, IsOnlyPlace, MayStandAt, IsNewFrame, AreApart};
ghost use Rattle.shared_pages.specs.Shelf.{Shelved};

use crate::kept::Kept;
use cal_base::NoMemory;
use frame_pool::Frame;
use std::alloc::Global;
use std::marker::Model;

/// How many pages a memory has at most.
const PAGES: usize = 4096;

/// The pages that are kept. All room is taken when it is made.
pub struct Shelf {
    kept: Vec<Kept>,
    // Of each place: was the page read since the hand last passed?
    marks: Vec<bool>,
    // Of each page: the place where it is kept.
    places: Vec<Option<u32>>,
    hand: u32,
}

impl Model for Shelf {
    ghost use Rattle.std.specs.Prelude.{length};
    ghost use Rattle.std.specs.Vec.{vec_capacity};
    ghost use Rattle.shared_pages.specs.Shelf.{Shelved, IsShelf};

    ghost Value = { Shelved };

    ghost view = { λ s. record { size = length s.marks.items; kept = s.kept.items } };

    ghost invariant = { λ s. IsShelf s.kept.items s.marks.items s.places.items s.hand (vec_capacity s.kept) };
}

impl Shelf {
    /// Room for so many pages, 2 to 4,096. None is kept.
    pub fn make(alloc: Global, size: u32) -> Result<Shelf, NoMemory>
        requires least { 2 ≤ size }
        requires most { size ≤ 4096 }
        ensures { IfOk result (λ shelf. shelf ≡ record { size = size; kept = [] }) }
    {
        let marks = vec![in alloc; false; size as usize]?;
        let places = vec![in alloc; None; PAGES]?;
        let kept = Vec::with_capacity(alloc, size as usize)?;
        Ok(Shelf {
            kept,
            marks,
            places,
            hand: 0,
        })
    }

    /// The place where page p is kept.
    pub fn find(&self, p: u32) -> Option<u32>
        requires { p < 4096 }
        ensures { MatchOption result (IsAbsent self.now.kept p) (IsOnlyPlace self.now.kept p) }
    {
        self.places[p as usize]
    }

    /// Whether as many pages are kept as there is room for.
    pub fn is_full(&self) -> bool
        ensures full { IsTrue result → length self.now.kept ≡ self.now.size }
        ensures room { IsFalse result → length self.now.kept < self.now.size }
    {
        self.kept.len() == self.marks.len()
    }

    /// The version in which the page at this place is kept.
    pub fn version(&self, i: u32) -> Option<u64>
        requires { i < length self.now.kept }
        ensures { result ≡ version_at self.now.kept i }
    {
        self.kept[i as usize].version
    }

    /// The frame of the page at this place. No two pages are kept in one frame.
    pub fn frame(&self, i: u32) -> &Frame
        requires { i < length self.now.kept }
        ensures frame { result.now ≡ frame_at self.now.kept i }
        ensures apart { AreApart self.now.kept }
    {
        &self.kept[i as usize].frame
    }

    /// Keeps one page more.
    pub fn add(&mut self, p: u32, version: Option<u64>, frame: Frame) -> u32
        requires page { p < 4096 }
        requires room { length self.old.kept < self.old.size }
        requires absent { IsAbsent self.old.kept p }
        requires apart { IsNewFrame self.old.kept frame }
        ensures kept { self.new ≡ record self.old {
          kept = self.old.kept ++ record { page = p; version = version; frame = frame } ∷ [];
        } }
        ensures place { result ≡ length self.old.kept }
    {
        let i = self.kept.len() as u32;
        self.kept.push_reserved(Kept {
            page: p,
            version,
            frame,
        });
        self.places[p as usize] = Some(i);
        i
    }

    /// Keeps page p, in this version, in the place of another one or of the same.
    pub fn replace(&mut self, i: u32, p: u32, version: Option<u64>)
        requires page { p < 4096 }
        requires place { i < length self.old.kept }
        requires absent { MayStandAt self.old.kept p i }
        ensures { self.new ≡ record self.old {
          kept = slice_set self.old.kept i (record { page = p; version = version; frame = frame_at self.old.kept i });
        } }
    {
        let kept = &mut self.kept[i as usize];
        let old = kept.page;
        kept.page = p;
        kept.version = version;
        self.places[old as usize] = None;
        self.places[p as usize] = Some(i);
    }

    /// Notes that the page at this place was read.
    pub fn mark(&mut self, i: u32)
        requires { i < length self.old.kept }
        ensures { self.new ≡ self.old }
    {
        self.marks[i as usize] = true;
    }

    /// Forgets which pages were read.
    pub fn clear_marks(&mut self)
        ensures { self.new ≡ self.old }
    {
        self.marks.fill(false);
    }

    /// The place of the page that is to go: the next one that was not read since the hand last passed it. Each page that was read has a
    /// second chance.
    pub fn victim(&mut self) -> u32
        requires { length self.old.kept ≡ self.old.size }
        ensures same { self.new ≡ self.old }
        ensures place { result < length self.new.kept }
    {
        let (place, hand) = next_victim(&mut self.marks, self.hand);
        self.hand = hand;
        place
    }

    /// What is kept.
    pub fn into_kept(self) -> Vec<Kept>
        ensures kept { result.items ≡ self.kept }
        ensures apart { AreApart result.items }
    {
        let Shelf {
            kept,
            marks: _,
            places: _,
            hand: _,
        } = self;
        kept
    }
}

/// The place behind another one, round.
fn next_place(i: u32, size: u32) -> u32
    requires { i < size }
    ensures { result < size }
{
    if i + 1 == size { 0 } else { i + 1 }
}

/// The next place from the hand on without a mark, and the place behind it. The marks before it go.
fn next_victim(marks: &mut [bool], from: u32) -> (u32, u32)
    requires some { from < length marks.old }
    requires few { length marks.old ≤ 4096 }
    ensures place { result.0 < length marks.new }
    ensures hand { result.1 < length marks.new }
{
    let size = marks.len() as u32;
    let mut hand = from;
    'turns: for _ in 0..size {
        if !marks[hand as usize] {
            break;
        }
        marks[hand as usize] = false;
        hand = next_place(hand, size);
    }
    (hand, next_place(hand, size))
}
