//! The write buffer.

ghost use Rattle.std.specs.Prelude.{◌≡◌, ◌<◌, ◌≤◌, ◌/◌, ◌%◌, ◌+◌, ◌^◌, ℕ, pos, IfOk, OnErr, Ok, Err, length, slice_index_or, slice_set};
ghost use Rattle.std.specs.FinMap.{empty, get, insert};
ghost use Rattle.cal_terms.specs.declared.kinds.WordKind.TheVariants.{Tally as tally};
ghost use Rattle.cal_base.specs.Memory.{kinds_of, Memory};
ghost use Rattle.cal_base.specs.Pages.{page_count};
ghost use Rattle.frame_pool.specs.Pool.{Pool, free_count};
ghost use Rattle.cal_base.specs.Updates.{IsNextFrom, IsBelow};
ghost use Rattle.write_buffer.specs.Buffered.{AreOut, AreApart, TakesFrames, GivesFrames, ChangesOwn, AddsToSum};
ghost use Rattle.write_buffer.specs.Buffered.{written_of, word_in, frame_of};

use crate::marks::Marks;
use cal_base::{Image, NoMemory, Overflow, PAGE, WordKind};
use frame_pool::{Frame, FramePool};
use std::alloc::Global;
use std::marker::Model;

/// A finite map from the addresses of a memory's words to values and sums. Each page has a frame of its own in a pool. All room is taken
/// when the buffer is made; the frames are given back at the end.
pub struct WriteBuffer {
    kinds: Vec<WordKind>,
    marks: Marks,
    frames: Vec<Frame>,
}

impl Model for WriteBuffer {
    ghost use Rattle.write_buffer.specs.Buffered.{Buffered};
    ghost use Rattle.write_buffer.specs.Held.{IsBuffer};

    ghost Value = { Buffered };

    ghost view = { λ b. record { kinds = b.kinds.items; frames = b.frames.items; masks = b.marks } };

    ghost invariant = { λ b. IsBuffer b.kinds.items b.frames.items b.marks };
}

/// The kinds of an image's words.
fn all_kinds(alloc: Global, image: &Image) -> Result<Vec<WordKind>, NoMemory>
    ensures { IfOk result (λ kinds. kinds.items ≡ kinds_of image.now.memory) }
{
    let words = image.len();
    let mut kinds = vec![in alloc; WordKind::Ordinary; words as usize]?;
    for a in 0..words {
        kinds[a as usize] = image.kind(a);
    }
    Ok(kinds)
}

/// Takes so many frames.
fn take_frames(alloc: Global, pool: &mut FramePool, count: u32) -> Result<Vec<Frame>, NoMemory>
    requires { count ≤ free_count pool.old }
    ensures taken { IfOk result (λ frames. TakesFrames pool.old pool.new frames.items) }
    ensures count { IfOk result (λ frames. length frames.items ≡ count) }
    ensures err { OnErr result (pool.new ≡ pool.old) }
{
    let mut frames = Vec::with_capacity(alloc, count as usize)?;
    'frames: for _i in 0..count {
        match pool.take() {
            Some(frame) => frames.push_reserved(frame),
            None => unreachable!(),
        }
    }
    Ok(frames)
}

/// Gives these frames back.
fn give_frames(mut frames: Vec<Frame>, pool: &mut FramePool)
    requires out { AreOut pool.old frames.items }
    requires apart { AreApart frames.items }
    ensures { GivesFrames pool.old pool.new frames.items }
{
    while let Some(frame) = frames.pop() {
        pool.give(frame);
    }
    frames.destroy_empty();
}

/// One of the words of a frame.
fn word_of(words: &[i64; 64], i: u32) -> i64
    requires { i < 64 }
    ensures { result ≡ slice_index_or words.now i (pos 0) }
{
    words[i as usize]
}

/// Writes one of the words of a frame.
fn set_word(words: &mut [i64; 64], i: u32, v: i64)
    requires { i < 64 }
    ensures words { words.new ≡ slice_set words.old i v }
    ensures size { length words.old ≡ 64 }
{
    words[i as usize] = v;
}

impl WriteBuffer {
    /// A buffer for the words of an image, with no entry. It takes a frame of the pool for each page.
    pub fn make(alloc: Global, image: &Image, pool: &mut FramePool) -> Result<WriteBuffer, NoMemory>
        requires { page_count (length image.now.memory) ≤ free_count pool.old }
        ensures kinds { IfOk result (λ buffer. buffer.kinds ≡ kinds_of image.now.memory) }
        ensures frames { IfOk result (λ buffer. TakesFrames pool.old pool.new buffer.frames) }
        ensures pages { IfOk result (λ buffer. length buffer.frames ≡ page_count (length image.now.memory)) }
        ensures written { IfOk result (λ buffer. (now : Pool) → written_of now buffer ≡ empty) }
        ensures err { OnErr result (pool.new ≡ pool.old) }
    {
        let pages = image.len().div_ceil(PAGE);
        let kinds = all_kinds(alloc, image)?;
        let marks = Marks::make(alloc, pages)?;
        let frames = take_frames(alloc, pool, pages)?;
        Ok(WriteBuffer {
            kinds,
            marks,
            frames,
        })
    }

    /// The word of a page's frame, whether it is marked or not.
    fn value(&self, pool: &FramePool, a: u32) -> i64
        requires range { a / 64 < length self.now.frames }
        requires own { AreOut pool.now self.now.frames }
        ensures { result ≡ word_in pool.now (frame_of self.now.frames (a / 64)) (a % 64) }
    {
        word_of(pool.words(&self.frames[(a / PAGE) as usize]), a % PAGE)
    }

    /// The entry at this address.
    pub fn get(&self, pool: &FramePool, a: u32) -> Option<i64>
        requires range { a < length self.now.kinds }
        requires own { AreOut pool.now self.now.frames }
        ensures entry { result ≡ get (written_of pool.now self.now) a }
        ensures pages { length self.now.masks ≡ length self.now.frames }
    {
        if self.marks.is_marked(a) {
            Some(self.value(pool, a))
        } else {
            None
        }
    }

    /// The entry at the least address from this one on.
    pub fn next(&self, pool: &FramePool, from: u32) -> Option<(u32, i64)>
        requires { AreOut pool.now self.now.frames }
        ensures next { IsNextFrom (written_of pool.now self.now) from result }
        ensures addresses { IsBelow (2 ^ 32) (written_of pool.now self.now) }
    {
        match self.marks.next(from) {
            None => None,
            Some(a) => Some((a, self.value(pool, a))),
        }
    }

    /// The kind of the word at this address.
    pub fn kind(&self, a: u32) -> WordKind
        requires { a < length self.now.kinds }
        ensures { (d : WordKind) → result ≡ slice_index_or self.now.kinds a d }
    {
        self.kinds[a as usize]
    }

    /// Puts an entry at this address, in place of the one that was there.
    pub fn put(&mut self, pool: &mut FramePool, a: u32, v: i64)
        requires range { a < length self.old.kinds }
        requires own { AreOut pool.old self.old.frames }
        ensures written { written_of pool.new self.new ≡ insert (written_of pool.old self.old) a v }
        ensures own { ChangesOwn pool.old pool.new self.old self.new }
    {
        let frame = &self.frames[(a / PAGE) as usize];
        set_word(pool.words_mut(frame), a % PAGE, v);
        self.marks.mark(a);
    }

    /// Adds to the running sum of a tally word, which begins at 0. A sum outside 64 bits changes nothing.
    pub fn add(&mut self, pool: &mut FramePool, a: u32, v: i64) -> Result<(), Overflow>
        requires range { a < length self.old.kinds }
        requires kind { slice_index_or self.old.kinds a tally ≡ tally }
        requires own { AreOut pool.old self.old.frames }
        ensures written { AddsToSum (written_of pool.old self.old) a v (written_of pool.new self.new) result }
        ensures own { ChangesOwn pool.old pool.new self.old self.new }
    {
        let sum = match self.get(pool, a) {
            Some(sum) => sum,
            None => 0,
        };
        match sum.checked_add(v) {
            Some(more) => {
                self.put(pool, a, more);
                Ok(())
            }
            None => Err(Overflow),
        }
    }

    /// Forgets all entries. It goes to the pages alone that have one.
    pub fn clear(&mut self)
        ensures written { (pool : Pool) → written_of pool self.new ≡ empty }
        ensures kinds { self.new.kinds ≡ self.old.kinds }
        ensures frames { self.new.frames ≡ self.old.frames }
    {
        self.marks.clear();
    }

    /// Gives the frames back.
    pub fn give_back(self, pool: &mut FramePool)
        requires { AreOut pool.old self.frames }
        ensures { GivesFrames pool.old pool.new self.frames }
    {
        let WriteBuffer {
            kinds: _,
            marks: _,
            frames,
        } = self;
        give_frames(frames, pool);
    }
}
