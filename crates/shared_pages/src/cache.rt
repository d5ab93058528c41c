//! The cache.

ghost use Rattle.std.specs.Prelude.{◌≡◌, ◌<◌, ◌≤◌, ◌*◌, [], IfOk, Some, length, pos, slice_index_or};
ghost use Rattle.cal_base.specs.Memory.{value_at};
ghost use Rattle.cal_base.specs.Pages.{page_of, page_size, page_words, version_of};
ghost use Rattle.frame_pool.specs.Pool.{frame_at as words_in};
ghost use Rattle.shared_pages.specs.Kept.{frame_at, AreApart};
ghost use Rattle.shared_pages.specs.Cached.{AreOut, Fits, IsBacked, KeepsFrames, Serves, GivesBack};

use crate::holding::{current, fetch};
use crate::kept::Kept;
use crate::shelf::Shelf;
use crate::source::PageSource;
use cal_base::{NoMemory, PAGE};
use frame_pool::FramePool;
use std::alloc::Global;
use std::marker::Model;

/// Pages of a source, each with the version in which it was fetched, kept in frames of a pool. What is kept fits the source, and every later
/// one. The frames are given back at the end.
pub struct PageCache {
    shelf: Shelf,
    fetched: u64,
}

impl Model for PageCache {
    ghost use Rattle.shared_pages.specs.Cached.{Cached};

    ghost Value = { Cached };

    ghost view = { λ c. record { size = c.shelf.size; kept = c.shelf.kept; fetched = c.fetched } };

    ghost invariant = { λ c. Unit {0} };
}

impl PageCache {
    /// A cache of so many frames, 2 to 4,096, that keeps none. It fits every source.
    pub fn make(alloc: Global, frames: u32) -> Result<PageCache, NoMemory>
        requires least { 2 ≤ frames }
        requires most { frames ≤ 4096 }
        ensures { IfOk result (λ cache. cache ≡ record { size = frames; kept = []; fetched = 0 }) }
    {
        Ok(PageCache {
            shelf: Shelf::make(alloc, frames)?,
            fetched: 0,
        })
    }

    /// Begins a step: what is kept stays, and no page of it counts as read.
    pub fn begin_step(&mut self)
        ensures { self.new ≡ self.old }
    {
        self.shelf.clear_marks();
    }

    /// How many pages were fetched, up to 2^64 - 1.
    pub fn fetched(&self) -> u64
        ensures { result ≡ self.now.fetched }
    {
        self.fetched
    }

    /// Holds page p, and answers its place.
    fn hold<S: PageSource>(&mut self, pool: &mut FramePool, source: &S, p: u32) -> u32
        requires range { page_size * p < length (S.pages source.now).memory }
        requires fits { Fits pool.old self.old.kept (S.pages source.now) }
        requires backed { IsBacked pool.old self.old.size self.old.kept }
        ensures place { result < length self.new.kept }
        ensures words { words_in pool.new (frame_at self.new.kept result) ≡ Some (page_words (S.pages source.now).memory p) }
        ensures serves { Serves self.old self.new p (version_of (S.pages source.now) p) }
        ensures fits { Fits pool.new self.new.kept (S.pages source.now) }
        ensures backed { IsBacked pool.new self.new.size self.new.kept }
        ensures frames { KeepsFrames pool.old pool.new self.old.kept self.new.kept }
    {
        let version = source.version(p);
        if let Some(i) = current(&self.shelf, p, version) {
            self.shelf.mark(i);
            return i;
        }
        self.fetched = self.fetched.saturating_add(1);
        let i = fetch(&mut self.shelf, pool, source, p, version);
        self.shelf.mark(i);
        i
    }

    /// The word at this address of the source. Its page is fetched where it is not kept in the source's version.
    pub fn word<S: PageSource>(&mut self, pool: &mut FramePool, source: &S, a: u32) -> i64
        requires range { a < length (S.pages source.now).memory }
        requires fits { Fits pool.old self.old.kept (S.pages source.now) }
        requires backed { IsBacked pool.old self.old.size self.old.kept }
        ensures value { result ≡ value_at (S.pages source.now).memory a }
        ensures serves { Serves self.old self.new (page_of a) (version_of (S.pages source.now) (page_of a)) }
        ensures fits { Fits pool.new self.new.kept (S.pages source.now) }
        ensures backed { IsBacked pool.new self.new.size self.new.kept }
        ensures frames { KeepsFrames pool.old pool.new self.old.kept self.new.kept }
    {
        let i = self.hold(pool, source, a / PAGE);
        word_of(pool.words(self.shelf.frame(i)), a % PAGE)
    }

    /// Keeps page p, so that its words need not be fetched.
    pub fn prefetch<S: PageSource>(&mut self, pool: &mut FramePool, source: &S, p: u32)
        requires range { page_size * p < length (S.pages source.now).memory }
        requires fits { Fits pool.old self.old.kept (S.pages source.now) }
        requires backed { IsBacked pool.old self.old.size self.old.kept }
        ensures serves { Serves self.old self.new p (version_of (S.pages source.now) p) }
        ensures fits { Fits pool.new self.new.kept (S.pages source.now) }
        ensures backed { IsBacked pool.new self.new.size self.new.kept }
        ensures frames { KeepsFrames pool.old pool.new self.old.kept self.new.kept }
    {
        let _place = self.hold(pool, source, p);
    }

    /// Gives all frames back.
    pub fn give_back(self, pool: &mut FramePool)
        requires { AreOut pool.old self.kept }
        ensures { GivesBack pool.old pool.new self.kept }
    {
        let PageCache { shelf, fetched: _ } = self;
        let kept = shelf.into_kept();
        give_all(kept, pool);
    }
}

/// One of the words of a page.
fn word_of(words: &[i64; 64], i: u32) -> i64
    requires { i < 64 }
    ensures { result ≡ slice_index_or words.now i (pos 0) }
{
    words[i as usize]
}

/// Gives the frames of these pages back.
fn give_all(mut kept: Vec<Kept>, pool: &mut FramePool)
    requires out { AreOut pool.old kept.items }
    requires apart { AreApart kept.items }
    ensures { GivesBack pool.old pool.new kept.items }
{
    while let Some(k) = kept.pop() {
        let Kept {
            page: _,
            version: _,
            frame,
        } = k;
        pool.give(frame);
    }
    kept.destroy_empty();
}
