//! Words of a routine over pages and a write buffer.

ghost use Rattle.std.specs.Prelude.{◌≡◌, ◌<◌, length};
ghost use Rattle.std.specs.FinMap.{insert};
ghost use Rattle.cal_base.specs.Stores.{read_word, base_of};
ghost use Rattle.cal_base.specs.declared.value.Store.TheVariants.{Routine};
ghost use Rattle.write_buffer.specs.Buffered.{written_of};
ghost use Rattle.write_buffer.specs.Joined.{Joined, SameLoans, KeepsView};

use crate::buffer::WriteBuffer;
use cal_base::{Overflow, WordKind, Words};
use frame_pool::FramePool;
use shared_pages::{PageCache, PageSource};

/// The memory of a source, whose pages a cache keeps, under what a buffer holds.
#[derive(Drop)]
pub struct View<'a, S: PageSource> {
    pool: &'a mut FramePool,
    cache: &'a mut PageCache,
    buffer: &'a mut WriteBuffer,
    source: &'a S,
    ghost joined: { Joined pool.now cache.now buffer.now (S.pages source.now) },
}

impl<'a, S: PageSource> View<'a, S> {
    /// Joins a cache that fits the source and a buffer for its words, both with their frames in this pool. After the view's calls the three
    /// are known again: `keeps` tells what they are, and they are still joined.
    pub fn join(
        pool: &'a mut FramePool,
        cache: &'a mut PageCache,
        buffer: &'a mut WriteBuffer,
        source: &'a S,
    ) -> View<'a, S>
        requires { Joined pool.old cache.old buffer.old (S.pages source.now) }
        ensures loans { SameLoans
            pool.entry.ghost_name result.pool.ghost_name
            cache.entry.ghost_name result.cache.ghost_name
            buffer.entry.ghost_name result.buffer.ghost_name
            (S.pages source.now) (S.pages result.source.now) }
        ensures pool { result.pool.now ≡ pool.old }
        ensures cache { result.cache.now ≡ cache.old }
        ensures buffer { result.buffer.now ≡ buffer.old }
    {
        View {
            pool,
            cache,
            buffer,
            source,
        }
    }

    /// A word as it reads, whatever its kind.
    fn value(&mut self, a: u32) -> i64
        requires { a < length (S.pages self.old.source.now).memory }
        ensures value { result ≡ read_word
            (Routine (S.pages self.old.source.now).memory (written_of self.old.pool.now self.old.buffer.now)) a }
        ensures written { written_of self.new.pool.now self.new.buffer.now ≡ written_of self.old.pool.now self.old.buffer.now }
        ensures loans { SameLoans
            self.old.pool.ghost_name self.new.pool.ghost_name
            self.old.cache.ghost_name self.new.cache.ghost_name
            self.old.buffer.ghost_name self.new.buffer.ghost_name
            (S.pages self.old.source.now) (S.pages self.new.source.now) }
        ensures keeps { KeepsView
            self.old.pool.now self.new.pool.now
            self.old.cache.now self.new.cache.now
            self.old.buffer.now self.new.buffer.now }
    {
        match self.buffer.get(self.pool, a) {
            Some(v) => v,
            None => self.cache.word(self.pool, self.source, a),
        }
    }

    /// What an adding starts from.
    fn base(&mut self, a: u32) -> i64
        requires { a < length (S.pages self.old.source.now).memory }
        ensures value { result ≡ base_of
            (Routine (S.pages self.old.source.now).memory (written_of self.old.pool.now self.old.buffer.now)) a }
        ensures written { written_of self.new.pool.now self.new.buffer.now ≡ written_of self.old.pool.now self.old.buffer.now }
        ensures loans { SameLoans
            self.old.pool.ghost_name self.new.pool.ghost_name
            self.old.cache.ghost_name self.new.cache.ghost_name
            self.old.buffer.ghost_name self.new.buffer.ghost_name
            (S.pages self.old.source.now) (S.pages self.new.source.now) }
        ensures keeps { KeepsView
            self.old.pool.now self.new.pool.now
            self.old.cache.now self.new.cache.now
            self.old.buffer.now self.new.buffer.now }
    {
        match self.buffer.kind(a) {
            WordKind::Ordinary => self.value(a),
            WordKind::Tally => match self.buffer.get(self.pool, a) {
                Some(sum) => sum,
                None => 0,
            },
        }
    }

    /// Puts an entry at a word.
    fn put(&mut self, a: u32, v: i64)
        requires { a < length (S.pages self.old.source.now).memory }
        ensures written { written_of self.new.pool.now self.new.buffer.now
            ≡ insert (written_of self.old.pool.now self.old.buffer.now) a v }
        ensures loans { SameLoans
            self.old.pool.ghost_name self.new.pool.ghost_name
            self.old.cache.ghost_name self.new.cache.ghost_name
            self.old.buffer.ghost_name self.new.buffer.ghost_name
            (S.pages self.old.source.now) (S.pages self.new.source.now) }
        ensures keeps { KeepsView
            self.old.pool.now self.new.pool.now
            self.old.cache.now self.new.cache.now
            self.old.buffer.now self.new.buffer.now }
    {
        self.buffer.put(self.pool, a, v);
    }
}

impl<'a, S: PageSource> Words for View<'a, S> {
    ghost use Rattle.write_buffer.specs.Buffered.{written_of};
    ghost use Rattle.write_buffer.specs.Joined.{SameLoans, KeepsView};
    ghost use Rattle.write_buffer.specs.Keeping.{same_loans, loans_on, view_itself, view_on};

    ghost opening = { λ v. (S.pages v.source.now).memory };

    ghost written = { λ v. written_of v.pool.now v.buffer.now };

    ghost keeps = { λ a b.
        SameLoans
        a.pool.ghost_name b.pool.ghost_name
        a.cache.ghost_name b.cache.ghost_name
        a.buffer.ghost_name b.buffer.ghost_name
        (S.pages a.source.now) (S.pages b.source.now)
        × KeepsView a.pool.now b.pool.now a.cache.now b.cache.now a.buffer.now b.buffer.now };

    ghost keeps_itself = { λ v. (
      same_loans v.pool.ghost_name v.cache.ghost_name v.buffer.ghost_name (S.pages v.source.now),
      view_itself v.pool.now v.cache.now v.buffer.now,
    ) };

    ghost keeps_on = { λ a b c one two. (
      loans_on one.0 two.0,
      view_on
          a.pool.now b.pool.now c.pool.now
          a.cache.now b.cache.now c.cache.now
          a.buffer.now b.buffer.now c.buffer.now
          (S.pages b.source.now) b.joined one.1 two.1,
    ) };

    fn read(&mut self, a: u32) -> i64 {
        self.value(a)
    }

    fn write(&mut self, a: u32, v: i64) {
        self.put(a, v);
    }

    fn add(&mut self, a: u32, v: i64) -> Result<(), Overflow> {
        match self.base(a).checked_add(v) {
            None => Err(Overflow),
            Some(sum) => {
                self.put(a, sum);
                Ok(())
            }
        }
    }
}
