//! Frames that go out and come back, pages that are fetched when they are read, and words over a view.

ghost use Rattle.std.specs.Prelude.{◌≡◌, ◌<◌, ◌≤◌, ℕ, length};
ghost use Rattle.shared_pages.specs.Cached as pages;
ghost use Rattle.shared_pages.specs.Cached.{Fits, IsBacked};
ghost use Rattle.shared_pages.specs.Kept.{IsNewFrame};
ghost use Rattle.write_buffer.specs.Buffered as buffers;

use cal_base::{Image, KeptUpdate, UpdateWords, WordKind, Words};
use frame_pool::FramePool;
use shared_pages::{PageCache, PageSource};
use std::alloc::Global;
use std::cell::Cell;
use std::test::Fail;
use write_buffer::{BufferView, View, WriteBuffer};

/// An image that counts how often it lends a page.
#[derive(Drop)]
struct Counting<'a> {
    image: &'a Image,
    lent: Cell<u64>,
}

impl PageSource for Counting<'_> {
    ghost pages = { λ c. c.image.now };

    fn page(&self, p: u32) -> &[i64] {
        self.lent.set(self.lent.get().saturating_add(1));
        self.image.page(p)
    }

    fn version(&self, p: u32) -> Option<u64> {
        let _words = self.image.len();
        self.image.version(p)
    }
}

/// Reads so many words from the first on, each so far behind the one before, and says how many differ from the image's.
fn differences(
    pool: &mut FramePool,
    cache: &mut PageCache,
    source: &Counting<'_>,
    count: u32,
    stride: u32,
) -> u32
    requires some { 0 < length source.now.image.now.memory }
    requires fits { Fits pool.old cache.old.kept source.now.image.now }
    requires backed { IsBacked pool.old cache.old.size cache.old.kept }
    ensures fits { Fits pool.new cache.new.kept source.now.image.now }
    ensures backed { IsBacked pool.new cache.new.size cache.new.kept }
{
    let words = source.image.len();
    let mut wrong = 0u32;
    let mut a = 0u32;
    'reads: for _i in 0..count {
        if cache.word(pool, source, a) != source.image.word(a) {
            wrong = wrong.saturating_add(1);
        }
        a = a.saturating_add(stride) % words;
    }
    wrong
}

#[test]
fn two_frames_go_out_and_one_comes_back(rt: HostRuntime) -> Result<(), Fail> {
    let mut pool = FramePool::make(rt.alloc(), 2)?;
    let first = pool.take().ok_or("a first frame")?;
    let second = match pool.take() {
        Some(second) => second,
        None => {
            pool.give(first);
            return Err(Fail::from("a second frame"));
        }
    };
    pool.words_mut(&first)[63] = 1;
    pool.words_mut(&second)[0] = 2;
    let third = match pool.take() {
        Some(third) => {
            pool.give(third);
            false
        }
        None => true,
    };
    assert!(rt; third, "no third frame");
    pool.give(first);
    let again = match pool.take() {
        Some(again) => again,
        None => {
            pool.give(second);
            return Err(Fail::from("the first frame again"));
        }
    };
    pool.words_mut(&again)[0] = 3;
    assert_eq!(rt; pool.words(&second)[0], 2);
    assert_eq!(rt; pool.words(&again)[0], 3);
    pool.give(again);
    pool.give(second);
    Ok(())
}

/// How many pages a new cache of so many frames fetches for such reads, beside how often the source lent one. None where a word differs.
fn fetches(
    alloc: Global,
    image: &Image,
    frames: u32,
    count: u32,
    stride: u32,
) -> Result<Option<(u64, u64)>, Fail>
    requires some { 0 < length image.now.memory }
    requires least { 2 ≤ frames }
    requires most { frames ≤ 4096 }
{
    let mut pool = FramePool::make(alloc, frames)?;
    let source = Counting {
        image,
        lent: Cell::new(0),
    };
    let mut cache = PageCache::make(alloc, frames)?;
    cache.prefetch(&mut pool, &source, 0);
    let wrong = differences(&mut pool, &mut cache, &source, count, stride);
    cache.begin_step();
    let more = differences(&mut pool, &mut cache, &source, count, stride);
    let fetched = cache.fetched();
    cache.give_back(&mut pool);
    if wrong != 0 || more != 0 {
        return Ok(None);
    }
    Ok(Some((fetched, source.lent.get())))
}

/// Reads a word in one step and, changed, in the next one, and says whether it was right and how many pages were fetched at each read.
fn fetched_again(
    alloc: Global,
    image: &mut Image,
    a: u32,
    v: i64,
) -> Result<(bool, u64, u64, u64), Fail>
    requires { a < length image.old.memory }
{
    let mut pool = FramePool::make(alloc, 2)?;
    let mut cache = PageCache::make(alloc, 2)?;
    let old = image.word(a);
    let first = cache.word(&mut pool, &*image, a);
    let one = cache.fetched();
    cache.begin_step();
    let kept = cache.word(&mut pool, &*image, a);
    let same = cache.fetched();
    image.set(a, v);
    cache.begin_step();
    let changed = cache.word(&mut pool, &*image, a);
    let more = cache.fetched();
    cache.give_back(&mut pool);
    Ok((first == old && kept == old && changed == v, one, same, more))
}

/// What is left of sums added to one word, one after another: none is taken that leaves 64 bits.
fn sum_of(alloc: Global, image: &Image, a: u32, sums: &[i64]) -> Result<(u32, Option<i64>), Fail>
    requires { a < length image.now.memory }
{
    let _words = image.len();
    let mut pool = FramePool::make(alloc, 4096)?;
    let mut buffer = WriteBuffer::make(alloc, image, &mut pool)?;
    let mut refused = 0u32;
    'sums: for v in sums {
        match buffer.kind(a) {
            WordKind::Tally => {
                if buffer.add(&mut pool, a, *v).is_err() {
                    refused = refused.saturating_add(1);
                }
            }
            WordKind::Ordinary => {}
        }
    }
    let sum = buffer.get(&pool, a);
    buffer.give_back(&mut pool);
    Ok((refused, sum))
}

/// Reads, writes and adds to every word once, and says how often a word was not what it should be.
fn touch<W: Words>(words: &mut W, image: &Image) -> u32
    requires { W.opening words.old ≡ image.now.memory }
    ensures { W.keeps words.old words.new }
{
    let mut wrong = 0u32;
    for a in 0..image.len() {
        let right = match image.kind(a) {
            WordKind::Ordinary => {
                let read = words.read(a) == image.word(a);
                words.write(a, i64::from(a));
                read && words.read(a) == i64::from(a)
            }
            WordKind::Tally => true,
        };
        if !right || words.add(a, 1).is_err() {
            wrong = wrong.saturating_add(1);
        }
    }
    wrong
}

/// What the update says of a word after every word was touched: its address and one more, or one where it is a tally word.
fn is_touched(image: &Image, a: u32, next: Option<(u32, i64)>) -> bool
    requires { a < length image.now.memory }
{
    let value = match image.kind(a) {
        WordKind::Ordinary => i64::from(a).saturating_add(1),
        WordKind::Tally => 1,
    };
    next == Some((a, value))
}

/// How many words are not in the update as they should be.
fn missing<U: UpdateWords>(update: &U, image: &Image) -> u32 {
    let mut wrong = 0u32;
    for a in 0..image.len() {
        if !is_touched(image, a, update.next_from(a)) {
            wrong = wrong.saturating_add(1);
        }
    }
    wrong
}

/// Gives the frames of a cache and of a buffer back.
fn give_both(cache: PageCache, buffer: WriteBuffer, pool: &mut FramePool)
    requires cached { pages.AreOut pool.old cache.kept }
    requires buffered { buffers.AreOut pool.old buffer.frames }
    requires apart { (p : ℕ) → p < length buffer.frames → IsNewFrame cache.kept (buffers.frame_of buffer.frames p) }
{
    cache.give_back(pool);
    buffer.give_back(pool);
}

/// Touches every word of an image through a view of so many frames, and says how much was wrong on the way and in the buffer, how many
/// entries are left once it is cleared, and how many pages were fetched.
fn through_a_view(alloc: Global, image: &Image, frames: u32) -> Result<(u32, u32, bool, u64), Fail>
    requires least { 2 ≤ frames }
    requires most { frames ≤ 4096 }
{
    let _words = image.len();
    let mut pool = FramePool::make(alloc, frames + 4096)?;
    let mut buffer = WriteBuffer::make(alloc, image, &mut pool)?;
    let mut cache = match PageCache::make(alloc, frames) {
        Ok(cache) => cache,
        Err(wanted) => {
            buffer.give_back(&mut pool);
            return Err(Fail::from(wanted));
        }
    };
    let wrong = {
        let mut view = View::join(&mut pool, &mut cache, &mut buffer, image);
        touch(&mut view, image)
    };
    let lost = missing(&BufferView::of(&pool, &buffer), image);
    buffer.clear();
    let empty = BufferView::of(&pool, &buffer).next_from(0).is_none();
    let fetched = cache.fetched();
    give_both(cache, buffer, &mut pool);
    Ok((wrong, lost, empty, fetched))
}

#[test]
fn pages_are_counted_as_they_are_fetched(rt: HostRuntime) -> Result<(), Fail> {
    let alloc = rt.alloc();
    let small = Image::make(alloc, 256, &[], &[(0, 5), (255, -5)])?;
    let large = Image::make(alloc, 262144, &[7], &[(262143, 9)])?;
    assert!(rt; small.len() == 256 && large.len() == 262144);
    // two pages stay in a cache of two frames, and a step changes none
    assert_eq!(rt; fetches(alloc, &small, 2, 100, 64 * 2)?, Some((2, 2)));
    // every page is fetched once where there is a frame for each
    assert_eq!(rt; fetches(alloc, &large, 4096, 4096, 64)?, Some((4096, 4096)));
    // four pages in turn through two frames
    let few = fetches(alloc, &small, 2, 100, 64)?.ok_or("the image's words")?;
    assert_eq!(rt; few.0, few.1);
    assert!(rt; few.0 >= 4 && few.0 <= 200);
    Ok(())
}

#[test]
fn every_word_is_touched_through_two_frames(rt: HostRuntime) -> Result<(), Fail> {
    let alloc = rt.alloc();
    let image = Image::make(alloc, 262144, &[5, 131072, 262143], &[(0, 4), (262142, -4)])?;
    // pages are read in order, each fetched once
    assert_eq!(rt; through_a_view(alloc, &image, 2)?, (0, 0, true, 4096));
    assert_eq!(rt; through_a_view(alloc, &image, 4096)?, (0, 0, true, 4096));
    let none = Image::make(alloc, 0, &[], &[])?;
    assert_eq!(rt; through_a_view(alloc, &none, 2)?, (0, 0, true, 0));
    Ok(())
}

#[test]
fn a_changed_page_is_fetched_again(rt: HostRuntime) -> Result<(), Fail> {
    let alloc = rt.alloc();
    let mut image = Image::make(alloc, 100, &[99], &[(70, 5)])?;
    assert!(rt; image.len() == 100);
    assert_eq!(rt; fetched_again(alloc, &mut image, 70, 6)?, (true, 1, 1, 2));
    assert_eq!(rt; image.len(), 100);
    // a write of the value that the word has is a change too
    assert_eq!(rt; fetched_again(alloc, &mut image, 0, 0)?, (true, 1, 1, 2));
    assert_eq!(rt; image.len(), 100);
    assert_eq!(rt;
        sum_of(alloc, &image, 99, &[i64::MAX, 1, -2])?,
        (1, Some(i64::MAX - 2))
    );
    assert_eq!(rt; sum_of(alloc, &image, 99, &[0])?, (0, Some(0)));
    assert_eq!(rt; sum_of(alloc, &image, 98, &[1])?, (0, None));
    Ok(())
}
