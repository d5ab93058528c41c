//! Pages are held: found, or fetched into a frame.

ghost use Rattle.std.specs.Prelude.{◌≡◌, ◌<◌, ◌*◌, false, MatchOption, Some, length, slice_set};
ghost use Rattle.cal_base.specs.Pages.{page_size, page_words, version_of};
ghost use Rattle.frame_pool.specs.Pool.{IsOut};
ghost use Rattle.shared_pages.specs.Cached.{is_kept, is_same_version, Fits, IsBacked};
ghost use Rattle.shared_pages.specs.Holding.{IsCurrent, Opens, Holds};

use crate::shelf::Shelf;
use crate::source::PageSource;
use frame_pool::{Frame, FramePool};

/// Whether these are one version.
fn is_same(v: Option<u64>, u: Option<u64>) -> bool
    ensures { result ≡ is_same_version v u }
{
    match v {
        None => false,
        Some(v) => match u {
            None => false,
            Some(u) => v == u,
        },
    }
}

/// The place where page p is kept in this version.
pub fn current(shelf: &Shelf, p: u32, version: Option<u64>) -> Option<u32>
    requires { p < 4096 }
    ensures { MatchOption result (is_kept shelf.now.kept p version ≡ false) (IsCurrent shelf.now.kept p version) }
{
    match shelf.find(p) {
        None => None,
        Some(i) => {
            if is_same(shelf.version(i), version) {
                Some(i)
            } else {
                None
            }
        }
    }
}

/// Makes a place for page p: the one where it is, a new one, or that of another page.
fn open(shelf: &mut Shelf, pool: &mut FramePool, p: u32, version: Option<u64>) -> u32
    requires page { p < 4096 }
    requires backed { IsBacked pool.old shelf.old.size shelf.old.kept }
    ensures { Opens pool.old pool.new shelf.old shelf.new p version result }
{
    if let Some(i) = shelf.find(p) {
        shelf.replace(i, p, version);
        return i;
    }
    if shelf.is_full() {
        let i = shelf.victim();
        shelf.replace(i, p, version);
        return i;
    }
    match pool.take() {
        Some(frame) => shelf.add(p, version, frame),
        None => unreachable!(),
    }
}

/// Copies a page's words.
fn copy(words: &mut [i64; 64], page: &[i64])
    requires { length page.now ≡ 64 }
    ensures { words.new ≡ page.now }
{
    words.copy_from_slice(page);
}

/// Copies page p into a frame.
fn fill<S: PageSource>(pool: &mut FramePool, frame: &Frame, source: &S, p: u32)
    requires out { IsOut pool.old frame.now }
    requires page { page_size * p < length (S.pages source.now).memory }
    ensures { pool.new ≡ slice_set pool.old frame.now (Some (page_words (S.pages source.now).memory p)) }
{
    let page = source.page(p);
    copy(pool.words_mut(frame), page);
}

/// Fetches page p, of this version, and answers its place.
pub fn fetch<S: PageSource>(
    shelf: &mut Shelf,
    pool: &mut FramePool,
    source: &S,
    p: u32,
    version: Option<u64>,
) -> u32
    requires few { p < 4096 }
    requires page { page_size * p < length (S.pages source.now).memory }
    requires version { version ≡ version_of (S.pages source.now) p }
    requires backed { IsBacked pool.old shelf.old.size shelf.old.kept }
    requires fits { Fits pool.old shelf.old.kept (S.pages source.now) }
    ensures { Holds pool.old pool.new shelf.old shelf.new (S.pages source.now) p version result }
{
    let i = open(shelf, pool, p, version);
    fill(pool, shelf.frame(i), source, p);
    i
}
