//! Shared memory.

ghost use Rattle.std.specs.Prelude.{◌≡◌, ◌<◌, ◌≤◌, ◌*◌, ◌+◌, ◌/◌, ℕ, ℤ, Some, All, IfOk, length, map, slice_set, replicate, pos};
ghost use Rattle.std.specs.List.Sorted.{IsStrictlyIncreasing};
ghost use Rattle.cal_base.specs.Memory.{memory_of, kinds_of, kind_at, value_at, with_value};
ghost use Rattle.cal_base.specs.Pages.{first_memory, page_count, Paged, page_size, page_words, page_of, version_of, next_version, IsLater};

use cal_terms::limits::MOST_WORDS;
use cal_terms::{NoMemory, WordKind};
use std::alloc::Global;
use std::marker::Model;

/// How many words a page has.
pub const PAGE: u32 = 64;

/// A memory of 64-bit words, in pages that have versions.
#[derive(Drop)]
pub struct Image {
    kinds: Vec<WordKind>,
    values: Vec<i64>,
    versions: Vec<Option<u64>>,
}

impl Model for Image {
    ghost use Rattle.cal_base.specs.Memory.{memory_of};
    ghost use Rattle.cal_base.specs.Pages.{Paged, IsInPages};

    ghost Value = { Paged };

    ghost view = { λ i. record { memory = memory_of i.kinds.items i.values.items; versions = i.versions.items } };

    ghost invariant = { λ i. IsInPages i.kinds.items i.values.items i.versions.items };
}

impl Image {
    /// An image whose words are ordinary but for the tallies, and 0 but for the stated values. Both lists go by ascending address.
    pub fn make(
        alloc: Global,
        words: u32,
        tallies: &[u32],
        stated: &[(u32, i64)],
    ) -> Result<Image, NoMemory>
        requires limit { words ≤ MOST_WORDS }
        requires tallies { All (λ a. a < words) tallies.now }
        requires tallies_ascend { IsStrictlyIncreasing tallies.now }
        requires stated { All (λ entry. entry.0 < words) stated.now }
        requires stated_ascend { IsStrictlyIncreasing (map (λ entry. entry.0) stated.now) }
        ensures memory { IfOk result (λ image. image.memory ≡ first_memory words tallies.now stated.now) }
        ensures versions { IfOk result (λ image. image.versions ≡ replicate (page_count words) (Some 0)) }
    {
        let pages = words.div_ceil(PAGE) as usize;
        let mut kinds = vec![in alloc; WordKind::Ordinary; words as usize]?;
        for a in tallies {
            kinds[*a as usize] = WordKind::Tally;
        }
        let mut values = vec![in alloc; 0i64; PAGE as usize * pages]?;
        for entry in stated {
            values[entry.0 as usize] = entry.1;
        }
        Ok(Image {
            kinds,
            values,
            versions: vec![in alloc; Some(0u64); pages]?,
        })
    }

    /// How many words it has, 262,144 at most.
    pub fn len(&self) -> u32
        ensures words { result ≡ length self.now.memory }
        ensures limit { length self.now.memory ≤ MOST_WORDS }
    {
        self.kinds.len() as u32
    }

    /// The value of the word at this address.
    pub fn word(&self, a: u32) -> i64
        requires { a < length self.now.memory }
        ensures { result ≡ value_at self.now.memory a }
    {
        self.values[a as usize]
    }

    /// The kind of the word at this address, which never changes.
    pub fn kind(&self, a: u32) -> WordKind
        requires { a < length self.now.memory }
        ensures { result ≡ kind_at self.now.memory a }
    {
        self.kinds[a as usize]
    }

    /// The kinds of all words, by their addresses from 0.
    pub fn kinds(&self) -> &[WordKind]
        ensures { result.now ≡ kinds_of self.now.memory }
    {
        self.kinds.as_slice()
    }

    /// The 64 words of page p, which begins at address 64 p; past the last word they are 0.
    pub fn page(&self, p: u32) -> &[i64]
        requires { page_size * p < length self.now.memory }
        ensures { result.now ≡ page_words self.now.memory p }
    {
        let page = PAGE as usize;
        let from = page * p as usize;
        &self.values[from..from + page]
    }

    /// The version of a page, unless it passed 64 bits.
    pub fn version(&self, p: u32) -> Option<u64>
        requires { page_size * p < length self.now.memory }
        ensures { result ≡ version_of self.now p }
    {
        self.versions[p as usize]
    }

    /// Writes one word. The version of its page rises by one, even where the value is the same; past 64 bits it has none.
    pub fn set(&mut self, a: u32, v: i64)
        requires { a < length self.old.memory }
        ensures memory { self.new.memory ≡ with_value self.old.memory a v }
        ensures versions { self.new.versions ≡ slice_set self.old.versions (page_of a) (next_version (version_of self.old (page_of a))) }
        ensures later { IsLater self.old self.new }
    {
        let p = (a / PAGE) as usize;
        self.values[a as usize] = v;
        self.versions[p] = raised(self.versions[p]);
    }
}

/// The version after a write.
fn raised(version: Option<u64>) -> Option<u64>
    ensures { result ≡ next_version version }
{
    match version {
        None => None,
        Some(v) => { if v < u64::MAX { Some(v + 1) } else { None } }
    }
}
