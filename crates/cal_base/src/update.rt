//! What a routine wrote and added.

ghost use Rattle.std.specs.Prelude.{◌≡◌, ◌^◌, ℕ, ℤ, IfOk, OnOk, OnErr};
ghost use Rattle.std.specs.FinMap.{get, insert, empty};
ghost use Rattle.cal_base.specs.Updates.{Written, IsNextFrom, IsBelow};

use crate::NoMemory;
use std::alloc::Global;
use std::collections::BTreeMap;
use std::marker::Model;

/// A finite map from addresses to values and sums, read in ascending order.
pub trait UpdateWords {
    ghost update: { Self → Written };

    /// The entry at the least address from this one on.
    fn next_from(&self, from: u32) -> Option<(u32, i64)>
        ensures next { IsNextFrom (update self.now) from result }
        ensures addresses { IsBelow (2 ^ 32) (update self.now) };
}

/// An update that is kept: it owns its entries.
#[derive(Drop)]
pub struct KeptUpdate {
    words: BTreeMap<u32, i64, Global>,
}

impl Model for KeptUpdate {
    ghost use Rattle.std.specs.Prelude.{◌^◌};
    ghost use Rattle.std.specs.Coded.{coded_ℕ, coded_ℤ};
    ghost use Rattle.std.specs.FinMap.{from_entries, code};
    ghost use Rattle.cal_base.specs.Updates.{Written, IsBelow};

    ghost Value = { Written };

    ghost coded = { code coded_ℕ coded_ℤ };

    ghost view = { λ k. from_entries k.words.entries };

    ghost invariant = { λ k. IsBelow (2 ^ 32) (from_entries k.words.entries) };
}

impl KeptUpdate {
    /// An update with no entry. It takes no memory.
    pub fn empty(alloc: Global) -> KeptUpdate
        ensures { result ≡ empty }
    {
        KeptUpdate {
            words: BTreeMap::new(alloc),
        }
    }

    /// A copy of all entries of an update. It takes memory for them.
    pub fn copy_of<U: UpdateWords>(alloc: Global, update: &U) -> Result<KeptUpdate, NoMemory>
        ensures { IfOk result (λ kept. kept ≡ U.update update.now) }
    {
        let mut kept = KeptUpdate::empty(alloc);
        let mut from = 0u32;
        while let Some((a, v)) = update.next_from(from) {
            kept.put(a, v)?;
            if a == u32::MAX {
                break;
            }
            from = a + 1;
        }
        Ok(kept)
    }

    /// The entry at this address.
    pub fn get(&self, a: u32) -> Option<i64>
        ensures { result ≡ get self.now a }
    {
        self.words.get(&a).copied()
    }

    /// Puts an entry at this address, in place of the one that was there. Where memory is wanted the update stays as it is.
    pub fn put(&mut self, a: u32, v: i64) -> Result<(), NoMemory>
        ensures put { OnOk result (self.new ≡ insert self.old a v) }
        ensures unchanged { OnErr result (self.new ≡ self.old) }
    {
        self.words.insert(a, v)?;
        Ok(())
    }
}

impl UpdateWords for KeptUpdate {
    ghost update = { λ k. k };

    fn next_from(&self, from: u32) -> Option<(u32, i64)> {
        match self.words.range(from..).next() {
            None => None,
            Some((a, v)) => Some((*a, *v)),
        }
    }
}
