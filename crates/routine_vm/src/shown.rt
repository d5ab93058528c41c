//! A value that only proofs see.

ghost use Rattle.std.specs.Prelude.{◌≡◌};
ghost use Rattle.cal_base.specs.declared.value.Val.{Val};

use cal_base::Val;
use std::marker::{Model, PhantomData};

/// The value that a word shows. It takes no bytes: only clauses and proofs see it.
pub struct Shown {
    marker: PhantomData<()>,
    pub ghost value: { Val },
}

impl Model for Shown {
    ghost use Rattle.std.specs.Borrow.{ftrue};

    ghost also_owns = { λ _. ftrue };
}

impl Shown {
    /// This value.
    pub fn of(v: &Val) -> Shown
        ensures { result.value ≡ v.now }
    {
        let _ = v;
        Shown {
            marker: PhantomData,
        }
    }

    /// What this one shows.
    pub fn again(other: &Shown) -> Shown
        ensures { result.value ≡ other.now.value }
    {
        let _ = other;
        Shown {
            marker: PhantomData,
        }
    }
}

impl Drop for Shown {
    fn drop(self) {
        let Self { marker: _ } = self;
    }
}

unsafe impl Send for Shown {}

unsafe impl Sync for Shown {}
