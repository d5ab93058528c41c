//! A value, kept as a word.

ghost use Rattle.std.specs.Prelude.{◌≡◌, ◌∷◌, [], IsSome, List, Some};
ghost use Rattle.cal_base.specs.declared.value.Val.{Val};
ghost use Rattle.cal_base.specs.declared.value.Val.TheVariants as val;
ghost use Rattle.machine_meaning.specs.Machine as machine;

use crate::shown::Shown;
use cal_base::Val;
use std::marker::Model;

/// A value in 8 bytes: a number as it is, a truth as 1 or 0. The word does not say which of the two it is; the proofs know it.
#[derive(Drop)]
pub struct Kept {
    word: i64,
    shown: Shown,
}

impl Model for Kept {
    ghost use Rattle.std.specs.Prelude.{◌≡◌};
    ghost use Rattle.cal_base.specs.declared.value.Val.{Val};
    ghost use Rattle.routine_vm.specs.Kept.{word_of};

    ghost Value = { Val };

    ghost view = { λ k. k.shown.value };

    ghost invariant = { λ k. k.word ≡ word_of k.shown.value };
}

impl Kept {
    /// Keeps a number.
    pub fn int(z: i64) -> Kept
        ensures { result ≡ val.Int z }
    {
        Kept {
            word: z,
            shown: Shown::of(&Val::Int(z)),
        }
    }

    /// Keeps a truth.
    pub fn truth(b: bool) -> Kept
        ensures { result ≡ val.Truth b }
    {
        Kept {
            word: if b { 1 } else { 0 },
            shown: Shown::of(&Val::Truth(b)),
        }
    }

    /// Keeps the same value once more.
    pub fn again(&self) -> Kept
        ensures { result ≡ self.now }
    {
        Kept {
            word: self.word,
            shown: Shown::again(&self.shown),
        }
    }

    /// The number that it is.
    pub fn as_int(&self) -> i64
        requires { IsSome (machine.number (self.now ∷ [])) }
        ensures { self.now ≡ val.Int result }
    {
        self.word
    }

    /// The truth that it is.
    pub fn as_truth(&self) -> bool
        requires { IsSome (machine.truth (self.now ∷ [])) }
        ensures { self.now ≡ val.Truth result }
    {
        self.word != 0
    }

    /// Whether it equals the value below it, which is of its kind.
    pub fn equals(&self, below: &Kept) -> bool
        requires { IsSome (machine.equal (self.now ∷ below.now ∷ [])) }
        ensures { (rest : List Val) → machine.equal (self.now ∷ below.now ∷ rest) ≡ Some (result, rest) }
    {
        self.word == below.word
    }
}
