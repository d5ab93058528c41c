//! Where code runs, and the words that it finds there.

ghost use Rattle.std.specs.Prelude.{◌≡◌, ◌<◌, IsTrue, length};
ghost use Rattle.cal_base.specs.declared.value.Store.{Store};
ghost use Rattle.cal_base.specs.Memory.{kinds_of};
ghost use Rattle.cal_base.specs.Stores.{read_word, write_word, memory_in, Adds};
ghost use Rattle.routine_vm.specs.Sites.{MayUse};

use cal_base::{Image, Overflow, Words};

/// Main, on an image, or a routine, on words of its own above the memory on which its step opened.
pub trait Site<W> {
    ghost store: { W → Store };

    /// What lies between the words before some writes and after them.
    ghost leads: { W → W → Type 0 };

    fn read(words: &mut W, a: u32) -> i64
        requires { MayUse (store words.old) a }
        ensures value { result ≡ read_word (store words.old) a }
        ensures same { store words.new ≡ store words.old }
        ensures leads { leads words.old words.new };

    fn write(words: &mut W, a: u32, v: i64)
        requires { MayUse (store words.old) a }
        ensures written { store words.new ≡ write_word (store words.old) a v }
        ensures leads { leads words.old words.new };

    /// Adds to a word. A sum outside 64 bits changes nothing.
    fn add(words: &mut W, a: u32, v: i64) -> Result<(), Overflow>
        requires { a < length (memory_in (store words.old)) }
        ensures sum { Adds (store words.old) a v (store words.new) result }
        ensures leads { leads words.old words.new };

    ghost keeps: { (earlier later : W) → leads earlier later → kinds_of (memory_in (store later)) ≡ kinds_of (memory_in (store earlier)) };

    ghost stays: { (w : W) → leads w w };

    ghost joins: { (first second third : W) → leads first second → leads second third → leads first third };
}

/// Main.
pub struct InMain;

impl Site<Image> for InMain {
    ghost use Rattle.cal_base.specs.declared.value.Store.TheVariants.{Main};
    ghost use Rattle.cal_base.specs.Pages.{IsLater};
    ghost use Rattle.cal_base.proofs.Later.{later_refl, later_transitive};
    ghost use Rattle.std.specs.Prelude.{refl};

    ghost store = { λ image. Main image.memory };

    ghost leads = { λ earlier later. IsLater earlier later };

    fn read(words: &mut Image, a: u32) -> i64 {
        words.word(a)
    }

    fn write(words: &mut Image, a: u32, v: i64) {
        words.set(a, v);
    }

    fn add(words: &mut Image, a: u32, v: i64) -> Result<(), Overflow> {
        match words.word(a).checked_add(v) {
            None => Err(Overflow),
            Some(sum) => {
                words.set(a, sum);
                Ok(())
            }
        }
    }

    ghost keeps = { λ earlier later one. one.kinds };

    ghost stays = { λ w. later_refl w w refl };

    ghost joins = { later_transitive };
}

/// A routine.
pub struct InRoutine;

impl<M: Words> Site<M> for InRoutine {
    ghost use Rattle.std.specs.Prelude.{◌≡◌, refl};
    ghost use Rattle.std.proofs.Common.{◌∙◌, ap};
    ghost use Rattle.cal_base.specs.Memory.{kinds_of};
    ghost use Rattle.cal_base.specs.declared.value.Store.TheVariants.{Routine};

    ghost store = { λ words. Routine (M.opening words) (M.written words) };

    ghost leads = { λ earlier later. (M.opening later ≡ M.opening earlier) × M.keeps earlier later };

    fn read(words: &mut M, a: u32) -> i64 {
        words.read(a)
    }

    fn write(words: &mut M, a: u32, v: i64) {
        words.write(a, v);
    }

    fn add(words: &mut M, a: u32, v: i64) -> Result<(), Overflow> {
        words.add(a, v)
    }

    ghost keeps = { λ earlier later one. ap kinds_of one.0 };

    ghost stays = { λ w. (refl, M.keeps_itself w) };

    ghost joins = { λ first second third one two. (two.0 ∙ one.0, M.keeps_on first second third one.1 two.1) };
}
