//! The stage keeps no update: per word its owner and one value, and of all words the least conflict.

ghost use Rattle.std.specs.Prelude.{◌≡◌, ◌&&◌, not, ◌+◌, ◌<◌, ◌≤◌, ◌*◌, ◌^◌, ℕ, None, Some, IfOk, OnErr, IsTrue, IsFalse, length};
ghost use Rattle.std.specs.Prelude.{replicate, slice_set, pos, ◌+ℤ◌, ◌≤ℤ◌};
ghost use Rattle.std.specs.Option.{ForSome};
ghost use Rattle.std.specs.List.{position};
ghost use Rattle.cal_base.specs.Arithmetic.{fits_word};
ghost use Rattle.cal_base.specs.Memory.{kinds_of, is_ordinary, kind_at, value_at, with_value};
ghost use Rattle.cal_base.specs.declared.answer.Answer.TheVariants.{Update, Fault};
ghost use Rattle.cal_base.specs.declared.ends.StepFault.TheVariants.{Conflict};
ghost use Rattle.cal_base.specs.Pages.{IsLater, page_of, version_of};
ghost use Rattle.cal_base.specs.After.{is_outside};
ghost use Rattle.step_merge.specs.Staged.{size_of, IsFree, StandsFor, LaysAt, IsLeastFault, Merges, KeepsPages, owner_in, value_in};
ghost use Rattle.step_merge.specs.Laws.{is_lesser, lesser_pair};
ghost use Rattle.step_merge.specs.Steps.{HasRoom, laid_count, candidate_with, with_laid, with_write, with_sum, with_failed, lesser_failed};
ghost use Rattle.step_merge.specs.Steps.{least_in, fault_of_found, has_owner, entered, left_by, left_memory, is_outside_word};

use cal_base::{Cause, Image, NoMemory, StepFault, UpdateWords, WordKind};
use std::alloc::Global;
use std::marker::Model;

/// What is kept of the answers that were laid so far, for a merge into a memory of these kinds.
#[derive(Drop)]
pub struct Stage {
    kinds: Vec<WordKind>,
    laid: Vec<bool>,
    /// Per word the least number that has an entry for it, or the number of routines.
    owners: Vec<u32>,
    /// Per ordinary word its owner's value, per tally word the sum of all entries for it, which 128 bits always hold.
    values: Vec<i128>,
    /// The least pair of a number and an ordinary word that it shares with a lower number.
    candidate: Option<(u32, u32)>,
    /// The least number that failed, with its cause.
    failed: Option<(u32, Cause)>,
}

impl Model for Stage {
    ghost use Rattle.step_merge.specs.Staged.{Staged};
    ghost use Rattle.step_merge.specs.Steps.{IsSound};

    ghost Value = { Staged };

    ghost view = { λ s. record { kinds = s.kinds.items; laid = s.laid.items; owners = s.owners.items; values = s.values.items; candidate = s.candidate; failed = s.failed } };

    ghost invariant = { λ s. IsSound (record { kinds = s.kinds.items; laid = s.laid.items; owners = s.owners.items; values = s.values.items; candidate = s.candidate; failed = s.failed }) };
}

/// Whether the first pair is less, by its first part and then by its second.
fn is_less(p: (u32, u32), q: (u32, u32)) -> bool
    ensures { result ≡ is_lesser p q }
{
    p.0 < q.0 || (p.0 == q.0 && p.1 < q.1)
}

/// The lesser of the pair that was found, if one was, and another.
fn lesser(found: Option<(u32, u32)>, pair: (u32, u32)) -> (u32, u32)
    ensures { result ≡ lesser_pair found pair }
{
    match found {
        None => pair,
        Some(old) => { if is_less(pair, old) { pair } else { old } }
    }
}

/// The lesser of what failed, if something did, and number k.
fn first_failed(found: Option<(u32, Cause)>, k: u32, cause: Cause) -> (u32, Cause)
    ensures { result ≡ lesser_failed found k cause }
{
    match found {
        None => (k, cause),
        Some(old) => { if k < old.0 { (k, cause) } else { old } }
    }
}

/// The lesser number of the candidate and of what failed.
fn least_of(candidate: Option<(u32, u32)>, failed: Option<(u32, Cause)>) -> Option<u32>
    ensures { result ≡ least_in candidate failed }
{
    match candidate {
        None => match failed {
            None => None,
            Some(first) => Some(first.0),
        },
        Some(pair) => match failed {
            None => Some(pair.0),
            Some(first) => Some(pair.0.min(first.0)),
        },
    }
}

/// Whether a word that has an entry has a total outside 64 bits.
fn is_outside_total(is_entered: bool, total: i128) -> bool
    ensures { result ≡ (is_entered && not (fits_word total)) }
{
    is_entered && (total < (i64::MIN as i128) || (i64::MAX as i128) < total)
}

impl Stage {
    /// The stage of n routines, of which none has an answer yet, for a merge into an image of these kinds. All the memory that it
    /// will need is taken here.
    pub fn make(alloc: Global, image: &Image, n: u32) -> Result<Stage, NoMemory>
        ensures kinds { IfOk result (λ stage. stage.kinds ≡ kinds_of image.now.memory) }
        ensures empty { IfOk result (λ stage. StandsFor stage (replicate n None)) }
        ensures size { IfOk result (λ stage. size_of stage ≡ n) }
    {
        let words = image.len();
        let kinds = Vec::from_slice(alloc, image.kinds())?;
        Ok(Stage {
            kinds,
            laid: vec![in alloc; false; n as usize]?,
            owners: vec![in alloc; n; words as usize]?,
            values: vec![in alloc; 0i128; words as usize]?,
            candidate: None,
            failed: None,
        })
    }

    /// Lays the update of routine k, which has no answer yet. Entries past the last word count for nothing.
    pub fn lay<U: UpdateWords>(&mut self, k: u32, update: &U)
        requires in_range { k < size_of self.old }
        requires free { IsFree self.old k }
        ensures { LaysAt self.old self.new k (Update (U.update update.now)) }
    {
        self.mark(k);
        let mut from = 0u32;
        while let Some((a, v)) = update.next_from(from) {
            if a as usize >= self.kinds.len() {
                break;
            }
            self.enter(k, a, v);
            from = a + 1;
        }
    }

    /// Lays the fault of routine k, which has no answer yet.
    pub fn lay_fault(&mut self, k: u32, cause: Cause)
        requires in_range { k < size_of self.old }
        requires free { IsFree self.old k }
        ensures { LaysAt self.old self.new k (Fault cause) }
    {
        self.fail(k, cause);
    }

    /// The least faulty number among the answers that are laid, if one is faulty.
    pub fn least_fault(&self) -> Option<u32>
        ensures least { IsLeastFault self.now result }
        ensures in_range { ForSome result (λ k. k < size_of self.now) }
    {
        least_of(self.candidate, self.failed)
    }

    /// Merges what is laid into the image, unless the step ends in a fault: then the image stays as it is. Only words that
    /// have an entry are written.
    pub fn install(&mut self, image: &mut Image) -> Result<(), StepFault>
        requires { self.old.kinds ≡ kinds_of image.old.memory }
        ensures merged { Merges self.old image.old.memory image.new.memory result }
        ensures kept { OnErr result (image.new ≡ image.old) }
        ensures stage { self.new ≡ self.old }
        ensures later { IsLater image.old image.new }
        ensures pages { KeepsPages self.old image.old image.new }
    {
        if let Some(fault) = self.fault() {
            return Err(fault);
        }
        if let Some(word) = self.outside(image) {
            return Err(StepFault::Total { word });
        }
        self.merge(image);
        Ok(())
    }

    /// Notes that routine k is laid.
    fn mark(&mut self, k: u32)
        requires in_range { k < size_of self.old }
        requires free { IsFree self.old k }
        ensures marked { self.new ≡ with_laid self.old k }
        ensures owners { length self.new.owners ≡ length self.new.kinds }
        ensures values { length self.new.values ≡ length self.new.kinds }
        ensures room { (a : ℕ) → HasRoom self.new a }
    {
        self.laid[k as usize] = true;
    }

    /// Takes routine k's entry for a word.
    fn enter(&mut self, k: u32, a: u32, v: i64)
        requires number { k < size_of self.old }
        requires word { a < length self.old.kinds }
        requires room { HasRoom self.old a }
        ensures kinds { self.new.kinds ≡ self.old.kinds }
        ensures ordinary { IsTrue (is_ordinary self.old.kinds a) → self.new ≡ with_write self.old k a v }
        ensures tally { IsFalse (is_ordinary self.old.kinds a) → self.new ≡ with_sum self.old k a v }
    {
        match self.kinds[a as usize] {
            WordKind::Ordinary => self.write(k, a, v),
            WordKind::Tally => self.add(k, a, v),
        }
    }

    /// Takes what routine k wrote to an ordinary word.
    fn write(&mut self, k: u32, a: u32, v: i64)
        requires number { k < size_of self.old }
        requires word { a < length self.old.kinds }
        requires room { HasRoom self.old a }
        ensures { self.new ≡ with_write self.old k a v }
    {
        let owner = self.owner(a);
        self.meet(k, a, owner);
        if k < owner {
            self.set_owner(a, k);
            self.set_value(a, v as i128);
        }
    }

    /// Takes what routine k added to a tally word.
    fn add(&mut self, k: u32, a: u32, v: i64)
        requires number { k < size_of self.old }
        requires word { a < length self.old.kinds }
        requires tally { IsFalse (is_ordinary self.old.kinds a) }
        requires room { HasRoom self.old a }
        ensures { self.new ≡ with_sum self.old k a v }
    {
        let sum = self.sum(a, v);
        if k < self.owner(a) {
            self.set_owner(a, k);
        }
        self.set_value(a, sum);
    }

    /// The owner of a word, or the number of routines.
    fn owner(&self, a: u32) -> u32
        requires { a < length self.now.kinds }
        ensures { result ≡ owner_in self.now a }
    {
        self.owners[a as usize]
    }

    /// A word's value with so much more.
    fn sum(&self, a: u32, v: i64) -> i128
        requires word { a < length self.now.kinds }
        requires room { HasRoom self.now a }
        ensures { result ≡ value_in self.now a +ℤ v }
    {
        self.values[a as usize] + v as i128
    }

    /// Where the word has an owner, the larger of it and routine k is a candidate.
    fn meet(&mut self, k: u32, a: u32, owner: u32)
        requires number { k < size_of self.old }
        requires word { a < length self.old.kinds }
        requires owner { owner ≡ owner_in self.old a }
        ensures { self.new ≡ record self.old { candidate = candidate_with self.old k a } }
    {
        if (owner as usize) < self.laid.len() {
            self.candidate = Some(lesser(self.candidate, (k.max(owner), a)));
        }
    }

    /// Gives a word another owner.
    fn set_owner(&mut self, a: u32, k: u32)
        requires { a < length self.old.kinds }
        ensures { self.new ≡ record self.old { owners = slice_set self.old.owners a k } }
    {
        self.owners[a as usize] = k;
    }

    /// Gives a word another value.
    fn set_value(&mut self, a: u32, v: i128)
        requires word { a < length self.old.kinds }
        requires ordinary { IsTrue (is_ordinary self.old.kinds a) → IsTrue (fits_word v) }
        requires high { v ≤ℤ pos (2 ^ 63 * laid_count self.old.laid) }
        requires low { pos 0 ≤ℤ (v +ℤ pos (2 ^ 63 * laid_count self.old.laid)) }
        ensures { self.new ≡ record self.old { values = slice_set self.old.values a v } }
    {
        self.values[a as usize] = v;
    }

    /// Notes that routine k is laid, and failed.
    fn fail(&mut self, k: u32, cause: Cause)
        requires in_range { k < size_of self.old }
        requires free { IsFree self.old k }
        ensures { self.new ≡ with_failed self.old k cause }
    {
        self.laid[k as usize] = true;
        self.failed = Some(first_failed(self.failed, k, cause));
    }

    /// The candidate's conflict.
    fn conflict(&self, pair: (u32, u32)) -> StepFault
        requires { pair.1 < length self.now.kinds }
        ensures { result ≡ Conflict pair.0 pair.1 (owner_in self.now pair.1) }
    {
        StepFault::Conflict {
            routine: pair.0,
            word: pair.1,
            other: self.owners[pair.1 as usize],
        }
    }

    /// The fault of the least faulty number, if one is faulty.
    fn fault(&self) -> Option<StepFault>
        ensures { result ≡ fault_of_found self.now.candidate self.now.failed (owner_in self.now) }
    {
        match self.candidate {
            None => match self.failed {
                None => None,
                Some((routine, cause)) => Some(StepFault::Trap { routine, cause }),
            },
            Some(pair) => match self.failed {
                None => Some(self.conflict(pair)),
                Some((routine, cause)) => {
                    if pair.0 < routine {
                        Some(self.conflict(pair))
                    } else {
                        Some(StepFault::Trap { routine, cause })
                    }
                }
            },
        }
    }

    /// Whether a word has an entry.
    fn is_entered(&self, a: u32) -> bool
        requires { a < length self.now.kinds }
        ensures { result ≡ has_owner self.now a }
    {
        (self.owners[a as usize] as usize) < self.laid.len()
    }

    /// The value that is kept for a word.
    fn kept(&self, a: u32) -> i128
        requires { a < length self.now.kinds }
        ensures value { result ≡ value_in self.now a }
        ensures high { result ≤ℤ pos (2 ^ 95) }
        ensures low { pos 0 ≤ℤ (result +ℤ pos (2 ^ 95)) }
        ensures ordinary { IsTrue (is_ordinary self.now.kinds a) → IsTrue (fits_word result) }
    {
        self.values[a as usize]
    }

    /// What the entries for a word of this kind make of its value.
    fn value(&self, kind: WordKind, a: u32, opening: i64) -> i128
        requires { a < length self.now.kinds }
        ensures value { result ≡ entered kind self.now a opening }
        ensures ordinary { IsTrue (is_ordinary self.now.kinds a) → IsTrue (fits_word (value_in self.now a)) }
    {
        match kind {
            WordKind::Ordinary => self.kept(a),
            WordKind::Tally => opening as i128 + self.kept(a),
        }
    }

    /// Whether what is left in a word is a total outside 64 bits.
    fn is_outside_at(&self, image: &Image, a: u32) -> bool
        requires kinds { self.now.kinds ≡ kinds_of image.now.memory }
        requires word { a < length image.now.memory }
        ensures { result ≡ is_outside_word (left_by self.now) image.now.memory a }
    {
        match image.kind(a) {
            WordKind::Ordinary => false,
            WordKind::Tally => is_outside_total(
                self.is_entered(a),
                self.value(WordKind::Tally, a, image.word(a)),
            ),
        }
    }

    /// The least word whose total is outside 64 bits.
    fn outside(&self, image: &Image) -> Option<u32>
        requires { self.now.kinds ≡ kinds_of image.now.memory }
        ensures { result ≡ position is_outside (left_memory (left_by self.now) image.now.memory) }
    {
        let words = image.len();
        for a in 0..words {
            if self.is_outside_at(image, a) {
                return Some(a);
            }
        }
        None
    }

    /// Writes what is left in a word that has an entry.
    fn write_word(&self, image: &mut Image, a: u32)
        requires kinds { self.now.kinds ≡ kinds_of image.old.memory }
        requires word { a < length image.old.memory }
        requires entered { IsTrue (has_owner self.now a) }
        requires inside { IsFalse (is_outside_word (left_by self.now) image.old.memory a) }
        ensures memory { image.new.memory ≡ with_value image.old.memory a
            (left_by self.now (kind_at image.old.memory a) a (value_at image.old.memory a)) }
        ensures later { IsLater image.old image.new }
        ensures pages { (p : ℕ) → (page_of a ≡ p → ⊥) → version_of image.new p ≡ version_of image.old p }
    {
        let v = self.value(image.kind(a), a, image.word(a));
        image.set(a, v as i64);
    }

    /// Writes what is left in a word, where it has an entry.
    fn merge_word(&self, image: &mut Image, a: u32)
        requires kinds { self.now.kinds ≡ kinds_of image.old.memory }
        requires word { a < length image.old.memory }
        requires inside { IsFalse (is_outside_word (left_by self.now) image.old.memory a) }
        ensures memory { image.new.memory ≡ with_value image.old.memory a
            (left_by self.now (kind_at image.old.memory a) a (value_at image.old.memory a)) }
        ensures later { IsLater image.old image.new }
        ensures pages { (p : ℕ) → (page_of a ≡ p → IsFalse (has_owner self.now a)) → version_of image.new p ≡ version_of image.old p }
    {
        if self.is_entered(a) {
            self.write_word(image, a);
        }
    }

    /// Writes what is left in each word that has an entry, where no total is outside 64 bits.
    fn merge(&self, image: &mut Image)
        requires kinds { self.now.kinds ≡ kinds_of image.old.memory }
        requires none { position is_outside (left_memory (left_by self.now) image.old.memory) ≡ None }
        ensures memory { image.new.memory ≡ left_memory (left_by self.now) image.old.memory }
        ensures later { IsLater image.old image.new }
        ensures pages { (p : ℕ) → ((a : ℕ) → a < length self.now.kinds → page_of a ≡ p → IsFalse (has_owner self.now a))
            → version_of image.new p ≡ version_of image.old p }
    {
        let words = image.len();
        for a in 0..words {
            self.merge_word(image, a);
        }
    }
}
