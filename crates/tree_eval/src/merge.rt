//! The merge of a step: what the answers of its routines leave in the memory.

ghost use Rattle.std.specs.Prelude.{◌≡◌, ◌<◌, ◌≤◌, None, IfOk, length, replicate};
ghost use Rattle.cal_base.specs.Memory.{kinds_of};
ghost use Rattle.cal_base.specs.After.{after};
ghost use Rattle.step_merge.specs.Staged.{size_of, IsFree, StandsFor};
ghost use Rattle.tree_eval.specs.Merged.{AreTallies, LaysOne};

use cal_base::{Answer, Image, NoMemory, StepFault, Word, WordKind};
use cal_terms::limits::{MOST_ROUTINES, MOST_WORDS};
use sqlite_items::Items;
use statement_eval::store::{kind_at, value_at};
use std::alloc::Global;
use step_merge::Stage;

/// The addresses of the tally words.
fn tallies_of(alloc: Global, memory: &[Word]) -> Result<Items<u32>, NoMemory>
    requires { length memory.now ≤ MOST_WORDS }
    ensures { IfOk result (λ tallies. AreTallies tallies memory.now) }
{
    let words = memory.len() as u32;
    let mut tallies = Items::new(alloc);
    for a in 0..words {
        match kind_at(memory, a) {
            WordKind::Ordinary => {}
            WordKind::Tally => tallies.push(a)?,
        }
    }
    Ok(tallies)
}

/// Gives each word of an image the value that it has in the memory.
fn fill(image: &mut Image, memory: &[Word])
    requires { kinds_of image.old.memory ≡ kinds_of memory.now }
    ensures { image.new.memory ≡ memory.now }
{
    for a in 0..image.len() {
        image.set(a, value_at(memory, a));
    }
}

/// An image of the memory.
fn image_of(alloc: Global, memory: &[Word]) -> Result<Image, NoMemory>
    requires { length memory.now ≤ MOST_WORDS }
    ensures { IfOk result (λ image. image.memory ≡ memory.now) }
{
    let tallies = tallies_of(alloc, memory)?;
    let mut image = Image::make(alloc, memory.len() as u32, tallies.as_slice(), &[])?;
    fill(&mut image, memory);
    Ok(image)
}

/// The words of an image.
fn words_in(alloc: Global, image: &Image) -> Result<Items<Word>, NoMemory>
    ensures { IfOk result (λ memory. memory ≡ image.now.memory) }
{
    let mut memory = Items::new(alloc);
    for a in 0..image.len() {
        let kind = image.kind(a);
        let value = image.word(a);
        memory.push(Word { kind, value })?;
    }
    Ok(memory)
}

/// Lays what number k answered.
fn lay(stage: &mut Stage, k: u32, answer: &Option<Answer>)
    requires in_range { k < size_of stage.old }
    requires free { IsFree stage.old k }
    ensures kinds { stage.new.kinds ≡ stage.old.kinds }
    ensures lays { LaysOne stage.old stage.new k answer.now }
{
    match answer {
        Some(Answer::Update(update)) => stage.lay(k, update),
        Some(Answer::Fault(cause)) => stage.lay_fault(k, *cause),
        None => {}
    }
}

/// Lays what all numbers answered, by ascending number.
fn lay_all(stage: &mut Stage, laid: &[Option<Answer>])
    requires few { length laid.now ≤ MOST_ROUTINES }
    requires empty { StandsFor stage.old (replicate (length laid.now) None) }
    ensures kinds { stage.new.kinds ≡ stage.old.kinds }
    ensures stands { StandsFor stage.new laid.now }
{
    let n = laid.len() as u32;
    for k in 0..n {
        lay(stage, k, &laid[k as usize]);
    }
}

/// The stage on which the answers are laid.
fn staged(alloc: Global, image: &Image, laid: &[Option<Answer>]) -> Result<Stage, NoMemory>
    requires { length laid.now ≤ MOST_ROUTINES }
    ensures kinds { IfOk result (λ stage. stage.kinds ≡ kinds_of image.now.memory) }
    ensures stands { IfOk result (λ stage. StandsFor stage laid.now) }
{
    let mut stage = Stage::make(alloc, image, laid.len() as u32)?;
    lay_all(&mut stage, laid);
    Ok(stage)
}

/// The memory that the answers leave, or the fault in which the step ends. It takes time by the words and by the entries of the answers.
pub fn merge(
    alloc: Global,
    memory: &[Word],
    laid: &[Option<Answer>],
) -> Result<Result<Items<Word>, StepFault>, NoMemory>
    requires numbers { length laid.now ≤ MOST_ROUTINES }
    requires words { length memory.now ≤ MOST_WORDS }
    ensures merged { IfOk result (λ left. after memory.now laid.now ≡ left) }
    ensures words { IfOk result (λ left. IfOk left (λ later. length later ≡ length memory.now)) }
{
    let mut image = image_of(alloc, memory)?;
    let mut stage = staged(alloc, &image, laid)?;
    match stage.install(&mut image) {
        Ok(()) => {
            let later = words_in(alloc, &image)?;
            Ok(Ok(later))
        }
        Err(fault) => Ok(Err(fault)),
    }
}
