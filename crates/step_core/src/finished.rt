//! What a routine of the step answered.

ghost use Rattle.std.specs.Prelude.{◌≡◌, Some, slice_get};
ghost use Rattle.cal_base.specs.Answers.{answer_by, answers_are-set};

use cal_base::{JobName, RoutineEnd, UpdateWords};
use std::marker::PhantomData;

/// How routine k of the job ended, and what it wrote. It is that routine's answer.
#[derive(Drop)]
pub struct Finished<N: JobName, U: UpdateWords> {
    /// The routine's number, from 0 on.
    pub k: u32,
    /// Whether it came to its end, or why it stopped.
    pub ended: RoutineEnd,
    /// What it wrote and added; nothing of it counts where it stopped early.
    pub words: U,
    of: PhantomData<N>,
    ghost is_answer: { slice_get N.job.answers k ≡ Some (answer_by ended (U.update words)) } by { answers_are-set (slice_get N.job.answers k) (Some (answer_by ended (U.update words))) },
}

impl<N: JobName, U: UpdateWords> Finished<N, U> {
    /// The end of routine k and its words, where they are its answer.
    pub fn of(k: u32, ended: RoutineEnd, words: U) -> Finished<N, U>
        requires { slice_get N.job.answers k ≡ Some (answer_by ended (U.update words)) }
        ensures k { result.k ≡ k }
        ensures ended { result.ended ≡ ended }
        ensures words { result.words ≡ words }
    {
        Finished {
            k,
            ended,
            words,
            of: PhantomData,
        }
    }
}
