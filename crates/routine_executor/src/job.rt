//! A step's job.

ghost use Rattle.std.specs.Prelude.{◌≡◌, ◌+◌, ◌≤◌, length, sum};
ghost use Rattle.engine_laws.specs.Steps.{step_job};
ghost use Rattle.routine_executor.specs.Jobs.{jobs_are-set};

use cal_base::{Image, JobName};
use code_verify::Verified;
use std::marker::PhantomData;

/// What all who work at a step are given: the step's number, the image on which it opens, the code, the first of its blocks, the widths of
/// its blocks, how many routines there are, 65,536 at most, and the units of fuel that each has. The name N means this step's job.
#[derive(Drop)]
pub struct Job<'a, N: JobName> {
    pub step: u64,
    pub image: &'a Image,
    pub code: &'a Verified,
    pub first_block: u32,
    pub widths: &'a [u32],
    pub n: u32,
    pub fuel: u32,
    name: PhantomData<N>,
    pub ghost there: { first_block + length widths.now ≤ length code.now.blocks },
    pub ghost all: { sum widths.now ≡ n },
    pub ghost few: { n ≤ 65536 },
    pub ghost named: { N.job ≡ step_job code.now fuel step image.now.memory first_block widths.now } by { jobs_are-set N.job (step_job code.now fuel step image.now.memory first_block widths.now) },
}

impl<'a, N: JobName> Job<'a, N> {
    /// The job that the name means.
    pub fn of(
        step: u64,
        image: &'a Image,
        code: &'a Verified,
        first_block: u32,
        widths: &'a [u32],
        n: u32,
        fuel: u32,
    ) -> Job<'a, N>
        requires there { first_block + length widths.now ≤ length code.now.blocks }
        requires all { sum widths.now ≡ n }
        requires few { n ≤ 65536 }
        requires named { N.job ≡ step_job code.now fuel step image.now.memory first_block widths.now }
        ensures image { result.image.now ≡ image.now }
        ensures code { result.code.now ≡ code.now }
        ensures n { result.n ≡ n }
    {
        Job {
            step,
            image,
            code,
            first_block,
            widths,
            n,
            fuel,
            name: PhantomData,
        }
    }
}
