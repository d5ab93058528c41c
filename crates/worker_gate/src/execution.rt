//! An execution of a routine.

ghost use Rattle.std.specs.Prelude.{◌≡◌, ◌<◌};
ghost use Rattle.std.specs.Borrow.{sem};
ghost use Rattle.cal_base.specs.Claims.{size_of};
ghost use Rattle.worker_gate.specs.Working.{MayWork};
ghost use Rattle.worker_gate.specs.Lending.{LendsBuffer};

use crate::worker::Worker;
use cal_base::JobName;
use routine_executor::{BufferView, Job};
use step_core::Finished;

/// Executes routine k of the job on the step's opening image alone. The result is answer k, and lends the worker's buffer.
pub fn execute<'w, N: JobName>(
    worker: &'w mut Worker,
    job: &Job<'_, N>,
    k: u32,
) -> Finished<N, BufferView<'w>>
    requires number { k < size_of N.job }
    requires may { MayWork worker.old job.now.image.now job.now.code.now }
    ensures k { result.k ≡ k }
    ensures* kept { sem 𝓛 (LendsBuffer worker.entry job.now.image.now job.now.code.now) }
{
    let ended = worker.run(job, k);
    Finished::of(k, ended, worker.view())
}
