//! The name of one step's job.

ghost use Rattle.std.specs.Prelude.{[]};
ghost use Rattle.cal_base.specs.Claims.{StepJob};

use std::marker::Brand;

/// Names one step's job: its number, the memory that it opens on, and the answer of each of its routines.
/// All values that carry the name mean the same job. The name has no code.
pub trait JobName {
    ghost job: { StepJob };
}

/// Each step picks a job of its own under this name.
impl JobName for Brand {
    ghost job = { record { number = 0; opening = []; answers = [] } };
}
