//! A worker, and what it keeps of its work.

ghost use Rattle.std.specs.Prelude.{◌≡◌, ◌+◌, ◌<◌, ◌≤◌, ◌^◌, IfOk, Some, None, false, slice_get};
ghost use Rattle.std.specs.Option.{option_map};
ghost use Rattle.cal_base.specs.Answers.{answer_by};
ghost use Rattle.cal_base.specs.Memory.{kinds_of};
ghost use Rattle.cal_base.specs.Claims.{size_of};
ghost use Rattle.machine_meaning.specs.Meaning.{module_memory};
ghost use Rattle.fault_script.specs.Rows.{IsTallyOf};
ghost use Rattle.fault_script.specs.Acts.{counted_as};
ghost use Rattle.worker_gate.specs.Acting.{held_after};
ghost use Rattle.routine_executor.specs.Executing.{Asks};
ghost use Rattle.worker_gate.specs.Working.{MayWork, Executes, first_tally, with_claims, kept_by};

use cal_base::{CALLER, Image, JobName, NoMemory, RoutineEnd, WorkerTally};
use code_verify::Verified;
use fault_script::{Act, ScriptRow, count_claim, first_tally};
use routine_executor::{BufferView, Executor, Job};
use std::alloc::Global;
use std::marker::Model;

/// What a worker holds back: the answer of routine k of a step.
#[derive(Clone, Copy, PartialEq, Eq, Debug)]
pub struct Held {
    pub step: u64,
    pub k: u32,
}

/// A worker, or the caller: it has a row of the script and an executor of its own, and counts what it does. It is ended by `end`, which
/// gives its frames back.
pub struct Worker {
    row: ScriptRow,
    // The count of pages is the executor's.
    tally: WorkerTally,
    held: Option<Held>,
    executor: Executor,
}

impl Model for Worker {
    ghost use Rattle.std.specs.Prelude.{◌≤◌, ◌<◌};
    ghost use Rattle.std.specs.Option.{option_map};
    ghost use Rattle.cal_base.specs.declared.step.TheConstants.{CALLER};
    ghost use Rattle.fault_script.specs.Rows.{IsTallyOf};
    ghost use Rattle.worker_gate.specs.Working.{WorkerState, with_pages};

    ghost Value = { WorkerState };

    ghost use Rattle.std.specs.Coded.{codes, coded_ℕ, coded_ℤ};
    ghost use Rattle.std.specs.FinMap.{code as map_code};
    ghost use Rattle.std.specs.Ordering.{nat_cmp};

    ghost coded = { Prim.hlevel (codes, map_code {R = nat_cmp} coded_ℕ coded_ℤ) };

    ghost view = { λ w. record {
      row = w.row;
      tally = with_pages w.tally w.executor.fetched;
      holds = option_map (λ h. h.step) w.held;
      words = w.executor.words;
      kept = w.executor.kept;
      written = w.executor.written;
    } };

    ghost invariant = { λ w. (w.tally.executed ≤ w.tally.claims) × (w.tally.who < CALLER → IsTallyOf w.row w.tally) };
}

impl Worker {
    /// The worker of this row, or the caller, for a run of this code, on an image that has the words of the code's module. It keeps so many
    /// pages at most. All that its executions need is taken here.
    pub fn make(
        alloc: Global,
        row: ScriptRow,
        frames: u32,
        image: &Image,
        code: &Verified,
    ) -> Result<Worker, NoMemory>
        requires least { 2 ≤ frames }
        requires most { frames ≤ 4096 }
        requires kinds { kinds_of image.now.memory ≡ kinds_of (module_memory code.now) }
        ensures row { IfOk result (λ worker. worker.row ≡ row) }
        ensures tally { IfOk result (λ worker. worker.tally ≡ first_tally row.number) }
        ensures holds { IfOk result (λ worker. worker.holds ≡ None) }
        ensures size { IfOk result (λ worker. worker.kept.size ≡ frames) }
        ensures may { IfOk result (λ worker. MayWork worker image.now code.now) }
    {
        let tally = first_tally(&row);
        let executor = Executor::make(alloc, frames, image, code)?;
        Ok(Worker {
            row,
            tally,
            held: None,
            executor,
        })
    }

    /// What the worker did so far, over the whole run.
    pub fn tally(&self) -> WorkerTally
        ensures tally { result ≡ self.now.tally }
        ensures follows { self.now.tally.who < CALLER → IsTallyOf self.now.row self.now.tally }
    {
        WorkerTally {
            pages: self.executor.fetched(),
            ..self.tally
        }
    }

    /// Ends the worker: its frames are given back, and it is dropped.
    pub fn end(self) {
        let Worker {
            row: _,
            tally: _,
            held: _,
            executor,
        } = self;
        executor.end();
    }

    /// Begins a step: the kept pages stay, and none of them counts as read.
    pub(crate) fn begin_step(&mut self)
        ensures { self.new ≡ self.old }
    {
        self.executor.begin_step();
    }

    /// Executes routine k. What it wrote is in the buffer.
    pub(crate) fn run<N: JobName>(&mut self, job: &Job<'_, N>, k: u32) -> RoutineEnd
        requires number { k < size_of N.job }
        requires may { MayWork self.old job.now.image.now job.now.code.now }
        ensures answer { slice_get N.job.answers k ≡ Some (answer_by result self.new.written) }
        ensures rest { Executes self.old self.new job.now.image.now job.now.code.now }
    {
        self.executor.run(job, k)
    }

    /// The worker's cache keeps page p of the job's image, numbered from 0 on, where the image has it. The page is fetched, and counts as
    /// fetched, where it is not kept as it is in the image.
    pub fn fetch<N: JobName>(&mut self, job: &Job<'_, N>, p: u32)
        requires may { MayWork self.old job.now.image.now job.now.code.now }
        ensures asks { Asks (kept_by self.old) (kept_by self.new) job.now.image.now p }
        ensures rest { Executes self.old self.new job.now.image.now job.now.code.now }
    {
        self.executor.fetch(job.image, p);
    }

    /// What the last execution wrote.
    pub(crate) fn view(&self) -> BufferView<'_>
        ensures { result.executor.now.written ≡ self.now.written }
    {
        BufferView::of(&self.executor)
    }

    /// One more claim of the caller, which was executed.
    pub(crate) fn count(&mut self)
        requires caller { CALLER ≤ self.old.tally.who }
        requires fits { self.old.tally.claims + 1 < 2 ^ 64 }
        ensures { self.new ≡ record self.old { tally = with_claims self.old.tally 1 } }
    {
        self.tally.claims += 1;
        self.tally.executed += 1;
    }
}

impl Worker {
    /// One more claim of a worker, and what it does with the answer, or nothing where it stops before it executes.
    pub(crate) fn note_claim(&mut self) -> Option<Act>
        requires who { self.old.tally.who < CALLER }
        requires goes_on { self.old.tally.stopped ≡ false }
        ensures noted { self.new ≡ record self.old { tally = counted_as self.old.tally result } }
        ensures follows { IsTallyOf self.new.row self.new.tally }
    {
        count_claim(&self.row, &mut self.tally)
    }

    /// Holds back an answer where the act says so. What it held before is dropped then.
    pub(crate) fn hold_by(&mut self, act: Act, held: Held)
        ensures { self.new ≡ record self.old { holds = held_after act held.step self.old.holds } }
    {
        match act {
            Act::Hold => self.held = Some(held),
            Act::Deliver | Act::Lose | Act::Repeat => {}
        }
    }

    /// Takes what the worker holds back.
    pub(crate) fn take_held(&mut self) -> Option<Held>
        ensures held { self.old.holds ≡ option_map (λ h. h.step) result }
        ensures rest { self.new ≡ record self.old { holds = None } }
    {
        self.held.take()
    }
}
