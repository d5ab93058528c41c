//! The workers and the caller of a run.

ghost use Rattle.std.specs.Prelude.{◌≡◌, ◌+◌, ◌<◌, ◌≤◌, ◌++◌, ◌∷◌, [], length, map, vec_len, vec_capacity, IfOk, OnOk};
ghost use Rattle.cal_base.specs.Memory.{kinds_of};
ghost use Rattle.machine_meaning.specs.Meaning.{module_memory};
ghost use Rattle.calypso_engine.specs.Beginning.{IsBegun, AreBegun, IsFresh};

use crate::options::RunOptions;
use cal_base::{CALLER, Image, NoMemory, WorkerTally};
use code_verify::Verified;
use fault_script::ScriptRow;
use std::alloc::Global;
use worker_gate::Worker;

/// The workers of a run, ascending, and the caller. A team is ended by `end`, which gives all frames back.
pub struct Team {
    pub workers: Vec<Worker>,
    pub caller: Worker,
}

/// Ends each worker.
fn end_workers(workers: Vec<Worker>) {
    let mut workers = workers;
    let count = workers.len();
    for ended in 0..count {
        match workers.pop() {
            Some(worker) => worker.end(),
            None => {}
        }
    }
    workers.destroy_empty();
}

/// The worker of this number, by its row of the script.
fn make_worker(
    alloc: Global,
    options: &RunOptions<'_>,
    who: u8,
    image: &Image,
    code: &Verified,
) -> Result<Worker, NoMemory>
    requires who { who < CALLER }
    requires least { 2 ≤ options.now.frames }
    requires most { options.now.frames ≤ 4096 }
    requires kinds { kinds_of image.now.memory ≡ kinds_of (module_memory code.now) }
    ensures { IfOk result (λ worker. IsBegun options.now.script.now image.now code.now who worker) }
{
    let row = options.script.row(alloc, who)?;
    let worker = Worker::make(alloc, row, options.frames, image, code)?;
    let _done = worker.tally();
    Ok(worker)
}

/// Makes the workers, where there is room for them.
fn add_workers(
    alloc: Global,
    options: &RunOptions<'_>,
    image: &Image,
    code: &Verified,
    workers: &mut Vec<Worker>,
) -> Result<(), NoMemory>
    requires few { options.now.workers ≤ CALLER }
    requires none { workers.old.items ≡ [] }
    requires empty { vec_len workers.old ≡ 0 }
    requires room { options.now.workers ≤ vec_capacity workers.old }
    requires least { 2 ≤ options.now.frames }
    requires most { options.now.frames ≤ 4096 }
    requires kinds { kinds_of image.now.memory ≡ kinds_of (module_memory code.now) }
    ensures { OnOk result (AreBegun options.now.script.now options.now.workers image.now code.now workers.new.items) }
{
    for who in 0..options.workers {
        let worker = make_worker(alloc, options, who, image, code)?;
        workers.push_reserved(worker);
    }
    Ok(())
}

/// The team of these workers and the caller.
fn with_caller(
    alloc: Global,
    options: &RunOptions<'_>,
    image: &Image,
    code: &Verified,
    workers: Vec<Worker>,
) -> Result<Team, NoMemory>
    requires begun { AreBegun options.now.script.now options.now.workers image.now code.now workers.items }
    requires least { 2 ≤ options.now.frames }
    requires most { options.now.frames ≤ 4096 }
    requires kinds { kinds_of image.now.memory ≡ kinds_of (module_memory code.now) }
    ensures { IfOk result (λ team. IsFresh options.now.script.now options.now.workers image.now code.now team) }
{
    let row = ScriptRow::plain(alloc, CALLER);
    match Worker::make(alloc, row, options.frames, image, code) {
        Ok(caller) => Ok(Team { workers, caller }),
        Err(error) => {
            end_workers(workers);
            Err(error)
        }
    }
}

impl Team {
    /// The team that is asked for. All that it needs is taken here.
    pub fn make(
        alloc: Global,
        options: &RunOptions<'_>,
        image: &Image,
        code: &Verified,
    ) -> Result<Team, NoMemory>
        requires few { options.now.workers ≤ CALLER }
        requires least { 2 ≤ options.now.frames }
        requires most { options.now.frames ≤ 4096 }
        requires kinds { kinds_of image.now.memory ≡ kinds_of (module_memory code.now) }
        ensures { IfOk result (λ team. IsFresh options.now.script.now options.now.workers image.now code.now team) }
    {
        let mut workers = Vec::with_capacity(alloc, usize::from(options.workers))?;
        match add_workers(alloc, options, image, code, &mut workers) {
            Ok(()) => with_caller(alloc, options, image, code, workers),
            Err(error) => {
                end_workers(workers);
                Err(error)
            }
        }
    }

    /// Adds what each worker did, and the caller behind them, where there is room.
    pub fn add_tallies(&self, tallies: &mut Vec<WorkerTally>)
        requires { vec_len tallies.old + (length self.now.workers.items + 1) ≤ vec_capacity tallies.old }
        ensures { tallies.new.items ≡ tallies.old.items ++ (map (λ worker. worker.tally) self.now.workers.items
            ++ self.now.caller.tally ∷ []) }
    {
        for worker in &self.workers {
            tallies.push_reserved(worker.tally());
        }
        tallies.push_reserved(self.caller.tally());
    }

    /// Ends the workers and the caller.
    pub fn end(self) {
        let Team { workers, caller } = self;
        end_workers(workers);
        caller.end();
    }
}
