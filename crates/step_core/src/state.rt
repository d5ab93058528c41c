//! The core of a step: its history, and what follows from it.

ghost use Rattle.std.specs.Prelude.{OnErr, IfOk, ℕ, ◌≡◌, ◌+◌, ◌^◌, ◌<◌, ◌≤◌, ◌↔◌, [], ◌∷◌, ◌++◌, IsTrue, vec_len, vec_capacity};
ghost use Rattle.cal_base.specs.Pages.{IsLater, version_of};
ghost use Rattle.step_merge.specs.Staged.{IsUnwritten};
ghost use Rattle.cal_base.specs.Answers.{answer_by, all_of};
ghost use Rattle.ties_commit.specs.Committed.{answer_in};
ghost use Rattle.cal_base.specs.Claims.{size_of, claimed, verdict_on, IsLegal, IsComplete, meant};
ghost use Rattle.cal_base.specs.History.{claims_by, arrivals_by, is_caller};
ghost use Rattle.step_core.specs.Calls.{IsEnd, after_claim, after_arrival, has_entry};

use crate::finished::Finished;
use cal_base::{
    CALLER, Claimed, Entry, Image, JobName, NoMemory, RoutineEnd, StepFault, UpdateWords, Verdict,
    arrival_bound, claim_bound,
};
use progress_table::ProgressTable;
use std::alloc::Global;
use std::marker::{Model, PhantomData};
use step_merge::Stage;
use ties_commit::{Delivery, commit, judge};

/// The history of the step that N names, with what follows from it.
#[derive(Drop)]
pub struct Core<N: JobName> {
    number: u64,
    table: ProgressTable,
    stage: Stage,
    claims: u32,
    arrivals: u32,
    history: Vec<Entry>,
    name: PhantomData<N>,
}

impl<N: JobName> Model for Core<N> {
    ghost use Rattle.std.specs.Prelude.{List, vec_capacity};
    ghost use Rattle.cal_base.specs.declared.step.Entry.{Entry};
    ghost use Rattle.step_core.specs.Kept.{IsKept};

    ghost Value = { List Entry };

    ghost view = { λ c. c.history.items };

    ghost invariant = { λ c. IsKept N.job c.table c.stage c.number c.claims c.arrivals (vec_capacity c.history) c.history.items };
}

/// What a step leaves: its history, and its fault where it has one.
#[derive(Drop)]
pub struct Closed {
    /// All entries, the earliest first.
    pub history: Vec<Entry>,
    /// Whether the memory now is what the step leaves, or the fault by which the step leaves none.
    pub result: Result<(), StepFault>,
}

/// Adds an entry where there is room.
fn enter(history: &mut Vec<Entry>, entry: Entry)
    requires { vec_len history.old < vec_capacity history.old }
    ensures items { history.new.items ≡ history.old.items ++ entry ∷ [] }
    ensures room { vec_capacity history.old ≤ vec_capacity history.new }
{
    match history.push(entry) {
        Ok(()) => {}
        Err(_) => unreachable!(),
    }
}

/// A count of what workers did, after one more by this number.
fn raised(count: u32, who: u8) -> u32
    requires { count < 2 ^ 31 }
    ensures worker { who < 32 → result ≡ count + 1 }
    ensures caller { 32 ≤ who → result ≡ count }
{
    if who < CALLER { count + 1 } else { count }
}

/// Whether a delivery with this verdict stands in the history.
fn is_entered(verdict: Verdict) -> bool
    ensures { result ≡ has_entry verdict }
{
    match verdict {
        Verdict::Full => false,
        Verdict::First | Verdict::Again | Verdict::Stale | Verdict::Unasked => true,
    }
}

/// What is delivered of a routine that ended so and wrote this.
fn delivery_of<'a, U: UpdateWords>(ended: RoutineEnd, words: &'a U) -> Delivery<'a, U>
    ensures { answer_in U.update result ≡ answer_by ended (U.update words.now) }
{
    match ended {
        RoutineEnd::Ended => Delivery::Update(words),
        RoutineEnd::Fault(cause) => Delivery::Fault(cause),
    }
}

impl<N: JobName> Core<N> {
    /// A step that begins, of n routines, 65,536 at most: nothing was claimed, and nothing arrived. All the memory that its history
    /// will need is taken here.
    pub fn make(alloc: Global, step: u64, image: &Image, n: u32) -> Result<Core<N>, NoMemory>
        requires limit { n ≤ 65536 }
        requires step { step ≡ N.job.number }
        requires opening { image.now.memory ≡ N.job.opening }
        requires size { n ≡ size_of N.job }
        ensures { IfOk result (λ core. core ≡ []) }
    {
        let room = (claim_bound(n) + arrival_bound(n) + 2 * n) as usize;
        let table = ProgressTable::make(alloc, n)?;
        let stage = Stage::make(alloc, image, n)?;
        let history = Vec::with_capacity(alloc, room)?;
        Ok(Core {
            number: step,
            table,
            stage,
            claims: 0,
            arrivals: 0,
            history,
            name: PhantomData,
        })
    }

    /// The entries so far. They are legal.
    pub fn history(&self) -> &[Entry]
        ensures entries { result.now ≡ self.now }
        ensures legal { IsLegal N.job self.now }
    {
        self.history.as_slice()
    }

    /// Whether nothing is wanted.
    pub fn is_complete(&self) -> bool
        ensures { IsTrue result ↔ IsComplete N.job self.now }
    {
        match self.table.least_wanted() {
            Some(_) => false,
            None => true,
        }
    }

    /// The delivery, by a worker, of the answer of routine k of an older step, which is not laid. It is `Stale`, or `Full` and not
    /// entered.
    pub fn arrive_held(&mut self, who: u8, step: u64, k: u32) -> Verdict
        requires who { who < CALLER }
        requires step { step < N.job.number }
        ensures verdict { result ≡ verdict_on N.job self.old who step k }
        ensures history { self.new ≡ after_arrival self.old who step k result }
    {
        match judge(who, self.arrivals, self.table.len(), step, self.number) {
            Some(verdict) => {
                if is_entered(verdict) {
                    self.arrivals = raised(self.arrivals, who);
                    enter(
                        &mut self.history,
                        Entry::Arrive {
                            who,
                            step,
                            k,
                            verdict,
                        },
                    );
                }
                verdict
            }
            None => unreachable!(),
        }
    }

    /// Merges the answers of a complete step into the memory that it opened on. Where the step ends in a fault, the memory stays as
    /// it is.
    pub fn close(self, image: &mut Image) -> Closed
        requires complete { IsComplete N.job self }
        requires opening { image.old.memory ≡ N.job.opening }
        ensures history { result.history.items ≡ self }
        ensures legal { IsLegal N.job self }
        ensures end { IsEnd (meant N.job) image.new.memory result.result }
        ensures kept { OnErr result.result (image.new ≡ image.old) }
        ensures later { IsLater image.old image.new }
        ensures pages { (p : ℕ) → IsUnwritten (all_of N.job.answers) p → version_of image.new p ≡ version_of image.old p }
    {
        let mut core = self;
        let result = core.stage.install(image);
        let history = core.history;
        Closed { history, result }
    }

    /// A claim by a worker, 0 to 31, or by the caller, which claims as many times as there are routines at most.
    pub fn claim(&mut self, who: u8) -> Claimed
        requires who { who ≤ CALLER }
        requires caller { who ≡ CALLER → claims_by is_caller self.old < size_of N.job }
        ensures answer { result ≡ claimed N.job self.old who }
        ensures history { self.new ≡ after_claim self.old who result }
    {
        let n = self.table.len();
        let answer = eager_claim::claim(&mut self.table, who, self.claims, n);
        match answer {
            Claimed::Work(k) => {
                self.claims = raised(self.claims, who);
                enter(&mut self.history, Entry::Claim { who, k });
            }
            Claimed::AllDone => {}
            Claimed::Spent => {}
        }
        answer
    }

    /// The delivery of an answer of this step, by a worker, 0 to 31, or by the caller, which delivers as many times as there are
    /// routines at most.
    pub fn arrive<U: UpdateWords>(&mut self, who: u8, done: &Finished<N, U>) -> Verdict
        requires who { who ≤ CALLER }
        requires caller { who ≡ CALLER → arrivals_by is_caller self.old < size_of N.job }
        ensures verdict { result ≡ verdict_on N.job self.old who N.job.number done.now.k }
        ensures history { self.new ≡ after_arrival self.old who N.job.number done.now.k result }
    {
        let step = self.number;
        let k = done.k;
        let what = delivery_of(done.ended, &done.words);
        let verdict = commit(
            &mut self.table,
            &mut self.stage,
            who,
            self.arrivals,
            step,
            step,
            k,
            what,
        );
        if is_entered(verdict) {
            self.arrivals = raised(self.arrivals, who);
            enter(
                &mut self.history,
                Entry::Arrive {
                    who,
                    step,
                    k,
                    verdict,
                },
            );
        }
        verdict
    }
}
