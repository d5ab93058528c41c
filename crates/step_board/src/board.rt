//! The board that workers share under a lock.

ghost use Rattle.std.specs.Prelude.{◌≡◌, ◌<◌, ◌≤◌, ◌+◌, ◌⊎◌, []};
ghost use Rattle.cal_base.specs.History.{claims_by, arrivals_by, is_worker};
ghost use Rattle.cal_base.specs.Claims.{size_of, claim_bound, arrival_bound, claimed, verdict_on, IsComplete, IsLegal};
ghost use Rattle.step_laws.specs.Caller.{NoCaller};
ghost use Rattle.step_laws.specs.Turns.{after_claim, after_arrival};
ghost use Rattle.step_board.specs.Counted.{stale_arrivals, current_arrivals};
ghost use Rattle.step_board.specs.Amounts.{nothing_counted, with_claim, with_arrival, with_held};

use crate::shares::WorkerShares;
use cal_base::{CALLER, Claimed, JobName, UpdateWords, Verdict};
use std::marker::{Model, PhantomData};
use std::sync::ledger::{Blank, Book, Ledger};
use step_core::{Core, Finished};

/// The core of a step, and the books that count what workers do to it. It is seen as the core's history.
#[derive(Drop)]
pub struct Board<N: JobName, C: Ledger, A: Ledger, H: Ledger, E: Ledger> {
    core: Core<N>,
    claims: Book<C>,
    arrivals: Book<A>,
    held: Book<H>,
    ends: Book<E>,
}

impl<N: JobName, C: Ledger, A: Ledger, H: Ledger, E: Ledger> Model for Board<N, C, A, H, E> {
    ghost use Rattle.std.specs.Prelude.{List};
    ghost use Rattle.cal_base.specs.declared.step.Entry.{Entry};
    ghost use Rattle.step_board.specs.Counted.{IsCounted};

    ghost Value = { List Entry };

    ghost view = { λ b. b.core };

    ghost invariant = { λ b. IsCounted N.job b.core b.claims.total b.arrivals.total b.held.total b.ends.total };
}

impl<N: JobName, C: Ledger, A: Ledger, H: Ledger, E: Ledger> Board<N, C, A, H, E> {
    /// A board over a step that begins, and all shares of it, which have 33 parts.
    pub fn make(
        core: Core<N>,
        claims: Blank,
        arrivals: Blank,
        held: Blank,
        ends: Blank,
    ) -> (Board<N, C, A, H, E>, WorkerShares<N, C, A, H, E>)
        requires empty { core ≡ [] }
        requires claims { (claims.name ≡ C.name) × (claims.parts ≡ C.parts) × (claims.parts ≡ 33) }
        requires arrivals { (arrivals.name ≡ A.name) × (arrivals.parts ≡ A.parts) × (arrivals.parts ≡ 33) }
        requires held { (held.name ≡ H.name) × (held.parts ≡ H.parts) × (held.parts ≡ 33) }
        requires ends { (ends.name ≡ E.name) × (ends.parts ≡ E.parts) × (ends.parts ≡ 33) }
        ensures board { result.0 ≡ [] }
        ensures shares { result.1 ≡ nothing_counted 33 }
    {
        let (claims, my_claims) = claims.open::<C>();
        let (arrivals, my_arrivals) = arrivals.open::<A>();
        let (held, my_held) = held.open::<H>();
        let (ends, my_ends) = ends.open::<E>();
        (
            Board {
                core,
                claims,
                arrivals,
                held,
                ends,
            },
            WorkerShares {
                claims: my_claims,
                arrivals: my_arrivals,
                held: my_held,
                ends: my_ends,
                name: PhantomData,
            },
        )
    }

    /// A claim by a worker. It is counted where it is entered; where the worker is told that there is no more work, an end is counted.
    pub fn claim(&mut self, shares: &mut WorkerShares<N, C, A, H, E>, who: u8) -> Claimed
        requires who { who < CALLER }
        ensures answer { result ≡ claimed N.job self.old who }
        ensures history { self.new ≡ after_claim self.old who result }
        ensures shares { shares.new ≡ with_claim shares.old result }
    {
        let answer = self.core.claim(who);
        match answer {
            Claimed::Work(_) => self.claims.add(&mut shares.claims, 1),
            Claimed::AllDone => self.ends.add(&mut shares.ends, 1),
            Claimed::Spent => self.ends.add(&mut shares.ends, 1),
        }
        answer
    }

    /// The delivery, by a worker, of an answer of this step. The call is counted, whatever the verdict.
    pub fn arrive<U: UpdateWords>(
        &mut self,
        shares: &mut WorkerShares<N, C, A, H, E>,
        who: u8,
        done: &Finished<N, U>,
    ) -> Verdict
        requires who { who < CALLER }
        ensures verdict { result ≡ verdict_on N.job self.old who N.job.number done.now.k }
        ensures history { self.new ≡ after_arrival self.old who N.job.number done.now.k result }
        ensures shares { shares.new ≡ with_arrival shares.old }
    {
        let verdict = self.core.arrive(who, done);
        self.arrivals.add(&mut shares.arrivals, 1);
        verdict
    }

    /// The delivery, by a worker, of the answer of routine k of an older step. The call is counted, whatever the verdict.
    pub fn arrive_held(
        &mut self,
        shares: &mut WorkerShares<N, C, A, H, E>,
        who: u8,
        step: u64,
        k: u32,
    ) -> Verdict
        requires who { who < CALLER }
        requires step { step < N.job.number }
        ensures verdict { result ≡ verdict_on N.job self.old who step k }
        ensures history { self.new ≡ after_arrival self.old who step k result }
        ensures shares { shares.new ≡ with_held shares.old }
    {
        let verdict = self.core.arrive_held(who, step, k);
        self.held.add(&mut shares.held, 1);
        verdict
    }

    /// The core, once all shares are back.
    pub fn unwrap(self, shares: WorkerShares<N, C, A, H, E>) -> Core<N>
        requires { (shares.parts ≡ C.parts) × (shares.parts ≡ A.parts) × (shares.parts ≡ H.parts) × (shares.parts ≡ E.parts) }
        ensures history { result ≡ self }
        ensures legal { IsLegal N.job result }
        ensures alone { NoCaller result }
        ensures claims { claims_by is_worker result ≡ shares.claims }
        ensures few { shares.claims ≤ claim_bound (size_of N.job) }
        ensures arrivals { shares.arrivals + shares.held ≤ arrival_bound (size_of N.job)
            → (stale_arrivals result ≡ shares.held) × (current_arrivals result ≡ shares.arrivals) }
        ensures full { arrival_bound (size_of N.job) < shares.arrivals + shares.held
            → arrivals_by is_worker result ≡ arrival_bound (size_of N.job) }
        ensures ends { 0 < shares.ends → IsComplete N.job result ⊎ (claims_by is_worker result ≡ claim_bound (size_of N.job)) }
    {
        let Board {
            core,
            mut claims,
            mut arrivals,
            mut held,
            mut ends,
        } = self;
        let WorkerShares {
            claims: mut my_claims,
            arrivals: mut my_arrivals,
            held: mut my_held,
            ends: mut my_ends,
            name: _,
        } = shares;
        claims.audit(&mut my_claims);
        arrivals.audit(&mut my_arrivals);
        held.audit(&mut my_held);
        ends.audit(&mut my_ends);
        let _legal = core.history();
        core
    }
}
