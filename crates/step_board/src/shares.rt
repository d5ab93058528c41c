//! What a worker holds of the four ledgers.

ghost use Rattle.std.specs.Prelude.{◌≡◌, ◌≤◌, ◌-◌};
ghost use Rattle.step_board.specs.Amounts.{nothing_counted, joined};

use cal_base::JobName;
use std::marker::{Model, PhantomData};
use std::sync::ledger::{Ledger, Share};

/// A share of each of the four ledgers of a board: parts of the right to know the whole, and what was counted with them. It has no value
/// when the program runs.
#[derive(Drop)]
pub struct WorkerShares<N: JobName, C: Ledger, A: Ledger, H: Ledger, E: Ledger> {
    pub(crate) claims: Share<C>,
    pub(crate) arrivals: Share<A>,
    pub(crate) held: Share<H>,
    pub(crate) ends: Share<E>,
    pub(crate) name: PhantomData<N>,
}

impl<N: JobName, C: Ledger, A: Ledger, H: Ledger, E: Ledger> Model for WorkerShares<N, C, A, H, E> {
    ghost use Rattle.std.specs.Prelude.{◌≡◌, ◌<◌};
    ghost use Rattle.step_board.specs.Amounts.{Amounts};

    ghost Value = { Amounts };

    ghost view = { λ s. record { parts = s.claims.parts; claims = s.claims.amount; arrivals = s.arrivals.amount; held = s.held.amount; ends = s.ends.amount } };

    ghost invariant = { λ s. (0 < s.claims.parts) × (s.arrivals.parts ≡ s.claims.parts) × (s.held.parts ≡ s.claims.parts)
        × (s.ends.parts ≡ s.claims.parts) };
}

impl<N: JobName, C: Ledger, A: Ledger, H: Ledger, E: Ledger> WorkerShares<N, C, A, H, E> {
    /// Further shares, with one part of each ledger and nothing counted.
    pub fn split(&mut self) -> WorkerShares<N, C, A, H, E>
        requires { 2 ≤ self.old.parts }
        ensures further { result ≡ nothing_counted 1 }
        ensures rest { self.new ≡ record self.old { parts = self.old.parts - 1 } }
    {
        let WorkerShares {
            claims,
            arrivals,
            held,
            ends,
            name: _,
        } = self;
        WorkerShares {
            claims: claims.split_off(1, 0),
            arrivals: arrivals.split_off(1, 0),
            held: held.split_off(1, 0),
            ends: ends.split_off(1, 0),
            name: PhantomData,
        }
    }

    /// Puts the parts and the counts of others to its own.
    pub fn join(&mut self, other: WorkerShares<N, C, A, H, E>)
        ensures { self.new ≡ joined self.old other }
    {
        let WorkerShares {
            claims,
            arrivals,
            held,
            ends,
            name: _,
        } = other;
        self.claims.merge(claims);
        self.arrivals.merge(arrivals);
        self.held.merge(held);
        self.ends.merge(ends);
    }
}
