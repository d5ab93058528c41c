//! What happens in a parallel step.

ghost use Rattle.std.specs.Prelude.{◌≡◌, ◌≤◌};
ghost use Rattle.cal_base.specs.Claims.{claim_bound, arrival_bound};

use cal_terms::WordKind;
use cal_terms::limits::MOST_ROUTINES;

/// The number under which the caller claims; workers are numbered below it.
pub const CALLER: u8 = 32;

/// How many claims by workers a step of n routines takes.
pub fn claim_bound(n: u32) -> u32
    requires { n ≤ MOST_ROUTINES }
    ensures { result ≡ claim_bound n }
{
    3 * n + 32
}

/// How many arrivals by workers a step of n routines takes.
pub fn arrival_bound(n: u32) -> u32
    requires { n ≤ MOST_ROUTINES }
    ensures { result ≡ arrival_bound n }
{
    2 * claim_bound(n) + 32
}

/// A word of shared memory.
#[derive(Clone, Copy, Debug, PartialEq, Eq)]
pub struct Word {
    /// How writes to it meet.
    pub kind: WordKind,
    /// What it holds.
    pub value: i64,
}

/// What becomes of a delivery. Where several fit, `Full` comes before `Stale`, and this before `Unasked`.
#[derive(Clone, Copy, Debug, PartialEq, Eq)]
pub enum Verdict {
    /// It is the first of its routine in this step, and the only one that counts.
    First,
    /// Its routine was delivered before; nothing of it counts.
    Again,
    /// It is of an older step; nothing of it counts.
    Stale,
    /// Nobody claimed its routine in this step; nothing of it counts.
    Unasked,
    /// A worker delivers, and as many deliveries of workers have arrived as the step takes. It is not entered in the history.
    Full,
}

/// The answer to a claim.
#[derive(Clone, Copy, Debug, PartialEq, Eq)]
pub enum Claimed {
    /// The routine of this number is to be executed.
    Work(u32),
    /// No routine is wanted: the step is complete.
    AllDone,
    /// A worker asks, and workers have made as many claims as the step takes. Some routine is still wanted.
    Spent,
}

/// What a step's history records. `who` is a worker's number, 0 to 31, or `CALLER`, and k the number of a routine from 0 on.
#[derive(Clone, Copy, Debug, PartialEq, Eq)]
pub enum Entry {
    /// A claim that was answered by `Work(k)`.
    Claim {
        who: u8,
        k: u32,
    },
    /// A delivery of routine k of a step, this one or an older one. The verdict is never `Full`.
    Arrive {
        who: u8,
        step: u64,
        k: u32,
        verdict: Verdict,
    },
}

/// What a worker, or the caller, did over a whole run.
#[derive(Clone, Copy, Debug, PartialEq, Eq)]
pub struct WorkerTally {
    /// The worker's number, 0 to 31, or `CALLER`.
    pub who: u8,
    /// How many of its claims were answered by work.
    pub claims: u64,
    /// How many routines it executed: one less than its claims where it stopped.
    pub executed: u64,
    /// How many executed answers it never delivered.
    pub lost: u64,
    /// How many answers it delivered twice.
    pub repeated: u64,
    /// How many answers it held back for a later step.
    pub held: u64,
    /// Whether it stopped after a claim, for good.
    pub stopped: bool,
    /// How many pages its cache fetched.
    pub pages: u64,
}
