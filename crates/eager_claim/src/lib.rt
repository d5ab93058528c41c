//! The claim rule: an idle worker takes the wanted routine that was claimed the fewest times.
#![tactic(auto)]

ghost use Rattle.std.specs.Prelude.{◌≡◌, ◌-◌, ◌^◌, ◌<◌, ◌≤◌, length};
ghost use Rattle.std.specs.List.{sum};
ghost use Rattle.cal_base.specs.Claims.{is_spent};
ghost use Rattle.eager_claim.specs.Claimed.{claimed_in, noted};

pub use cal_base::Claimed;
use cal_base::{CALLER, claim_bound};
use progress_table::ProgressTable;

/// Whether a worker asks, and workers have made as many claims as a step of n routines takes.
fn is_spent_by(who: u8, worker_claims: u32, n: u32) -> bool
    requires { n ≤ 65536 }
    ensures { result ≡ is_spent who worker_claims n }
{
    who < CALLER && claim_bound(n) <= worker_claims
}

/// Answers a claim in a step of n routines, and notes it where it is granted. `who` is a worker's number, or `CALLER`;
/// `worker_claims` says how many claims of workers were granted so far.
pub fn claim(table: &mut ProgressTable, who: u8, worker_claims: u32, n: u32) -> Claimed
    requires size { n ≡ length table.old.claims }
    requires room { sum table.old.claims < 2 ^ 32 - 1 }
    ensures answer { result ≡ claimed_in table.old who worker_claims }
    ensures table { table.new ≡ noted table.old result }
{
    match table.least_wanted() {
        None => Claimed::AllDone,
        Some(k) => {
            if is_spent_by(who, worker_claims, n) {
                Claimed::Spent
            } else {
                table.note_claim(k);
                Claimed::Work(k)
            }
        }
    }
}
