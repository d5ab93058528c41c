//! A step under a lock: its core, and four ledgers that count what the workers do to it.
#![tactic(auto)]

mod board;
mod shares;

pub use board::Board;
pub use shares::WorkerShares;
