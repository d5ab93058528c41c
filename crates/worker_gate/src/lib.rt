//! Workers: what they do in a step under a lock, each in a thread of its own, and the part of the caller, which completes a step by itself.
#![tactic(auto)]

pub mod caller;
mod crew;
pub mod execution;
pub mod worker;
mod working;

pub use caller::finish;
pub use crew::work_all;
pub use execution::execute;
pub use worker::{Held, Worker};
pub use working::work;
