//! The job of a step, and executions of its routines over kept pages and a write buffer.
#![tactic(auto)]

pub mod executor;
pub mod job;
mod place;

pub use executor::{BufferView, Executor};
pub use job::Job;
