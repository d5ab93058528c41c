//! Evaluates main and its steps: the whole meaning of a program, on one thread.
#![tactic(auto)]

mod first_memory;
mod line;
mod main_halt;
mod main_stmt;
mod merge;
mod routine;
mod run;
mod step;
mod widths;

pub use run::{EvalError, eval};
