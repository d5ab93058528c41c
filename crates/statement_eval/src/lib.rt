//! Evaluates a program's expressions, statements and calls, in main as in a routine.
#![tactic(auto)]

pub mod halt;
pub mod names;
pub mod operators;
pub mod stmt;
pub mod store;
