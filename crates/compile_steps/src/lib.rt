//! Compiles an accepted program: its module means what the program means.
#![tactic(auto)]

mod blocks;
mod bodies;
mod module;
mod statements;
mod texts;
mod words;

pub use module::compile;
