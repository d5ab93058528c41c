//! Statements and blocks, by recursive descent.
#![tactic(auto)]

pub mod heads;
pub mod leaf;
pub mod simple;
pub mod stmt;
