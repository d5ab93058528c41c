//! The canonical text of a program.
#![tactic(auto)]

mod decl;
mod expr;
pub mod law;
mod printer;
mod program;
pub mod rows;
mod spelling;
mod stmt;
mod turn;

pub use program::print_program;
