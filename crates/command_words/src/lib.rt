//! The words of the command line: what command they give, with its operands and options.
#![tactic(auto)]

mod command;
mod found;
mod line;
mod name;
mod number;
mod read;
pub mod rows;

pub use command::{Command, Flags, Generated, WordsError};
pub use read::read_words;
