//! Programs made from a number, as large as is asked for, whose text and output are the same each time.
#![tactic(auto)]

pub mod program;

pub use program::generate;
