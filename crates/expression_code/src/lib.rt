//! The code of expressions, and what a body's code stands on: the slots of its locals, the places of shared words, the sizes of code.
#![tactic(auto)]

pub mod kinds;
pub mod names;
pub mod scope;
pub mod sizes;
pub mod values;
pub mod writer;
