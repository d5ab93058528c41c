//! Reads a text: as the accepted program that it spells, or as refused at its first fault.
#![tactic(auto)]

mod reading;
mod refusal;

pub use reading::{accepted_texts, one_reading, read_program};
pub use refusal::{ReadError, Refusal};
