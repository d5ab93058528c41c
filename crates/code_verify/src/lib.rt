//! The rules that keep a module's machine from getting stuck, and their test.
#![tactic(auto)]

mod code;
mod effect;
mod kinds;
pub mod laws;
mod owner;
mod range;
mod stacks;
mod standing;
mod tallies;
mod uses;
mod verified;
mod walk;
mod whole;

pub use verified::{Verified, VerifyError};
pub use whole::verify;
