//! Compiled programs as instructions, and their one spelling as bytes.
#![tactic(auto)]

pub mod fault;
mod fitting;
pub mod instr;
pub mod laws;
pub mod module;
mod reading;
mod writing;

pub use cal_terms::Text;
pub use fault::DecodeError;
pub use fitting::has_spelling;
pub use instr::{Instr, PrintItem};
pub use module::{Code, Gives, Module, Ty};
pub use reading::decode;
pub use writing::encode;
