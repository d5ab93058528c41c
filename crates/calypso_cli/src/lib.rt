//! The command line of Calypso over any files, streams and gate that are handed in.
#![tactic(auto)]

mod build;
mod check;
mod ending;
mod eval;
mod exec;
mod execute;
mod generated;
pub mod laws;
mod load;
mod log;
mod no_threads;
mod run;
mod selfrun;
mod sim;
mod top;

pub use command_words::{Command, Flags, WordsError, read_words};
pub use ending::Ending;
pub use no_threads::plain;
pub use top::{calypso, out_of_memory};
