//! The engine: it runs the code of a verified module, its main on the machine and each parallel step by workers and the caller, shows what
//! main shows, and logs the history of each step.
#![tactic(auto)]

pub mod engine;
pub mod error;
pub mod event;
pub mod gathering;
pub mod line;
pub mod options;
pub mod step;
pub mod team;
pub mod telling;

pub use engine::{RunReport, run};
pub use error::RunError;
pub use options::RunOptions;
