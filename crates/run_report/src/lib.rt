//! The lines that tell of a run: the fault that it ended in, completed steps with the words that they changed, the log of a step's
//! history, and the report of what the workers did. Nothing here takes memory.
#![tactic(auto)]

mod faults;
mod lines;
mod logs;
mod reports;
mod steps;

pub use faults::{fault_line, write_pieces};
pub use logs::log_lines;
pub use reports::report_lines;
pub use steps::step_lines;
