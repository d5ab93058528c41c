//! One step: claims, deliveries and the merge, over whatever list of calls.
#![tactic(auto)]

mod finished;
mod state;

pub use finished::Finished;
pub use state::{Closed, Core};
