//! What a script says of each worker: at which claim it stops, and which of its executions it loses, repeats or holds back. And lists of
//! events, as they stand in a file.
#![tactic(auto)]

mod act;
mod error;
mod events;
mod fixed;
mod lines;
mod lists;
mod number;
mod reading;
mod row;
pub mod rows;
mod script;
mod tally;
mod values;

pub use act::Act;
pub use error::{EventsError, ScriptError};
pub use event_world::Event;
pub use events::read_events;
pub use fixed::selfrun_script;
pub use reading::read_script;
pub use row::ScriptRow;
pub use script::Script;
pub use tally::{count_claim, first_tally};
