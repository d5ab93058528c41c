//! The engine over a list of events: it runs the code of a verified module as `calypso_engine` does, where 32 workers do in each step what the
//! events say, in one thread.
#![tactic(auto)]

pub mod delivery;
pub mod play;
pub mod scene;
pub mod simulation;
pub mod turn;

pub use simulation::{SIM_FUEL, sim};
