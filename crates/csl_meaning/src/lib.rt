//! What a program means: the values of its expressions, what its statements do, what its routines answer, and what it shows.
#![tactic(auto)]

mod laws;
mod rows;
pub mod state;

pub use laws::{bound_of_a_loop, limits_of_a_routine, steps_of_a_run};
pub use rows::worked_rows;
pub use state::{Area, Ending, Local, World};
