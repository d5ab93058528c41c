//! The machine that runs the code of verified modules: main from event to event, and routines to their ends.
#![tactic(auto)]

mod arithmetic;
pub mod event;
mod frame;
mod go;
mod image;
mod kept;
mod locals;
pub mod machine;
mod operands;
mod parts;
mod run;
mod shown;
mod site;
mod step;
mod taking;
mod waiting;

pub use event::{Item, MainEvent};
pub use image::first_image;
pub use machine::Machine;
