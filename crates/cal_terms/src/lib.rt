//! What the front end, modules and the runtime share: want of memory, the kinds of shared words, the types of values, texts and limits.
#![tactic(auto)]

pub mod kinds;
pub mod limits;
pub mod text;
pub mod types;
pub mod want;

pub use kinds::WordKind;
pub use text::Text;
pub use types::{Gives, Ty};
pub use want::NoMemory;
