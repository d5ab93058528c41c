//! What a routine wrote and added, kept apart from the pages that it reads, in frames of a pool.
#![tactic(auto)]

mod bits;
pub mod buffer;
mod marks;
pub mod update;
pub mod view;

pub use buffer::WriteBuffer;
pub use update::BufferView;
pub use view::View;
