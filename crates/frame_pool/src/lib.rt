//! Frames of 64 words, taken and given back, in one region of memory.
#![tactic(auto)]

pub mod frame;
pub mod pool;

pub use frame::Frame;
pub use pool::FramePool;
