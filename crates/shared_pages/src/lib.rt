//! Pages of a memory that others share, fetched when they are read and kept in frames of a pool.
#![tactic(auto)]

pub mod cache;
mod holding;
pub mod kept;
pub mod laws;
mod shelf;
pub mod source;

pub use cache::PageCache;
pub use source::PageSource;
