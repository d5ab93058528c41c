//! A page that is kept.

use frame_pool::Frame;

/// A page that is kept in a frame, with the version that it had when it was fetched, if it had one.
pub struct Kept {
    pub(crate) page: u32,
    pub(crate) version: Option<u64>,
    pub(crate) frame: Frame,
}
