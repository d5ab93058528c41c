//! A law, as the contract of a function that does nothing.

ghost use Rattle.shared_pages.specs.Cached.{LaterFits};

/// What a cache keeps of a memory fits the memory after writes to it.
pub fn later_fits()
    ensures { LaterFits }
{}
