//! Kinds of shared words.

/// How the writes of several routines to one word meet.
#[derive(Clone, Copy, Debug, PartialEq, Eq)]
pub enum WordKind {
    /// One routine writes it at most; two that do are in conflict.
    Ordinary,
    /// Routines only add to it, and all their sums count.
    Tally,
}
