//! What a worker does with an execution.

/// What becomes of an answer that a worker executed.
#[derive(Clone, Copy, Debug, PartialEq, Eq)]
pub enum Act {
    /// It is delivered once.
    Deliver,
    /// It is never delivered.
    Lose,
    /// It is delivered twice.
    Repeat,
    /// It is delivered in a later step.
    Hold,
}
