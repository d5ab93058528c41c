//! Types of values.

/// The type of a value.
#[derive(Clone, Copy, PartialEq, Eq, Debug)]
pub enum Ty {
    /// A number of 64 bits with a sign.
    Int,
    /// A truth.
    Bool,
}

/// What a function or a code gives back.
#[derive(Clone, Copy, PartialEq, Eq, Debug)]
pub enum Gives {
    Nothing,
    Int,
    Bool,
}
