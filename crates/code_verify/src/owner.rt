//! Whose code a code is.

#[derive(Clone, Copy, PartialEq, Eq, Debug)]
pub enum Owner {
    /// The function of this number.
    Function(u32),
    Block,
    Main,
}
