//! The values of the language, and the words on which main and the routines work.

use crate::step::Word;
use crate::update::KeptUpdate;
use sqlite_items::Items;

/// The value of an expression.
#[derive(Clone, Copy, Debug, PartialEq, Eq)]
pub enum Val {
    Int(i64),
    Truth(bool),
}

/// Main works on the memory itself. A routine reads the memory on which its step opened, under what it wrote itself.
#[derive(Drop)]
pub enum Store {
    Main(Items<Word>),
    Routine(Items<Word>, KeptUpdate),
}
