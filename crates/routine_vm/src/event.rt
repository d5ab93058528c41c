//! The events of main.

use cal_base::Cause;

/// What main does next.
#[derive(Clone, Copy, PartialEq, Eq, Debug)]
pub enum MainEvent {
    /// It shows a line of this many items.
    Print {
        items: u32,
    },
    /// It opens a step of these blocks, with this many routines in all.
    Par {
        first_block: u32,
        blocks: u32,
        total: u32,
    },
    /// It is done.
    Halt,
    /// It stops early.
    Fault(Cause),
}

/// An item of a printed line.
#[derive(Clone, Copy, PartialEq, Eq, Debug)]
pub enum Item {
    /// A text of the module.
    Text { index: u32 },
    Int(i64),
    Truth(bool),
}
