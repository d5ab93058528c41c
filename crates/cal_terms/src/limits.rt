//! Limits that several layers keep.

/// How many bytes the text of a program has at most.
pub const MOST_TEXT: usize = 1_048_576;

/// How many words of 64 bits a shared memory has at most.
pub const MOST_WORDS: u32 = 262_144;

/// How many routines a step has at most.
pub const MOST_ROUTINES: u32 = 65_536;
