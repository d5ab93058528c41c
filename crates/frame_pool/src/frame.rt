//! A frame that is out.

use std::marker::Model;

/// A frame of a pool: a place for 64 words, which nobody else has. It can't be copied or dropped: it is given back.
pub struct Frame {
    pub(crate) number: u32,
}

impl Model for Frame {
    ghost use Rattle.std.specs.Prelude.{ℕ};

    ghost Value = { ℕ };

    ghost view = { λ f. f.number };

    ghost invariant = { λ f. Unit {0} };
}
