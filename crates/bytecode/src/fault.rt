//! Why bytes are not decoded.

ghost use Rattle.std.specs.Prelude.{◌≡◌};
ghost use Rattle.bytecode.specs.declared.fault.DecodeError.TheVariants.{NoMemory as memory_wanted};

use cal_terms::NoMemory;
use std::alloc::AllocError;

/// Why bytes are not decoded.
#[derive(Clone, Copy, Debug, PartialEq, Eq)]
pub enum DecodeError {
    /// The bytes are no module's.
    Refused,
    /// Memory was wanted and not there.
    NoMemory,
}

impl From<NoMemory> for DecodeError {
    ghost from_gives = { λ _ e. e ≡ memory_wanted };

    fn from(_: NoMemory) -> DecodeError {
        DecodeError::NoMemory
    }
}

impl From<AllocError> for DecodeError {
    ghost from_gives = { λ _ e. e ≡ memory_wanted };

    fn from(_: AllocError) -> DecodeError {
        DecodeError::NoMemory
    }
}
