//! Why a script or a list of events is refused.

ghost use Rattle.std.specs.Prelude.{◌≡◌};
ghost use Rattle.fault_script.specs.declared.error.EventsError.TheVariants.{NoMemory as memory_wanted};
ghost use Rattle.fault_script.specs.declared.error.ScriptError.TheVariants.{NoMemory as script_memory};

use std::alloc::{AllocError, AllocFailed};

/// Why bytes give no list of events.
#[derive(Clone, Copy, Debug, PartialEq, Eq)]
pub enum EventsError {
    /// The line of this number, from 1 on, is no event and is not skipped. It is the first such line.
    Refused { line: u32 },
    /// Memory was wanted and not there.
    NoMemory,
}

impl From<AllocError> for EventsError {
    ghost from_gives = { λ _ e. e ≡ memory_wanted };

    fn from(_: AllocError) -> EventsError {
        EventsError::NoMemory
    }
}

impl<T: Drop> From<AllocFailed<T>> for EventsError {
    ghost from_gives = { λ _ e. e ≡ memory_wanted };

    fn from(_: AllocFailed<T>) -> EventsError {
        EventsError::NoMemory
    }
}

/// Why bytes give no script.
#[derive(Clone, Copy, Debug, PartialEq, Eq)]
pub enum ScriptError {
    /// The bytes are no script.
    Refused,
    /// Memory was wanted and not there.
    NoMemory,
}

impl From<AllocError> for ScriptError {
    ghost from_gives = { λ _ e. e ≡ script_memory };

    fn from(_: AllocError) -> ScriptError {
        ScriptError::NoMemory
    }
}

impl<T: Drop> From<AllocFailed<T>> for ScriptError {
    ghost from_gives = { λ _ e. e ≡ script_memory };

    fn from(_: AllocFailed<T>) -> ScriptError {
        ScriptError::NoMemory
    }
}
