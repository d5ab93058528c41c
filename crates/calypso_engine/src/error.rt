//! Why a run gives up.

ghost use Rattle.std.specs.Prelude.{◌≡◌};
ghost use Rattle.calypso_engine.specs.declared.error.RunError.TheVariants.{NoMemory as memory_wanted};

use std::alloc::AllocError;
use thiserror::Error;

/// Why a run gave up; a front of its text was written, and one of its log.
#[derive(Clone, Copy, PartialEq, Eq, Debug, Error)]
pub enum RunError {
    /// The sink failed, and its count of faults rose.
    #[error("output failed")]
    OutFailed,
    /// The files failed, and their count of faults rose.
    #[error("file failed")]
    FileFailed,
    /// Memory was wanted and not there.
    #[error("out of memory")]
    NoMemory,
}

impl From<AllocError> for RunError {
    ghost from_gives = { λ _ e. e ≡ memory_wanted };

    fn from(_: AllocError) -> RunError {
        RunError::NoMemory
    }
}

impl From<cal_base::NoMemory> for RunError {
    ghost from_gives = { λ _ e. e ≡ memory_wanted };

    fn from(_: cal_base::NoMemory) -> RunError {
        RunError::NoMemory
    }
}
