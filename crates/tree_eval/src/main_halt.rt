//! Why main stops before its end.

ghost use Rattle.std.specs.Prelude.{◌≡◌};
ghost use Rattle.tree_eval.specs.Told as told;
ghost use Rattle.tree_eval.specs.declared.main_halt.MainHalt.TheVariants.{NoMemory as memory_wanted, OutFailed as out_failed};

use cal_base::{Failed, RunEnd};
use statement_eval::halt::Halt;
use std::alloc::{AllocError, AllocFailed};

/// The end of the run, or want of memory or of a working sink.
#[derive(Clone, Copy, PartialEq, Eq, Debug)]
pub enum MainHalt {
    Ended(RunEnd),
    NoMemory,
    OutFailed,
}

impl From<AllocError> for MainHalt {
    ghost from_gives = { λ _ e. e ≡ memory_wanted };

    fn from(_: AllocError) -> MainHalt {
        MainHalt::NoMemory
    }
}

impl<T: Drop> From<AllocFailed<T>> for MainHalt {
    ghost from_gives = { λ _ e. e ≡ memory_wanted };

    fn from(_: AllocFailed<T>) -> MainHalt {
        MainHalt::NoMemory
    }
}

impl From<cal_base::NoMemory> for MainHalt {
    ghost from_gives = { λ _ e. e ≡ memory_wanted };

    fn from(_: cal_base::NoMemory) -> MainHalt {
        MainHalt::NoMemory
    }
}

impl From<Failed> for MainHalt {
    ghost from_gives = { λ _ e. e ≡ out_failed };

    fn from(_: Failed) -> MainHalt {
        MainHalt::OutFailed
    }
}

/// Why main stops, after this many steps.
pub fn main_halt(halt: Halt, steps: u64) -> MainHalt
    ensures { result ≡ told.main_halt halt steps }
{
    match halt {
        Halt::Cause(cause) => MainHalt::Ended(RunEnd::MainFault {
            after: steps,
            cause,
        }),
        Halt::NoMemory => MainHalt::NoMemory,
    }
}
