//! Why an evaluation stops.

ghost use Rattle.std.specs.Prelude.{◌≡◌};
ghost use Rattle.statement_eval.specs.declared.halt.Halt.TheVariants.{NoMemory as memory_wanted};

use std::alloc::AllocError;

/// A cause of the program's meaning, or want of memory.
#[derive(Clone, Copy, PartialEq, Eq, Debug)]
pub enum Halt {
    Cause(cal_base::Cause),
    NoMemory,
}

impl From<AllocError> for Halt {
    ghost from_gives = { λ _ e. e ≡ memory_wanted };

    fn from(_: AllocError) -> Halt {
        Halt::NoMemory
    }
}

impl From<cal_base::NoMemory> for Halt {
    ghost from_gives = { λ _ e. e ≡ memory_wanted };

    fn from(_: cal_base::NoMemory) -> Halt {
        Halt::NoMemory
    }
}
