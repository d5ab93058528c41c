//! How a routine, a step and a run end.

/// Why a routine or main stops early, with the words that a fault line prints for it.
#[derive(Clone, Copy, Debug, PartialEq, Eq)]
pub enum Cause {
    /// `overflow`: a result outside 64 bits.
    Overflow,
    /// `division by zero`: of a quotient or a remainder.
    DivisionByZero,
    /// `index out of range`: an array has no item of this number.
    OutOfRange,
    /// `assertion failed`: what was asserted is false.
    Assertion,
    /// `too deep`: a call nested more than 64 deep.
    TooDeep,
    /// `bad width`: a routine block of a negative width, or more than 65,536 routines in a step. Only main stops by it.
    BadWidth,
    /// `fuel spent`: a unit of fuel was wanted, and none was left.
    FuelSpent,
}

/// A sum does not fit 64 bits.
#[derive(Clone, Copy, Debug, PartialEq, Eq)]
pub struct Overflow;

/// How an execution of a routine ended.
#[derive(Clone, Copy, Debug, PartialEq, Eq)]
pub enum RoutineEnd {
    /// It came to its end, and what it wrote is its answer.
    Ended,
    /// It stopped early, and nothing that it wrote counts.
    Fault(Cause),
}

/// Why a step leaves no memory.
#[derive(Clone, Copy, Debug, PartialEq, Eq)]
pub enum StepFault {
    /// The least faulty routine stopped early.
    Trap { routine: u32, cause: Cause },
    /// The least faulty routine wrote ordinary words that routines of lesser numbers wrote too: the least such word, and the least
    /// number that wrote it.
    Conflict { routine: u32, word: u32, other: u32 },
    /// No routine is faulty, and this is the least tally word whose total is outside 64 bits.
    Total { word: u32 },
}

/// How a run ends: after all its steps, by a cause in main after some completed steps, or by the fault of a step.
#[derive(Clone, Copy, Debug, PartialEq, Eq)]
pub enum RunEnd {
    Done { steps: u64 },
    MainFault { after: u64, cause: Cause },
    StepFailed { step: u64, fault: StepFault },
}
