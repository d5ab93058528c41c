//! The machine of compiled code: its small steps, what a module means, and the laws over its runs.
#![tactic(auto)]

ghost use Rattle.machine_meaning.specs.Rows.{WorkedRows};
ghost use Rattle.machine_meaning.specs.Laws.{VerifiedIsNeverStuck, VerifiedEndsInTime, RoutinesOfVerifiedEnd, CallsCompose, TrapsOfCalls};
ghost use Rattle.machine_meaning.specs.Laws.{MainOfVerifiedGoesOn, MainOfVerifiedComes, MainOfVerifiedFollows, TrapsOfVerifiedMain};
ghost use Rattle.machine_meaning.specs.Laws.{EndsOfVerifiedRoutines, TrapsOfVerifiedRoutines};

/// The machine of a verified module never reaches a state without a next step: no test on operands, kinds, places or addresses fails.
pub fn never_stuck()
    ensures { VerifiedIsNeverStuck }
{}

/// The machine of a verified module comes to its end, or to an event, within a number of steps that the fuel gives.
pub fn ends_in_time()
    ensures { VerifiedEndsInTime }
{}

/// A routine of a verified module comes to its end or to a trap; it never prints and never opens a step.
pub fn routines_end()
    ensures { RoutinesOfVerifiedEnd }
{}

/// A call does what the function's body does.
pub fn call_composes()
    ensures { CallsCompose }
{}

/// A call traps where the function's body does.
pub fn call_traps()
    ensures { TrapsOfCalls }
{}

/// Main of a verified module goes on just where its steps lead: the meaning runs out of no bound.
pub fn main_goes_on()
    ensures { MainOfVerifiedGoesOn }
{}

/// Main of a verified module goes on where its run comes to: to a line that it shows, to a step that it opens, or to its end.
pub fn main_comes()
    ensures { MainOfVerifiedComes }
{}

/// Main of a verified module goes on alike from a state that it reaches and from one to which that comes, and it reaches that one too.
pub fn main_follows()
    ensures { MainOfVerifiedFollows }
{}

/// Main of a verified module ends with the fault where a state that it reaches traps.
pub fn main_traps()
    ensures { TrapsOfVerifiedMain }
{}

/// A routine of a verified module whose beginning comes to its last step has just that outcome.
pub fn routine_ends()
    ensures { EndsOfVerifiedRoutines }
{}

/// A routine of a verified module whose beginning traps has just that outcome.
pub fn routine_traps()
    ensures { TrapsOfVerifiedRoutines }
{}

/// Small modules mean what they must.
pub fn worked_rows()
    ensures { WorkedRows }
{}
