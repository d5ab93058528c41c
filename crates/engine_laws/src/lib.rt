//! Laws for the engine: the steps that main of a module opens, the answers of their routines, and what a run means that closes each
//! step by a legal and complete history. Each law is the contract of a function that does nothing.
#![tactic(auto)]

ghost use Rattle.engine_laws.specs.Steps.{StepsAreNumbered, StepsTakeUnits, AnswersAreAll, AnswersGoByBlocks};
ghost use Rattle.engine_laws.specs.Ran.{RunsAreMeant, PartsAreMeant, ClosedStepsAreCounted};

/// The steps that main of a module opens are numbered from 1, of 65,536 routines at most, and each takes a unit of the run's fuel. So
/// there are no more steps than units.
pub fn steps_of_main()
    ensures numbered { StepsAreNumbered }
    ensures units { StepsTakeUnits }
{}

/// A step has an answer for each routine of its blocks, in the order of the blocks and, in a block, of the routines' numbers.
pub fn answers_of_a_step()
    ensures all { AnswersAreAll }
    ensures by_blocks { AnswersGoByBlocks }
{}

/// A run that closes each step by a legal and complete history shows what the program means and ends so, and its steps are those that
/// the meaning opens; as far as it has come, the same holds of what it has shown and closed.
pub fn meaning_of_a_run()
    ensures whole { RunsAreMeant }
    ensures part { PartsAreMeant }
    ensures counted { ClosedStepsAreCounted }
{}
