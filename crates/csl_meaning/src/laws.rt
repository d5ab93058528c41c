//! The laws of what programs mean. Each is the contract of a function that does nothing.

ghost use Rattle.csl_meaning.specs.Laws.{
  BoundIsEnoughInMain,
  BoundIsEnoughElsewhere,
  StepsAreNumbered,
  StepsAreBounded,
  RoutinesAreQuiet,
};

/// A loop is defined with a bound on its turns, so that it is total. Any bound that is at least the fuel gives the same.
pub fn bound_of_a_loop()
    ensures main { BoundIsEnoughInMain }
    ensures elsewhere { BoundIsEnoughElsewhere }
{}

/// The steps that a program opens.
pub fn steps_of_a_run()
    ensures numbered { StepsAreNumbered }
    ensures bounded { StepsAreBounded }
{}

/// What a routine can't do.
pub fn limits_of_a_routine()
    ensures { RoutinesAreQuiet }
{}
