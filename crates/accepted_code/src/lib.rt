//! What an accepted program is to its code: the shape that the code asks of a program's tree follows from the grammar and the
//! checks, and its module keeps the rules of the machine. So the module means what the program means.
#![tactic(auto)]

ghost use Rattle.accepted_code.specs.Laws.{AcceptedHasShape, AcceptedKeepsItsMeaning, AcceptedIsVerified, AcceptedMeansTheSame};

/// Each call in an accepted program has as many arguments as the function has parameters, and one
/// that stands as a value gives one; each `for` has the heads that the grammar asks for; where a
/// function has a result no `break` and no `continue` leads out of its body, and the body ends in
/// a `return`.
pub fn accepted_has_shape()
    ensures { AcceptedHasShape }
{}

/// The module of an accepted program means what the program means, for each amount of fuel: the
/// same lines, the same steps, the same memory after each of them, and the same end.
pub fn accepted_keeps_its_meaning()
    ensures { AcceptedKeepsItsMeaning }
{}

/// A program that some text of at most 1 MiB spells and that has no fault: its module keeps all
/// rules of a verified module. So a compiler that makes this module needs no answer for a module
/// that is refused.
pub fn accepted_is_verified()
    ensures { AcceptedIsVerified }
{}

/// And its module means what the program means, for each amount of fuel: the same lines, the same
/// steps, the same memory after each of them, and the same end.
pub fn accepted_means_the_same()
    ensures { AcceptedMeansTheSame }
{}
