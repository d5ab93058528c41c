//! The law of what commands come to. It is the contract of a function that does nothing.

ghost use Rattle.calypso_cli.specs.Laws.{ComesToOne};

use bytecode::laws::one_module;

/// On the same sight of the outside a command comes to one outcome at most.
pub fn one_outcome()
    ensures { ComesToOne }
{
    one_module();
}
