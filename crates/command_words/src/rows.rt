//! Worked examples of words. They are the contract of a function that does nothing.

ghost use Rattle.command_words.specs.Rows.{Operands, Options, Values, Places, Doubles, Numbers, Ranges, Refused};

/// Each example is a list of words and the command that they give, or none.
pub fn worked_words()
    ensures operands { Operands }
    ensures options { Options }
    ensures values { Values }
    ensures places { Places }
    ensures doubles { Doubles }
    ensures numbers { Numbers }
    ensures ranges { Ranges }
    ensures refused { Refused }
{}
