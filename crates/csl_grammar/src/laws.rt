//! The laws of the grammar. Each is the contract of a function that does nothing.

ghost use Rattle.csl_grammar.specs.Spelling.{TokensSpellOne};
ghost use Rattle.csl_grammar.specs.Texts.{TextSpellsOne};

/// A token list is spelled by one program at most, and a text spells one program at most.
pub fn one_program()
    ensures tokens { TokensSpellOne }
    ensures texts { TextSpellsOne }
{}
