//! The law of canonical texts. It is the contract of a function that does nothing.

ghost use Rattle.csl_print.specs.Aside.{CanonicalSpells};

/// The canonical text of a program that some text spells spells it, positions aside.
pub fn canonical_text()
    ensures { CanonicalSpells }
{}
