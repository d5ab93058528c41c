//! Laws over the rules.

ghost use Rattle.code_verify.specs.Laws.{OneTablePerCode};

/// A code has at most one list of kinds at each place.
pub fn one_table()
    ensures { OneTablePerCode }
{}
