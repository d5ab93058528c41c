//! The grammar of the language: which program a token list spells, and the law that it spells one at most.
#![tactic(auto)]

pub mod laws;
