//! Worked rows of tokens and trees. The tests stand here, since a crate that has tests is proved twice.
#![tactic(auto)]

#[cfg(test)]
mod tokens;
#[cfg(test)]
mod trees;
