//! Worked rows of modules, their rules and the machine. The tests stand here, since a crate that has tests is proved twice.
#![tactic(auto)]

#[cfg(test)]
mod machine;
#[cfg(test)]
mod modules;
#[cfg(test)]
mod rules;
#[cfg(test)]
mod shared;
