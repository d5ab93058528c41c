//! Worked rows of scripts and lists of events. The tests stand here, since a crate that has tests is proved twice.
#![tactic(auto)]

#[cfg(test)]
mod scripts;
