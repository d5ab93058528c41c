//! Worked rows of the outside, memory and pages. The tests stand here, since a crate that has tests is proved twice.
#![tactic(auto)]

#[cfg(test)]
mod images;
#[cfg(test)]
mod outside;
#[cfg(test)]
mod pages;
