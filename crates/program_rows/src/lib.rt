//! Worked rows of programs: what they print and how they end, by every way to run them. The tests stand here, since a crate that has tests is proved twice.
#![tactic(auto)]

#[cfg(test)]
mod fuel;
#[cfg(test)]
mod modules;
#[cfg(test)]
mod runs;
#[cfg(test)]
mod sizes;
