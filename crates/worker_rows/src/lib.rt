//! Worked rows of runs by workers and over lists of events. The tests stand here, since a crate that has tests is proved twice.
#![tactic(auto)]

#[cfg(test)]
mod generated;
#[cfg(test)]
mod simulations;
#[cfg(test)]
mod workers;
