//! Worked rows of the engine. The tests stand here, since a crate that has tests is proved twice.
#![tactic(auto)]

#[cfg(test)]
mod alone;
#[cfg(test)]
mod engine;
#[cfg(test)]
mod fetches;
#[cfg(test)]
mod worker_pages;
