//! Worked rows of the command: words, files and streams, texts and their refusals. The tests stand here, since a crate that has tests is proved twice.
#![tactic(auto)]

#[cfg(test)]
mod calls;
#[cfg(test)]
mod checks;
#[cfg(test)]
mod commands;
#[cfg(test)]
mod host;
#[cfg(test)]
mod refusals;
#[cfg(test)]
mod words;
