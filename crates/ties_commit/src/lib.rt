//! The arrival rule: what becomes of a delivery, and its answer where it is the first.
#![tactic(auto)]

mod arrival;

pub use arrival::{Delivery, commit, judge};
