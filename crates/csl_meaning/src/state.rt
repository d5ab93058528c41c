//! What a run works on. Contracts see each list here as a list.

use cal_base::{Store, Val};
use csl_tree::name::Text;

/// How a statement ends.
#[derive(Clone, Copy, PartialEq, Eq, Debug)]
pub enum Ending {
    Normal,
    Break,
    Continue,
    Return(Option<Val>),
}

/// A parameter or a local of a body.
#[derive(Debug, Drop)]
pub struct Local {
    pub name: Text,
    pub value: Val,
}

/// What a run changes: the words, the units of fuel that are left, and the number of completed steps.
#[derive(Drop)]
pub struct World {
    pub store: Store,
    pub fuel: u64,
    pub steps: u64,
}

/// The words of one declaration: the first address, and how many an array has.
#[derive(Clone, Copy, PartialEq, Eq, Debug)]
pub struct Area {
    pub first: u32,
    pub items: Option<u32>,
}
