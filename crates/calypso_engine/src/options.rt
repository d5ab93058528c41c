//! What a run is asked for.

use fault_script::Script;

/// What a run is asked for.
#[derive(Clone, Copy)]
pub struct RunOptions<'a> {
    /// How many workers there are beside the caller.
    pub workers: u8,
    /// How many units of fuel main has, and each routine.
    pub fuel: u32,
    /// How many frames for pages each worker has.
    pub frames: u32,
    /// What is said of the workers.
    pub script: &'a Script,
    /// Whether the words that each step changed are shown.
    pub steps: bool,
    /// The file that gets the history of each step at its end, where one is named.
    pub log: Option<&'a str>,
}
