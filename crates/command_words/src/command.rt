//! Commands with their operands and options, and why words give none.

ghost use Rattle.std.specs.Prelude.{◌≤◌};

use std::alloc::{AllocError, AllocFailed};

/// The options of a run, each within its range.
#[derive(Debug, Drop)]
pub struct Flags {
    /// How many worker threads there are: 0 to 32.
    pub workers: u8,
    /// How many units of fuel main has, and each execution of a routine: 1 to 4,294,967,295.
    pub fuel: u32,
    /// How many pages a worker keeps at once: 2 to 4,096.
    pub frames: u32,
    /// The file that says which results workers lose, repeat and hold back, and when they stop.
    pub script: Option<String>,
    /// The file that gets the history of each step.
    pub log: Option<String>,
    /// Whether the error stream gets a line for each worker and for the caller.
    pub report: bool,
    /// Whether the output gets the words that each step changed.
    pub steps: bool,
    pub ghost most_workers: { workers ≤ 32 },
    pub ghost least_fuel: { 1 ≤ fuel },
    pub ghost least_frames: { 2 ≤ frames },
    pub ghost most_frames: { frames ≤ 4096 },
}

/// Which generated program is meant.
#[derive(Clone, Copy, Debug, PartialEq, Eq)]
pub struct Generated {
    /// Its number: any.
    pub number: u32,
    /// How many steps it has: 1 to 4,096.
    pub size: u32,
    pub ghost least: { 1 ≤ size },
    pub ghost most: { size ≤ 4096 },
}

/// A command with its operands. What each does is told in `docs/RUNTIME.md`.
#[derive(Debug, Drop)]
pub enum Command {
    /// Writes the canonical text of the program in a file.
    Check {
        file: String,
    },
    /// Runs the program in a file on one thread.
    Eval {
        file: String,
    },
    /// Compiles and runs the program in a file.
    Run {
        file: String,
        flags: Flags,
    },
    /// Runs the program in a file where its workers do what a list of events says.
    Sim {
        file: String,
        events: String,
        log: Option<String>,
    },
    /// Compiles the program in a file, and writes its module.
    Build {
        file: String,
        module: String,
    },
    /// Runs the module in a file.
    Exec {
        module: String,
        flags: Flags,
    },
    /// Writes a generated program.
    Gen(Generated),
    /// Runs a generated program.
    Selfrun(Generated),
}

/// Why words were not read.
#[derive(Clone, Copy, Debug, PartialEq, Eq)]
pub enum WordsError {
    /// They give no command.
    NoCommand,
    /// Memory was wanted and not there.
    NoMemory,
}

impl From<AllocError> for WordsError {
    ghost use Rattle.std.specs.Prelude.{◌≡◌};
    ghost use Rattle.command_words.specs.declared.command.WordsError.TheVariants as error;

    ghost from_gives = { λ _ e. e ≡ error.NoMemory };

    fn from(_: AllocError) -> Self {
        WordsError::NoMemory
    }
}

impl<T: Drop> From<AllocFailed<T>> for WordsError {
    ghost use Rattle.std.specs.Prelude.{◌≡◌};
    ghost use Rattle.command_words.specs.declared.command.WordsError.TheVariants as error;

    ghost from_gives = { λ _ e. e ≡ error.NoMemory };

    fn from(_: AllocFailed<T>) -> Self {
        WordsError::NoMemory
    }
}
