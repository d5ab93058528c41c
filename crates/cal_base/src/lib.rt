//! What all of Calypso stands on: the outside as the program sees it, how a routine, a step and a run end,
//! shared memory and updates, and what a parallel step means.
#![tactic(auto)]

pub mod answer;
pub mod ends;
mod host;
pub mod image;
pub mod job;
mod memory_file;
mod memory_files;
mod memory_sink;
pub mod outside;
pub mod step;
pub mod update;
pub mod value;
mod whole;
pub mod words;

pub use answer::Answer;
pub use cal_terms::limits::MOST_WORDS;
pub use cal_terms::{NoMemory, WordKind};
pub use ends::{Cause, Overflow, RoutineEnd, RunEnd, StepFault};
pub use host::{HostFiles, HostSink};
pub use image::{Image, PAGE};
pub use job::JobName;
pub use memory_files::MemFiles;
pub use memory_sink::MemSink;
pub use outside::{Failed, Files, Gate, LoadError, OpenGate, Point, Sink};
pub use step::{CALLER, Claimed, Entry, Verdict, Word, WorkerTally, arrival_bound, claim_bound};
pub use update::{KeptUpdate, UpdateWords};
pub use value::{Store, Val};
pub use whole::{append_all, write_all};
pub use words::Words;
