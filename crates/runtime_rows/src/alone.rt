//! Modules by their bytes, and a run by the caller alone.

use bytecode::decode;
use cal_base::{MemFiles, OpenGate, Sink};
use calypso_engine::{RunError, RunOptions, RunReport, run};
use code_verify::{Verified, verify};
use fault_script::Script;
use std::alloc::Global;
use std::sync::Wait;
use std::test::Fail;
use std::thread::Threads;

/// The verified module whose bytes these are, in hexadecimal digits.
pub fn module_of(alloc: Global, spelling: &str) -> Result<Verified, Fail> {
    let bytes = hex::decode(alloc, spelling).ok().ok_or("bytes")?;
    let m = decode(alloc, bytes.as_slice()).ok().ok_or("a module")?;
    let code = verify(alloc, m).ok().ok_or("a verified module")?;
    Ok(code)
}

/// Runs the code with this fuel and 2 to 4,096 frames, without a worker, a script or a log. Other numbers of frames count as 64.
pub fn run_alone<R: Threads + Wait + Sync, S: Sink>(
    rt: &R,
    alloc: Global,
    code: &Verified,
    fuel: u32,
    frames: u32,
    out: &mut S,
) -> Result<RunReport, RunError> {
    let frames = if 2 <= frames && frames <= 4096 {
        frames
    } else {
        64
    };
    let script = Script::none(alloc);
    let options = RunOptions {
        workers: 0,
        fuel,
        frames,
        script: &script,
        steps: false,
        log: None,
    };
    let mut files = MemFiles::make(alloc, Vec::new(alloc), Vec::new(alloc), 0, Vec::new(alloc))?;
    run(rt, alloc, code, &options, &mut files, out, &OpenGate)
}
