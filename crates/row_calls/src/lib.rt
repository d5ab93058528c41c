//! Calls of the whole program over files and streams in memory, for the rows.
#![tactic(auto)]

use cal_base::{Gate, MemFiles, MemSink, NoMemory, OpenGate};
use calypso_cli::calypso;
use std::alloc::Global;
use std::sync::Wait;
use std::thread::Threads;

/// What came of a call.
#[derive(Drop)]
pub struct Called {
    pub status: u8,
    pub out: MemSink,
    pub err: MemSink,
}

/// Words as a command line hands them over.
pub fn strings(alloc: Global, words: &[&str]) -> Result<Vec<String>, NoMemory> {
    let mut strings = Vec::new(alloc);
    for word in words {
        strings.push(String::from_str(alloc, word)?)?;
    }
    Ok(strings)
}

/// Calls the program with these words, where `p.csl` holds this text, on an output that fails at these writes.
pub fn call<R: Threads + Wait + Sync>(
    rt: &R,
    alloc: Global,
    words: &[&str],
    text: &[u8],
    fail: Vec<u64>,
) -> Result<Called, NoMemory> {
    let words = strings(alloc, words)?;
    let mut given = Vec::new(alloc);
    given.push((
        String::from_str(alloc, "p.csl")?,
        Vec::from_slice(alloc, text)?,
    ))?;
    let mut files = MemFiles::make(alloc, given, Vec::new(alloc), 0, Vec::new(alloc))?;
    let mut out = MemSink::make(alloc, 1, 4096, fail)?;
    let mut err = MemSink::make(alloc, 7, 256, Vec::new(alloc))?;
    let status = calypso(rt, alloc, &words, &mut files, &mut out, &mut err, &OpenGate);
    Ok(Called { status, out, err })
}

/// What came of a call, and the files behind it.
#[derive(Drop)]
pub struct Ran {
    pub called: Called,
    pub files: MemFiles,
}

/// Calls the program where `p.csl` and `s` hold these texts and `l` may be created; the files fail at this call, or at none where it is 0.
pub fn run_words<R: Threads + Wait + Sync, G: Gate>(
    rt: &R,
    alloc: Global,
    words: &[&str],
    texts: (&[u8], &[u8]),
    fail: u64,
    gate: &G,
) -> Result<Ran, NoMemory> {
    let words = strings(alloc, words)?;
    let mut given = Vec::new(alloc);
    given.push((
        String::from_str(alloc, "p.csl")?,
        Vec::from_slice(alloc, texts.0)?,
    ))?;
    given.push((
        String::from_str(alloc, "s")?,
        Vec::from_slice(alloc, texts.1)?,
    ))?;
    let mut free = Vec::new(alloc);
    free.push(String::from_str(alloc, "l")?)?;
    let mut failing = Vec::new(alloc);
    if fail > 0 {
        failing.push(fail)?;
    }
    let mut files = MemFiles::make(alloc, given, free, 1 << 20, failing)?;
    let mut out = MemSink::make(alloc, 100, 1 << 14, Vec::new(alloc))?;
    let mut err = MemSink::make(alloc, 100, 1 << 14, Vec::new(alloc))?;
    let status = calypso(rt, alloc, &words, &mut files, &mut out, &mut err, gate);
    Ok(Ran {
        called: Called { status, out, err },
        files,
    })
}
