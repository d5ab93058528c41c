//! The program `calypso`: it makes the real files, streams and gate, and does what the words of the command line ask for.
#![tactic(auto)]

use cal_base::{HostFiles, HostSink, OpenGate};
use calypso_cli::{calypso, out_of_memory};
use std::env::{self, FillError};
use std::io;
use std::process::ExitCode;
use std::rt::Env;

/// The environment without the program's own name among the arguments: the name need not be text.
#[derive(Drop)]
struct Unnamed<'a>(&'a HostRuntime);

impl Env for Unnamed<'_> {
    fn arg(&self, i: usize, buf: &mut [u8]) -> Result<usize, FillError> {
        match i.checked_add(1) {
            Some(next) => self.0.arg(next, buf),
            None => Err(FillError::NotPresent),
        }
    }

    fn var(&self, name: &str, buf: &mut [u8]) -> Result<usize, FillError> {
        self.0.var(name, buf)
    }

    fn var_at(&self, i: usize, buf: &mut [u8]) -> Result<usize, FillError> {
        self.0.var_at(i, buf)
    }
}

// The words of the command line, without the program's own name.
fn words(rt: &HostRuntime) -> io::Result<Vec<String>> {
    let words = env::args(&(Unnamed(rt), rt.alloc()))?.collect(rt.alloc())?;
    Ok(words)
}

// The words, where they are text; words that are not give no command. None where memory is wanted.
fn known_words(rt: &HostRuntime) -> Option<Vec<String>> {
    match words(rt) {
        Ok(words) => Some(words),
        Err(error) if error.kind() == io::ErrorKind::OutOfMemory => None,
        Err(_) => Some(Vec::new(rt.alloc())),
    }
}

fn main(rt: HostRuntime) -> ExitCode {
    let mut err = HostSink::err(&rt);
    let status = match known_words(&rt) {
        Some(words) => {
            let mut files = HostFiles::make(&rt);
            let mut out = HostSink::out(&rt);
            calypso(
                &rt,
                rt.alloc(),
                &words,
                &mut files,
                &mut out,
                &mut err,
                &OpenGate,
            )
        }
        None => out_of_memory(&mut err),
    };
    ExitCode::from(status)
}
