//! Words of the command line, with the commands that they give.

use cal_terms::NoMemory;
use calypso_cli::{Command, Flags, WordsError, read_words};
use row_calls::strings;
use std::alloc::{AllocError, Global};
use std::process::Abort;
use std::test::Fail;

/// Words, and the command that they give, or nothing.
type Row = (&'static [&'static str], &'static str);

/// A file's name, or a dash, which names no file.
fn name(file: &Option<String>) -> &str {
    match file {
        Some(name) => name.as_str(),
        None => "-",
    }
}

fn flags_text(alloc: Global, flags: &Flags) -> Result<String, AllocError> {
    format!(in alloc;
        "{} {} {} {} {} {} {}",
        flags.workers,
        flags.fuel,
        flags.frames,
        name(&flags.script),
        name(&flags.log),
        flags.report,
        flags.steps
    )
}

fn command_text(alloc: Global, command: &Command) -> Result<String, AllocError> {
    match command {
        Command::Check { file } => format!(in alloc; "check {file}"),
        Command::Eval { file } => format!(in alloc; "eval {file}"),
        Command::Run { file, flags } => {
            let flags = flags_text(alloc, flags)?;
            format!(in alloc; "run {file} {flags}")
        }
        Command::Sim { file, events, log } => {
            format!(in alloc; "sim {file} {events} {}", name(log))
        }
        Command::Build { file, module } => format!(in alloc; "build {file} {module}"),
        Command::Exec { module, flags } => {
            let flags = flags_text(alloc, flags)?;
            format!(in alloc; "exec {module} {flags}")
        }
        Command::Gen(it) => format!(in alloc; "gen {} {}", it.number, it.size),
        Command::Selfrun(it) => format!(in alloc; "selfrun {} {}", it.number, it.size),
    }
}

fn text_of(alloc: Global, words: &[&str]) -> Result<String, NoMemory> {
    let words = strings(alloc, words)?;
    match read_words(alloc, &words) {
        Ok(command) => Ok(command_text(alloc, &command)?),
        Err(WordsError::NoCommand) => Ok(String::new(alloc)),
        Err(WordsError::NoMemory) => Err(NoMemory),
    }
}

fn all_read<R: Abort>(rt: &R, alloc: Global, rows: &[Row]) -> Result<(), Fail> {
    for (words, command) in rows {
        let text = text_of(alloc, words)?;
        assert_eq!(rt; text.as_str(), *command);
    }
    Ok(())
}

#[test]
fn operands(rt: HostRuntime) -> Result<(), Fail> {
    let rows: &[Row] = &[
        (&[], ""),
        (&[""], ""),
        (&["-"], ""),
        (&["--"], ""),
        (&["p.csl"], ""),
        (&["help"], ""),
        (&["--help"], ""),
        (&["--version"], ""),
        (&["-h"], ""),
        (&["check"], ""),
        (&["check", "p.csl"], "check p.csl"),
        (&["check", "p", "q"], ""),
        (&["check", ""], ""),
        (&["Check", "p"], ""),
        (&["CHECK", "p"], ""),
        (&["chec", "p"], ""),
        (&["checks", "p"], ""),
        (&["eval"], ""),
        (&["eval", "p.csl"], "eval p.csl"),
        (&["eval", "p", "q"], ""),
        (&["run"], ""),
        (&["run", "p.csl"], "run p.csl 4 1000000 64 - - false false"),
        (&["run", "p", "q"], ""),
        (&["run", "run"], "run run 4 1000000 64 - - false false"),
        (&["run", "run", "p"], ""),
        (&["sim"], ""),
        (&["sim", "p"], ""),
        (&["sim", "p", "e"], "sim p e -"),
        (&["sim", "p", "e", "f"], ""),
        (&["sim", "p", "p"], "sim p p -"),
        (&["build", "p"], ""),
        (&["build", "p", "m"], "build p m"),
        (&["build", "p", "m", "n"], ""),
        (&["build", "p", ""], ""),
        (&["exec"], ""),
        (&["exec", "m"], "exec m 4 1000000 64 - - false false"),
        (&["exec", "m", "n"], ""),
        (&["gen", "7"], ""),
        (&["gen", "7", "64"], "gen 7 64"),
        (&["gen", "7", "64", "1"], ""),
        (&["selfrun"], ""),
        (&["selfrun", "7", "64"], "selfrun 7 64"),
        (&["run", "a=b"], "run a=b 4 1000000 64 - - false false"),
        (&["run", "./-x"], "run ./-x 4 1000000 64 - - false false"),
        (&["run", "a b"], "run a b 4 1000000 64 - - false false"),
        (&["run", "é"], "run é 4 1000000 64 - - false false"),
    ];
    all_read(&rt, rt.alloc(), rows)
}

#[test]
fn words_with_a_dash(rt: HostRuntime) -> Result<(), Fail> {
    let rows: &[Row] = &[
        (&["run", "-"], ""),
        (&["run", "-p"], ""),
        (&["run", "--", "p"], ""),
        (&["run", "p", "--"], ""),
        (&["run", "-w", "2", "p"], ""),
        (&["run", "--p"], ""),
        (&["run", "p", "--worker", "2"], ""),
        (&["run", "p", "--Workers", "2"], ""),
        (&["run", "p", "-workers", "2"], ""),
        (&["run", "p", "---workers", "2"], ""),
        (&["run", "p", "--=2"], ""),
        (&["run", "p", "--help"], ""),
        (&["run", "p", "--version"], ""),
        (&["check", "p", "--steps"], ""),
        (&["check", "--log=l", "p"], ""),
        (&["eval", "p", "--fuel=9"], ""),
        (&["build", "p", "m", "--log", "l"], ""),
        (&["gen", "7", "64", "--report"], ""),
        (&["selfrun", "7", "64", "--workers", "2"], ""),
        (&["gen", "-7", "64"], ""),
        (&["sim", "p", "e", "--fuel", "9"], ""),
        (&["sim", "p", "e", "--report"], ""),
        (&["--report", "run", "p"], ""),
    ];
    all_read(&rt, rt.alloc(), rows)
}

#[test]
fn options(rt: HostRuntime) -> Result<(), Fail> {
    let rows: &[Row] = &[
        (
            &["run", "--workers", "0", "p"],
            "run p 0 1000000 64 - - false false",
        ),
        (
            &["run", "p", "--workers", "32"],
            "run p 32 1000000 64 - - false false",
        ),
        (
            &["run", "p", "--workers=32"],
            "run p 32 1000000 64 - - false false",
        ),
        (&["run", "p", "--workers", "33"], ""),
        (&["run", "p", "--workers", "-1"], ""),
        (&["run", "p", "--workers"], ""),
        (&["run", "--workers", "p"], ""),
        (&["run", "p", "--workers="], ""),
        (&["run", "p", "--workers", ""], ""),
        (&["run", "p", "--workers", "2", "--workers", "2"], ""),
        (&["run", "p", "--workers=2", "--workers", "3"], ""),
        (&["run", "p", "--fuel", "1"], "run p 4 1 64 - - false false"),
        (&["run", "p", "--fuel=0"], ""),
        (&["run", "--fuel=09", "p"], "run p 4 9 64 - - false false"),
        (
            &["run", "--fuel=4294967295", "p"],
            "run p 4 4294967295 64 - - false false",
        ),
        (&["run", "--fuel=4294967296", "p"], ""),
        (&["run", "--fuel=18446744073709551617", "p"], ""),
        (
            &["run", "--fuel=00000000000000000000000000007", "p"],
            "run p 4 7 64 - - false false",
        ),
        (&["run", "--fuel=+9", "p"], ""),
        (&["run", "--fuel= 9", "p"], ""),
        (&["run", "--fuel=9 ", "p"], ""),
        (&["run", "--fuel=1_000", "p"], ""),
        (&["run", "--fuel=0x9", "p"], ""),
        (&["run", "--fuel=1e3", "p"], ""),
        (&["run", "--fuel=٣", "p"], ""),
        (&["run", "--fuel==9", "p"], ""),
        (
            &["run", "--frames", "2", "p"],
            "run p 4 1000000 2 - - false false",
        ),
        (
            &["run", "--frames", "4096", "p"],
            "run p 4 1000000 4096 - - false false",
        ),
        (&["run", "--frames", "1", "p"], ""),
        (&["run", "--frames", "4097", "p"], ""),
        (
            &["run", "--script", "s", "p"],
            "run p 4 1000000 64 s - false false",
        ),
        (&["run", "--script=-s", "p"], ""),
        (&["run", "--script", "-s", "p"], ""),
        (&["run", "--script", "--report", "p"], ""),
        (
            &["run", "p", "--log", "l"],
            "run p 4 1000000 64 - l false false",
        ),
        (
            &["run", "p", "--log=a=b"],
            "run p 4 1000000 64 - a=b false false",
        ),
        (
            &["run", "p", "--log==b"],
            "run p 4 1000000 64 - =b false false",
        ),
        (
            &["run", "p", "--log", "p"],
            "run p 4 1000000 64 - p false false",
        ),
        (
            &["run", "p", "--report"],
            "run p 4 1000000 64 - - true false",
        ),
        (
            &["run", "p", "--steps"],
            "run p 4 1000000 64 - - false true",
        ),
        (&["run", "p", "--report=yes"], ""),
        (&["run", "p", "--report="], ""),
        (&["run", "p", "--steps", "--steps"], ""),
        (&["run", "--report", "p", "--report"], ""),
        (&["sim", "--log", "l", "p", "e"], "sim p e l"),
        (&["sim", "p", "--log=l", "e"], "sim p e l"),
        (&["sim", "p", "e", "--log", "l", "--log", "l"], ""),
        (&["gen", "0", "1"], "gen 0 1"),
        (&["gen", "4294967295", "4096"], "gen 4294967295 4096"),
        (&["gen", "4294967296", "1"], ""),
        (&["gen", "7", "0"], ""),
        (&["gen", "7", "4097"], ""),
        (&["gen", "x", "1"], ""),
        (&["selfrun", "007", "01"], "selfrun 7 1"),
        (&["selfrun", "7", "0"], ""),
        (
            &[
                "exec",
                "--steps",
                "--workers=1",
                "--frames",
                "3",
                "m",
                "--fuel",
                "5",
                "--script=s",
                "--report",
                "--log",
                "l",
            ],
            "exec m 1 5 3 s l true true",
        ),
    ];
    all_read(&rt, rt.alloc(), rows)
}
