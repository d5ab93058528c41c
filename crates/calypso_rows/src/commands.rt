//! Calls of the whole program: each status that can come today, and calls of files and streams that fail one after another.

use cal_base::{MemFiles, MemSink, OpenGate};
use cal_terms::NoMemory;
use calypso_cli::{Command, calypso, out_of_memory, plain};
use row_calls::{Called, strings};
use std::alloc::Global;
use std::sync::Wait;
use std::test::Fail;
use std::thread::Threads;

/// Words, the text of `p.csl`, the status, and what out and err get.
type Row = (
    &'static [&'static str],
    &'static [u8],
    u8,
    &'static [u8],
    &'static [u8],
);

/// Files where `p.csl` holds this text, and that fail at these calls.
fn files_with(alloc: Global, text: &[u8], fail: Vec<u64>) -> Result<MemFiles, NoMemory> {
    let mut given = Vec::new(alloc);
    given.push((
        String::from_str(alloc, "p.csl")?,
        Vec::from_slice(alloc, text)?,
    ))?;
    MemFiles::make(alloc, given, Vec::new(alloc), 0, fail)
}

/// A list of the one number, or of none where it is 0.
fn list_of(alloc: Global, number: u64) -> Result<Vec<u64>, NoMemory> {
    let mut list = Vec::new(alloc);
    if number > 0 {
        list.push(number)?;
    }
    Ok(list)
}

/// Calls the program where these calls of the files, of out and of err fail.
fn call_failing<R: Threads + Wait + Sync>(
    rt: &R,
    alloc: Global,
    words: &[&str],
    text: &[u8],
    fail: (u64, u64, u64),
) -> Result<Called, NoMemory> {
    let words = strings(alloc, words)?;
    let mut files = files_with(alloc, text, list_of(alloc, fail.0)?)?;
    let mut out = MemSink::make(alloc, 3, 4096, list_of(alloc, fail.1)?)?;
    let mut err = MemSink::make(alloc, 3, 256, list_of(alloc, fail.2)?)?;
    let status = calypso(rt, alloc, &words, &mut files, &mut out, &mut err, &OpenGate);
    Ok(Called { status, out, err })
}

const GOOD: &[u8] = b"shared { } main { print(1); print(2); }";

#[test]
fn statuses(rt: HostRuntime) -> Result<(), Fail> {
    let rows: &[Row] = &[
        (&["run", "p.csl"], GOOD, 0, b"1\n2\n", b""),
        (&["eval", "p.csl"], GOOD, 0, b"1\n2\n", b""),
        (
            &["check", "p.csl"],
            b"shared{}main{}",
            0,
            b"shared {\n}\nmain {\n}\n",
            b"",
        ),
        (&["run"], GOOD, 2, b"", b"no command\n"),
        (&["run", "q"], GOOD, 3, b"", b"file q: cannot be used\n"),
        (&["check", "q"], GOOD, 3, b"", b"file q: cannot be used\n"),
        (
            &["run", "p.csl"],
            b"shared { } main { parbegin",
            4,
            b"",
            b"refused: at 26: unexpected\n",
        ),
        (
            &["check", "p.csl"],
            b"shared { } main { x; }",
            4,
            b"",
            b"refused: at 19: unexpected\n",
        ),
        (
            &["run", "p.csl"],
            b"shared { int z; } main { print(7); print(1 / z); }",
            5,
            b"7\n",
            b"fault: after step 0: division by zero\n",
        ),
        (
            &["eval", "p.csl"],
            b"shared { int s; } main { parbegin routine[2](int w, int id) { s = id; } parend; }",
            5,
            b"",
            b"fault: step 1, routine 1: word 0 also written by routine 0\n",
        ),
        (
            &["check", "p.csl"],
            b"shared{int z;}main{print(1/z);}",
            0,
            b"shared {\n  int z ;\n}\nmain {\n  print ( 1 / z ) ;\n}\n",
            b"",
        ),
    ];
    for (words, text, status, out, err) in rows {
        let called = call_failing(&rt, rt.alloc(), words, text, (0, 0, 0))?;
        assert_eq!(rt; called.err.bytes(), *err);
        assert_eq!(rt; called.out.bytes(), *out);
        assert_eq!(rt; called.status, *status);
    }
    Ok(())
}

#[test]
fn options_in_any_order(rt: HostRuntime) -> Result<(), Fail> {
    let usual = ["run", "--workers=4", "p.csl", "--fuel", "5", "--frames=64"];
    let called = call_failing(&rt, rt.alloc(), &usual, GOOD, (0, 0, 0))?;
    assert_eq!(rt; called.out.bytes(), b"1\n2\n".as_slice());
    assert_eq!(rt; called.status, 0);
    Ok(())
}

#[test]
fn files_that_fail(rt: HostRuntime) -> Result<(), Fail> {
    for command in ["check", "eval", "run"] {
        let called = call_failing(&rt, rt.alloc(), &[command, "p.csl"], GOOD, (1, 0, 0))?;
        assert_eq!(rt;
            called.err.bytes(),
            b"file p.csl: cannot be used\n".as_slice()
        );
        assert_eq!(rt; called.out.bytes(), b"".as_slice());
        assert_eq!(rt; called.status, 3);
        let called = call_failing(&rt, rt.alloc(), &[command, "p.csl"], GOOD, (2, 0, 0))?;
        assert_eq!(rt; called.status, 0);
    }
    Ok(())
}

/// The front that three bytes a put leave where a put of this number, from 1, fails.
fn front(text: &[u8], number: usize) -> &[u8] {
    let length = (number.saturating_sub(1)).saturating_mul(3).min(text.len());
    &text[..length]
}

#[test]
fn puts_that_fail(rt: HostRuntime) -> Result<(), Fail> {
    let canonical = b"shared {\n}\nmain {\n}\n".as_slice();
    for number in 1..8u64 {
        let words: [&str; 2] = ["check", "p.csl"];
        let called = call_failing(&rt, rt.alloc(), &words, b"shared{}main{}", (0, number, 0))?;
        assert_eq!(rt; called.out.bytes(), front(canonical, number as usize));
        assert_eq!(rt; called.err.bytes(), b"output failed\n".as_slice());
        assert_eq!(rt; called.status, 7);
    }
    for number in 1..5u64 {
        let called = call_failing(&rt, rt.alloc(), &["run", "p.csl"], GOOD, (0, 9, number))?;
        assert_eq!(rt; called.out.bytes(), b"1\n2\n".as_slice());
        assert_eq!(rt; called.status, 0);
        let called = call_failing(&rt, rt.alloc(), &["run"], GOOD, (0, 0, number))?;
        assert_eq!(rt; called.err.bytes(), front(b"no command\n", number as usize));
        assert_eq!(rt; called.status, 2);
    }
    Ok(())
}

#[test]
fn plain_does_what_the_top_call_does(rt: HostRuntime) -> Result<(), Fail> {
    let alloc = rt.alloc();
    let mut files = files_with(alloc, b"shared{}main{print(1);}", Vec::new(alloc))?;
    let mut out = MemSink::make(alloc, 9, 99, Vec::new(alloc))?;
    let mut err = MemSink::make(alloc, 9, 99, Vec::new(alloc))?;
    let file = String::from_str(alloc, "p.csl")?;
    let check = Command::Check { file };
    assert_eq!(rt; plain(alloc, &check, &mut files, &mut out, &mut err), 0);
    let file = String::from_str(alloc, "p.csl")?;
    let eval = Command::Eval { file };
    assert_eq!(rt; plain(alloc, &eval, &mut files, &mut out, &mut err), 0);
    let simulated = Command::Sim {
        file: String::from_str(alloc, "p.csl")?,
        events: String::from_str(alloc, "e")?,
        log: None,
    };
    assert_eq!(rt; plain(alloc, &simulated, &mut files, &mut out, &mut err), 3);
    let text = b"shared {\n}\nmain {\n  print ( 1 ) ;\n}\n1\n".as_slice();
    assert_eq!(rt; out.bytes(), text);
    assert_eq!(rt; err.bytes(), b"file e: cannot be used\n".as_slice());
    Ok(())
}

#[test]
fn want_of_memory_for_the_words(rt: HostRuntime) -> Result<(), Fail> {
    let alloc = rt.alloc();
    let mut err = MemSink::make(alloc, 7, 5, Vec::new(alloc))?;
    assert_eq!(rt; out_of_memory(&mut err), 6);
    assert_eq!(rt; err.bytes(), b"out o".as_slice());
    Ok(())
}
