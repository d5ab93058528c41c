//! Modules: what `build` writes and `exec` runs.

use cal_base::{MemFiles, MemSink, NoMemory, OpenGate};
use calypso_cli::{Command, calypso, plain};
use row_calls::strings;
use std::alloc::Global;
use std::process::Abort;
use std::sync::Wait;
use std::test::Fail;
use std::thread::Threads;

/// What came of a call.
#[derive(Drop)]
struct Done {
    status: u8,
    files: MemFiles,
    out: MemSink,
    err: MemSink,
}

/// A file of this name and bytes.
fn file(alloc: Global, name: &str, bytes: &[u8]) -> Result<(String, Vec<u8>), NoMemory> {
    Ok((
        String::from_str(alloc, name)?,
        Vec::from_slice(alloc, bytes)?,
    ))
}

/// Calls the program where `p.csl` and `m` hold these bytes, each file has this room once it is created, and these calls of the files fail.
fn call_on<R: Threads + Wait + Sync>(
    rt: &R,
    alloc: Global,
    words: &[&str],
    program: &[u8],
    module: &[u8],
    room: usize,
    fail: Vec<u64>,
) -> Result<Done, NoMemory> {
    let words = strings(alloc, words)?;
    let mut given = Vec::new(alloc);
    given.push(file(alloc, "p.csl", program)?)?;
    given.push(file(alloc, "m", module)?)?;
    let mut files = MemFiles::make(alloc, given, Vec::new(alloc), room, fail)?;
    let mut out = MemSink::make(alloc, 5, 4096, Vec::new(alloc))?;
    let mut err = MemSink::make(alloc, 7, 256, Vec::new(alloc))?;
    let status = calypso(rt, alloc, &words, &mut files, &mut out, &mut err, &OpenGate);
    Ok(Done {
        status,
        files,
        out,
        err,
    })
}

/// Runs `exec m` where `m` holds these bytes, and compares what came of it.
fn exec_is<R: Threads + Wait + Sync + Abort>(
    rt: &R,
    alloc: Global,
    module: &[u8],
    status: u8,
    out: &[u8],
    err: &[u8],
) -> Result<(), Fail> {
    let done = call_on(rt, alloc, &["exec", "m"], b"", module, 0, Vec::new(alloc))?;
    assert_eq!(rt; done.err.bytes(), err);
    assert_eq!(rt; done.out.bytes(), out);
    assert_eq!(rt; done.status, status);
    assert!(rt; done.files.bytes("m") == Some(module));
    Ok(())
}

/// The module whose main returns at once.
const EMPTY: [u8; 13] = [0x43, 0x53, 0x4c, 0x31, 0, 0, 0, 0, 0, 0, 0, 0x01, 0x1c];

#[test]
fn modules_by_their_bytes(rt: HostRuntime) -> Result<(), Fail> {
    let rows: [(&[u8], u8, &[u8], &[u8]); 9] = [
        (b"CSL1\0\0\0\0\0\0\0\x01\x1c", 0, b"", b""),
        (
            b"CSL1\0\0\0\0\0\0\0\x03\x00\x05\x1f\x01\x01\x1c",
            0,
            b"-3\n",
            b"",
        ),
        (
            b"CSL1\0\0\0\0\0\0\0\x01\x1a\x00",
            5,
            b"",
            b"fault: after step 0: fuel spent\n",
        ),
        (b"CSL1\0\0\0\0\0\0\0\x01\x1d", 10, b"", b"module refused\n"),
        (
            b"CSL1\0\0\0\0\0\0\0\x01\x1c\0",
            10,
            b"",
            b"module refused\n",
        ),
        (
            b"CSL1\x80\0\0\0\0\0\0\0\x01\x1c",
            10,
            b"",
            b"module refused\n",
        ),
        (
            b"CSL1\0\0\0\xff\xff\xff\xff\x0f",
            10,
            b"",
            b"module refused\n",
        ),
        (b"CSL1\x80\x80\x80\x80\x10", 10, b"", b"module refused\n"),
        (b"CSL2\0\0\0\0\0\0\0\x01\x1c", 10, b"", b"module refused\n"),
    ];
    for (module, status, out, err) in rows {
        exec_is(&rt, rt.alloc(), module, status, out, err)?;
    }
    for length in 0..EMPTY.len() {
        exec_is(
            &rt,
            rt.alloc(),
            &EMPTY[..length],
            10,
            b"",
            b"module refused\n",
        )?;
    }
    exec_is(&rt, rt.alloc(), &EMPTY, 0, b"", b"")
}

/// Builds a program into `into`, and then runs that file by `exec` with this much fuel. The build leaves out and err as they are.
pub(crate) fn built_is<R: Threads + Wait + Sync + Abort>(
    rt: &R,
    alloc: Global,
    program: &[u8],
    into: &str,
    fuel: &str,
    expected: (u8, &[u8], &[u8]),
) -> Result<(), Fail> {
    let built = call_on(
        rt,
        alloc,
        &["build", "p.csl", into],
        program,
        b"old",
        65536,
        Vec::new(alloc),
    )?;
    assert_eq!(rt; built.err.bytes(), b"".as_slice());
    assert_eq!(rt; built.out.bytes(), b"".as_slice());
    assert_eq!(rt; built.status, 0);
    let module = built.files.bytes(into).unwrap_or_default();
    let words = ["exec", "m", "--fuel", fuel];
    let done = call_on(rt, alloc, &words, b"", module, 0, Vec::new(alloc))?;
    assert_eq!(rt; done.err.bytes(), expected.2);
    assert_eq!(rt; done.out.bytes(), expected.1);
    assert_eq!(rt; done.status, expected.0);
    let words = ["run", "p.csl", "--fuel", fuel];
    let run = call_on(rt, alloc, &words, program, b"", 0, Vec::new(alloc))?;
    assert_eq!(rt; run.err.bytes(), expected.2);
    assert_eq!(rt; run.out.bytes(), expected.1);
    assert_eq!(rt; run.status, expected.0);
    Ok(())
}

#[test]
fn programs_that_are_built(rt: HostRuntime) -> Result<(), Fail> {
    let rows: [(&[u8], &str, (u8, &[u8], &[u8])); 6] = [
        (
            b"shared { int a[4]; } main { parbegin routine[4](int w, int id) { a[id] = id * id; } parend; print(\"sum\", a[0] + a[1] + a[2] + a[3]); }",
            "1000000",
            (0, b"sum 14\n", b""),
        ),
        (
            b"shared { int a[4]; } main { parbegin routine[4](int w, int id) { a[id] = 5 / (2 - id); } parend; print(\"sum\"); }",
            "1000000",
            (5, b"", b"fault: step 1, routine 2: division by zero\n"),
        ),
        (
            b"shared { } main { int i = 0; while (i < 3) { i += 1; } print(i); }",
            "3",
            (0, b"3\n", b""),
        ),
        (
            b"shared { } main { int i = 0; while (i < 4) { i += 1; } print(i); }",
            "3",
            (5, b"", b"fault: after step 0: fuel spent\n"),
        ),
        (
            b"shared { } main { parbegin routine[1](int w, int id) { int i = 0; while (i < 4) { i += 1; } } parend; print(9); }",
            "4",
            (0, b"9\n", b""),
        ),
        (
            b"shared { } main { parbegin routine[1](int w, int id) { int i = 0; while (i < 4) { i += 1; } } parend; print(9); }",
            "3",
            (5, b"", b"fault: step 1, routine 0: fuel spent\n"),
        ),
    ];
    for (program, fuel, expected) in rows {
        for into in ["m", "p.csl"] {
            built_is(&rt, rt.alloc(), program, into, fuel, expected)?;
        }
    }
    Ok(())
}

#[test]
fn builds_that_fail(rt: HostRuntime) -> Result<(), Fail> {
    let alloc = rt.alloc();
    let good = b"shared { } main { }".as_slice();
    let rows: [(&[u8], u64, usize, u8, &[u8]); 6] = [
        (good, 1, 99, 3, b"file p.csl: cannot be used\n"),
        (good, 2, 99, 3, b"file m: cannot be used\n"),
        (good, 3, 99, 3, b"file m: cannot be used\n"),
        (good, 0, 4, 3, b"file m: cannot be used\n"),
        (good, 0, 99, 0, b""),
        (
            b"shared { } main { x; }",
            0,
            99,
            4,
            b"refused: at 19: unexpected\n",
        ),
    ];
    for (program, failing, room, status, err) in rows {
        let fail = vec![in alloc; failing]?;
        let words = ["build", "p.csl", "m"];
        let built = call_on(&rt, alloc, &words, program, b"old", room, fail)?;
        let held = built.files.bytes("m").unwrap_or_default();
        let wanted: &[u8] = match (status, failing) {
            (0, _) => &EMPTY,
            (3, 3) => b"",
            (3, 0) => &EMPTY[..4],
            _ => b"old",
        };
        assert_eq!(rt; held, wanted);
        assert_eq!(rt; built.err.bytes(), err);
        assert_eq!(rt; built.out.bytes(), b"".as_slice());
        assert_eq!(rt; built.status, status);
    }
    Ok(())
}

#[test]
fn plain_builds(rt: HostRuntime) -> Result<(), Fail> {
    let alloc = rt.alloc();
    let mut given = Vec::new(alloc);
    given.push(file(alloc, "p.csl", b"shared { } main { }")?)?;
    let mut files = MemFiles::make(alloc, given, Vec::new(alloc), 99, Vec::new(alloc))?;
    let mut out = MemSink::make(alloc, 9, 99, Vec::new(alloc))?;
    let mut err = MemSink::make(alloc, 9, 99, Vec::new(alloc))?;
    let build = Command::Build {
        file: String::from_str(alloc, "p.csl")?,
        module: String::from_str(alloc, "p.csl")?,
    };
    assert_eq!(rt; plain(alloc, &build, &mut files, &mut out, &mut err), 0);
    assert!(rt; files.bytes("p.csl") == Some(EMPTY.as_slice()));
    assert_eq!(rt; out.bytes(), b"".as_slice());
    assert_eq!(rt; err.bytes(), b"".as_slice());
    Ok(())
}
