//! Runs over lists of events, by words, with their logs.

use crate::workers::{COUNTER, SQUARES};
use cal_base::OpenGate;
use row_calls::run_words;
use std::alloc::Global;
use std::test::Fail;

/// The text of `p.csl`, that of the events, the status, and what out, err and the log get.
type Row = (
    &'static [u8],
    &'static [u8],
    u8,
    &'static [u8],
    &'static [u8],
    &'static [u8],
);

const TRAPS: &[u8] =
    b"shared { int a[4]; int z; } main { parbegin routine[4](int w, int id) { if (id == 3) { a[0] = 1 / z; } \
if (id == 1) { a[4 + id] = 1; } a[id] = id; } parend; }";

const WRITERS: &[u8] =
    b"shared { int s; } main { parbegin routine[4](int w, int id) { if (id > 0) { s = id; } } parend; }";

#[test]
fn events_and_their_logs(rt: HostRuntime) -> Result<(), Fail> {
    let rows: &[Row] = &[
        (
            SQUARES,
            b"",
            0,
            b"sum 14\n",
            b"",
            b"step 1 of 4\nclaim caller 0\narrive caller 1 0 first\nclaim caller 1\narrive caller 1 1 first\n\
claim caller 2\narrive caller 1 2 first\nclaim caller 3\narrive caller 1 3 first\n",
        ),
        (
            TRAPS,
            b"claim 0\nclaim 1\nclaim 2\nclaim 3\nfinish 3\narrive 1\n",
            5,
            b"",
            b"fault: step 1, routine 1: index out of range\n",
            b"step 1 of 4\nclaim 0 0\nclaim 1 1\nclaim 2 2\nclaim 3 3\narrive 3 1 3 first\n\
claim caller 0\narrive caller 1 0 first\nclaim caller 1\narrive caller 1 1 first\n",
        ),
        (
            WRITERS,
            b"claim 0\nclaim 1\nclaim 2\nclaim 3\nfinish 2\nfinish 3\nfinish 1\narrive 1\narrive 2\narrive 3\n",
            5,
            b"",
            b"fault: step 1, routine 2: word 0 also written by routine 1\n",
            b"step 1 of 4\nclaim 0 0\nclaim 1 1\nclaim 2 2\nclaim 3 3\narrive 2 1 2 first\narrive 3 1 3 first\n\
arrive 1 1 1 first\nclaim caller 0\narrive caller 1 0 first\n",
        ),
        (
            COUNTER,
            b"claim 0\nfinish 0\narrive 1\narrive 1\nclaim 1\n",
            0,
            b"2\n",
            b"",
            b"step 1 of 1\nclaim 0 0\narrive 0 1 0 first\nstep 2 of 1\narrive 0 1 0 stale\nclaim 1 0\n\
claim caller 0\narrive caller 2 0 first\n",
        ),
        (
            COUNTER,
            b"arrive 2\nfinish 0\nfetch 0 4294967295\nclaim 0\nclaim 0\nstop 1\nclaim 1\nstop 0\nfinish 0\n",
            0,
            b"2\n",
            b"",
            b"step 1 of 1\nclaim 0 0\nclaim caller 0\narrive caller 1 0 first\nstep 2 of 1\nclaim caller 0\narrive caller 2 0 first\n",
        ),
    ];
    for (text, events, status, out, err, log) in rows {
        let words = ["sim", "p.csl", "s", "--log", "l"];
        let ran = run_words(&rt, rt.alloc(), &words, (text, events), 0, &OpenGate)?;
        assert_eq!(rt; ran.called.err.bytes(), *err);
        assert_eq!(rt; ran.called.out.bytes(), *out);
        assert_eq!(rt; ran.called.status, *status);
        assert_eq!(rt; ran.files.bytes("l"), Some(*log));
    }
    Ok(())
}

#[test]
fn events_that_are_refused(rt: HostRuntime) -> Result<(), Fail> {
    let rows: [(&[u8], &[u8]); 14] = [
        (b"claim 0\nclaim 32\n", b"events refused: line 2\n"),
        (b"claim\n", b"events refused: line 1\n"),
        (b"claim  0\n", b"events refused: line 1\n"),
        (b"claim 0 \n", b"events refused: line 1\n"),
        (b" claim 0\n", b"events refused: line 1\n"),
        (b"Claim 0\n", b"events refused: line 1\n"),
        (b"claim +1\n", b"events refused: line 1\n"),
        (b"\n#\n\r\nfetch 0\n", b"events refused: line 4\n"),
        (b"fetch 0 4294967296\n", b"events refused: line 1\n"),
        (b"finish 0 1\n", b"events refused: line 1\n"),
        (b"arrive 1\narrive 0\n", b"events refused: line 2\n"),
        (b"arrive 4294967296\n", b"events refused: line 1\n"),
        (b"stop 0\n\xFF\n", b"events refused: line 2\n"),
        (b"stop 0\r\nstop 0\r", b"events refused: line 2\n"),
    ];
    for (events, err) in rows {
        let words = ["sim", "p.csl", "s", "--log", "l"];
        let ran = run_words(&rt, rt.alloc(), &words, (SQUARES, events), 0, &OpenGate)?;
        assert_eq!(rt; ran.called.err.bytes(), err);
        assert_eq!(rt; ran.called.out.bytes(), b"".as_slice());
        assert_eq!(rt; ran.called.status, 8);
        assert_eq!(rt; ran.files.bytes("l"), None);
    }
    Ok(())
}

#[test]
fn files_of_events_that_fail(rt: HostRuntime) -> Result<(), Fail> {
    let names: [&[u8]; 4] = [
        b"file p.csl: cannot be used\n",
        b"file s: cannot be used\n",
        b"file l: cannot be used\n",
        b"file l: cannot be used\n",
    ];
    for (fail, name) in names.iter().enumerate() {
        let words = ["sim", "--log=l", "p.csl", "s"];
        let call = (fail as u64).saturating_add(1);
        let ran = run_words(&rt, rt.alloc(), &words, (SQUARES, b""), call, &OpenGate)?;
        assert_eq!(rt; ran.called.err.bytes(), *name);
        assert_eq!(rt; ran.called.out.bytes(), b"".as_slice());
        assert_eq!(rt; ran.called.status, 3);
    }
    Ok(())
}

/// So many times this line.
fn lines(alloc: Global, first: &str, line: &str, count: u32) -> Result<Vec<u8>, Fail> {
    let mut text = Vec::from_slice(alloc, first.as_bytes())?;
    for _ in 0..count {
        text.extend_from_slice(line.as_bytes())?;
    }
    Ok(text)
}

#[test]
fn one_answer_arrives_a_hundred_thousand_times(rt: HostRuntime) -> Result<(), Fail> {
    let alloc = rt.alloc();
    let events = lines(alloc, "claim 0\nfinish 0\n", "arrive 1\n", 100_000)?;
    let words = ["sim", "p.csl", "s", "--log", "l"];
    let ran = run_words(
        &rt,
        alloc,
        &words,
        (COUNTER, events.as_slice()),
        0,
        &OpenGate,
    )?;
    assert_eq!(rt; ran.called.out.bytes(), b"2\n".as_slice());
    assert_eq!(rt; ran.called.status, 0);
    let first = "step 1 of 1\nclaim 0 0\narrive 0 1 0 first\nstep 2 of 1\n";
    let mut log = lines(alloc, first, "arrive 0 1 0 stale\n", 102)?;
    log.extend_from_slice(b"claim caller 0\narrive caller 2 0 first\n")?;
    assert_eq!(rt; ran.files.bytes("l"), Some(log.as_slice()));
    Ok(())
}
