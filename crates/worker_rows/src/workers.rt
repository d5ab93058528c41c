//! Runs by workers: options, scripts, logs and reports by words, and what a gate sees of the threads.

use cal_base::{Gate, NoMemory, OpenGate, Point};
use itoa::Buffer;
use row_calls::run_words;
use std::alloc::Global;
use std::sync::atomic::{AtomicU64, Ordering};
use std::test::Fail;
use std::thread;

pub(crate) const SQUARES: &[u8] =
    b"shared { int a[4]; int s; } main { parbegin routine[4](int w, int id) { a[id] = id * id; } parend; \
for (int i = 0; i < 4; i += 1) { s += a[i]; } print(\"sum\", s); }";

const SWAP: &[u8] =
    b"shared { int a[2] = {1, 2}; } main { parbegin routine[2](int w, int id) { a[id] = a[1 - id]; } parend; \
print(a[0], a[1]); }";

const TALLY: &[u8] =
    b"shared { tally int t; } main { parbegin routine[8](int w, int id) { t += id; } parend; print(t); }";

pub(crate) const COUNTER: &[u8] = b"shared { int x; } main { for (int i = 0; i < 2; i += 1) \
{ parbegin routine[1](int w, int id) { x = x + 1; } parend; } print(x); }";

const FAR: &[u8] =
    b"shared { int a[262144]; } main { for (int i = 0; i < 100; i += 1) { parbegin routine[2](int w, int id) \
{ a[id * 262143] = a[id * 262143] + a[131072] + 1; } parend; } print(a[0], a[262143]); }";

const PRODUCT: &[u8] = b"shared { int a[64]; int b[64]; int c[64]; } \
int cell(int r, int q) { int v = 0; for (int k = 0; k < 8; k += 1) { v += a[r * 8 + k] * b[k * 8 + q]; } return v; } \
main { parbegin routine[64](int w, int id) { a[id] = id / 8 + id % 8; if (id / 8 == id % 8) { b[id] = 2; } } parend; \
parbegin routine[64](int w, int id) { c[id] = cell(id / 8, id % 8); } parend; \
int s = 0; for (int i = 0; i < 64; i += 1) { s += c[i]; } print(\"sum\", s, \"last\", c[63]); }";

const CONFLICT: &[u8] =
    b"shared { int s; } main { parbegin routine[2](int w, int id) { s = id; } parend; }";

/// Words, the text of `p.csl`, that of the script `s`, the status, and what out, err and the log `l` get.
type Row = (
    &'static [&'static str],
    &'static [u8],
    &'static [u8],
    u8,
    &'static [u8],
    &'static [u8],
    Option<&'static [u8]>,
);

#[test]
fn options_of_a_run(rt: HostRuntime) -> Result<(), Fail> {
    let rows: &[Row] = &[
        (
            &["run", "p.csl", "--workers", "0"],
            SQUARES,
            b"",
            0,
            b"sum 14\n",
            b"",
            None,
        ),
        (
            &["run", "p.csl", "--workers", "1"],
            SQUARES,
            b"",
            0,
            b"sum 14\n",
            b"",
            None,
        ),
        (&["run", "p.csl"], SQUARES, b"", 0, b"sum 14\n", b"", None),
        (
            &["run", "p.csl", "--workers", "32"],
            SQUARES,
            b"",
            0,
            b"sum 14\n",
            b"",
            None,
        ),
        (
            &["run", "p.csl", "--steps"],
            SQUARES,
            b"",
            0,
            b"step 1\nword 1 = 1\nword 2 = 4\nword 3 = 9\nsum 14\n",
            b"",
            None,
        ),
        (
            &["run", "p.csl", "--workers", "0", "--log", "l"],
            SQUARES,
            b"",
            0,
            b"sum 14\n",
            b"",
            Some(
                b"step 1 of 4\nclaim caller 0\narrive caller 1 0 first\nclaim caller 1\narrive caller 1 1 first\n\
claim caller 2\narrive caller 1 2 first\nclaim caller 3\narrive caller 1 3 first\n",
            ),
        ),
        (
            &["run", "p.csl", "--workers", "0", "--report"],
            SWAP,
            b"",
            0,
            b"2 1\n",
            b"caller: claims 2 executed 2 pages 1\n",
            None,
        ),
        (
            &[
                "run",
                "p.csl",
                "--workers",
                "1",
                "--report",
                "--script",
                "s",
            ],
            TALLY,
            b"[[worker]]\nnumber = 0\nrepeat = [1, 2, 3, 4, 5, 6, 7, 8]\n",
            0,
            b"28\n",
            b"worker 0: claims 8 executed 8 lost 0 repeated 8 held 0 stopped no pages 0\ncaller: claims 0 executed 0 pages 0\n",
            None,
        ),
        (
            &[
                "run",
                "p.csl",
                "--workers",
                "1",
                "--script",
                "s",
                "--log",
                "l",
            ],
            COUNTER,
            b"[[worker]]\nnumber = 0\nhold = [1]\n",
            0,
            b"2\n",
            b"",
            Some(
                b"step 1 of 1\nclaim 0 0\nclaim 0 0\narrive 0 1 0 first\nstep 2 of 1\narrive 0 1 0 stale\nclaim 0 0\narrive 0 2 0 first\n",
            ),
        ),
        (
            &["run", "p.csl", "--frames", "2"],
            FAR,
            b"",
            0,
            b"100 100\n",
            b"",
            None,
        ),
        (
            &["run", "p.csl", "--fuel", "66"],
            PRODUCT,
            b"",
            0,
            b"sum 896 last 28\n",
            b"",
            None,
        ),
        (
            &["run", "p.csl", "--fuel", "65"],
            PRODUCT,
            b"",
            5,
            b"",
            b"fault: after step 2: fuel spent\n",
            None,
        ),
        (
            &["run", "p.csl", "--workers", "0", "--log", "l", "--report"],
            CONFLICT,
            b"",
            5,
            b"",
            b"fault: step 1, routine 1: word 0 also written by routine 0\ncaller: claims 2 executed 2 pages 0\n",
            Some(
                b"step 1 of 2\nclaim caller 0\narrive caller 1 0 first\nclaim caller 1\narrive caller 1 1 first\n",
            ),
        ),
    ];
    for (words, text, script, status, out, err, log) in rows {
        let ran = run_words(&rt, rt.alloc(), words, (text, script), 0, &OpenGate)?;
        assert_eq!(rt; ran.called.err.bytes(), *err);
        assert_eq!(rt; ran.called.out.bytes(), *out);
        assert_eq!(rt; ran.called.status, *status);
        assert_eq!(rt; ran.files.bytes("l"), *log);
    }
    Ok(())
}

#[test]
fn workers_that_stop(rt: HostRuntime) -> Result<(), Fail> {
    let script = b"[[worker]]\nnumber = 0\nstop_at = 1\n[[worker]]\nnumber = 1\nstop_at = 1\n\
[[worker]]\nnumber = 2\nstop_at = 1\n[[worker]]\nnumber = 3\nstop_at = 1\n";
    let words = [
        "run",
        "p.csl",
        "--workers",
        "4",
        "--script",
        "s",
        "--log",
        "l",
    ];
    let ran = run_words(&rt, rt.alloc(), &words, (SQUARES, script), 0, &OpenGate)?;
    assert_eq!(rt; ran.called.out.bytes(), b"sum 14\n".as_slice());
    let log = ran.files.bytes("l").unwrap_or(b"");
    let by_caller =
        b"claim caller 0\narrive caller 1 0 first\nclaim caller 1\narrive caller 1 1 first\n\
claim caller 2\narrive caller 1 2 first\nclaim caller 3\narrive caller 1 3 first\n"
            .as_slice();
    assert!(rt; log.starts_with(b"step 1 of 4\nclaim "));
    assert!(rt; log.ends_with(by_caller));
    assert_eq!(rt; log.len(), by_caller.len().saturating_add(12 + 4 * 10));
    Ok(())
}

#[test]
fn scripts_and_logs_that_fail(rt: HostRuntime) -> Result<(), Fail> {
    let scripts: [&[u8]; 12] = [
        b"[[worker]]\nnumber = 0\n[[worker]]\nnumber = 0\n",
        b"[[worker]]\nnumber = 0\nlose = [2, 2]\n",
        b"[[worker]]\nnumber = 0\nlosing = [2]\n",
        b"\xFF",
        b"[[worker]]\n",
        b"[[worker]]\nnumber = 32\n",
        b"[[worker]]\nnumber = -1\n",
        b"[[worker]]\nnumber = 0\nstop_at = 0\n",
        b"[[worker]]\nnumber = 0\nstop_at = 4294967296\n",
        b"[[worker]]\nnumber = 0\nlose = [1]\nhold = [1]\n",
        b"[[worker]]\nnumber = 0\nlose = [true]\n",
        b"workers = 3\n",
    ];
    for script in scripts {
        let ran = run_words(
            &rt,
            rt.alloc(),
            &["run", "p.csl", "--script", "s", "--log", "l"],
            (SQUARES, script),
            0,
            &OpenGate,
        )?;
        assert_eq!(rt; ran.called.err.bytes(), b"script refused\n".as_slice());
        assert_eq!(rt; ran.called.status, 8);
        assert_eq!(rt; ran.files.bytes("l"), None);
    }
    let kept: [&[u8]; 4] = [
        b"",
        b"worker = []\n",
        b"[[worker]]\nnumber = 0x1F\nlose = []\n",
        b"[[worker]]\nnumber = 3\nstop_at = 1_0\nrepeat = [+5]\n",
    ];
    for script in kept {
        let ran = run_words(
            &rt,
            rt.alloc(),
            &["run", "p.csl", "--script", "s"],
            (SQUARES, script),
            0,
            &OpenGate,
        )?;
        assert_eq!(rt; ran.called.out.bytes(), b"sum 14\n".as_slice());
        assert_eq!(rt; ran.called.status, 0);
    }
    // calls of the files: the program, the script, the creation of the log, and the first piece of it
    let names: [&[u8]; 4] = [
        b"file p.csl: cannot be used\n",
        b"file s: cannot be used\n",
        b"file l: cannot be used\n",
        b"file l: cannot be used\n",
    ];
    for (fail, name) in names.iter().enumerate() {
        let words = ["run", "p.csl", "--script", "s", "--log", "l"];
        let ran = run_words(
            &rt,
            rt.alloc(),
            &words,
            (SQUARES, b""),
            (fail as u64).saturating_add(1),
            &OpenGate,
        )?;
        assert_eq!(rt; ran.called.err.bytes(), *name);
        assert_eq!(rt; ran.called.out.bytes(), b"".as_slice());
        assert_eq!(rt; ran.called.status, 3);
    }
    Ok(())
}

/// Counts the points that each of four workers passes.
#[derive(Drop)]
struct Counting {
    before: [AtomicU64; 4],
    after: [AtomicU64; 4],
    arrived: [AtomicU64; 4],
}

/// One more for this worker.
fn raise(counts: &[AtomicU64; 4], who: u8) {
    if let Some(count) = counts.get(who as usize) {
        count.fetch_add(1, Ordering::SeqCst);
    }
}

impl Gate for Counting {
    fn at(&self, point: Point) {
        match point {
            Point::BeforeExecute(who) => raise(&self.before, who),
            Point::AfterExecute(who) => raise(&self.after, who),
            Point::AfterArrive(who) => raise(&self.arrived, who),
        }
    }
}

fn four() -> [AtomicU64; 4] {
    [
        AtomicU64::new(0),
        AtomicU64::new(0),
        AtomicU64::new(0),
        AtomicU64::new(0),
    ]
}

/// Adds some words and a number.
fn add(line: &mut Vec<u8>, words: &[u8], number: u64) -> Result<(), NoMemory> {
    let mut buffer = Buffer::new();
    line.extend_from_slice(words)?;
    line.extend_from_slice(buffer.format(number).as_bytes())?;
    Ok(())
}

/// Whether the part stands in the text.
fn has(text: &[u8], part: &[u8]) -> bool {
    text.windows(part.len().max(1)).any(|piece| piece == part)
}

/// The script by which each of 32 workers stops at its second claim.
pub(crate) fn all_stop(alloc: Global) -> Result<Vec<u8>, NoMemory> {
    let mut script = Vec::new(alloc);
    for number in 0..32u64 {
        add(&mut script, b"[[worker]]\nnumber = ", number)?;
        script.extend_from_slice(b"\nstop_at = 2\n")?;
    }
    Ok(script)
}

#[test]
fn all_workers_stop(rt: HostRuntime) -> Result<(), Fail> {
    let alloc = rt.alloc();
    let script = all_stop(alloc)?;
    let words = [
        "run",
        "p.csl",
        "--workers",
        "32",
        "--script",
        "s",
        "--report",
    ];
    let ran = run_words(
        &rt,
        alloc,
        &words,
        (PRODUCT, script.as_slice()),
        0,
        &OpenGate,
    )?;
    assert_eq!(rt; ran.called.out.bytes(), b"sum 896 last 28\n".as_slice());
    assert_eq!(rt; ran.called.status, 0);
    for number in 0..32u64 {
        let mut line = Vec::new(alloc);
        add(&mut line, b"worker ", number)?;
        line.extend_from_slice(
            b": claims 2 executed 1 lost 0 repeated 0 held 0 stopped yes pages 0\n",
        )?;
        assert!(rt; has(ran.called.err.bytes(), line.as_slice()));
    }
    Ok(())
}

#[test]
fn the_longest_lists_of_a_script(rt: HostRuntime) -> Result<(), Fail> {
    let alloc = rt.alloc();
    for (count, status) in [(1024u64, 0u8), (1025, 8)] {
        let mut script = Vec::from_slice(alloc, b"[[worker]]\nnumber = 0\nlose = [1")?;
        for number in 2..count + 1 {
            add(&mut script, b", ", number)?;
        }
        script.extend_from_slice(b"]\n")?;
        let words = ["run", "p.csl", "--script", "s"];
        let ran = run_words(
            &rt,
            alloc,
            &words,
            (SQUARES, script.as_slice()),
            0,
            &OpenGate,
        )?;
        assert_eq!(rt; ran.called.status, status);
    }
    Ok(())
}

#[test]
fn gate_counts(rt: HostRuntime) -> Result<(), Fail> {
    let alloc = rt.alloc();
    let gate = Counting {
        before: four(),
        after: four(),
        arrived: four(),
    };
    let script =
        b"[[worker]]\nnumber = 0\nrepeat = [1]\n[[worker]]\nnumber = 1\nlose = [1]\n[[worker]]\nnumber = 2\nhold = [1]\n";
    let words = [
        "run",
        "p.csl",
        "--workers",
        "4",
        "--script",
        "s",
        "--log",
        "l",
        "--report",
    ];
    let ran = run_words(&rt, alloc, &words, (PRODUCT, script), 0, &gate)?;
    assert_eq!(rt; ran.called.out.bytes(), b"sum 896 last 28\n".as_slice());
    assert_eq!(rt; ran.called.status, 0);
    let mut executed = 0u64;
    for who in 0..4usize {
        let before = gate.before[who].load(Ordering::SeqCst);
        let some = before.min(1);
        let one_for = |number: usize| if who == number { some } else { 0 };
        let mut line = Vec::new(alloc);
        add(&mut line, b"worker ", who as u64)?;
        add(&mut line, b": claims ", before)?;
        add(&mut line, b" executed ", before)?;
        add(&mut line, b" lost ", one_for(1))?;
        add(&mut line, b" repeated ", one_for(0))?;
        add(&mut line, b" held ", one_for(2))?;
        line.extend_from_slice(b" stopped no pages ")?;
        assert!(rt; has(ran.called.err.bytes(), line.as_slice()));
        assert_eq!(rt; gate.after[who].load(Ordering::SeqCst), before);
        let kept = before.saturating_sub(one_for(1)).saturating_sub(one_for(2));
        assert_eq!(rt; gate.arrived[who].load(Ordering::SeqCst), kept);
        executed = executed.saturating_add(before);
    }
    assert!(rt; executed >= 128);
    Ok(())
}

/// Holds the first worker before it executes until another one's delivery has arrived, for so many turns at most.
#[derive(Drop)]
struct Meeting {
    first: AtomicU64,
    met: AtomicU64,
    missed: AtomicU64,
}

impl Meeting {
    fn wait(&self) {
        for _ in 0..10_000_000u64 {
            if self.met.load(Ordering::SeqCst) == 1 {
                return;
            }
            thread::yield_now();
        }
        self.missed.store(1, Ordering::SeqCst);
    }
}

impl Gate for Meeting {
    fn at(&self, point: Point) {
        match point {
            Point::BeforeExecute(who) => {
                let me = u64::from(who).saturating_add(1);
                let was = self
                    .first
                    .compare_exchange(0, me, Ordering::SeqCst, Ordering::SeqCst);
                if was.is_ok() {
                    self.wait();
                }
            }
            Point::AfterExecute(_) => {}
            Point::AfterArrive(who) => {
                if self.first.load(Ordering::SeqCst) != u64::from(who).saturating_add(1) {
                    self.met.store(1, Ordering::SeqCst);
                }
            }
        }
    }
}

#[test]
fn two_workers_meet(rt: HostRuntime) -> Result<(), Fail> {
    let gate = Meeting {
        first: AtomicU64::new(0),
        met: AtomicU64::new(0),
        missed: AtomicU64::new(0),
    };
    let words = ["run", "p.csl", "--workers", "2"];
    let ran = run_words(&rt, rt.alloc(), &words, (SQUARES, b""), 0, &gate)?;
    assert_eq!(rt; ran.called.out.bytes(), b"sum 14\n".as_slice());
    assert_eq!(rt; gate.met.load(Ordering::SeqCst), 1);
    assert_eq!(rt; gate.missed.load(Ordering::SeqCst), 0);
    Ok(())
}

#[test]
fn conflicts_end_alike(rt: HostRuntime) -> Result<(), Fail> {
    let text =
        b"shared { int a[8]; } main { parbegin routine[64](int w, int id) { if (id > 5) { a[id % 8] = id; } a[7 - id % 3] = 1; } parend; }";
    for _ in 0..200u32 {
        let ran = run_words(
            &rt,
            rt.alloc(),
            &["run", "p.csl"],
            (text, b""),
            0,
            &OpenGate,
        )?;
        assert_eq!(rt;
            ran.called.err.bytes(),
            b"fault: step 1, routine 3: word 7 also written by routine 0\n".as_slice()
        );
        assert_eq!(rt; ran.called.status, 5);
    }
    Ok(())
}
