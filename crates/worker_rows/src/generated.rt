//! Generated programs: what they print is counted by hand from the lines of the format.

use crate::workers::all_stop;
use cal_base::OpenGate;
use row_calls::run_words;
use std::alloc::Global;
use std::process::Abort;
use std::sync::Wait;
use std::test::Fail;
use std::thread::Threads;

/// The words, where `p.csl` and the script `s` hold these texts, end well and print this.
fn expect_out<R: Threads + Wait + Sync + Abort>(
    rt: &R,
    alloc: Global,
    words: &[&str],
    texts: (&[u8], &[u8]),
    out: &[u8],
) -> Result<(), Fail> {
    let ran = run_words(rt, alloc, words, texts, 0, &OpenGate)?;
    assert_eq!(rt; ran.called.out.bytes(), out);
    assert_eq!(rt; ran.called.err.bytes(), b"".as_slice());
    assert_eq!(rt; ran.called.status, 0);
    Ok(())
}

#[test]
fn generated_programs(rt: HostRuntime) -> Result<(), Fail> {
    let alloc = rt.alloc();
    let runs: [([&str; 3], &[u8]); 5] = [
        (
            ["selfrun", "7", "1"],
            b"sum 119312 total 119312 first 281\n",
        ),
        (
            ["selfrun", "7", "64"],
            b"sum 190992 total 9901056 first 406\n",
        ),
        (
            ["selfrun", "7", "4096"],
            b"sum 4834832 total 10146089472 first 18435\n",
        ),
        (
            ["selfrun", "7", "4096"],
            b"sum 4834832 total 10146089472 first 18435\n",
        ),
        (
            ["selfrun", "4294967295", "4096"],
            b"sum 4848954 total 10199739904 first 18818\n",
        ),
    ];
    for (words, out) in runs {
        expect_out(&rt, alloc, &words, (b"", b""), out)?;
    }
    Ok(())
}

#[test]
fn a_generated_program_whose_workers_all_stop(rt: HostRuntime) -> Result<(), Fail> {
    let alloc = rt.alloc();
    let generated = run_words(&rt, alloc, &["gen", "7", "64"], (b"", b""), 0, &OpenGate)?;
    assert_eq!(rt; generated.called.status, 0);
    let text = generated.called.out.bytes();
    assert!(rt; text.starts_with(b"shared {\nint a[256] = {7, 14, 21, "));
    let script = all_stop(alloc)?;
    let all: &[&str] = &["run", "p.csl", "--workers", "32", "--script", "s"];
    let out = b"sum 190992 total 9901056 first 406\n";
    for words in [&["run", "p.csl"], all] {
        expect_out(&rt, alloc, words, (text, script.as_slice()), out)?;
    }
    Ok(())
}
