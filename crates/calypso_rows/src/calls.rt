//! Calls that end before or beside their work: words that give no command, files and streams that fail.

use cal_base::{MemFiles, MemSink, OpenGate};
use calypso_cli::calypso;
use row_calls::{call, strings};
use std::test::Fail;

#[test]
fn words_that_give_no_command(rt: HostRuntime) -> Result<(), Fail> {
    let lists: [&[&str]; 15] = [
        &[],
        &["run"],
        &["p.csl"],
        &["run", ""],
        &["run", "-"],
        &["run", "--", "p.csl"],
        &["run", "-p.csl"],
        &["run", "p.csl", "p.csl"],
        &["Run", "p.csl"],
        &["eval"],
        &["run", "p.csl", "--workers", "33"],
        &["run", "p.csl", "--fuel=0"],
        &["run", "p.csl", "--workers", "2", "--workers", "2"],
        &["eval", "--help"],
        &["gen", "7", "0"],
    ];
    for list in lists {
        let called = call(
            &rt,
            rt.alloc(),
            list,
            b"shared { } main { }",
            Vec::new(rt.alloc()),
        )?;
        assert_eq!(rt; called.status, 2);
        assert_eq!(rt; called.out.bytes(), b"".as_slice());
        assert_eq!(rt; called.err.bytes(), b"no command\n".as_slice());
    }
    Ok(())
}

#[test]
fn files_that_cannot_be_used(rt: HostRuntime) -> Result<(), Fail> {
    let called = call(
        &rt,
        rt.alloc(),
        &["run", "q.csl"],
        b"",
        Vec::new(rt.alloc()),
    )?;
    assert_eq!(rt; called.status, 3);
    assert_eq!(rt; called.out.bytes(), b"".as_slice());
    assert_eq!(rt;
        called.err.bytes(),
        b"file q.csl: cannot be used\n".as_slice()
    );
    Ok(())
}

#[test]
fn an_output_that_fails(rt: HostRuntime) -> Result<(), Fail> {
    let fail = vec![in rt.alloc(); 2]?;
    let called = call(
        &rt,
        rt.alloc(),
        &["run", "p.csl"],
        b"shared { } main { print(1); print(2); }",
        fail,
    )?;
    assert_eq!(rt; called.status, 7);
    assert_eq!(rt; called.out.bytes(), b"1".as_slice());
    assert_eq!(rt; called.err.bytes(), b"output failed\n".as_slice());
    Ok(())
}

#[test]
fn an_error_stream_that_fails(rt: HostRuntime) -> Result<(), Fail> {
    let alloc = rt.alloc();
    let words = strings(alloc, &["run"])?;
    let mut files = MemFiles::make(alloc, Vec::new(alloc), Vec::new(alloc), 0, Vec::new(alloc))?;
    let mut out = MemSink::make(alloc, 1, 64, Vec::new(alloc))?;
    let mut err = MemSink::make(alloc, 4, 64, vec![in alloc; 2]?)?;
    let status = calypso(
        &rt, alloc, &words, &mut files, &mut out, &mut err, &OpenGate,
    );
    assert_eq!(rt; status, 2);
    assert_eq!(rt; err.bytes(), b"no c".as_slice());
    Ok(())
}
