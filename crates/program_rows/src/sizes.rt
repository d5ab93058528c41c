//! Programs at the limits: long texts, deep nesting, many routines.

use cal_base::NoMemory;
use itoa::Buffer;
use row_calls::call;
use std::alloc::Global;
use std::process::Abort;
use std::sync::Wait;
use std::test::Fail;
use std::thread::Threads;

/// Appends a text so many times.
fn repeat(text: &mut Vec<u8>, piece: &[u8], count: usize) -> Result<(), NoMemory> {
    for _ in 0..count {
        text.extend_from_slice(piece)?;
    }
    Ok(())
}

/// A function that calls itself `calls` deep, where the calling statement stands `blocks` blocks and `parens` parentheses deep.
fn nested(alloc: Global, calls: &[u8], blocks: usize, parens: usize) -> Result<Vec<u8>, NoMemory> {
    let mut text = Vec::from_slice(alloc, b"shared { } int f(int n) { ")?;
    repeat(&mut text, b"if (n > 0) { ", blocks)?;
    text.extend_from_slice(b"return ")?;
    repeat(&mut text, b"(", parens)?;
    text.extend_from_slice(b"f(n - 1)")?;
    repeat(&mut text, b")", parens)?;
    text.extend_from_slice(b"; ")?;
    repeat(&mut text, b"} ", blocks)?;
    text.extend_from_slice(b"return 9; } main { print(f(")?;
    text.extend_from_slice(calls)?;
    text.extend_from_slice(b")); }")?;
    Ok(text)
}

#[test]
fn the_deepest_calls(rt: HostRuntime) -> Result<(), Fail> {
    for (blocks, parens) in [(30, 31), (60, 1), (1, 60)] {
        let text = nested(rt.alloc(), b"63", blocks, parens)?;
        let called = call(
            &rt,
            rt.alloc(),
            &["run", "p.csl"],
            &text,
            Vec::new(rt.alloc()),
        )?;
        assert_eq!(rt; called.err.bytes(), b"".as_slice());
        assert_eq!(rt; called.out.bytes(), b"9\n".as_slice());
        let text = nested(rt.alloc(), b"64", blocks, parens)?;
        let called = call(
            &rt,
            rt.alloc(),
            &["run", "p.csl"],
            &text,
            Vec::new(rt.alloc()),
        )?;
        assert_eq!(rt;
            called.err.bytes(),
            b"fault: after step 0: too deep\n".as_slice()
        );
        assert_eq!(rt; called.status, 5);
    }
    Ok(())
}

#[test]
fn many_routines(rt: HostRuntime) -> Result<(), Fail> {
    let called = call(
        &rt,
        rt.alloc(),
        &["run", "p.csl"],
        b"shared { tally int t; } main { parbegin routine[65536](int w, int id) { t += 1; } parend; print(t); }",
        Vec::new(rt.alloc()),
    )?;
    assert_eq!(rt; called.err.bytes(), b"".as_slice());
    assert_eq!(rt; called.out.bytes(), b"65536\n".as_slice());
    Ok(())
}

#[test]
fn many_words(rt: HostRuntime) -> Result<(), Fail> {
    let called = call(
        &rt,
        rt.alloc(),
        &["run", "p.csl"],
        b"shared { int a[262144]; } main { for (int i = 0; i < 100; i += 1) { parbegin routine[2](int w, int id) { a[id * 262143] = a[id * 262143] + a[131072] + 1; } parend; } print(a[0], a[262143]); }",
        Vec::new(rt.alloc()),
    )?;
    assert_eq!(rt; called.err.bytes(), b"".as_slice());
    assert_eq!(rt; called.out.bytes(), b"100 100\n".as_slice());
    Ok(())
}

/// A front of a text, and a piece so many times behind it.
fn long_text(alloc: Global, front: &[u8], piece: &[u8], count: usize) -> Result<Vec<u8>, NoMemory> {
    let mut text = Vec::from_slice(alloc, front)?;
    repeat(&mut text, piece, count)?;
    Ok(text)
}

#[test]
fn the_longest_text(rt: HostRuntime) -> Result<(), Fail> {
    let front = b"shared { } main { print(1); }";
    let text = long_text(rt.alloc(), front, b" ", 1_048_547)?;
    let called = call(
        &rt,
        rt.alloc(),
        &["run", "p.csl"],
        &text,
        Vec::new(rt.alloc()),
    )?;
    assert_eq!(rt; called.out.bytes(), b"1\n".as_slice());
    let text = long_text(rt.alloc(), front, b" ", 1_048_548)?;
    let called = call(
        &rt,
        rt.alloc(),
        &["run", "p.csl"],
        &text,
        Vec::new(rt.alloc()),
    )?;
    assert_eq!(rt; called.status, 9);
    assert_eq!(rt; called.out.bytes(), b"".as_slice());
    assert_eq!(rt; called.err.bytes(), b"file p.csl: too long\n".as_slice());
    Ok(())
}

#[test]
fn long_texts_are_read_without_a_deep_stack(rt: HostRuntime) -> Result<(), Fail> {
    let rows: [(&[u8], &[u8], usize, &[u8]); 3] = [
        (
            b"shared { int x; } main { ",
            b"x=1; ",
            209_710,
            b"refused: at 1048575: unexpected\n",
        ),
        (
            b"shared { } main { if (true) { } ",
            b"else if (true) { } ",
            55_186,
            b"refused: at 1048566: unexpected\n",
        ),
        (
            b"shared { } main { print(",
            b"-",
            1_048_552,
            b"refused: at 86: too deep\n",
        ),
    ];
    for (front, piece, count, err) in rows {
        let text = long_text(rt.alloc(), front, piece, count)?;
        let called = call(
            &rt,
            rt.alloc(),
            &["run", "p.csl"],
            &text,
            Vec::new(rt.alloc()),
        )?;
        assert_eq!(rt; called.err.bytes(), err);
        assert_eq!(rt; called.status, 4);
    }
    Ok(())
}

/// What 64 items `-1` print.
const MINUS_ONES: &[u8] =
    b"-1 -1 -1 -1 -1 -1 -1 -1 -1 -1 -1 -1 -1 -1 -1 -1 -1 -1 -1 -1 -1 -1 -1 -1 -1 -1 -1 -1 -1 -1 -1 -1 -1 -1 -1 -1 -1 -1 -1 -1 -1 -1 -1 -1 -1 -1 -1 -1 -1 -1 -1 -1 -1 -1 -1 -1 -1 -1 -1 -1 -1 -1 -1 -1\n";

#[test]
fn levels_come_back(rt: HostRuntime) -> Result<(), Fail> {
    let rows: [(&[u8], &[u8], usize, &[u8], &[u8]); 3] = [
        (
            b"shared { int x; } main { ",
            b"x = -1; ",
            70,
            b"print(x); }",
            b"-1\n",
        ),
        (
            b"shared { } main { print(-1",
            b", -1",
            63,
            b"); }",
            MINUS_ONES,
        ),
        (
            b"shared { int x; } main { x += ",
            b"-",
            63,
            b"1; print(x); }",
            b"-1\n",
        ),
    ];
    for (front, piece, count, back, out) in rows {
        let mut text = long_text(rt.alloc(), front, piece, count)?;
        text.extend_from_slice(back)?;
        let called = call(
            &rt,
            rt.alloc(),
            &["run", "p.csl"],
            &text,
            Vec::new(rt.alloc()),
        )?;
        assert_eq!(rt; called.err.bytes(), b"".as_slice());
        assert_eq!(rt; called.out.bytes(), out);
    }
    Ok(())
}

/// A front of a text, and behind it pieces with the numbers from 0 between these two parts.
fn numbered_text(
    alloc: Global,
    front: &[u8],
    before: &[u8],
    after: &[u8],
    count: u32,
) -> Result<Vec<u8>, NoMemory> {
    let mut text = Vec::from_slice(alloc, front)?;
    for number in 0..count {
        let mut digits = Buffer::new();
        text.extend_from_slice(before)?;
        text.extend_from_slice(digits.format(number).as_bytes())?;
        text.extend_from_slice(after)?;
    }
    Ok(text)
}

/// The text, with this behind it, is refused so.
fn is_refused<R: Threads + Wait + Sync + Abort>(
    rt: &R,
    alloc: Global,
    text: Vec<u8>,
    back: &[u8],
    err: &[u8],
) -> Result<(), Fail> {
    let mut text = text;
    text.extend_from_slice(back)?;
    let called = call(rt, alloc, &["run", "p.csl"], &text, Vec::new(alloc))?;
    assert_eq!(rt; called.err.bytes(), err);
    assert_eq!(rt; called.status, 4);
    Ok(())
}

#[test]
fn one_too_many(rt: HostRuntime) -> Result<(), Fail> {
    let alloc = rt.alloc();
    let main = b"shared { } main { ";
    let locals = numbered_text(alloc, main, b"int v", b" = 0; ", 64)?;
    let err = b"refused: at 844: limit\n";
    is_refused(&rt, alloc, locals, b"int last = 0; }", err)?;
    let blocks = long_text(alloc, main, b"{ int v = 0; } ", 64)?;
    let back = b"for (int last = 0; true; last += 1) { } }";
    is_refused(&rt, alloc, blocks, back, b"refused: at 987: limit\n")?;
    let front = b"shared { } main { parbegin ";
    let routines = long_text(alloc, front, b"routine[1](int w, int id) { } ", 65)?;
    let err = b"refused: at 1947: limit\n";
    is_refused(&rt, alloc, routines, b"parend; }", err)?;
    let functions = numbered_text(alloc, b"shared { } ", b"void f", b"() { } ", 256)?;
    let err = b"refused: at 4002: limit\n";
    is_refused(&rt, alloc, functions, b"void g() { } main { }", err)
}
