//! Texts that are refused, each with its place and its words.

use cal_base::NoMemory;
use csl_lexer::lex;
use csl_reader::{ReadError, Refusal, read_program};
use row_calls::call;
use std::alloc::Global;
use std::process::Abort;
use std::sync::Wait;
use std::test::Fail;
use std::thread::Threads;

/// A text, and what the error stream gets.
type Row = (&'static [u8], &'static [u8]);

fn all_are_refused<R: Threads + Wait + Sync + Abort>(
    rt: &R,
    alloc: Global,
    rows: &[Row],
) -> Result<(), Fail> {
    for (text, err) in rows {
        let called = call(rt, alloc, &["run", "p.csl"], text, Vec::new(alloc))?;
        assert_eq!(rt; called.err.bytes(), *err);
        assert_eq!(rt; called.status, 4);
        assert_eq!(rt; called.out.bytes(), b"".as_slice());
    }
    Ok(())
}

#[test]
fn tokens_and_levels(rt: HostRuntime) -> Result<(), Fail> {
    let rows: &[Row] = &[
        (b"shared { } main { @ }", b"refused: at 18: bad byte\n"),
        (
            b"shared { } main { x = 1 & 2; }",
            b"refused: at 24: bad byte\n",
        ),
        (
            b"shared { } main { x = 1 | 2; }",
            b"refused: at 24: bad byte\n",
        ),
        (
            b"shared { int nnnnnnnnnnnnnnnnnnnnnnnnnnnnnnnnnnnnnnnnnnnnnnnnnnnnnnnnnnnnnnnnn; } main { }",
            b"refused: at 13: name too long\n",
        ),
        (
            b"shared { } main { print(9223372036854775808); }",
            b"refused: at 24: number too large\n",
        ),
        (
            b"shared { } main { } /* x",
            b"refused: at 20: open comment\n",
        ),
        (
            b"shared { } main { } /*/",
            b"refused: at 20: open comment\n",
        ),
        (
            b"shared { } main { print(\"a",
            b"refused: at 24: open text\n",
        ),
        (
            b"shared { } main { print(\"a\n\"); }",
            b"refused: at 24: open text\n",
        ),
        (b"shared { } main { if } #", b"refused: at 23: bad byte\n"),
        (
            b"shared { } main { print(((((((((((((((((((((((((((((((((((((((((((((((((((((((((((((((((((((((",
            b"refused: at 86: too deep\n",
        ),
        (
            b"shared { } main { print(---------------------------------------------------------------1); }",
            b"refused: at 86: too deep\n",
        ),
        (
            b"shared { } main { print(1+1+1+1+1+1+1+1+1+1+1+1+1+1+1+1+1+1+1+1+1+1+1+1+1+1+1+1+1+1+1+1+1+1+1+1+1+1+1+1+1+1+1+1+1+1+1+1+1+1+1+1+1+1+1+1+1+1+1+1+1+1+1+1); }",
            b"refused: at 149: too deep\n",
        ),
        (
            b"shared { } main { x = 1[1[1[1[1[1[1[1[1[1[1[1[1[1[1[1[1[1[1[1[1[1[1[1[1[1[1[1[1[1[1[1[1[1[1[1[1[1[1[1[1[1[1[1[1[1[1[1[1[1[1[1[1[1[1[1[1[1[1[1[1[1[1[1[1 }",
            b"refused: at 149: too deep\n",
        ),
        (
            b"shared { } main { {{{{{{{{{{{{{{{{{{{{{{{{{{{{{{{{{{{{{{{{{{{{{{{{{{{{{{{{{{{{{{{{ }",
            b"refused: at 81: too deep\n",
        ),
        (
            b"shared { } main { parbegin parbegin parbegin parbegin parbegin parbegin parbegin parbegin parbegin parbegin parbegin parbegin parbegin parbegin parbegin parbegin parbegin parbegin parbegin parbegin parbegin parbegin parbegin parbegin parbegin parbegin parbegin parbegin parbegin parbegin parbegin parbegin parbegin parbegin parbegin parbegin parbegin parbegin parbegin parbegin parbegin parbegin parbegin parbegin parbegin parbegin parbegin parbegin parbegin parbegin parbegin parbegin parbegin parbegin parbegin parbegin parbegin parbegin parbegin parbegin parbegin parbegin parbegin parbegin",
            b"refused: at 585: too deep\n",
        ),
        (
            b"shared { } main { if ( (((((((((((((((((((((((((((((((((((((((((((((((((((((((((((((((",
            b"refused: at 85: too deep\n",
        ),
    ];
    all_are_refused(&rt, rt.alloc(), rows)
}

#[test]
fn the_grammar(rt: HostRuntime) -> Result<(), Fail> {
    let rows: &[Row] = &[
        (b"", b"refused: at 0: unexpected\n"),
        (b"main { }", b"refused: at 0: unexpected\n"),
        (
            b"shared { } main { parbegin",
            b"refused: at 26: unexpected\n",
        ),
        (
            b"shared { } main { x = ; }",
            b"refused: at 22: unexpected\n",
        ),
        (
            b"shared { } main { print(1 < 2 ; }",
            b"refused: at 30: unexpected\n",
        ),
        (
            b"shared { } main { parbegin parend; }",
            b"refused: at 27: unexpected\n",
        ),
        (
            b"shared { } main { for (int i = 0; i < 1; int j = 1) { } }",
            b"refused: at 41: unexpected\n",
        ),
        (
            b"shared { } main { else { } }",
            b"refused: at 18: unexpected\n",
        ),
        (
            b"shared { } main { print = 1; }",
            b"refused: at 24: unexpected\n",
        ),
        (
            b"shared { } main { least = 1; }",
            b"refused: at 18: unexpected\n",
        ),
        (
            b"shared { } main { int x; }",
            b"refused: at 23: unexpected\n",
        ),
        (
            b"shared { } main { { } ; }",
            b"refused: at 22: unexpected\n",
        ),
        (
            b"shared { bool b; } main { }",
            b"refused: at 9: unexpected\n",
        ),
        (
            b"shared { tally int t[2]; } main { }",
            b"refused: at 20: unexpected\n",
        ),
        (
            b"shared { int a[-1]; } main { }",
            b"refused: at 15: unexpected\n",
        ),
        (
            b"shared { } int f(int a,) { } main { }",
            b"refused: at 23: unexpected\n",
        ),
        (b"shared { } main { } int", b"refused: at 20: unexpected\n"),
    ];
    all_are_refused(&rt, rt.alloc(), rows)
}

#[test]
fn names_and_types(rt: HostRuntime) -> Result<(), Fail> {
    let rows: &[Row] = &[
        (
            b"shared { int x; int x; } main { y = 1; }",
            b"refused: at 20: name taken\n",
        ),
        (
            b"shared { } main { y = 1; }",
            b"refused: at 18: unknown name\n",
        ),
        (
            b"shared { } main { print(y); int y = 1; }",
            b"refused: at 24: unknown name\n",
        ),
        (
            b"shared { } main { { int y = 1; } print(y); }",
            b"refused: at 39: unknown name\n",
        ),
        (
            b"shared { } main { int y = 1; { int y = 2; } }",
            b"refused: at 35: name taken\n",
        ),
        (
            b"shared { } main { for (int i = 0; i < 1; i += 1) { } print(i); }",
            b"refused: at 59: unknown name\n",
        ),
        (
            b"shared { } int f() { return g(); } int g() { return 1; } main { }",
            b"refused: at 28: unknown name\n",
        ),
        (
            b"shared { int f; } int f() { return 1; } main { }",
            b"refused: at 22: name taken\n",
        ),
        (
            b"shared { int f; } int g(int f) { return 1; } main { }",
            b"refused: at 28: name taken\n",
        ),
        (
            b"shared { } int f(int a, int a) { return 1; } main { }",
            b"refused: at 28: name taken\n",
        ),
        (
            b"shared { } main { int v = 1; parbegin routine[v](int w, int id) { int x = v; } parend; }",
            b"refused: at 74: unknown name\n",
        ),
        (
            b"shared { } main { parbegin routine[w](int w, int id) { } parend; }",
            b"refused: at 35: unknown name\n",
        ),
        (
            b"shared { } main { parbegin routine[1](int w, int w) { } parend; }",
            b"refused: at 49: name taken\n",
        ),
        (
            b"shared { int a[2]; } main { print(a); }",
            b"refused: at 34: wrong use of a name\n",
        ),
        (
            b"shared { int x; } main { print(x[0]); }",
            b"refused: at 31: wrong use of a name\n",
        ),
        (
            b"shared { tally int t; } main { print(t[0]); }",
            b"refused: at 37: wrong use of a name\n",
        ),
        (
            b"shared { } main { int v = 1; print(v[0]); }",
            b"refused: at 35: wrong use of a name\n",
        ),
        (
            b"shared { } int f() { return 1; } main { f = 1; }",
            b"refused: at 40: wrong use of a name\n",
        ),
        (
            b"shared { int x; } main { print(x()); }",
            b"refused: at 31: wrong use of a name\n",
        ),
        (
            b"shared { } main { print(1 + true); }",
            b"refused: at 28: wrong type\n",
        ),
        (
            b"shared { } main { print(true * 1); }",
            b"refused: at 24: wrong type\n",
        ),
        (
            b"shared { } main { print(- true); }",
            b"refused: at 26: wrong type\n",
        ),
        (
            b"shared { } main { print(true < 1); }",
            b"refused: at 24: wrong type\n",
        ),
        (
            b"shared { } main { print(! 1); }",
            b"refused: at 26: wrong type\n",
        ),
        (
            b"shared { } main { print(true && 1); }",
            b"refused: at 32: wrong type\n",
        ),
        (
            b"shared { } main { print(1 == true); }",
            b"refused: at 29: wrong type\n",
        ),
        (
            b"shared { } void f() { } main { print(f() == 1); }",
            b"refused: at 37: wrong type\n",
        ),
        (
            b"shared { } main { if (1) { } }",
            b"refused: at 22: wrong type\n",
        ),
        (
            b"shared { } main { while (1) { } }",
            b"refused: at 25: wrong type\n",
        ),
        (
            b"shared { } main { for (int i = 0; i; i += 1) { } }",
            b"refused: at 34: wrong type\n",
        ),
        (
            b"shared { } main { assert(1); }",
            b"refused: at 25: wrong type\n",
        ),
        (
            b"shared { int a[2]; } main { print(a[true]); }",
            b"refused: at 36: wrong type\n",
        ),
        (
            b"shared { } main { parbegin routine[true](int w, int id) { } parend; }",
            b"refused: at 35: wrong type\n",
        ),
        (
            b"shared { } main { int x = true; }",
            b"refused: at 26: wrong type\n",
        ),
        (
            b"shared { int x; } main { x = true; }",
            b"refused: at 29: wrong type\n",
        ),
        (
            b"shared { } main { bool b = true; b += true; }",
            b"refused: at 33: wrong type\n",
        ),
        (
            b"shared { } int f(bool b) { return 1; } main { print(f(1)); }",
            b"refused: at 54: wrong type\n",
        ),
        (
            b"shared { } int f() { return true; } main { }",
            b"refused: at 28: wrong type\n",
        ),
        (
            b"shared { } void f() { } main { print(f()); }",
            b"refused: at 37: wrong type\n",
        ),
    ];
    all_are_refused(&rt, rt.alloc(), rows)
}

#[test]
fn bodies_and_limits(rt: HostRuntime) -> Result<(), Fail> {
    let rows: &[Row] = &[
        (
            b"shared { } int f(int a) { return a; } main { print(f()); }",
            b"refused: at 51: wrong number of arguments\n",
        ),
        (
            b"shared { } int f(int a) { return a; } main { print(f(1, 2)); }",
            b"refused: at 51: wrong number of arguments\n",
        ),
        (
            b"shared { } int f() { } main { }",
            b"refused: at 15: no return\n",
        ),
        (
            b"shared { } int f() { if (true) { return 1; } } main { }",
            b"refused: at 15: no return\n",
        ),
        (
            b"shared { } int f() { while (true) { return 1; } } main { }",
            b"refused: at 15: no return\n",
        ),
        (
            b"shared { } main { return 1; }",
            b"refused: at 18: wrong return\n",
        ),
        (
            b"shared { } void f() { return 1; } main { }",
            b"refused: at 22: wrong return\n",
        ),
        (
            b"shared { } int f() { return; } main { }",
            b"refused: at 21: wrong return\n",
        ),
        (
            b"shared { } main { parbegin routine[1](int w, int id) { return 1; } parend; }",
            b"refused: at 55: wrong return\n",
        ),
        (
            b"shared { } main { break; }",
            b"refused: at 18: not in a loop\n",
        ),
        (
            b"shared { } main { if (true) { continue; } }",
            b"refused: at 30: not in a loop\n",
        ),
        (
            b"shared { } main { while (true) { parbegin routine[1](int w, int id) { break; } parend; } }",
            b"refused: at 70: not in a loop\n",
        ),
        (
            b"shared { } void f() { print(1); } main { }",
            b"refused: at 22: only in main\n",
        ),
        (
            b"shared { } main { parbegin routine[1](int w, int id) { print(1); } parend; }",
            b"refused: at 55: only in main\n",
        ),
        (
            b"shared { } void f() { parbegin routine[true](int w, int w) { y = 1; } parend; } main { }",
            b"refused: at 22: only in main\n",
        ),
        (
            b"shared { tally int t; } main { parbegin routine[1](int w, int id) { int x = t; } parend; }",
            b"refused: at 76: tally used\n",
        ),
        (
            b"shared { tally int t; } main { parbegin routine[1](int w, int id) { t = 1; } parend; }",
            b"refused: at 68: tally used\n",
        ),
        (
            b"shared { tally int t; } void f() { t = 1; } main { parbegin routine[1](int w, int id) { f(); } parend; }",
            b"refused: at 88: tally used\n",
        ),
        (
            b"shared { tally int t; } void f() { t = 1; } void g() { f(); } main { parbegin routine[1](int w, int id) { g(); } parend; }",
            b"refused: at 106: tally used\n",
        ),
        (b"shared { int a[0]; } main { }", b"refused: at 15: limit\n"),
        (
            b"shared { int a[262145]; } main { }",
            b"refused: at 15: limit\n",
        ),
        (
            b"shared { int a[262144]; int b; } main { }",
            b"refused: at 28: limit\n",
        ),
        (
            b"shared { int a[2] = {1, 2, 3}; } main { }",
            b"refused: at 27: limit\n",
        ),
        (
            b"shared { } void f(int a, int b, int c, int d, int e, int f1, int g, int h, int i) { } main { }",
            b"refused: at 79: limit\n",
        ),
        (
            b"shared { } main { print(1, 1, 1, 1, 1, 1, 1, 1, 1, 1, 1, 1, 1, 1, 1, 1, 1, 1, 1, 1, 1, 1, 1, 1, 1, 1, 1, 1, 1, 1, 1, 1, 1, 1, 1, 1, 1, 1, 1, 1, 1, 1, 1, 1, 1, 1, 1, 1, 1, 1, 1, 1, 1, 1, 1, 1, 1, 1, 1, 1, 1, 1, 1, 1, 1); }",
            b"refused: at 216: limit\n",
        ),
        (
            b"shared { int x[0]; int x; } main { y = 1; }",
            b"refused: at 15: limit\n",
        ),
        (
            b"shared { } int f() { g(); } main { y = 1; }",
            b"refused: at 15: no return\n",
        ),
        (
            b"shared { } main { print(1 + true, z); }",
            b"refused: at 28: wrong type\n",
        ),
        (
            b"shared { tally int t; } main { parbegin routine[1](int w, int id) { bool b = t; } parend; }",
            b"refused: at 77: wrong type\n",
        ),
    ];
    all_are_refused(&rt, rt.alloc(), rows)
}

/// A program with each form of the grammar.
pub const EVERY_FORM: &[u8] =
    b"shared { int a[2] = {1, -2}; int b[1] = {}; int c[3]; int x; tally int t; }\nint f(int a1, bool b1) { return a1; } bool g() { return true; } void h(int n) { return; }\nmain { int i = 0; bool p = !true; x = 1; a[0] = 2; x += 1; a[x - 1] += 3 * 4 / 5 % 6; h(1); h(f(1, p)); { }\nif (p) { } if (p) { } else { } if (p) { } else if (g()) { x = 2; } else if (true) { } else { }\nwhile (1 < 2 && 3 <= 4 || 5 > 6) { break; } for (int k = 0; k >= 1; k += 1) { continue; } for (i = 0; i == 1; i += 1) { }\nassert(1 != 2); print(); print(\"text\", - x, (x), false);\nparbegin routine[2](int w, int id) { t += id; } routine[x](int v, int jd) { return; } parend; return; }";

/// Where a text is refused as unexpected.
fn unexpected_at(alloc: Global, text: &[u8]) -> Option<u32> {
    if text.len() > 1_048_576 {
        return None;
    }
    match read_program(alloc, text) {
        Err(
            ReadError::Refused {
                at,
                why: Refusal::Unexpected,
            },
        ) => Some(at),
        _ => None,
    }
}

/// The front of a text, and behind a blank a word that no program has there.
fn with_wrong_token(alloc: Global, front: &[u8]) -> Result<Vec<u8>, NoMemory> {
    let mut text = Vec::from_slice(alloc, front)?;
    text.extend_from_slice(b" least")?;
    Ok(text)
}

#[test]
fn fronts_of_a_program(rt: HostRuntime) -> Result<(), Fail> {
    let alloc = rt.alloc();
    assert!(&rt; read_program(alloc, EVERY_FORM).is_ok());
    let tokens = lex(alloc, EVERY_FORM).ok().unwrap_or(Vec::new(alloc));
    assert!(&rt; tokens.len() > 250);
    for token in tokens.as_slice() {
        let front = EVERY_FORM.get(..token.at as usize).unwrap_or(b"");
        if front.len() < EVERY_FORM.len() {
            assert_eq!(&rt; unexpected_at(alloc, front), Some(token.at));
            let wrong = with_wrong_token(alloc, front)?;
            assert_eq!(&rt;
                unexpected_at(alloc, &wrong),
                Some(token.at.wrapping_add(1))
            );
        }
    }
    Ok(())
}
