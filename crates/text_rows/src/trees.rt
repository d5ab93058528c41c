use csl_lexer::lex;
use csl_parser::{ParseError, parse};
use std::alloc::Global;

/// Whether the text has tokens, and what is wrong with them.
fn outcome(alloc: Global, text: &[u8]) -> Option<Option<ParseError>> {
    if text.len() > 1048576 {
        return None;
    }
    let tokens = lex(alloc, text).ok()?;
    Some(parse(alloc, tokens.as_slice()).err())
}

#[test]
fn reads_programs_and_refuses_others(rt: HostRuntime) {
    let cases: &[(&[u8], Option<ParseError>)] = &[
        (b"shared{int x;}main{x=1;print(x);}", None),
        (b"shared{}main{if(true){}else if(false){}else{}}", None),
        (
            b"shared { int a[2] = {1, -2}; int b[1]; tally int t; } main { }",
            None,
        ),
        (
            b"shared { } int f() { } bool g(int a, bool b) { } void h(int c) { } main { }",
            None,
        ),
        (b"", Some(ParseError::Unexpected(0))),
        (b"main { }", Some(ParseError::Unexpected(0))),
        (
            b"shared { bool b; } main { }",
            Some(ParseError::Unexpected(9)),
        ),
        (
            b"shared { int a[2] = {1,}; }",
            Some(ParseError::Unexpected(23)),
        ),
        (
            b"shared { int a[1] = {--1}; }",
            Some(ParseError::Unexpected(22)),
        ),
        (
            b"shared { } int f(int a,) { }",
            Some(ParseError::Unexpected(23)),
        ),
        (
            b"shared { } void f(void a) { }",
            Some(ParseError::Unexpected(18)),
        ),
        (b"shared { } main", Some(ParseError::Unexpected(15))),
        (
            b"shared { } main { } main { }",
            Some(ParseError::Unexpected(20)),
        ),
        (
            b"shared { } main { x = ; }",
            Some(ParseError::Unexpected(22)),
        ),
        (
            b"shared { } main { parbegin",
            Some(ParseError::Unexpected(26)),
        ),
        (
            b"shared { } main { print(((((((((((((((((((((((((((((((((((((((((((((((((((((((((((((((((((((((",
            Some(ParseError::TooDeep(86)),
        ),
        (
            b")((((((((((((((((((((((((((((((((((((((((((((((((((((((((((((((((",
            Some(ParseError::Unexpected(0)),
        ),
        (
            b")(((((((((((((((((((((((((((((((((((((((((((((((((((((((((((((((((",
            Some(ParseError::TooDeep(65)),
        ),
    ];
    for (text, wanted) in cases {
        let found = outcome(rt.alloc(), text);
        assert!(rt; found == Some(*wanted), "{text:?}: {found:?}");
    }
}
