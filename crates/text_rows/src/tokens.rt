use csl_lexer::{LexError, lex};
use csl_tree::token::{Keyword, Mark, Token, TokenKind};
use std::alloc::Global;
use std::test::Fail;

/// What a token is to be.
#[derive(Clone, Copy)]
enum Wanted {
    Word(Keyword),
    Named(&'static [u8]),
    Number(i64),
    Text(&'static [u8]),
    Sign(Mark),
    End,
}

use Wanted::{End, Named, Number, Sign, Text, Word};

fn is_wanted(token: &Token, wanted: Wanted) -> bool {
    match (&token.kind, wanted) {
        (TokenKind::Word(word), Word(other)) => *word == other,
        (TokenKind::Named(name), Named(text)) => {
            name.at == token.at && name.text.as_slice() == text
        }
        (TokenKind::Number(number), Number(other)) => *number == other,
        (TokenKind::Text(name), Text(text)) => {
            name.at == token.at && name.text.as_slice() == text
        }
        (TokenKind::Mark(mark), Sign(other)) => *mark == other,
        (TokenKind::End, End) => true,
        _ => false,
    }
}

fn are_wanted(tokens: &[Token], wanted: &[(u32, Wanted)]) -> bool {
    let mut rest = tokens;
    for (at, kind) in wanted {
        let [first, others @ ..] = rest else {
            return false;
        };
        if first.at != *at || !is_wanted(first, *kind) {
            return false;
        }
        rest = others;
    }
    rest.is_empty()
}

#[test]
fn reads_tokens(rt: HostRuntime) -> Result<(), Fail> {
    let cases: &[(&[u8], &[(u32, Wanted)])] = &[
        (
            b"shared int bool void tally main routine parbegin parend if else while for break continue return assert print true false least greatest",
            &[
                (0, Word(Keyword::Shared)),
                (7, Word(Keyword::Int)),
                (11, Word(Keyword::Bool)),
                (16, Word(Keyword::Void)),
                (21, Word(Keyword::Tally)),
                (27, Word(Keyword::Main)),
                (32, Word(Keyword::Routine)),
                (40, Word(Keyword::Parbegin)),
                (49, Word(Keyword::Parend)),
                (56, Word(Keyword::If)),
                (59, Word(Keyword::Else)),
                (64, Word(Keyword::While)),
                (70, Word(Keyword::For)),
                (74, Word(Keyword::Break)),
                (80, Word(Keyword::Continue)),
                (89, Word(Keyword::Return)),
                (96, Word(Keyword::Assert)),
                (103, Word(Keyword::Print)),
                (109, Word(Keyword::True)),
                (114, Word(Keyword::False)),
                (120, Word(Keyword::Least)),
                (126, Word(Keyword::Greatest)),
                (134, End),
            ],
        ),
        (
            b"{ } ( ) [ ] , ; = += + - * / % ! == != < <= > >= && ||",
            &[
                (0, Sign(Mark::OpenBrace)),
                (2, Sign(Mark::CloseBrace)),
                (4, Sign(Mark::OpenParen)),
                (6, Sign(Mark::CloseParen)),
                (8, Sign(Mark::OpenBracket)),
                (10, Sign(Mark::CloseBracket)),
                (12, Sign(Mark::Comma)),
                (14, Sign(Mark::Semicolon)),
                (16, Sign(Mark::Assign)),
                (18, Sign(Mark::AddAssign)),
                (21, Sign(Mark::Plus)),
                (23, Sign(Mark::Minus)),
                (25, Sign(Mark::Star)),
                (27, Sign(Mark::Slash)),
                (29, Sign(Mark::Percent)),
                (31, Sign(Mark::Bang)),
                (33, Sign(Mark::Equal)),
                (36, Sign(Mark::NotEqual)),
                (39, Sign(Mark::Less)),
                (41, Sign(Mark::LessEqual)),
                (44, Sign(Mark::Greater)),
                (46, Sign(Mark::GreaterEqual)),
                (49, Sign(Mark::AndAnd)),
                (52, Sign(Mark::OrOr)),
                (54, End),
            ],
        ),
        (b"", &[(0, End)]),
        (b" \t\r\n ", &[(5, End)]),
        (b"a\r\n", &[(0, Named(b"a")), (3, End)]),
        (b"1a", &[(0, Number(1)), (1, Named(b"a")), (2, End)]),
        (b"a1", &[(0, Named(b"a1")), (2, End)]),
        (
            b"_Z09 int_ iff",
            &[
                (0, Named(b"_Z09")),
                (5, Named(b"int_")),
                (10, Named(b"iff")),
                (13, End),
            ],
        ),
        (
            b"=+",
            &[(0, Sign(Mark::Assign)), (1, Sign(Mark::Plus)), (2, End)],
        ),
        (
            b"+==",
            &[
                (0, Sign(Mark::AddAssign)),
                (2, Sign(Mark::Assign)),
                (3, End),
            ],
        ),
        (
            b"00000000000000000000000000000000000000000000000000000000000000000000007",
            &[(0, Number(7)), (71, End)],
        ),
        (
            b"9223372036854775807",
            &[(0, Number(9223372036854775807)), (19, End)],
        ),
        (
            b"\"\"\"a\0\r\xff/*\"",
            &[(0, Text(b"")), (2, Text(b"a\0\r\xff/*")), (10, End)],
        ),
        (
            b"/**/1/***/2/* \0\xff\n\" /* */3",
            &[(4, Number(1)), (10, Number(2)), (24, Number(3)), (25, End)],
        ),
        (
            b"1//\0\xff\r\"\n2// /*",
            &[(0, Number(1)), (8, Number(2)), (14, End)],
        ),
        (
            b"/*/*/*/",
            &[(5, Sign(Mark::Star)), (6, Sign(Mark::Slash)), (7, End)],
        ),
    ];
    for (text, wanted) in cases {
        assert!(rt; text.len() <= 1048576);
        let tokens = lex(rt.alloc(), text)?;
        assert!(rt;
            are_wanted(tokens.as_slice(), wanted),
            "{text:?}: {tokens:?}"
        );
    }
    Ok(())
}

#[test]
fn finds_the_first_fault(rt: HostRuntime) {
    let cases: &[(&[u8], LexError)] = &[
        (b"                    /* x", LexError::OpenComment(20)),
        (b"1 /*/", LexError::OpenComment(2)),
        (b"/* // \" * /", LexError::OpenComment(0)),
        (b"a&b", LexError::BadByte(1)),
        (b"&&&", LexError::BadByte(2)),
        (b"|=", LexError::BadByte(0)),
        (b"a\0", LexError::BadByte(1)),
        (b"//\n\x80", LexError::BadByte(3)),
        (b"#\"", LexError::BadByte(0)),
        (b" \"a\n\"", LexError::OpenText(1)),
        (b"\"a\"\"", LexError::OpenText(3)),
        (
            b"9223372036854775807 9223372036854775808 &",
            LexError::LongNumber(20),
        ),
        (
            b" 00000000000000000000099999999999999999999999a",
            LexError::LongNumber(1),
        ),
        (
            b"aaaaaaaaaaaaaaaaaaaaaaaaaaaaaaaaaaaaaaaaaaaaaaaaaaaaaaaaaaaaaaaa aaaaaaaaaaaaaaaaaaaaaaaaaaaaaaaaaaaaaaaaaaaaaaaaaaaaaaaaaaaaaaaa1 &",
            LexError::LongName(65),
        ),
    ];
    for (text, fault) in cases {
        assert!(rt; text.len() <= 1048576);
        let outcome = lex(rt.alloc(), text);
        assert!(rt;
            outcome.as_ref().err() == Some(fault),
            "{text:?}: {outcome:?}"
        );
    }
}

/// A text of 1 MiB of one byte behind the first two.
fn large(alloc: Global, front: &[u8], byte: u8) -> Result<Vec<u8>, Fail> {
    let mut text = Vec::from_slice(alloc, front)?;
    text.resize(1048576, byte)?;
    Ok(text)
}

#[test]
fn reads_large_texts(rt: HostRuntime) -> Result<(), Fail> {
    let alloc = rt.alloc();
    let cases: &[(&[u8; 2], u8, Option<usize>)] = &[
        (b"((", b'(', Some(1048577)),
        (b"00", b'0', Some(2)),
        (b"99", b'9', None),
        (b"//", b'/', Some(1)),
        (b"/*", b'*', None),
        (b"aa", b'a', None),
        (b"\"a", b'a', None),
    ];
    for (front, byte, count) in cases {
        let text = large(alloc, front.as_slice(), *byte)?;
        assert!(rt; text.len() <= 1048576);
        let tokens = lex(alloc, text.as_slice()).ok();
        assert!(rt; tokens.map(|tokens| tokens.len()) == *count, "{front:?}");
    }
    Ok(())
}
