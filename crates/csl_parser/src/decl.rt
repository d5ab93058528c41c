//! Shared declarations.

ghost use Rattle.std.specs.Prelude.{◌≡◌, ◌<◌, ◌≤◌, IfOk, length};
ghost use Rattle.csl_tree.specs.declared.token.TokenKind.TheVariants as kind;
ghost use Rattle.csl_tree.specs.declared.token.Mark.TheVariants as mark;
ghost use Rattle.csl_grammar.specs.Programs.{SpellsValue};
ghost use Rattle.csl_grammar.specs.Stops.{IsEnded};
ghost use Rattle.expression_parser.specs.Reading.{Answers, behind, stops_anywhere};
ghost use Rattle.csl_parser.specs.Chains.{TallyRest, IntRest, AfterName, ArrayRest, AfterSize, ListedRest};

use cal_terms::WordKind;
use csl_tree::name::Name;
use csl_tree::program::{ArraySize, Shared, Valued};
use csl_tree::token::{Keyword, Mark, Token};
use expression_parser::ParseError;
use expression_parser::lists::{Element, with_commas};
use expression_parser::tokens::{
    copy_of, expect, expect_name, expect_number, expect_word, front, is_mark, is_word, natural,
    number,
};
use sqlite_items::Items;
use std::alloc::Global;

/// The shared declarations of a program.
pub struct SharedList;

impl Element for SharedList {
    ghost use Rattle.csl_tree.specs.declared.token.TokenKind.TheVariants as kind;
    ghost use Rattle.csl_tree.specs.declared.token.Mark.TheVariants as mark;
    ghost use Rattle.csl_grammar.specs.Programs.{SpellsShared};
    ghost use Rattle.expression_parser.specs.Reading.{stops_anywhere};

    type Tree = Shared;

    ghost closing = { kind.Mark mark.CloseBrace };

    ghost spells = { SpellsShared };

    ghost stops = { stops_anywhere };

    fn closes(token: &Token) -> bool {
        is_mark(token, Mark::CloseBrace)
    }

    fn read(alloc: Global, tokens: &[Token]) -> Result<(Shared, &[Token]), ParseError> {
        let (first, rest) = front(tokens);
        if is_word(first, Keyword::Tally) {
            return tally(alloc, rest);
        }
        if is_word(first, Keyword::Int) {
            return ordinary(alloc, rest);
        }
        Err(ParseError::Unexpected(first.at))
    }
}

/// A tally word, behind its first keyword.
fn tally(alloc: Global, tokens: &[Token]) -> Result<(Shared, &[Token]), ParseError>
    requires { IsEnded tokens.now }
    ensures answer { Answers TallyRest stops_anywhere tokens.now (λ x. (x.0, x.1.now)) result }
    ensures shorter { IfOk result (λ x. length x.1.now < length tokens.now) }
{
    let (_, rest) = expect_word(Keyword::Int, tokens)?;
    let (name, rest) = expect_name(rest)?;
    let (_, rest) = expect(Mark::Semicolon, rest)?;
    let declared = Shared {
        name: copy_of(alloc, name)?,
        kind: WordKind::Tally,
        size: None,
        values: Items::new(alloc),
        listed: false,
    };
    Ok((declared, rest))
}

/// An ordinary word or an array, behind its keyword.
fn ordinary(alloc: Global, tokens: &[Token]) -> Result<(Shared, &[Token]), ParseError>
    requires { IsEnded tokens.now }
    ensures answer { Answers IntRest stops_anywhere tokens.now (λ x. (x.0, x.1.now)) result }
    ensures shorter { IfOk result (λ x. length x.1.now < length tokens.now) }
{
    let (name, rest) = expect_name(tokens)?;
    let (next, behind) = front(rest);
    if is_mark(next, Mark::OpenBracket) {
        return array(alloc, name, behind);
    }
    let (_, rest) = expect(Mark::Semicolon, rest)?;
    let declared = Shared {
        name: copy_of(alloc, name)?,
        kind: WordKind::Ordinary,
        size: None,
        values: Items::new(alloc),
        listed: false,
    };
    Ok((declared, rest))
}

/// An array, behind the bracket.
fn array<'a>(
    alloc: Global,
    name: &'a Name,
    tokens: &'a [Token],
) -> Result<(Shared, &'a [Token]), ParseError>
    requires { IsEnded tokens.now }
    ensures answer { Answers (ArrayRest name.now) stops_anywhere tokens.now (λ x. (x.0, x.1.now)) result }
    ensures shorter { IfOk result (λ x. length x.1.now < length tokens.now) }
{
    let (size, rest) = expect_number(tokens)?;
    let (_, rest) = expect(Mark::CloseBracket, rest)?;
    let (next, behind) = front(rest);
    if is_mark(next, Mark::Assign) {
        return listed(alloc, name, size, behind);
    }
    let (_, rest) = expect(Mark::Semicolon, rest)?;
    let declared = Shared {
        name: copy_of(alloc, name)?,
        kind: WordKind::Ordinary,
        size: Some(size),
        values: Items::new(alloc),
        listed: false,
    };
    Ok((declared, rest))
}

/// The listed values of an array, behind the sign.
fn listed<'a>(
    alloc: Global,
    name: &'a Name,
    size: ArraySize,
    tokens: &'a [Token],
) -> Result<(Shared, &'a [Token]), ParseError>
    requires { IsEnded tokens.now }
    ensures answer { Answers (ListedRest name.now size) stops_anywhere tokens.now (λ x. (x.0, x.1.now)) result }
    ensures shorter { IfOk result (λ x. length x.1.now < length tokens.now) }
{
    let (_, rest) = expect(Mark::OpenBrace, tokens)?;
    let (values, rest) = with_commas::<ValueList>(alloc, rest)?;
    let (_, rest) = expect(Mark::Semicolon, rest)?;
    let declared = Shared {
        name: copy_of(alloc, name)?,
        kind: WordKind::Ordinary,
        size: Some(size),
        values,
        listed: true,
    };
    Ok((declared, rest))
}

/// The initial values of an array.
struct ValueList;

impl Element for ValueList {
    ghost use Rattle.csl_tree.specs.declared.token.TokenKind.TheVariants as kind;
    ghost use Rattle.csl_tree.specs.declared.token.Mark.TheVariants as mark;
    ghost use Rattle.csl_grammar.specs.Programs.{SpellsValue};
    ghost use Rattle.expression_parser.specs.Reading.{stops_anywhere};

    type Tree = Valued;

    ghost closing = { kind.Mark mark.CloseBrace };

    ghost spells = { SpellsValue };

    ghost stops = { stops_anywhere };

    fn closes(token: &Token) -> bool {
        is_mark(token, Mark::CloseBrace)
    }

    fn read(_alloc: Global, tokens: &[Token]) -> Result<(Valued, &[Token]), ParseError> {
        let (first, rest) = front(tokens);
        if is_mark(first, Mark::Minus) {
            return negative(first, rest);
        }
        match number(first) {
            Some(number) => Ok((
                Valued {
                    at: first.at,
                    number,
                },
                rest,
            )),
            None => Err(ParseError::Unexpected(first.at)),
        }
    }
}

/// A negative initial value, behind its sign.
fn negative<'a>(sign: &'a Token, tokens: &'a [Token]) -> Result<(Valued, &'a [Token]), ParseError>
    requires sign { sign.now.kind ≡ kind.Mark mark.Minus }
    requires ended { IsEnded tokens.now }
    ensures answer { Answers (behind sign.now SpellsValue) stops_anywhere tokens.now (λ x. (x.0, x.1.now)) result }
    ensures shorter { IfOk result (λ x. length x.1.now < length tokens.now) }
{
    let (first, rest) = front(tokens);
    match natural(first) {
        Some(n) => Ok((
            Valued {
                at: sign.at,
                number: -n,
            },
            rest,
        )),
        None => Err(ParseError::Unexpected(first.at)),
    }
}
