//! The heads of loops and routines.

ghost use Rattle.std.specs.Prelude.{◌≡◌, ◌<◌, IfOk, length};
ghost use Rattle.csl_grammar.specs.Expressions.{whole};
ghost use Rattle.csl_grammar.specs.Programs.{SpellsChange, SpellsStart};
ghost use Rattle.csl_grammar.specs.Stops.{IsEnded, Stops};
ghost use Rattle.expression_parser.specs.Reading.{Answers, stops_anywhere};
ghost use Rattle.statement_parser.specs.Statements.{TwoNames};

use crate::simple::{change, declaration};
use csl_tree::name::Name;
use csl_tree::program::{Stmt, Ty};
use csl_tree::token::{Keyword, Mark, Token, TokenKind};
use expression_parser::ParseError;
use expression_parser::tokens::{expect, expect_name, expect_word, front, is_word};
use std::alloc::Global;

/// A change.
pub fn changed(alloc: Global, tokens: &[Token]) -> Result<(Stmt, &[Token]), ParseError>
    requires { IsEnded tokens.now }
    ensures answer { Answers SpellsChange (Stops whole) tokens.now (λ x. (x.0, x.1.now)) result }
    ensures shorter { IfOk result (λ x. length x.1.now < length tokens.now) }
{
    let (first, rest) = front(tokens);
    match &first.kind {
        TokenKind::Named(name) => change(alloc, first, name, rest),
        _ => Err(ParseError::Unexpected(first.at)),
    }
}

/// The first part of a `for`: a local or a change.
pub fn start(alloc: Global, tokens: &[Token]) -> Result<(Stmt, &[Token]), ParseError>
    requires { IsEnded tokens.now }
    ensures answer { Answers SpellsStart (Stops whole) tokens.now (λ x. (x.0, x.1.now)) result }
    ensures shorter { IfOk result (λ x. length x.1.now < length tokens.now) }
{
    let (first, rest) = front(tokens);
    if is_word(first, Keyword::Int) {
        return declaration(alloc, first, Ty::Int, rest);
    }
    if is_word(first, Keyword::Bool) {
        return declaration(alloc, first, Ty::Bool, rest);
    }
    changed(alloc, tokens)
}

/// The names of a routine's parameters: its width and its number.
pub fn two_names(tokens: &[Token]) -> Result<((&Name, &Name), &[Token]), ParseError>
    requires { IsEnded tokens.now }
    ensures answer { Answers TwoNames stops_anywhere tokens.now (λ x. ((x.0.0.now, x.0.1.now), x.1.now)) result }
    ensures shorter { IfOk result (λ x. length x.1.now < length tokens.now) }
{
    let (_, rest) = expect(Mark::OpenParen, tokens)?;
    let (_, rest) = expect_word(Keyword::Int, rest)?;
    let (width, rest) = expect_name(rest)?;
    let (_, rest) = expect(Mark::Comma, rest)?;
    let (_, rest) = expect_word(Keyword::Int, rest)?;
    let (id, rest) = expect_name(rest)?;
    let (_, rest) = expect(Mark::CloseParen, rest)?;
    Ok(((width, id), rest))
}
