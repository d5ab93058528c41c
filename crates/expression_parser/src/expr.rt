//! Expressions.

ghost use Rattle.std.specs.Prelude.{◌≡◌, ◌<◌, ◌≤◌, ◌∷◌, suc, IfOk, length};
ghost use Rattle.csl_tree.specs.declared.token.TokenKind.TheVariants as kind;
ghost use Rattle.csl_tree.specs.declared.token.Mark.TheVariants as mark;
ghost use Rattle.csl_grammar.specs.Expressions.{SpellsExpr, SpellsChain, whole, expr, prefix_mark};
ghost use Rattle.csl_grammar.specs.Stops.{IsEnded, Stops};
ghost use Rattle.expression_parser.specs.Reading.{Answers, Returns, behind, at_mark, prefix_of, stops_anywhere, SpellsClosed};

use crate::ParseError;
use crate::tokens::{
    comma, copy_of, expect, front, is_mark, looseness, number, operator, prefix, truth,
};
use csl_tree::name::Name;
use csl_tree::program::{Call, Expr, Node, Place, UnaryOp};
use csl_tree::token::{Mark, Token, TokenKind};
use sqlite_items::{Boxed, Items};
use std::alloc::Global;

/// The level of any expression, whose chains are of `||`.
pub const WHOLE: u8 = 6;

/// An expression of a level: a chain of operands of the level below, or at 0 what no chain is.
#[cycle(expr)]
pub fn operand<'a>(
    alloc: Global,
    level: u8,
    tokens: &'a [Token],
) -> Result<(Expr, &'a [Token]), ParseError>
    requires level { level ≤ whole }
    requires ended { IsEnded tokens.now }
    ensures answer { Answers (SpellsExpr level) (Stops level) tokens.now (λ x. (x.0, x.1.now)) result }
    ensures shorter { IfOk result (λ x. length x.1.now < length tokens.now) }
{
    if level == 0 {
        return unary(alloc, tokens);
    }
    let below = level - 1;
    let (first, rest) = operand(alloc, below, tokens)?;
    chain(alloc, below, first, rest)
}

/// What a chain goes on with behind its left operand, and the whole of it.
#[cycle(expr)]
fn chain<'a>(
    alloc: Global,
    below: u8,
    left: Expr,
    tokens: &'a [Token],
) -> Result<(Expr, &'a [Token]), ParseError>
    requires level { below < whole }
    requires ended { IsEnded tokens.now }
    requires stopped { Stops below tokens.now }
    ensures answer { Answers (SpellsChain below left) (Stops (suc below)) tokens.now (λ x. (x.0, x.1.now)) result }
    ensures no_longer { IfOk result (λ x. length x.1.now ≤ length tokens.now) }
{
    let (sign, rest) = front(tokens);
    match operator(sign) {
        Some(op) if looseness(op) == below + 1 => {
            let (right, rest) = operand(alloc, below, rest)?;
            let at = left.at;
            let left = Boxed::new(alloc, left)?;
            let right = Boxed::new(alloc, right)?;
            let both = Expr {
                at,
                node: Node::Binary(op, left, right),
            };
            chain(alloc, below, both, rest)
        }
        _ => Ok((left, tokens)),
    }
}

/// What no chain is: a sign before another such, or a primary expression.
#[cycle(expr)]
fn unary<'a>(alloc: Global, tokens: &'a [Token]) -> Result<(Expr, &'a [Token]), ParseError>
    requires { IsEnded tokens.now }
    ensures answer { Answers (SpellsExpr 0) (Stops 0) tokens.now (λ x. (x.0, x.1.now)) result }
    ensures shorter { IfOk result (λ x. length x.1.now < length tokens.now) }
{
    let (first, rest) = front(tokens);
    match prefix(first) {
        Some(op) => prefixed(alloc, op, first, rest),
        None => primary(alloc, first, rest),
    }
}

#[cycle(expr)]
fn prefixed<'a>(
    alloc: Global,
    op: UnaryOp,
    first: &'a Token,
    tokens: &'a [Token],
) -> Result<(Expr, &'a [Token]), ParseError>
    requires sign { first.now.kind ≡ kind.Mark (prefix_mark op) }
    requires ended { IsEnded tokens.now }
    ensures answer { Answers (behind first.now (SpellsExpr 0)) (Stops 0) tokens.now (λ x. (x.0, x.1.now)) result }
    ensures shorter { IfOk result (λ x. length x.1.now < length tokens.now) }
{
    let (inner, rest) = unary(alloc, tokens)?;
    let inner = Boxed::new(alloc, inner)?;
    Ok((
        Expr {
            at: first.at,
            node: Node::Unary(op, inner),
        },
        rest,
    ))
}

/// An expression whose first token is no sign.
#[cycle(expr)]
fn primary<'a>(
    alloc: Global,
    first: &'a Token,
    tokens: &'a [Token],
) -> Result<(Expr, &'a [Token]), ParseError>
    requires ended { IsEnded (first.now ∷ tokens.now) }
    requires no_sign { at_mark prefix_of first.now.kind ≡ None }
    ensures answer { Answers (SpellsExpr 0) (Stops 0) (first.now ∷ tokens.now) (λ x. (x.0, x.1.now)) result }
    ensures shorter { IfOk result (λ x. length x.1.now ≤ length tokens.now) }
{
    if let Some(n) = number(first) {
        return operand_end(first.at, Node::Number(n), tokens);
    }
    if let Some(b) = truth(first) {
        return operand_end(first.at, Node::Truth(b), tokens);
    }
    if let TokenKind::Named(name) = &first.kind {
        return named(alloc, first, name, tokens);
    }
    if is_mark(first, Mark::OpenParen) {
        return parenthesized(alloc, first, tokens);
    }
    Err(ParseError::Unexpected(first.at))
}

/// A primary expression whose tokens are all read. No bracket stands behind it.
fn operand_end<'a>(
    at: u32,
    node: Node,
    tokens: &'a [Token],
) -> Result<(Expr, &'a [Token]), ParseError>
    requires { IsEnded tokens.now }
    ensures answer { Answers (Returns (expr at node)) (Stops 0) tokens.now (λ x. (x.0, x.1.now)) result }
    ensures all { IfOk result (λ x. x.1.now ≡ tokens.now) }
{
    let (next, _) = front(tokens);
    if is_mark(next, Mark::OpenBracket) {
        return Err(ParseError::Unexpected(next.at));
    }
    if is_mark(next, Mark::OpenParen) {
        return Err(ParseError::Unexpected(next.at));
    }
    Ok((Expr { at, node }, tokens))
}

/// An expression in parentheses, behind the first of them.
#[cycle(expr)]
fn parenthesized<'a>(
    alloc: Global,
    first: &'a Token,
    tokens: &'a [Token],
) -> Result<(Expr, &'a [Token]), ParseError>
    requires opens { first.now.kind ≡ kind.Mark mark.OpenParen }
    requires ended { IsEnded tokens.now }
    ensures answer { Answers (behind first.now (SpellsExpr 0)) (Stops 0) tokens.now (λ x. (x.0, x.1.now)) result }
    ensures shorter { IfOk result (λ x. length x.1.now ≤ length tokens.now) }
{
    let (inner, rest) = operand(alloc, WHOLE, tokens)?;
    let (_, rest) = expect(Mark::CloseParen, rest)?;
    let inner = Boxed::new(alloc, inner)?;
    operand_end(first.at, Node::Paren(inner), rest)
}

/// An expression that begins with a name, behind it.
#[cycle(expr)]
fn named<'a>(
    alloc: Global,
    first: &'a Token,
    name: &'a Name,
    tokens: &'a [Token],
) -> Result<(Expr, &'a [Token]), ParseError>
    requires names { first.now.kind ≡ kind.Named name.now }
    requires ended { IsEnded tokens.now }
    ensures answer { Answers (behind first.now (SpellsExpr 0)) (Stops 0) tokens.now (λ x. (x.0, x.1.now)) result }
    ensures shorter { IfOk result (λ x. length x.1.now ≤ length tokens.now) }
{
    let (next, rest) = front(tokens);
    if is_mark(next, Mark::OpenBracket) {
        return indexed(alloc, first, name, next, rest);
    }
    if is_mark(next, Mark::OpenParen) {
        return called(alloc, first, name, next, rest);
    }
    let name = copy_of(alloc, name)?;
    Ok((
        Expr {
            at: first.at,
            node: Node::Read(Place { name, index: None }),
        },
        tokens,
    ))
}

/// An element of an array, behind the bracket.
#[cycle(expr)]
fn indexed<'a>(
    alloc: Global,
    first: &'a Token,
    name: &'a Name,
    bracket: &'a Token,
    tokens: &'a [Token],
) -> Result<(Expr, &'a [Token]), ParseError>
    requires names { first.now.kind ≡ kind.Named name.now }
    requires opens { bracket.now.kind ≡ kind.Mark mark.OpenBracket }
    requires ended { IsEnded tokens.now }
    ensures answer { Answers (behind bracket.now (behind first.now (SpellsExpr 0))) (Stops 0) tokens.now (λ x. (x.0, x.1.now)) result }
    ensures shorter { IfOk result (λ x. length x.1.now ≤ length tokens.now) }
{
    let (index, rest) = operand(alloc, WHOLE, tokens)?;
    let (_, rest) = expect(Mark::CloseBracket, rest)?;
    let name = copy_of(alloc, name)?;
    let index = Some(Boxed::new(alloc, index)?);
    operand_end(first.at, Node::Read(Place { name, index }), rest)
}

/// A call, behind the parenthesis.
#[cycle(expr)]
fn called<'a>(
    alloc: Global,
    first: &'a Token,
    name: &'a Name,
    bracket: &'a Token,
    tokens: &'a [Token],
) -> Result<(Expr, &'a [Token]), ParseError>
    requires names { first.now.kind ≡ kind.Named name.now }
    requires opens { bracket.now.kind ≡ kind.Mark mark.OpenParen }
    requires ended { IsEnded tokens.now }
    ensures answer { Answers (behind bracket.now (behind first.now (SpellsExpr 0))) (Stops 0) tokens.now (λ x. (x.0, x.1.now)) result }
    ensures shorter { IfOk result (λ x. length x.1.now ≤ length tokens.now) }
{
    let (args, rest) = arguments(alloc, tokens)?;
    let name = copy_of(alloc, name)?;
    operand_end(first.at, Node::CallOf(Call { name, args }), rest)
}

/// The arguments of a call and the parenthesis behind them.
#[cycle(expr)]
pub fn arguments<'a>(
    alloc: Global,
    tokens: &'a [Token],
) -> Result<(Items<Expr>, &'a [Token]), ParseError>
    requires { IsEnded tokens.now }
    ensures answer { Answers SpellsClosed stops_anywhere tokens.now (λ x. (x.0, x.1.now)) result }
    ensures shorter { IfOk result (λ x. length x.1.now ≤ length tokens.now) }
{
    let mut args = Items::new(alloc);
    let (next, rest) = front(tokens);
    if is_mark(next, Mark::CloseParen) {
        return Ok((args, rest));
    }
    let (e, mut rest) = operand(alloc, WHOLE, tokens)?;
    args.push(e)?;
    'more: while let Some(behind) = comma(rest) {
        let (e, left) = operand(alloc, WHOLE, behind)?;
        args.push(e)?;
        rest = left;
    }
    let (_, rest) = expect(Mark::CloseParen, rest)?;
    Ok((args, rest))
}
