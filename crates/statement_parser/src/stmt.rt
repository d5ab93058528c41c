//! Statements and blocks.

ghost use Rattle.std.specs.Prelude.{◌≡◌, ◌<◌, ◌≤◌, ◌++◌, [], IfOk, length};
ghost use Rattle.csl_tree.specs.declared.token.TokenKind.TheVariants as kind;
ghost use Rattle.csl_tree.specs.declared.token.Keyword.TheVariants as word;
ghost use Rattle.csl_tree.specs.declared.token.Mark.TheVariants as mark;
ghost use Rattle.csl_grammar.specs.Expressions.{whole};
ghost use Rattle.csl_grammar.specs.Programs.{SpellsArm, SpellsBlock, SpellsChange, SpellsRoutine, SpellsStart, SpellsStmt};
ghost use Rattle.csl_grammar.specs.Stops.{IsEnded, Stops};
ghost use Rattle.expression_parser.specs.Reading.{Answers, behind, stops_anywhere};
ghost use Rattle.statement_parser.specs.Statements.{NoElse, BlockRest, WhileRest, ForRest, IfRest, RoutinesRest};
ghost use Rattle.statement_parser.specs.Leaves.{holding_word};

use crate::heads::{changed, start, two_names};
use crate::leaf::{Holding, held_form, leaf};
use crate::simple::{ended, named, not_else};
use csl_tree::program::{Arm, Form, RoutineBlock, Stmt};
use csl_tree::token::{Keyword, Mark, Token, TokenKind};
use expression_parser::ParseError;
use expression_parser::expr::{WHOLE, operand};
use expression_parser::tokens::{
    behind_else, copy_of, expect, expect_word, front, is_mark, is_word, unless_mark, unless_word,
};
use sqlite_items::{Boxed, Items};
use std::alloc::Global;

/// The statements between braces.
#[cycle(stmt)]
pub fn block(alloc: Global, tokens: &[Token]) -> Result<(Items<Stmt>, &[Token]), ParseError>
    requires { IsEnded tokens.now }
    ensures answer { Answers SpellsBlock stops_anywhere tokens.now (λ x. (x.0, x.1.now)) result }
    ensures shorter { IfOk result (λ x. length x.1.now < length tokens.now) }
{
    let (_, rest) = expect(Mark::OpenBrace, tokens)?;
    statements(alloc, rest)
}

/// The statements of a block and the brace behind them.
#[cycle(stmt)]
fn statements(alloc: Global, tokens: &[Token]) -> Result<(Items<Stmt>, &[Token]), ParseError>
    requires { IsEnded tokens.now }
    ensures answer { Answers BlockRest stops_anywhere tokens.now (λ x. (x.0, x.1.now)) result }
    ensures shorter { IfOk result (λ x. length x.1.now < length tokens.now) }
{
    let mut body = Items::new(alloc);
    let mut rest = tokens;
    'more: while let Some(here) = unless_mark(Mark::CloseBrace, rest) {
        let (s, left) = statement(alloc, here)?;
        body.push(s)?;
        rest = left;
    }
    let (_, rest) = front(rest);
    Ok((body, rest))
}

/// A statement.
#[cycle(stmt)]
fn statement(alloc: Global, tokens: &[Token]) -> Result<(Stmt, &[Token]), ParseError>
    requires { IsEnded tokens.now }
    ensures answer { Answers SpellsStmt NoElse tokens.now (λ x. (x.0, x.1.now)) result }
    ensures shorter { IfOk result (λ x. length x.1.now < length tokens.now) }
{
    let (first, rest) = front(tokens);
    if let TokenKind::Named(name) = &first.kind {
        return named(alloc, first, name, rest);
    }
    if is_mark(first, Mark::OpenBrace) {
        let (body, rest) = statements(alloc, rest)?;
        let inner = Stmt {
            at: first.at,
            form: Form::Block(body),
        };
        return not_else(inner, rest);
    }
    if let Some(form) = held_form(first) {
        return nested(alloc, form, first, rest);
    }
    leaf(alloc, first, rest)
}

/// A statement that holds statements, behind its keyword.
#[cycle(stmt)]
fn nested<'a>(
    alloc: Global,
    holds: Holding,
    first: &'a Token,
    tokens: &'a [Token],
) -> Result<(Stmt, &'a [Token]), ParseError>
    requires kind { first.now.kind ≡ kind.Word (holding_word holds) }
    requires ended { IsEnded tokens.now }
    ensures answer { Answers (behind first.now SpellsStmt) NoElse tokens.now (λ x. (x.0, x.1.now)) result }
    ensures shorter { IfOk result (λ x. length x.1.now < length tokens.now) }
{
    match holds {
        Holding::If => choice(alloc, first, tokens),
        Holding::While => while_loop(alloc, first, tokens),
        Holding::For => for_loop(alloc, first, tokens),
        Holding::Parallel => {
            let (blocks, rest) = routines(alloc, tokens)?;
            let step = Stmt {
                at: first.at,
                form: Form::Par(blocks),
            };
            ended(step, rest)
        }
    }
}

/// An `if`, behind its keyword, with all its arms.
#[cycle(stmt)]
fn choice<'a>(
    alloc: Global,
    first: &'a Token,
    tokens: &'a [Token],
) -> Result<(Stmt, &'a [Token]), ParseError>
    requires { IsEnded tokens.now }
    ensures answer { Answers (IfRest first.now) NoElse tokens.now (λ x. (x.0, x.1.now)) result }
    ensures shorter { IfOk result (λ x. length x.1.now < length tokens.now) }
{
    let (one, mut rest) = arm(alloc, tokens)?;
    let mut arms = Items::new(alloc);
    arms.push(one)?;
    'more: while let Some(behind) = behind_else(rest) {
        let (next, inner) = front(behind);
        if is_word(next, Keyword::If) {
            let (another, left) = arm(alloc, inner)?;
            arms.push(another)?;
            rest = left;
        } else {
            let (body, left) = block(alloc, behind)?;
            let last = Some(body);
            let chosen = Stmt {
                at: first.at,
                form: Form::If { arms, last },
            };
            return not_else(chosen, left);
        }
    }
    let chosen = Stmt {
        at: first.at,
        form: Form::If { arms, last: None },
    };
    Ok((chosen, rest))
}

/// A test in parentheses and the block behind it.
#[cycle(stmt)]
fn arm(alloc: Global, tokens: &[Token]) -> Result<(Arm, &[Token]), ParseError>
    requires { IsEnded tokens.now }
    ensures answer { Answers SpellsArm stops_anywhere tokens.now (λ x. (x.0, x.1.now)) result }
    ensures shorter { IfOk result (λ x. length x.1.now < length tokens.now) }
{
    let (_, rest) = expect(Mark::OpenParen, tokens)?;
    let (test, rest) = operand(alloc, WHOLE, rest)?;
    let (_, rest) = expect(Mark::CloseParen, rest)?;
    let (body, rest) = block(alloc, rest)?;
    Ok((Arm { test, body }, rest))
}

/// A `while`, behind its keyword.
#[cycle(stmt)]
fn while_loop<'a>(
    alloc: Global,
    first: &'a Token,
    tokens: &'a [Token],
) -> Result<(Stmt, &'a [Token]), ParseError>
    requires { IsEnded tokens.now }
    ensures answer { Answers (WhileRest first.now) NoElse tokens.now (λ x. (x.0, x.1.now)) result }
    ensures shorter { IfOk result (λ x. length x.1.now < length tokens.now) }
{
    let (_, rest) = expect(Mark::OpenParen, tokens)?;
    let (test, rest) = operand(alloc, WHOLE, rest)?;
    let (_, rest) = expect(Mark::CloseParen, rest)?;
    let (body, rest) = block(alloc, rest)?;
    let repeated = Stmt {
        at: first.at,
        form: Form::While { test, body },
    };
    not_else(repeated, rest)
}

/// A `for`, behind its keyword.
#[cycle(stmt)]
fn for_loop<'a>(
    alloc: Global,
    first: &'a Token,
    tokens: &'a [Token],
) -> Result<(Stmt, &'a [Token]), ParseError>
    requires { IsEnded tokens.now }
    ensures answer { Answers (ForRest first.now) NoElse tokens.now (λ x. (x.0, x.1.now)) result }
    ensures shorter { IfOk result (λ x. length x.1.now < length tokens.now) }
{
    let (_, rest) = expect(Mark::OpenParen, tokens)?;
    let (begun, rest) = start(alloc, rest)?;
    let (_, rest) = expect(Mark::Semicolon, rest)?;
    let (test, rest) = operand(alloc, WHOLE, rest)?;
    let (_, rest) = expect(Mark::Semicolon, rest)?;
    let (step, rest) = changed(alloc, rest)?;
    let (_, rest) = expect(Mark::CloseParen, rest)?;
    let (body, rest) = block(alloc, rest)?;
    let first_part = Boxed::new(alloc, begun)?;
    let next = Boxed::new(alloc, step)?;
    let repeated = Stmt {
        at: first.at,
        form: Form::For {
            first: first_part,
            test,
            next,
            body,
        },
    };
    not_else(repeated, rest)
}

/// The routine blocks of a step and the keyword behind them.
#[cycle(stmt)]
fn routines(alloc: Global, tokens: &[Token]) -> Result<(Items<RoutineBlock>, &[Token]), ParseError>
    requires { IsEnded tokens.now }
    ensures answer { Answers RoutinesRest stops_anywhere tokens.now (λ x. (x.0, x.1.now)) result }
    ensures shorter { IfOk result (λ x. length x.1.now < length tokens.now) }
{
    let (one, mut rest) = routine(alloc, tokens)?;
    let mut blocks = Items::new(alloc);
    blocks.push(one)?;
    'more: while let Some(here) = unless_word(Keyword::Parend, rest) {
        let (another, left) = routine(alloc, here)?;
        blocks.push(another)?;
        rest = left;
    }
    let (_, rest) = front(rest);
    Ok((blocks, rest))
}

/// A routine block.
#[cycle(stmt)]
fn routine(alloc: Global, tokens: &[Token]) -> Result<(RoutineBlock, &[Token]), ParseError>
    requires { IsEnded tokens.now }
    ensures answer { Answers SpellsRoutine stops_anywhere tokens.now (λ x. (x.0, x.1.now)) result }
    ensures shorter { IfOk result (λ x. length x.1.now < length tokens.now) }
{
    let (first, rest) = expect_word(Keyword::Routine, tokens)?;
    let (_, rest) = expect(Mark::OpenBracket, rest)?;
    let (width, rest) = operand(alloc, WHOLE, rest)?;
    let (_, rest) = expect(Mark::CloseBracket, rest)?;
    let (names, rest) = two_names(rest)?;
    let (body, rest) = block(alloc, rest)?;
    let read = RoutineBlock {
        at: first.at,
        width,
        width_name: copy_of(alloc, names.0)?,
        id_name: copy_of(alloc, names.1)?,
        body,
    };
    Ok((read, rest))
}
