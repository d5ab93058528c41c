//! Statements that hold no statements.

ghost use Rattle.std.specs.Prelude.{◌≡◌, ◌<◌, ◌≤◌, IfOk, length};
ghost use Rattle.csl_tree.specs.declared.token.TokenKind.TheVariants as kind;
ghost use Rattle.csl_tree.specs.declared.program.Item.TheVariants as item;
ghost use Rattle.csl_grammar.specs.Expressions.{whole};
ghost use Rattle.csl_grammar.specs.Programs.{SpellsStmt, stmt, type_word};
ghost use Rattle.csl_grammar.specs.Stops.{IsEnded, Stops};
ghost use Rattle.expression_parser.specs.Reading.{Answers, Ret, behind};
ghost use Rattle.statement_parser.specs.Statements.{NoElse, EndsAs, DeclRest, Changing, ChangeRest, IndexedRest, CallRest, ReturnRest};
ghost use Rattle.statement_parser.specs.Statements.{AssertRest, PrintRest};

use csl_tree::name::Name;
use csl_tree::program::{Call, Form, Item, Place, Stmt, Ty};
use csl_tree::token::{Keyword, Mark, Token, TokenKind};
use expression_parser::ParseError;
use expression_parser::expr::{WHOLE, arguments, operand};
use expression_parser::lists::{Element, with_commas};
use expression_parser::tokens::{copy_of, expect, expect_name, front, is_mark, is_word, operator};
use sqlite_items::Boxed;
use std::alloc::Global;

/// The semicolon behind a statement.
pub fn ended(s: Stmt, tokens: &[Token]) -> Result<(Stmt, &[Token]), ParseError>
    requires { IsEnded tokens.now }
    ensures answer { Answers (EndsAs s) NoElse tokens.now (λ x. (x.0, x.1.now)) result }
    ensures shorter { IfOk result (λ x. length x.1.now < length tokens.now) }
{
    let (_, rest) = expect(Mark::Semicolon, tokens)?;
    not_else(s, rest)
}

/// A statement whose tokens are all read. No `else` stands behind it.
pub fn not_else(s: Stmt, tokens: &[Token]) -> Result<(Stmt, &[Token]), ParseError>
    requires { IsEnded tokens.now }
    ensures answer { Answers (Ret s) NoElse tokens.now (λ x. (x.0, x.1.now)) result }
    ensures all { IfOk result (λ x. x.1.now ≡ tokens.now) }
{
    let (next, _) = front(tokens);
    if is_word(next, Keyword::Else) {
        return Err(ParseError::Unexpected(next.at));
    }
    Ok((s, tokens))
}

/// The declaration of a local, behind its type.
pub fn declaration<'a>(
    alloc: Global,
    first: &'a Token,
    ty: Ty,
    tokens: &'a [Token],
) -> Result<(Stmt, &'a [Token]), ParseError>
    requires { IsEnded tokens.now }
    ensures answer { Answers (DeclRest first.now ty) (Stops whole) tokens.now (λ x. (x.0, x.1.now)) result }
    ensures shorter { IfOk result (λ x. length x.1.now < length tokens.now) }
{
    let (name, rest) = expect_name(tokens)?;
    let (_, rest) = expect(Mark::Assign, rest)?;
    let (value, rest) = operand(alloc, WHOLE, rest)?;
    let name = copy_of(alloc, name)?;
    let declared = Stmt {
        at: first.at,
        form: Form::Declare { ty, name, value },
    };
    Ok((declared, rest))
}

/// A change, behind its name.
pub fn change<'a>(
    alloc: Global,
    first: &'a Token,
    name: &'a Name,
    tokens: &'a [Token],
) -> Result<(Stmt, &'a [Token]), ParseError>
    requires { IsEnded tokens.now }
    ensures answer { Answers (ChangeRest first.now name.now) (Stops whole) tokens.now (λ x. (x.0, x.1.now)) result }
    ensures shorter { IfOk result (λ x. length x.1.now < length tokens.now) }
{
    let (next, behind) = front(tokens);
    if is_mark(next, Mark::OpenBracket) {
        return indexed(alloc, first, name, behind);
    }
    let place = Place {
        name: copy_of(alloc, name)?,
        index: None,
    };
    changing(alloc, first, place, tokens)
}

/// A change of an array's item, behind the bracket.
fn indexed<'a>(
    alloc: Global,
    first: &'a Token,
    name: &'a Name,
    tokens: &'a [Token],
) -> Result<(Stmt, &'a [Token]), ParseError>
    requires { IsEnded tokens.now }
    ensures answer { Answers (IndexedRest first.now name.now) (Stops whole) tokens.now (λ x. (x.0, x.1.now)) result }
    ensures shorter { IfOk result (λ x. length x.1.now < length tokens.now) }
{
    let (index, rest) = operand(alloc, WHOLE, tokens)?;
    let (_, rest) = expect(Mark::CloseBracket, rest)?;
    let name = copy_of(alloc, name)?;
    let place = Place {
        name,
        index: Some(Boxed::new(alloc, index)?),
    };
    changing(alloc, first, place, rest)
}

/// What becomes of a place: the sign and the value.
fn changing<'a>(
    alloc: Global,
    first: &'a Token,
    place: Place,
    tokens: &'a [Token],
) -> Result<(Stmt, &'a [Token]), ParseError>
    requires { IsEnded tokens.now }
    ensures answer { Answers (Changing first.now place) (Stops whole) tokens.now (λ x. (x.0, x.1.now)) result }
    ensures shorter { IfOk result (λ x. length x.1.now < length tokens.now) }
{
    let (sign, rest) = front(tokens);
    if is_mark(sign, Mark::Assign) {
        let (value, rest) = operand(alloc, WHOLE, rest)?;
        let changed = Stmt {
            at: first.at,
            form: Form::Set { place, value },
        };
        return Ok((changed, rest));
    }
    if is_mark(sign, Mark::AddAssign) {
        let (value, rest) = operand(alloc, WHOLE, rest)?;
        let changed = Stmt {
            at: first.at,
            form: Form::AddTo { place, value },
        };
        return Ok((changed, rest));
    }
    Err(ParseError::Unexpected(sign.at))
}

/// A local as a statement, behind its type.
pub fn local<'a>(
    alloc: Global,
    first: &'a Token,
    ty: Ty,
    tokens: &'a [Token],
) -> Result<(Stmt, &'a [Token]), ParseError>
    requires kind { first.now.kind ≡ kind.Word (type_word ty) }
    requires ended { IsEnded tokens.now }
    ensures answer { Answers (behind first.now SpellsStmt) NoElse tokens.now (λ x. (x.0, x.1.now)) result }
    ensures shorter { IfOk result (λ x. length x.1.now < length tokens.now) }
{
    let (s, rest) = declaration(alloc, first, ty, tokens)?;
    ended(s, rest)
}

/// A statement that begins with a name, behind it: a change or a call.
pub fn named<'a>(
    alloc: Global,
    first: &'a Token,
    name: &'a Name,
    tokens: &'a [Token],
) -> Result<(Stmt, &'a [Token]), ParseError>
    requires kind { first.now.kind ≡ kind.Named name.now }
    requires ended { IsEnded tokens.now }
    ensures answer { Answers (behind first.now SpellsStmt) NoElse tokens.now (λ x. (x.0, x.1.now)) result }
    ensures shorter { IfOk result (λ x. length x.1.now < length tokens.now) }
{
    let (next, behind) = front(tokens);
    if is_mark(next, Mark::OpenParen) {
        return call(alloc, first, name, behind);
    }
    let (s, rest) = change(alloc, first, name, tokens)?;
    ended(s, rest)
}

/// A call as a statement, behind the parenthesis.
fn call<'a>(
    alloc: Global,
    first: &'a Token,
    name: &'a Name,
    tokens: &'a [Token],
) -> Result<(Stmt, &'a [Token]), ParseError>
    requires { IsEnded tokens.now }
    ensures answer { Answers (CallRest first.now name.now) NoElse tokens.now (λ x. (x.0, x.1.now)) result }
    ensures shorter { IfOk result (λ x. length x.1.now < length tokens.now) }
{
    let (args, rest) = arguments(alloc, tokens)?;
    let name = copy_of(alloc, name)?;
    let called = Stmt {
        at: first.at,
        form: Form::CallOf(Call { name, args }),
    };
    ended(called, rest)
}

/// A statement that is one keyword, behind it.
pub fn bare<'a>(
    first: &'a Token,
    form: Form,
    tokens: &'a [Token],
) -> Result<(Stmt, &'a [Token]), ParseError>
    requires { IsEnded tokens.now }
    ensures answer { Answers (EndsAs (stmt first.now.at form)) NoElse tokens.now (λ x. (x.0, x.1.now)) result }
    ensures shorter { IfOk result (λ x. length x.1.now < length tokens.now) }
{
    let s = Stmt { at: first.at, form };
    ended(s, tokens)
}

/// A `return`, behind the keyword.
pub fn returned<'a>(
    alloc: Global,
    first: &'a Token,
    tokens: &'a [Token],
) -> Result<(Stmt, &'a [Token]), ParseError>
    requires { IsEnded tokens.now }
    ensures answer { Answers (ReturnRest first.now) NoElse tokens.now (λ x. (x.0, x.1.now)) result }
    ensures shorter { IfOk result (λ x. length x.1.now < length tokens.now) }
{
    let (next, _) = front(tokens);
    if is_mark(next, Mark::Semicolon) {
        return bare(first, Form::Return(None), tokens);
    }
    let (value, rest) = operand(alloc, WHOLE, tokens)?;
    bare(first, Form::Return(Some(value)), rest)
}

/// An `assert`, behind the keyword.
pub fn assertion<'a>(
    alloc: Global,
    first: &'a Token,
    tokens: &'a [Token],
) -> Result<(Stmt, &'a [Token]), ParseError>
    requires { IsEnded tokens.now }
    ensures answer { Answers (AssertRest first.now) NoElse tokens.now (λ x. (x.0, x.1.now)) result }
    ensures shorter { IfOk result (λ x. length x.1.now < length tokens.now) }
{
    let (_, rest) = expect(Mark::OpenParen, tokens)?;
    let (test, rest) = operand(alloc, WHOLE, rest)?;
    let (_, rest) = expect(Mark::CloseParen, rest)?;
    bare(first, Form::Assert(test), rest)
}

/// A `print`, behind the keyword.
pub fn printed<'a>(
    alloc: Global,
    first: &'a Token,
    tokens: &'a [Token],
) -> Result<(Stmt, &'a [Token]), ParseError>
    requires { IsEnded tokens.now }
    ensures answer { Answers (PrintRest first.now) NoElse tokens.now (λ x. (x.0, x.1.now)) result }
    ensures shorter { IfOk result (λ x. length x.1.now < length tokens.now) }
{
    let (_, rest) = expect(Mark::OpenParen, tokens)?;
    let (items, rest) = with_commas::<PrintList>(alloc, rest)?;
    bare(first, Form::Print(items), rest)
}

/// What a `print` lists: texts and values.
struct PrintList;

impl Element for PrintList {
    ghost use Rattle.csl_tree.specs.declared.token.TokenKind.TheVariants as kind;
    ghost use Rattle.csl_tree.specs.declared.token.Mark.TheVariants as mark;
    ghost use Rattle.csl_grammar.specs.Expressions.{whole};
    ghost use Rattle.csl_grammar.specs.Programs.{SpellsItem};
    ghost use Rattle.csl_grammar.specs.Stops.{Stops};

    type Tree = Item;

    ghost closing = { kind.Mark mark.CloseParen };

    ghost spells = { SpellsItem };

    ghost stops = { Stops whole };

    fn closes(token: &Token) -> bool {
        is_mark(token, Mark::CloseParen)
    }

    // No operator stands behind it.
    fn read(alloc: Global, tokens: &[Token]) -> Result<(Item, &[Token]), ParseError> {
        let (first, rest) = front(tokens);
        if let TokenKind::Text(text) = &first.kind {
            return quoted(alloc, text, rest);
        }
        let (value, rest) = operand(alloc, WHOLE, tokens)?;
        Ok((Item::Value(value), rest))
    }
}

/// A text that is printed, behind it. No bracket and no operator stands there.
fn quoted<'a>(
    alloc: Global,
    text: &'a Name,
    tokens: &'a [Token],
) -> Result<(Item, &'a [Token]), ParseError>
    requires { IsEnded tokens.now }
    ensures answer { Answers (Ret (item.Text text.now)) (Stops whole) tokens.now (λ x. (x.0, x.1.now)) result }
    ensures all { IfOk result (λ x. x.1.now ≡ tokens.now) }
{
    let (next, _) = front(tokens);
    if is_mark(next, Mark::OpenBracket) {
        return Err(ParseError::Unexpected(next.at));
    }
    if is_mark(next, Mark::OpenParen) {
        return Err(ParseError::Unexpected(next.at));
    }
    match operator(next) {
        Some(_) => Err(ParseError::Unexpected(next.at)),
        None => {
            let text = copy_of(alloc, text)?;
            Ok((Item::Text(text), tokens))
        }
    }
}
