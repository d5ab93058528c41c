//! Which statements hold statements, and the others by their first token.

ghost use Rattle.std.specs.Prelude.{◌≡◌, ◌≤◌, ◌∷◌, None, IfOk, length};
ghost use Rattle.csl_tree.specs.declared.token.TokenKind.TheVariants as kind;
ghost use Rattle.csl_tree.specs.declared.token.Mark.TheVariants as mark;
ghost use Rattle.csl_tree.specs.declared.name.Name.{Name};
ghost use Rattle.csl_grammar.specs.Programs.{SpellsStmt};
ghost use Rattle.csl_grammar.specs.Stops.{IsEnded};
ghost use Rattle.expression_parser.specs.Reading.{Answers};
ghost use Rattle.statement_parser.specs.Statements.{NoElse};
ghost use Rattle.statement_parser.specs.Leaves.{holding_of};

use crate::simple::{assertion, bare, local, printed, returned};
use csl_tree::program::{Form, Stmt, Ty};
use csl_tree::token::{Keyword, Token, TokenKind};
use expression_parser::ParseError;
use expression_parser::tokens::is_word;
use std::alloc::Global;

/// The statements with a keyword of their own that hold statements.
#[derive(Clone, Copy, Debug, PartialEq, Eq)]
pub enum Holding {
    If,
    While,
    For,
    Parallel,
}

/// The form that a keyword begins, if it holds statements.
pub fn held_form(token: &Token) -> Option<Holding>
    ensures { result ≡ holding_of token.now.kind }
{
    match token.kind {
        TokenKind::Word(Keyword::If) => Some(Holding::If),
        TokenKind::Word(Keyword::While) => Some(Holding::While),
        TokenKind::Word(Keyword::For) => Some(Holding::For),
        TokenKind::Word(Keyword::Parbegin) => Some(Holding::Parallel),
        _ => None,
    }
}

/// A statement that begins with a keyword and holds no statements.
pub fn leaf<'a>(
    alloc: Global,
    first: &'a Token,
    tokens: &'a [Token],
) -> Result<(Stmt, &'a [Token]), ParseError>
    requires no_name { (n : Name) → first.now.kind ≡ kind.Named n → ⊥ }
    requires no_brace { first.now.kind ≡ kind.Mark mark.OpenBrace → ⊥ }
    requires holds_none { holding_of first.now.kind ≡ None }
    requires ended { IsEnded (first.now ∷ tokens.now) }
    ensures answer { Answers SpellsStmt NoElse (first.now ∷ tokens.now) (λ x. (x.0, x.1.now)) result }
    ensures shorter { IfOk result (λ x. length x.1.now ≤ length tokens.now) }
{
    if is_word(first, Keyword::Int) {
        return local(alloc, first, Ty::Int, tokens);
    }
    if is_word(first, Keyword::Bool) {
        return local(alloc, first, Ty::Bool, tokens);
    }
    if is_word(first, Keyword::Break) {
        return bare(first, Form::Break, tokens);
    }
    if is_word(first, Keyword::Continue) {
        return bare(first, Form::Continue, tokens);
    }
    if is_word(first, Keyword::Return) {
        return returned(alloc, first, tokens);
    }
    if is_word(first, Keyword::Assert) {
        return assertion(alloc, first, tokens);
    }
    if is_word(first, Keyword::Print) {
        return printed(alloc, first, tokens);
    }
    Err(ParseError::Unexpected(first.at))
}
