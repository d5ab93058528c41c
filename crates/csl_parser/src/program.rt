//! Functions and programs.

ghost use Rattle.std.specs.Prelude.{◌≡◌, ◌≢◌, ◌<◌, IfOk, MatchOption, length};
ghost use Rattle.csl_tree.specs.declared.token.TokenKind.TheVariants as kind;
ghost use Rattle.cal_terms.specs.declared.types.Ty.{Ty};
ghost use Rattle.cal_terms.specs.declared.types.Gives.{Gives};
ghost use Rattle.csl_grammar.specs.Programs.{type_word, result_word};
ghost use Rattle.csl_grammar.specs.Stops.{IsEnded};
ghost use Rattle.expression_parser.specs.Reading.{Answers, stops_anywhere};
ghost use Rattle.csl_parser.specs.Program.{ParamRest, FunctionRest, ProgramTokens, Tells};

use crate::decl::SharedList;
use csl_tree::program::{Function, Gives, Param, Program, Ty};
use csl_tree::token::{Keyword, Mark, Token, TokenKind};
use expression_parser::ParseError;
use expression_parser::lists::{Element, one_by_one, with_commas};
use expression_parser::tokens::{
    copy_of, expect, expect_name, expect_word, front, is_end, is_mark, is_word,
};
use statement_parser::stmt::block;
use std::alloc::Global;

/// The program that the tokens spell, whatever their levels.
pub fn program(alloc: Global, tokens: &[Token]) -> Result<Program, ParseError>
    requires { IsEnded tokens.now }
    ensures { Tells tokens.now result }
{
    let (read, rest) = unended(alloc, tokens)?;
    let (next, _) = front(rest);
    if is_end(next) {
        Ok(read)
    } else {
        Err(ParseError::Unexpected(next.at))
    }
}

/// A program but for its end.
fn unended(alloc: Global, tokens: &[Token]) -> Result<(Program, &[Token]), ParseError>
    requires { IsEnded tokens.now }
    ensures { Answers ProgramTokens stops_anywhere tokens.now (λ x. (x.0, x.1.now)) result }
{
    let (_, rest) = expect_word(Keyword::Shared, tokens)?;
    let (_, rest) = expect(Mark::OpenBrace, rest)?;
    let (shared, rest) = one_by_one::<SharedList>(alloc, rest)?;
    let (functions, rest) = one_by_one::<FunctionList>(alloc, rest)?;
    let (main, rest) = block(alloc, rest)?;
    let read = Program {
        shared,
        functions,
        main,
    };
    Ok((read, rest))
}

/// The functions of a program, up to its `main`.
struct FunctionList;

impl Element for FunctionList {
    ghost use Rattle.csl_tree.specs.declared.token.TokenKind.TheVariants as kind;
    ghost use Rattle.csl_tree.specs.declared.token.Keyword.TheVariants as word;
    ghost use Rattle.csl_grammar.specs.Programs.{SpellsFunction};
    ghost use Rattle.expression_parser.specs.Reading.{stops_anywhere};

    type Tree = Function;

    ghost closing = { kind.Word word.Main };

    ghost spells = { SpellsFunction };

    ghost stops = { stops_anywhere };

    fn closes(token: &Token) -> bool {
        is_word(token, Keyword::Main)
    }

    fn read(alloc: Global, tokens: &[Token]) -> Result<(Function, &[Token]), ParseError> {
        let (first, rest) = front(tokens);
        match result_type(first) {
            Some(gives) => signature(alloc, gives, rest),
            None => Err(ParseError::Unexpected(first.at)),
        }
    }
}

/// A function, behind the word for what it gives.
fn signature(
    alloc: Global,
    gives: Gives,
    tokens: &[Token],
) -> Result<(Function, &[Token]), ParseError>
    requires { IsEnded tokens.now }
    ensures answer { Answers (FunctionRest gives) stops_anywhere tokens.now (λ x. (x.0, x.1.now)) result }
    ensures shorter { IfOk result (λ x. length x.1.now < length tokens.now) }
{
    let (name, rest) = expect_name(tokens)?;
    let (_, rest) = expect(Mark::OpenParen, rest)?;
    let (params, rest) = with_commas::<ParameterList>(alloc, rest)?;
    let (body, rest) = block(alloc, rest)?;
    let declared = Function {
        name: copy_of(alloc, name)?,
        gives,
        params,
        body,
    };
    Ok((declared, rest))
}

/// The parameters of a function.
struct ParameterList;

impl Element for ParameterList {
    ghost use Rattle.csl_tree.specs.declared.token.TokenKind.TheVariants as kind;
    ghost use Rattle.csl_tree.specs.declared.token.Mark.TheVariants as mark;
    ghost use Rattle.csl_grammar.specs.Programs.{SpellsParam};
    ghost use Rattle.expression_parser.specs.Reading.{stops_anywhere};

    type Tree = Param;

    ghost closing = { kind.Mark mark.CloseParen };

    ghost spells = { SpellsParam };

    ghost stops = { stops_anywhere };

    fn closes(token: &Token) -> bool {
        is_mark(token, Mark::CloseParen)
    }

    fn read(alloc: Global, tokens: &[Token]) -> Result<(Param, &[Token]), ParseError> {
        let (first, rest) = front(tokens);
        match type_of(first) {
            Some(ty) => named(alloc, ty, rest),
            None => Err(ParseError::Unexpected(first.at)),
        }
    }
}

/// A parameter, behind its type.
fn named(alloc: Global, ty: Ty, tokens: &[Token]) -> Result<(Param, &[Token]), ParseError>
    requires { IsEnded tokens.now }
    ensures answer { Answers (ParamRest ty) stops_anywhere tokens.now (λ x. (x.0, x.1.now)) result }
    ensures shorter { IfOk result (λ x. length x.1.now < length tokens.now) }
{
    let (name, rest) = expect_name(tokens)?;
    let declared = Param {
        name: copy_of(alloc, name)?,
        ty,
    };
    Ok((declared, rest))
}

/// The type that a token is the word of.
fn type_of(token: &Token) -> Option<Ty>
    ensures { MatchOption result ((t : Ty) → token.now.kind ≢ kind.Word (type_word t)) (λ t. token.now.kind ≡ kind.Word (type_word t)) }
{
    match token.kind {
        TokenKind::Word(Keyword::Int) => Some(Ty::Int),
        TokenKind::Word(Keyword::Bool) => Some(Ty::Bool),
        _ => None,
    }
}

/// What a function gives that begins with a token.
fn result_type(token: &Token) -> Option<Gives>
    ensures { MatchOption result ((g : Gives) → token.now.kind ≢ kind.Word (result_word g))
        (λ g. token.now.kind ≡ kind.Word (result_word g)) }
{
    match token.kind {
        TokenKind::Word(Keyword::Void) => Some(Gives::Nothing),
        TokenKind::Word(Keyword::Int) => Some(Gives::Int),
        TokenKind::Word(Keyword::Bool) => Some(Gives::Bool),
        _ => None,
    }
}
