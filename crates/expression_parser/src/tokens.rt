//! Single tokens.

ghost use Rattle.std.specs.Prelude.{◌≡◌, ◌<◌, ◌∷◌, ◌↔◌, IsTrue, IfOk, MatchOption, length};
ghost use Rattle.csl_tree.specs.declared.token.TokenKind.TheVariants as kind;
ghost use Rattle.csl_tree.specs.declared.token.Keyword.TheVariants as word;
ghost use Rattle.csl_tree.specs.declared.token.Mark.TheVariants as mark;
ghost use Rattle.csl_tree.specs.declared.token.Token.{Token};
ghost use Rattle.csl_grammar.specs.Expressions.{level_of};
ghost use Rattle.csl_grammar.specs.Stops.{IsEnded, operator_of, BeginsOtherThan};
ghost use Rattle.expression_parser.specs.Reading.{Answers, BeginsAs, IsToken, NameTok, SizeTok, stops_anywhere, at_mark, prefix_of};
ghost use Rattle.expression_parser.specs.Reading.{number_of, natural_of, truth_of};

use crate::ParseError;
use cal_terms::NoMemory;
use csl_tree::name::{Name, Text};
use csl_tree::program::{ArraySize, BinaryOp, UnaryOp};
use csl_tree::token::{Keyword, Mark, Token, TokenKind};
use std::alloc::Global;

/// The first token, and those behind it.
pub fn front(tokens: &[Token]) -> (&Token, &[Token])
    requires { IsEnded tokens.now }
    ensures { tokens.now ≡ result.0.now ∷ result.1.now }
{
    match tokens {
        [first, rest @ ..] => (first, rest),
        [] => unreachable!(),
    }
}

/// Whether a token is that mark.
pub fn is_mark(token: &Token, mark: Mark) -> bool
    ensures { IsTrue result ↔ (token.now.kind ≡ kind.Mark mark) }
{
    match token.kind {
        TokenKind::Mark(m) => m == mark,
        _ => false,
    }
}

/// Whether a token is the end.
pub fn is_end(token: &Token) -> bool
    ensures { IsTrue result ↔ (token.now.kind ≡ kind.End) }
{
    match token.kind {
        TokenKind::End => true,
        _ => false,
    }
}

/// The mark at the front, and the tokens behind it.
pub fn expect<'a>(mark: Mark, tokens: &'a [Token]) -> Result<(&'a Token, &'a [Token]), ParseError>
    requires { IsEnded tokens.now }
    ensures answer { Answers (IsToken (kind.Mark mark)) stops_anywhere tokens.now (λ x. (x.0.now, x.1.now)) result }
    ensures shorter { IfOk result (λ x. length x.1.now < length tokens.now) }
{
    let (first, rest) = front(tokens);
    if is_mark(first, mark) {
        Ok((first, rest))
    } else {
        Err(ParseError::Unexpected(first.at))
    }
}

/// The tokens behind a comma, if one is at the front.
pub fn comma(tokens: &[Token]) -> Option<&[Token]>
    requires { IsEnded tokens.now }
    ensures { MatchOption result (BeginsOtherThan (kind.Mark mark.Comma) tokens.now)
        (λ rest. (sign : Token) × IsToken (kind.Mark mark.Comma) tokens.now rest.now sign) }
{
    let (first, rest) = front(tokens);
    if is_mark(first, Mark::Comma) {
        Some(rest)
    } else {
        None
    }
}

/// How loosely an operator binds.
pub fn looseness(op: BinaryOp) -> u8
    ensures { result ≡ level_of op }
{
    match op {
        BinaryOp::Mul | BinaryOp::Div | BinaryOp::Rem => 1,
        BinaryOp::Add | BinaryOp::Sub => 2,
        BinaryOp::Lt | BinaryOp::Le | BinaryOp::Gt | BinaryOp::Ge => 3,
        BinaryOp::Eq | BinaryOp::Ne => 4,
        BinaryOp::And => 5,
        BinaryOp::Or => 6,
    }
}

/// The operator between operands that a token is.
pub fn operator(token: &Token) -> Option<BinaryOp>
    ensures { result ≡ at_mark operator_of token.now.kind }
{
    let TokenKind::Mark(mark) = token.kind else {
        return None;
    };
    match mark {
        Mark::Star => Some(BinaryOp::Mul),
        Mark::Slash => Some(BinaryOp::Div),
        Mark::Percent => Some(BinaryOp::Rem),
        Mark::Plus => Some(BinaryOp::Add),
        Mark::Minus => Some(BinaryOp::Sub),
        Mark::Less => Some(BinaryOp::Lt),
        Mark::LessEqual => Some(BinaryOp::Le),
        Mark::Greater => Some(BinaryOp::Gt),
        Mark::GreaterEqual => Some(BinaryOp::Ge),
        Mark::Equal => Some(BinaryOp::Eq),
        Mark::NotEqual => Some(BinaryOp::Ne),
        Mark::AndAnd => Some(BinaryOp::And),
        Mark::OrOr => Some(BinaryOp::Or),
        _ => None,
    }
}

/// The operator before an operand that a token is.
pub fn prefix(token: &Token) -> Option<UnaryOp>
    ensures { result ≡ at_mark prefix_of token.now.kind }
{
    match token.kind {
        TokenKind::Mark(Mark::Minus) => Some(UnaryOp::Neg),
        TokenKind::Mark(Mark::Bang) => Some(UnaryOp::Not),
        _ => None,
    }
}

/// The number that a token is.
pub fn number(token: &Token) -> Option<i64>
    ensures { result ≡ number_of token.now.kind }
{
    match token.kind {
        TokenKind::Number(n) => Some(n),
        _ => None,
    }
}

/// The truth value that a token is.
pub fn truth(token: &Token) -> Option<bool>
    ensures { result ≡ truth_of token.now.kind }
{
    match token.kind {
        TokenKind::Word(Keyword::True) => Some(true),
        TokenKind::Word(Keyword::False) => Some(false),
        _ => None,
    }
}

/// A name of its own, equal to the token's.
pub fn copy_of(alloc: Global, name: &Name) -> Result<Name, NoMemory>
    ensures { IfOk result (λ copy. copy ≡ name.now) }
{
    Ok(Name {
        text: Text::from_slice(alloc, name.text.as_slice())?,
        at: name.at,
    })
}

/// Whether a token is that keyword.
pub fn is_word(token: &Token, word: Keyword) -> bool
    ensures { IsTrue result ↔ (token.now.kind ≡ kind.Word word) }
{
    match token.kind {
        TokenKind::Word(w) => w == word,
        _ => false,
    }
}

/// The keyword at the front, and the tokens behind it.
pub fn expect_word<'a>(
    word: Keyword,
    tokens: &'a [Token],
) -> Result<(&'a Token, &'a [Token]), ParseError>
    requires { IsEnded tokens.now }
    ensures answer { Answers (IsToken (kind.Word word)) stops_anywhere tokens.now (λ x. (x.0.now, x.1.now)) result }
    ensures shorter { IfOk result (λ x. length x.1.now < length tokens.now) }
{
    let (first, rest) = front(tokens);
    if is_word(first, word) {
        Ok((first, rest))
    } else {
        Err(ParseError::Unexpected(first.at))
    }
}

/// The name at the front, and the tokens behind it.
pub fn expect_name(tokens: &[Token]) -> Result<(&Name, &[Token]), ParseError>
    requires { IsEnded tokens.now }
    ensures answer { Answers NameTok stops_anywhere tokens.now (λ x. (x.0.now, x.1.now)) result }
    ensures shorter { IfOk result (λ x. length x.1.now < length tokens.now) }
{
    let (first, rest) = front(tokens);
    match &first.kind {
        TokenKind::Named(name) => Ok((name, rest)),
        _ => Err(ParseError::Unexpected(first.at)),
    }
}

/// The number at the front, and the tokens behind it.
pub fn expect_number(tokens: &[Token]) -> Result<(ArraySize, &[Token]), ParseError>
    requires { IsEnded tokens.now }
    ensures answer { Answers SizeTok stops_anywhere tokens.now (λ x. (x.0, x.1.now)) result }
    ensures shorter { IfOk result (λ x. length x.1.now < length tokens.now) }
{
    let (first, rest) = front(tokens);
    match number(first) {
        Some(number) => {
            let size = ArraySize {
                at: first.at,
                number,
            };
            Ok((size, rest))
        }
        None => Err(ParseError::Unexpected(first.at)),
    }
}

/// The number that a token is, unless it is negative.
pub fn natural(token: &Token) -> Option<i64>
    ensures { result ≡ natural_of token.now.kind }
{
    match number(token) {
        Some(n) => { if n < 0 { None } else { Some(n) } }
        None => None,
    }
}

/// The tokens, unless they begin with that mark.
pub fn unless_mark(mark: Mark, tokens: &[Token]) -> Option<&[Token]>
    requires { IsEnded tokens.now }
    ensures { MatchOption result (BeginsAs (kind.Mark mark) tokens.now)
        (λ here. (here.now ≡ tokens.now) × BeginsOtherThan (kind.Mark mark) tokens.now) }
{
    let (first, _) = front(tokens);
    if is_mark(first, mark) {
        None
    } else {
        Some(tokens)
    }
}

/// The tokens, unless they begin with that keyword.
pub fn unless_word(word: Keyword, tokens: &[Token]) -> Option<&[Token]>
    requires { IsEnded tokens.now }
    ensures { MatchOption result (BeginsAs (kind.Word word) tokens.now)
        (λ here. (here.now ≡ tokens.now) × BeginsOtherThan (kind.Word word) tokens.now) }
{
    let (first, _) = front(tokens);
    if is_word(first, word) {
        None
    } else {
        Some(tokens)
    }
}

/// The tokens behind an `else`, if one is at the front.
pub fn behind_else(tokens: &[Token]) -> Option<&[Token]>
    requires { IsEnded tokens.now }
    ensures { MatchOption result (BeginsOtherThan (kind.Word word.Else) tokens.now)
        (λ rest. (first : Token) × IsToken (kind.Word word.Else) tokens.now rest.now first) }
{
    let (first, rest) = front(tokens);
    if is_word(first, Keyword::Else) {
        Some(rest)
    } else {
        None
    }
}
