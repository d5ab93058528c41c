//! The item at the front of some bytes: a blank, a comment or a token.

ghost use Rattle.std.specs.Prelude.{◌≡◌, ◌≤◌, ◌<◌, ◌∷◌, IfOk, length, slice_index};
ghost use Rattle.csl_lexer.specs.Tokens.{IsWord, IsLetter, IsDigit};
ghost use Rattle.csl_lexer.specs.Steps.{Steps, IsOther};

use crate::LexError;
use crate::scan::{ByteClass, closing, is_blank, is_letter, run_length, value};
use crate::spelling::{keyword, mark};
use cal_terms::NoMemory;
use csl_tree::name::{Name, Text};
use csl_tree::token::TokenKind;
use std::alloc::Global;

/// The most bytes of a name or keyword.
const MOST_NAME_BYTES: usize = 64;

/// A token, or none for a blank or a comment, and how many bytes it takes.
type Piece = (Option<TokenKind>, usize);

/// What stands at the front of bytes that begin at a place of the text.
pub fn item(alloc: Global, at: u32, bytes: &[u8]) -> Result<Piece, LexError>
    requires { 0 < length bytes.now }
    ensures { Steps at bytes.now result }
{
    let first = bytes[0];
    if is_blank(first) {
        Ok((None, 1))
    } else if is_letter(first) {
        word(alloc, at, bytes)
    } else if first.is_ascii_digit() {
        number(at, bytes)
    } else if let Some(inner) = bytes.strip_prefix(b"\"") {
        text(alloc, at, inner)
    } else if let Some(body) = bytes.strip_prefix(b"//") {
        Ok((None, 2 + run_length(ByteClass::InLine, body)))
    } else if let Some(body) = bytes.strip_prefix(b"/*") {
        block_comment(at, body)
    } else {
        sign(at, bytes)
    }
}

/// A block comment, from behind its `/*` on.
fn block_comment(at: u32, body: &[u8]) -> Result<Piece, LexError>
    ensures { Steps at (47 ∷ 42 ∷ body.now) result }
{
    match closing(body) {
        Some(length) => Ok((None, length + 4)),
        None => Err(LexError::OpenComment(at)),
    }
}

/// A text, from behind its first quote on.
fn text(alloc: Global, at: u32, inner: &[u8]) -> Result<Piece, LexError>
    ensures { Steps at (34 ∷ inner.now) result }
{
    let length = run_length(ByteClass::InText, inner);
    if length < inner.len() && inner[length] == b'"' {
        let text = Text::from_slice(alloc, &inner[..length])?;
        Ok((Some(TokenKind::Text(Name { text, at })), length + 2))
    } else {
        Err(LexError::OpenText(at))
    }
}

/// A name or a keyword, from its first letter on.
fn word(alloc: Global, at: u32, bytes: &[u8]) -> Result<Piece, LexError>
    requires some { 0 < length bytes.now }
    requires letter { IsLetter (slice_index bytes.now 0) }
    ensures { Steps at bytes.now result }
{
    let length = run_length(ByteClass::InName, bytes);
    if length > MOST_NAME_BYTES {
        return Err(LexError::LongName(at));
    }
    let kind = word_kind(alloc, at, &bytes[..length])?;
    Ok((Some(kind), length))
}

/// The keyword or the name that the bytes are.
fn word_kind(alloc: Global, at: u32, bytes: &[u8]) -> Result<TokenKind, NoMemory>
    ensures { IfOk result (λ kind. IsWord at bytes.now kind) }
{
    if let Some(word) = keyword(bytes) {
        return Ok(TokenKind::Word(word));
    }
    let text = Text::from_slice(alloc, bytes)?;
    Ok(TokenKind::Named(Name { text, at }))
}

/// A number, from its first digit on.
fn number(at: u32, bytes: &[u8]) -> Result<Piece, LexError>
    requires some { 0 < length bytes.now }
    requires digit { IsDigit (slice_index bytes.now 0) }
    ensures { Steps at bytes.now result }
{
    let length = run_length(ByteClass::InNumber, bytes);
    match value(&bytes[..length]) {
        Some(number) => Ok((Some(TokenKind::Number(number)), length)),
        None => Err(LexError::LongNumber(at)),
    }
}

/// A mark, or else a byte that begins nothing.
fn sign(at: u32, bytes: &[u8]) -> Result<Piece, LexError>
    requires some { 0 < length bytes.now }
    requires other { IsOther bytes.now }
    ensures { Steps at bytes.now result }
{
    match mark(bytes) {
        Some((mark, length)) => Ok((Some(TokenKind::Mark(mark)), length)),
        None => Err(LexError::BadByte(at)),
    }
}
