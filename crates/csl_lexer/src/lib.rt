//! The tokens of a text.
#![tactic(auto)]

ghost use Rattle.std.specs.Prelude.{◌≡◌, ◌≢◌, ◌≤◌, Ok, Err, IfOk, IfErr, length};
ghost use Rattle.csl_lexer.specs.declared.LexError.TheVariants as fault;
ghost use Rattle.csl_lexer.specs.Tokens.{IsTokenList, IsFirstFault};
ghost use Rattle.csl_lexer.specs.Laws.{ReadsOneWay, ListsEnd, PlacesAscend};

use crate::item::item;
use cal_terms::NoMemory;
use cal_terms::limits::MOST_TEXT;
use csl_tree::token::{Token, TokenKind};
use std::alloc::{AllocFailed, Global};

mod item;
mod scan;
mod spelling;

/// Why a text has no tokens: its first fault, by the place of the first byte of what is wrong.
#[derive(Clone, Copy, Debug, PartialEq, Eq)]
pub enum LexError {
    /// The byte begins no token, blank or comment.
    BadByte(u32),
    /// A name or keyword has more than 64 bytes.
    LongName(u32),
    /// A number is above 9223372036854775807.
    LongNumber(u32),
    /// `/*` has no `*/` behind it.
    OpenComment(u32),
    /// LF or the end of the text comes before the closing `"`.
    OpenText(u32),
    /// Memory was wanted and not there.
    NoMemory,
}

impl From<NoMemory> for LexError {
    ghost use Rattle.std.specs.Prelude.{◌≡◌};
    ghost use Rattle.csl_lexer.specs.declared.LexError.TheVariants as fault;

    ghost from_gives = { λ _ e. e ≡ fault.NoMemory };

    fn from(_: NoMemory) -> LexError {
        LexError::NoMemory
    }
}

impl<T: Drop> From<AllocFailed<T>> for LexError {
    ghost use Rattle.std.specs.Prelude.{◌≡◌};
    ghost use Rattle.csl_lexer.specs.declared.LexError.TheVariants as fault;

    ghost from_gives = { λ _ e. e ≡ fault.NoMemory };

    fn from(_: AllocFailed<T>) -> LexError {
        LexError::NoMemory
    }
}

/// The tokens of a text of at most 1,048,576 bytes, with the end of the text as the last one; or the text's first fault, or
/// `NoMemory` where there is no memory for the tokens.
pub fn lex(alloc: Global, text: &[u8]) -> Result<Vec<Token>, LexError>
    requires { length text.now ≤ MOST_TEXT }
    ensures tokens { IfOk result (λ tokens. IsTokenList text.now tokens.items) }
    ensures first_fault { IfErr result (λ e. e ≢ fault.NoMemory → IsFirstFault text.now e) }
{
    let mut tokens = Vec::new(alloc);
    let mut at = 0;
    'items: while at < text.len() {
        let (kind, length) = item(alloc, at as u32, &text[at..])?;
        if let Some(kind) = kind {
            tokens.push(Token {
                at: at as u32,
                kind,
            })?;
        }
        at += length;
    }
    tokens.push(Token {
        at: at as u32,
        kind: TokenKind::End,
    })?;
    Ok(tokens)
}

/// A text has one token list or one first fault.
pub fn one_reading()
    ensures { ReadsOneWay }
{}

/// The end is the last token and no other, at the text's length, and the places of the tokens ascend.
pub fn token_lists()
    ensures end { ListsEnd }
    ensures places { PlacesAscend }
{}
