//! Keywords and marks as they are written.

ghost use Rattle.std.specs.Prelude.{◌≡◌};
ghost use Rattle.csl_lexer.specs.Tokens.{written, spelled};

use csl_tree::token::{Keyword, Mark};

pub fn word_text(word: Keyword) -> &'static [u8]
    ensures { result.now ≡ written word }
{
    match word {
        Keyword::Shared => b"shared",
        Keyword::Int => b"int",
        Keyword::Bool => b"bool",
        Keyword::Void => b"void",
        Keyword::Tally => b"tally",
        Keyword::Main => b"main",
        Keyword::Routine => b"routine",
        Keyword::Parbegin => b"parbegin",
        Keyword::Parend => b"parend",
        Keyword::If => b"if",
        Keyword::Else => b"else",
        Keyword::While => b"while",
        Keyword::For => b"for",
        Keyword::Break => b"break",
        Keyword::Continue => b"continue",
        Keyword::Return => b"return",
        Keyword::Assert => b"assert",
        Keyword::Print => b"print",
        Keyword::True => b"true",
        Keyword::False => b"false",
        Keyword::Least => b"least",
        Keyword::Greatest => b"greatest",
    }
}

pub fn mark_text(mark: Mark) -> &'static [u8]
    ensures { result.now ≡ spelled mark }
{
    match mark {
        Mark::OpenBrace => b"{",
        Mark::CloseBrace => b"}",
        Mark::OpenParen => b"(",
        Mark::CloseParen => b")",
        Mark::OpenBracket => b"[",
        Mark::CloseBracket => b"]",
        Mark::Comma => b",",
        Mark::Semicolon => b";",
        Mark::Assign => b"=",
        Mark::AddAssign => b"+=",
        Mark::Plus => b"+",
        Mark::Minus => b"-",
        Mark::Star => b"*",
        Mark::Slash => b"/",
        Mark::Percent => b"%",
        Mark::Bang => b"!",
        Mark::Equal => b"==",
        Mark::NotEqual => b"!=",
        Mark::Less => b"<",
        Mark::LessEqual => b"<=",
        Mark::Greater => b">",
        Mark::GreaterEqual => b">=",
        Mark::AndAnd => b"&&",
        Mark::OrOr => b"||",
    }
}
