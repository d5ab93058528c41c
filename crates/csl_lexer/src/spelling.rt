//! Keywords and marks by their bytes.

ghost use Rattle.std.specs.Prelude.{◌≡◌, ◌≢◌, ◌∷◌, [], None, IfSome};
ghost use Rattle.csl_tree.specs.declared.token.Keyword.{Keyword as SomeKeyword};
ghost use Rattle.csl_tree.specs.declared.token.Mark.{Mark as SomeMark};
ghost use Rattle.csl_lexer.specs.Tokens.{written, spelled};
ghost use Rattle.csl_lexer.specs.Steps.{LongestMark, NoMark};

use csl_tree::token::{Keyword, Mark};

/// The keyword that the bytes are.
pub fn keyword(bytes: &[u8]) -> Option<Keyword>
    ensures found { IfSome result (λ w. bytes.now ≡ written w) }
    ensures none { result ≡ None → (w : SomeKeyword) → bytes.now ≢ written w }
{
    match bytes {
        b"shared" => Some(Keyword::Shared),
        b"int" => Some(Keyword::Int),
        b"bool" => Some(Keyword::Bool),
        b"void" => Some(Keyword::Void),
        b"tally" => Some(Keyword::Tally),
        b"main" => Some(Keyword::Main),
        b"routine" => Some(Keyword::Routine),
        b"parbegin" => Some(Keyword::Parbegin),
        b"parend" => Some(Keyword::Parend),
        b"if" => Some(Keyword::If),
        b"else" => Some(Keyword::Else),
        b"while" => Some(Keyword::While),
        b"for" => Some(Keyword::For),
        b"break" => Some(Keyword::Break),
        b"continue" => Some(Keyword::Continue),
        b"return" => Some(Keyword::Return),
        b"assert" => Some(Keyword::Assert),
        b"print" => Some(Keyword::Print),
        b"true" => Some(Keyword::True),
        b"false" => Some(Keyword::False),
        b"least" => Some(Keyword::Least),
        b"greatest" => Some(Keyword::Greatest),
        _ => None,
    }
}

/// The longest mark at the front of the bytes, and how many bytes it takes.
pub fn mark(bytes: &[u8]) -> Option<(Mark, usize)>
    ensures found { IfSome result (λ x. LongestMark bytes.now x.0 x.1) }
    ensures none { result ≡ None → NoMark bytes.now }
{
    if let [first, second, ..] = bytes
        && let Some(mark) = double_mark(*first, *second)
    {
        return Some((mark, 2));
    }
    let [first, ..] = bytes else {
        return None;
    };
    single_mark(*first).map(|mark| (mark, 1))
}

/// The mark of two bytes that they are.
fn double_mark(first: u8, second: u8) -> Option<Mark>
    ensures found { IfSome result (λ m. spelled m ≡ first ∷ second ∷ []) }
    ensures none { result ≡ None → (m : SomeMark) → spelled m ≢ first ∷ second ∷ [] }
{
    match (first, second) {
        (b'+', b'=') => Some(Mark::AddAssign),
        (b'=', b'=') => Some(Mark::Equal),
        (b'!', b'=') => Some(Mark::NotEqual),
        (b'<', b'=') => Some(Mark::LessEqual),
        (b'>', b'=') => Some(Mark::GreaterEqual),
        (b'&', b'&') => Some(Mark::AndAnd),
        (b'|', b'|') => Some(Mark::OrOr),
        _ => None,
    }
}

/// The mark of one byte that it is.
fn single_mark(byte: u8) -> Option<Mark>
    ensures found { IfSome result (λ m. spelled m ≡ byte ∷ []) }
    ensures none { result ≡ None → (m : SomeMark) → spelled m ≢ byte ∷ [] }
{
    match byte {
        b'{' => Some(Mark::OpenBrace),
        b'}' => Some(Mark::CloseBrace),
        b'(' => Some(Mark::OpenParen),
        b')' => Some(Mark::CloseParen),
        b'[' => Some(Mark::OpenBracket),
        b']' => Some(Mark::CloseBracket),
        b',' => Some(Mark::Comma),
        b';' => Some(Mark::Semicolon),
        b'=' => Some(Mark::Assign),
        b'+' => Some(Mark::Plus),
        b'-' => Some(Mark::Minus),
        b'*' => Some(Mark::Star),
        b'/' => Some(Mark::Slash),
        b'%' => Some(Mark::Percent),
        b'!' => Some(Mark::Bang),
        b'<' => Some(Mark::Less),
        b'>' => Some(Mark::Greater),
        _ => None,
    }
}
