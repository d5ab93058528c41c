//! Lists: elements with commas between, and elements one behind another.

ghost use Rattle.std.specs.Prelude.{◌≡◌, ◌<◌, [], IfOk, length};
ghost use Rattle.csl_grammar.specs.Stops.{IsEnded};
ghost use Rattle.expression_parser.specs.Reading.{Answers, ListUntil, Parting, Repeating, Until, stops_anywhere};

use crate::ParseError;
use crate::tokens::{comma, front};
use csl_tree::token::Token;
use sqlite_items::Items;
use std::alloc::Global;

/// What a list is read of: its elements, and the token behind the last of them.
pub trait Element {
    ghost use Rattle.std.specs.Prelude.{◌≡◌, ◌<◌, ◌↔◌, List, IsTrue, IfOk, length};
    ghost use Rattle.csl_tree.specs.declared.token.Token.{Token};
    ghost use Rattle.csl_tree.specs.declared.token.TokenKind.{TokenKind};
    ghost use Rattle.csl_grammar.specs.Stops.{IsEnded};
    ghost use Rattle.expression_parser.specs.Reading.{Answers};

    /// An element, read.
    type Tree: Drop;

    /// The kind of the token behind the last element.
    ghost closing: { TokenKind };

    /// The rule of an element.
    ghost spells: { List Token → List Token → Self.Tree → Type 0 };

    /// Which tokens may stand behind an element.
    ghost stops: { List Token → Type 0 };

    /// Whether a token closes the list.
    fn closes(token: &Token) -> bool
        ensures { IsTrue result ↔ (token.now.kind ≡ closing) };

    /// The element at the front, and the tokens behind it.
    fn read(alloc: Global, tokens: &[Token]) -> Result<(Self::Tree, &[Token]), ParseError>
        requires { IsEnded tokens.now }
        ensures answer { Answers spells stops tokens.now (λ x. (x.0, x.1.now)) result }
        ensures shorter { IfOk result (λ x. length x.1.now < length tokens.now) };
}

/// Elements with commas between, and the token behind them.
pub fn with_commas<E: Element>(
    alloc: Global,
    tokens: &[Token],
) -> Result<(Items<E::Tree>, &[Token]), ParseError>
    requires elements { Parting E.closing E.spells E.stops }
    requires ended { IsEnded tokens.now }
    ensures answer { Answers (ListUntil E.closing E.spells) stops_anywhere tokens.now (λ x. (x.0, x.1.now)) result }
    ensures shorter { IfOk result (λ x. length x.1.now < length tokens.now) }
{
    let mut elements = Items::new(alloc);
    let (next, rest) = front(tokens);
    if E::closes(next) {
        return Ok((elements, rest));
    }
    let (first, mut rest) = E::read(alloc, tokens)?;
    elements.push(first)?;
    'more: while let Some(behind) = comma(rest) {
        let (another, left) = E::read(alloc, behind)?;
        elements.push(another)?;
        rest = left;
    }
    let (last, rest) = front(rest);
    if E::closes(last) {
        Ok((elements, rest))
    } else {
        Err(ParseError::Unexpected(last.at))
    }
}

/// Elements one behind another, and the token behind them.
pub fn one_by_one<E: Element>(
    alloc: Global,
    tokens: &[Token],
) -> Result<(Items<E::Tree>, &[Token]), ParseError>
    requires elements { Repeating E.closing E.spells E.stops }
    requires ended { IsEnded tokens.now }
    ensures { Answers (Until E.closing E.spells []) stops_anywhere tokens.now (λ x. (x.0, x.1.now)) result }
{
    let mut elements = Items::new(alloc);
    let mut rest = tokens;
    'more: loop {
        let (next, behind) = front(rest);
        if E::closes(next) {
            return Ok((elements, behind));
        }
        let (another, left) = E::read(alloc, rest)?;
        elements.push(another)?;
        rest = left;
    }
}
