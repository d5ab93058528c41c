//! What tokens do to the lines that they are laid out on.

ghost use Rattle.std.specs.Prelude.{◌≡◌, ◌<◌};
ghost use Rattle.csl_print.specs.Canonical as canonical;
ghost use Rattle.csl_print.specs.Layout as layout;

use csl_tree::token::{Keyword, Mark};

/// What a token does to the lines.
#[derive(Clone, Copy, PartialEq, Eq, Debug)]
pub enum Turn {
    /// `{` and `parbegin`: a line ends behind it, and those behind it are set in one step more.
    Opens,
    /// `}`: its line and those behind it are set in one step less, and a line ends behind it.
    Closes,
    /// `parend`: its line and those behind it are set in one step less.
    Leaves,
    /// `;`: a line ends behind it.
    Ends,
    /// `(`: no line ends before its `)`.
    OpensParen,
    ClosesParen,
    Stays,
}

/// What comes between two tokens.
#[derive(Clone, Copy, PartialEq, Eq, Debug)]
pub enum Gap {
    /// The text begins.
    Start,
    Blank,
    /// A line ends, and the next begins.
    Line,
}

pub fn turn_of_mark(mark: Mark) -> Turn
    ensures { result ≡ canonical.turn_of_mark mark }
{
    match mark {
        Mark::OpenBrace => Turn::Opens,
        Mark::CloseBrace => Turn::Closes,
        Mark::Semicolon => Turn::Ends,
        Mark::OpenParen => Turn::OpensParen,
        Mark::CloseParen => Turn::ClosesParen,
        _ => Turn::Stays,
    }
}

pub fn turn_of_word(word: Keyword) -> Turn
    ensures { result ≡ canonical.turn_of_word word }
{
    match word {
        Keyword::Parbegin => Turn::Opens,
        Keyword::Parend => Turn::Leaves,
        _ => Turn::Stays,
    }
}

/// How many `{` and `parbegin` are open behind a token.
pub fn nested(turn: Turn, depth: usize) -> usize
    requires { depth < usize.MAX }
    ensures { result ≡ canonical.nested turn depth }
{
    match turn {
        Turn::Opens => depth + 1,
        Turn::Closes | Turn::Leaves => depth.saturating_sub(1),
        _ => depth,
    }
}

/// How many `(` are open behind a token.
pub fn enclosed(turn: Turn, parens: usize) -> usize
    requires { parens < usize.MAX }
    ensures { result ≡ canonical.enclosed turn parens }
{
    match turn {
        Turn::OpensParen => parens + 1,
        Turn::ClosesParen => parens.saturating_sub(1),
        _ => parens,
    }
}

/// How many steps a line is set in that such a token begins.
pub fn set_in(turn: Turn, steps: usize) -> usize
    ensures { result ≡ canonical.set_in turn steps }
{
    match turn {
        Turn::Closes | Turn::Leaves => steps.saturating_sub(1),
        _ => steps,
    }
}

/// Whether a line ends behind such a token where no `(` is open.
fn ends_line(turn: Turn) -> bool
    ensures { result ≡ canonical.ends_line turn }
{
    match turn {
        Turn::Opens | Turn::Closes | Turn::Ends => true,
        _ => false,
    }
}

/// What comes behind a token where so many `(` are open.
pub fn gap_behind(turn: Turn, parens: usize) -> Gap
    ensures { result ≡ layout.gap_behind turn parens }
{
    if ends_line(turn) && parens == 0 {
        Gap::Line
    } else {
        Gap::Blank
    }
}
