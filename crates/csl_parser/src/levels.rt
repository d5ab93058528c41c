//! How deeply the tokens nest.

ghost use Rattle.std.specs.Prelude.{◌≡◌, ◌≤◌, ◌∷◌, [], IfOk, MatchOption, List, ℕ};
ghost use Rattle.csl_grammar.specs.Levels.{outermost, behind, turned, turn_of_mark, Opens, Closes, Parts, most_levels};
ghost use Rattle.csl_parser.specs.Program.{TellsDepth, IsLow};

use cal_terms::NoMemory;
use csl_tree::token::{Keyword, Mark, Token, TokenKind};
use expression_parser::ParseError;
use std::alloc::Global;
use std::marker::Model;

/// The highest level of a token.
const MOST_LEVELS: u8 = 64;

/// Nothing where no token's level is above 64.
pub fn check(alloc: Global, tokens: &[Token]) -> Result<(), ParseError>
    ensures { TellsDepth tokens.now result }
{
    let mut nesting = Nesting::outermost(alloc);
    let mut rest = tokens;
    'tokens: while let Some((token, left)) = rest.split_first() {
        nesting.turn(token)?;
        if nesting.level() > MOST_LEVELS {
            return Err(ParseError::TooDeep(token.at));
        }
        rest = left;
    }
    Ok(())
}

/// A level, and the levels at which brackets were opened and are still open.
#[derive(Drop)]
struct Nesting {
    level: u8,
    /// The last one last.
    opened: Vec<u8>,
}

impl Model for Nesting {
    ghost use Rattle.std.specs.Prelude.{reverse};
    ghost use Rattle.csl_grammar.specs.Levels.{Nesting};

    ghost Value = { Nesting };

    ghost view = { λ n. record { level = n.level; opened = reverse n.opened.items } };
}

impl Nesting {
    /// Before the first token.
    fn outermost(alloc: Global) -> Nesting
        ensures { result ≡ outermost }
    {
        Nesting {
            level: 0,
            opened: Vec::new(alloc),
        }
    }

    /// The level of the last token.
    fn level(&self) -> u8
        ensures { result ≡ self.now.level }
    {
        self.level
    }

    /// Takes a token in.
    fn turn(&mut self, token: &Token) -> Result<(), NoMemory>
        requires { IsLow self.old }
        ensures { IfOk result (λ _. self.new ≡ behind token.now self.old) }
    {
        match token.kind {
            TokenKind::Mark(mark) => self.turn_at(mark),
            TokenKind::Word(Keyword::Parbegin) => self.open(),
            TokenKind::Word(Keyword::Parend) => {
                self.close();
                Ok(())
            }
            _ => Ok(()),
        }
    }

    /// Takes a mark in.
    fn turn_at(&mut self, mark: Mark) -> Result<(), NoMemory>
        requires { IsLow self.old }
        ensures { IfOk result (λ _. self.new ≡ turned (turn_of_mark mark) self.old) }
    {
        match mark {
            Mark::OpenParen | Mark::OpenBracket | Mark::OpenBrace => self.open()?,
            Mark::CloseParen | Mark::CloseBracket | Mark::CloseBrace => self.close(),
            Mark::Semicolon | Mark::Comma => self.part(),
            Mark::Assign | Mark::AddAssign => {}
            _ => self.level += 1,
        }
        Ok(())
    }

    /// A bracket opens.
    fn open(&mut self) -> Result<(), NoMemory>
        requires { IsLow self.old }
        ensures { IfOk result (λ _. self.new ≡ turned Opens self.old) }
    {
        self.opened.push(self.level)?;
        self.level += 1;
        Ok(())
    }

    /// A bracket closes.
    fn close(&mut self)
        ensures { self.new ≡ turned Closes self.old }
    {
        if let Some(level) = self.opened.pop() {
            self.level = level;
        }
    }

    /// Something ends between brackets.
    fn part(&mut self)
        requires { IsLow self.old }
        ensures { self.new ≡ turned Parts self.old }
    {
        self.level = match self.opened.as_slice() {
            [.., level] => *level + 1,
            [] => 0,
        };
    }
}
