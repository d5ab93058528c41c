//! Tokens as they are read one by one, lists, and expressions, by recursive descent.
#![tactic(auto)]

pub mod expr;
pub mod lists;
pub mod tokens;

use cal_terms::NoMemory;
use std::alloc::{AllocError, AllocFailed};

/// Why tokens are no program's.
#[derive(Clone, Copy, Debug, PartialEq, Eq)]
pub enum ParseError {
    /// A token's level is above 64: the first such token's place, in bytes from 0.
    TooDeep(u32),
    /// No token's level is above 64, and a token stands where no program has it behind those before it: the first such token's
    /// place, in bytes from 0.
    Unexpected(u32),
    /// Memory was wanted and not there.
    NoMemory,
}

impl From<NoMemory> for ParseError {
    ghost use Rattle.std.specs.Prelude.{◌≡◌};
    ghost use Rattle.expression_parser.specs.declared.ParseError.TheVariants as error;

    ghost from_gives = { λ _ e. e ≡ error.NoMemory };

    fn from(_: NoMemory) -> ParseError {
        ParseError::NoMemory
    }
}

impl From<AllocError> for ParseError {
    ghost use Rattle.std.specs.Prelude.{◌≡◌};
    ghost use Rattle.expression_parser.specs.declared.ParseError.TheVariants as error;

    ghost from_gives = { λ _ e. e ≡ error.NoMemory };

    fn from(_: AllocError) -> ParseError {
        ParseError::NoMemory
    }
}
