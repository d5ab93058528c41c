//! The grammar, read by recursive descent.
#![tactic(auto)]

ghost use Rattle.std.specs.Prelude.{◌≡◌, ℕ, IfOk, MatchResult, Err};
ghost use Rattle.csl_tree.specs.declared.program.Program.{Program};
ghost use Rattle.csl_lexer.specs.Tokens.{SomeText};
ghost use Rattle.csl_grammar.specs.Levels.{IsFlat, IsTooDeep};
ghost use Rattle.csl_grammar.specs.Programs.{SpellsProgram};
ghost use Rattle.csl_grammar.specs.Spelling.{IsUnexpected};
ghost use Rattle.expression_parser.specs.declared.ParseError.TheVariants as error;

mod decl;
mod levels;
mod program;

use csl_tree::program::Program;
use csl_tree::token::Token;
pub use expression_parser::ParseError;
use std::alloc::Global;

/// The one program that the tokens of a text spell. Levels are tested first, over all the tokens, and then the grammar: `TooDeep`
/// and `Unexpected` say where tokens that spell none are wrong, and `NoMemory` that there was no memory for the work.
pub fn parse(alloc: Global, tokens: &[Token]) -> Result<Program, ParseError>
    requires { SomeText tokens.now }
    ensures spelled { IfOk result (λ p. IsFlat tokens.now × SpellsProgram tokens.now p) }
    ensures only { (p : Program) → IsFlat tokens.now → SpellsProgram tokens.now p
        → MatchResult result (λ found. found ≡ p) (λ e. e ≡ error.NoMemory) }
    ensures too_deep { (at : ℕ) → result ≡ Err (error.TooDeep at) → IsTooDeep tokens.now at }
    ensures unexpected { (at : ℕ) → result ≡ Err (error.Unexpected at) → IsFlat tokens.now × IsUnexpected tokens.now at }
{
    levels::check(alloc, tokens)?;
    program::program(alloc, tokens)
}
