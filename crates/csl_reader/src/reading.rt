//! From the bytes of a text to the accepted program.

ghost use Rattle.std.specs.Prelude.{◌≡◌, ◌≤◌, IfOk, IfErr, length};
ghost use Rattle.csl_lexer.specs.Tokens.{IsTokenList, SomeText};
ghost use Rattle.csl_grammar.specs.Levels.{IsFlat};
ghost use Rattle.csl_grammar.specs.Programs.{SpellsProgram};
ghost use Rattle.csl_grammar.specs.Texts.{IsSpelledWithin, text_limit};
ghost use Rattle.type_check.specs.Faults.{IsAccepted};
ghost use Rattle.csl_reader.specs.Readings as reading;
ghost use Rattle.csl_reader.specs.Readings.{IsRead};
ghost use Rattle.csl_reader.specs.Errors.{IsRefused, AreRefused, IsFaulty};
ghost use Rattle.csl_reader.specs.Laws.{ReadOneWay, AcceptedAreSpelled};

use crate::refusal::ReadError;
use cal_terms::limits::MOST_TEXT;
use csl_lexer::lex;
use csl_parser::parse;
use csl_tree::program::Program;
use csl_tree::token::Token;
use std::alloc::Global;
use type_check::checked::Checked;
use type_check::program::check;

/// The token list of a text, or its first fault.
fn tokens_of(alloc: Global, text: &[u8]) -> Result<Vec<Token>, ReadError>
    requires { length text.now ≤ MOST_TEXT }
    ensures tokens { IfOk result (λ tokens. IsTokenList text.now tokens.items) }
    ensures refused { IfErr result (IsRefused text.now) }
{
    match lex(alloc, text) {
        Ok(tokens) => Ok(tokens),
        Err(fault) => Err(ReadError::of_lexer(fault)),
    }
}

/// The program that the tokens of a text spell, or the first token that is too deep or that no program allows.
fn program_of(alloc: Global, tokens: &[Token]) -> Result<Program, ReadError>
    requires { SomeText tokens.now }
    ensures spelled { IfOk result (λ p. IsFlat tokens.now × SpellsProgram tokens.now p) }
    ensures refused { IfErr result (AreRefused tokens.now) }
{
    match parse(alloc, tokens) {
        Ok(program) => Ok(program),
        Err(fault) => Err(ReadError::of_parser(fault)),
    }
}

/// The accepted program, or its first fault.
fn accepted(alloc: Global, p: Program) -> Result<Checked, ReadError>
    requires { IsSpelledWithin text_limit p }
    ensures accepted { IfOk result (λ program. (program ≡ p) × IsAccepted p) }
    ensures refused { IfErr result (IsFaulty p) }
{
    match check(alloc, p) {
        Ok(program) => Ok(program),
        Err(fault) => Err(ReadError::of_check(fault)),
    }
}

/// The accepted program that a text of at most 1,048,576 bytes spells, or why it is refused: the first fault of its tokens;
/// else the first token that is too deep; else the first that no program allows; else the program's first fault.
pub fn read_program(alloc: Global, text: &[u8]) -> Result<Checked, ReadError>
    requires { length text.now ≤ MOST_TEXT }
    ensures accepted { IfOk result (λ program. IsRead text.now (reading.accepted program)) }
    ensures refused { IfErr result (IsRefused text.now) }
{
    let tokens = tokens_of(alloc, text)?;
    match program_of(alloc, tokens.as_slice()) {
        Ok(program) => accepted(alloc, program),
        Err(refused) => Err(refused),
    }
}

/// A text is read in one way at most.
pub fn one_reading()
    ensures { ReadOneWay }
{}

/// A text is an accepted program exactly where it spells it and the program has no fault.
pub fn accepted_texts()
    ensures { AcceptedAreSpelled }
{}
