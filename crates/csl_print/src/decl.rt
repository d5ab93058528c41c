//! Shared declarations and functions.

ghost use Rattle.std.specs.Prelude.{◌≡◌, OnOk};
ghost use Rattle.csl_grammar.specs.Programs as grammar;
ghost use Rattle.csl_print.specs.Layout.{adds_all};
ghost use Rattle.csl_print.specs.TreeTokens.{signed_tokens, kind_tokens, size_tokens, value_tokens, initial_tokens, shared_tokens};
ghost use Rattle.csl_print.specs.TreeTokens.{param_tokens, function_tokens, separated};

use crate::printer::Printer;
use crate::stmt::{print_body, type_word};
use cal_terms::{NoMemory, WordKind};
use csl_tree::program::{ArraySize, Function, Gives, Param, Shared, Valued};
use csl_tree::token::{Keyword, Mark};

fn result_word(gives: Gives) -> Keyword
    ensures { result ≡ grammar.result_word gives }
{
    match gives {
        Gives::Nothing => Keyword::Void,
        Gives::Int => Keyword::Int,
        Gives::Bool => Keyword::Bool,
    }
}

/// Prints a number with its sign apart.
fn print_signed(out: &mut Printer, number: i64) -> Result<(), NoMemory>
    ensures { OnOk result (out.new ≡ adds_all out.old (signed_tokens number)) }
{
    if number < 0 {
        out.mark(Mark::Minus)?;
    }
    out.magnitude(number.unsigned_abs())
}

/// Prints initial values with commas between.
fn print_values(out: &mut Printer, values: &[Valued]) -> Result<(), NoMemory>
    ensures { OnOk result (out.new ≡ adds_all out.old (separated value_tokens values.now)) }
{
    if let Some((first, rest)) = values.split_first() {
        print_signed(out, first.number)?;
        for value in rest {
            out.mark(Mark::Comma)?;
            print_signed(out, value.number)?;
        }
    }
    Ok(())
}

fn print_kind(out: &mut Printer, kind: WordKind) -> Result<(), NoMemory>
    ensures { OnOk result (out.new ≡ adds_all out.old (kind_tokens kind)) }
{
    match kind {
        WordKind::Ordinary => out.word(Keyword::Int),
        WordKind::Tally => {
            out.word(Keyword::Tally)?;
            out.word(Keyword::Int)
        }
    }
}

/// Prints the size of an array, if it is one.
fn print_size(out: &mut Printer, size: &Option<ArraySize>) -> Result<(), NoMemory>
    ensures { OnOk result (out.new ≡ adds_all out.old (size_tokens size.now)) }
{
    match size {
        None => Ok(()),
        Some(size) => {
            out.mark(Mark::OpenBracket)?;
            out.number(size.number)?;
            out.mark(Mark::CloseBracket)
        }
    }
}

/// Prints the initial values, if they are listed.
fn print_initial(out: &mut Printer, listed: bool, values: &[Valued]) -> Result<(), NoMemory>
    ensures { OnOk result (out.new ≡ adds_all out.old (initial_tokens listed values.now)) }
{
    if listed {
        out.mark(Mark::Assign)?;
        out.mark(Mark::OpenBrace)?;
        print_values(out, values)?;
        out.mark(Mark::CloseBrace)?;
    }
    Ok(())
}

pub fn print_shared(out: &mut Printer, shared: &Shared) -> Result<(), NoMemory>
    ensures { OnOk result (out.new ≡ adds_all out.old (shared_tokens shared.now)) }
{
    print_kind(out, shared.kind)?;
    out.name(&shared.name)?;
    print_size(out, &shared.size)?;
    print_initial(out, shared.listed, shared.values.as_slice())?;
    out.mark(Mark::Semicolon)
}

fn print_param(out: &mut Printer, param: &Param) -> Result<(), NoMemory>
    ensures { OnOk result (out.new ≡ adds_all out.old (param_tokens param.now)) }
{
    out.word(type_word(param.ty))?;
    out.name(&param.name)
}

/// Prints parameters with commas between.
fn print_params(out: &mut Printer, params: &[Param]) -> Result<(), NoMemory>
    ensures { OnOk result (out.new ≡ adds_all out.old (separated param_tokens params.now)) }
{
    if let Some((first, rest)) = params.split_first() {
        print_param(out, first)?;
        for param in rest {
            out.mark(Mark::Comma)?;
            print_param(out, param)?;
        }
    }
    Ok(())
}

pub fn print_function(out: &mut Printer, function: &Function) -> Result<(), NoMemory>
    ensures { OnOk result (out.new ≡ adds_all out.old (function_tokens function.now)) }
{
    out.word(result_word(function.gives))?;
    out.name(&function.name)?;
    out.mark(Mark::OpenParen)?;
    print_params(out, function.params.as_slice())?;
    out.mark(Mark::CloseParen)?;
    print_body(out, function.body.as_slice())
}
