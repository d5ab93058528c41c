//! Statements.

ghost use Rattle.std.specs.Prelude.{◌≡◌, OnOk};
ghost use Rattle.csl_tree.specs.declared.program.RoutineBlock.{out-RoutineBlock};
ghost use Rattle.csl_grammar.specs.Programs as grammar;
ghost use Rattle.csl_print.specs.Layout.{adds_all};
ghost use Rattle.csl_print.specs.TreeTokens.{given_tokens, item_tokens, form_tokens, ending, body_tokens, arm_tokens, routine_tokens};
ghost use Rattle.csl_print.specs.TreeTokens.{heading, word, in_parens, expr_tokens, separated, parted, each};
ghost use Rattle.csl_tree.specs.declared.token.Keyword.TheVariants as keyword;

use crate::expr::{print_call, print_expr, print_place};
use crate::printer::Printer;
use cal_terms::NoMemory;
use csl_tree::program::{Arm, Expr, Form, Item, RoutineBlock, Stmt, Ty};
use csl_tree::token::{Keyword, Mark};

pub fn type_word(ty: Ty) -> Keyword
    ensures { result ≡ grammar.type_word ty }
{
    match ty {
        Ty::Int => Keyword::Int,
        Ty::Bool => Keyword::Bool,
    }
}

/// Prints the semicolon behind a statement that does not end with a block.
fn print_ending(out: &mut Printer, form: &Form) -> Result<(), NoMemory>
    ensures { OnOk result (out.new ≡ adds_all out.old (ending form.now)) }
{
    match form {
        Form::If { .. } | Form::While { .. } | Form::For { .. } | Form::Block(_) => Ok(()),
        Form::Declare { .. }
        | Form::Set { .. }
        | Form::AddTo { .. }
        | Form::Break
        | Form::Continue
        | Form::Return(_)
        | Form::CallOf(_)
        | Form::Assert(_)
        | Form::Print(_)
        | Form::Par(_) => out.mark(Mark::Semicolon),
    }
}

/// Prints what a `return` gives back, if anything.
fn print_given(out: &mut Printer, given: &Option<Expr>) -> Result<(), NoMemory>
    ensures { OnOk result (out.new ≡ adds_all out.old (given_tokens given.now)) }
{
    match given {
        None => Ok(()),
        Some(e) => print_expr(out, e),
    }
}

/// Prints an expression between parentheses.
fn print_enclosed(out: &mut Printer, e: &Expr) -> Result<(), NoMemory>
    ensures { OnOk result (out.new ≡ adds_all out.old (in_parens (expr_tokens e.now))) }
{
    out.mark(Mark::OpenParen)?;
    print_expr(out, e)?;
    out.mark(Mark::CloseParen)
}

fn print_item(out: &mut Printer, item: &Item) -> Result<(), NoMemory>
    ensures { OnOk result (out.new ≡ adds_all out.old (item_tokens item.now)) }
{
    match item {
        Item::Text(text) => out.quoted(text),
        Item::Value(e) => print_expr(out, e),
    }
}

/// Prints the items of a `print`, with commas between.
fn print_items(out: &mut Printer, items: &[Item]) -> Result<(), NoMemory>
    ensures { OnOk result (out.new ≡ adds_all out.old (separated item_tokens items.now)) }
{
    if let Some((first, rest)) = items.split_first() {
        print_item(out, first)?;
        for item in rest {
            out.mark(Mark::Comma)?;
            print_item(out, item)?;
        }
    }
    Ok(())
}

/// Prints a statement but for the semicolon behind it.
#[cycle(stmt)]
fn print_form(out: &mut Printer, form: &Form) -> Result<(), NoMemory>
    ensures { OnOk result (out.new ≡ adds_all out.old (form_tokens form.now)) }
{
    match form {
        Form::Declare { ty, name, value } => {
            out.word(type_word(*ty))?;
            out.name(name)?;
            out.mark(Mark::Assign)?;
            print_expr(out, value)
        }
        Form::Set { place, value } => {
            print_place(out, place)?;
            out.mark(Mark::Assign)?;
            print_expr(out, value)
        }
        Form::AddTo { place, value } => {
            print_place(out, place)?;
            out.mark(Mark::AddAssign)?;
            print_expr(out, value)
        }
        Form::If { arms, last } => {
            print_arms(out, arms.as_slice())?;
            match last {
                None => Ok(()),
                Some(body) => {
                    out.word(Keyword::Else)?;
                    print_body(out, body.as_slice())
                }
            }
        }
        Form::While { test, body } => {
            out.word(Keyword::While)?;
            print_enclosed(out, test)?;
            print_body(out, body.as_slice())
        }
        Form::For {
            first,
            test,
            next,
            body,
        } => {
            out.word(Keyword::For)?;
            out.mark(Mark::OpenParen)?;
            print_form(out, &first.get().form)?;
            out.mark(Mark::Semicolon)?;
            print_expr(out, test)?;
            out.mark(Mark::Semicolon)?;
            print_form(out, &next.get().form)?;
            out.mark(Mark::CloseParen)?;
            print_body(out, body.as_slice())
        }
        Form::Break => out.word(Keyword::Break),
        Form::Continue => out.word(Keyword::Continue),
        Form::Return(given) => {
            out.word(Keyword::Return)?;
            print_given(out, given)
        }
        Form::CallOf(call) => print_call(out, call),
        Form::Assert(e) => {
            out.word(Keyword::Assert)?;
            print_enclosed(out, e)
        }
        Form::Block(body) => print_body(out, body.as_slice()),
        Form::Print(items) => {
            out.word(Keyword::Print)?;
            out.mark(Mark::OpenParen)?;
            print_items(out, items.as_slice())?;
            out.mark(Mark::CloseParen)
        }
        Form::Par(blocks) => {
            out.word(Keyword::Parbegin)?;
            print_routines(out, blocks.as_slice())?;
            out.word(Keyword::Parend)
        }
    }
}

/// Prints statements between braces.
#[cycle(stmt)]
pub fn print_body(out: &mut Printer, body: &[Stmt]) -> Result<(), NoMemory>
    ensures { OnOk result (out.new ≡ adds_all out.old (body_tokens body.now)) }
{
    out.mark(Mark::OpenBrace)?;
    for s in body {
        print_form(out, &s.form)?;
        print_ending(out, &s.form)?;
    }
    out.mark(Mark::CloseBrace)
}

/// Prints a test and the statements behind it, from the `if` on.
#[cycle(stmt)]
fn print_arm(out: &mut Printer, arm: &Arm) -> Result<(), NoMemory>
    ensures { OnOk result (out.new ≡ adds_all out.old (arm_tokens arm.now)) }
{
    out.word(Keyword::If)?;
    print_enclosed(out, &arm.test)?;
    print_body(out, arm.body.as_slice())
}

/// Prints the arms of an `if`, with `else` between.
#[cycle(stmt)]
fn print_arms(out: &mut Printer, arms: &[Arm]) -> Result<(), NoMemory>
    ensures { OnOk result (out.new ≡ adds_all out.old (parted (word keyword.Else) arm_tokens arms.now)) }
{
    if let Some((first, rest)) = arms.split_first() {
        print_arm(out, first)?;
        for arm in rest {
            out.word(Keyword::Else)?;
            print_arm(out, arm)?;
        }
    }
    Ok(())
}

/// Prints the routine blocks of a step.
#[cycle(stmt)]
fn print_routines(out: &mut Printer, blocks: &[RoutineBlock]) -> Result<(), NoMemory>
    ensures { OnOk result (out.new ≡ adds_all out.old (each routine_tokens blocks.now)) }
{
    for block in blocks {
        out.word(Keyword::Routine)?;
        print_names(out, block)?;
        print_body(out, block.body.as_slice())?;
    }
    Ok(())
}

/// Prints the width of a routine block and its two parameters.
fn print_names(out: &mut Printer, block: &RoutineBlock) -> Result<(), NoMemory>
    ensures { OnOk result (out.new ≡ adds_all out.old (heading (out-RoutineBlock block.now).width (out-RoutineBlock block.now).width_name
        (out-RoutineBlock block.now).id_name)) }
{
    out.mark(Mark::OpenBracket)?;
    print_expr(out, &block.width)?;
    out.mark(Mark::CloseBracket)?;
    out.mark(Mark::OpenParen)?;
    out.word(Keyword::Int)?;
    out.name(&block.width_name)?;
    out.mark(Mark::Comma)?;
    out.word(Keyword::Int)?;
    out.name(&block.id_name)?;
    out.mark(Mark::CloseParen)
}
