//! Expressions.

ghost use Rattle.std.specs.Prelude.{◌≡◌, OnOk};
ghost use Rattle.csl_grammar.specs.Expressions as grammar;
ghost use Rattle.csl_print.specs.Layout.{adds_all};
ghost use Rattle.csl_print.specs.TreeTokens.{expr_tokens, place_tokens, call_tokens, separated};

use crate::printer::Printer;
use cal_terms::NoMemory;
use csl_tree::program::{BinaryOp, Call, Expr, Node, Place, UnaryOp};
use csl_tree::token::{Keyword, Mark};

fn truth_word(truth: bool) -> Keyword
    ensures { result ≡ grammar.truth_word truth }
{
    if truth { Keyword::True } else { Keyword::False }
}

fn prefix_mark(op: UnaryOp) -> Mark
    ensures { result ≡ grammar.prefix_mark op }
{
    match op {
        UnaryOp::Neg => Mark::Minus,
        UnaryOp::Not => Mark::Bang,
    }
}

fn mark_of(op: BinaryOp) -> Mark
    ensures { result ≡ grammar.mark_of op }
{
    match op {
        BinaryOp::Mul => Mark::Star,
        BinaryOp::Div => Mark::Slash,
        BinaryOp::Rem => Mark::Percent,
        BinaryOp::Add => Mark::Plus,
        BinaryOp::Sub => Mark::Minus,
        BinaryOp::Lt => Mark::Less,
        BinaryOp::Le => Mark::LessEqual,
        BinaryOp::Gt => Mark::Greater,
        BinaryOp::Ge => Mark::GreaterEqual,
        BinaryOp::Eq => Mark::Equal,
        BinaryOp::Ne => Mark::NotEqual,
        BinaryOp::And => Mark::AndAnd,
        BinaryOp::Or => Mark::OrOr,
    }
}

#[cycle(expr)]
pub fn print_expr(out: &mut Printer, e: &Expr) -> Result<(), NoMemory>
    ensures { OnOk result (out.new ≡ adds_all out.old (expr_tokens e.now)) }
{
    match &e.node {
        Node::Number(number) => out.number(*number),
        Node::Truth(truth) => out.word(truth_word(*truth)),
        Node::Read(place) => print_place(out, place),
        Node::CallOf(call) => print_call(out, call),
        Node::Unary(op, a) => {
            out.mark(prefix_mark(*op))?;
            print_expr(out, a.get())
        }
        Node::Binary(op, a, b) => {
            print_expr(out, a.get())?;
            out.mark(mark_of(*op))?;
            print_expr(out, b.get())
        }
        Node::Paren(a) => {
            out.mark(Mark::OpenParen)?;
            print_expr(out, a.get())?;
            out.mark(Mark::CloseParen)
        }
    }
}

#[cycle(expr)]
pub fn print_place(out: &mut Printer, place: &Place) -> Result<(), NoMemory>
    ensures { OnOk result (out.new ≡ adds_all out.old (place_tokens place.now)) }
{
    out.name(&place.name)?;
    match &place.index {
        None => Ok(()),
        Some(i) => {
            out.mark(Mark::OpenBracket)?;
            print_expr(out, i.get())?;
            out.mark(Mark::CloseBracket)
        }
    }
}

#[cycle(expr)]
pub fn print_call(out: &mut Printer, call: &Call) -> Result<(), NoMemory>
    ensures { OnOk result (out.new ≡ adds_all out.old (call_tokens call.now)) }
{
    out.name(&call.name)?;
    out.mark(Mark::OpenParen)?;
    print_arguments(out, call.args.as_slice())?;
    out.mark(Mark::CloseParen)
}

/// Prints expressions with commas between.
#[cycle(expr)]
fn print_arguments(out: &mut Printer, args: &[Expr]) -> Result<(), NoMemory>
    ensures { OnOk result (out.new ≡ adds_all out.old (separated expr_tokens args.now)) }
{
    if let Some((first, rest)) = args.split_first() {
        print_expr(out, first)?;
        for e in rest {
            out.mark(Mark::Comma)?;
            print_expr(out, e)?;
        }
    }
    Ok(())
}
