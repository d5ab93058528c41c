//! Whole programs.

ghost use Rattle.std.specs.Prelude.{◌≡◌, IfOk, OnOk};
ghost use Rattle.csl_grammar.specs.Texts.{IsSpelled};
ghost use Rattle.csl_print.specs.Aside.{SpellsAside};
ghost use Rattle.csl_print.specs.Canonical.{canonical};
ghost use Rattle.csl_print.specs.Layout.{adds_all};
ghost use Rattle.csl_print.specs.TreeTokens.{each, shared_tokens, function_tokens, tokens_of};

use crate::decl::{print_function, print_shared};
use crate::printer::Printer;
use crate::stmt::print_body;
use cal_terms::NoMemory;
use csl_tree::program::{Function, Program, Shared};
use csl_tree::token::{Keyword, Mark};
use std::alloc::Global;

/// Prints shared declarations.
fn print_words(out: &mut Printer, all: &[Shared]) -> Result<(), NoMemory>
    ensures { OnOk result (out.new ≡ adds_all out.old (each shared_tokens all.now)) }
{
    for shared in all {
        print_shared(out, shared)?;
    }
    Ok(())
}

fn print_functions(out: &mut Printer, all: &[Function]) -> Result<(), NoMemory>
    ensures { OnOk result (out.new ≡ adds_all out.old (each function_tokens all.now)) }
{
    for function in all {
        print_function(out, function)?;
    }
    Ok(())
}

fn print_tokens(out: &mut Printer, p: &Program) -> Result<(), NoMemory>
    ensures { OnOk result (out.new ≡ adds_all out.old (tokens_of p.now)) }
{
    out.word(Keyword::Shared)?;
    out.mark(Mark::OpenBrace)?;
    print_words(out, p.shared.as_slice())?;
    out.mark(Mark::CloseBrace)?;
    print_functions(out, p.functions.as_slice())?;
    out.word(Keyword::Main)?;
    print_body(out, p.main.as_slice())
}

/// The canonical text of any tree.
pub(crate) fn print_text(alloc: Global, p: &Program) -> Result<Vec<u8>, NoMemory>
    ensures { IfOk result (λ text. text.items ≡ canonical p.now) }
{
    let mut out = Printer::new(alloc);
    print_tokens(&mut out, p)?;
    out.finish()
}

/// The canonical text of a program, which spells it, positions aside.
///
/// The text may have more bytes than the longest text of a program.
pub fn print_program(alloc: Global, p: &Program) -> Result<Vec<u8>, NoMemory>
    requires { IsSpelled p.now }
    ensures canonical { IfOk result (λ text. text.items ≡ canonical p.now) }
    ensures spells { IfOk result (λ text. SpellsAside text.items p.now) }
{
    print_text(alloc, p)
}
