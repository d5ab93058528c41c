//! Whole programs.

ghost use Rattle.std.specs.Prelude.{◌≡◌, ◌++◌, map, OnOk, IfOk, IfErr};
ghost use Rattle.type_check.specs.Faults as faults;
ghost use Rattle.type_check.specs.Listed.{beyond};
ghost use Rattle.type_check.specs.Noted.{noted, nothing_found};
ghost use Rattle.csl_grammar.specs.Texts.{IsSpelledWithin, text_limit};
ghost use Rattle.type_check.specs.Refusal.{IsRefusal};

use crate::body::{Body, Here};
use crate::checked::{CheckError, Checked};
use crate::fault::CheckKind;
use crate::found::Found;
use crate::function::check_function;
use crate::locals::push_locals;
use crate::shared::{check_shared, check_words};
use crate::stmt::{check_block, note_many_locals};
use crate::table::Table;
use cal_terms::NoMemory;
use csl_tree::program::{Function, Program, Stmt};
use sqlite_items::Items;
use std::alloc::Global;

/// The most functions of a program.
const MOST_FUNCTIONS: usize = 256;

/// Notes the faults of functions, and declares them.
fn check_functions(
    alloc: Global,
    found: &mut Found,
    globals: &mut Table,
    functions: &[Function],
) -> Result<(), NoMemory>
    ensures found { OnOk result (found.new ≡ noted found.old (faults.all_function_faults globals.old functions.now)) }
    ensures names { OnOk result (globals.new ≡ faults.with_functions globals.old functions.now) }
{
    for f in functions {
        check_function(alloc, found, globals, f)?;
    }
    Ok(())
}

/// Notes the first function after the 256th.
fn note_many_functions(found: &mut Found, functions: &[Function])
    ensures { found.new ≡ noted found.old (beyond faults.most_functions (map (λ f. f.name.at) functions.now)) }
{
    match functions.get(MOST_FUNCTIONS) {
        Some(f) => found.note(CheckKind::Limit, f.name.at),
        None => {}
    }
}

/// Notes the faults of main.
fn check_main(
    alloc: Global,
    found: &mut Found,
    globals: &Table,
    main: &[Stmt],
) -> Result<(), NoMemory>
    ensures { OnOk result (found.new ≡ noted found.old (faults.main_faults globals.now main.now)) }
{
    let mut locals = Table::new(alloc);
    let here = Here {
        body: Body::Main,
        looped: false,
    };
    check_block(alloc, found, here, globals, &mut locals, main)?;
    let mut at = Items::new(alloc);
    push_locals(&mut at, main)?;
    note_many_locals(found, at.as_slice());
    Ok(())
}

/// What is kept of all faults of a program.
fn check_program(alloc: Global, p: &Program) -> Result<Found, NoMemory>
    ensures { IfOk result (λ found. found ≡ noted nothing_found (faults.faults_of p.now)) }
{
    let mut found = Found::new();
    let mut globals = Table::new(alloc);
    check_shared(&mut found, &mut globals, p.shared.as_slice())?;
    check_words(&mut found, p.shared.as_slice());
    check_functions(alloc, &mut found, &mut globals, p.functions.as_slice())?;
    note_many_functions(&mut found, p.functions.as_slice());
    check_main(alloc, &mut found, &globals, p.main.as_slice())?;
    Ok(found)
}

/// The program, if it has no faults. Else `Refused` names its first fault: the one at the lowest place, and of two at one place
/// the one that stands higher in the table of faults of `docs/LANGUAGE.md`. `NoMemory` says that there was no memory for the work.
pub fn check(alloc: Global, p: Program) -> Result<Checked, CheckError>
    requires { IsSpelledWithin text_limit p }
    ensures accepted { IfOk result (λ c. (c ≡ p) × faults.IsAccepted p) }
    ensures refused { IfErr result (IsRefusal p) }
{
    match check_program(alloc, &p) {
        Ok(found) => Checked::answer(p, found),
        Err(_) => Err(CheckError::NoMemory),
    }
}
