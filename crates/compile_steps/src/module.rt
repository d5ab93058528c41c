//! The module of an accepted program.

ghost use Rattle.std.specs.Prelude.{◌≡◌, ℕ, IfOk, map};
ghost use Rattle.csl_grammar.specs.Texts.{IsSpelledWithin, text_limit};
ghost use Rattle.type_check.specs.Faults.{IsAccepted};
ghost use Rattle.cal_base.specs.Main.{steps_of};
ghost use Rattle.csl_meaning.specs.Meaning.{main, meaning};
ghost use Rattle.machine_meaning.specs.Meaning.{machine_main, machine_meaning};
ghost use Rattle.compiled_code.specs.Laws.{HasRoutines};
ghost use Rattle.compiled_code.specs.Modules as modules;

use crate::blocks::push_blocks;
use crate::bodies::{function_code, main_code};
use crate::texts::push_texts;
use crate::words::push_words;
use bytecode::{Code, Module};
use cal_terms::NoMemory;
use code_verify::{Verified, VerifyError, verify};
use csl_tree::program::{Function, Program};
use expression_code::names::Names;
use sqlite_items::Items;
use std::alloc::Global;
use type_check::checked::Checked;

/// The code of each function, in the order of the source.
fn function_codes(
    alloc: Global,
    names: &Names,
    functions: &[Function],
) -> Result<Items<Code>, NoMemory>
    requires spelled { IsSpelledWithin text_limit names.now }
    requires accepted { IsAccepted names.now }
    requires all { functions.now ≡ names.now.functions }
    ensures { IfOk result (λ codes. codes ≡ map (λ f. modules.function_code names.now f) functions.now) }
{
    let mut codes = Items::new(alloc);
    for f in functions {
        codes.push(function_code(alloc, names, f)?)?;
    }
    Ok(codes)
}

/// The module of a program without faults.
fn module_of(alloc: Global, program: &Program) -> Result<Module, NoMemory>
    requires spelled { IsSpelledWithin text_limit program.now }
    requires accepted { IsAccepted program.now }
    ensures { IfOk result (λ m. m ≡ modules.module_of program.now) }
{
    let names = Names::of(alloc, program)?;
    let mut tallies = Items::new(alloc);
    let mut initial = Items::new(alloc);
    let words = push_words(&mut tallies, &mut initial, program.shared.as_slice())?;
    let mut texts = Items::new(alloc);
    push_texts(alloc, &mut texts, program.main.as_slice())?;
    let functions = function_codes(alloc, &names, program.functions.as_slice())?;
    let mut blocks = Items::new(alloc);
    push_blocks(alloc, &mut blocks, &names, program.main.as_slice())?;
    let main = main_code(alloc, &names, program.main.as_slice())?;
    Ok(Module {
        words,
        tallies,
        initial,
        texts,
        functions,
        blocks,
        main,
    })
}

/// The module of an accepted program, which keeps the rules of verified modules.
fn verified_module(alloc: Global, p: &Checked) -> Result<Verified, NoMemory>
    ensures means { IfOk result (λ m. (fuel : ℕ) → machine_meaning m fuel ≡ meaning p.now fuel) }
    ensures steps { IfOk result (λ m. (fuel : ℕ) → steps_of (machine_main m fuel) ≡ steps_of (main p.now fuel)) }
    ensures routines { IfOk result (λ m. HasRoutines p.now m) }
    ensures module { IfOk result (λ m. m ≡ modules.module_of p.now) }
{
    let module = module_of(alloc, p.program())?;
    match verify(alloc, module) {
        Ok(verified) => Ok(verified),
        Err(VerifyError::NoMemory) => Err(NoMemory),
        Err(VerifyError::Refused) => unreachable!(),
    }
}

/// The module of an accepted program, which means what the program means: with each amount of fuel it prints the same lines, opens
/// the same steps, each on the same memory and with the same answers of its routines, leaves the same memory after each of them and
/// comes to the same end. On each memory of the program's words a routine of the module does what the program's does, and leaves the
/// same fuel. Answers `NoMemory` only where there is no memory for it: no code, list of
/// locals, texts or blocks of an accepted program comes near 2^32 entries.
pub fn compile(alloc: Global, p: &Checked) -> Result<Verified, NoMemory>
    ensures means { IfOk result (λ m. (fuel : ℕ) → machine_meaning m fuel ≡ meaning p.now fuel) }
    ensures steps { IfOk result (λ m. (fuel : ℕ) → steps_of (machine_main m fuel) ≡ steps_of (main p.now fuel)) }
    ensures routines { IfOk result (λ m. HasRoutines p.now m) }
{
    verified_module(alloc, p)
}
