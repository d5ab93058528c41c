//! The code of functions, of routine blocks and of main.

ghost use Rattle.std.specs.Prelude.{◌≡◌, ◌+◌, ◌≤◌, ◌++◌, [], length, map, OnOk, IfOk};
ghost use Rattle.csl_tree.specs.declared.program.RoutineBlock.{out-RoutineBlock};
ghost use Rattle.compiled_code.specs.Slots.{kind_of as kind_of_type};
ghost use Rattle.compiled_code.specs.Modules as modules;
ghost use Rattle.expression_code.specs.Lists.{statements_size, statements_code, StatementsAre};
ghost use Rattle.expression_code.specs.Counts.{IsSmall};
ghost use Rattle.compile_steps.specs.Writing.{BodyFits, BlockFits};

use crate::statements::push_block;
use bytecode::{Code, Gives, Instr, Ty};
use cal_terms::NoMemory;
use csl_tree::program as tree;
use csl_tree::program::{Function, Param, RoutineBlock, Stmt};
use expression_code::kinds::push_kinds;
use expression_code::names::Names;
use expression_code::scope::{Scope, kind_of};
use expression_code::sizes::body_sizes;
use expression_code::writer::Writer;
use sqlite_items::Items;
use std::alloc::Global;

fn gives_of(gives: tree::Gives) -> Gives
    ensures { result ≡ modules.gives_of gives }
{
    match gives {
        tree::Gives::Nothing => Gives::Nothing,
        tree::Gives::Int => Gives::Int,
        tree::Gives::Bool => Gives::Bool,
    }
}

/// Writes what stands behind the statements of a body: it gives nothing back, or a value to which no accepted body comes.
fn push_closing(instrs: &mut Items<Instr>, gives: tree::Gives) -> Result<(), NoMemory>
    ensures { OnOk result (instrs.new ≡ instrs.old ++ modules.closing gives) }
{
    match gives {
        tree::Gives::Nothing => {}
        tree::Gives::Int => instrs.push(Instr::Int(0))?,
        tree::Gives::Bool => instrs.push(Instr::False)?,
    }
    instrs.push(Instr::Return)?;
    Ok(())
}

/// The code of the statements of a body, in which these locals are visible at first.
fn body_code(
    alloc: Global,
    names: &Names,
    mut scope: Scope,
    body: &[Stmt],
) -> Result<Items<Instr>, NoMemory>
    requires shape { StatementsAre names.now body.now }
    requires room { BodyFits names.now body.now scope.slots scope.next }
    ensures { IfOk result (λ instrs. instrs ≡ statements_code names.now body.now scope.slots (modules.beginning scope.next)
        (modules.ends_at (statements_size names.now body.now scope.slots scope.next))) }
{
    let (size, sizes) = body_sizes(alloc, names, &mut scope, body)?;
    let mut w = Writer {
        instrs: Items::new(alloc),
        scope,
        text: 0,
        block: 0,
        sizes,
        asked: 0,
    };
    push_block(&mut w, alloc, names, body, size, size)?;
    Ok(w.instrs)
}

/// Declares the parameters of a function.
fn declare_params(
    scope: &mut Scope,
    locals: &mut Items<Ty>,
    params: &[Param],
) -> Result<(), NoMemory>
    requires numbered { scope.old.next ≡ length scope.old.slots }
    requires room { IsSmall (scope.old.next + length params.now) }
    ensures slots { OnOk result (scope.new.slots ≡ modules.with_params scope.old.slots params.now) }
    ensures next { OnOk result (scope.new.next ≡ scope.old.next + length params.now) }
    ensures locals { OnOk result (locals.new ≡ locals.old ++ map (λ q. kind_of_type q.ty) params.now) }
{
    for param in params {
        let kind = kind_of(param.ty);
        scope.declare(&param.name.text, kind)?;
        locals.push(kind)?;
    }
    Ok(())
}

/// The code of a function.
pub fn function_code(alloc: Global, names: &Names, f: &Function) -> Result<Code, NoMemory>
    requires shape { StatementsAre names.now f.now.body }
    requires few { length f.now.params ≤ 8 }
    requires room { BodyFits names.now f.now.body (modules.with_params [] f.now.params) (length f.now.params) }
    ensures { IfOk result (λ code. code ≡ modules.function_code names.now f.now) }
{
    let mut scope = Scope::new(alloc);
    let mut locals = Items::new(alloc);
    declare_params(&mut scope, &mut locals, f.params.as_slice())?;
    push_kinds(&mut locals, f.body.as_slice())?;
    let mut instrs = body_code(alloc, names, scope, f.body.as_slice())?;
    push_closing(&mut instrs, f.gives)?;
    Ok(Code {
        params: f.params.len() as u8,
        gives: gives_of(f.gives),
        locals,
        instrs,
    })
}

/// The code of a routine block. Its width and its number within the block are in its first two locals.
pub fn block_code(alloc: Global, names: &Names, block: &RoutineBlock) -> Result<Code, NoMemory>
    requires shape { StatementsAre names.now (out-RoutineBlock block.now).body }
    requires room { BlockFits names.now block.now }
    ensures { IfOk result (λ code. code ≡ modules.block_code names.now block.now) }
{
    let mut scope = Scope::new(alloc);
    scope.declare(&block.width_name.text, Ty::Int)?;
    scope.declare(&block.id_name.text, Ty::Int)?;
    let mut locals = Items::new(alloc);
    locals.push(Ty::Int)?;
    locals.push(Ty::Int)?;
    push_kinds(&mut locals, block.body.as_slice())?;
    let mut instrs = body_code(alloc, names, scope, block.body.as_slice())?;
    push_closing(&mut instrs, tree::Gives::Nothing)?;
    Ok(Code {
        params: 2,
        gives: Gives::Nothing,
        locals,
        instrs,
    })
}

/// The code of main.
pub fn main_code(alloc: Global, names: &Names, body: &[Stmt]) -> Result<Code, NoMemory>
    requires shape { StatementsAre names.now body.now }
    requires main { body.now ≡ names.now.main }
    requires room { BodyFits names.now body.now [] 0 }
    ensures { IfOk result (λ code. code ≡ modules.main_code names.now) }
{
    let mut locals = Items::new(alloc);
    push_kinds(&mut locals, body)?;
    let mut instrs = body_code(alloc, names, Scope::new(alloc), body)?;
    push_closing(&mut instrs, tree::Gives::Nothing)?;
    Ok(Code {
        params: 0,
        gives: Gives::Nothing,
        locals,
        instrs,
    })
}
