//! The routine blocks of main's steps, in the order of the source.

ghost use Rattle.std.specs.Prelude.{◌≡◌, ◌++◌, map, OnOk};
ghost use Rattle.compiled_code.specs.Sizes.{steps_in};
ghost use Rattle.compiled_code.specs.Modules as modules;
ghost use Rattle.compiled_code.specs.Shape.{FormIs};
ghost use Rattle.expression_code.specs.Lists.{steps_of, steps_of_arms, StatementsAre, AllArmsAre, RoutinesAre};
ghost use Rattle.compile_steps.specs.Writing.{BlocksFit};

use crate::bodies::block_code;
use bytecode::Code;
use cal_terms::NoMemory;
use csl_tree::program::{Arm, Form, RoutineBlock, Stmt};
use expression_code::names::Names;
use sqlite_items::Items;
use std::alloc::Global;

/// Appends the code of the blocks of a step.
fn push_step_blocks(
    alloc: Global,
    codes: &mut Items<Code>,
    names: &Names,
    blocks: &[RoutineBlock],
) -> Result<(), NoMemory>
    requires shape { RoutinesAre names.now blocks.now }
    requires room { BlocksFit names.now blocks.now }
    ensures { OnOk result (codes.new ≡ codes.old ++ map (λ b. modules.block_code names.now b) blocks.now) }
{
    for block in blocks {
        codes.push(block_code(alloc, names, block)?)?;
    }
    Ok(())
}

/// Appends the code of the blocks of the steps that statements open.
#[cycle(blocks)]
pub fn push_blocks(
    alloc: Global,
    codes: &mut Items<Code>,
    names: &Names,
    body: &[Stmt],
) -> Result<(), NoMemory>
    requires shape { StatementsAre names.now body.now }
    requires room { BlocksFit names.now (steps_of body.now) }
    ensures { OnOk result (codes.new ≡ codes.old ++ map (λ b. modules.block_code names.now b) (steps_of body.now)) }
{
    for s in body {
        push_form_blocks(alloc, codes, names, &s.form)?;
    }
    Ok(())
}

/// Appends the code of the blocks of the steps that a statement opens.
#[cycle(blocks)]
fn push_form_blocks(
    alloc: Global,
    codes: &mut Items<Code>,
    names: &Names,
    form: &Form,
) -> Result<(), NoMemory>
    requires shape { FormIs names.now form.now }
    requires room { BlocksFit names.now (steps_in form.now) }
    ensures { OnOk result (codes.new ≡ codes.old ++ map (λ b. modules.block_code names.now b) (steps_in form.now)) }
{
    match form {
        Form::If { arms, last } => {
            push_arm_blocks(alloc, codes, names, arms.as_slice())?;
            match last {
                None => Ok(()),
                Some(body) => push_blocks(alloc, codes, names, body.as_slice()),
            }
        }
        Form::While { body, .. } => push_blocks(alloc, codes, names, body.as_slice()),
        Form::For { body, .. } => push_blocks(alloc, codes, names, body.as_slice()),
        Form::Block(body) => push_blocks(alloc, codes, names, body.as_slice()),
        Form::Par(blocks) => push_step_blocks(alloc, codes, names, blocks.as_slice()),
        Form::Declare { .. }
        | Form::Set { .. }
        | Form::AddTo { .. }
        | Form::Break
        | Form::Continue
        | Form::Return(_)
        | Form::CallOf(_)
        | Form::Assert(_)
        | Form::Print(_) => Ok(()),
    }
}

/// Appends the code of the blocks of the steps that the arms of an `if` open.
#[cycle(blocks)]
fn push_arm_blocks(
    alloc: Global,
    codes: &mut Items<Code>,
    names: &Names,
    arms: &[Arm],
) -> Result<(), NoMemory>
    requires shape { AllArmsAre names.now arms.now }
    requires room { BlocksFit names.now (steps_of_arms arms.now) }
    ensures { OnOk result (codes.new ≡ codes.old ++ map (λ b. modules.block_code names.now b) (steps_of_arms arms.now)) }
{
    for arm in arms {
        push_blocks(alloc, codes, names, arm.body.as_slice())?;
    }
    Ok(())
}
