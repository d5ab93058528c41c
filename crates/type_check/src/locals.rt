//! The locals of a body.

ghost use Rattle.std.specs.Prelude.{◌≡◌, ◌++◌, OnOk};
ghost use Rattle.type_check.specs.Bodies.{locals_in};
ghost use Rattle.type_check.specs.Lists.{locals_of, locals_of_arms, positions};

use cal_terms::NoMemory;
use csl_tree::program::{Arm, Form, Stmt};
use sqlite_items::Items;

/// Appends the positions of the locals that statements declare.
#[cycle(locals)]
pub fn push_locals(at: &mut Items<u32>, all: &[Stmt]) -> Result<(), NoMemory>
    ensures { OnOk result (at.new ≡ at.old ++ positions (locals_of all.now)) }
{
    for s in all {
        push_form(at, &s.form)?;
    }
    Ok(())
}

/// Appends the positions of the locals that a statement declares.
#[cycle(locals)]
fn push_form(at: &mut Items<u32>, form: &Form) -> Result<(), NoMemory>
    ensures { OnOk result (at.new ≡ at.old ++ positions (locals_in form.now)) }
{
    match form {
        Form::Declare { name, .. } => {
            at.push(name.at)?;
            Ok(())
        }
        Form::If { arms, last } => {
            push_arms(at, arms.as_slice())?;
            match last {
                None => Ok(()),
                Some(body) => push_locals(at, body.as_slice()),
            }
        }
        Form::While { body, .. } => push_locals(at, body.as_slice()),
        Form::For { first, body, .. } => {
            push_form(at, &first.get().form)?;
            push_locals(at, body.as_slice())
        }
        Form::Block(body) => push_locals(at, body.as_slice()),
        Form::Set { .. }
        | Form::AddTo { .. }
        | Form::Break
        | Form::Continue
        | Form::Return(_)
        | Form::CallOf(_)
        | Form::Assert(_)
        | Form::Print(_)
        | Form::Par(_) => Ok(()),
    }
}

/// Appends the positions of the locals that the arms of an `if` declare.
#[cycle(locals)]
fn push_arms(at: &mut Items<u32>, arms: &[Arm]) -> Result<(), NoMemory>
    ensures { OnOk result (at.new ≡ at.old ++ positions (locals_of_arms arms.now)) }
{
    for arm in arms {
        push_locals(at, arm.body.as_slice())?;
    }
    Ok(())
}
