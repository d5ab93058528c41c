//! The kinds of the locals of a body.

ghost use Rattle.std.specs.Prelude.{◌≡◌, ◌++◌, OnOk};
ghost use Rattle.compiled_code.specs.Sizes.{kinds_in};
ghost use Rattle.expression_code.specs.Lists.{kinds_of, kinds_of_arms};

use crate::scope::kind_of;
use bytecode::Ty;
use cal_terms::NoMemory;
use csl_tree::program::{Arm, Form, Stmt};
use sqlite_items::Items;

/// Appends the kinds of the locals that statements declare.
#[cycle(kinds)]
pub fn push_kinds(kinds: &mut Items<Ty>, body: &[Stmt]) -> Result<(), NoMemory>
    ensures { OnOk result (kinds.new ≡ kinds.old ++ kinds_of body.now) }
{
    for s in body {
        push_form_kinds(kinds, &s.form)?;
    }
    Ok(())
}

/// Appends the kinds of the locals that a statement declares.
#[cycle(kinds)]
fn push_form_kinds(kinds: &mut Items<Ty>, form: &Form) -> Result<(), NoMemory>
    ensures { OnOk result (kinds.new ≡ kinds.old ++ kinds_in form.now) }
{
    match form {
        Form::Declare { ty, .. } => {
            kinds.push(kind_of(*ty))?;
            Ok(())
        }
        Form::If { arms, last } => {
            push_arm_kinds(kinds, arms.as_slice())?;
            match last {
                None => Ok(()),
                Some(body) => push_kinds(kinds, body.as_slice()),
            }
        }
        Form::While { body, .. } => push_kinds(kinds, body.as_slice()),
        Form::For { first, body, .. } => {
            push_form_kinds(kinds, &first.get().form)?;
            push_kinds(kinds, body.as_slice())
        }
        Form::Block(body) => push_kinds(kinds, body.as_slice()),
        Form::Set { .. }
        | Form::AddTo { .. }
        | Form::Break
        | Form::Continue
        | Form::Return(_)
        | Form::CallOf(_)
        | Form::Assert(_)
        | Form::Print(_)
        | Form::Par(_) => Ok(()),
    }
}

/// Appends the kinds of the locals that the arms of an `if` declare.
#[cycle(kinds)]
fn push_arm_kinds(kinds: &mut Items<Ty>, arms: &[Arm]) -> Result<(), NoMemory>
    ensures { OnOk result (kinds.new ≡ kinds.old ++ kinds_of_arms arms.now) }
{
    for arm in arms {
        push_kinds(kinds, arm.body.as_slice())?;
    }
    Ok(())
}
