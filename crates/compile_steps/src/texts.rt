//! The texts that main prints, in the order of the source.

ghost use Rattle.std.specs.Prelude.{◌≡◌, ◌++◌, OnOk};
ghost use Rattle.compiled_code.specs.Sizes.{texts_in, item_texts};
ghost use Rattle.expression_code.specs.Lists.{texts_of, texts_of_arms};

use bytecode::Text;
use cal_terms::NoMemory;
use csl_tree::program::{Arm, Form, Item, Stmt};
use sqlite_items::Items;
use std::alloc::Global;

/// Appends the texts among the items of a `print`.
fn push_item_texts(alloc: Global, texts: &mut Items<Text>, items: &[Item]) -> Result<(), NoMemory>
    ensures { OnOk result (texts.new ≡ texts.old ++ item_texts items.now) }
{
    for item in items {
        if let Item::Text(name) = item {
            let text = Text::from_slice(alloc, name.text.as_slice())?;
            texts.push(text)?;
        }
    }
    Ok(())
}

/// Appends the texts that statements print.
#[cycle(texts)]
pub fn push_texts(alloc: Global, texts: &mut Items<Text>, body: &[Stmt]) -> Result<(), NoMemory>
    ensures { OnOk result (texts.new ≡ texts.old ++ texts_of body.now) }
{
    for s in body {
        push_form_texts(alloc, texts, &s.form)?;
    }
    Ok(())
}

/// Appends the texts that a statement prints.
#[cycle(texts)]
fn push_form_texts(alloc: Global, texts: &mut Items<Text>, form: &Form) -> Result<(), NoMemory>
    ensures { OnOk result (texts.new ≡ texts.old ++ texts_in form.now) }
{
    match form {
        Form::If { arms, last } => {
            push_arm_texts(alloc, texts, arms.as_slice())?;
            match last {
                None => Ok(()),
                Some(body) => push_texts(alloc, texts, body.as_slice()),
            }
        }
        Form::While { body, .. } | Form::For { body, .. } => {
            push_texts(alloc, texts, body.as_slice())
        }
        Form::Block(body) => push_texts(alloc, texts, body.as_slice()),
        Form::Print(items) => push_item_texts(alloc, texts, items.as_slice()),
        Form::Declare { .. }
        | Form::Set { .. }
        | Form::AddTo { .. }
        | Form::Break
        | Form::Continue
        | Form::Return(_)
        | Form::CallOf(_)
        | Form::Assert(_)
        | Form::Par(_) => Ok(()),
    }
}

/// Appends the texts that the arms of an `if` print.
#[cycle(texts)]
fn push_arm_texts(alloc: Global, texts: &mut Items<Text>, arms: &[Arm]) -> Result<(), NoMemory>
    ensures { OnOk result (texts.new ≡ texts.old ++ texts_of_arms arms.now) }
{
    for arm in arms {
        push_texts(alloc, texts, arm.body.as_slice())?;
    }
    Ok(())
}
