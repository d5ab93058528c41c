//! What an instruction does to the kinds of the operands.

ghost use Rattle.std.specs.Prelude.{◌≡◌, ◌∷◌, ◌++◌, [], List, length, reverse, take, slice_get, IfOk, OnOk, Option};
ghost use Rattle.std.specs.Option.{option_copied};
ghost use Rattle.code_verify.specs.Kinds as spec;
ghost use Rattle.code_verify.specs.Walk.{Changes};

use crate::kinds::Kinds;
use bytecode::{Code, Gives, Instr, Module, PrintItem, Ty};
use cal_terms::NoMemory;

/// Takes this kind from the top, if it is there.
fn take_kind(kinds: &mut Kinds, kind: Ty) -> bool
    ensures hand { Changes result kinds.new.hand (spec.below (kind ∷ []) kinds.old.hand) }
    ensures known { kinds.new.known ≡ kinds.old.known }
{
    match kinds.pop() {
        None => false,
        Some(Ty::Int) => kind == Ty::Int,
        Some(Ty::Bool) => kind == Ty::Bool,
    }
}

/// Takes these kinds from the top, the first of them first, if they are there.
fn take_all(kinds: &mut Kinds, wanted: &[Ty]) -> bool
    ensures hand { Changes result kinds.new.hand (spec.below wanted.now kinds.old.hand) }
    ensures known { kinds.new.known ≡ kinds.old.known }
{
    let mut rest = wanted;
    while let Some((kind, others)) = rest.split_first() {
        if !take_kind(kinds, *kind) {
            return false;
        }
        rest = others;
    }
    true
}

/// Takes the kinds of parameters from the top, the last of them first, if they are there.
fn take_parameters(kinds: &mut Kinds, wanted: &[Ty]) -> bool
    ensures hand { Changes result kinds.new.hand (spec.below (reverse wanted.now) kinds.old.hand) }
    ensures known { kinds.new.known ≡ kinds.old.known }
{
    let mut rest = wanted;
    while let Some((kind, others)) = rest.split_last() {
        if !take_kind(kinds, *kind) {
            return false;
        }
        rest = others;
    }
    true
}

/// Takes the kind of a printed item from the top, if it has one and it is there.
fn take_item(kinds: &mut Kinds, item: PrintItem) -> bool
    ensures hand { Changes result kinds.new.hand (spec.below (spec.item_kinds item) kinds.old.hand) }
    ensures known { kinds.new.known ≡ kinds.old.known }
{
    match item {
        PrintItem::Text { index: _ } => true,
        PrintItem::Int => take_kind(kinds, Ty::Int),
        PrintItem::Truth => take_kind(kinds, Ty::Bool),
    }
}

/// Takes the kinds of a line's items from the top, if they are there.
fn take_items(kinds: &mut Kinds, items: &[PrintItem]) -> bool
    ensures hand { Changes result kinds.new.hand (spec.below (spec.items_kinds items.now) kinds.old.hand) }
    ensures known { kinds.new.known ≡ kinds.old.known }
{
    let mut rest = items;
    while let Some((item, others)) = rest.split_last() {
        if !take_item(kinds, *item) {
            return false;
        }
        rest = others;
    }
    true
}

/// Takes this many ints from the top, if they are there.
fn take_ints(kinds: &mut Kinds, count: u32) -> bool
    ensures hand { Changes result kinds.new.hand (spec.below (spec.ints count) kinds.old.hand) }
    ensures known { kinds.new.known ≡ kinds.old.known }
{
    for _ in 0..count {
        if !take_kind(kinds, Ty::Int) {
            return false;
        }
    }
    true
}

/// Puts a result on top, if there is one.
fn push_result(kinds: &mut Kinds, gives: Gives) -> Result<(), NoMemory>
    ensures hand { OnOk result (kinds.new.hand ≡ spec.result gives ++ kinds.old.hand) }
    ensures known { kinds.new.known ≡ kinds.old.known }
{
    match gives {
        Gives::Nothing => Ok(()),
        Gives::Int => kinds.push(Ty::Int),
        Gives::Bool => kinds.push(Ty::Bool),
    }
}

/// Puts a result in the place of these kinds, if they are on top.
fn swap(kinds: &mut Kinds, wanted: &[Ty], gives: Gives) -> Result<bool, NoMemory>
    ensures hand { IfOk result (λ yes. Changes yes kinds.new.hand (spec.swaps wanted.now (spec.result gives) kinds.old.hand)) }
    ensures known { kinds.new.known ≡ kinds.old.known }
{
    if !take_all(kinds, wanted) {
        return Ok(false);
    }
    push_result(kinds, gives)?;
    Ok(true)
}

/// The parameters of a function.
fn parameters_of(function: &Code) -> &[Ty]
    ensures { result.now ≡ take function.now.params function.now.locals }
{
    let locals = function.locals.as_slice();
    let count = usize::from(function.params);
    if locals.len() < count {
        return locals;
    }
    &locals[..count]
}

/// What a call of the function does, if there is one.
fn call(kinds: &mut Kinds, function: Option<&Code>) -> Result<bool, NoMemory>
    ensures hand { IfOk result (λ yes. Changes yes kinds.new.hand (spec.calls (option_copied function.entry) kinds.old.hand)) }
    ensures known { kinds.new.known ≡ kinds.old.known }
{
    match function {
        None => Ok(false),
        Some(function) => {
            if !take_parameters(kinds, parameters_of(function)) {
                return Ok(false);
            }
            push_result(kinds, function.gives)?;
            Ok(true)
        }
    }
}

/// Puts the kind of a local on top, if there is such a local.
fn load(kinds: &mut Kinds, local: Option<&Ty>) -> Result<bool, NoMemory>
    ensures hand { IfOk result (λ yes. Changes yes kinds.new.hand (spec.loads (option_copied local.entry) kinds.old.hand)) }
    ensures known { kinds.new.known ≡ kinds.old.known }
{
    match local {
        None => Ok(false),
        Some(kind) => {
            kinds.push(*kind)?;
            Ok(true)
        }
    }
}

/// Takes the kind of a local from the top, if there is such a local and the kind is there.
fn store(kinds: &mut Kinds, local: Option<&Ty>) -> bool
    ensures hand { Changes result kinds.new.hand (spec.stores (option_copied local.entry) kinds.old.hand) }
    ensures known { kinds.new.known ≡ kinds.old.known }
{
    match local {
        None => false,
        Some(kind) => take_kind(kinds, *kind),
    }
}

/// Takes two of one kind from the top, if they are there, and puts a truth in their place.
fn compare(kinds: &mut Kinds) -> Result<bool, NoMemory>
    ensures hand { IfOk result (λ yes. Changes yes kinds.new.hand (spec.compares kinds.old.hand)) }
    ensures known { kinds.new.known ≡ kinds.old.known }
{
    match kinds.pop() {
        None => Ok(false),
        Some(kind) => {
            if !take_kind(kinds, kind) {
                return Ok(false);
            }
            kinds.push(Ty::Bool)?;
            Ok(true)
        }
    }
}

/// What the instruction of the code does, where it finds what it pops.
pub fn after(kinds: &mut Kinds, m: &Module, c: &Code, instr: &Instr) -> Result<bool, NoMemory>
    ensures hand { IfOk result (λ yes. Changes yes kinds.new.hand (spec.after m.now c.now instr.now kinds.old.hand)) }
    ensures known { kinds.new.known ≡ kinds.old.known }
{
    match instr {
        Instr::Int(_) | Instr::Word(_) => swap(kinds, &[], Gives::Int),
        Instr::False | Instr::True => swap(kinds, &[], Gives::Bool),
        Instr::Add | Instr::Sub | Instr::Mul | Instr::Div | Instr::Rem => {
            swap(kinds, &[Ty::Int, Ty::Int], Gives::Int)
        }
        Instr::Neg | Instr::Item(_, _) => swap(kinds, &[Ty::Int], Gives::Int),
        Instr::Not => swap(kinds, &[Ty::Bool], Gives::Bool),
        Instr::Eq | Instr::Ne => compare(kinds),
        Instr::Lt | Instr::Le | Instr::Gt | Instr::Ge => {
            swap(kinds, &[Ty::Int, Ty::Int], Gives::Bool)
        }
        Instr::Load(l) => load(kinds, c.locals.get(*l as usize)),
        Instr::Store(l) => Ok(store(kinds, c.locals.get(*l as usize))),
        Instr::Put(_) | Instr::AddWord(_) => swap(kinds, &[Ty::Int], Gives::Nothing),
        Instr::SetItem(_, _) | Instr::AddItem(_, _) => {
            swap(kinds, &[Ty::Int, Ty::Int], Gives::Nothing)
        }
        Instr::Jump(_) | Instr::Loop(_) => Ok(true),
        Instr::Branch(_) | Instr::Assert => swap(kinds, &[Ty::Bool], Gives::Nothing),
        Instr::Call(f) => call(kinds, m.functions.get(*f as usize)),
        Instr::Return => match c.gives {
            Gives::Nothing => Ok(true),
            Gives::Int => swap(kinds, &[Ty::Int], Gives::Nothing),
            Gives::Bool => swap(kinds, &[Ty::Bool], Gives::Nothing),
        },
        Instr::Pop => Ok(kinds.pop().is_some()),
        Instr::Print(items) => Ok(take_items(kinds, items.as_slice())),
        Instr::Par(_, count) => Ok(take_ints(kinds, *count)),
    }
}
