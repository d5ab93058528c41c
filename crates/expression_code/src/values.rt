//! The code of expressions.

ghost use Rattle.std.specs.Prelude.{◌≡◌, ◌+◌, ◌++◌, length, IfOk, OnOk};
ghost use Rattle.csl_tree.specs.declared.program.BinaryOp.TheVariants.{And, Or};
ghost use Rattle.csl_meaning.specs.Layout.{area_of};
ghost use Rattle.csl_meaning.specs.Value.{declared};
ghost use Rattle.compiled_code.specs.Slots.{slot_of};
ghost use Rattle.compiled_code.specs.Values as values;
ghost use Rattle.compiled_code.specs.Statements as statements;
ghost use Rattle.compiled_code.specs.Sizes.{operator_size, size_of, place_size, call_size, items_size, widths_size, item_texts};
ghost use Rattle.expression_code.specs.Lists.{codes_of, right_code, sizes_of};
ghost use Rattle.expression_code.specs.Counts.{IsSmall};

use crate::names::Names;
use crate::scope::Scope;
use crate::writer::length_of;
use bytecode::{Instr, PrintItem, Ty};
use cal_terms::NoMemory;
use csl_meaning::Area;
use csl_tree::name::Text;
use csl_tree::program::{BinaryOp, Call, Expr, Gives, Item, Node, Place, RoutineBlock, UnaryOp};
use sqlite_items::Items;
use std::alloc::Global;

fn unary_instr(op: UnaryOp) -> Instr
    ensures { result ≡ values.unary_instr op }
{
    match op {
        UnaryOp::Neg => Instr::Neg,
        UnaryOp::Not => Instr::Not,
    }
}

/// The instruction of an operator that takes both operands. `&&` and `||` have code of their own.
fn binary_instr(op: BinaryOp) -> Instr
    ensures { result ≡ values.binary_instr op }
{
    match op {
        BinaryOp::Add => Instr::Add,
        BinaryOp::Sub => Instr::Sub,
        BinaryOp::Mul => Instr::Mul,
        BinaryOp::Div => Instr::Div,
        BinaryOp::Rem => Instr::Rem,
        BinaryOp::Eq => Instr::Eq,
        BinaryOp::Ne => Instr::Ne,
        BinaryOp::Lt => Instr::Lt,
        BinaryOp::Le => Instr::Le,
        BinaryOp::Gt => Instr::Gt,
        BinaryOp::Ge => Instr::Ge,
        BinaryOp::And | BinaryOp::Or => Instr::Pop,
    }
}

fn truth_instr(b: bool) -> Instr
    ensures { result ≡ values.truth_instr b }
{
    if b { Instr::True } else { Instr::False }
}

/// How a name without an index is read: it is a local, else a shared word.
fn read_instr(names: &Names, scope: &Scope, name: &Text) -> Instr
    ensures { result ≡ values.read_instr (slot_of scope.now.slots name.now) (declared (area_of names.now.shared name.now)) }
{
    match scope.find(name) {
        Some(slot) => Instr::Load(slot.number()),
        None => Instr::Word(names.area(name).first),
    }
}

/// How an item of an array is read.
fn item_instr(area: Area) -> Instr
    ensures { result ≡ values.item_instr area }
{
    Instr::Item(area.first, area.items.unwrap_or(0))
}

/// Writes the code of an expression, which leaves its value on top of the operands.
#[cycle(write)]
pub fn push_value(
    instrs: &mut Items<Instr>,
    names: &Names,
    scope: &Scope,
    e: &Expr,
) -> Result<(), NoMemory>
    requires { IsSmall (length instrs.old + size_of e.now) }
    ensures { OnOk result (instrs.new ≡ instrs.old ++ values.code_of names.now scope.now.slots e.now (length instrs.old)) }
{
    match &e.node {
        Node::Number(z) => {
            instrs.push(Instr::Int(*z))?;
            Ok(())
        }
        Node::Truth(b) => {
            instrs.push(truth_instr(*b))?;
            Ok(())
        }
        Node::Read(place) => push_read(instrs, names, scope, place),
        Node::CallOf(call) => push_call(instrs, names, scope, call),
        Node::Unary(op, a) => {
            push_value(instrs, names, scope, a.get())?;
            instrs.push(unary_instr(*op))?;
            Ok(())
        }
        Node::Binary(op, a, b) => {
            push_value(instrs, names, scope, a.get())?;
            push_right(instrs, names, scope, *op, b.get())
        }
        Node::Paren(a) => push_value(instrs, names, scope, a.get()),
    }
}

/// Writes the code of an operator and of its right operand, behind that of the left one.
#[cycle(write)]
fn push_right(
    instrs: &mut Items<Instr>,
    names: &Names,
    scope: &Scope,
    op: BinaryOp,
    b: &Expr,
) -> Result<(), NoMemory>
    requires { IsSmall (length instrs.old + size_of b.now + operator_size op) }
    ensures { OnOk result (instrs.new ≡ instrs.old ++ right_code op (length instrs.old) (size_of b.now)
        (λ at. values.code_of names.now scope.now.slots b.now at)) }
{
    match op {
        BinaryOp::And => push_and(instrs, names, scope, b),
        BinaryOp::Or => push_or(instrs, names, scope, b),
        _ => {
            push_value(instrs, names, scope, b)?;
            instrs.push(binary_instr(op))?;
            Ok(())
        }
    }
}

/// Writes the right operand of an `&&`, which is skipped where the left one is false. The branch gets its place when the operand is written.
#[cycle(write)]
fn push_and(
    instrs: &mut Items<Instr>,
    names: &Names,
    scope: &Scope,
    b: &Expr,
) -> Result<(), NoMemory>
    requires { IsSmall (length instrs.old + size_of b.now + 3) }
    ensures { OnOk result (instrs.new ≡ instrs.old ++ right_code And (length instrs.old) (size_of b.now)
        (λ at. values.code_of names.now scope.now.slots b.now at)) }
{
    let branch = instrs.len();
    instrs.push(Instr::Branch(0))?;
    push_value(instrs, names, scope, b)?;
    let no = length_of(instrs.len()) + 1;
    let end = no + 1;
    instrs.push(Instr::Jump(end))?;
    instrs.push(Instr::False)?;
    instrs.set(branch, Instr::Branch(no));
    Ok(())
}

/// Writes the right operand of an `||`, which is skipped where the left one is true. The jump gets its place when the operand is written.
#[cycle(write)]
fn push_or(
    instrs: &mut Items<Instr>,
    names: &Names,
    scope: &Scope,
    b: &Expr,
) -> Result<(), NoMemory>
    requires { IsSmall (length instrs.old + size_of b.now + 3) }
    ensures { OnOk result (instrs.new ≡ instrs.old ++ right_code Or (length instrs.old) (size_of b.now)
        (λ at. values.code_of names.now scope.now.slots b.now at)) }
{
    let other = length_of(instrs.len()) + 3;
    instrs.push(Instr::Branch(other))?;
    instrs.push(Instr::True)?;
    let jump = instrs.len();
    instrs.push(Instr::Jump(0))?;
    push_value(instrs, names, scope, b)?;
    let end = length_of(instrs.len());
    instrs.set(jump, Instr::Jump(end));
    Ok(())
}

/// Writes the code of a place that is read.
#[cycle(write)]
fn push_read(
    instrs: &mut Items<Instr>,
    names: &Names,
    scope: &Scope,
    place: &Place,
) -> Result<(), NoMemory>
    requires { IsSmall (length instrs.old + place_size place.now) }
    ensures { OnOk result (instrs.new ≡ instrs.old ++ values.read_code names.now scope.now.slots place.now (length instrs.old)) }
{
    match &place.index {
        None => {
            instrs.push(read_instr(names, scope, &place.name.text))?;
            Ok(())
        }
        Some(i) => {
            push_value(instrs, names, scope, i.get())?;
            instrs.push(item_instr(names.area(&place.name.text)))?;
            Ok(())
        }
    }
}

/// Writes the code of a call behind its arguments.
#[cycle(write)]
pub fn push_call(
    instrs: &mut Items<Instr>,
    names: &Names,
    scope: &Scope,
    call: &Call,
) -> Result<(), NoMemory>
    requires { IsSmall (length instrs.old + call_size call.now) }
    ensures { OnOk result (instrs.new ≡ instrs.old ++ values.call_code names.now scope.now.slots call.now (length instrs.old)) }
{
    push_values(instrs, names, scope, call.args.as_slice())?;
    let number = names.function_number(&call.name.text);
    instrs.push(Instr::Call(number))?;
    Ok(())
}

/// Writes the code of several expressions, one behind the other.
#[cycle(write)]
fn push_values(
    instrs: &mut Items<Instr>,
    names: &Names,
    scope: &Scope,
    args: &[Expr],
) -> Result<(), NoMemory>
    requires { IsSmall (length instrs.old + sizes_of args.now) }
    ensures { OnOk result (instrs.new ≡ instrs.old ++ codes_of names.now scope.now.slots args.now (length instrs.old)) }
{
    for e in args {
        push_value(instrs, names, scope, e)?;
    }
    Ok(())
}

// ---- lines

fn given_kind(gives: Gives) -> Ty
    ensures { result ≡ values.given_kind gives }
{
    match gives {
        Gives::Nothing | Gives::Int => Ty::Int,
        Gives::Bool => Ty::Bool,
    }
}

fn unary_kind(op: UnaryOp) -> Ty
    ensures { result ≡ values.unary_kind op }
{
    match op {
        UnaryOp::Neg => Ty::Int,
        UnaryOp::Not => Ty::Bool,
    }
}

fn binary_kind(op: BinaryOp) -> Ty
    ensures { result ≡ values.binary_kind op }
{
    match op {
        BinaryOp::Add | BinaryOp::Sub | BinaryOp::Mul | BinaryOp::Div | BinaryOp::Rem => Ty::Int,
        _ => Ty::Bool,
    }
}

/// The kind of a name without an index: a local has its own, and a word is an int.
fn name_kind(scope: &Scope, name: &Text) -> Ty
    ensures { result ≡ values.name_kind (slot_of scope.now.slots name.now) }
{
    match scope.find(name) {
        Some(slot) => slot.kind(),
        None => Ty::Int,
    }
}

/// The kind of an expression's value.
fn kind_in(names: &Names, scope: &Scope, e: &Expr) -> Ty
    ensures { result ≡ values.kind_in names.now scope.now.slots e.now.node }
{
    match &e.node {
        Node::Number(_) => Ty::Int,
        Node::Truth(_) => Ty::Bool,
        Node::Read(place) => match &place.index {
            None => name_kind(scope, &place.name.text),
            Some(_) => Ty::Int,
        },
        Node::CallOf(call) => given_kind(names.gives(&call.name.text)),
        Node::Unary(op, _) => unary_kind(*op),
        Node::Binary(op, _, _) => binary_kind(*op),
        Node::Paren(a) => kind_in(names, scope, a.get()),
    }
}

/// How the value of a kind is printed.
fn printed_kind(kind: Ty) -> PrintItem
    ensures { result ≡ statements.printed_kind kind }
{
    match kind {
        Ty::Int => PrintItem::Int,
        Ty::Bool => PrintItem::Truth,
    }
}

/// Writes the code of the values of a line.
pub fn push_items(
    instrs: &mut Items<Instr>,
    names: &Names,
    scope: &Scope,
    items: &[Item],
) -> Result<(), NoMemory>
    requires { IsSmall (length instrs.old + items_size items.now) }
    ensures { OnOk result (instrs.new ≡ instrs.old ++ statements.items_code names.now scope.now.slots items.now (length instrs.old)) }
{
    for item in items {
        match item {
            Item::Text(_) => {}
            Item::Value(e) => push_value(instrs, names, scope, e)?,
        }
    }
    Ok(())
}

/// The items of a line, whose texts are numbered from this one on.
pub fn printed_items(
    alloc: Global,
    names: &Names,
    scope: &Scope,
    items: &[Item],
    text: u32,
) -> Result<Items<PrintItem>, NoMemory>
    requires { IsSmall (text + length (item_texts items.now)) }
    ensures { IfOk result (λ printed. printed ≡ statements.printed_items names.now scope.now.slots items.now text) }
{
    let mut printed = Items::new(alloc);
    let mut index = text;
    for item in items {
        match item {
            Item::Text(_) => {
                printed.push(PrintItem::Text { index })?;
                index += 1;
            }
            Item::Value(e) => {
                printed.push(printed_kind(kind_in(names, scope, e)))?;
            }
        }
    }
    Ok(printed)
}

/// Writes the code of the widths of a step.
pub fn push_widths(
    instrs: &mut Items<Instr>,
    names: &Names,
    scope: &Scope,
    blocks: &[RoutineBlock],
) -> Result<(), NoMemory>
    requires { IsSmall (length instrs.old + widths_size blocks.now) }
    ensures { OnOk result (instrs.new ≡ instrs.old ++ statements.widths_code names.now scope.now.slots blocks.now (length instrs.old)) }
{
    for block in blocks {
        push_value(instrs, names, scope, &block.width)?;
    }
    Ok(())
}
