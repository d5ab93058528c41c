//! How many instructions the code of a part takes. It is known before the code is written, since jumps lead behind it.

ghost use Rattle.std.specs.Prelude.{◌≡◌, ◌+◌, ◌≤◌, [], ◌∷◌, ◌++◌, IfOk, OnOk, length};
ghost use Rattle.csl_tree.specs.declared.program.Arm.{out-Arm};
ghost use Rattle.compiled_code.specs.Sizes as code;
ghost use Rattle.compiled_code.specs.Sizes.{kinds_in};
ghost use Rattle.compiled_code.specs.Places as places;
ghost use Rattle.expression_code.specs.Lists.{adding_size, sizes_of, statements_size, all_arms_size, slots_after_all, kinds_of};
ghost use Rattle.expression_code.specs.Lists.{kinds_of_arms, kinds_of_last, one_arm_size, last_block_size};
ghost use Rattle.expression_code.specs.Asked.{asked, asked_by, asked_inside, asked_by_arms, asked_by_last};
ghost use Rattle.expression_code.specs.Counts.{IsSmall};

use crate::names::Names;
use crate::scope::{Scope, kind_of};
use cal_terms::NoMemory;
use csl_tree::program::{
    Arm, BinaryOp, Call, Expr, Form, Gives, Item, Node, Place, RoutineBlock, Stmt,
};
use sqlite_items::Items;
use std::alloc::Global;

fn operator_size(op: BinaryOp) -> u32
    ensures { result ≡ code.operator_size op }
{
    match op {
        BinaryOp::And | BinaryOp::Or => 3,
        _ => 1,
    }
}

/// The instructions of an expression.
#[cycle(value)]
pub fn value_size(e: &Expr) -> u32
    requires { IsSmall (code.size_of e.now) }
    ensures { result ≡ code.size_of e.now }
{
    match &e.node {
        Node::Number(_) | Node::Truth(_) => 1,
        Node::Read(place) => place_size(place) + 1,
        Node::CallOf(call) => call_size(call),
        Node::Unary(_, a) => value_size(a.get()) + 1,
        Node::Binary(op, a, b) => value_size(a.get()) + value_size(b.get()) + operator_size(*op),
        Node::Paren(a) => value_size(a.get()),
    }
}

/// The instructions of an index, if there is one.
#[cycle(value)]
fn place_size(place: &Place) -> u32
    requires { IsSmall (code.place_size place.now) }
    ensures { result ≡ code.place_size place.now }
{
    match &place.index {
        None => 0,
        Some(i) => value_size(i.get()),
    }
}

/// The instructions of a call with its arguments.
#[cycle(value)]
fn call_size(call: &Call) -> u32
    requires { IsSmall (code.call_size call.now) }
    ensures { result ≡ code.call_size call.now }
{
    values_size(call.args.as_slice()) + 1
}

#[cycle(value)]
fn values_size(args: &[Expr]) -> u32
    requires { IsSmall (sizes_of args.now) }
    ensures { result ≡ sizes_of args.now }
{
    let mut size = 0u32;
    for e in args {
        size += value_size(e);
    }
    size
}

fn items_size(items: &[Item]) -> u32
    requires { IsSmall (code.items_size items.now) }
    ensures { result ≡ code.items_size items.now }
{
    let mut size = 0u32;
    for item in items {
        if let Item::Value(e) = item {
            size += value_size(e);
        }
    }
    size
}

fn widths_size(blocks: &[RoutineBlock]) -> u32
    requires { IsSmall (code.widths_size blocks.now) }
    ensures { result ≡ code.widths_size blocks.now }
{
    let mut size = 0u32;
    for block in blocks {
        size += value_size(&block.width);
    }
    size
}

fn returned_size(given: &Option<Expr>) -> u32
    requires { IsSmall (code.returned_size given.now) }
    ensures { result ≡ code.returned_size given.now }
{
    match given {
        None => 0,
        Some(e) => value_size(e),
    }
}

fn drop_size(gives: Gives) -> u32
    ensures { result ≡ code.drop_size gives }
{
    match gives {
        Gives::Nothing => 0,
        Gives::Int | Gives::Bool => 1,
    }
}

/// An adding: three instructions for a local without an index, and one behind the index for any other place.
fn add_to_size(scope: &Scope, place: &Place, value: &Expr) -> u32
    requires { IsSmall (adding_size scope.now.slots place.now value.now) }
    ensures { result ≡ adding_size scope.now.slots place.now value.now }
{
    match &place.index {
        None => {
            if scope.find(&place.name.text).is_some() {
                value_size(value) + 3
            } else {
                value_size(value) + 1
            }
        }
        Some(i) => value_size(i.get()) + value_size(value) + 1,
    }
}

/// The instructions of a test with its branch, of so many behind it, and of a jump.
fn tested_size(test: &Expr, inside: u32) -> u32
    requires { IsSmall (code.size_of test.now + 1 + inside + 1) }
    ensures { result ≡ code.size_of test.now + 1 + inside + 1 }
{
    value_size(test) + 1 + inside + 1
}

/// The instructions of a `for`, of which the first statement, the block and the last statement take so many.
fn for_size(before: u32, test: &Expr, inside: u32, step: u32) -> u32
    requires { IsSmall (before + code.size_of test.now + 1 + inside + step + 1) }
    ensures { result ≡ before + code.size_of test.now + 1 + inside + step + 1 }
{
    before + value_size(test) + 1 + inside + step + 1
}

/// Takes a place among the sizes for one that is known later.
fn hold(sizes: &mut Items<u32>) -> Result<usize, NoMemory>
    ensures place { IfOk result (λ n. n ≡ length sizes.old) }
    ensures held { OnOk result (sizes.new ≡ sizes.old ++ 0 ∷ []) }
{
    let place = sizes.len();
    sizes.push(0)?;
    Ok(place)
}

/// The instructions of a statement. Its locals are declared in the scope, and the sizes for which its writer asks stand behind the others.
#[cycle(form)]
fn form_size(
    names: &Names,
    scope: &mut Scope,
    sizes: &mut Items<u32>,
    form: &Form,
) -> Result<u32, NoMemory>
    requires room { IsSmall (scope.old.next + places.form_size names.now form.now scope.old.slots scope.old.next) }
    ensures size { IfOk result (λ n. n ≡ places.form_size names.now form.now scope.old.slots scope.old.next) }
    ensures slots { OnOk result (scope.new.slots ≡ places.slots_after scope.old.slots scope.old.next form.now) }
    ensures next { OnOk result (scope.new.next ≡ scope.old.next + length (kinds_in form.now)) }
    ensures few { OnOk result (scope.new.next ≤ scope.old.next + places.form_size names.now form.now scope.old.slots scope.old.next) }
    ensures asked { OnOk result (sizes.new ≡ sizes.old ++ asked names.now form.now scope.old.slots scope.old.next) }
{
    match form {
        Form::Declare { ty, name, value } => {
            scope.declare(&name.text, kind_of(*ty))?;
            Ok(value_size(value) + 1)
        }
        Form::Set { place, value } => Ok(place_size(place) + value_size(value) + 1),
        Form::AddTo { place, value } => Ok(add_to_size(scope, place, value)),
        Form::If { arms, last } => {
            let place = hold(sizes)?;
            let front = arms_size(names, scope, sizes, arms.as_slice())?;
            let size = front + last_size(names, scope, sizes, last)?;
            sizes.set(place, size);
            Ok(size)
        }
        Form::While { test, body } => {
            let inside = inside_size(names, scope, sizes, body.as_slice())?;
            Ok(tested_size(test, inside))
        }
        Form::For {
            first,
            test,
            next,
            body,
        } => {
            // What is declared in front of the test is visible up to the end of the loop.
            let mark = scope.mark();
            let before = form_size(names, scope, sizes, &first.get().form)?;
            let place = hold(sizes)?;
            let inside = inside_size(names, scope, sizes, body.as_slice())?;
            let step = size_here(names, scope, sizes, &next.get().form)?;
            sizes.set(place, step);
            scope.leave(mark);
            Ok(for_size(before, test, inside, step))
        }
        Form::Break | Form::Continue => Ok(1),
        Form::Return(given) => Ok(returned_size(given) + 1),
        Form::CallOf(call) => Ok(call_size(call) + drop_size(names.gives(&call.name.text))),
        Form::Assert(e) => Ok(value_size(e) + 1),
        Form::Block(body) => block_size(names, scope, sizes, body.as_slice()),
        Form::Print(items) => Ok(items_size(items.as_slice()) + 1),
        Form::Par(blocks) => Ok(widths_size(blocks.as_slice()) + 1),
    }
}

/// The instructions of the statements of a block, whose locals are not visible behind it.
#[cycle(form)]
fn block_size(
    names: &Names,
    scope: &mut Scope,
    sizes: &mut Items<u32>,
    body: &[Stmt],
) -> Result<u32, NoMemory>
    requires room { IsSmall (scope.old.next + statements_size names.now body.now scope.old.slots scope.old.next) }
    ensures size { IfOk result (λ n. n ≡ statements_size names.now body.now scope.old.slots scope.old.next) }
    ensures slots { OnOk result (scope.new.slots ≡ scope.old.slots) }
    ensures next { OnOk result (scope.new.next ≡ scope.old.next + length (kinds_of body.now)) }
    ensures few { OnOk result (scope.new.next ≤ scope.old.next + statements_size names.now body.now scope.old.slots scope.old.next) }
    ensures asked { OnOk result (sizes.new ≡ sizes.old ++ asked_by names.now body.now scope.old.slots scope.old.next) }
{
    let mark = scope.mark();
    let size = all_size(names, scope, sizes, body)?;
    scope.leave(mark);
    Ok(size)
}

/// The instructions of a block that a branch leads past. Its own size stands in front of those in it.
#[cycle(form)]
fn inside_size(
    names: &Names,
    scope: &mut Scope,
    sizes: &mut Items<u32>,
    body: &[Stmt],
) -> Result<u32, NoMemory>
    requires room { IsSmall (scope.old.next + statements_size names.now body.now scope.old.slots scope.old.next) }
    ensures size { IfOk result (λ n. n ≡ statements_size names.now body.now scope.old.slots scope.old.next) }
    ensures slots { OnOk result (scope.new.slots ≡ scope.old.slots) }
    ensures next { OnOk result (scope.new.next ≡ scope.old.next + length (kinds_of body.now)) }
    ensures few { OnOk result (scope.new.next ≤ scope.old.next + statements_size names.now body.now scope.old.slots scope.old.next) }
    ensures asked { OnOk result (sizes.new ≡ sizes.old ++ asked_inside names.now body.now scope.old.slots scope.old.next) }
{
    let place = hold(sizes)?;
    let size = block_size(names, scope, sizes, body)?;
    sizes.set(place, size);
    Ok(size)
}

#[cycle(form)]
fn all_size(
    names: &Names,
    scope: &mut Scope,
    sizes: &mut Items<u32>,
    body: &[Stmt],
) -> Result<u32, NoMemory>
    requires room { IsSmall (scope.old.next + statements_size names.now body.now scope.old.slots scope.old.next) }
    ensures size { IfOk result (λ n. n ≡ statements_size names.now body.now scope.old.slots scope.old.next) }
    ensures slots { OnOk result (scope.new.slots ≡ slots_after_all scope.old.slots scope.old.next body.now) }
    ensures next { OnOk result (scope.new.next ≡ scope.old.next + length (kinds_of body.now)) }
    ensures few { OnOk result (scope.new.next ≤ scope.old.next + statements_size names.now body.now scope.old.slots scope.old.next) }
    ensures asked { OnOk result (sizes.new ≡ sizes.old ++ asked_by names.now body.now scope.old.slots scope.old.next) }
{
    let mut size = 0u32;
    for s in body {
        size += form_size(names, scope, sizes, &s.form)?;
    }
    Ok(size)
}

/// The instructions of an arm of an `if`: a test, a branch, a block and a jump.
#[cycle(form)]
fn arm_size(
    names: &Names,
    scope: &mut Scope,
    sizes: &mut Items<u32>,
    arm: &Arm,
) -> Result<u32, NoMemory>
    requires room { IsSmall (scope.old.next + one_arm_size names.now arm.now scope.old.slots scope.old.next) }
    ensures size { IfOk result (λ n. n ≡ one_arm_size names.now arm.now scope.old.slots scope.old.next) }
    ensures slots { OnOk result (scope.new.slots ≡ scope.old.slots) }
    ensures next { OnOk result (scope.new.next ≡ scope.old.next + length (kinds_of (out-Arm arm.now).body)) }
    ensures few { OnOk result (scope.new.next ≤ scope.old.next + one_arm_size names.now arm.now scope.old.slots scope.old.next) }
    ensures asked { OnOk result (sizes.new ≡ sizes.old
        ++ asked_inside names.now (out-Arm arm.now).body scope.old.slots scope.old.next) }
{
    let inside = inside_size(names, scope, sizes, arm.body.as_slice())?;
    Ok(tested_size(&arm.test, inside))
}

/// The instructions of the arms of an `if`.
#[cycle(form)]
fn arms_size(
    names: &Names,
    scope: &mut Scope,
    sizes: &mut Items<u32>,
    arms: &[Arm],
) -> Result<u32, NoMemory>
    requires room { IsSmall (scope.old.next + all_arms_size names.now arms.now scope.old.slots scope.old.next) }
    ensures size { IfOk result (λ n. n ≡ all_arms_size names.now arms.now scope.old.slots scope.old.next) }
    ensures slots { OnOk result (scope.new.slots ≡ scope.old.slots) }
    ensures next { OnOk result (scope.new.next ≡ scope.old.next + length (kinds_of_arms arms.now)) }
    ensures few { OnOk result (scope.new.next ≤ scope.old.next + all_arms_size names.now arms.now scope.old.slots scope.old.next) }
    ensures asked { OnOk result (sizes.new ≡ sizes.old ++ asked_by_arms names.now arms.now scope.old.slots scope.old.next) }
{
    let mut size = 0u32;
    for arm in arms {
        size += arm_size(names, scope, sizes, arm)?;
    }
    Ok(size)
}

/// The instructions of the last block of an `if`, if there is one.
#[cycle(form)]
fn last_size(
    names: &Names,
    scope: &mut Scope,
    sizes: &mut Items<u32>,
    last: &Option<Items<Stmt>>,
) -> Result<u32, NoMemory>
    requires room { IsSmall (scope.old.next + last_block_size names.now last.now scope.old.slots scope.old.next) }
    ensures size { IfOk result (λ n. n ≡ last_block_size names.now last.now scope.old.slots scope.old.next) }
    ensures slots { OnOk result (scope.new.slots ≡ scope.old.slots) }
    ensures next { OnOk result (scope.new.next ≡ scope.old.next + length (kinds_of_last last.now)) }
    ensures few { OnOk result (scope.new.next ≤ scope.old.next + last_block_size names.now last.now scope.old.slots scope.old.next) }
    ensures asked { OnOk result (sizes.new ≡ sizes.old ++ asked_by_last names.now last.now scope.old.slots scope.old.next) }
{
    match last {
        None => Ok(0),
        Some(body) => block_size(names, scope, sizes, body.as_slice()),
    }
}

/// The instructions of a statement that stands here, where the scope stays as it is.
#[cycle(form)]
fn size_here(
    names: &Names,
    scope: &mut Scope,
    sizes: &mut Items<u32>,
    form: &Form,
) -> Result<u32, NoMemory>
    requires room { IsSmall (scope.old.next + places.form_size names.now form.now scope.old.slots scope.old.next) }
    ensures size { IfOk result (λ n. n ≡ places.form_size names.now form.now scope.old.slots scope.old.next) }
    ensures same { OnOk result (scope.new ≡ scope.old) }
    ensures asked { OnOk result (sizes.new ≡ sizes.old ++ asked names.now form.now scope.old.slots scope.old.next) }
{
    let mark = scope.mark();
    let declared = scope.next();
    let size = form_size(names, scope, sizes, form)?;
    scope.reset(mark, declared);
    Ok(size)
}

/// The instructions of a body, and the sizes for which its writer asks, in order. Each statement is measured once.
/// The scope stays as it is.
pub fn body_sizes(
    alloc: Global,
    names: &Names,
    scope: &mut Scope,
    body: &[Stmt],
) -> Result<(u32, Items<u32>), NoMemory>
    requires room { IsSmall (scope.old.next + statements_size names.now body.now scope.old.slots scope.old.next) }
    ensures whole { IfOk result (λ n. n.0 ≡ statements_size names.now body.now scope.old.slots scope.old.next) }
    ensures asked { IfOk result (λ n. n.1 ≡ asked_by names.now body.now scope.old.slots scope.old.next) }
    ensures same { OnOk result (scope.new ≡ scope.old) }
{
    let mark = scope.mark();
    let declared = scope.next();
    let mut sizes = Items::new(alloc);
    let size = block_size(names, scope, &mut sizes, body)?;
    scope.reset(mark, declared);
    Ok((size, sizes))
}
