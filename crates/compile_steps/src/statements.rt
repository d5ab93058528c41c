//! The code of statements.

ghost use Rattle.std.specs.Prelude.{◌≡◌, ◌+◌, ◌++◌, length, IfOk, OnOk};
ghost use Rattle.compiled_code.specs.Shape.{FormIs};
ghost use Rattle.compiled_code.specs.Sizes.{size_of, place_size, call_size, returned_size, items_size, widths_size, item_texts};
ghost use Rattle.compiled_code.specs.Statements as statements;
ghost use Rattle.expression_code.specs.Lists.{adding_size, StatementsAre, AllArmsAre, LastBlockIs};
ghost use Rattle.expression_code.specs.Counts.{IsSmall};
ghost use Rattle.compile_steps.specs.Writing.{FormFits, AllFit, ArmsFit, LastFits, WhileFits, TestFits, WroteCode, WroteDeclare, WroteTest};
ghost use Rattle.compile_steps.specs.Writing.{FormMeasured, AllMeasured, InsideMeasured, ArmsMeasured, LastMeasured};
ghost use Rattle.compile_steps.specs.Writing.{WrotePrint, WroteStep, WroteForm, WroteAll, WroteBlock, WroteArms, WroteLast, WroteWhile};

use bytecode::Instr;
use cal_terms::NoMemory;
use csl_tree::name::Text;
use csl_tree::program::{Arm, Call, Expr, Form, Gives, Item, Place, RoutineBlock, Stmt, Ty};
use expression_code::names::Names;
use expression_code::scope::kind_of;
use expression_code::values::{printed_items, push_call, push_items, push_value, push_widths};
use expression_code::writer::{Writer, length_of, next_size};
use sqlite_items::Items;
use std::alloc::Global;

/// Writes the code of an assignment.
fn push_set(w: &mut Writer, names: &Names, place: &Place, value: &Expr) -> Result<(), NoMemory>
    requires { IsSmall (length w.old.instrs + (place_size place.now + size_of value.now)) }
    ensures { OnOk result (WroteCode (statements.set_code names.now w.old.scope.slots place.now value.now (length w.old.instrs)) w.old
        w.new) }
{
    match &place.index {
        None => {
            push_value(&mut w.instrs, names, &w.scope, value)?;
            let instr = match w.scope.find(&place.name.text) {
                Some(slot) => Instr::Store(slot.number()),
                None => Instr::Put(names.area(&place.name.text).first),
            };
            w.instrs.push(instr)?;
        }
        Some(i) => {
            push_value(&mut w.instrs, names, &w.scope, i.get())?;
            push_value(&mut w.instrs, names, &w.scope, value)?;
            let area = names.area(&place.name.text);
            w.instrs
                .push(Instr::SetItem(area.first, area.items.unwrap_or(0)))?;
        }
    }
    Ok(())
}

/// Writes the code of an adding.
fn push_add(w: &mut Writer, names: &Names, place: &Place, value: &Expr) -> Result<(), NoMemory>
    requires { IsSmall (length w.old.instrs + adding_size w.old.scope.slots place.now value.now) }
    ensures { OnOk result (WroteCode (statements.add_to_code names.now w.old.scope.slots place.now value.now (length w.old.instrs)) w.old
        w.new) }
{
    match &place.index {
        None => {
            push_value(&mut w.instrs, names, &w.scope, value)?;
            match w.scope.find(&place.name.text) {
                Some(slot) => {
                    let number = slot.number();
                    w.instrs.push(Instr::Load(number))?;
                    w.instrs.push(Instr::Add)?;
                    w.instrs.push(Instr::Store(number))?;
                }
                None => {
                    let area = names.area(&place.name.text);
                    w.instrs.push(Instr::AddWord(area.first))?;
                }
            }
        }
        Some(i) => {
            push_value(&mut w.instrs, names, &w.scope, i.get())?;
            push_value(&mut w.instrs, names, &w.scope, value)?;
            let area = names.area(&place.name.text);
            w.instrs
                .push(Instr::AddItem(area.first, area.items.unwrap_or(0)))?;
        }
    }
    Ok(())
}

/// Writes the code of a `return`.
fn push_return(w: &mut Writer, names: &Names, given: &Option<Expr>) -> Result<(), NoMemory>
    requires { IsSmall (length w.old.instrs + returned_size given.now) }
    ensures { OnOk result (WroteCode (statements.return_code names.now w.old.scope.slots given.now (length w.old.instrs)) w.old w.new) }
{
    if let Some(e) = given {
        push_value(&mut w.instrs, names, &w.scope, e)?;
    }
    w.instrs.push(Instr::Return)?;
    Ok(())
}

/// Writes the code of a line.
fn push_print(w: &mut Writer, alloc: Global, names: &Names, items: &[Item]) -> Result<(), NoMemory>
    requires values { IsSmall (length w.old.instrs + items_size items.now) }
    requires texts { IsSmall (w.old.text + length (item_texts items.now)) }
    ensures { OnOk result (WrotePrint names.now items.now w.old w.new) }
{
    push_items(&mut w.instrs, names, &w.scope, items)?;
    let printed = printed_items(alloc, names, &w.scope, items, w.text)?;
    w.instrs.push(Instr::Print(printed))?;
    w.text += texts_among(items);
    Ok(())
}

/// How many texts there are among the items of a line.
fn texts_among(items: &[Item]) -> u32
    requires { IsSmall (length (item_texts items.now)) }
    ensures { result ≡ length (item_texts items.now) }
{
    let mut count = 0u32;
    for item in items {
        if let Item::Text(_) = item {
            count += 1;
        }
    }
    count
}

/// Writes the code of a step.
fn push_step(w: &mut Writer, names: &Names, blocks: &[RoutineBlock]) -> Result<(), NoMemory>
    requires widths { IsSmall (length w.old.instrs + widths_size blocks.now) }
    requires blocks { IsSmall (w.old.block + length blocks.now) }
    ensures { OnOk result (WroteStep names.now blocks.now w.old w.new) }
{
    push_widths(&mut w.instrs, names, &w.scope, blocks)?;
    let count = length_of(blocks.len());
    w.instrs.push(Instr::Par(w.block, count))?;
    w.block += count;
    Ok(())
}

/// Writes the code of a declaration.
fn push_declare(
    w: &mut Writer,
    names: &Names,
    ty: Ty,
    name: &Text,
    value: &Expr,
) -> Result<(), NoMemory>
    requires value { IsSmall (length w.old.instrs + size_of value.now) }
    requires slot { IsSmall (w.old.scope.next + 1) }
    ensures { OnOk result (WroteDeclare names.now ty name.now value.now w.old w.new) }
{
    push_value(&mut w.instrs, names, &w.scope, value)?;
    w.instrs.push(Instr::Store(w.scope.next()))?;
    w.scope.declare(name, kind_of(ty))
}

/// Writes the code of a call whose result nobody takes.
fn push_call_statement(w: &mut Writer, names: &Names, call: &Call) -> Result<(), NoMemory>
    requires { IsSmall (length w.old.instrs + call_size call.now) }
    ensures { OnOk result (WroteCode (statements.statement_code names.now w.old.scope.slots call.now (length w.old.instrs)) w.old w.new) }
{
    push_call(&mut w.instrs, names, &w.scope, call)?;
    match names.gives(&call.name.text) {
        Gives::Nothing => {}
        Gives::Int | Gives::Bool => w.instrs.push(Instr::Pop)?,
    }
    Ok(())
}

/// Places around a block that has a test in front and a jump behind: of the test, of what stands behind the block, and of what stands
/// behind the jump.
#[derive(Clone, Copy)]
struct Around {
    test: u32,
    behind: u32,
    out: u32,
}

/// Writes the code of a test in front of a block of so many instructions. Where it is false, it leads on past the block, `more`
/// instructions behind the block and a jump.
fn push_test(
    w: &mut Writer,
    names: &Names,
    test: &Expr,
    inside: u32,
    more: u32,
) -> Result<Around, NoMemory>
    requires { TestFits test.now inside more w.old }
    ensures { IfOk result (λ around. WroteTest names.now test.now inside more 0 around w.old w.new) }
{
    let test_at = length_of(w.instrs.len());
    push_value(&mut w.instrs, names, &w.scope, test)?;
    let begin = length_of(w.instrs.len()) + 1;
    let behind = begin + inside;
    let out = behind + more + 1;
    w.instrs.push(Instr::Branch(out))?;
    Ok(Around {
        test: test_at,
        behind,
        out,
    })
}

/// Writes the code of a statement. A `break` goes to `on_break`, and a `continue` to `on_continue`.
#[cycle(write)]
pub fn push_form(
    w: &mut Writer,
    alloc: Global,
    names: &Names,
    form: &Form,
    on_break: u32,
    on_continue: u32,
) -> Result<(), NoMemory>
    requires shape { FormIs names.now form.now }
    requires room { FormFits names.now form.now w.old }
    requires measured { FormMeasured names.now form.now w.old }
    ensures { OnOk result (WroteForm names.now form.now (record { on_break = on_break; on_continue = on_continue }) w.old w.new) }
{
    match form {
        Form::Declare { ty, name, value } => push_declare(w, names, *ty, &name.text, value),
        Form::Set { place, value } => push_set(w, names, place, value),
        Form::AddTo { place, value } => push_add(w, names, place, value),
        Form::If { arms, last } => {
            let size = next_size(w);
            let end = length_of(w.instrs.len()) + size;
            push_arms(w, alloc, names, arms.as_slice(), on_break, on_continue, end)?;
            push_last(w, alloc, names, last, on_break, on_continue)
        }
        Form::While { test, body } => push_while(w, alloc, names, body.as_slice(), test),
        Form::For {
            first,
            test,
            next,
            body,
        } => {
            let mark = w.scope.mark();
            push_form(w, alloc, names, &first.get().form, on_break, on_continue)?;
            let next = &next.get().form;
            let step = next_size(w);
            let inside = next_size(w);
            let at = push_test(w, names, test, inside, step)?;
            push_block(w, alloc, names, body.as_slice(), at.out, at.behind)?;
            push_form(w, alloc, names, next, on_break, on_continue)?;
            w.instrs.push(Instr::Loop(at.test))?;
            w.scope.leave(mark);
            Ok(())
        }
        Form::Break => {
            w.instrs.push(Instr::Jump(on_break))?;
            Ok(())
        }
        Form::Continue => {
            w.instrs.push(Instr::Jump(on_continue))?;
            Ok(())
        }
        Form::Return(given) => push_return(w, names, given),
        Form::CallOf(call) => push_call_statement(w, names, call),
        Form::Assert(e) => {
            push_value(&mut w.instrs, names, &w.scope, e)?;
            w.instrs.push(Instr::Assert)?;
            Ok(())
        }
        Form::Block(body) => push_block(w, alloc, names, body.as_slice(), on_break, on_continue),
        Form::Print(items) => push_print(w, alloc, names, items.as_slice()),
        Form::Par(blocks) => push_step(w, names, blocks.as_slice()),
    }
}

/// Writes the code of a `while`.
#[cycle(write)]
fn push_while(
    w: &mut Writer,
    alloc: Global,
    names: &Names,
    body: &[Stmt],
    test: &Expr,
) -> Result<(), NoMemory>
    requires shape { StatementsAre names.now body.now }
    requires room { WhileFits names.now test.now body.now w.old }
    requires measured { InsideMeasured names.now body.now w.old }
    ensures { OnOk result (WroteWhile names.now test.now body.now w.old w.new) }
{
    let inside = next_size(w);
    let at = push_test(w, names, test, inside, 0)?;
    push_block(w, alloc, names, body, at.out, at.behind)?;
    w.instrs.push(Instr::Loop(at.test))?;
    Ok(())
}

/// Writes the statements of a block, whose locals are not visible behind it.
#[cycle(write)]
pub fn push_block(
    w: &mut Writer,
    alloc: Global,
    names: &Names,
    body: &[Stmt],
    on_break: u32,
    on_continue: u32,
) -> Result<(), NoMemory>
    requires shape { StatementsAre names.now body.now }
    requires room { AllFit names.now body.now w.old }
    requires measured { AllMeasured names.now body.now w.old }
    ensures { OnOk result (WroteBlock names.now body.now (record { on_break = on_break; on_continue = on_continue }) w.old w.new) }
{
    let mark = w.scope.mark();
    push_all(w, alloc, names, body, on_break, on_continue)?;
    w.scope.leave(mark);
    Ok(())
}

/// Writes statements, one behind the other.
#[cycle(write)]
fn push_all(
    w: &mut Writer,
    alloc: Global,
    names: &Names,
    body: &[Stmt],
    on_break: u32,
    on_continue: u32,
) -> Result<(), NoMemory>
    requires shape { StatementsAre names.now body.now }
    requires room { AllFit names.now body.now w.old }
    requires measured { AllMeasured names.now body.now w.old }
    ensures { OnOk result (WroteAll names.now body.now (record { on_break = on_break; on_continue = on_continue }) w.old w.new) }
{
    for s in body {
        push_form(w, alloc, names, &s.form, on_break, on_continue)?;
    }
    Ok(())
}

/// Writes the arms of an `if`: each test leads on to the next arm, each block to the end.
#[cycle(write)]
fn push_arms(
    w: &mut Writer,
    alloc: Global,
    names: &Names,
    arms: &[Arm],
    on_break: u32,
    on_continue: u32,
    end: u32,
) -> Result<(), NoMemory>
    requires shape { AllArmsAre names.now arms.now }
    requires room { ArmsFit names.now arms.now w.old }
    requires measured { ArmsMeasured names.now arms.now w.old }
    ensures { OnOk result (WroteArms names.now arms.now (record { on_break = on_break; on_continue = on_continue }) end w.old w.new) }
{
    for arm in arms {
        let inside = next_size(w);
        push_test(w, names, &arm.test, inside, 0)?;
        push_block(w, alloc, names, arm.body.as_slice(), on_break, on_continue)?;
        w.instrs.push(Instr::Jump(end))?;
    }
    Ok(())
}

/// Writes the last block of an `if`, if there is one.
#[cycle(write)]
fn push_last(
    w: &mut Writer,
    alloc: Global,
    names: &Names,
    last: &Option<Items<Stmt>>,
    on_break: u32,
    on_continue: u32,
) -> Result<(), NoMemory>
    requires shape { LastBlockIs names.now last.now }
    requires room { LastFits names.now last.now w.old }
    requires measured { LastMeasured names.now last.now w.old }
    ensures { OnOk result (WroteLast names.now last.now (record { on_break = on_break; on_continue = on_continue }) w.old w.new) }
{
    match last {
        None => Ok(()),
        Some(body) => push_block(w, alloc, names, body.as_slice(), on_break, on_continue),
    }
}
