//! Statements.

ghost use Rattle.std.specs.Prelude.{◌≡◌, ◌++◌, OnOk, map};
ghost use Rattle.type_check.specs.declared.names.Declaration.TheVariants as declaration;
ghost use Rattle.type_check.specs.Names as spec;
ghost use Rattle.type_check.specs.Expressions as expressions;
ghost use Rattle.type_check.specs.Statements as statements;
ghost use Rattle.type_check.specs.Bodies.{after};
ghost use Rattle.type_check.specs.Listed.{beyond};
ghost use Rattle.type_check.specs.Noted.{noted};
ghost use Rattle.type_check.specs.Lists.{statements_of, arms_of, after_all, block_at, blocks_of, step_of, routine_of};

use crate::body::{Body, Here};
use crate::expr::{
    check_call, check_expr, check_place, given, meant, note_place_tally, of_ty, same, want,
    want_value,
};
use crate::fault::CheckKind;
use crate::found::Found;
use crate::locals::push_locals;
use crate::names::{Declaration, Typed};
use crate::table::Table;
use cal_terms::NoMemory;
use csl_tree::name::Name;
use csl_tree::program::{Arm, Expr, Form, Gives, Item, Place, RoutineBlock, Stmt, Ty};
use sqlite_items::Items;
use std::alloc::Global;

/// The most items of a `print`.
const MOST_ITEMS: usize = 64;

/// The most locals of a body, parameters counted.
const MOST_LOCALS: usize = 64;

/// The most routine blocks of a step.
const MOST_BLOCKS: usize = 64;

fn is_main(body: Body) -> bool
    ensures { result ≡ statements.is_main body }
{
    match body {
        Body::Main => true,
        Body::Function(_) | Body::Routine => false,
    }
}

fn result_of(body: Body) -> Gives
    ensures { result ≡ statements.result_of body }
{
    match body {
        Body::Function(gives) => gives,
        Body::Main | Body::Routine => Gives::Nothing,
    }
}

/// One more local.
pub(crate) fn declare_local(
    globals: &Table,
    locals: &mut Table,
    name: &Name,
    ty: Ty,
) -> Result<(), NoMemory>
    ensures { OnOk result (globals.now ++ locals.new ≡ spec.declare (globals.now ++ locals.old) name.now (declaration.Local ty)) }
{
    match meant(globals, locals, name) {
        Some(_) => Ok(()),
        None => locals.add(name, Declaration::Local(ty)),
    }
}

/// Notes a declared name that is visible already.
pub(crate) fn note_taken(found: &mut Found, globals: &Table, locals: &Table, name: &Name)
    ensures { found.new ≡ noted found.old (spec.taken (globals.now ++ locals.now) name.now) }
{
    let taken = meant(globals, locals, name).is_some();
    found.note_if(taken, CheckKind::NameTaken, name.at);
}

/// Notes the faults of an expression of the wanted type.
fn check_value(
    found: &mut Found,
    body: Body,
    globals: &Table,
    locals: &Table,
    wanted: Typed,
    e: &Expr,
)
    ensures { found.new ≡ noted found.old (expressions.value_faults body (globals.now ++ locals.now) wanted e.now) }
{
    let part = check_expr(found, body, globals, locals, e);
    want(found, wanted, part);
}

/// Notes the place of `+=` that is a bool.
fn note_bool(found: &mut Found, globals: &Table, locals: &Table, place: &Place, typed: Typed)
    requires { typed ≡ expressions.place_type (globals.now ++ locals.now) place.now }
    ensures { found.new ≡ noted found.old (statements.no_bool (globals.now ++ locals.now) place.now) }
{
    match &place.index {
        None => found.note_if(
            same(Typed::Bool, typed),
            CheckKind::WrongType,
            place.name.at,
        ),
        Some(_) => {}
    }
}

/// Notes the faults of a `return`.
fn check_return(
    found: &mut Found,
    body: Body,
    globals: &Table,
    locals: &Table,
    at: u32,
    value: &Option<Expr>,
)
    ensures { found.new ≡ noted found.old (statements.return_faults body (globals.now ++ locals.now) at (statements.result_of body)
        value.now) }
{
    match (result_of(body), value) {
        (Gives::Nothing, None) => {}
        (Gives::Nothing, Some(e)) => {
            found.note(CheckKind::WrongReturn, at);
            let _part = check_expr(found, body, globals, locals, e);
        }
        (Gives::Int, None) => found.note(CheckKind::WrongReturn, at),
        (Gives::Bool, None) => found.note(CheckKind::WrongReturn, at),
        (Gives::Int, Some(e)) => check_value(found, body, globals, locals, Typed::Int, e),
        (Gives::Bool, Some(e)) => check_value(found, body, globals, locals, Typed::Bool, e),
    }
}

/// Notes the faults of the items of a `print`.
fn check_items(found: &mut Found, body: Body, globals: &Table, locals: &Table, items: &[Item])
    ensures { found.new ≡ noted found.old (statements.item_faults body (globals.now ++ locals.now) items.now) }
{
    for item in items {
        match item {
            Item::Text(_) => {}
            Item::Value(e) => {
                let part = check_expr(found, body, globals, locals, e);
                want_value(found, part);
            }
        }
    }
}

fn item_at(item: &Item) -> u32
    ensures { result ≡ statements.item_at item.now }
{
    match item {
        Item::Text(text) => text.at,
        Item::Value(e) => e.at,
    }
}

/// Notes the first item of a `print` after the 64th.
fn note_many_items(found: &mut Found, items: &[Item])
    ensures { found.new ≡ noted found.old (beyond statements.most_items (map statements.item_at items.now)) }
{
    match items.get(MOST_ITEMS) {
        Some(item) => found.note(CheckKind::Limit, item_at(item)),
        None => {}
    }
}

/// Notes the first of these positions after the 64th.
pub(crate) fn note_many_locals(found: &mut Found, at: &[u32])
    ensures { found.new ≡ noted found.old (beyond statements.most_locals at.now) }
{
    match at.get(MOST_LOCALS) {
        Some(at) => found.note(CheckKind::Limit, *at),
        None => {}
    }
}

/// Notes the first routine block of a step after the 64th.
fn note_many_blocks(found: &mut Found, blocks: &[RoutineBlock])
    ensures { found.new ≡ noted found.old (beyond statements.most_blocks (map block_at blocks.now)) }
{
    match blocks.get(MOST_BLOCKS) {
        Some(block) => found.note(CheckKind::Limit, block.at),
        None => {}
    }
}

/// Notes the faults of a statement, and declares its local.
#[cycle(stmt)]
fn check_stmt(
    alloc: Global,
    found: &mut Found,
    here: Here,
    globals: &Table,
    locals: &mut Table,
    s: &Stmt,
) -> Result<(), NoMemory>
    ensures found { OnOk result (found.new ≡ noted found.old (statements.faults globals.now here (globals.now ++ locals.old) s.now.at
        s.now.form)) }
    ensures names { OnOk result (globals.now ++ locals.new ≡ after (globals.now ++ locals.old) s.now.form) }
{
    let body = here.body;
    match &s.form {
        Form::Declare { ty, name, value } => {
            check_value(found, body, globals, locals, of_ty(*ty), value);
            note_taken(found, globals, locals, name);
            declare_local(globals, locals, name, *ty)
        }
        Form::Set { place, value } => {
            let typed = check_place(found, body, globals, locals, place);
            note_place_tally(found, body, globals, locals, place);
            check_value(found, body, globals, locals, typed, value);
            Ok(())
        }
        Form::AddTo { place, value } => {
            let typed = check_place(found, body, globals, locals, place);
            note_bool(found, globals, locals, place, typed);
            check_value(found, body, globals, locals, typed, value);
            Ok(())
        }
        Form::If { arms, last } => {
            check_arms(alloc, found, here, globals, locals, arms.as_slice())?;
            match last {
                None => Ok(()),
                Some(block) => check_block(alloc, found, here, globals, locals, block.as_slice()),
            }
        }
        Form::While { test, body: block } => {
            check_value(found, body, globals, locals, Typed::Bool, test);
            let inner = Here { body, looped: true };
            check_block(alloc, found, inner, globals, locals, block.as_slice())
        }
        Form::For {
            first,
            test,
            next,
            body: block,
        } => {
            let outer = locals.len();
            check_stmt(alloc, found, here, globals, locals, first.get())?;
            check_value(found, body, globals, locals, Typed::Bool, test);
            check_alone(alloc, found, here, globals, locals, next.get())?;
            let inner = Here { body, looped: true };
            check_block(alloc, found, inner, globals, locals, block.as_slice())?;
            locals.truncate(outer);
            Ok(())
        }
        Form::Break | Form::Continue => {
            found.note_if(!here.looped, CheckKind::NotInLoop, s.at);
            Ok(())
        }
        Form::Return(value) => {
            check_return(found, body, globals, locals, s.at, value);
            Ok(())
        }
        Form::CallOf(call) => {
            let _typed = check_call(found, body, globals, locals, call);
            Ok(())
        }
        Form::Assert(e) => {
            check_value(found, body, globals, locals, Typed::Bool, e);
            Ok(())
        }
        Form::Block(block) => check_block(alloc, found, here, globals, locals, block.as_slice()),
        Form::Print(items) => {
            found.note_if(!is_main(body), CheckKind::OnlyInMain, s.at);
            check_items(found, body, globals, locals, items.as_slice());
            note_many_items(found, items.as_slice());
            Ok(())
        }
        Form::Par(blocks) => check_step(alloc, found, body, globals, locals, s.at, blocks),
    }
}

/// Notes the faults of a statement that declares nothing, as the step of a `for`.
#[cycle(stmt)]
fn check_alone(
    alloc: Global,
    found: &mut Found,
    here: Here,
    globals: &Table,
    locals: &mut Table,
    s: &Stmt,
) -> Result<(), NoMemory>
    ensures found { OnOk result (found.new ≡ noted found.old (statements.faults globals.now here (globals.now ++ locals.old) s.now.at
        s.now.form)) }
    ensures names { OnOk result (locals.new ≡ locals.old) }
{
    let outer = locals.len();
    check_stmt(alloc, found, here, globals, locals, s)?;
    locals.truncate(outer);
    Ok(())
}

/// Notes the faults of statements, one after the other.
#[cycle(stmt)]
fn check_stmts(
    alloc: Global,
    found: &mut Found,
    here: Here,
    globals: &Table,
    locals: &mut Table,
    all: &[Stmt],
) -> Result<(), NoMemory>
    ensures found { OnOk result (found.new ≡ noted found.old (statements_of globals.now here (globals.now ++ locals.old) all.now)) }
    ensures names { OnOk result (globals.now ++ locals.new ≡ after_all (globals.now ++ locals.old) all.now) }
{
    for s in all {
        check_stmt(alloc, found, here, globals, locals, s)?;
    }
    Ok(())
}

/// Notes the faults of a block, whose locals end with it.
#[cycle(stmt)]
pub(crate) fn check_block(
    alloc: Global,
    found: &mut Found,
    here: Here,
    globals: &Table,
    locals: &mut Table,
    all: &[Stmt],
) -> Result<(), NoMemory>
    ensures found { OnOk result (found.new ≡ noted found.old (statements_of globals.now here (globals.now ++ locals.old) all.now)) }
    ensures names { OnOk result (locals.new ≡ locals.old) }
{
    let outer = locals.len();
    check_stmts(alloc, found, here, globals, locals, all)?;
    locals.truncate(outer);
    Ok(())
}

/// Notes the faults of the arms of an `if`.
#[cycle(stmt)]
fn check_arms(
    alloc: Global,
    found: &mut Found,
    here: Here,
    globals: &Table,
    locals: &mut Table,
    arms: &[Arm],
) -> Result<(), NoMemory>
    ensures found { OnOk result (found.new ≡ noted found.old (arms_of globals.now here (globals.now ++ locals.old) arms.now)) }
    ensures names { OnOk result (locals.new ≡ locals.old) }
{
    for arm in arms {
        check_value(found, here.body, globals, locals, Typed::Bool, &arm.test);
        check_block(alloc, found, here, globals, locals, arm.body.as_slice())?;
    }
    Ok(())
}

/// Notes the faults of a step. One that does not stand in main has no other fault than that.
#[cycle(stmt)]
fn check_step(
    alloc: Global,
    found: &mut Found,
    body: Body,
    globals: &Table,
    locals: &Table,
    at: u32,
    blocks: &Items<RoutineBlock>,
) -> Result<(), NoMemory>
    ensures { OnOk result (found.new ≡ noted found.old (step_of globals.now body (globals.now ++ locals.now) at blocks.now)) }
{
    if is_main(body) {
        check_blocks(alloc, found, body, globals, locals, blocks.as_slice())?;
        note_many_blocks(found, blocks.as_slice());
        return Ok(());
    }
    found.note(CheckKind::OnlyInMain, at);
    Ok(())
}

/// Notes the faults of the routine blocks of a step.
#[cycle(stmt)]
fn check_blocks(
    alloc: Global,
    found: &mut Found,
    body: Body,
    globals: &Table,
    locals: &Table,
    blocks: &[RoutineBlock],
) -> Result<(), NoMemory>
    ensures { OnOk result (found.new ≡ noted found.old (blocks_of globals.now body (globals.now ++ locals.now) blocks.now)) }
{
    for block in blocks {
        check_routine(alloc, found, body, globals, locals, block)?;
    }
    Ok(())
}

/// Notes the faults of a routine block, which sees no locals but its own.
#[cycle(stmt)]
fn check_routine(
    alloc: Global,
    found: &mut Found,
    body: Body,
    globals: &Table,
    locals: &Table,
    block: &RoutineBlock,
) -> Result<(), NoMemory>
    ensures { OnOk result (found.new ≡ noted found.old (routine_of globals.now body (globals.now ++ locals.now) block.now)) }
{
    check_value(found, body, globals, locals, Typed::Int, &block.width);
    let mut own = Table::new(alloc);
    note_taken(found, globals, &own, &block.width_name);
    declare_local(globals, &mut own, &block.width_name, Ty::Int)?;
    note_taken(found, globals, &own, &block.id_name);
    declare_local(globals, &mut own, &block.id_name, Ty::Int)?;
    let here = Here {
        body: Body::Routine,
        looped: false,
    };
    check_stmts(alloc, found, here, globals, &mut own, block.body.as_slice())?;
    let mut at = Items::new(alloc);
    at.push(block.width_name.at)?;
    at.push(block.id_name.at)?;
    push_locals(&mut at, block.body.as_slice())?;
    note_many_locals(found, at.as_slice());
    Ok(())
}
