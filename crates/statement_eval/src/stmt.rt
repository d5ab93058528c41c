//! Expressions, statements and calls.

ghost use Rattle.std.specs.Prelude.{◌≡◌, ◌≤◌, MatchResult, IfOk, map, take};
ghost use Rattle.csl_meaning.specs.Value as spec;
ghost use Rattle.csl_meaning.specs.Effect as effects;
ghost use Rattle.csl_meaning.specs.Locals as locals_of;
ghost use Rattle.statement_eval.specs.Follows.{Follows, Goes, Sets, AppendsAll, stays};
ghost use Rattle.statement_eval.specs.Fits.{FitsMemory};
ghost use Rattle.statement_eval.specs.Lists.{values_of, changed, chosen, last_block};
ghost use Rattle.statement_eval.specs.Changes.{changed_word, changed_local, changed_name, changed_item};
ghost use Rattle.std.specs.Option.{option_copied};

use crate::halt::Halt;
use crate::names::{Names, item_at, local_value, set_local};
use crate::operators::{binary, decided, number_in, truth_in, unary};
use crate::store::{put_word, raise_word, read_word, take_unit};
use cal_base::{Cause, NoMemory, Val};
use csl_meaning::{Ending, Local, World};
use csl_tree::name::Text;
use csl_tree::program::{Arm, BinaryOp, Call, Expr, Form, Node, Param, Place, Stmt};
use sqlite_items::Items;
use std::alloc::Global;

/// How deep calls may nest.
pub const MOST_LEVELS: u64 = 64;

/// A result that may be a cause.
fn caused(result_or_cause: Result<Val, Cause>) -> Result<Val, Halt>
    ensures { MatchResult result_or_cause (λ v. result ≡ Ok v) (λ c. result ≡ Err (Halt.Cause c)) }
{
    match result_or_cause {
        Ok(v) => Ok(v),
        Err(c) => Err(Halt::Cause(c)),
    }
}

/// Each parameter with its argument.
fn bound(alloc: Global, params: &[Param], given: &[Val]) -> Result<Items<Local>, NoMemory>
    ensures { IfOk result (λ locals. locals ≡ locals_of.bound (map (λ q. q.name.text) params.now) given.now) }
{
    let mut locals = Items::new(alloc);
    for (i, param) in params.iter().enumerate() {
        match given.get(i) {
            None => return Ok(locals),
            Some(value) => {
                let name = Text::from_slice(alloc, param.name.text.as_slice())?;
                let value = *value;
                locals.push(Local { name, value })?;
            }
        }
    }
    Ok(locals)
}

/// What a body gave back.
fn given_back(e: Ending) -> Option<Val>
    ensures { result ≡ effects.given_back e }
{
    match e {
        Ending::Return(v) => v,
        _ => None,
    }
}

/// Writes a word, or adds to it.
fn change_word(adds: bool, address: u32, value: Val, world: &mut World) -> Result<(), Halt>
    ensures follows { Follows (changed_word adds address value world.old) result world.new }
    ensures fuel { world.new.fuel ≤ world.old.fuel }
    ensures stays { stays world.new ≡ stays world.old }
{
    if adds {
        raise_word(world, address, number_in(value))
    } else {
        put_word(world, address, number_in(value))
    }
}

/// Gives a local another value, or adds to it.
fn change_local(
    alloc: Global,
    adds: bool,
    old: Val,
    name: &Text,
    value: Val,
    locals: &mut Items<Local>,
    world: &World,
) -> Result<(), Halt>
    ensures follows { Sets (changed_local adds old name.now value locals.old world.now) result locals.new world.now }
{
    if adds {
        let sum = caused(binary(BinaryOp::Add, old, value))?;
        set_local(alloc, locals, name, sum)?;
    } else {
        set_local(alloc, locals, name, value)?;
    }
    Ok(())
}

/// Changes what a name means: a local, else a shared word.
fn change_name(
    alloc: Global,
    p: &Names<'_>,
    adds: bool,
    name: &Text,
    value: Val,
    locals: &mut Items<Local>,
    world: &mut World,
) -> Result<(), Halt>
    requires { FitsMemory p.now.shared }
    ensures follows { Sets (changed_name adds p.now name.now value locals.old world.old) result locals.new world.new }
    ensures fuel { world.new.fuel ≤ world.old.fuel }
    ensures stays { stays world.new ≡ stays world.old }
{
    match local_value(locals.as_slice(), name) {
        Some(old) => change_local(alloc, adds, old, name, value, locals, world),
        None => {
            let area = p.area(name);
            change_word(adds, area.first, value, world)
        }
    }
}

/// Changes an item of an array.
fn change_item(
    p: &Names<'_>,
    adds: bool,
    name: &Text,
    index: Val,
    value: Val,
    world: &mut World,
) -> Result<(), Halt>
    requires { FitsMemory p.now.shared }
    ensures follows { Follows (changed_item adds p.now name.now index value world.old) result world.new }
    ensures fuel { world.new.fuel ≤ world.old.fuel }
    ensures stays { stays world.new ≡ stays world.old }
{
    let area = p.area(name);
    match item_at(area, number_in(index)) {
        None => Err(Halt::Cause(Cause::OutOfRange)),
        Some(address) => change_word(adds, address, value, world),
    }
}

/// The value of an expression.
#[cycle(eval)]
pub fn value(
    alloc: Global,
    p: &Names<'_>,
    levels: u64,
    locals: &Items<Local>,
    e: &Expr,
    world: &mut World,
) -> Result<Val, Halt>
    requires { FitsMemory p.now.shared }
    ensures follows { Follows (spec.value p.now (effects.calls_to p.now levels) locals.now e.now.node world.old) result world.new }
    ensures fuel { world.new.fuel ≤ world.old.fuel }
    ensures stays { stays world.new ≡ stays world.old }
{
    match &e.node {
        Node::Number(z) => Ok(Val::Int(*z)),
        Node::Truth(b) => Ok(Val::Truth(*b)),
        Node::Read(place) => read(alloc, p, levels, locals, place, world),
        Node::CallOf(call) => {
            let given = call_of(alloc, p, levels, locals, call, world)?;
            Ok(given.unwrap_or(Val::Int(0)))
        }
        Node::Unary(op, a) => {
            let x = value(alloc, p, levels, locals, a.get(), world)?;
            caused(unary(*op, x))
        }
        Node::Binary(op, a, b) => {
            let x = value(alloc, p, levels, locals, a.get(), world)?;
            if let Some(v) = decided(*op, x) {
                return Ok(v);
            }
            let y = value(alloc, p, levels, locals, b.get(), world)?;
            caused(binary(*op, x, y))
        }
        Node::Paren(a) => value(alloc, p, levels, locals, a.get(), world),
    }
}

/// What a place reads as.
#[cycle(eval)]
fn read(
    alloc: Global,
    p: &Names<'_>,
    levels: u64,
    locals: &Items<Local>,
    place: &Place,
    world: &mut World,
) -> Result<Val, Halt>
    requires { FitsMemory p.now.shared }
    ensures follows { Follows (spec.read p.now (effects.calls_to p.now levels) locals.now place.now world.old) result world.new }
    ensures fuel { world.new.fuel ≤ world.old.fuel }
    ensures stays { stays world.new ≡ stays world.old }
{
    match &place.index {
        None => {
            if let Some(v) = local_value(locals.as_slice(), &place.name.text) {
                return Ok(v);
            }
            let area = p.area(&place.name.text);
            Ok(Val::Int(read_word(&world.store, area.first)))
        }
        Some(i) => {
            let x = value(alloc, p, levels, locals, i.get(), world)?;
            let area = p.area(&place.name.text);
            match item_at(area, number_in(x)) {
                None => Err(Halt::Cause(Cause::OutOfRange)),
                Some(address) => Ok(Val::Int(read_word(&world.store, address))),
            }
        }
    }
}

/// What a call gives: its arguments, one unit of fuel, then the function's body.
#[cycle(eval)]
pub fn call_of(
    alloc: Global,
    p: &Names<'_>,
    levels: u64,
    locals: &Items<Local>,
    call: &Call,
    world: &mut World,
) -> Result<Option<Val>, Halt>
    requires { FitsMemory p.now.shared }
    ensures follows { Follows (spec.result p.now (effects.calls_to p.now levels) locals.now call.now world.old) result world.new }
    ensures fuel { world.new.fuel ≤ world.old.fuel }
    ensures stays { stays world.new ≡ stays world.old }
{
    let mut given = Items::new(alloc);
    values(
        alloc,
        p,
        levels,
        locals,
        call.args.as_slice(),
        &mut given,
        world,
    )?;
    take_unit(world)?;
    run_call(alloc, p, levels, &call.name.text, given.as_slice(), world)
}

/// Appends the values of several expressions.
#[cycle(eval)]
fn values(
    alloc: Global,
    p: &Names<'_>,
    levels: u64,
    locals: &Items<Local>,
    all: &[Expr],
    given: &mut Items<Val>,
    world: &mut World,
) -> Result<(), Halt>
    requires { FitsMemory p.now.shared }
    ensures follows { AppendsAll (values_of p.now (effects.calls_to p.now levels) locals.now all.now) given.old
        world.old result given.new world.new }
    ensures fuel { world.new.fuel ≤ world.old.fuel }
    ensures stays { stays world.new ≡ stays world.old }
{
    for e in all {
        let v = value(alloc, p, levels, locals, e, world)?;
        given.push(v)?;
    }
    Ok(())
}

/// The body of a function with its arguments, where calls may nest this many levels deeper.
#[cycle(eval)]
fn run_call(
    alloc: Global,
    p: &Names<'_>,
    levels: u64,
    name: &Text,
    given: &[Val],
    world: &mut World,
) -> Result<Option<Val>, Halt>
    requires { FitsMemory p.now.shared }
    ensures follows { Follows (effects.calls_to p.now levels name.now given.now world.old) result world.new }
    ensures fuel { world.new.fuel ≤ world.old.fuel }
    ensures stays { stays world.new ≡ stays world.old }
{
    if levels == 0 {
        return Err(Halt::Cause(Cause::TooDeep));
    }
    match p.function(name) {
        None => Ok(None),
        Some(f) => {
            let mut locals = bound(alloc, f.params.as_slice(), given)?;
            let e = statements(alloc, p, levels - 1, f.body.as_slice(), &mut locals, world)?;
            Ok(given_back(e))
        }
    }
}

/// One statement after the other, until one does not end normally.
#[cycle(eval)]
pub fn statements(
    alloc: Global,
    p: &Names<'_>,
    levels: u64,
    all: &[Stmt],
    locals: &mut Items<Local>,
    world: &mut World,
) -> Result<Ending, Halt>
    requires { FitsMemory p.now.shared }
    ensures goes { Goes
        (effects.statements p.now (effects.calls_to p.now levels) effects.nowhere all.now locals.old world.old) result
        locals.new world.new }
    ensures fuel { world.new.fuel ≤ world.old.fuel }
    ensures stays { stays world.new ≡ stays world.old }
{
    for s in all {
        match statement(alloc, p, levels, s, locals, world)? {
            Ending::Normal => {}
            other => return Ok(other),
        }
    }
    Ok(Ending::Normal)
}

/// One statement.
#[cycle(eval)]
pub fn statement(
    alloc: Global,
    p: &Names<'_>,
    levels: u64,
    s: &Stmt,
    locals: &mut Items<Local>,
    world: &mut World,
) -> Result<Ending, Halt>
    requires { FitsMemory p.now.shared }
    ensures goes { Goes
        (effects.effect p.now (effects.calls_to p.now levels) effects.nowhere s.now.form locals.old world.old) result
        locals.new world.new }
    ensures fuel { world.new.fuel ≤ world.old.fuel }
    ensures stays { stays world.new ≡ stays world.old }
{
    match &s.form {
        Form::Return(given) => match given {
            None => Ok(Ending::Return(None)),
            Some(e) => {
                let v = value(alloc, p, levels, locals, e, world)?;
                Ok(Ending::Return(Some(v)))
            }
        },
        Form::CallOf(call) => {
            call_of(alloc, p, levels, locals, call, world)?;
            Ok(Ending::Normal)
        }
        Form::If { arms, last } => choose(alloc, p, levels, arms.as_slice(), last, locals, world),
        Form::While { test, body } => turns(alloc, p, levels, test, body, None, locals, world),
        Form::For {
            first,
            test,
            next,
            body,
        } => {
            let outer = locals.len();
            statement(alloc, p, levels, first.get(), locals, world)?;
            let next = Some(next.get());
            let e = turns(alloc, p, levels, test, body, next, locals, world)?;
            keep(locals, outer);
            Ok(e)
        }
        Form::Break => Ok(Ending::Break),
        Form::Continue => Ok(Ending::Continue),
        Form::Assert(e) => {
            let v = value(alloc, p, levels, locals, e, world)?;
            if truth_in(v) {
                Ok(Ending::Normal)
            } else {
                Err(Halt::Cause(Cause::Assertion))
            }
        }
        Form::Block(body) => block(alloc, p, levels, body, locals, world),
        Form::Declare {
            ty: _,
            name,
            value: e,
        } => {
            let v = value(alloc, p, levels, locals, e, world)?;
            let name = Text::from_slice(alloc, name.text.as_slice())?;
            locals.push(Local { name, value: v })?;
            Ok(Ending::Normal)
        }
        Form::Set { place, value: e } => {
            change(alloc, p, levels, false, place, e, locals, world)?;
            Ok(Ending::Normal)
        }
        Form::AddTo { place, value: e } => {
            change(alloc, p, levels, true, place, e, locals, world)?;
            Ok(Ending::Normal)
        }
        Form::Print(_) | Form::Par(_) => Ok(Ending::Normal),
    }
}

/// Sets a place, or adds to it: first its index is evaluated, then the value.
#[cycle(eval)]
fn change(
    alloc: Global,
    p: &Names<'_>,
    levels: u64,
    adds: bool,
    place: &Place,
    e: &Expr,
    locals: &mut Items<Local>,
    world: &mut World,
) -> Result<(), Halt>
    requires { FitsMemory p.now.shared }
    ensures follows { Sets (changed adds p.now (effects.calls_to p.now levels) locals.old place.now e.now world.old)
        result locals.new world.new }
    ensures fuel { world.new.fuel ≤ world.old.fuel }
    ensures stays { stays world.new ≡ stays world.old }
{
    match &place.index {
        None => {
            let v = value(alloc, p, levels, locals, e, world)?;
            change_name(alloc, p, adds, &place.name.text, v, locals, world)
        }
        Some(i) => {
            let index = value(alloc, p, levels, locals, i.get(), world)?;
            let v = value(alloc, p, levels, locals, e, world)?;
            change_item(p, adds, &place.name.text, index, v, world)
        }
    }
}

/// The first arm whose test is true, else the last block.
#[cycle(eval)]
fn choose(
    alloc: Global,
    p: &Names<'_>,
    levels: u64,
    arms: &[Arm],
    last: &Option<Items<Stmt>>,
    locals: &mut Items<Local>,
    world: &mut World,
) -> Result<Ending, Halt>
    requires { FitsMemory p.now.shared }
    ensures goes { Goes
        (chosen p.now (effects.calls_to p.now levels) effects.nowhere arms.now
        (last_block p.now (effects.calls_to p.now levels) effects.nowhere last.now) locals.old world.old) result
        locals.new world.new }
    ensures fuel { world.new.fuel ≤ world.old.fuel }
    ensures stays { stays world.new ≡ stays world.old }
{
    for arm in arms {
        let v = value(alloc, p, levels, locals, &arm.test, world)?;
        if truth_in(v) {
            return block(alloc, p, levels, &arm.body, locals, world);
        }
    }
    match last {
        None => Ok(Ending::Normal),
        Some(body) => block(alloc, p, levels, body, locals, world),
    }
}

/// Statements with locals of their own.
#[cycle(eval)]
fn block(
    alloc: Global,
    p: &Names<'_>,
    levels: u64,
    body: &Items<Stmt>,
    locals: &mut Items<Local>,
    world: &mut World,
) -> Result<Ending, Halt>
    requires { FitsMemory p.now.shared }
    ensures goes { Goes
        (effects.scoped (effects.statements p.now (effects.calls_to p.now levels) effects.nowhere body.now) locals.old
        world.old) result locals.new world.new }
    ensures fuel { world.new.fuel ≤ world.old.fuel }
    ensures stays { stays world.new ≡ stays world.old }
{
    let outer = locals.len();
    let e = statements(alloc, p, levels, body.as_slice(), locals, world)?;
    keep(locals, outer);
    Ok(e)
}

/// The turns of a loop, which may have a step statement.
#[cycle(eval)]
fn turns(
    alloc: Global,
    p: &Names<'_>,
    levels: u64,
    test: &Expr,
    body: &Items<Stmt>,
    next: Option<&Stmt>,
    locals: &mut Items<Local>,
    world: &mut World,
) -> Result<Ending, Halt>
    requires { FitsMemory p.now.shared }
    ensures goes { Goes
        (effects.loop (λ inner. spec.value_of p.now (effects.calls_to p.now levels) inner test.now)
        (effects.scoped (effects.statements p.now (effects.calls_to p.now levels) effects.nowhere body.now))
        (effects.step_of p.now (effects.calls_to p.now levels) effects.nowhere (option_copied next.entry))
        locals.old world.old) result locals.new world.new }
    ensures fuel { world.new.fuel ≤ world.old.fuel }
    ensures stays { stays world.new ≡ stays world.old }
{
    loop {
        let v = value(alloc, p, levels, locals, test, world)?;
        if !truth_in(v) {
            return Ok(Ending::Normal);
        }
        match block(alloc, p, levels, body, locals, world)? {
            Ending::Break => return Ok(Ending::Normal),
            Ending::Return(v) => return Ok(Ending::Return(v)),
            Ending::Normal | Ending::Continue => {}
        }
        step(alloc, p, levels, next, locals, world)?;
        take_unit(world)?;
    }
}

/// The step statement of a loop, if there is one.
#[cycle(eval)]
fn step(
    alloc: Global,
    p: &Names<'_>,
    levels: u64,
    next: Option<&Stmt>,
    locals: &mut Items<Local>,
    world: &mut World,
) -> Result<(), Halt>
    requires { FitsMemory p.now.shared }
    ensures follows { Sets
        (effects.step_of p.now (effects.calls_to p.now levels) effects.nowhere (option_copied next.entry) locals.old
        world.old) result locals.new world.new }
    ensures fuel { world.new.fuel ≤ world.old.fuel }
    ensures stays { stays world.new ≡ stays world.old }
{
    match next {
        None => Ok(()),
        Some(s) => {
            statement(alloc, p, levels, s, locals, world)?;
            Ok(())
        }
    }
}

/// Keeps the first locals, this many.
pub fn keep(locals: &mut Items<Local>, n: usize)
    ensures { locals.new ≡ take n locals.old }
{
    while locals.len() > n {
        locals.pop();
    }
}
