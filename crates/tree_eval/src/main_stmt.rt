//! Main's statements: as those of functions and routines, and `print` and `parbegin` besides.

ghost use Rattle.std.specs.Prelude.{◌≡◌, ◌≤◌, ◌+◌, List, ℕ, IsErrOf, OnOk};
ghost use Rattle.std.specs.declared.option.Option.{Option};
ghost use Rattle.std.specs.Option.{option_copied};
ghost use Rattle.csl_meaning.specs.Effect as effects;
ghost use Rattle.csl_meaning.specs.Effect.{Printing, calls_to, most_levels};
ghost use Rattle.csl_meaning.specs.Meaning.{in_main};
ghost use Rattle.csl_meaning.specs.Runs as runs;
ghost use Rattle.csl_meaning.specs.Value as spec;
ghost use Rattle.statement_eval.specs.Fits.{FitsMemory};
ghost use Rattle.statement_eval.specs.Lists.{chosen, last_block};
ghost use Rattle.tree_eval.specs.Printed.{IsPrinted};
ghost use Rattle.tree_eval.specs.Told.{Tells, TellsOf, TellsLocals, OutRose};
ghost use Rattle.tree_eval.specs.Worlds.{IsMain, GoesOn};
ghost use Rattle.tree_eval.specs.declared.main_halt.MainHalt.TheVariants.{OutFailed as out_failed};

use crate::line::{line_of, pieces};
use crate::main_halt::{MainHalt, main_halt};
use crate::step::parbegin;
use cal_base::{Sink, Val, write_all};
use csl_meaning::{Ending, Local, World};
use csl_tree::program::{Arm, Expr, Form, Item, Stmt};
use sqlite_items::Items;
use statement_eval::names::Names;
use statement_eval::operators::truth_in;
use statement_eval::stmt::{MOST_LEVELS, keep, statement, value};
use statement_eval::store::take_unit;
use std::alloc::Global;

/// The value of an expression of main.
fn main_value(
    alloc: Global,
    p: &Names<'_>,
    e: &Expr,
    locals: &Items<Local>,
    world: &mut World,
) -> Result<Val, MainHalt>
    requires fits { FitsMemory p.now.shared }
    requires main { IsMain world.old }
    ensures tells { (text : Option (List ℕ)) → TellsOf
        (spec.value_of p.now (calls_to p.now most_levels) locals.now e.now world.old) result world.new text text }
    ensures quiet { IsErrOf result out_failed → ⊥ }
    ensures goes_on { OnOk result (GoesOn world.old world.new) }
{
    match value(alloc, p, MOST_LEVELS, locals, e, world) {
        Ok(v) => Ok(v),
        Err(halt) => Err(main_halt(halt, world.steps)),
    }
}

/// Takes one unit of main's fuel.
fn main_unit(world: &mut World) -> Result<(), MainHalt>
    requires main { IsMain world.old }
    ensures tells { (text : Option (List ℕ)) → TellsOf (runs.take_unit world.old) result world.new text text }
    ensures quiet { IsErrOf result out_failed → ⊥ }
    ensures fuel { OnOk result (world.new.fuel + 1 ≡ world.old.fuel) }
    ensures goes_on { OnOk result (GoesOn world.old world.new) }
{
    match take_unit(world) {
        Ok(()) => Ok(()),
        Err(halt) => Err(main_halt(halt, world.steps)),
    }
}

/// A statement of main that is the same elsewhere.
fn plain_statement(
    alloc: Global,
    p: &Names<'_>,
    s: &Stmt,
    locals: &mut Items<Local>,
    world: &mut World,
) -> Result<Ending, MainHalt>
    requires fits { FitsMemory p.now.shared }
    requires main { IsMain world.old }
    ensures tells { (text : Option (List ℕ)) → Tells
        (effects.effect p.now (calls_to p.now most_levels) effects.nowhere s.now.form locals.old world.old) result
        locals.new world.new text text }
    ensures quiet { IsErrOf result out_failed → ⊥ }
    ensures goes_on { OnOk result (GoesOn world.old world.new) }
{
    match statement(alloc, p, MOST_LEVELS, s, locals, world) {
        Ok(e) => Ok(e),
        Err(halt) => Err(main_halt(halt, world.steps)),
    }
}

/// The text of a line that is printed.
fn printed(
    alloc: Global,
    p: &Names<'_>,
    items: &[Item],
    locals: &Items<Local>,
    world: &mut World,
) -> Result<Items<u8>, MainHalt>
    requires fits { FitsMemory p.now.shared }
    requires main { IsMain world.old }
    ensures tells { IsPrinted p.now items.now locals.now world.old result world.new }
    ensures quiet { IsErrOf result out_failed → ⊥ }
    ensures goes_on { OnOk result (GoesOn world.old world.new) }
{
    let mut texts = Items::new(alloc);
    match pieces(alloc, p, items, locals, &mut texts, world) {
        Ok(()) => Ok(Items::from_vec(line_of(alloc, texts.as_slice())?)),
        Err(halt) => Err(main_halt(halt, world.steps)),
    }
}

/// Prints one line, after all its values are known.
fn print<S: Sink>(
    alloc: Global,
    p: &Names<'_>,
    fuel: u64,
    items: &[Item],
    locals: &Items<Local>,
    world: &mut World,
    out: &mut S,
) -> Result<Ending, MainHalt>
    requires fits { FitsMemory p.now.shared }
    requires main { IsMain world.old }
    ensures tells { Tells (in_main p.now fuel (Printing items.now) locals.now world.old) result locals.now world.new
        (S.written out.old) (S.written out.new) }
    ensures later { S.faults out.old ≤ S.faults out.new }
    ensures failed { OutRose result (S.faults out.old) (S.faults out.new) }
    ensures goes_on { OnOk result (GoesOn world.old world.new) }
{
    let line = printed(alloc, p, items, locals, world)?;
    write_all(out, line.as_slice())?;
    Ok(Ending::Normal)
}

/// One statement of main.
#[cycle(main)]
fn main_statement<S: Sink>(
    alloc: Global,
    p: &Names<'_>,
    fuel: u64,
    s: &Stmt,
    locals: &mut Items<Local>,
    world: &mut World,
    out: &mut S,
) -> Result<Ending, MainHalt>
    requires fits { FitsMemory p.now.shared }
    requires main { IsMain world.old }
    ensures tells { Tells
        (effects.effect p.now (calls_to p.now most_levels) (in_main p.now fuel) s.now.form locals.old world.old)
        result locals.new world.new (S.written out.old) (S.written out.new) }
    ensures later { S.faults out.old ≤ S.faults out.new }
    ensures failed { OutRose result (S.faults out.old) (S.faults out.new) }
    ensures goes_on { OnOk result (GoesOn world.old world.new) }
{
    match &s.form {
        Form::If { arms, last } => main_choose(
            alloc,
            p,
            fuel,
            arms.as_slice(),
            last,
            locals,
            world,
            out,
        ),
        Form::While { test, body } => main_turns(
            alloc, p, fuel, test, body, None, locals, world, out,
        ),
        Form::For {
            first,
            test,
            next,
            body,
        } => {
            let outer = locals.len();
            main_statement(alloc, p, fuel, first.get(), locals, world, out)?;
            let next = Some(next.get());
            let e = main_turns(alloc, p, fuel, test, body, next, locals, world, out)?;
            keep(locals, outer);
            Ok(e)
        }
        Form::Block(body) => main_block(alloc, p, fuel, body, locals, world, out),
        Form::Print(items) => print(alloc, p, fuel, items.as_slice(), locals, world, out),
        Form::Par(blocks) => parbegin(alloc, p, fuel, blocks.as_slice(), locals, world),
        Form::Declare { .. }
        | Form::Set { .. }
        | Form::AddTo { .. }
        | Form::Break
        | Form::Continue
        | Form::Return(_)
        | Form::CallOf(_)
        | Form::Assert(_) => plain_statement(alloc, p, s, locals, world),
    }
}

/// One statement after the other, until one does not end normally.
#[cycle(main)]
pub fn main_statements<S: Sink>(
    alloc: Global,
    p: &Names<'_>,
    fuel: u64,
    all: &[Stmt],
    locals: &mut Items<Local>,
    world: &mut World,
    out: &mut S,
) -> Result<Ending, MainHalt>
    requires fits { FitsMemory p.now.shared }
    requires main { IsMain world.old }
    ensures tells { Tells
        (effects.statements p.now (calls_to p.now most_levels) (in_main p.now fuel) all.now locals.old world.old)
        result locals.new world.new (S.written out.old) (S.written out.new) }
    ensures later { S.faults out.old ≤ S.faults out.new }
    ensures failed { OutRose result (S.faults out.old) (S.faults out.new) }
    ensures goes_on { OnOk result (GoesOn world.old world.new) }
{
    for s in all {
        match main_statement(alloc, p, fuel, s, locals, world, out)? {
            Ending::Normal => {}
            other => return Ok(other),
        }
    }
    Ok(Ending::Normal)
}

/// The first arm whose test is true, else the last block.
#[cycle(main)]
fn main_choose<S: Sink>(
    alloc: Global,
    p: &Names<'_>,
    fuel: u64,
    arms: &[Arm],
    last: &Option<Items<Stmt>>,
    locals: &mut Items<Local>,
    world: &mut World,
    out: &mut S,
) -> Result<Ending, MainHalt>
    requires fits { FitsMemory p.now.shared }
    requires main { IsMain world.old }
    ensures tells { Tells
        (chosen p.now (calls_to p.now most_levels) (in_main p.now fuel) arms.now
        (last_block p.now (calls_to p.now most_levels) (in_main p.now fuel) last.now) locals.old world.old) result
        locals.new world.new (S.written out.old) (S.written out.new) }
    ensures later { S.faults out.old ≤ S.faults out.new }
    ensures failed { OutRose result (S.faults out.old) (S.faults out.new) }
    ensures goes_on { OnOk result (GoesOn world.old world.new) }
{
    for arm in arms {
        let v = main_value(alloc, p, &arm.test, locals, world)?;
        if truth_in(v) {
            return main_block(alloc, p, fuel, &arm.body, locals, world, out);
        }
    }
    match last {
        None => Ok(Ending::Normal),
        Some(body) => main_block(alloc, p, fuel, body, locals, world, out),
    }
}

/// Statements with locals of their own.
#[cycle(main)]
fn main_block<S: Sink>(
    alloc: Global,
    p: &Names<'_>,
    fuel: u64,
    body: &Items<Stmt>,
    locals: &mut Items<Local>,
    world: &mut World,
    out: &mut S,
) -> Result<Ending, MainHalt>
    requires fits { FitsMemory p.now.shared }
    requires main { IsMain world.old }
    ensures tells { Tells
        (effects.scoped (effects.statements p.now (calls_to p.now most_levels) (in_main p.now fuel) body.now)
        locals.old world.old) result locals.new world.new (S.written out.old) (S.written out.new) }
    ensures later { S.faults out.old ≤ S.faults out.new }
    ensures failed { OutRose result (S.faults out.old) (S.faults out.new) }
    ensures goes_on { OnOk result (GoesOn world.old world.new) }
{
    let outer = locals.len();
    let e = main_statements(alloc, p, fuel, body.as_slice(), locals, world, out)?;
    keep(locals, outer);
    Ok(e)
}

/// The turns of a loop, which may have a step statement.
#[cycle(main)]
fn main_turns<S: Sink>(
    alloc: Global,
    p: &Names<'_>,
    fuel: u64,
    test: &Expr,
    body: &Items<Stmt>,
    next: Option<&Stmt>,
    locals: &mut Items<Local>,
    world: &mut World,
    out: &mut S,
) -> Result<Ending, MainHalt>
    requires fits { FitsMemory p.now.shared }
    requires main { IsMain world.old }
    ensures tells { Tells
        (effects.loop (λ inner. spec.value_of p.now (calls_to p.now most_levels) inner test.now)
        (effects.scoped (effects.statements p.now (calls_to p.now most_levels) (in_main p.now fuel) body.now))
        (effects.step_of p.now (calls_to p.now most_levels) (in_main p.now fuel) (option_copied next.entry))
        locals.old world.old) result locals.new world.new (S.written out.old) (S.written out.new) }
    ensures later { S.faults out.old ≤ S.faults out.new }
    ensures failed { OutRose result (S.faults out.old) (S.faults out.new) }
    ensures goes_on { OnOk result (GoesOn world.old world.new) }
{
    loop {
        let v = main_value(alloc, p, test, locals, world)?;
        if !truth_in(v) {
            return Ok(Ending::Normal);
        }
        match main_block(alloc, p, fuel, body, locals, world, out)? {
            Ending::Break => return Ok(Ending::Normal),
            Ending::Return(v) => return Ok(Ending::Return(v)),
            Ending::Normal | Ending::Continue => {}
        }
        main_step(alloc, p, fuel, next, locals, world, out)?;
        main_unit(world)?;
    }
}

/// The step statement of a loop, if there is one.
#[cycle(main)]
fn main_step<S: Sink>(
    alloc: Global,
    p: &Names<'_>,
    fuel: u64,
    next: Option<&Stmt>,
    locals: &mut Items<Local>,
    world: &mut World,
    out: &mut S,
) -> Result<(), MainHalt>
    requires fits { FitsMemory p.now.shared }
    requires main { IsMain world.old }
    ensures tells { TellsLocals
        (effects.step_of p.now (calls_to p.now most_levels) (in_main p.now fuel) (option_copied next.entry) locals.old
        world.old) result locals.new world.new (S.written out.old) (S.written out.new) }
    ensures later { S.faults out.old ≤ S.faults out.new }
    ensures failed { OutRose result (S.faults out.old) (S.faults out.new) }
    ensures goes_on { OnOk result (GoesOn world.old world.new) }
{
    match next {
        None => Ok(()),
        Some(s) => {
            main_statement(alloc, p, fuel, s, locals, world, out)?;
            Ok(())
        }
    }
}
