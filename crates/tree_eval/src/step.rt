//! A parallel step of main.

ghost use Rattle.std.specs.Prelude.{◌≡◌, ◌≤◌, ◌<◌, ◌+◌, ◌^◌, List, ℕ, length, IfOk, IsErrOf, OnOk, sum};
ghost use Rattle.std.specs.declared.option.Option.{Option};
ghost use Rattle.cal_base.specs.Stores as stores;
ghost use Rattle.csl_meaning.specs.Effect.{Stepping};
ghost use Rattle.csl_meaning.specs.Meaning as meaning;
ghost use Rattle.statement_eval.specs.Fits.{FitsMemory};
ghost use Rattle.statement_eval.specs.Follows.{Follows, stays};
ghost use Rattle.tree_eval.specs.Ready.{ready_widths};
ghost use Rattle.tree_eval.specs.Told.{Tells, TellsOf};
ghost use Rattle.tree_eval.specs.Worlds.{IsMain, GoesOn};
ghost use Rattle.tree_eval.specs.declared.main_halt.MainHalt.TheVariants.{OutFailed as out_failed};

use crate::main_halt::{MainHalt, main_halt};
use crate::merge::merge;
use crate::routine::step_answers;
use crate::widths::{good_widths, widths_of};
use cal_base::{Cause, RunEnd, Store, Word};
use cal_terms::limits::{MOST_ROUTINES, MOST_WORDS};
use csl_meaning::{Ending, Local, World};
use csl_tree::program::RoutineBlock;
use sqlite_items::Items;
use statement_eval::halt::Halt;
use statement_eval::names::Names;
use statement_eval::store::take_unit;
use std::alloc::Global;
use std::mem;

/// The widths of a step that may open, and its unit of fuel is taken.
fn ready(
    alloc: Global,
    p: &Names<'_>,
    blocks: &[RoutineBlock],
    locals: &Items<Local>,
    world: &mut World,
) -> Result<Items<u32>, Halt>
    requires { FitsMemory p.now.shared }
    ensures follows { Follows (ready_widths p.now locals.now blocks.now world.old) result world.new }
    ensures few { IfOk result (λ widths. sum widths ≤ MOST_ROUTINES) }
    ensures taken { OnOk result (world.new.fuel + 1 ≤ world.old.fuel) }
    ensures fuel { world.new.fuel ≤ world.old.fuel }
    ensures stays { stays world.new ≡ stays world.old }
{
    let mut numbers = Items::new(alloc);
    widths_of(alloc, p, blocks, locals, &mut numbers, world)?;
    match good_widths(alloc, numbers.as_slice())? {
        None => Err(Halt::Cause(Cause::BadWidth)),
        Some(widths) => {
            take_unit(world)?;
            Ok(widths)
        }
    }
}

/// The memory of a store.
fn memory_in(store: Store) -> Items<Word>
    ensures { result ≡ stores.memory_in store }
{
    match store {
        Store::Main(memory) => memory,
        Store::Routine(opening, _) => opening,
    }
}

/// Opens the next step, and goes on with the memory that it leaves.
fn step(
    alloc: Global,
    p: &Names<'_>,
    fuel: u64,
    blocks: &[RoutineBlock],
    widths: &[u32],
    world: &mut World,
) -> Result<(), MainHalt>
    requires fits { FitsMemory p.now.shared }
    requires few { sum widths.now ≤ MOST_ROUTINES }
    requires words { length (stores.memory_in world.old.store) ≤ MOST_WORDS }
    requires steps { world.old.steps + world.old.fuel + 1 < 2 ^ 32 }
    ensures tells { (text : Option (List ℕ)) → TellsOf (meaning.open_step p.now fuel blocks.now widths.now world.old)
        result world.new text text }
    ensures quiet { IsErrOf result out_failed → ⊥ }
    ensures goes_on { OnOk result (GoesOn world.old world.new) }
{
    let opening = memory_in(mem::replace(&mut world.store, Store::Main(Items::new(alloc))));
    let (memory, answers) = step_answers(alloc, p, opening, fuel, blocks, widths)?;
    match merge(alloc, memory.as_slice(), answers.as_slice())? {
        Ok(memory) => {
            world.store = Store::Main(memory);
            world.steps += 1;
            Ok(())
        }
        Err(fault) => {
            let step = world.steps + 1;
            Err(MainHalt::Ended(RunEnd::StepFailed { step, fault }))
        }
    }
}

/// A `parbegin`: its widths, one unit of fuel, and the step.
pub fn parbegin(
    alloc: Global,
    p: &Names<'_>,
    fuel: u64,
    blocks: &[RoutineBlock],
    locals: &Items<Local>,
    world: &mut World,
) -> Result<Ending, MainHalt>
    requires fits { FitsMemory p.now.shared }
    requires main { IsMain world.old }
    ensures tells { (text : Option (List ℕ)) → Tells
        (meaning.in_main p.now fuel (Stepping blocks.now) locals.now world.old) result locals.now world.new text
        text }
    ensures quiet { IsErrOf result out_failed → ⊥ }
    ensures goes_on { OnOk result (GoesOn world.old world.new) }
{
    match ready(alloc, p, blocks, locals, world) {
        Err(halt) => Err(main_halt(halt, world.steps)),
        Ok(widths) => {
            step(alloc, p, fuel, blocks, widths.as_slice(), world)?;
            Ok(Ending::Normal)
        }
    }
}
