//! What the routines of a step answer.

ghost use Rattle.std.specs.Prelude.{◌≡◌, ◌++◌, IfOk, OnOk, Some, false, map, pos};
ghost use Rattle.std.specs.List.{range_with_len};
ghost use Rattle.cal_base.specs.Answers.{is_fault};
ghost use Rattle.csl_meaning.specs.Routines as routines;
ghost use Rattle.tree_eval.specs.Asked.{has_failed, until_fault};
ghost use Rattle.tree_eval.specs.Finished.{finished};
ghost use Rattle.statement_eval.specs.Fits.{FitsMemory};

use cal_base::{Answer, KeptUpdate, NoMemory, Store, Val, Word};
use csl_meaning::{Ending, Local, World};
use csl_tree::name::Text;
use csl_tree::program::RoutineBlock;
use sqlite_items::Items;
use statement_eval::halt::Halt;
use statement_eval::names::Names;
use statement_eval::stmt::{MOST_LEVELS, statements};
use std::alloc::Global;

/// The opening memory and the answer, by how the routine ended and what it wrote.
fn finish(
    alloc: Global,
    went: Result<Ending, Halt>,
    store: Store,
) -> Result<(Items<Word>, Answer), NoMemory>
    ensures { result ≡ finished went store }
{
    let (memory, written) = match store {
        Store::Main(memory) => (memory, KeptUpdate::empty(alloc)),
        Store::Routine(opening, written) => (opening, written),
    };
    match went {
        Ok(_) => Ok((memory, Answer::Update(written))),
        Err(Halt::Cause(cause)) => Ok((memory, Answer::Fault(cause))),
        Err(Halt::NoMemory) => Err(NoMemory),
    }
}

/// A number of a routine, as a value.
fn int(n: u32) -> Val
    ensures { result ≡ Val.Int (pos n) }
{
    Val::Int(i64::from(n))
}

/// One routine's answer, and the opening memory that it was lent.
fn answer(
    alloc: Global,
    p: &Names<'_>,
    opening: Items<Word>,
    fuel: u64,
    block: &RoutineBlock,
    width: u32,
    id: u32,
) -> Result<(Items<Word>, Answer), NoMemory>
    requires { FitsMemory p.now.shared }
    ensures memory { IfOk result (λ r. r.0 ≡ opening) }
    ensures answer { IfOk result (λ r. r.1 ≡ routines.answer p.now opening fuel block.now width id) }
{
    let mut locals = Items::new(alloc);
    let name = Text::from_slice(alloc, block.width_name.text.as_slice())?;
    let value = int(width);
    locals.push(Local { name, value })?;
    let name = Text::from_slice(alloc, block.id_name.text.as_slice())?;
    let value = int(id);
    locals.push(Local { name, value })?;
    let mut world = World {
        store: Store::Routine(opening, KeptUpdate::empty(alloc)),
        fuel,
        steps: 0,
    };
    let went = statements(
        alloc,
        p,
        MOST_LEVELS,
        block.body.as_slice(),
        &mut locals,
        &mut world,
    );
    finish(alloc, went, world.store)
}

/// Whether a routine failed.
fn is_failure(answer: &Answer) -> bool
    ensures { result ≡ is_fault (Some answer.now) }
{
    match answer {
        Answer::Update(_) => false,
        Answer::Fault(_) => true,
    }
}

/// Appends the answers of a block's routines, and tells whether one has failed by now. Behind one that failed none is asked: the step ends
/// by that one's fault or by a conflict of a lower number.
fn block_answers(
    alloc: Global,
    p: &Names<'_>,
    opening: Items<Word>,
    fuel: u64,
    block: &RoutineBlock,
    width: u32,
    failed: bool,
    answers: &mut Items<Option<Answer>>,
) -> Result<(Items<Word>, bool), NoMemory>
    requires { FitsMemory p.now.shared }
    ensures memory { IfOk result (λ r. r.0 ≡ opening) }
    ensures failed { IfOk result (λ r. r.1 ≡ has_failed failed
        (map (λ id. routines.answer p.now opening fuel block.now width id) (range_with_len 0 width))) }
    ensures answers { OnOk result
        (answers.new ≡ answers.old ++ until_fault failed
        (map (λ id. routines.answer p.now opening fuel block.now width id) (range_with_len 0 width))) }
{
    let mut memory = opening;
    let mut failed = failed;
    for id in 0..width {
        if failed {
            answers.push(None)?;
        } else {
            let (lent, given) = answer(alloc, p, memory, fuel, block, width, id)?;
            memory = lent;
            failed = is_failure(&given);
            answers.push(Some(given))?;
        }
    }
    Ok((memory, failed))
}

/// The answers of the routines of a step, in the order of their numbers and up to the first that fails, and the opening memory that they
/// were lent.
pub fn step_answers(
    alloc: Global,
    p: &Names<'_>,
    opening: Items<Word>,
    fuel: u64,
    blocks: &[RoutineBlock],
    widths: &[u32],
) -> Result<(Items<Word>, Items<Option<Answer>>), NoMemory>
    requires { FitsMemory p.now.shared }
    ensures memory { IfOk result (λ r. r.0 ≡ opening) }
    ensures answers { IfOk result (λ r. r.1 ≡ until_fault false (routines.answers p.now opening fuel blocks.now widths.now)) }
{
    let mut memory = opening;
    let mut answers = Items::new(alloc);
    let mut failed = false;
    for (i, block) in blocks.iter().enumerate() {
        match widths.get(i) {
            None => return Ok((memory, answers)),
            Some(width) => {
                let (lent, by_now) = block_answers(
                    alloc,
                    p,
                    memory,
                    fuel,
                    block,
                    *width,
                    failed,
                    &mut answers,
                )?;
                memory = lent;
                failed = by_now;
            }
        }
    }
    Ok((memory, answers))
}
