//! The widths of a step's blocks.

ghost use Rattle.std.specs.Prelude.{◌≡◌, ◌≤◌, IfOk};
ghost use Rattle.cal_base.specs.Widths.{step_widths};
ghost use Rattle.csl_meaning.specs.Effect.{calls_to, most_levels};
ghost use Rattle.csl_meaning.specs.Meaning as meaning;
ghost use Rattle.statement_eval.specs.Fits.{FitsMemory};
ghost use Rattle.statement_eval.specs.Follows.{AppendsAll, stays};
ghost use Rattle.tree_eval.specs.Widths.{small_number};

use cal_base::NoMemory;
use cal_terms::limits::MOST_ROUTINES;
use csl_meaning::{Local, World};
use csl_tree::program::RoutineBlock;
use sqlite_items::Items;
use statement_eval::halt::Halt;
use statement_eval::names::Names;
use statement_eval::operators::number_in;
use statement_eval::stmt::{MOST_LEVELS, value};
use std::alloc::Global;

/// Appends the widths of the blocks, evaluated from left to right.
pub fn widths_of(
    alloc: Global,
    p: &Names<'_>,
    blocks: &[RoutineBlock],
    locals: &Items<Local>,
    numbers: &mut Items<i64>,
    world: &mut World,
) -> Result<(), Halt>
    requires { FitsMemory p.now.shared }
    ensures follows { AppendsAll (meaning.widths_of p.now (calls_to p.now most_levels) locals.now blocks.now)
        numbers.old world.old result numbers.new world.new }
    ensures fuel { world.new.fuel ≤ world.old.fuel }
    ensures stays { stays world.new ≡ stays world.old }
{
    for block in blocks {
        let v = value(alloc, p, MOST_LEVELS, locals, &block.width, world)?;
        numbers.push(number_in(v))?;
    }
    Ok(())
}

/// A number from 0 to 65,536.
fn small(number: i64) -> Option<u32>
    ensures { result ≡ small_number number }
{
    if 0 <= number && number <= i64::from(MOST_ROUTINES) {
        Some(number as u32)
    } else {
        None
    }
}

/// The widths, unless one is negative or there are more than 65,536 routines.
pub fn good_widths(alloc: Global, numbers: &[i64]) -> Result<Option<Items<u32>>, NoMemory>
    ensures { IfOk result (λ widths. widths ≡ step_widths numbers.now) }
{
    let mut widths = Items::new(alloc);
    let mut total = 0u32;
    for number in numbers {
        match small(*number) {
            None => return Ok(None),
            Some(width) => {
                if width > MOST_ROUTINES - total {
                    return Ok(None);
                }
                total += width;
                widths.push(width)?;
            }
        }
    }
    Ok(Some(widths))
}
