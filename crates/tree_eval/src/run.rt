//! A whole run.

ghost use Rattle.std.specs.Prelude.{◌≡◌, ◌≤◌, IfOk, OnErr, IsErrOf, false};
ghost use Rattle.std.specs.Io.KnownBytes.{Appends};
ghost use Rattle.cal_base.specs.Causes.{Rose};
ghost use Rattle.cal_base.specs.Contents.{AppendsPrefix};
ghost use Rattle.cal_base.specs.Text.{text_of};
ghost use Rattle.csl_meaning.specs.Meaning as meaning;
ghost use Rattle.tree_eval.specs.Ends.{end_after};
ghost use Rattle.statement_eval.specs.Fits.{FitsMemory};
ghost use Rattle.tree_eval.specs.declared.run.EvalError.TheVariants as error;

use crate::first_memory::first_memory;
use crate::main_halt::MainHalt;
use crate::main_stmt::main_statements;
use cal_base::{RunEnd, Sink, Store};
use csl_meaning::{Ending, Local, World};
use sqlite_items::Items;
use statement_eval::names::Names;
use std::alloc::Global;
use type_check::checked::Checked;

/// Why an evaluation gave up; a front of the text was written.
#[derive(Clone, Copy, PartialEq, Eq, Debug)]
pub enum EvalError {
    /// The sink failed, and its count of faults rose.
    OutFailed,
    /// An allocation failed.
    NoMemory,
}

/// The end of a run, where main ended or stopped after so many steps.
fn run_end(went: Result<Ending, MainHalt>, steps: u64) -> Result<RunEnd, EvalError>
    ensures { result ≡ end_after went steps }
{
    match went {
        Ok(_) => Ok(RunEnd::Done { steps }),
        Err(MainHalt::Ended(end)) => Ok(end),
        Err(MainHalt::NoMemory) => Err(EvalError::NoMemory),
        Err(MainHalt::OutFailed) => Err(EvalError::OutFailed),
    }
}

/// Runs a program whose words fit the memory.
pub(crate) fn eval_tree<S: Sink>(
    alloc: Global,
    p: &Names<'_>,
    fuel: u32,
    out: &mut S,
) -> Result<RunEnd, EvalError>
    requires { FitsMemory p.now.shared }
    ensures end { IfOk result (λ end. end ≡ (meaning.meaning p.now fuel).ending) }
    ensures whole { IfOk result (λ _. Appends (S.written out.old) (S.written out.new) (text_of false (meaning.meaning p.now fuel).events)) }
    ensures prefix { OnErr result
        (AppendsPrefix (S.written out.old) (S.written out.new) (text_of false (meaning.meaning p.now fuel).events)) }
    ensures later { S.faults out.old ≤ S.faults out.new }
    ensures failed { IsErrOf result error.OutFailed → Rose (S.faults out.old) (S.faults out.new) }
{
    let tree = p.program();
    let memory = match first_memory(alloc, tree.shared.as_slice()) {
        Ok(memory) => memory,
        Err(_) => return Err(EvalError::NoMemory),
    };
    let mut world = World {
        store: Store::Main(memory),
        fuel: fuel as u64,
        steps: 0,
    };
    let mut locals: Items<Local> = Items::new(alloc);
    let went = main_statements(
        alloc,
        p,
        fuel as u64,
        tree.main.as_slice(),
        &mut locals,
        &mut world,
        out,
    );
    run_end(went, world.steps)
}

/// Runs an accepted program on one thread with this many units of fuel, and appends the lines that it prints. Each routine of
/// a step has as many units of its own. Answers how the run ended, or `OutFailed` or `NoMemory`; what a program means is told
/// in `docs/LANGUAGE.md`.
pub fn eval<S: Sink>(
    alloc: Global,
    p: &Checked,
    fuel: u32,
    out: &mut S,
) -> Result<RunEnd, EvalError>
    ensures end { IfOk result (λ end. end ≡ (meaning.meaning p.now fuel).ending) }
    ensures whole { IfOk result (λ _. Appends (S.written out.old) (S.written out.new) (text_of false (meaning.meaning p.now fuel).events)) }
    ensures prefix { OnErr result
        (AppendsPrefix (S.written out.old) (S.written out.new) (text_of false (meaning.meaning p.now fuel).events)) }
    ensures later { S.faults out.old ≤ S.faults out.new }
    ensures failed { IsErrOf result error.OutFailed → Rose (S.faults out.old) (S.faults out.new) }
{
    match Names::of(alloc, p.program()) {
        Ok(names) => eval_tree(alloc, &names, fuel, out),
        Err(_) => Err(EvalError::NoMemory),
    }
}
