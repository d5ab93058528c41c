//! Runs up to an event, a trap or the end.

ghost use Rattle.std.specs.Prelude.{◌≡◌, Some, slice_get};
ghost use Rattle.code_verify.specs.Rules.{IsVerified};
ghost use Rattle.routine_vm.specs.declared.frame.Body.{Body};
ghost use Rattle.routine_vm.specs.States.{HasBody, RunsAbove, code_of, state_of};
ghost use Rattle.routine_vm.specs.Ready.{IsReady, Stepped, Stopped, GoesOn};

use crate::frame::Body;
use crate::run::{Led, Run};
use crate::site::Site;
use crate::step::perform;
use bytecode::{Code, Module};
use cal_base::Cause;

/// Where a run stops.
#[derive(Clone, Copy, PartialEq, Eq, Debug)]
pub enum Stop {
    /// At the end.
    Ends,
    Traps(Cause),
    /// Before an instruction that shows a line or opens a step.
    Event,
}

/// The code of a body of the module.
pub fn body_code(m: &Module, body: Body) -> &Code
    requires { HasBody m.now body }
    ensures { result.now ≡ code_of m.now body }
{
    match body {
        Body::Main => &m.main,
        Body::Block(b) => &m.blocks.as_slice()[b as usize],
        Body::Function(f) => &m.functions.as_slice()[f as usize],
    }
}

/// Does the instruction at the place of the call that runs.
fn step<W, S: Site<W>>(m: &Module, run: &mut Run, words: &mut W) -> Led
    requires verified { IsVerified m.now }
    requires ready { IsReady m.now run.old (S.store words.old) }
    ensures stepped { Stepped m.now (state_of m.now run.old (S.store words.old)) result (state_of m.now run.new (S.store words.new)) }
    ensures bodies { (bottom : Body) → RunsAbove m.now bottom run.old → RunsAbove m.now bottom run.new }
    ensures leads { S.leads words.old words.new }
{
    let code = body_code(m, run.call.body);
    match code.instrs.get(run.call.place as usize) {
        Some(instr) => perform::<W, S>(m, code, instr, run, words),
        None => unreachable!(),
    }
}

/// Runs up to an event, a trap or the end.
pub fn go<W, S: Site<W>>(m: &Module, run: &mut Run, words: &mut W) -> Stop
    requires verified { IsVerified m.now }
    requires ready { IsReady m.now run.old (S.store words.old) }
    ensures stopped { Stopped m.now (state_of m.now run.old (S.store words.old)) result (state_of m.now run.new (S.store words.new)) }
    ensures goes_on { GoesOn m.now result run.new (S.store words.new) }
    ensures bodies { (bottom : Body) → RunsAbove m.now bottom run.old → RunsAbove m.now bottom run.new }
    ensures leads { S.leads words.old words.new }
{
    'steps: loop {
        match step::<W, S>(m, run, words) {
            Led::On => {}
            Led::Ends => return Stop::Ends,
            Led::Traps(cause) => return Stop::Traps(cause),
            Led::Event => return Stop::Event,
        }
    }
}
