//! The calls of a run.

ghost use Rattle.std.specs.Prelude.{◌≡◌, ◌≤◌, ◌<◌, ◌++◌, ◌+◌, [], length, map, drop, IfOk};
ghost use Rattle.machine_meaning.specs.Machine as machine;

use crate::kept::Kept;
use crate::locals::Locals;
use crate::operands::Operands;
use bytecode::{Code, Ty};
use cal_base::NoMemory;
use std::alloc::Global;

/// What a call runs: main, a block or a function of the module.
#[derive(Clone, Copy, PartialEq, Eq, Debug)]
pub enum Body {
    Main,
    Block(u32),
    Function(u32),
}

/// A call: what it runs, its place there, its locals and its operands.
#[derive(Drop)]
pub struct Frame {
    pub body: Body,
    pub place: u32,
    pub locals: Locals,
    pub operands: Operands,
}

/// What a local begins as.
fn first_value(kind: Ty) -> Kept
    ensures { result ≡ machine.first_value kind }
{
    match kind {
        Ty::Int => Kept::int(0),
        Ty::Bool => Kept::truth(false),
    }
}

/// Appends these values.
fn push_given(locals: &mut Locals, given: &[Kept])
    requires { length locals.old + length given.now ≤ 64 }
    ensures { locals.new ≡ locals.old ++ given.now }
{
    for v in given {
        locals.push(v.again());
    }
}

/// Appends what locals of these kinds begin as.
fn push_first(locals: &mut Locals, kinds: &[Ty])
    requires { length locals.old + length kinds.now ≤ 64 }
    ensures { locals.new ≡ locals.old ++ map machine.first_value kinds.now }
{
    for kind in kinds {
        locals.push(first_value(*kind));
    }
}

impl Frame {
    ghost use Rattle.routine_vm.specs.Frames.{begun_frame};

    pub fn make(alloc: Global) -> Result<Frame, NoMemory> {
        let locals = Locals::make(alloc)?;
        let operands = Operands::make(alloc)?;
        Ok(Frame {
            body: Body::Main,
            place: 0,
            locals,
            operands,
        })
    }

    /// Begins a call of this body, whose code this is, with these arguments.
    pub fn begin(&mut self, body: Body, code: &Code, given: &[Kept])
        requires params { code.now.params ≤ length code.now.locals }
        requires given { length given.now ≡ code.now.params }
        requires room { length code.now.locals ≤ 64 }
        ensures { self.new ≡ begun_frame body code.now given.now }
    {
        self.body = body;
        self.place = 0;
        self.operands.clear();
        self.locals.clear();
        push_given(&mut self.locals, given);
        push_first(
            &mut self.locals,
            &code.locals.as_slice()[usize::from(code.params)..],
        );
    }
}
