//! The calls that wait.

ghost use Rattle.std.specs.Prelude.{◌≡◌, ◌≢◌, ◌≤◌, ◌<◌, ◌+◌, ◌^◌, ◌∷◌, ◌==◌, [], length, take, drop, reverse, IfOk, vec_len};
ghost use Rattle.std.specs.Vec.{vec_capacity};
ghost use Rattle.routine_vm.specs.Frames.{begun_frame, behind};

use crate::frame::{Body, Frame};
use bytecode::Code;
use cal_base::NoMemory;
use std::alloc::Global;
use std::marker::Model;
use std::mem;

/// How many calls wait at most.
const ROOM: usize = 64;

/// The calls that wait for the one above them, the last one first. All room is taken when they are made: a frame in which no call
/// waits is kept in reserve.
#[derive(Drop)]
pub struct Waiting {
    waiting: Vec<Frame>,
    reserve: Vec<Frame>,
}

impl Model for Waiting {
    ghost use Rattle.std.specs.Prelude.{List, reverse, ◌≡◌, ◌≤◌, ◌+◌};
    ghost use Rattle.std.specs.Vec.{vec_capacity, vec_len};
    ghost use Rattle.routine_vm.specs.declared.frame.Frame.{Frame};

    ghost Value = { List Frame };

    ghost view = { λ s. reverse s.waiting.items };

    ghost invariant = { λ s. (64 ≤ vec_capacity s.waiting) × (64 ≤ vec_capacity s.reserve) × (vec_len s.waiting + vec_len s.reserve ≡ 64) };
}

/// The frames of the reserve, one for each call that may wait.
fn frames(alloc: Global) -> Result<Vec<Frame>, NoMemory>
    ensures many { IfOk result (λ frames. vec_len frames ≡ 64) }
    ensures room { IfOk result (λ frames. 64 ≤ vec_capacity frames) }
{
    let mut frames = Vec::with_capacity(alloc, ROOM)?;
    for _ in 0..ROOM {
        frames.push(Frame::make(alloc)?)?;
    }
    Ok(frames)
}

impl Waiting {
    pub fn make(alloc: Global) -> Result<Waiting, NoMemory>
        ensures { IfOk result (λ s. s ≡ []) }
    {
        let waiting = Vec::with_capacity(alloc, ROOM)?;
        let reserve = frames(alloc)?;
        Ok(Waiting { waiting, reserve })
    }

    pub fn len(&self) -> usize
        ensures { result ≡ length self.now }
    {
        self.waiting.len()
    }

    /// Whether no call more may wait.
    pub fn is_full(&self) -> bool
        ensures { result ≡ (length self.now == 64) }
    {
        self.waiting.len() == ROOM
    }

    /// Lets the call that runs wait behind its instruction, and begins the call of a function, whose code this is, with the operands on
    /// top as its arguments.
    pub fn enter(&mut self, call: &mut Frame, function: u32, code: &Code)
        requires deep { length self.old < 64 }
        requires place { call.old.place + 1 < 2 ^ 32 }
        requires params { code.now.params ≤ length code.now.locals }
        requires room { length code.now.locals ≤ 64 }
        requires given { code.now.params ≤ length call.old.operands }
        ensures call { call.new ≡ begun_frame (Body.Function function) code.now (reverse (take code.now.params call.old.operands)) }
        ensures waiting { self.new ≡ behind call.old (drop code.now.params call.old.operands) ∷ self.old }
    {
        let mut callee = match self.reserve.pop() {
            Some(frame) => frame,
            None => unreachable!(),
        };
        let count = usize::from(code.params);
        callee.begin(Body::Function(function), code, call.operands.last(count));
        call.operands.cut(count);
        call.place += 1;
        let caller = mem::replace(call, callee);
        match self.waiting.push(caller) {
            Ok(()) => {}
            Err(_) => unreachable!(),
        }
    }

    /// Goes on with the last call that waits, in the place of the one that is done.
    pub fn leave(&mut self, call: &mut Frame)
        requires { self.old ≢ [] }
        ensures { self.old ≡ call.new ∷ self.new }
    {
        let caller = match self.waiting.pop() {
            Some(frame) => frame,
            None => unreachable!(),
        };
        let done = mem::replace(call, caller);
        match self.reserve.push(done) {
            Ok(()) => {}
            Err(_) => unreachable!(),
        }
    }

    /// Lets no call wait any more.
    pub fn clear(&mut self)
        ensures { self.new ≡ [] }
    {
        while let Some(frame) = self.waiting.pop() {
            match self.reserve.push(frame) {
                Ok(()) => {}
                Err(_) => unreachable!(),
            }
        }
    }
}
