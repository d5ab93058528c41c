//! The small steps.

ghost use Rattle.std.specs.Prelude.{◌≡◌, ◌≢◌, ◌≤◌, ◌<◌, ◌+◌, ◌^◌, ◌∷◌, [], ◌↔◌, IsTrue, IsSome, Some, length, take, reverse, slice_get};
ghost use Rattle.std.specs.Prelude.{map};
ghost use Rattle.cal_base.specs.Stores as stores;
ghost use Rattle.cal_base.specs.declared.value.Val.TheVariants as val;
ghost use Rattle.machine_meaning.specs.Machine as machine;
ghost use Rattle.routine_vm.specs.Frames.{behind};
ghost use Rattle.routine_vm.specs.Sites.{MayUse};
ghost use Rattle.bytecode.specs.declared.module.Module.{Module};
ghost use Rattle.routine_vm.specs.declared.frame.Body.{Body};
ghost use Rattle.routine_vm.specs.States.{HasBody, HasWordsOf, RunsAbove, code_of, state_of};
ghost use Rattle.routine_vm.specs.Steps.{Steps, StepsAnywhere, HasStep, HasBodiesOf, IsConstant, IsCalculation, IsComparison, IsOnWords};
ghost use Rattle.routine_vm.specs.Steps.{IsDirection, Pushes, Leaves, Calls, GivesBack, HaveRoom, HaveShape};

use crate::arithmetic::{difference, item_at, negative, product, quotient, remainder, sum};
use crate::frame::Frame;
use crate::kept::Kept;
use crate::run::{Led, Run, spend};
use crate::site::Site;
use bytecode::{Code, Gives, Instr, Module};
use cal_base::{Cause, Overflow};
use cal_terms::limits::MOST_WORDS;

/// Goes on behind the instruction.
fn on(call: &mut Frame) -> Led
    requires { call.old.place + 1 < 2 ^ 32 }
    ensures led { result ≡ Led.On }
    ensures call { call.new ≡ behind call.old call.old.operands }
{
    call.place += 1;
    Led::On
}

/// Goes on behind the instruction, with this value on top.
fn push(call: &mut Frame, v: Kept) -> Led
    requires place { call.old.place + 1 < 2 ^ 32 }
    requires room { length call.old.operands ≤ 1024 }
    ensures led { result ≡ Led.On }
    ensures call { call.new ≡ behind call.old (v ∷ call.old.operands) }
{
    call.operands.push(v);
    on(call)
}

/// Goes on behind the instruction, with this number on top, or traps.
fn push_number(call: &mut Frame, value: Result<i64, Cause>) -> Led
    requires place { call.old.place + 1 < 2 ^ 32 }
    requires room { length call.old.operands ≤ 1024 }
    ensures pushes { Pushes value call.old result call.new }
    ensures body { call.new.body ≡ call.old.body }
{
    match value {
        Ok(z) => push(call, Kept::int(z)),
        Err(cause) => Led::Traps(cause),
    }
}

/// Goes on with the instruction at the target.
fn jump(call: &mut Frame, target: u32) -> Led
    ensures led { result ≡ Led.On }
    ensures call { call.new ≡ record call.old { place = target } }
{
    call.place = target;
    Led::On
}

/// Puts the value of a word on top.
fn read<W, S: Site<W>>(run: &mut Run, words: &mut W, a: u32) -> Led
    requires word { MayUse (S.store words.old) a }
    requires place { run.old.call.place + 1 < 2 ^ 32 }
    requires room { length run.old.call.operands ≤ 1024 }
    ensures led { result ≡ Led.On }
    ensures run { run.new ≡ record run.old { call = behind run.old.call (val.Int (stores.read_word (S.store words.old) a) ∷ run.old.call.operands) } }
    ensures words { S.store words.new ≡ S.store words.old }
    ensures leads { S.leads words.old words.new }
{
    let z = S::read(words, a);
    push(&mut run.call, Kept::int(z))
}

/// Writes a word and goes on, or traps.
fn write<W, S: Site<W>>(run: &mut Run, words: &mut W, a: u32, value: Result<i64, Cause>) -> Led
    requires word { MayUse (S.store words.old) a }
    requires place { run.old.call.place + 1 < 2 ^ 32 }
    ensures written { Leaves (S.store words.old) run.old (machine.writes (S.store words.old) a value) result (S.store words.new) run.new }
    ensures leads { S.leads words.old words.new }
{
    match value {
        Ok(z) => {
            S::write(words, a, z);
            on(&mut run.call)
        }
        Err(cause) => Led::Traps(cause),
    }
}

/// Adds to a word and goes on, or traps.
fn add<W, S: Site<W>>(run: &mut Run, words: &mut W, a: u32, v: i64) -> Led
    requires word { a < length (stores.memory_in (S.store words.old)) }
    requires place { run.old.call.place + 1 < 2 ^ 32 }
    ensures sum { Leaves (S.store words.old) run.old (stores.add_word (S.store words.old) a v) result (S.store words.new) run.new }
    ensures leads { S.leads words.old words.new }
{
    match S::add(words, a, v) {
        Ok(()) => on(&mut run.call),
        Err(Overflow) => Led::Traps(Cause::Overflow),
    }
}

/// Calls a function, with its arguments on top.
fn call(run: &mut Run, number: u32, function: &Code) -> Led
    requires place { run.old.call.place + 1 < 2 ^ 32 }
    requires few { function.now.params ≤ length function.now.locals }
    requires room { length function.now.locals ≤ 64 }
    requires given { function.now.params ≤ length run.old.call.operands }
    requires deep { length run.old.waiting ≤ 64 }
    ensures calls { Calls number function.now run.old result run.new }
    ensures bodies { (m : Module) (bottom : Body) → number < length m.functions → RunsAbove m bottom run.old → RunsAbove m bottom run.new }
{
    if !spend(&mut run.fuel) {
        return Led::Traps(Cause::FuelSpent);
    }
    if run.waiting.is_full() {
        return Led::Traps(Cause::TooDeep);
    }
    run.waiting.enter(&mut run.call, number, function);
    Led::On
}

/// Goes on with the last call that waits, with what this one gives back on top, or ends.
fn leave(run: &mut Run, gives: Gives) -> Led
    requires given { IsSome (machine.given_back gives run.old.call.operands) }
    requires room { HaveRoom run.old.waiting }
    ensures back { GivesBack (machine.given_back gives run.old.call.operands) run.old result run.new }
    ensures bodies { (m : Module) (bottom : Body) → RunsAbove m bottom run.old → RunsAbove m bottom run.new }
{
    if run.waiting.len() == 0 {
        return Led::Ends;
    }
    match gives {
        Gives::Nothing => run.waiting.leave(&mut run.call),
        Gives::Int | Gives::Bool => {
            let v = run.call.operands.pop();
            run.waiting.leave(&mut run.call);
            run.call.operands.push(v);
        }
    }
    Led::On
}

/// Puts a constant or a local on top.
fn constant(instr: &Instr, run: &mut Run) -> Led
    requires constant { IsConstant instr.now }
    requires there { HasStep instr.now run.old }
    requires place { run.old.call.place + 1 < 2 ^ 32 }
    requires room { length run.old.call.operands ≤ 1024 }
    ensures steps { StepsAnywhere instr.now run.old result run.new }
    ensures bodies { HasBodiesOf run.old run.new }
{
    match instr {
        Instr::Int(z) => push(&mut run.call, Kept::int(*z)),
        Instr::False => push(&mut run.call, Kept::truth(false)),
        Instr::True => push(&mut run.call, Kept::truth(true)),
        Instr::Load(l) => {
            let v = run.call.locals.get(*l as usize);
            push(&mut run.call, v)
        }
        _ => unreachable!(),
    }
}

/// Puts what is calculated of the numbers on top in their place, or traps.
fn calculate(instr: &Instr, run: &mut Run) -> Led
    requires calculation { IsCalculation instr.now }
    requires there { HasStep instr.now run.old }
    requires place { run.old.call.place + 1 < 2 ^ 32 }
    requires room { length run.old.call.operands ≤ 1024 }
    ensures steps { StepsAnywhere instr.now run.old result run.new }
    ensures bodies { HasBodiesOf run.old run.new }
{
    match instr {
        Instr::Add => {
            let (x, y) = run.call.operands.numbers();
            push_number(&mut run.call, sum(x, y))
        }
        Instr::Sub => {
            let (x, y) = run.call.operands.numbers();
            push_number(&mut run.call, difference(x, y))
        }
        Instr::Mul => {
            let (x, y) = run.call.operands.numbers();
            push_number(&mut run.call, product(x, y))
        }
        Instr::Div => {
            let (x, y) = run.call.operands.numbers();
            push_number(&mut run.call, quotient(x, y))
        }
        Instr::Rem => {
            let (x, y) = run.call.operands.numbers();
            push_number(&mut run.call, remainder(x, y))
        }
        Instr::Neg => {
            let x = run.call.operands.number();
            push_number(&mut run.call, negative(x))
        }
        _ => unreachable!(),
    }
}

/// Puts what is found of the values on top, a truth, in their place.
fn compare(instr: &Instr, run: &mut Run) -> Led
    requires comparison { IsComparison instr.now }
    requires there { HasStep instr.now run.old }
    requires place { run.old.call.place + 1 < 2 ^ 32 }
    requires room { length run.old.call.operands ≤ 1024 }
    ensures steps { StepsAnywhere instr.now run.old result run.new }
    ensures bodies { HasBodiesOf run.old run.new }
{
    match instr {
        Instr::Not => {
            let b = run.call.operands.truth();
            push(&mut run.call, Kept::truth(!b))
        }
        Instr::Eq => {
            let same = run.call.operands.equal();
            push(&mut run.call, Kept::truth(same))
        }
        Instr::Ne => {
            let same = run.call.operands.equal();
            push(&mut run.call, Kept::truth(!same))
        }
        Instr::Lt => {
            let (x, y) = run.call.operands.numbers();
            push(&mut run.call, Kept::truth(x < y))
        }
        Instr::Le => {
            let (x, y) = run.call.operands.numbers();
            push(&mut run.call, Kept::truth(x <= y))
        }
        Instr::Gt => {
            let (x, y) = run.call.operands.numbers();
            push(&mut run.call, Kept::truth(x > y))
        }
        Instr::Ge => {
            let (x, y) = run.call.operands.numbers();
            push(&mut run.call, Kept::truth(x >= y))
        }
        _ => unreachable!(),
    }
}

/// Reads a word or an item, writes it or adds to it, or traps.
fn on_words<W, S: Site<W>>(m: &Module, instr: &Instr, run: &mut Run, words: &mut W) -> Led
    requires on_words { IsOnWords instr.now }
    requires there { IsSome (machine.step m.now instr.now (state_of m.now run.old (S.store words.old))) }
    requires place { run.old.call.place + 1 < 2 ^ 32 }
    requires room { length run.old.call.operands ≤ 1024 }
    requires limit { m.now.words ≤ MOST_WORDS }
    requires words { HasWordsOf m.now (S.store words.old) }
    ensures steps { Steps instr.now (machine.step m.now instr.now (state_of m.now run.old (S.store words.old)))
        (state_of m.now run.old (S.store words.old)) result (state_of m.now run.new (S.store words.new)) }
    ensures bodies { HasBodiesOf run.old run.new }
    ensures leads { S.leads words.old words.new }
{
    match instr {
        Instr::Word(a) => read::<W, S>(run, words, *a),
        Instr::Put(a) => {
            let z = run.call.operands.number();
            write::<W, S>(run, words, *a, Ok(z))
        }
        Instr::AddWord(a) => {
            let z = run.call.operands.number();
            add::<W, S>(run, words, *a, z)
        }
        Instr::Item(b, n) => {
            let x = run.call.operands.number();
            match item_at(*b, *n, x) {
                Some(a) => read::<W, S>(run, words, a),
                None => Led::Traps(Cause::OutOfRange),
            }
        }
        Instr::SetItem(b, n) => {
            let (x, z) = run.call.operands.numbers();
            match item_at(*b, *n, x) {
                Some(a) => write::<W, S>(run, words, a, Ok(z)),
                None => Led::Traps(Cause::OutOfRange),
            }
        }
        Instr::AddItem(b, n) => {
            let (x, more) = run.call.operands.numbers();
            match item_at(*b, *n, x) {
                Some(a) => {
                    let old = S::read(words, a);
                    write::<W, S>(run, words, a, sum(old, more))
                }
                None => Led::Traps(Cause::OutOfRange),
            }
        }
        _ => unreachable!(),
    }
}

/// Goes on at a target or behind the instruction, or traps.
fn direct(instr: &Instr, run: &mut Run) -> Led
    requires direction { IsDirection instr.now }
    requires there { HasStep instr.now run.old }
    requires place { run.old.call.place + 1 < 2 ^ 32 }
    ensures steps { StepsAnywhere instr.now run.old result run.new }
    ensures bodies { HasBodiesOf run.old run.new }
{
    match instr {
        Instr::Jump(t) => jump(&mut run.call, *t),
        Instr::Branch(t) => {
            if run.call.operands.truth() {
                on(&mut run.call)
            } else {
                jump(&mut run.call, *t)
            }
        }
        Instr::Loop(t) => {
            if spend(&mut run.fuel) {
                jump(&mut run.call, *t)
            } else {
                Led::Traps(Cause::FuelSpent)
            }
        }
        Instr::Assert => {
            let holds = run.call.operands.truth();
            if holds {
                on(&mut run.call)
            } else {
                Led::Traps(Cause::Assertion)
            }
        }
        _ => unreachable!(),
    }
}

/// What one instruction does.
pub fn perform<W, S: Site<W>>(
    m: &Module,
    code: &Code,
    instr: &Instr,
    run: &mut Run,
    words: &mut W,
) -> Led
    requires there { IsSome (machine.step m.now instr.now (state_of m.now run.old (S.store words.old))) }
    requires code { code.now ≡ code_of m.now run.old.call.body }
    requires place { run.old.call.place + 1 < 2 ^ 32 }
    requires room { length run.old.call.operands ≤ 1024 }
    requires callers { HaveRoom run.old.waiting }
    requires deep { length run.old.waiting ≤ 64 }
    requires shapes { HaveShape m.now.functions }
    requires limit { m.now.words ≤ MOST_WORDS }
    requires words { HasWordsOf m.now (S.store words.old) }
    ensures steps { Steps instr.now (machine.step m.now instr.now (state_of m.now run.old (S.store words.old)))
        (state_of m.now run.old (S.store words.old)) result (state_of m.now run.new (S.store words.new)) }
    ensures bodies { (bottom : Body) → RunsAbove m.now bottom run.old → RunsAbove m.now bottom run.new }
    ensures leads { S.leads words.old words.new }
{
    match instr {
        Instr::Int(_) | Instr::False | Instr::True | Instr::Load(_) => constant(instr, run),
        Instr::Add | Instr::Sub | Instr::Mul | Instr::Div | Instr::Rem | Instr::Neg => calculate(
            instr, run,
        ),
        Instr::Not | Instr::Eq | Instr::Ne | Instr::Lt | Instr::Le | Instr::Gt | Instr::Ge =>
            compare(instr, run),
        Instr::Word(_)
        | Instr::Put(_)
        | Instr::AddWord(_)
        | Instr::Item(_, _)
        | Instr::SetItem(_, _)
        | Instr::AddItem(_, _) => on_words::<W, S>(m, instr, run, words),
        Instr::Jump(_) | Instr::Branch(_) | Instr::Loop(_) | Instr::Assert => direct(instr, run),
        Instr::Store(l) => {
            let v = run.call.operands.pop();
            run.call.locals.set(*l as usize, v);
            on(&mut run.call)
        }
        Instr::Pop => {
            let _ = run.call.operands.pop();
            on(&mut run.call)
        }
        Instr::Call(f) => match m.functions.get(*f as usize) {
            Some(function) => call(run, *f, function),
            None => unreachable!(),
        },
        Instr::Return => leave(run, code.gives),
        Instr::Print(_) | Instr::Par(_, _) => Led::Event,
    }
}
