//! Writing a module as bytes.

ghost use Rattle.std.specs.Prelude.{◌≡◌, ◌<◌, ◌^◌, ◌++◌, ◌∷◌, [], ℤ, length, OnOk, IfOk};
ghost use Rattle.bytecode.specs.Spelling as spell;
ghost use Rattle.bytecode.specs.Spelling.{HasSpelling};

use crate::instr::{Instr, PrintItem};
use crate::module::{Code, Gives, Module, Ty};
use crate::reading::{
    BlockForm, FunctionForm, InitialForm, InstrForm, KindForm, NumberForm, PrintItemForm, TextForm,
};
use cal_terms::{NoMemory, Text};
use std::alloc::Global;

/// A number in at most this many bytes.
#[tactic(auto, unfolding(crate::specs::Spelling::num_in))]
fn put_num_in(out: &mut Vec<u8>, most: u8, n: u64) -> Result<(), NoMemory>
    ensures { OnOk result (out.new.items ≡ out.old.items ++ spell.num_in most n) }
{
    if most == 0 {
        return Ok(());
    }
    if n < 128 {
        out.push(n as u8)?;
        return Ok(());
    }
    out.push((128 + n % 128) as u8)?;
    put_num_in(out, most - 1, n / 128)?;
    Ok(())
}

fn put_num(out: &mut Vec<u8>, n: u32) -> Result<(), NoMemory>
    ensures { OnOk result (out.new.items ≡ out.old.items ++ spell.num n) }
{
    put_num_in(out, 10, u64::from(n))
}

fn put_zig(out: &mut Vec<u8>, z: i64) -> Result<(), NoMemory>
    ensures { OnOk result (out.new.items ≡ out.old.items ++ spell.zig z) }
{
    if z >= 0 {
        put_num_in(out, 10, 2 * (z as u64))
    } else {
        put_num_in(out, 10, 2 * (-(z + 1) as u64) + 1)
    }
}

/// How a value is spelled.
pub trait Spelled {
    ghost use Rattle.std.specs.Prelude.{◌≡◌, List, ℕ, ◌++◌, OnOk};

    type Item;

    ghost spelling: { Self.Item → List ℕ };

    fn put(out: &mut Vec<u8>, item: &Self::Item) -> Result<(), NoMemory>
        ensures { OnOk result (out.new.items ≡ out.old.items ++ spelling item.now) };
}

/// How many, and then each.
fn put_counted<F: Spelled>(out: &mut Vec<u8>, items: &[F::Item]) -> Result<(), NoMemory>
    ensures { OnOk result (out.new.items ≡ out.old.items ++ spell.counted F.spelling items.now) }
{
    put_num_in(out, 10, items.len() as u64)?;
    for item in items {
        F::put(out, item)?;
    }
    Ok(())
}

impl Spelled for NumberForm {
    ghost use Rattle.bytecode.specs.Spelling as spell;

    type Item = u32;

    ghost spelling = { spell.num };

    fn put(out: &mut Vec<u8>, item: &u32) -> Result<(), NoMemory> {
        put_num(out, *item)
    }
}

impl Spelled for PrintItemForm {
    ghost use Rattle.bytecode.specs.Spelling as spell;

    type Item = PrintItem;

    ghost spelling = { spell.print_item };

    fn put(out: &mut Vec<u8>, item: &PrintItem) -> Result<(), NoMemory> {
        match item {
            PrintItem::Text { index } => {
                out.push(0)?;
                put_num(out, *index)
            }
            PrintItem::Int => Ok(out.push(1)?),
            PrintItem::Truth => Ok(out.push(2)?),
        }
    }
}

impl Spelled for KindForm {
    ghost use Rattle.bytecode.specs.Spelling as spell;

    type Item = Ty;

    ghost spelling = { spell.kind };

    fn put(out: &mut Vec<u8>, item: &Ty) -> Result<(), NoMemory> {
        match item {
            Ty::Int => Ok(out.push(1)?),
            Ty::Bool => Ok(out.push(2)?),
        }
    }
}

fn put_one(out: &mut Vec<u8>, byte: u8, n: u32) -> Result<(), NoMemory>
    ensures { OnOk result (out.new.items ≡ out.old.items ++ (byte ∷ spell.num n)) }
{
    out.push(byte)?;
    put_num(out, n)
}

fn put_two(out: &mut Vec<u8>, byte: u8, x: u32, y: u32) -> Result<(), NoMemory>
    ensures { OnOk result (out.new.items ≡ out.old.items ++ (byte ∷ spell.num x ++ spell.num y)) }
{
    out.push(byte)?;
    put_num(out, x)?;
    put_num(out, y)
}

impl Spelled for InstrForm {
    ghost use Rattle.bytecode.specs.Spelling as spell;

    type Item = Instr;

    ghost spelling = { spell.instr };

    #[tactic(auto, unfolding(crate::specs::Spelling::instr))]
    fn put(out: &mut Vec<u8>, item: &Instr) -> Result<(), NoMemory> {
        match item {
            Instr::Int(z) => {
                out.push(0x00)?;
                put_zig(out, *z)
            }
            Instr::False => Ok(out.push(0x01)?),
            Instr::True => Ok(out.push(0x02)?),
            Instr::Add => Ok(out.push(0x03)?),
            Instr::Sub => Ok(out.push(0x04)?),
            Instr::Mul => Ok(out.push(0x05)?),
            Instr::Div => Ok(out.push(0x06)?),
            Instr::Rem => Ok(out.push(0x07)?),
            Instr::Neg => Ok(out.push(0x08)?),
            Instr::Not => Ok(out.push(0x09)?),
            Instr::Eq => Ok(out.push(0x0a)?),
            Instr::Ne => Ok(out.push(0x0b)?),
            Instr::Lt => Ok(out.push(0x0c)?),
            Instr::Le => Ok(out.push(0x0d)?),
            Instr::Gt => Ok(out.push(0x0e)?),
            Instr::Ge => Ok(out.push(0x0f)?),
            Instr::Load(l) => put_one(out, 0x10, *l),
            Instr::Store(l) => put_one(out, 0x11, *l),
            Instr::Word(a) => put_one(out, 0x12, *a),
            Instr::Put(a) => put_one(out, 0x13, *a),
            Instr::AddWord(a) => put_one(out, 0x14, *a),
            Instr::Item(b, n) => put_two(out, 0x15, *b, *n),
            Instr::SetItem(b, n) => put_two(out, 0x16, *b, *n),
            Instr::AddItem(b, n) => put_two(out, 0x17, *b, *n),
            Instr::Jump(t) => put_one(out, 0x18, *t),
            Instr::Branch(t) => put_one(out, 0x19, *t),
            Instr::Loop(t) => put_one(out, 0x1a, *t),
            Instr::Call(f) => put_one(out, 0x1b, *f),
            Instr::Return => Ok(out.push(0x1c)?),
            Instr::Pop => Ok(out.push(0x1d)?),
            Instr::Assert => Ok(out.push(0x1e)?),
            Instr::Print(items) => {
                out.push(0x1f)?;
                put_counted::<PrintItemForm>(out, items.as_slice())
            }
            Instr::Par(b, c) => put_two(out, 0x20, *b, *c),
        }
    }
}

fn put_code(out: &mut Vec<u8>, c: &Code) -> Result<(), NoMemory>
    ensures { OnOk result (out.new.items ≡ out.old.items ++ spell.code c.now) }
{
    put_counted::<KindForm>(out, c.locals.as_slice())?;
    put_counted::<InstrForm>(out, c.instrs.as_slice())
}

impl Spelled for InitialForm {
    ghost use Rattle.bytecode.specs.Spelling as spell;

    type Item = (u32, i64);

    ghost spelling = { spell.initial };

    fn put(out: &mut Vec<u8>, item: &(u32, i64)) -> Result<(), NoMemory> {
        put_num(out, item.0)?;
        put_zig(out, item.1)
    }
}

impl Spelled for TextForm {
    ghost use Rattle.bytecode.specs.Spelling as spell;

    type Item = Text;

    ghost spelling = { spell.text };

    fn put(out: &mut Vec<u8>, item: &Text) -> Result<(), NoMemory> {
        let bytes = item.as_slice();
        put_num_in(out, 10, bytes.len() as u64)?;
        out.extend_from_slice(bytes)?;
        Ok(())
    }
}

impl Spelled for BlockForm {
    ghost use Rattle.bytecode.specs.Spelling as spell;

    type Item = Code;

    ghost spelling = { spell.code };

    fn put(out: &mut Vec<u8>, item: &Code) -> Result<(), NoMemory> {
        put_code(out, item)
    }
}

fn put_given(out: &mut Vec<u8>, given: Gives) -> Result<(), NoMemory>
    ensures { OnOk result (out.new.items ≡ out.old.items ++ spell.given given) }
{
    match given {
        Gives::Nothing => Ok(out.push(0)?),
        Gives::Int => Ok(out.push(1)?),
        Gives::Bool => Ok(out.push(2)?),
    }
}

impl Spelled for FunctionForm {
    ghost use Rattle.bytecode.specs.Spelling as spell;

    type Item = Code;

    ghost spelling = { spell.function };

    fn put(out: &mut Vec<u8>, item: &Code) -> Result<(), NoMemory> {
        put_num(out, u32::from(item.params))?;
        put_given(out, item.gives)?;
        put_code(out, item)
    }
}

/// The one spelling of the module.
#[tactic(auto, unfolding(crate::specs::Spelling::spelling))]
pub fn encode(alloc: Global, m: &Module) -> Result<Vec<u8>, NoMemory>
    requires { HasSpelling m.now }
    ensures { IfOk result (λ v. v.items ≡ spell.spelling m.now) }
{
    let mut out = Vec::from_slice(alloc, &[0x43, 0x53, 0x4c, 0x31])?;
    put_num(&mut out, m.words)?;
    put_counted::<NumberForm>(&mut out, m.tallies.as_slice())?;
    put_counted::<InitialForm>(&mut out, m.initial.as_slice())?;
    put_counted::<TextForm>(&mut out, m.texts.as_slice())?;
    put_counted::<FunctionForm>(&mut out, m.functions.as_slice())?;
    put_counted::<BlockForm>(&mut out, m.blocks.as_slice())?;
    put_code(&mut out, &m.main)?;
    Ok(out)
}
