//! Reading a module from bytes.

ghost use Rattle.std.specs.Prelude.{◌≡◌, List, length, map, IfOk, MatchResult, Some, None};
ghost use Rattle.bytecode.specs.Reading as read;
ghost use Rattle.bytecode.specs.Reading.{Reads};
ghost use Rattle.bytecode.specs.Spelling.{HasSpelling, spelling};
ghost use Rattle.bytecode.specs.declared.fault.DecodeError.TheVariants as error;
ghost use Rattle.bytecode.specs.declared.module.Module.{Module};

use crate::fault::DecodeError;
use crate::instr::{Instr, PrintItem};
use crate::module::{Code, Gives, Module, Ty};
use cal_terms::Text;
use sqlite_items::Items;
use std::alloc::Global;

/// A number in at most this many bytes.
#[tactic(auto, unfolding(crate::specs::Reading::num_at))]
fn num_in(most: u8, bytes: &[u8]) -> Result<(u64, &[u8]), DecodeError>
    ensures { Reads (λ x. (x.0, x.1.now)) result (read.num_at most bytes.now) }
{
    if most == 0 {
        return Err(DecodeError::Refused);
    }
    match bytes {
        [] => Err(DecodeError::Refused),
        [b, rest @ ..] => {
            if *b < 128 {
                return Ok((u64::from(*b), rest));
            }
            let (high, after) = num_in(most - 1, rest)?;
            if high == 0 || high >= 1 << 57 {
                return Err(DecodeError::Refused);
            }
            Ok((u64::from(*b) - 128 + 128 * high, after))
        }
    }
}

/// A number below 2 ^ 32.
#[tactic(auto, unfolding(crate::specs::Reading::num32_at))]
fn num32(bytes: &[u8]) -> Result<(u32, &[u8]), DecodeError>
    ensures { Reads (λ x. (x.0, x.1.now)) result (read.num32_at bytes.now) }
{
    let (n, rest) = num_in(10, bytes)?;
    if n >= 1 << 32 {
        return Err(DecodeError::Refused);
    }
    Ok((n as u32, rest))
}

/// A signed number.
#[tactic(auto, unfolding(crate::specs::Reading::zig_at))]
fn zig(bytes: &[u8]) -> Result<(i64, &[u8]), DecodeError>
    ensures { Reads (λ x. (x.0, x.1.now)) result (read.zig_at bytes.now) }
{
    let (n, rest) = num_in(10, bytes)?;
    let half = (n / 2) as i64;
    if n % 2 == 0 {
        Ok((half, rest))
    } else {
        Ok((-half - 1, rest))
    }
}

/// How a value stands in the bytes.
pub trait Form {
    ghost use Rattle.std.specs.Prelude.{List, ℕ};
    ghost use Rattle.bytecode.specs.Reading.{Read, Reads};

    type Item: Drop;

    ghost reads: { List ℕ → Read Self.Item };

    fn read(alloc: Global, bytes: &[u8]) -> Result<(Self::Item, &[u8]), DecodeError>
        ensures { Reads (λ x. (x.0, x.1.now)) result (reads bytes.now) };
}

/// This many, one after another.
fn list_of<F: Form>(
    alloc: Global,
    count: u32,
    bytes: &[u8],
) -> Result<(Items<F::Item>, &[u8]), DecodeError>
    ensures { Reads (λ x. (x.0, x.1.now)) result (read.list_at F.reads count bytes.now) }
{
    let mut items = Items::new(alloc);
    let mut rest = bytes;
    for _ in 0..count {
        let (item, after) = F::read(alloc, rest)?;
        items.push(item)?;
        rest = after;
    }
    Ok((items, rest))
}

/// How many, and then each.
fn counted<F: Form>(alloc: Global, bytes: &[u8]) -> Result<(Items<F::Item>, &[u8]), DecodeError>
    ensures { Reads (λ x. (x.0, x.1.now)) result (read.counted_at F.reads bytes.now) }
{
    let (count, rest) = num32(bytes)?;
    list_of::<F>(alloc, count, rest)
}

fn plain_of(b: u8) -> Option<Instr>
    ensures { result ≡ read.plain_of b }
{
    match b {
        0x01 => Some(Instr::False),
        0x02 => Some(Instr::True),
        0x03 => Some(Instr::Add),
        0x04 => Some(Instr::Sub),
        0x05 => Some(Instr::Mul),
        0x06 => Some(Instr::Div),
        0x07 => Some(Instr::Rem),
        0x08 => Some(Instr::Neg),
        0x09 => Some(Instr::Not),
        0x0a => Some(Instr::Eq),
        0x0b => Some(Instr::Ne),
        0x0c => Some(Instr::Lt),
        0x0d => Some(Instr::Le),
        0x0e => Some(Instr::Gt),
        0x0f => Some(Instr::Ge),
        0x1c => Some(Instr::Return),
        0x1d => Some(Instr::Pop),
        0x1e => Some(Instr::Assert),
        _ => None,
    }
}

fn of_one(b: u8, n: u32) -> Option<Instr>
    ensures { result ≡ read.of_one b n }
{
    match b {
        0x10 => Some(Instr::Load(n)),
        0x11 => Some(Instr::Store(n)),
        0x12 => Some(Instr::Word(n)),
        0x13 => Some(Instr::Put(n)),
        0x14 => Some(Instr::AddWord(n)),
        0x18 => Some(Instr::Jump(n)),
        0x19 => Some(Instr::Branch(n)),
        0x1a => Some(Instr::Loop(n)),
        0x1b => Some(Instr::Call(n)),
        _ => None,
    }
}

fn of_two(b: u8, x: u32, y: u32) -> Option<Instr>
    ensures { result ≡ read.of_two b x y }
{
    match b {
        0x15 => Some(Instr::Item(x, y)),
        0x16 => Some(Instr::SetItem(x, y)),
        0x17 => Some(Instr::AddItem(x, y)),
        0x20 => Some(Instr::Par(x, y)),
        _ => None,
    }
}

fn takes_two(b: u8) -> bool
    ensures { result ≡ read.takes_two b }
{
    b == 0x20 || (b < 0x18 && b >= 0x15)
}

pub struct PrintItemForm;

impl Form for PrintItemForm {
    ghost use Rattle.bytecode.specs.Reading as read;

    type Item = PrintItem;

    ghost reads = { read.print_item_at };

    #[tactic(auto, unfolding(crate::specs::Reading::print_item_at))]
    fn read(_alloc: Global, bytes: &[u8]) -> Result<(PrintItem, &[u8]), DecodeError> {
        match bytes {
            [] => Err(DecodeError::Refused),
            [0, rest @ ..] => {
                let (index, rest) = num32(rest)?;
                Ok((PrintItem::Text { index }, rest))
            }
            [1, rest @ ..] => Ok((PrintItem::Int, rest)),
            [2, rest @ ..] => Ok((PrintItem::Truth, rest)),
            [_, ..] => Err(DecodeError::Refused),
        }
    }
}

pub struct KindForm;

impl Form for KindForm {
    ghost use Rattle.bytecode.specs.Reading as read;

    type Item = Ty;

    ghost reads = { read.byte_at read.kind_of };

    #[tactic(auto, unfolding(crate::specs::Reading::byte_at))]
    fn read(_alloc: Global, bytes: &[u8]) -> Result<(Ty, &[u8]), DecodeError> {
        match bytes {
            [1, rest @ ..] => Ok((Ty::Int, rest)),
            [2, rest @ ..] => Ok((Ty::Bool, rest)),
            _ => Err(DecodeError::Refused),
        }
    }
}

pub struct TextForm;

impl Form for TextForm {
    ghost use Rattle.bytecode.specs.Reading as read;

    type Item = Text;

    ghost reads = { read.text_at };

    #[tactic(auto, unfolding(crate::specs::Reading::text_at))]
    fn read(alloc: Global, bytes: &[u8]) -> Result<(Text, &[u8]), DecodeError> {
        let (len, rest) = num32(bytes)?;
        let len = len as usize;
        if rest.len() < len {
            return Err(DecodeError::Refused);
        }
        let (text, rest) = rest.split_at(len);
        Ok((Text::from_slice(alloc, text)?, rest))
    }
}

pub struct NumberForm;

impl Form for NumberForm {
    ghost use Rattle.bytecode.specs.Reading as read;

    type Item = u32;

    ghost reads = { read.num32_at };

    fn read(_alloc: Global, bytes: &[u8]) -> Result<(u32, &[u8]), DecodeError> {
        num32(bytes)
    }
}

pub struct InitialForm;

impl Form for InitialForm {
    ghost use Rattle.bytecode.specs.Reading as read;

    type Item = (u32, i64);

    ghost reads = { read.initial_at };

    #[tactic(auto, unfolding(crate::specs::Reading::initial_at))]
    fn read(_alloc: Global, bytes: &[u8]) -> Result<((u32, i64), &[u8]), DecodeError> {
        let (address, rest) = num32(bytes)?;
        let (value, rest) = zig(rest)?;
        if value == 0 {
            return Err(DecodeError::Refused);
        }
        Ok(((address, value), rest))
    }
}

/// The instruction that this byte begins.
#[tactic(auto, unfolding(crate::specs::Reading::operands_at))]
fn operands(alloc: Global, b: u8, bytes: &[u8]) -> Result<(Instr, &[u8]), DecodeError>
    ensures { Reads (λ x. (x.0, x.1.now)) result (read.operands_at b bytes.now) }
{
    if b == 0x00 {
        let (z, rest) = zig(bytes)?;
        return Ok((Instr::Int(z), rest));
    }
    if b == 0x1f {
        let (items, rest) = counted::<PrintItemForm>(alloc, bytes)?;
        return Ok((Instr::Print(items), rest));
    }
    if takes_two(b) {
        let (x, rest) = num32(bytes)?;
        let (y, rest) = num32(rest)?;
        let instr = of_two(b, x, y).ok_or(DecodeError::Refused)?;
        return Ok((instr, rest));
    }
    if b >= 0x10 && b < 0x1c {
        let (n, rest) = num32(bytes)?;
        let instr = of_one(b, n).ok_or(DecodeError::Refused)?;
        return Ok((instr, rest));
    }
    let instr = plain_of(b).ok_or(DecodeError::Refused)?;
    Ok((instr, bytes))
}

pub struct InstrForm;

impl Form for InstrForm {
    ghost use Rattle.bytecode.specs.Reading as read;

    type Item = Instr;

    ghost reads = { read.instr_at };

    #[tactic(auto, unfolding(crate::specs::Reading::instr_at))]
    fn read(alloc: Global, bytes: &[u8]) -> Result<(Instr, &[u8]), DecodeError> {
        match bytes {
            [] => Err(DecodeError::Refused),
            [b, rest @ ..] => operands(alloc, *b, rest),
        }
    }
}

/// A code of this many parameters that gives this back.
#[tactic(auto, unfolding(crate::specs::Reading::code_at))]
fn code(alloc: Global, params: u8, gives: Gives, bytes: &[u8]) -> Result<(Code, &[u8]), DecodeError>
    ensures { Reads (λ x. (x.0, x.1.now)) result (read.code_at params gives bytes.now) }
{
    let (locals, rest) = counted::<KindForm>(alloc, bytes)?;
    let (instrs, rest) = counted::<InstrForm>(alloc, rest)?;
    Ok((
        Code {
            params,
            gives,
            locals,
            instrs,
        },
        rest,
    ))
}

pub struct BlockForm;

impl Form for BlockForm {
    ghost use Rattle.bytecode.specs.Reading as read;
    ghost use Rattle.cal_terms.specs.declared.types.Gives.TheVariants.{Nothing};

    type Item = Code;

    ghost reads = { read.code_at 2 Nothing };

    fn read(alloc: Global, bytes: &[u8]) -> Result<(Code, &[u8]), DecodeError> {
        code(alloc, 2, Gives::Nothing, bytes)
    }
}

#[tactic(auto, unfolding(crate::specs::Reading::byte_at))]
fn given(bytes: &[u8]) -> Result<(Gives, &[u8]), DecodeError>
    ensures { Reads (λ x. (x.0, x.1.now)) result (read.byte_at read.given_of bytes.now) }
{
    match bytes {
        [0, rest @ ..] => Ok((Gives::Nothing, rest)),
        [1, rest @ ..] => Ok((Gives::Int, rest)),
        [2, rest @ ..] => Ok((Gives::Bool, rest)),
        _ => Err(DecodeError::Refused),
    }
}

pub struct FunctionForm;

impl Form for FunctionForm {
    ghost use Rattle.bytecode.specs.Reading as read;

    type Item = Code;

    ghost reads = { read.function_at };

    #[tactic(auto, unfolding(crate::specs::Reading::function_at))]
    fn read(alloc: Global, bytes: &[u8]) -> Result<(Code, &[u8]), DecodeError> {
        let (params, rest) = num_in(10, bytes)?;
        let (gives, rest) = given(rest)?;
        if params >= 256 {
            return Err(DecodeError::Refused);
        }
        code(alloc, params as u8, gives, rest)
    }
}

/// The four bytes before a module.
#[tactic(auto, unfolding(crate::specs::Reading::begun_at))]
fn begun(bytes: &[u8]) -> Result<&[u8], DecodeError>
    ensures { Reads (λ x. x.now) result (read.begun_at bytes.now) }
{
    match bytes {
        [0x43, 0x53, 0x4c, 0x31, rest @ ..] => Ok(rest),
        _ => Err(DecodeError::Refused),
    }
}

/// Whether each number is above those before it.
pub fn are_ascending(numbers: &[u32]) -> bool
    ensures { result ≡ read.are_ascending_from 0 numbers.now }
{
    let mut least: u64 = 0;
    for n in numbers {
        if u64::from(*n) < least {
            return false;
        }
        least = u64::from(*n) + 1;
    }
    true
}

/// The same of the addresses of first values.
pub fn have_ascending(initial_words: &[(u32, i64)]) -> bool
    ensures { result ≡ read.are_ascending_from 0 (map (λ e. e.0) initial_words.now) }
{
    let mut least: u64 = 0;
    for (address, _) in initial_words {
        if u64::from(*address) < least {
            return false;
        }
        least = u64::from(*address) + 1;
    }
    true
}

/// The module that all of the bytes spell.
#[tactic(auto, unfolding(crate::specs::Reading::module_of))]
fn module(alloc: Global, bytes: &[u8]) -> Result<Module, DecodeError>
    ensures { Reads (λ m. m) result (read.module_of bytes.now) }
{
    let rest = begun(bytes)?;
    let (words, rest) = num32(rest)?;
    let (tallies, rest) = counted::<NumberForm>(alloc, rest)?;
    let (initial, rest) = counted::<InitialForm>(alloc, rest)?;
    let (texts, rest) = counted::<TextForm>(alloc, rest)?;
    let (functions, rest) = counted::<FunctionForm>(alloc, rest)?;
    let (blocks, rest) = counted::<BlockForm>(alloc, rest)?;
    let (main, rest) = code(alloc, 0, Gives::Nothing, rest)?;
    if are_ascending(tallies.as_slice()) && have_ascending(initial.as_slice()) && rest.is_empty() {
        Ok(Module {
            words,
            tallies,
            initial,
            texts,
            functions,
            blocks,
            main,
        })
    } else {
        Err(DecodeError::Refused)
    }
}

/// The one module that the bytes spell. Entries are kept as they are read, so that a large count alone takes no memory.
pub fn decode(alloc: Global, bytes: &[u8]) -> Result<Module, DecodeError>
    ensures spelled { IfOk result (λ m. HasSpelling m × (bytes.now ≡ spelling m)) }
    ensures only { (m : Module) → HasSpelling m → bytes.now ≡ spelling m
        → MatchResult result (λ found. found ≡ m) (λ e. e ≡ error.NoMemory) }
{
    module(alloc, bytes)
}
