//! The rules on an instruction's operands, its direction, and the shape of a code.

ghost use Rattle.std.specs.Prelude.{◌≡◌, ◌↔◌, IsTrue, length};
ghost use Rattle.std.specs.List.{AllByRecursion};
ghost use Rattle.code_verify.specs.Rules.{IsArray, HasText, IsInRange, IsAhead, Closes, HasShape};

use bytecode::{Code, Instr, Module, PrintItem};

/// How many locals and how many parameters a code has at most.
const MOST_LOCALS: usize = 64;

const MOST_PARAMETERS: u8 = 8;

/// Whether this is an array of at least one word, within the words of the module.
fn is_array(m: &Module, first: u32, count: u32) -> bool
    ensures { IsTrue result ↔ IsArray m.now first count }
{
    count >= 1 && u64::from(first) + u64::from(count) <= u64::from(m.words)
}

/// Whether the text of the item is one of the module.
fn has_text(m: &Module, item: PrintItem) -> bool
    ensures { IsTrue result ↔ HasText m.now item }
{
    match item {
        PrintItem::Text { index } => (index as usize) < m.texts.len(),
        PrintItem::Int | PrintItem::Truth => true,
    }
}

/// Whether the texts of the items are all of the module.
fn have_texts(m: &Module, items: &[PrintItem]) -> bool
    ensures { IsTrue result ↔ AllByRecursion (HasText m.now) items.now }
{
    let mut rest = items;
    while let Some((item, others)) = rest.split_first() {
        if !has_text(m, *item) {
            return false;
        }
        rest = others;
    }
    true
}

/// Whether the locals, words, arrays, texts, functions and targets that the instruction names are there.
pub fn is_in_range(m: &Module, c: &Code, instr: &Instr) -> bool
    ensures { IsTrue result ↔ IsInRange m.now c.now instr.now }
{
    match instr {
        Instr::Load(local) | Instr::Store(local) => (*local as usize) < c.locals.len(),
        Instr::Word(word) | Instr::Put(word) | Instr::AddWord(word) => *word < m.words,
        Instr::Item(first, count) | Instr::SetItem(first, count) | Instr::AddItem(first, count) =>
            is_array(m, *first, *count),
        Instr::Jump(target) | Instr::Branch(target) | Instr::Loop(target) => {
            (*target as usize) < c.instrs.len()
        }
        Instr::Call(function) => (*function as usize) < m.functions.len(),
        Instr::Print(items) => have_texts(m, items.as_slice()),
        _ => true,
    }
}

/// Whether a `Jump` or `Branch` goes on, and a `Loop` goes back or stays.
pub fn is_ahead(place: usize, instr: &Instr) -> bool
    ensures { IsTrue result ↔ IsAhead place instr.now }
{
    match instr {
        Instr::Jump(target) | Instr::Branch(target) => place < *target as usize,
        Instr::Loop(target) => *target as usize <= place,
        _ => true,
    }
}

/// Whether a code can end with the instruction.
fn closes(instr: &Instr) -> bool
    ensures { IsTrue result ↔ Closes instr.now }
{
    match instr {
        Instr::Jump(_) | Instr::Loop(_) | Instr::Return => true,
        _ => false,
    }
}

/// Whether the code keeps the limits, and ends with a `Return`, `Jump` or `Loop`.
pub fn has_shape(c: &Code) -> bool
    ensures { IsTrue result ↔ HasShape c.now }
{
    if c.locals.len() > MOST_LOCALS || c.params > MOST_PARAMETERS {
        return false;
    }
    if usize::from(c.params) > c.locals.len() {
        return false;
    }
    let count = c.instrs.len();
    if count == 0 {
        return false;
    }
    match c.instrs.get(count - 1) {
        None => false,
        Some(last) => closes(last),
    }
}
