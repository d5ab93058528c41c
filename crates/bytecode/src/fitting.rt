//! Whether a module has a spelling.

ghost use Rattle.std.specs.Prelude.{◌≡◌, ◌↔◌, IsTrue, map};
ghost use Rattle.std.specs.List.{AllByRecursion};
ghost use Rattle.bytecode.specs.Spelling.{Counted, FitsNum, FitsInitial, FitsCode, HasSpelling, AreAscending};

use crate::instr::{Instr, PrintItem};
use crate::module::{Code, Gives, Module, Ty};
use crate::reading::{
    BlockForm, FunctionForm, InitialForm, InstrForm, KindForm, NumberForm, PrintItemForm, TextForm,
    are_ascending, have_ascending,
};
use cal_terms::Text;

/// Which values have a spelling.
pub trait Fitting {
    ghost use Rattle.std.specs.Prelude.{◌↔◌, IsTrue};

    type Item;

    ghost Fits: { Self.Item → Type 0 };

    fn fits(item: &Self::Item) -> bool
        ensures { IsTrue result ↔ Fits item.now };
}

/// Whether each member has a spelling.
fn all_fit<F: Fitting>(items: &[F::Item]) -> bool
    ensures { IsTrue result ↔ AllByRecursion F.Fits items.now }
{
    let mut rest = items;
    while let Some((item, others)) = rest.split_first() {
        if !F::fits(item) {
            return false;
        }
        rest = others;
    }
    true
}

/// Whether the list can be counted and each member has a spelling.
fn counted_fit<F: Fitting>(items: &[F::Item]) -> bool
    ensures { IsTrue result ↔ Counted F.Fits items.now }
{
    items.len() < 1 << 32 && all_fit::<F>(items)
}

impl Fitting for NumberForm {
    ghost use Rattle.bytecode.specs.Spelling.{FitsNum};

    type Item = u32;

    ghost Fits = { FitsNum };

    fn fits(item: &u32) -> bool {
        // Each has a spelling. What is read is known to be in its type's range.
        let _value = *item;
        true
    }
}

impl Fitting for PrintItemForm {
    ghost use Rattle.bytecode.specs.Spelling.{FitsItem};

    type Item = PrintItem;

    ghost Fits = { FitsItem };

    fn fits(item: &PrintItem) -> bool {
        match item {
            PrintItem::Text { index } => NumberForm::fits(index),
            PrintItem::Int | PrintItem::Truth => true,
        }
    }
}

impl Fitting for InstrForm {
    ghost use Rattle.bytecode.specs.Spelling.{FitsInstr};

    type Item = Instr;

    ghost Fits = { FitsInstr };

    fn fits(item: &Instr) -> bool {
        match item {
            Instr::Int(z) => {
                // Read, so that it is known to be in its type's range.
                let _value = *z;
                true
            }
            Instr::Load(n)
            | Instr::Store(n)
            | Instr::Word(n)
            | Instr::Put(n)
            | Instr::AddWord(n)
            | Instr::Jump(n)
            | Instr::Branch(n)
            | Instr::Loop(n)
            | Instr::Call(n) => NumberForm::fits(n),
            Instr::Item(b, n) | Instr::SetItem(b, n) | Instr::AddItem(b, n) | Instr::Par(b, n) =>
                NumberForm::fits(b) && NumberForm::fits(n),
            Instr::Print(items) => counted_fit::<PrintItemForm>(items.as_slice()),
            _ => true,
        }
    }
}

impl Fitting for KindForm {
    ghost use Rattle.bytecode.specs.Spelling.{FitsKind};

    type Item = Ty;

    ghost Fits = { FitsKind };

    fn fits(_item: &Ty) -> bool {
        true
    }
}

impl Fitting for InitialForm {
    ghost use Rattle.bytecode.specs.Spelling.{FitsInitial};

    type Item = (u32, i64);

    ghost Fits = { FitsInitial };

    fn fits(item: &(u32, i64)) -> bool {
        let (_address, value) = *item;
        value != 0
    }
}

impl Fitting for TextForm {
    ghost use Rattle.bytecode.specs.Spelling.{FitsText};

    type Item = Text;

    ghost Fits = { FitsText };

    fn fits(item: &Text) -> bool {
        let bytes = item.as_slice();
        bytes.len() < 1 << 32
    }
}

/// Whether the code has a spelling as one of this many parameters that gives this back.
fn code_fits(params: u8, gives: Gives, code: &Code) -> bool
    ensures { IsTrue result ↔ FitsCode params gives code.now }
{
    code.params == params
        && code.gives == gives
        && counted_fit::<KindForm>(code.locals.as_slice())
        && counted_fit::<InstrForm>(code.instrs.as_slice())
}

impl Fitting for FunctionForm {
    ghost use Rattle.bytecode.specs.Spelling.{FitsFunction};

    type Item = Code;

    ghost Fits = { FitsFunction };

    fn fits(item: &Code) -> bool {
        code_fits(item.params, item.gives, item)
    }
}

impl Fitting for BlockForm {
    ghost use Rattle.bytecode.specs.Spelling.{FitsBlock};

    type Item = Code;

    ghost Fits = { FitsBlock };

    fn fits(item: &Code) -> bool {
        code_fits(2, Gives::Nothing, item)
    }
}

/// Whether the tally words have a spelling.
fn tallies_fit(tallies: &[u32]) -> bool
    ensures { IsTrue result ↔ (Counted FitsNum tallies.now × AreAscending tallies.now) }
{
    counted_fit::<NumberForm>(tallies) && are_ascending(tallies)
}

/// Whether the first values have a spelling.
fn initial_fits(initial_words: &[(u32, i64)]) -> bool
    ensures { IsTrue result ↔ (Counted FitsInitial initial_words.now × AreAscending (map (λ e. e.0) initial_words.now)) }
{
    counted_fit::<InitialForm>(initial_words) && have_ascending(initial_words)
}

/// Whether the module has a spelling.
pub fn has_spelling(m: &Module) -> bool
    ensures { IsTrue result ↔ HasSpelling m.now }
{
    if !NumberForm::fits(&m.words) || !tallies_fit(m.tallies.as_slice()) {
        return false;
    }
    if !initial_fits(m.initial.as_slice()) {
        return false;
    }
    if !counted_fit::<TextForm>(m.texts.as_slice()) {
        return false;
    }
    if !counted_fit::<FunctionForm>(m.functions.as_slice()) {
        return false;
    }
    if !counted_fit::<BlockForm>(m.blocks.as_slice()) {
        return false;
    }
    code_fits(0, Gives::Nothing, &m.main)
}
