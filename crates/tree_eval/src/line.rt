//! The lines that main prints.

ghost use Rattle.std.specs.Prelude.{◌≡◌, ◌≤◌, ◌++◌, IfOk, OnOk};
ghost use Rattle.cal_base.specs.Printing as printing;
ghost use Rattle.csl_meaning.specs.Effect.{calls_to, most_levels};
ghost use Rattle.csl_meaning.specs.Meaning as meaning;
ghost use Rattle.statement_eval.specs.Fits.{FitsMemory};
ghost use Rattle.statement_eval.specs.Follows.{Follows, AppendsAll, stays};
ghost use Rattle.tree_eval.specs.Pieces.{piece_of, spaced};

use cal_base::{NoMemory, Val};
use csl_meaning::{Local, World};
use csl_tree::name::Text;
use csl_tree::program::Item;
use itoa::Buffer;
use sqlite_items::Items;
use statement_eval::halt::Halt;
use statement_eval::names::Names;
use statement_eval::stmt::{MOST_LEVELS, value};
use std::alloc::Global;

/// A value as it is printed: a number in decimal, or `true` or `false`.
fn shown(alloc: Global, value: Val) -> Result<Text, NoMemory>
    ensures { IfOk result (λ text. text ≡ printing.shown value) }
{
    match value {
        Val::Int(number) => {
            let mut buffer = Buffer::new();
            Text::from_slice(alloc, buffer.format(number).as_bytes())
        }
        Val::Truth(true) => Text::from_slice(alloc, b"true"),
        Val::Truth(false) => Text::from_slice(alloc, b"false"),
    }
}

/// The text of a printed item.
fn piece(
    alloc: Global,
    p: &Names<'_>,
    item: &Item,
    locals: &Items<Local>,
    world: &mut World,
) -> Result<Text, Halt>
    requires { FitsMemory p.now.shared }
    ensures follows { Follows (piece_of p.now (calls_to p.now most_levels) locals.now item.now world.old) result world.new }
    ensures fuel { world.new.fuel ≤ world.old.fuel }
    ensures stays { stays world.new ≡ stays world.old }
{
    match item {
        Item::Text(name) => Ok(Text::from_slice(alloc, name.text.as_slice())?),
        Item::Value(e) => {
            let v = value(alloc, p, MOST_LEVELS, locals, e, world)?;
            Ok(shown(alloc, v)?)
        }
    }
}

/// Appends the text of each printed item. The values are evaluated from left to right.
pub fn pieces(
    alloc: Global,
    p: &Names<'_>,
    items: &[Item],
    locals: &Items<Local>,
    texts: &mut Items<Text>,
    world: &mut World,
) -> Result<(), Halt>
    requires { FitsMemory p.now.shared }
    ensures follows { AppendsAll (meaning.pieces p.now (calls_to p.now most_levels) locals.now items.now) texts.old
        world.old result texts.new world.new }
    ensures fuel { world.new.fuel ≤ world.old.fuel }
    ensures stays { stays world.new ≡ stays world.old }
{
    for item in items {
        let text = piece(alloc, p, item, locals, world)?;
        texts.push(text)?;
    }
    Ok(())
}

/// Appends a piece of a line, and a blank behind it unless it is the last one.
fn add_piece(line: &mut Vec<u8>, text: &Text, last: bool) -> Result<(), NoMemory>
    ensures { OnOk result (line.new.items ≡ line.old.items ++ spaced last text.now) }
{
    line.extend_from_slice(text.as_slice())?;
    if !last {
        line.push(32)?;
    }
    Ok(())
}

/// The pieces of a line with one blank between, and a line feed at the end.
pub fn line_of(alloc: Global, texts: &[Text]) -> Result<Vec<u8>, NoMemory>
    ensures { IfOk result (λ line. line.items ≡ printing.line_of texts.now) }
{
    let mut line = Vec::new(alloc);
    for (i, text) in texts.iter().enumerate() {
        add_piece(&mut line, text, i + 1 == texts.len())?;
    }
    line.push(10)?;
    Ok(line)
}
