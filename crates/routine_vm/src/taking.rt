//! What main shows and opens, taken from the operands.

ghost use Rattle.std.specs.Prelude.{◌≡◌, ◌≤◌, ◌<◌, [], ◌∷◌, length, map, IsSome, IfSome, Some};
ghost use Rattle.machine_meaning.specs.Machine as machine;
ghost use Rattle.routine_vm.specs.Events.{piece_of, IsItemOf, AreItemsOf, WidthBeside, TakesWidths};

use crate::event::Item;
use crate::operands::Operands;
use crate::parts::Parts;
use bytecode::{Module, PrintItem};
use cal_terms::limits::MOST_ROUTINES;

/// Takes a printed item, with its value from the top if it has one.
fn take_item(m: &Module, item: PrintItem, operands: &mut Operands) -> Item
    requires { IsSome (machine.pieces m.now (item ∷ []) operands.old) }
    ensures piece { machine.pieces m.now (item ∷ []) operands.old ≡ Some (piece_of m.now result ∷ [], operands.new) }
    ensures is_of { IsItemOf item result }
{
    match item {
        PrintItem::Text { index } => Item::Text { index },
        PrintItem::Int => Item::Int(operands.number()),
        PrintItem::Truth => Item::Truth(operands.truth()),
    }
}

/// Takes the items of a line, the last one's value from the top.
pub fn take_items(m: &Module, line: &[PrintItem], operands: &mut Operands, items: &mut Parts<Item>)
    requires there { IsSome (machine.pieces m.now line.now operands.old) }
    requires few { length line.now ≤ 64 }
    requires none { items.old ≡ [] }
    ensures pieces { machine.pieces m.now line.now operands.old ≡ Some (map (piece_of m.now) items.new, operands.new) }
    ensures are_of { AreItemsOf line.now items.new }
    ensures count { length items.new ≡ length line.now }
{
    let mut rest = line;
    while let Some((item, others)) = rest.split_last() {
        items.put(take_item(m, *item, operands));
        rest = others;
    }
}

/// A number as a width of a step that has this many routines besides, unless it is none.
fn width_beside(total: u32, z: i64) -> Option<u32>
    requires { total ≤ MOST_ROUTINES }
    ensures { WidthBeside total z result }
{
    if 0 <= z && z <= i64::from(MOST_ROUTINES - total) {
        Some(z as u32)
    } else {
        None
    }
}

/// Takes the widths of a step, the last one from the top, and says how many routines it has, unless a number is no width.
pub fn take_widths(count: u32, operands: &mut Operands, widths: &mut Parts<u32>) -> Option<u32>
    requires there { IsSome (machine.many_numbers count operands.old) }
    requires few { count ≤ 64 }
    requires none { widths.old ≡ [] }
    ensures widths { TakesWidths count operands.old result operands.new widths.new }
    ensures count { IfSome result (λ _. length widths.new ≡ count) }
{
    let mut total = 0u32;
    for _ in 0..count {
        match width_beside(total, operands.number()) {
            None => return None,
            Some(width) => {
                total += width;
                widths.put(width);
            }
        }
    }
    Some(total)
}
