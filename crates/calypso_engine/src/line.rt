//! The lines that main shows.

ghost use Rattle.std.specs.Prelude.{◌≡◌, ◌≤◌, ◌++◌, [], length, map, IfOk, OnOk, OnErr, IsErrOf};
ghost use Rattle.std.specs.Io.KnownBytes.{Appends};
ghost use Rattle.cal_base.specs.Causes.{Rose};
ghost use Rattle.cal_base.specs.Contents.{AppendsPrefix};
ghost use Rattle.cal_base.specs.Printing as printing;
ghost use Rattle.routine_vm.specs.Events.{piece_of};
ghost use Rattle.calypso_engine.specs.Lines.{spaced};
ghost use Rattle.calypso_engine.specs.declared.error.RunError.TheVariants as error;

use crate::error::RunError;
use cal_base::{NoMemory, Sink, write_all};
use code_verify::Verified;
use itoa::Buffer;
use routine_vm::{Item, Machine};
use std::alloc::Global;

/// Appends the text of an item.
fn add_piece(line: &mut Vec<u8>, code: &Verified, item: Item) -> Result<(), NoMemory>
    ensures { OnOk result (line.new.items ≡ line.old.items ++ piece_of code.now item) }
{
    match item {
        Item::Text { index } => match code.module().texts.get(index as usize) {
            Some(text) => line.extend_from_slice(text.as_slice())?,
            None => {}
        },
        Item::Int(number) => {
            let mut buffer = Buffer::new();
            line.extend_from_slice(buffer.format(number).as_bytes())?;
        }
        Item::Truth(true) => line.extend_from_slice(b"true")?,
        Item::Truth(false) => line.extend_from_slice(b"false")?,
    }
    Ok(())
}

/// Appends the text of an item, and a blank behind it unless it is the last one.
fn add_item(line: &mut Vec<u8>, code: &Verified, item: Item, last: bool) -> Result<(), NoMemory>
    ensures { OnOk result (line.new.items ≡ line.old.items ++ spaced last (piece_of code.now item)) }
{
    add_piece(line, code, item)?;
    if !last {
        line.push(32)?;
    }
    Ok(())
}

/// The line that main shows: the texts of its items with one blank between, and a line feed at the end.
fn line_of(
    alloc: Global,
    code: &Verified,
    machine: &Machine,
    items: u32,
) -> Result<Vec<u8>, NoMemory>
    requires { items ≡ length machine.now.items }
    ensures { IfOk result (λ line. line.items ≡ printing.line_of (map (piece_of code.now) machine.now.items)) }
{
    let mut line = Vec::new(alloc);
    for i in 0..items {
        let item = machine.item(i);
        add_item(&mut line, code, item, i == items - 1)?;
    }
    line.push(10)?;
    Ok(line)
}

/// Writes the line that main shows. Where the run gives up, a front of the line was written.
pub fn print<S: Sink>(
    alloc: Global,
    code: &Verified,
    machine: &Machine,
    items: u32,
    out: &mut S,
) -> Result<(), RunError>
    requires { items ≡ length machine.now.items }
    ensures ok { OnOk result (Appends (S.written out.old) (S.written out.new)
        (printing.line_of (map (piece_of code.now) machine.now.items))) }
    ensures err { OnErr result (AppendsPrefix (S.written out.old) (S.written out.new)
        (printing.line_of (map (piece_of code.now) machine.now.items))) }
    ensures memory { IsErrOf result error.NoMemory → Appends (S.written out.old) (S.written out.new) [] }
    ensures named { IsErrOf result error.FileFailed → ⊥ }
    ensures later { S.faults out.old ≤ S.faults out.new }
    ensures failed { IsErrOf result error.OutFailed → Rose (S.faults out.old) (S.faults out.new) }
{
    let line = line_of(alloc, code, machine, items)?;
    match write_all(out, line.as_slice()) {
        Ok(()) => Ok(()),
        Err(_) => Err(RunError::OutFailed),
    }
}
